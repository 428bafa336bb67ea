//! DSNs as JSON strings.

ghost use Rattle.std.specs.Prelude.{◌≡◌, IsUtf8};
ghost use Rattle.sentry_tables.specs.Spelling.{ReadsSpelling};
ghost use Rattle.sentry_keys.specs.Dsn.{dsn_parts, dsn_text};
ghost use Rattle.sentry_keys.specs.DsnTree as spec;
ghost use Rattle.sentry_keys.specs.DsnTree.{dsn_cell, dsn_kind, dsn_spelling};

use crate::dsn::Dsn;
use crate::dsn_error::ParseDsnError;
use sentry_json::{Node, Writer};
use sentry_tables::{FromTree, Member, TreeError, Way};
use serde_json::Value;
use std::alloc::{AllocError, Global};

impl Dsn {
    // Does nothing at run time; states that the text of a DSN is UTF-8.
    fn hold(&self)
        ensures { IsUtf8 (dsn_text (dsn_parts self.now)) }
    {
        let _port = self.port();
    }
}

// Converts an error of parsing: `Memory` stays, any other error becomes `Misfit`.
fn tree_error(error: ParseDsnError) -> TreeError
    ensures { result ≡ spec.tree_error error }
{
    match error {
        ParseDsnError::Memory => TreeError::Memory,
        _ => TreeError::Misfit,
    }
}

// Parses a DSN in a JSON string.
#[tactic(auto, using(crate::proofs::DsnTrees::tree_refused))]
fn dsn_of_text(alloc: Global, text: &str) -> Result<Dsn, TreeError>
    ensures { ReadsSpelling dsn_spelling dsn_cell text.now result }
{
    Dsn::from_str(alloc, text).map_err(tree_error)
}

impl Member for Dsn {
    ghost kind = { dsn_kind };

    ghost cell_of = { dsn_cell };

    fn to_tree(&self, alloc: Global) -> Result<Value, AllocError> {
        Value::try_from_str(alloc, self.to_string(alloc)?.as_str())
    }

    fn write(&self, out: &mut Writer) -> Result<(), AllocError> {
        let text = self.to_string(self.allocator())?;
        out.string(text.as_str())
    }

    #[tactic(auto, using(sentry_tables::proofs::Ways::unchanged))]
    fn remake(&self, _way: Way) -> Result<Dsn, AllocError> {
        self.clone()
    }

    fn is_null_tree(&self) -> bool {
        false
    }

    fn is_plain(&self) -> bool {
        self.hold();
        true
    }
}

impl FromTree for Dsn {
    #[tactic(auto, using(sentry_tables::proofs::Spellings::text_read, sentry_tables::proofs::Spellings::not_text))]
    fn from_node<N: Node>(alloc: Global, node: &N) -> Result<Dsn, TreeError> {
        dsn_of_text(alloc, node.as_str().ok_or(TreeError::Misfit)?)
    }
}
