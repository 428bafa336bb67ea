//! Client authentication as a JSON object, which never holds the timestamp.

ghost use Rattle.std.specs.Prelude.{◌≡◌, None, IfOk};
ghost use Rattle.sentry_tables.specs.Reading.{Reads};
ghost use Rattle.sentry_keys.specs.AuthFields.{auth_table, rows_cell};

use crate::auth::{Auth, LATEST};
use sentry_json::{Node, Writer};
use sentry_rows::table::{table_tree, write_table};
use sentry_rows::{Reader, Sink, Source, Table};
use sentry_tables::{FromTree, Member, TreeError, Way};
use serde_json::Value;
use std::alloc::{AllocError, Global};

impl Table for Auth {
    ghost use Rattle.sentry_keys.specs.AuthFields.{auth_fields, auth_in_order};

    ghost lines = { auth_fields };

    fn rows<S: Sink>(&self, to: &mut S) {
        to.optional_or_null("sentry_client", &self.client);
        to.required("sentry_key", &self.key);
        to.optional_or_null("sentry_secret", &self.secret);
        to.required("sentry_version", &self.version);
    }

    ghost ordered = { auth_in_order };
}

impl Member for Auth {
    ghost use Rattle.sentry_keys.specs.AuthFields.{auth_kind, auth_cell};

    ghost kind = { auth_kind };

    ghost cell_of = { auth_cell };

    #[tactic(auto, using(crate::proofs::AuthTrees::tree_is))]
    fn to_tree(&self, alloc: Global) -> Result<Value, AllocError> {
        table_tree(self, alloc)
    }

    #[tactic(auto, using(crate::proofs::AuthTrees::tree_wrote))]
    fn write(&self, out: &mut Writer) -> Result<(), AllocError> {
        write_table(self, out)
    }

    #[tactic(auto, using(crate::proofs::AuthMade::copy_made, crate::proofs::AuthMade::normal_made))]
    fn remake(&self, way: Way) -> Result<Auth, AllocError> {
        let mut copy = self.clone()?;
        match way {
            Way::Same => Ok(copy),
            Way::Normal(_) => {
                copy.timestamp = None;
                Ok(copy)
            }
        }
    }

    #[tactic(auto, unfolding(crate::specs::AuthFields::auth_kind))]
    fn is_null_tree(&self) -> bool {
        false
    }

    fn is_plain(&self) -> bool {
        self.version.is_plain()
    }
}

// Reads the rows of an object; the timestamp is `None`.
#[tactic(auto, using(sentry_rows::proofs::Answering::no_object_fails), unfolding(crate::specs::AuthFields::auth_table))]
fn read_rows<N: Node>(alloc: Global, node: &N) -> Result<Auth, TreeError>
    ensures rows { Reads auth_table rows_cell (N.data_of node.now) result }
    ensures untimed { IfOk result (λ auth. auth.timestamp ≡ None) }
{
    let mut from = Reader::new(alloc, node)?;
    let auth = Auth {
        timestamp: None,
        client: from.optional_or_null("sentry_client"),
        key: from.text("sentry_key"),
        secret: from.optional_or_null("sentry_secret"),
        version: from.required("sentry_version", LATEST),
    };
    from.end(auth)
}

impl FromTree for Auth {
    #[tactic(auto, using(crate::proofs::AuthTrees::auth_read))]
    fn from_node<N: Node>(alloc: Global, node: &N) -> Result<Auth, TreeError> {
        read_rows(alloc, node)
    }
}
