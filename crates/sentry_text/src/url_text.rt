//! The form of URLs as trees.

ghost use Rattle.std.specs.Prelude.{◌≡◌};
ghost use Rattle.url.specs.Parts.{IsValid};
ghost use Rattle.sentry_tables.specs.Spelling.{ReadsSpelling};
ghost use Rattle.sentry_text.specs.UrlTree as spec;
ghost use Rattle.sentry_text.specs.UrlTree.{url_cell, url_kind, url_spelling};

use sentry_json::{Node, Writer};
use sentry_tables::{Codec, ReadCodec, TreeError, Way};
use serde_json::Value;
use std::alloc::{AllocError, Global};
use url::{ParseError, Url};

/// The JSON form of a URL as a string.
///
/// A URL is read from any text that the URL Standard's parser accepts without a base, and written
/// as its serialization. Each URL that was read reads back from its serialization unchanged, and so
/// does each URL of the schemes `http`, `https`, `ws`, `wss` and `ftp`.
///
/// Reading fails with `Misfit` if the tree is not a string or the string is not a URL, and with
/// `Memory` if an allocation fails or the URL would take 4 GB.
pub struct UrlText;

impl Codec<Url> for UrlText {
    ghost kind = { url_kind };

    ghost cell_of = { url_cell };

    #[tactic(auto, using(crate::proofs::UrlTrees::tree_made))]
    fn to_tree(value: &Url, alloc: Global) -> Result<Value, AllocError> {
        Value::try_from_str(alloc, value.as_str())
    }

    #[tactic(auto, using(crate::proofs::UrlTrees::url_wrote))]
    fn write(value: &Url, out: &mut Writer) -> Result<(), AllocError> {
        out.string(value.as_str())
    }

    #[tactic(auto, using(sentry_tables::proofs::Ways::unchanged))]
    fn remake(value: &Url, _way: Way) -> Result<Url, AllocError> {
        value.clone()
    }

    fn is_null_tree(_value: &Url) -> bool {
        false
    }

    fn is_plain(value: &Url) -> bool {
        hold_url(value);
        true
    }
}

impl ReadCodec<Url> for UrlText {
    #[tactic(auto, using(sentry_tables::proofs::Spellings::text_read, sentry_tables::proofs::Spellings::not_text))]
    fn from_node<N: Node>(alloc: Global, node: &N) -> Result<Url, TreeError> {
        read_url(alloc, node.as_str().ok_or(TreeError::Misfit)?)
    }
}

// The URL of a text.
fn read_url(alloc: Global, text: &str) -> Result<Url, TreeError>
    ensures { ReadsSpelling url_spelling url_cell text.now result }
{
    Url::parse(alloc, text).map_err(tree_error)
}

// The error of a tree with a text that was refused, or for which there was no room.
fn tree_error(error: ParseError) -> TreeError
    ensures { result ≡ spec.tree_error error }
{
    match error {
        ParseError::Overflow | ParseError::OutOfMemory => TreeError::Memory,
        _ => TreeError::Misfit,
    }
}

// Nothing; the parts of a URL are valid.
fn hold_url(url: &Url)
    ensures { IsValid url.now }
{
    let _port = url.port();
}
