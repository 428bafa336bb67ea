//! Enumerations that are JSON strings, as levels and statuses.

ghost use Rattle.std.specs.Prelude.{◌≡◌, ℕ, List, Option};
ghost use Rattle.sentry_tables.specs.Spelling.{ReadsSpelling, enumeration, spelled_kind, word_cell};

use crate::codec::Codec;
use crate::error::TreeError;
use crate::member::{Formed, Usual};
use crate::read::ReadCodec;
use crate::way::Way;
use sentry_json::{Node, Writer};
use serde_json::Value;
use std::alloc::{AllocError, Global};

/// An enumeration whose values are words; a [`Member`](crate::Member) in the form [`AsWord`].
pub trait Word: Clone {
    ghost word: { Self → List ℕ };

    ghost of_word: { List ℕ → Option Self };

    /// Returns the word in payloads.
    fn word(&self) -> &'static str
        ensures { result.now ≡ word self.now };

    /// Parses a word; `None` if the text is not a known one.
    fn of_word(text: &str) -> Option<Self>
        ensures { result ≡ of_word text.now };

    ghost copies: { (value copy : Self) → Self.is_clone value copy → copy ≡ value };
}

fn read_word<T: Word>(text: &str) -> Result<T, TreeError>
    ensures { ReadsSpelling (enumeration T.of_word T.word) (word_cell T.word) text.now result }
{
    match T::of_word(text) {
        Some(value) => Ok(value),
        None => Err(TreeError::Misfit),
    }
}

/// The form of a [`Word`]: a JSON string.
pub struct AsWord;

impl<T: Word> Codec<T> for AsWord {
    ghost kind = { spelled_kind (enumeration T.of_word T.word) };

    ghost cell_of = { word_cell T.word };

    #[tactic(auto, using(crate::proofs::Spellings::text_tree))]
    fn to_tree(value: &T, alloc: Global) -> Result<Value, AllocError> {
        Value::try_from_str(alloc, value.word())
    }

    #[tactic(auto, using(crate::proofs::Spellings::spelling_wrote))]
    fn write(value: &T, out: &mut Writer) -> Result<(), AllocError> {
        out.string(value.word())
    }

    #[tactic(auto, using(crate::proofs::Ways::unchanged))]
    fn remake(value: &T, _way: Way) -> Result<T, AllocError> {
        value.clone()
    }

    fn is_null_tree(_value: &T) -> bool {
        false
    }

    fn is_plain(_value: &T) -> bool {
        true
    }
}

impl<T: Word> ReadCodec<T> for AsWord {
    #[tactic(auto, using(crate::proofs::Spellings::text_read, crate::proofs::Spellings::not_text))]
    fn from_node<N: Node>(_alloc: Global, node: &N) -> Result<T, TreeError> {
        read_word(node.as_str().ok_or(TreeError::Misfit)?)
    }
}

impl<T: Word> Formed for T {
    type Form = AsWord;
}

impl<T: Word> Usual for T {
    fn is(&self, usual: &T) -> bool {
        self.word() == usual.word()
    }
}
