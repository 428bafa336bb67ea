//! Values that are JSON strings, as ids and IP addresses.

ghost use Rattle.std.specs.Prelude.{◌≡◌, ◌≤◌, ◌↔◌, ℕ, List, length, IfOk, IfErr, IfSome};
ghost use Rattle.sentry_tables.specs.Cell.{Cell};
ghost use Rattle.sentry_tables.specs.Made.{made};
ghost use Rattle.sentry_tables.specs.Spelling.{Spelling, spelled_kind, ReadsSpelling, FitsRoom};

use crate::codec::Codec;
use crate::error::TreeError;
use crate::read::ReadCodec;
use crate::way::Way;
use arrayvec::ArrayString;
use sentry_json::{Node, Writer};
use serde_json::Value;
use std::alloc::{AllocError, Global};
use std::fmt::{Display, Write};

/// Buffer of 64 bytes for the text of a value that doesn't store its text.
pub type Room = ArrayString<64>;

/// Returns the capacity of a [`Room`] in bytes.
pub fn room_size() -> usize
    ensures { (s : List ℕ) → FitsRoom s ↔ (length s ≤ result) }
{
    Room::new().capacity()
}

/// A type whose values are JSON strings.
pub trait Spelled: Sized + Drop {
    // which texts stand for which cells
    ghost spelling: { Spelling };

    // the value, as contracts see it
    ghost cell_of: { Self → Cell };

    /// Parses a value.
    ///
    /// # Errors
    ///
    /// - `Misfit` if the text is not a value of the type.
    /// - `Memory` if an allocation fails.
    fn of_text(alloc: Global, text: &str) -> Result<Self, TreeError>
        ensures { ReadsSpelling Self.spelling Self.cell_of text.now result };

    /// Returns the text in payloads; printed into `room` if the value doesn't store its text.
    ///
    /// # Errors
    ///
    /// `AllocError` if an allocation fails; never because `room` is too small for the text.
    fn text<'a>(&'a self, room: &'a mut Room) -> Result<&'a str, AllocError>
        ensures ok { IfOk result (λ s. s.now ≡ Self.spelling.written (Self.cell_of self.now)) }
        ensures fits { IfErr result (λ _.
            FitsRoom (Self.spelling.written (Self.cell_of self.now))) };

    /// Clones the value, or returns its normal form, by `way`.
    ///
    /// # Errors
    ///
    /// `AllocError` if an allocation fails.
    fn respell(&self, way: Way) -> Result<Self, AllocError>
        ensures { IfOk result (λ v.
            Self.cell_of v ≡ made way (spelled_kind Self.spelling) (Self.cell_of self.now)) };

    /// Does nothing; the contract states what the type guarantees of each value.
    fn hold(&self)
        ensures { Self.spelling.stored (Self.cell_of self.now) };
}

/// The codec of a [`Spelled`] type: a JSON string.
pub struct AsText;

impl<T: Spelled> Codec<T> for AsText {
    ghost kind = { spelled_kind T.spelling };

    ghost cell_of = { T.cell_of };

    #[tactic(auto, using(crate::proofs::Spellings::text_tree))]
    fn to_tree(value: &T, alloc: Global) -> Result<Value, AllocError> {
        let mut room = Room::new();
        Value::try_from_str(alloc, value.text(&mut room)?)
    }

    #[tactic(auto, using(crate::proofs::Spellings::spelling_wrote))]
    fn write(value: &T, out: &mut Writer) -> Result<(), AllocError> {
        let mut room = Room::new();
        out.string(value.text(&mut room)?)
    }

    fn remake(value: &T, way: Way) -> Result<T, AllocError> {
        value.respell(way)
    }

    fn is_null_tree(_value: &T) -> bool {
        false
    }

    fn is_plain(value: &T) -> bool {
        value.hold();
        true
    }
}

impl<T: Spelled> ReadCodec<T> for AsText {
    #[tactic(auto, using(crate::proofs::Spellings::text_read, crate::proofs::Spellings::not_text))]
    fn from_node<N: Node>(alloc: Global, node: &N) -> Result<T, TreeError> {
        T::of_text(alloc, node.as_str().ok_or(TreeError::Misfit)?)
    }
}

/// Prints a value into `room` and returns the text, which has to fit.
///
/// # Errors
///
/// `AllocError` if the value's `fmt` fails.
pub fn print_into<'a, T: Display>(value: &T, room: &'a mut Room) -> Result<&'a str, AllocError>
    requires { IfSome (T.output value.now) FitsRoom }
    ensures text { IfOk result (λ s. IfSome (T.output value.now) (λ text. s.now ≡ text)) }
    ensures fits { IfErr result (λ _. IfSome (T.output value.now) FitsRoom) }
{
    room.clear();
    match write!(room, "{value}") {
        Ok(()) => Ok(room.as_str()),
        Err(_) => Err(AllocError),
    }
}
