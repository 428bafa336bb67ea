//! Integers without a sign as members.

ghost use Rattle.std.specs.Prelude.{◌≡◌, ◌<◌, ◌^◌, ℕ, None, IfSome};
ghost use Rattle.sentry_tables.specs.Cells.{natural_cell};
ghost use Rattle.sentry_tables.specs.Kinds.{unsigned_kind};

use crate::codec::Codec;
use crate::error::TreeError;
use crate::member::Formed;
use crate::read::ReadCodec;
use crate::way::Way;
use sentry_json::{Node, Writer};
use serde_json::Value;
use std::alloc::{AllocError, Global};

/// An integer without a sign, of at most 64 bits.
pub trait Unsigned: Copy {
    // the first number that the type doesn't hold
    ghost bound: { ℕ };

    // the number that a value is
    ghost natural: { Self → ℕ };

    /// Returns the number.
    fn to_u64(self) -> u64
        ensures same { result ≡ natural self }
        ensures below { natural self < bound };

    /// Returns the value that is the number; `None` if the type doesn't hold it.
    fn from_u64(number: u64) -> Option<Self>
        ensures held { IfSome result (λ n. (natural n ≡ number) × (number < bound)) }
        ensures large { result ≡ None → number < bound → ⊥ };
}

impl Unsigned for u8 {
    ghost bound = { 2 ^ 8 };

    ghost natural = { λ n. n };

    fn to_u64(self) -> u64 {
        u64::from(self)
    }

    fn from_u64(number: u64) -> Option<u8> {
        u8::try_from(number).ok()
    }
}

impl Unsigned for u16 {
    ghost bound = { 2 ^ 16 };

    ghost natural = { λ n. n };

    fn to_u64(self) -> u64 {
        u64::from(self)
    }

    fn from_u64(number: u64) -> Option<u16> {
        u16::try_from(number).ok()
    }
}

impl Unsigned for u32 {
    ghost bound = { 2 ^ 32 };

    ghost natural = { λ n. n };

    fn to_u64(self) -> u64 {
        u64::from(self)
    }

    fn from_u64(number: u64) -> Option<u32> {
        u32::try_from(number).ok()
    }
}

impl Unsigned for u64 {
    ghost bound = { 2 ^ 64 };

    ghost natural = { λ n. n };

    fn to_u64(self) -> u64 {
        self
    }

    fn from_u64(number: u64) -> Option<u64> {
        Some(number)
    }
}

/// The form of an [`Unsigned`] integer: a JSON number.
pub struct AsUnsigned;

impl<T: Unsigned> Codec<T> for AsUnsigned {
    ghost kind = { unsigned_kind T.bound };

    ghost cell_of = { λ n. natural_cell (T.natural n) };

    #[tactic(auto, unfolding(crate::specs::Writes::written))]
    fn to_tree(value: &T, _alloc: Global) -> Result<Value, AllocError> {
        Ok(Value::from(value.to_u64()))
    }

    #[tactic(auto, unfolding(crate::specs::Writes::written), using(crate::proofs::Tokens::u64_wrote))]
    fn write(value: &T, out: &mut Writer) -> Result<(), AllocError> {
        out.u64(value.to_u64())
    }

    #[tactic(auto, using(crate::proofs::Ways::unchanged))]
    fn remake(value: &T, _way: Way) -> Result<T, AllocError> {
        Ok(*value)
    }

    fn is_null_tree(_value: &T) -> bool {
        false
    }

    fn is_plain(value: &T) -> bool {
        let _number = value.to_u64();
        true
    }
}

impl<T: Unsigned> ReadCodec<T> for AsUnsigned {
    fn from_node<N: Node>(_alloc: Global, node: &N) -> Result<T, TreeError> {
        let number = node.as_u64().ok_or(TreeError::Misfit)?;
        T::from_u64(number).ok_or(TreeError::Misfit)
    }
}

impl Formed for u8 {
    type Form = AsUnsigned;
}

impl Formed for u16 {
    type Form = AsUnsigned;
}

impl Formed for u32 {
    type Form = AsUnsigned;
}

impl Formed for u64 {
    type Form = AsUnsigned;
}
