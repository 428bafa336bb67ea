//! Thread ids.

ghost use Rattle.sentry_frames.specs.ThreadIds.{thread_id_kind, thread_id_cell};

use sentry_json::{Node, Writer};
use sentry_tables::{FromTree, Member, TreeError, Way};
use serde_json::Value;
use std::alloc::{AllocError, Global};
use std::fmt;

/// The id of a thread: a whole number or a string.
///
/// In JSON, a whole number below 2^64 or a string; a string of digits stays a string.
///
/// <https://develop.sentry.dev/sdk/data-model/event-payloads/threads/>
#[derive(Debug, Drop, PartialEq, Eq, PartialOrd, Ord, Hash)]
pub enum ThreadId {
    /// A whole number.
    Int(u64),
    /// A string.
    String(String),
}

impl ThreadId {
    ghost use Rattle.std.specs.Prelude.{◌≡◌, IfOk};
    ghost use Rattle.sentry_tables.specs.Cell.{text as text_of};

    /// Creates a string id. `AllocError` if an allocation fails.
    pub fn from_text(alloc: Global, text: &str) -> Result<ThreadId, AllocError>
        ensures { IfOk result (λ id. thread_id_cell id ≡ text_of text.now) }
    {
        Ok(ThreadId::String(String::from_str(alloc, text)?))
    }

    /// Clones the id. `AllocError` if an allocation fails.
    pub fn clone(&self) -> Result<ThreadId, AllocError>
        ensures { IfOk result (λ copy. thread_id_cell copy ≡ thread_id_cell self.now) }
    {
        match self {
            ThreadId::Int(number) => Ok(ThreadId::Int(*number)),
            ThreadId::String(text) => Ok(ThreadId::String(text.clone()?)),
        }
    }
}

/// Defaults to the number 0.
impl Default for ThreadId {
    ghost use Rattle.std.specs.Prelude.{◌≡◌};
    ghost use Rattle.sentry_frames.specs.declared.thread_id.ThreadId.TheVariants.{Int};

    ghost is_default = { λ id. id ≡ Int 0 };

    fn default() -> ThreadId {
        ThreadId::Int(0)
    }
}

/// Converts a string to a string id, even a string of digits.
impl From<String> for ThreadId {
    ghost use Rattle.std.specs.Prelude.{◌≡◌};
    ghost use Rattle.sentry_frames.specs.declared.thread_id.ThreadId.TheVariants.{String as Text};

    ghost from_gives = { λ s id. id ≡ Text s };

    fn from(text: String) -> ThreadId {
        ThreadId::String(text)
    }
}

/// Converts a number; a negative number becomes its 64 bits in two's complement.
impl From<i64> for ThreadId {
    ghost use Rattle.std.specs.Prelude.{◌≡◌};
    ghost use Rattle.std.specs.Int.{w64, cast_unsigned};
    ghost use Rattle.sentry_frames.specs.declared.thread_id.ThreadId.TheVariants.{Int};

    ghost from_gives = { λ n id. id ≡ Int (cast_unsigned w64 n) };

    fn from(number: i64) -> ThreadId {
        ThreadId::Int(number.cast_unsigned())
    }
}

/// Converts a number; a negative number becomes its 64 bits in two's complement.
impl From<i32> for ThreadId {
    ghost use Rattle.std.specs.Prelude.{◌≡◌};
    ghost use Rattle.std.specs.Int.{w64, cast_unsigned};
    ghost use Rattle.sentry_frames.specs.declared.thread_id.ThreadId.TheVariants.{Int};

    // The sign is extended to 64 bits first.
    ghost from_gives = { λ n id. id ≡ Int (cast_unsigned w64 n) };

    fn from(number: i32) -> ThreadId {
        ThreadId::Int(i64::from(number).cast_unsigned())
    }
}

impl From<u32> for ThreadId {
    ghost use Rattle.std.specs.Prelude.{◌≡◌};
    ghost use Rattle.sentry_frames.specs.declared.thread_id.ThreadId.TheVariants.{Int};

    ghost from_gives = { λ n id. id ≡ Int n };

    fn from(number: u32) -> ThreadId {
        ThreadId::Int(u64::from(number))
    }
}

impl From<u16> for ThreadId {
    ghost use Rattle.std.specs.Prelude.{◌≡◌};
    ghost use Rattle.sentry_frames.specs.declared.thread_id.ThreadId.TheVariants.{Int};

    ghost from_gives = { λ n id. id ≡ Int n };

    fn from(number: u16) -> ThreadId {
        ThreadId::Int(u64::from(number))
    }
}

/// Formats a number in base 10 and a string as is.
impl fmt::Display for ThreadId {
    ghost use Rattle.std.specs.Prelude.{Some};
    ghost use Rattle.sentry_frames.specs.ThreadIds.{thread_id_text};

    ghost output = { λ id. Some (thread_id_text id) };

    fn fmt<W: fmt::Write>(&self, f: &mut fmt::Formatter<W>) -> fmt::Result {
        match self {
            ThreadId::Int(number) => write!(f, "{number}"),
            ThreadId::String(text) => f.write_str(text.as_str()),
        }
    }
}

impl Member for ThreadId {
    ghost kind = { thread_id_kind };

    ghost cell_of = { thread_id_cell };

    #[tactic(auto, unfolding(crate::specs::ThreadIds::thread_id_kind, sentry_tables::specs::Writes::written))]
    fn to_tree(&self, alloc: Global) -> Result<Value, AllocError> {
        match self {
            ThreadId::Int(number) => Ok(Value::from(*number)),
            ThreadId::String(text) => Value::try_from_str(alloc, text.as_str()),
        }
    }

    #[tactic(auto, using(crate::proofs::ThreadIds::number_wrote, crate::proofs::ThreadIds::text_wrote))]
    fn write(&self, out: &mut Writer) -> Result<(), AllocError> {
        match self {
            ThreadId::Int(number) => out.u64(*number),
            ThreadId::String(text) => out.string(text.as_str()),
        }
    }

    #[tactic(auto, using(crate::proofs::ThreadIds::id_made))]
    fn remake(&self, _way: Way) -> Result<ThreadId, AllocError> {
        self.clone()
    }

    #[tactic(auto, unfolding(crate::specs::ThreadIds::thread_id_kind))]
    fn is_null_tree(&self) -> bool {
        false
    }

    #[tactic(auto, unfolding(crate::specs::ThreadIds::thread_id_kind))]
    fn is_plain(&self) -> bool {
        match self {
            ThreadId::Int(number) => {
                let _number = *number;
                true
            }
            ThreadId::String(text) => {
                let _text = text.as_str();
                true
            }
        }
    }
}

impl FromTree for ThreadId {
    #[tactic(auto, using(crate::proofs::ThreadIds::thread_text))]
    fn from_node<N: Node>(alloc: Global, node: &N) -> Result<ThreadId, TreeError> {
        match node.as_str() {
            Some(text) => Ok(ThreadId::from_text(alloc, text)?),
            None => match node.as_u64() {
                Some(number) => Ok(ThreadId::Int(number)),
                None => Err(TreeError::Misfit),
            },
        }
    }
}
