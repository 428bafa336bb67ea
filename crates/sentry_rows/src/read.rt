//! Tables that are read row by row.

ghost use Rattle.std.specs.Prelude.{◌≡◌, ◌++◌, ℕ, List, IfOk, map};
ghost use Rattle.serde_json.specs.Data.{Members};
ghost use Rattle.serde_json.specs.View.{members_view};
ghost use Rattle.sentry_tables.specs.Fields.{rows_of};
ghost use Rattle.sentry_tables.specs.Kind.{keys};
ghost use Rattle.sentry_rows.specs.Copied.{CopiesKept};
ghost use Rattle.sentry_rows.specs.Fields.{ReadsFields, ReadsFieldsAt, ReadsKept};
ghost use Rattle.sentry_moments.specs.Moments.{moment_cell};

use crate::copier::Copier;
use crate::source::Source;
use rand_core::Rng;
use sentry_moments::Moment;
use sentry_writing::Table;
use serde_json::{Map, Value};
use std::alloc::AllocError;

/// A table whose rows are taken from a [`Source`].
pub trait ReadTable: Table {
    /// Takes a value from the rows of an object.
    ///
    /// A failure is remembered in `from`, and stand-ins fill the value.
    fn read<S: Source>(from: &mut S) -> Self
        ensures { ReadsFields S.Takes Self.lines result from.old from.new };
}

/// A table that keeps additional members, whose keys no row has.
pub trait KeptTable: Table {
    // keys that additional members may not have, besides those of the rows
    ghost reserved: { List (List ℕ) };

    // the additional members
    ghost others_of: { Self → Members };

    /// Returns the additional members.
    fn others(&self) -> &Map<String, Value>
        ensures { members_view result.now.entries ≡ others_of self.now };

    /// Returns the keys that additional members may not have: those of the rows among them.
    fn names() -> &'static [&'static str]
        ensures { map (λ name. name.now) result.now ≡ reserved ++ keys (rows_of Self.lines) };

    /// Takes a value from the rows and additional members of an object.
    ///
    /// A failure is remembered in `from`, and stand-ins fill the value.
    fn read<S: Source>(from: &mut S) -> Self
        ensures { ReadsKept S.Takes S.TakesOthers Self.lines (reserved ++
            keys (rows_of Self.lines)) result (others_of result) from.old from.new };

    /// Returns a copy of the value, or its normal form, as `copies` asks.
    ///
    /// An allocation failure is remembered in `copies`, and a stand-in fills the copy.
    ///
    /// # Errors
    ///
    /// `AllocError` if an allocation fails for a row that has no stand-in.
    fn copy_rows(&self, copies: &mut Copier) -> Result<Self, AllocError>
        ensures { IfOk result (λ v. CopiesKept Self.lines self.now v
            (others_of self.now) (others_of v) copies.old copies.new) };
}

/// A table whose rows are taken at a moment, with a generator of ids.
pub trait ReadTableAt: Table {
    /// Takes a value from the rows of an object; `now` fills absent timestamps, `ids` absent ids.
    ///
    /// A failure is remembered in `from`, and stand-ins fill the value.
    fn read<S: Source, R: Rng>(from: &mut S, now: Moment, ids: &mut R) -> Self
        ensures { ReadsFieldsAt S.Takes S.TakesAt (moment_cell now) Self.lines
            result from.old from.new };
}
