//! Copies and normal forms of values, row by row.

ghost use Rattle.std.specs.Prelude.{◌≡◌, None, IfOk, is_some, true};
ghost use Rattle.serde_json.specs.View.{members_view};
ghost use Rattle.sentry_tables.specs.Kind.{must, may, may_strict, list as list_kind, map as map_kind, values as values_kind};
ghost use Rattle.sentry_tables.specs.Cells.{text_cell, cow_cell, option_cell, list_cell, map_cell};
ghost use Rattle.sentry_tables.specs.Kinds.{text_kind};
ghost use Rattle.sentry_rows.specs.Copied.{CopiesField, CopiesFields, CopiesOthers};

use sentry_tables::codec::{remake_option_as, remake_strict_as};
use sentry_tables::{Codec, Member, Own, Way};
use sentry_writing::kept::copy_others;
use sentry_writing::{Table, Values};
use serde_json::{Map, Value};
use std::alloc::AllocError;
use std::borrow::CowStr;

/// A table whose values are copied row by row.
pub trait CopyTable: Table {
    /// Returns a copy of the value, or its normal form, as `copies` asks.
    ///
    /// An allocation failure is remembered in `copies`, and a stand-in fills the copy.
    ///
    /// # Errors
    ///
    /// `AllocError` if an allocation fails for a row that has no stand-in.
    fn copy_rows(&self, copies: &mut Copier) -> Result<Self, AllocError>
        ensures { IfOk result (λ v. CopiesFields Self.lines self.now v copies.old copies.new) };
}

/// A copier of rows, which makes copies or normal forms.
///
/// An allocation failure is remembered and returned by [`end`](Copier::end); the call that fails
/// returns a stand-in value. A call for a type without a stand-in, as a map, returns the failure.
#[derive(Drop)]
pub struct Copier {
    /// Whether copies or normal forms are made.
    pub way: Way,
    /// An allocation failure, if one occurred.
    pub failed: Option<AllocError>,
}

impl Copier {
    /// Creates a copier that has not failed.
    pub fn new(way: Way) -> Copier
        ensures way { result.way ≡ way }
        ensures failed { result.failed ≡ None }
    {
        Copier { way, failed: None }
    }

    /// Returns `copy`, made of the rows that were copied.
    ///
    /// # Errors
    ///
    /// `AllocError` if an allocation failed for a row.
    pub fn end<X: Drop>(self, copy: X) -> Result<X, AllocError>
        ensures { IfOk result (λ x. (self.failed ≡ None) × (x ≡ copy)) }
    {
        match self.failed {
            None => Ok(copy),
            Some(error) => Err(error),
        }
    }

    // Remembers an allocation failure and returns the stand-in.
    fn refuse<X: Drop>(&mut self, error: AllocError, stand_in: X) -> X
        ensures way { self.new.way ≡ self.old.way }
        ensures failed { is_some self.new.failed ≡ true }
    {
        self.failed = Some(error);
        stand_in
    }

    /// Copies the value of an optional member that may be null, with the codec `F`.
    #[tactic(auto, using(crate::proofs::Copying::row_copied, crate::proofs::Copying::copied_failed))]
    pub fn optional_as<F: Codec<X>, X: Drop>(&mut self, value: &Option<X>) -> Option<X>
        ensures { CopiesField may F.kind (option_cell F.cell_of value.now)
            (option_cell F.cell_of result) self.old self.new }
    {
        match remake_option_as::<F, X>(value, self.way) {
            Ok(copy) => copy,
            Err(error) => self.refuse(error, None),
        }
    }

    /// Copies the value of an optional member that may be null.
    pub fn optional<X: Member>(&mut self, value: &Option<X>) -> Option<X>
        ensures { CopiesField may X.kind (option_cell X.cell_of value.now)
            (option_cell X.cell_of result) self.old self.new }
    {
        self.optional_as::<Own, X>(value)
    }

    /// Copies the value of an optional member that rejects null, with the codec `F`.
    #[tactic(auto, using(crate::proofs::Copying::row_copied, crate::proofs::Copying::copied_failed))]
    pub fn optional_strict_as<F: Codec<X>, X: Drop>(&mut self, value: &Option<X>) -> Option<X>
        ensures { CopiesField may_strict F.kind (option_cell F.cell_of value.now)
            (option_cell F.cell_of result) self.old self.new }
    {
        match remake_strict_as::<F, X>(value, self.way) {
            Ok(copy) => copy,
            Err(error) => self.refuse(error, None),
        }
    }

    /// Copies a value of a `Copy` type, with the codec `F`.
    #[tactic(auto, using(crate::proofs::Copying::whole_copied, crate::proofs::Copying::copied_failed))]
    pub fn plain_as<F: Codec<X>, X: Copy>(&mut self, value: &X) -> X
        ensures { CopiesField must F.kind (F.cell_of value.now)
            (F.cell_of result) self.old self.new }
    {
        match F::remake(value, self.way) {
            Ok(copy) => copy,
            Err(error) => self.refuse(error, *value),
        }
    }

    /// Copies a value of a `Copy` type.
    pub fn plain<X: Member + Copy>(&mut self, value: &X) -> X
        ensures { CopiesField must X.kind (X.cell_of value.now)
            (X.cell_of result) self.old self.new }
    {
        self.plain_as::<Own, X>(value)
    }

    /// Copies a string.
    #[tactic(auto, using(crate::proofs::Copying::whole_copied, crate::proofs::Copying::copied_failed))]
    pub fn text(&mut self, text: &String) -> String
        ensures { CopiesField must text_kind (text_cell text.now)
            (text_cell result) self.old self.new }
    {
        match text.remake(self.way) {
            Ok(copy) => copy,
            Err(error) => self.refuse(error, String::new(*text.allocator())),
        }
    }

    /// Copies a string that may be borrowed.
    #[tactic(auto, using(crate::proofs::Copying::whole_copied, crate::proofs::Copying::copied_failed))]
    pub fn cow<'a>(&mut self, text: &CowStr<'a>) -> CowStr<'a>
        ensures { CopiesField must text_kind (cow_cell text.now)
            (cow_cell result) self.old self.new }
    {
        match text.remake(self.way) {
            Ok(copy) => copy,
            Err(error) => self.refuse(error, CowStr::Borrowed("")),
        }
    }

    /// Copies a list.
    #[tactic(auto, using(crate::proofs::Copying::whole_copied, crate::proofs::Copying::copied_failed))]
    pub fn list<X: Member>(&mut self, list: &Vec<X>) -> Vec<X>
        ensures { CopiesField must (list_kind X.kind) (list_cell X.cell_of list.now.items)
            (list_cell X.cell_of result.items) self.old self.new }
    {
        match list.remake(self.way) {
            Ok(copy) => copy,
            Err(error) => self.refuse(error, Vec::new(*list.allocator())),
        }
    }

    /// Copies a list under the key `values`.
    #[tactic(auto, using(crate::proofs::Copying::whole_copied, crate::proofs::Copying::copied_failed))]
    pub fn values<X: Member>(&mut self, list: &Values<X>) -> Values<X>
        ensures { CopiesField must (values_kind X.kind) (list_cell X.cell_of list.now.values.items)
            (list_cell X.cell_of result.values.items) self.old self.new }
    {
        match list.remake(self.way) {
            Ok(copy) => copy,
            Err(error) => self.refuse(
                error,
                Values {
                    values: Vec::new(*list.values.allocator()),
                },
            ),
        }
    }

    /// Copies a value of a type without a stand-in, with the codec `F`.
    ///
    /// # Errors
    ///
    /// `AllocError` if an allocation fails.
    #[tactic(auto, using(crate::proofs::Copying::whole_copied))]
    pub fn of_as<F: Codec<X>, X>(&mut self, value: &X) -> Result<X, AllocError>
        ensures { IfOk result (λ v.
            CopiesField must F.kind (F.cell_of value.now) (F.cell_of v) self.old self.new) }
    {
        F::remake(value, self.way)
    }

    /// Copies a value of a type without a stand-in.
    ///
    /// # Errors
    ///
    /// `AllocError` if an allocation fails.
    pub fn of<X: Member>(&mut self, value: &X) -> Result<X, AllocError>
        ensures { IfOk result (λ v.
            CopiesField must X.kind (X.cell_of value.now) (X.cell_of v) self.old self.new) }
    {
        self.of_as::<Own, X>(value)
    }

    /// Copies a map.
    ///
    /// # Errors
    ///
    /// `AllocError` if an allocation fails.
    pub fn map<X: Member>(&mut self, map: &Map<String, X>) -> Result<Map<String, X>, AllocError>
        ensures { IfOk result (λ m.
            CopiesField must (map_kind X.kind) (map_cell X.cell_of map.now.entries)
            (map_cell X.cell_of m.entries) self.old self.new) }
    {
        self.of(map)
    }

    /// Copies additional members.
    ///
    /// # Errors
    ///
    /// `AllocError` if an allocation fails.
    #[tactic(auto, using(crate::proofs::Copying::others_copied))]
    pub fn others(&mut self, others: &Map<String, Value>) -> Result<Map<String, Value>, AllocError>
        ensures { IfOk result (λ m.
            CopiesOthers (members_view others.now.entries)
            (members_view m.entries) self.old self.new) }
    {
        copy_others(others)
    }
}
