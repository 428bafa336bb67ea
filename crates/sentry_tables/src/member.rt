//! Types with one JSON form, and their default values.

ghost use Rattle.std.specs.Prelude.{◌≡◌, ◌↔◌, IfOk, IsTrue, OnOk};
ghost use Rattle.serde_json.specs.View.{view};
ghost use Rattle.sentry_tables.specs.Cell.{Cell, same_cell};
ghost use Rattle.sentry_tables.specs.Kind.{Kind};
ghost use Rattle.sentry_tables.specs.Norm.{norm, is_null_of};
ghost use Rattle.sentry_tables.specs.Meets.{IsPlain, IsStored};
ghost use Rattle.sentry_tables.specs.Made.{made};
ghost use Rattle.sentry_tables.specs.Writes.{written, WritesTree};

use crate::codec::Codec;
use crate::way::Way;
use sentry_json::Writer;
use serde_json::Value;
use std::alloc::{AllocError, Global};

/// A type with a JSON form.
pub trait Member: Sized + Drop {
    // which trees stand for which cells
    ghost kind: { Kind };

    // the value, as contracts see it
    ghost cell_of: { Self → Cell };

    /// Returns the JSON tree of the value.
    ///
    /// # Errors
    ///
    /// `AllocError` if an allocation fails.
    fn to_tree(&self, alloc: Global) -> Result<Value, AllocError>
        ensures { IfOk result (λ t. view t ≡ written kind (cell_of self.now)) };

    /// Writes the value as JSON text.
    ///
    /// The contract covers values whose tree has no float.
    ///
    /// # Errors
    ///
    /// `AllocError` if an allocation fails; part of the text may have been written.
    fn write(&self, out: &mut Writer) -> Result<(), AllocError>
        ensures { OnOk result (WritesTree (written kind (cell_of self.now)) out.old out.new) };

    /// Clones the value, or returns its normal form, by `way`.
    ///
    /// # Errors
    ///
    /// `AllocError` if an allocation fails.
    fn remake(&self, way: Way) -> Result<Self, AllocError>
        ensures { IfOk result (λ v. cell_of v ≡ made way kind (cell_of self.now)) };

    /// Returns whether the value is written as null.
    fn is_null_tree(&self) -> bool
        ensures { result ≡ is_null_of kind (cell_of self.now) };

    /// Clones the value. `AllocError` if an allocation fails.
    #[tactic(auto, unfolding(crate::specs::Made::made))]
    final fn copy(&self) -> Result<Self, AllocError>
        ensures { IfOk result (λ v. cell_of v ≡ cell_of self.now) }
    {
        self.remake(Way::Same)
    }

    /// Returns the normal form: the value that is read back from what is written.
    ///
    /// # Errors
    ///
    /// `AllocError` if an allocation fails.
    #[tactic(auto, unfolding(crate::specs::Made::made))]
    final fn normal(&self, alloc: Global) -> Result<Self, AllocError>
        ensures { IfOk result (λ v. cell_of v ≡ norm kind (cell_of self.now)) }
    {
        self.remake(Way::Normal(alloc))
    }

    /// Returns whether the value is plain: no tree in it has a float, and no additional member has
    /// the key of a field.
    fn is_plain(&self) -> bool
        ensures plain { IsTrue result ↔ IsPlain kind (cell_of self.now) }
        ensures stored { IsTrue result → IsStored kind (cell_of self.now) };
}

/// A type whose JSON form is a codec that serves many types, as [`AsText`](crate::AsText).
pub trait Formed: Sized + Drop {
    /// The type's codec.
    type Form;
}

impl<T: Formed> Member for T
where
    T::Form: Codec<T>,
{
    ghost kind = { T.Form.Codec.kind };

    ghost cell_of = { T.Form.Codec.cell_of };

    fn to_tree(&self, alloc: Global) -> Result<Value, AllocError> {
        <T::Form as Codec<T>>::to_tree(self, alloc)
    }

    fn write(&self, out: &mut Writer) -> Result<(), AllocError> {
        <T::Form as Codec<T>>::write(self, out)
    }

    fn remake(&self, way: Way) -> Result<T, AllocError> {
        <T::Form as Codec<T>>::remake(self, way)
    }

    fn is_null_tree(&self) -> bool {
        <T::Form as Codec<T>>::is_null_tree(self)
    }

    fn is_plain(&self) -> bool {
        <T::Form as Codec<T>>::is_plain(self)
    }
}

/// A type of which any value may be the default of a field.
pub trait Usual: Member {
    /// Returns whether the normal form of the value is `usual`.
    fn is(&self, usual: &Self) -> bool
        ensures { result ≡
            same_cell (norm Self.kind (Self.cell_of self.now)) (Self.cell_of usual.now) };
}

impl Usual for bool {
    fn is(&self, usual: &bool) -> bool {
        *self == *usual
    }
}

impl Usual for u32 {
    fn is(&self, usual: &u32) -> bool {
        *self == *usual
    }
}

impl Usual for u64 {
    fn is(&self, usual: &u64) -> bool {
        *self == *usual
    }
}
