//! `TreeMember`: types whose values may be listed under the key `values`.

ghost use Rattle.std.specs.Prelude.{◌≡◌, ◌↔◌, IfOk, IsTrue};
ghost use Rattle.serde_json.specs.View.{view};
ghost use Rattle.sentry_tables.specs.Cell.{Cell};
ghost use Rattle.sentry_tables.specs.Kind.{Kind, values as values_kind};
ghost use Rattle.sentry_tables.specs.Meets.{IsPlain, IsStored};
ghost use Rattle.sentry_tables.specs.Cells.{list_cell};
ghost use Rattle.sentry_tables.specs.Reading.{ReadsAt};
ghost use Rattle.sentry_tables.specs.Writes.{written};
ghost use Rattle.sentry_moments.specs.Moments.{moment_cell};

use crate::breadcrumb::Breadcrumb;
use rand_core::Rng;
use sentry_frames::{Exception, Thread};
use sentry_moments::Moment;
use sentry_rows::{FromTreeAt, Values};
use sentry_tables::{FromTree, Member, TreeError};
use serde_json::Value;
use std::alloc::{AllocError, Global};

/// A type whose values may be listed in [`Values`], with the calls on trees that these types share.
pub trait TreeMember: Sized + Drop {
    ghost kind: { Kind };

    ghost cell_of: { Self → Cell };

    /// Reads a value from a JSON tree; `now` fills absent timestamps, `ids` absent ids.
    ///
    /// # Errors
    ///
    /// `Misfit` only if the tree is not a value of the type; `Memory` if an allocation fails or a
    /// URL takes 4 GB.
    fn from_tree<R: Rng>(
        alloc: Global,
        tree: &Value,
        now: Moment,
        ids: &mut R,
    ) -> Result<Self, TreeError>
        ensures { ReadsAt (moment_cell now) kind cell_of (view tree.now) result };

    /// Reads a list from a JSON tree: a bare array, or an object's array at the key `values`.
    ///
    /// # Errors
    ///
    /// `Misfit` only if the tree is not a list of the type; `Memory` if an allocation fails or a
    /// URL takes 4 GB.
    fn values_from_tree<R: Rng>(
        alloc: Global,
        tree: &Value,
        now: Moment,
        ids: &mut R,
    ) -> Result<Values<Self>, TreeError>
        ensures { ReadsAt (moment_cell now) (values_kind kind) (λ list.
            list_cell cell_of list.values.items)
            (view tree.now) result };

    /// Returns the JSON tree of the value. `AllocError` if an allocation fails.
    fn to_tree(&self, alloc: Global) -> Result<Value, AllocError>
        ensures { IfOk result (λ tree. view tree ≡ written kind (cell_of self.now)) };

    /// Returns whether the value can be written: no tree in the value holds a float, and no
    /// additional member has the key of a field.
    fn is_plain(&self) -> bool
        ensures plain { IsTrue result ↔ IsPlain kind (cell_of self.now) }
        ensures stored { IsTrue result → IsStored kind (cell_of self.now) };

    /// Clones the value. `AllocError` if an allocation fails.
    fn clone(&self) -> Result<Self, AllocError>
        ensures { IfOk result (λ copy. cell_of copy ≡ cell_of self.now) };
}

impl TreeMember for Breadcrumb {
    ghost use Rattle.sentry_parts.specs.Breadcrumbs.{breadcrumb_cell, breadcrumb_kind};

    ghost kind = { breadcrumb_kind };

    ghost cell_of = { breadcrumb_cell };

    fn from_tree<R: Rng>(
        alloc: Global,
        tree: &Value,
        now: Moment,
        ids: &mut R,
    ) -> Result<Breadcrumb, TreeError> {
        <Breadcrumb as FromTreeAt>::from_tree(alloc, tree, now, ids)
    }

    fn values_from_tree<R: Rng>(
        alloc: Global,
        tree: &Value,
        now: Moment,
        ids: &mut R,
    ) -> Result<Values<Breadcrumb>, TreeError> {
        <Values<Breadcrumb> as FromTreeAt>::from_tree(alloc, tree, now, ids)
    }

    fn to_tree(&self, alloc: Global) -> Result<Value, AllocError> {
        Member::to_tree(self, alloc)
    }

    fn is_plain(&self) -> bool {
        Member::is_plain(self)
    }

    fn clone(&self) -> Result<Breadcrumb, AllocError> {
        self.copy()
    }
}

impl TreeMember for Exception {
    ghost use Rattle.sentry_frames.specs.Exceptions.{exception_cell, exception_kind};

    ghost kind = { exception_kind };

    ghost cell_of = { exception_cell };

    #[tactic(auto, using(crate::proofs::Moments::reads_at))]
    fn from_tree<R: Rng>(
        alloc: Global,
        tree: &Value,
        _now: Moment,
        _ids: &mut R,
    ) -> Result<Exception, TreeError> {
        <Exception as FromTree>::from_tree(alloc, tree)
    }

    #[tactic(auto, using(crate::proofs::Moments::reads_at))]
    fn values_from_tree<R: Rng>(
        alloc: Global,
        tree: &Value,
        _now: Moment,
        _ids: &mut R,
    ) -> Result<Values<Exception>, TreeError> {
        <Values<Exception> as FromTree>::from_tree(alloc, tree)
    }

    fn to_tree(&self, alloc: Global) -> Result<Value, AllocError> {
        Member::to_tree(self, alloc)
    }

    fn is_plain(&self) -> bool {
        Member::is_plain(self)
    }

    fn clone(&self) -> Result<Exception, AllocError> {
        self.copy()
    }
}

impl TreeMember for Thread {
    ghost use Rattle.sentry_frames.specs.Threads.{thread_cell, thread_kind};

    ghost kind = { thread_kind };

    ghost cell_of = { thread_cell };

    #[tactic(auto, using(crate::proofs::Moments::reads_at))]
    fn from_tree<R: Rng>(
        alloc: Global,
        tree: &Value,
        _now: Moment,
        _ids: &mut R,
    ) -> Result<Thread, TreeError> {
        <Thread as FromTree>::from_tree(alloc, tree)
    }

    #[tactic(auto, using(crate::proofs::Moments::reads_at))]
    fn values_from_tree<R: Rng>(
        alloc: Global,
        tree: &Value,
        _now: Moment,
        _ids: &mut R,
    ) -> Result<Values<Thread>, TreeError> {
        <Values<Thread> as FromTree>::from_tree(alloc, tree)
    }

    fn to_tree(&self, alloc: Global) -> Result<Value, AllocError> {
        Member::to_tree(self, alloc)
    }

    fn is_plain(&self) -> bool {
        Member::is_plain(self)
    }

    fn clone(&self) -> Result<Thread, AllocError> {
        self.copy()
    }
}

impl TreeMember for u64 {
    ghost use Rattle.std.specs.Prelude.{◌^◌};
    ghost use Rattle.sentry_tables.specs.Cells.{natural_cell};
    ghost use Rattle.sentry_tables.specs.Kinds.{unsigned_kind};

    ghost kind = { unsigned_kind (2 ^ 64) };

    ghost cell_of = { natural_cell };

    #[tactic(auto, using(crate::proofs::Moments::reads_at))]
    fn from_tree<R: Rng>(
        alloc: Global,
        tree: &Value,
        _now: Moment,
        _ids: &mut R,
    ) -> Result<u64, TreeError> {
        <u64 as FromTree>::from_tree(alloc, tree)
    }

    #[tactic(auto, using(crate::proofs::Moments::reads_at))]
    fn values_from_tree<R: Rng>(
        alloc: Global,
        tree: &Value,
        _now: Moment,
        _ids: &mut R,
    ) -> Result<Values<u64>, TreeError> {
        <Values<u64> as FromTree>::from_tree(alloc, tree)
    }

    fn to_tree(&self, alloc: Global) -> Result<Value, AllocError> {
        Member::to_tree(self, alloc)
    }

    fn is_plain(&self) -> bool {
        Member::is_plain(self)
    }

    fn clone(&self) -> Result<u64, AllocError> {
        self.copy()
    }
}
