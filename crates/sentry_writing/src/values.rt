//! Lists that are written under the key `values`.

ghost use Rattle.sentry_tables.specs.Kind.{values as values_kind};
ghost use Rattle.sentry_tables.specs.Cells.{list_cell};

use crate::sink::Sink;
use crate::text::write_member;
use crate::tree::TreeRows;
use sentry_json::{Node, Writer};
use sentry_tables::read::read_values;
use sentry_tables::{Codec, Formed, FromTree, Member, Own, ReadCodec, TreeError, Way};
use serde_json::Value;
use std::alloc::{AllocError, Global};
use std::slice::{Iter, IterMut};
use std::vec::IntoIter;

/// A list that is written as an object with the one key `values`; a bare array is read too.
#[derive(Debug, PartialEq, Drop)]
pub struct Values<T: Drop> {
    /// Values in order.
    pub values: Vec<T>,
}

impl<T: Drop> Values<T> {
    ghost use Rattle.std.specs.Prelude.{◌≡◌, ◌↔◌, [], IfOk, IsTrue};
    ghost use Rattle.std.specs.Borrow.{sem};
    ghost use Rattle.std.specs.Iterator.{Drains, ExtendsWithItems, IsFinite};
    ghost use Rattle.std.specs.Iterator.Runs.{EveryRun, ItemsMapTo};
    ghost use Rattle.std.specs.Slice.Iter.{iter_rest, iter_steps, iter_mut_rest, iter_mut_steps};
    ghost use Rattle.sentry_writing.specs.Lent.{lends_iter, lends_slice, lends_vec};
    ghost use Rattle.sentry_writing.specs.Listed.{Extends};

    /// Creates an empty list.
    pub fn new(alloc: Global) -> Values<T>
        ensures { result.values.items ≡ [] }
    {
        Values {
            values: Vec::new(alloc),
        }
    }

    /// Creates the default: an empty list.
    pub fn default_in(alloc: Global) -> Values<T>
        ensures { result.values.items ≡ [] }
    {
        Values::new(alloc)
    }

    /// Returns whether the list is empty.
    pub fn is_empty(&self) -> bool
        ensures { IsTrue result ↔ (self.now.values.items ≡ []) }
    {
        self.values.is_empty()
    }

    /// Returns the values as a slice.
    pub fn as_slice(&self) -> &[T]
        ensures { result.now ≡ self.now.values.items }
    {
        self.values.as_slice()
    }

    /// Returns the values as a mutable slice.
    pub fn as_mut_slice(&mut self) -> &mut [T]
        ensures* writes_back { sem 𝓛 (lends_slice T.row self.entry result) }
        ensures shows { result.now ≡ self.old.values.items }
    {
        let values = &mut self.values;
        values.as_mut_slice()
    }

    /// Returns the values as a mutable vector.
    pub fn as_vec_mut(&mut self) -> &mut Vec<T>
        ensures* writes_back { sem 𝓛 (lends_vec T.row self.entry result) }
        ensures shows { result.now ≡ self.old.values }
    {
        &mut self.values
    }

    /// Returns an iterator over references to the values, in order.
    pub fn iter(&self) -> Iter<'_, T>
        ensures rest { iter_rest result ≡ self.now.values.items }
        ensures runs { EveryRun (iter_steps {A = T}) (λ p.
            ItemsMapTo p (λ x. x.now) (iter_rest p.from)) }
    {
        self.values.as_slice().iter()
    }

    /// Returns an iterator over mutable references to the values, in order.
    pub fn iter_mut(&mut self) -> IterMut<'_, T>
        ensures* writes_back { sem 𝓛 (lends_iter T.row self.entry result) }
        ensures rest { iter_mut_rest result ≡ self.old.values.items }
        ensures runs { EveryRun (iter_mut_steps {A = T}) (λ p.
            ItemsMapTo p (λ x. x.now) (iter_mut_rest p.from)) }
    {
        self.as_mut_slice().iter_mut()
    }

    /// Collects the items of a finite iterator into a list, in order.
    ///
    /// # Errors
    ///
    /// `AllocError` if an allocation fails.
    pub fn try_from_iter<I: IntoIterator<Item = T>>(
        alloc: Global,
        items: I,
    ) -> Result<Values<T>, AllocError>
        requires { (it : I.IntoIter) → I.into_iter_gives items it → I.IntoIter.can_next it ×
            IsFinite (I.IntoIter.remaining it) }
        ensures { IfOk result (λ v. (it : I.IntoIter) × I.into_iter_gives items it ×
            Drains I.IntoIter.next_gives it v.values.items) }
    {
        let mut list = Values::new(alloc);
        list.try_extend(items)?;
        Ok(list)
    }

    /// Appends the items of a finite iterator, in order.
    ///
    /// # Errors
    ///
    /// `AllocError` if an allocation fails; the list keeps its values and the items appended before
    /// the failure.
    pub fn try_extend<I: IntoIterator<Item = T>>(&mut self, items: I) -> Result<(), AllocError>
        requires { (it : I.IntoIter) → I.into_iter_gives items it → I.IntoIter.can_next it ×
            IsFinite (I.IntoIter.remaining it) }
        ensures { ExtendsWithItems I.into_iter_gives I.IntoIter.next_gives Extends items self.old
            self.new result }
    {
        self.values.extend(items)
    }
}

impl<T: Member> Values<T> {
    ghost use Rattle.std.specs.Prelude.{◌≡◌, IfOk};

    /// Clones the list. `AllocError` if an allocation fails.
    pub fn clone(&self) -> Result<Values<T>, AllocError>
        ensures { IfOk result (λ copy.
            list_cell T.cell_of copy.values.items ≡ list_cell T.cell_of self.now.values.items) }
    {
        Ok(Values {
            values: self.values.copy()?,
        })
    }
}

impl<T: Drop> IntoIterator for Values<T> {
    ghost use Rattle.std.specs.Prelude.{◌≡◌};
    ghost use Rattle.std.specs.Iterator.Runs.{EveryRun, ItemsAre};
    ghost use Rattle.std.specs.declared.alloc.Global.{Global};
    ghost use Rattle.std.specs.Vec.Iter.{into_iter_items, into_iter_steps};

    type Item = T;

    type IntoIter = IntoIter<T>;

    ghost into_iter_gives = { λ v it. (into_iter_items it ≡ v.values.items)
        × EveryRun (into_iter_steps {X = T} {Z = Global}) (λ p.
        ItemsAre p (into_iter_items p.from)) };

    /// Returns an iterator that moves the values out, in order.
    fn into_iter(self) -> IntoIter<T> {
        let Values { values } = self;
        values.into_iter()
    }
}

impl<'a, T: Drop> IntoIterator for &'a Values<T> {
    ghost use Rattle.std.specs.Prelude.{◌≡◌};
    ghost use Rattle.std.specs.Iterator.Runs.{EveryRun, ItemsMapTo};
    ghost use Rattle.std.specs.Slice.Iter.{iter_rest, iter_steps};

    type Item = &'a T;

    type IntoIter = Iter<'a, T>;

    ghost into_iter_gives = { λ v it. (iter_rest it ≡ v.now.values.items)
        × EveryRun (iter_steps {A = T}) (λ p. ItemsMapTo p (λ x. x.now) (iter_rest p.from)) };

    /// Returns an iterator over references to the values, in order.
    fn into_iter(self) -> Iter<'a, T> {
        self.iter()
    }
}

impl<'a, T: Drop> IntoIterator for &'a mut Values<T> {
    ghost use Rattle.std.specs.Prelude.{◌≡◌};
    ghost use Rattle.std.specs.Borrow.{sem};
    ghost use Rattle.std.specs.Iterator.Runs.{EveryRun, ItemsMapTo};
    ghost use Rattle.std.specs.Slice.Iter.{iter_mut_rest, iter_mut_steps};
    ghost use Rattle.sentry_writing.specs.Lent.{lends_iter};

    type Item = &'a mut T;

    type IntoIter = IterMut<'a, T>;

    ghost into_iter_gives = { λ v it. (iter_mut_rest it ≡ v.now.values.items)
        × EveryRun (iter_mut_steps {A = T}) (λ p.
        ItemsMapTo p (λ x. x.now) (iter_mut_rest p.from)) };

    /// Returns an iterator over mutable references to the values, in order.
    fn into_iter(self) -> IterMut<'a, T>
        ensures* writes_back { sem 𝓛 (lends_iter T.row self.entry result) }
        ensures into_iter_gives { (iter_mut_rest result ≡ self.old.values.items)
            × EveryRun (iter_mut_steps {A = T}) (λ p.
            ItemsMapTo p (λ x. x.now) (iter_mut_rest p.from)) }
    {
        self.iter_mut()
    }
}

impl<T: Drop> From<Vec<T>> for Values<T> {
    ghost use Rattle.std.specs.Prelude.{◌≡◌};

    ghost from_gives = { λ list v. v.values ≡ list };

    fn from(values: Vec<T>) -> Values<T> {
        Values { values }
    }
}

impl<T: Member> Formed for Values<T> {
    type Form = AsValues;
}

/// Codec of lists under the key `values`; a bare array is read too.
pub struct AsValues;

impl<T: Member> Codec<Values<T>> for AsValues {
    ghost kind = { values_kind T.kind };

    ghost cell_of = { λ v. list_cell T.cell_of v.values.items };

    fn to_tree(value: &Values<T>, alloc: Global) -> Result<Value, AllocError> {
        let mut rows = TreeRows::new(alloc);
        rows.required("values", &value.values);
        rows.into_tree()
    }

    fn write(value: &Values<T>, out: &mut Writer) -> Result<(), AllocError> {
        out.begin_object()?;
        write_member::<Own, Vec<T>>(out, "values", &value.values)?;
        out.end_object()
    }

    #[tactic(auto, using(crate::proofs::ValuesMade::values_made))]
    fn remake(value: &Values<T>, way: Way) -> Result<Values<T>, AllocError> {
        Ok(Values {
            values: value.values.remake(way)?,
        })
    }

    fn is_null_tree(_value: &Values<T>) -> bool {
        false
    }

    fn is_plain(value: &Values<T>) -> bool {
        value.values.is_plain()
    }
}

impl<T: FromTree> ReadCodec<Values<T>> for AsValues {
    fn from_node<N: Node>(alloc: Global, node: &N) -> Result<Values<T>, TreeError> {
        Ok(Values {
            values: read_values(alloc, node)?,
        })
    }
}
