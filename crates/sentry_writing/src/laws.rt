//! The law of `==` on lists under the key `values`.

ghost use Rattle.std.specs.Prelude.{◌≡◌, ◌↔◌, true};
ghost use Rattle.std.specs.Cmp.Lexicographic.{pointwise};
ghost use Rattle.sentry_tables.specs.Cells.{list_cell};
ghost use Rattle.sentry_writing.specs.declared.values.Values.{Values as Lists};

use crate::values::Values;
use sentry_tables::Member;

/// States when two lists are equal: exactly if they have the same length and each value equals the
/// one at the same index.
///
/// If `==` on the values says exactly whether two cells are the same, so does `==` on the lists.
#[tactic(auto, using(sentry_tables::proofs::Equal::lists_decide))]
pub fn equal_values<T: Member + PartialEq>()
    ensures by_values { (a b : Lists T) →
        ⟦<Values<T> as PartialEq>⟧.eq a b ≡ pointwise T.eq a.values.items b.values.items }
    ensures by_cells { ((x y : T) → T.eq x y ≡ true ↔ (T.cell_of x ≡ T.cell_of y))
        → (a b : Lists T) → ⟦<Values<T> as PartialEq>⟧.eq a b ≡ true
        ↔ (list_cell T.cell_of a.values.items ≡ list_cell T.cell_of b.values.items) }
{}
