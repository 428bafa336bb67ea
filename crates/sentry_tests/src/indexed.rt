//! An enum of the tests as an `IndexedEnum`.

ghost use Rattle.std.specs.Prelude.{[], ◌∷◌, refl};

use crate::wanted::wanted;
use sentry_types::IndexedEnum;
use std::test::Fail;

/// A direction of a road.
#[derive(Clone, Copy, Debug, PartialEq)]
enum Direction {
    Forth,
    Back,
}

impl IndexedEnum for Direction {
    ghost use Rattle.sentry_tests.specs.declared.indexed.Direction.TheVariants as direction;

    ghost variants = { direction.Forth ∷ direction.Back ∷ [] };

    ghost index_of = { elim [ direction.Forth ↦ 0 | direction.Back ↦ 1 ] };

    const VARIANTS: &'static [Direction] = &[Direction::Forth, Direction::Back];

    fn as_index(&self) -> usize {
        *self as usize
    }

    ghost in_place = { elim [ direction.Forth ↦ refl | direction.Back ↦ refl ] };
}

/// The place of a variant, by the bound alone.
fn place_of<T: IndexedEnum>(variant: &T) -> usize {
    variant.as_index()
}

#[test]
fn variants_stand_at_their_index(_rt: HostRuntime) -> Result<(), Fail> {
    let places = [place_of(&Direction::Forth), place_of(&Direction::Back)];
    wanted(
        places == [0, 1] && Direction::VARIANTS == [Direction::Forth, Direction::Back].as_slice(),
    )
}
