//! Values that are drawn if absent, as ids.

ghost use Rattle.sentry_tables.specs.Cell.{Cell};

use crate::read::ReadCodec;
use rand_core::Rng;

/// A codec of values that are drawn from a generator if absent.
pub trait Drawn<T: Drop>: ReadCodec<T> {
    // the value may be drawn
    ghost IsDrawn: { Cell → Type 0 };

    /// Draws a value from the generator.
    fn random<R: Rng>(ids: &mut R) -> T
        ensures { IsDrawn (Self.cell_of result) };
}
