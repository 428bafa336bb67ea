//! A placeholder for moments that could not be read.

ghost use Rattle.std.specs.Prelude.{◌≡◌};

use sentry_moments::Moment;

// 1970-01-01T00:00:00Z.
pub(crate) fn epoch() -> Moment
    ensures { (result.secs ≡ 0) × (result.nanos ≡ 0) }
{
    Moment::new(0, 0).unwrap()
}
