//! The command `normalize`.

ghost use Rattle.std.specs.Prelude.{◌≢◌, IfErr, IfOk};
ghost use Rattle.sentry_moments.specs.Moments.{moment_cell};
ghost use Rattle.sentry_items.specs.Texts.{bytes_of};
ghost use Rattle.sentry_envelope.specs.EnvelopeFault.{Fault};
ghost use Rattle.sentry_envelope.specs.NormalText.{IsNormalText};
ghost use Rattle.sentry_envelope.specs.SentryProfile.{profile};

use rand_core::Rng;
use sentry_envelope::{EnvelopeError, normal_text};
use sentry_items::text::Text;
use sentry_moments::Moment;
use std::alloc::Global;

/// Parses an envelope, and returns its normal form. The moment `now` fills absent timestamps, and
/// `ids` absent ids.
///
/// # Errors
///
/// Those of [`normal_text`].
pub fn normal_form<'a, R: Rng>(
    alloc: Global,
    bytes: &'a [u8],
    now: Moment,
    ids: &mut R,
) -> Result<Text<'a>, EnvelopeError>
    ensures normal { IfOk result (λ text.
        IsNormalText bytes.now (moment_cell now) (bytes_of text)) }
    ensures refused { IfErr result (λ e. e ≢ EnvelopeError.OutOfMemory →
        Fault profile bytes.now e) }
{
    let text = normal_text(alloc, bytes, now, ids)?;
    Ok(text)
}
