//! The command `cat`.

ghost use Rattle.std.specs.Prelude.{◌≢◌, ◌<◌, IfErr, IfOk, MatchOption};
ghost use Rattle.sentry_forward.specs.View.{IsRefused};
ghost use Rattle.curdmesa.specs.Cat.{HasFewer, IsPayloadOf};

use sentry_forward::AnyFrames;
use sentry_framing::EnvelopeError;
use std::alloc::Global;

/// Returns the payload of an item, by its number, from 1; `None` if there are fewer items. What
/// stands behind the item is not read.
///
/// # Errors
///
/// Those of [`AnyFrames`], for the header line and the frames up to the item.
pub fn payload<'a>(
    alloc: Global,
    bytes: &'a [u8],
    number: usize,
) -> Result<Option<&'a [u8]>, EnvelopeError>
    requires { 0 < number }
    ensures payload { IfOk result (λ found. MatchOption found (HasFewer bytes.now number)
        (λ payload. IsPayloadOf bytes.now number payload.now)) }
    ensures refused { IfErr result (λ e. e ≢ EnvelopeError.OutOfMemory → IsRefused bytes.now e) }
{
    let mut frames = AnyFrames::new(alloc, bytes)?;
    let mut left = number;
    while let Some(next) = frames.next_frame(alloc) {
        let frame = next?;
        if left == 1 {
            return Ok(Some(frame.payload));
        }
        left -= 1;
    }
    Ok(None)
}
