//! Tells why an envelope is refused.

ghost use Rattle.std.specs.Prelude.{IfOk, IfSome, IsNone, OnOk};
ghost use Rattle.std.specs.List.{All};
ghost use Rattle.sentry_envelope.specs.SentryProfile.{profile};
ghost use Rattle.sentry_moments.specs.Moments.{moment_cell};
ghost use Rattle.sentry_mending.specs.Alone.{Fails, Reads};
ghost use Rattle.sentry_mending.specs.Told.{IsTold};

use crate::fault::Fault;
use crate::items::{Spot, copied, item_causes, line_causes, next_spot, same, spot_error};
use crate::reading::fault_of;
use rand_core::Rng;
use sentry_forward::AnyFrames;
use sentry_framing::{EnvelopeError, Frames};
use sentry_moments::Moment;
use std::alloc::{AllocError, Global};

/// Why an envelope is refused.
#[derive(Debug, Drop)]
pub struct Explanation {
    /// The first check of the envelope that fails: the error of `Envelope::from_slice`.
    pub error: EnvelopeError,
    /// The faults, in order.
    pub faults: Vec<Fault>,
}

// How many places of one item are told.
const MAX_PLACES: usize = 1_000;

// Appends the faults of the header line, if it is refused.
fn push_line_faults<R: Rng>(
    alloc: Global,
    bytes: &[u8],
    now: Moment,
    ids: &mut R,
    faults: &mut Vec<Fault>,
) -> Result<(), AllocError>
    requires { All (IsTold profile bytes.now) faults.old.items }
    ensures { OnOk result (All (IsTold profile bytes.now) faults.new.items) }
{
    let Some(error) = fault_of(alloc, bytes, now, ids)? else {
        return Ok(());
    };
    if !matches!(error, EnvelopeError::InvalidHeader) {
        return Ok(());
    }
    let end = Frames::new(bytes).header_line().len();
    let causes = line_causes(alloc, bytes, end, MAX_PLACES, now, ids)?;
    for cause in causes {
        faults.push(Fault {
            error: same(&error),
            item: None,
            word: Vec::new(alloc),
            start: 0,
            end,
            cause,
        })?;
    }
    Ok(())
}

// Appends the faults of an item, if it is refused alone.
fn push_item_faults<R: Rng>(
    alloc: Global,
    bytes: &[u8],
    spot: &Spot,
    now: Moment,
    ids: &mut R,
    faults: &mut Vec<Fault>,
) -> Result<(), AllocError>
    requires { All (IsTold profile bytes.now) faults.old.items }
    ensures { OnOk result (All (IsTold profile bytes.now) faults.new.items) }
{
    let Some(error) = spot_error(alloc, bytes, spot, now, ids)? else {
        return Ok(());
    };
    let causes = item_causes(alloc, bytes, spot, &error, MAX_PLACES, now, ids)?;
    for cause in causes {
        let word = copied(alloc, &spot.word)?;
        faults.push(Fault {
            error: same(&error),
            item: Some(spot.item),
            word,
            start: spot.start,
            end: spot.end,
            cause,
        })?;
    }
    Ok(())
}

// Appends the faults of all items.
fn push_all_faults<R: Rng>(
    alloc: Global,
    bytes: &[u8],
    now: Moment,
    ids: &mut R,
    faults: &mut Vec<Fault>,
) -> Result<(), AllocError>
    requires { All (IsTold profile bytes.now) faults.old.items }
    ensures { OnOk result (All (IsTold profile bytes.now) faults.new.items) }
{
    let mut frames = match AnyFrames::new(alloc, bytes) {
        Ok(frames) => frames,
        Err(EnvelopeError::OutOfMemory) => return Err(AllocError),
        Err(_) => return Ok(()),
    };
    for item in 0..bytes.len() {
        let Some(spot) = next_spot(alloc, bytes, &mut frames, item)? else {
            break;
        };
        push_item_faults(alloc, bytes, &spot, now, ids, faults)?;
    }
    Ok(())
}

/// Tells why an envelope is refused; `None` if it reads.
///
/// Each item is read alone, so the faults of all items are told, and those of the header line. Of
/// an item at most 1,000 places are told.
///
/// # Errors
///
/// `AllocError` if an allocation fails.
pub fn explain<R: Rng>(
    alloc: Global,
    bytes: &[u8],
    now: Moment,
    ids: &mut R,
) -> Result<Option<Explanation>, AllocError>
    ensures reads { IfOk result (λ o. IsNone o → Reads profile (moment_cell now) bytes.now) }
    ensures error { IfOk result (λ o. IfSome o (λ x. Fails profile bytes.now x.error)) }
    ensures told { IfOk result (λ o. IfSome o (λ x.
        All (IsTold profile bytes.now) x.faults.items)) }
{
    let Some(error) = fault_of(alloc, bytes, now, ids)? else {
        return Ok(None);
    };
    let mut faults = Vec::new(alloc);
    push_line_faults(alloc, bytes, now, ids, &mut faults)?;
    push_all_faults(alloc, bytes, now, ids, &mut faults)?;
    Ok(Some(Explanation { error, faults }))
}
