//! Forwarding an envelope and recording the losses of the items that are dropped.

ghost use Rattle.std.specs.Prelude.{◌≡◌, IfErr, IfOk, OnErr};
ghost use Rattle.std.specs.Fn.{CalledAt};
ghost use Rattle.sentry_forward.specs.View.{AreNamed};
ghost use Rattle.sentry_ledger.specs.RecordedFrames.{IsForwardedBy, IsUnrecorded, RecordsFrames};

use crate::ledger::Ledger;
use crate::lost_frames::losses_of_frames;
use sentry_forward::{AnyFrame, ForwardError, ForwardRules, Forwarded, forward_by};
use sentry_reports::{ItemLoss, Reason};
use std::alloc::{AllocError, Global};

/// The error of [`forward_recorded`]. No loss is recorded.
#[derive(Drop)]
pub enum ForwardFailed<'a> {
    /// Nothing is forwarded, and the filter was not called.
    Refused(ForwardError),
    /// An allocation failed when the losses were read: what is forwarded. Its losses can be recorded
    /// by [`Ledger::record_frames`].
    Unrecorded(Forwarded<'a>),
}

impl Ledger {
    ghost use Rattle.std.specs.Prelude.{◌≡◌, IfOk, OnErr};
    ghost use Rattle.sentry_ledger.specs.Recorded.{Records};
    ghost use Rattle.sentry_ledger.specs.RecordedFrames.{RecordsFrames};

    /// Records losses in order, each under its own reason, or under `reason` if the loss has none.
    ///
    /// Returns the number of losses that were refused because a quantity would exceed 2^64-1; that
    /// number is capped at 2^64-1. A refused loss is not recorded.
    pub fn record_all(&mut self, losses: &[ItemLoss], reason: Reason) -> u64
        ensures { Records self.old self.new reason losses.now result }
    {
        let mut refused = 0u64;
        for loss in losses {
            if self.record(*loss, reason).is_err() {
                refused = refused.saturating_add(1);
            }
        }
        refused
    }

    /// Records the losses of frames ([`frame_losses`]), as [`Ledger::record_all`] does.
    ///
    /// # Errors
    ///
    /// `AllocError` if an allocation fails, or if a URL would take 4 GB; `self` is unchanged.
    ///
    /// [`frame_losses`]: crate::frame_losses
    pub fn record_frames(
        &mut self,
        alloc: Global,
        frames: &[AnyFrame<'_>],
        reason: Reason,
    ) -> Result<u64, AllocError>
        ensures recorded { IfOk result (λ refused.
            RecordsFrames self.old self.new reason frames.now refused) }
        ensures refused { OnErr result (self.new ≡ self.old) }
    {
        let losses = losses_of_frames(alloc, frames)?;
        Ok(self.record_all(&losses, reason))
    }
}

/// Forwards an envelope as [`forward_by`] does, and records the losses of each dropped frame
/// ([`frame_losses`]), in order, each under its own reason, or under `reason` if the loss has none.
///
/// Returns what is forwarded, and the number of losses that the ledger refused because a quantity
/// would exceed 2^64-1; that number is capped at 2^64-1. A refused loss is not recorded.
///
/// # Errors
///
/// The ledger is unchanged:
///
/// - `Refused` with the error of [`forward_by`]; the filter was not called.
/// - `Unrecorded` with what is forwarded, if an allocation fails when the losses are read, or if a
///   URL would take 4 GB.
///
/// [`frame_losses`]: crate::frame_losses
pub fn forward_recorded<'a, F: FnMut(&AnyFrame<'a>) -> bool>(
    alloc: Global,
    bytes: &'a [u8],
    rules: ForwardRules,
    filter: &mut F,
    reason: Reason,
    ledger: &mut Ledger,
) -> Result<(Forwarded<'a>, u64), ForwardFailed<'a>>
    requires { F.IsAlwaysCallable filter.old }
    ensures forwarded { IfOk result (λ done.
        IsForwardedBy (CalledAt F.FnMut) rules bytes.now filter.old filter.new done.0) }
    ensures named { IfOk result (λ done. AreNamed done.0.dropped.items) }
    ensures recorded { IfOk result (λ done.
        RecordsFrames ledger.old ledger.new reason done.0.dropped.items done.1) }
    ensures failed { IfErr result
        (IsUnrecorded (CalledAt F.FnMut) rules bytes.now filter.old filter.new) }
    ensures unchanged { OnErr result (ledger.new ≡ ledger.old) }
{
    let forwarded = match forward_by(alloc, bytes, rules, filter) {
        Ok(forwarded) => forwarded,
        Err(error) => return Err(ForwardFailed::Refused(error)),
    };
    match ledger.record_frames(alloc, &forwarded.dropped, reason) {
        Ok(refused) => Ok((forwarded, refused)),
        Err(_) => Err(ForwardFailed::Unrecorded(forwarded)),
    }
}
