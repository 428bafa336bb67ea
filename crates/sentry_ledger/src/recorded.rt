//! Filtering an envelope and recording the losses of the items that are removed.

ghost use Rattle.std.specs.Prelude.{◌≡◌, IfErr, IfOk};
ghost use Rattle.sentry_ledger.specs.Recorded.{FiltersRecorded};

use crate::ledger::Ledger;
use sentry_envelope::{Envelope, EnvelopeFilter};
use sentry_items::{EnvelopeItem, LossSource};
use sentry_reports::{ItemLoss, Reason};
use std::alloc::Global;
use std::mem;

// A ledger, the reason under which losses are recorded, and the number of losses that the ledger
// refused, capped at 2^64-1.
#[derive(Drop)]
struct Recording {
    ledger: Ledger,
    reason: Reason,
    refused: u64,
}

impl Recording {
    ghost use Rattle.std.specs.Prelude.{◌∷◌, []};
    ghost use Rattle.sentry_items.specs.Losses.{losses_of_item};
    ghost use Rattle.sentry_ledger.specs.Recorded.{RecordsMore};

    fn add(&mut self, loss: ItemLoss)
        ensures { RecordsMore self.old self.new (loss ∷ []) }
    {
        if self.ledger.record(loss, self.reason).is_err() {
            self.refused = self.refused.saturating_add(1);
        }
    }

    fn add_item(&mut self, item: &EnvelopeItem)
        ensures { RecordsMore self.old self.new (losses_of_item item.now) }
    {
        for loss in item.losses() {
            self.add(loss);
        }
    }
}

// Passes each call on to a filter, and records the losses of the items that are removed.
#[derive(Drop)]
struct RecordingFilter<F> {
    filter: F,
    recording: Recording,
}

impl<F: EnvelopeFilter> EnvelopeFilter for RecordingFilter<F> {
    ghost use Rattle.sentry_ledger.specs.Recorded.{AsksBeside, HandsBeside, filter_in};

    ghost can_filter = { λ f. F.can_filter (filter_in f) };

    ghost ask = { AsksBeside F.ask };

    ghost hand = { HandsBeside F.hand };

    ghost ask_keeps = { λ first item answer next ready asked.
        F.ask_keeps (filter_in first) item answer (filter_in next) ready asked.0 };

    ghost hand_keeps = { λ first item next ready handed.
        F.hand_keeps (filter_in first) item (filter_in next) ready handed.0 };

    fn filter(&mut self, item: &EnvelopeItem) -> bool {
        self.filter.filter(item)
    }

    fn on_filtered(&mut self, item: EnvelopeItem) {
        self.recording.add_item(&item);
        self.filter.on_filtered(item);
    }
}

/// Filters an envelope as [`Envelope::filter_by`] does, and records the losses of each removed
/// item, in order, each under its own reason, or under `reason` if the loss has none.
///
/// Returns what is left of the envelope, and the number of losses that the ledger refused because a
/// quantity would exceed 2^64-1; that number is capped at 2^64-1. A refused loss is not recorded.
///
/// The filter is dropped afterwards, also if an allocation fails.
///
/// # Errors
///
/// The envelope, unchanged, if an allocation fails; the filter was not called, and the ledger is
/// unchanged.
pub fn filter_recorded<F: EnvelopeFilter>(
    alloc: Global,
    envelope: Envelope,
    filter: F,
    reason: Reason,
    ledger: &mut Ledger,
) -> Result<(Option<Envelope>, u64), Envelope>
    requires { F.can_filter filter }
    ensures filtered { IfOk result (λ done. (last : F) × FiltersRecorded
        F.ask F.hand envelope filter last done.0 reason ledger.old ledger.new done.1) }
    ensures refused { IfErr result (λ back. (back ≡ envelope) × (ledger.new ≡ ledger.old)) }
{
    let recording = Recording {
        ledger: mem::replace(ledger, Ledger::new()),
        reason,
        refused: 0,
    };
    let mut filter = RecordingFilter { filter, recording };
    let left = envelope.filter_by(alloc, &mut filter);
    let Recording {
        ledger: recorded,
        reason: _,
        refused,
    } = filter.recording;
    *ledger = recorded;
    match left {
        Ok(left) => Ok((left, refused)),
        Err(envelope) => Err(envelope),
    }
}
