//! Filters with a state: closures that count, and callbacks that note what goes.

ghost use Rattle.std.specs.Prelude.{◌≡◌, ◌^◌, ◌-◌, List, Bool, min, length, IfOk};
ghost use Rattle.sentry_envelope.specs.EnvelopeView.{no_fields};
ghost use Rattle.sentry_envelope.specs.Filter.{asked_items, chosen, kept, handed, Leaves};

use crate::envelopes::read;
use crate::wanted::{told, wanted};
use sentry_types::protocol::v7::{Envelope, EnvelopeFilterCallbacks, EnvelopeItem};
use std::alloc::Global;
use std::test::Fail;

/// An envelope of a recording and two attachments.
const THREE: &[u8] =
    b"{}\n{\"type\":\"replay_recording\"}\n\n{\"type\":\"attachment\"}\na\n{\"type\":\"attachment\"}\nb";

/// Keeps all but attachments, and counts the items that were asked about.
fn without_attachments(
    alloc: Global,
    envelope: Envelope,
) -> Result<(Option<Envelope>, u64), Envelope>
    ensures { IfOk result (λ left. left.1 ≡ min (length (asked_items envelope)) (2 ^ 64 - 1)) }
{
    let mut asked = 0u64;
    let mut filter = |item: &EnvelopeItem| {
        asked = asked.saturating_add(1);
        !matches!(item, EnvelopeItem::Attachment(_))
    };
    let left = envelope.filter_by(alloc, &mut filter)?;
    Ok((left, asked))
}

/// Keeps all that may stay, and counts the items that go.
fn count_dropped(alloc: Global, envelope: Envelope) -> Result<(Option<Envelope>, u64), Envelope>
    ensures { IfOk result (λ left. (answers : List Bool) ×
        (length answers ≡ length (asked_items envelope))
        × Leaves no_fields envelope (kept (chosen (asked_items envelope) answers)) left.0
        × (left.1 ≡ min (length (handed (asked_items envelope) answers)) (2 ^ 64 - 1))) }
{
    let mut dropped = 0u64;
    let mut callbacks = EnvelopeFilterCallbacks::new(
        |_item: &EnvelopeItem| true,
        |item: EnvelopeItem| {
            drop(item);
            dropped = dropped.saturating_add(1);
        },
    );
    let left = envelope.filter_by(alloc, &mut callbacks)?;
    Ok((left, dropped))
}

#[test]
fn closures_count(rt: HostRuntime) -> Result<(), Fail> {
    let alloc = rt.alloc();
    wanted(told(without_attachments(alloc, read(alloc, THREE)?)) == Some((false, 3)))?;
    wanted(told(count_dropped(alloc, read(alloc, THREE)?)) == Some((false, 2)))
}
