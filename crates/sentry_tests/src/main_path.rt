//! What a user of envelopes does, by the names of `sentry_types` alone.

ghost use Rattle.std.specs.Prelude.{◌≡◌, IfOk};
ghost use Rattle.sentry_envelope.specs.Envelope.{Envelope as Model, Spells, IsEnvelopeReadable};
ghost use Rattle.sentry_envelope.specs.SentryProfile.{profile};
ghost use Rattle.sentry_moments.specs.Moments.{moment_cell};

use crate::wanted::{holds, wanted};
use rand_core::Rng;
use rand_pcg::Pcg32;
use sentry_types::protocol::latest::client_report::LossSource;
use sentry_types::protocol::latest::{Envelope, EnvelopeItem, Moment};
use std::alloc::Global;
use std::test::Fail;

/// An attachment and a recording, below a header with a DSN.
const TWO_ITEMS: &str =
    "{\"dsn\":\"https://username@domain/42\"}\n{\"type\":\"attachment\"}\nab\n{\"type\":\"replay_recording\",\"length\":3}\nabc";

/// The envelope that bytes spell at second 0, without its attachments.
fn without_attachments(alloc: Global, bytes: &[u8]) -> Result<Option<Envelope>, Fail> {
    let now = Moment::new(0, 0).ok_or("no moment")?;
    let envelope = Envelope::from_slice(alloc, bytes, now, &mut Pcg32::new(42, 54))?;
    let mut filter = |item: &EnvelopeItem| !matches!(item, EnvelopeItem::Attachment(_));
    let left = envelope.filter_by(alloc, &mut filter).ok();
    Ok(left.ok_or("out of memory")?)
}

/// Whether an envelope is the recording of `TWO_ITEMS`: one loss is told of it, and it is written
/// without the header's DSN.
fn is_recording(alloc: Global, left: &Envelope) -> bool {
    let text = "{}\n{\"length\":3,\"type\":\"replay_recording\"}\nabc\n";
    let mut losses = left.losses();
    let mut out = Vec::new(alloc);
    losses.next().is_some()
        && losses.next().is_none()
        && left.to_writer(alloc, &mut out).is_ok()
        && out.as_slice() == text.as_bytes()
}

#[test]
fn read_filtered_and_written(rt: HostRuntime) -> Result<(), Fail> {
    let alloc = rt.alloc();
    let left = without_attachments(alloc, TWO_ITEMS.as_bytes())?.ok_or("nothing is left");
    wanted(holds(alloc, left, is_recording))
}

/// The text of the envelope that bytes spell at one moment, and the text of what that text spells
/// at another: one text, where what the bytes spell is readable.
fn written_twice<R: Rng>(
    alloc: Global,
    bytes: &[u8],
    now: Moment,
    later: Moment,
    ids: &mut R,
) -> Result<(Vec<u8>, Vec<u8>), Fail>
    ensures { IfOk result (λ texts. ((e : Model) → Spells profile bytes.now (moment_cell now) e →
        IsEnvelopeReadable profile e) → texts.0.items ≡ texts.1.items) }
{
    let envelope = Envelope::from_slice(alloc, bytes, now, ids)?;
    let mut text = Vec::new(alloc);
    envelope.to_writer(alloc, &mut text)?;
    let again = Envelope::from_slice(alloc, &text, later, ids)?;
    let mut same = Vec::new(alloc);
    again.to_writer(alloc, &mut same)?;
    Ok((text, same))
}

#[test]
fn written_twice_as_once(rt: HostRuntime) -> Result<(), Fail> {
    let now = Moment::new(0, 0).ok_or("no moment")?;
    let later = Moment::new(1, 0).ok_or("no moment")?;
    let mut ids = Pcg32::new(42, 54);
    let (text, same) = written_twice(rt.alloc(), TWO_ITEMS.as_bytes(), now, later, &mut ids)?;
    wanted(text == same)
}
