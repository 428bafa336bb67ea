//! A relay: it reads the envelope header, keeps a quota of events, and forwards.

use crate::envelopes::read;
use crate::wanted::wanted;
use sentry_types::protocol::v7::{
    AnyFrame, Envelope, EnvelopeError, EnvelopeItem, EnvelopeWriteError, ItemKind, forward,
};
use std::alloc::Global;
use std::test::Fail;

/// Returns the public key of the DSN that an envelope is sent to.
fn public_key(envelope: &Envelope) -> Option<&str> {
    Some(envelope.headers().dsn()?.public_key())
}

/// How many events and transactions may still pass.
#[derive(Drop)]
struct Quota {
    left: u64,
}

impl Quota {
    /// Admits an item; events and transactions use up the quota.
    fn admits(&mut self, item: &EnvelopeItem) -> bool {
        if !matches!(item, EnvelopeItem::Event(_) | EnvelopeItem::Transaction(_)) {
            return true;
        }
        let admitted = self.left > 0;
        self.left = self.left.saturating_sub(1);
        admitted
    }
}

/// Returns the text of what a quota admits of an envelope, with its header; `None` if nothing is
/// left.
fn admitted(
    alloc: Global,
    envelope: Envelope,
    quota: &mut Quota,
) -> Result<Option<Vec<u8>>, EnvelopeWriteError> {
    let mut filter = |item: &EnvelopeItem| quota.admits(item);
    let Ok(left) = envelope.filter_keep_headers(alloc, &mut filter) else {
        return Err(EnvelopeWriteError::Memory);
    };
    match left {
        Some(left) => Ok(Some(left.to_vec(alloc)?)),
        None => Ok(None),
    }
}

const EVENTS: &str = concat!(
    "{\"dsn\":\"https://key@sentry.io/1\"}\n",
    "{\"type\":\"event\"}\n{\"event_id\":\"22d00b3fd1b14b5d8d2049d138cd8a9c\",\"timestamp\":1}\n",
    "{\"type\":\"event\"}\n{\"event_id\":\"9ec79c33ec9942ab8353589fcb2e04dc\",\"timestamp\":2}\n"
);

/// The first event, with its header, which has its id now.
const FIRST: &str = concat!(
    "{\"dsn\":\"https://key:@sentry.io/1\",\"event_id\":\"22d00b3f-d1b1-4b5d-8d20-49d138cd8a9c\"}\n",
    "{\"length\":61,\"type\":\"event\"}\n",
    "{\"event_id\":\"22d00b3fd1b14b5d8d2049d138cd8a9c\",\"timestamp\":1}\n"
);

/// The text of what a quota admits of `EVENTS`.
fn forwarded(alloc: Global, quota: &mut Quota) -> Result<Option<Vec<u8>>, Fail> {
    Ok(admitted(alloc, read(alloc, EVENTS.as_bytes())?, quota)?)
}

#[test]
fn a_quota_is_used_up(rt: HostRuntime) -> Result<(), Fail> {
    let alloc = rt.alloc();
    let envelope = read(alloc, EVENTS.as_bytes())?;
    let is_key = public_key(&envelope) == Some("key");
    drop(envelope);
    wanted(is_key)?;
    let mut quota = Quota { left: 1 };
    let text = forwarded(alloc, &mut quota)?;
    wanted(matches!(&text, Some(text) if text.as_slice() == FIRST.as_bytes()))?;
    wanted(forwarded(alloc, &mut quota)?.is_none())
}

/// Returns the bytes of an envelope without its attachments of more than 1 MB, whatever else is in
/// it; `None` if no item is left.
fn pass_on(alloc: Global, bytes: &[u8]) -> Result<Option<Vec<u8>>, EnvelopeError> {
    let mut filter = |frame: &AnyFrame<'_>| {
        !matches!(frame.kind(), Some(ItemKind::Attachment)) || frame.payload.len() <= 1_000_000
    };
    let left = forward(alloc, bytes, &mut filter)?;
    if left.nonempty_parts().is_none() {
        return Ok(None);
    }
    Ok(Some(left.to_vec(alloc)?))
}

#[test]
fn any_items_are_passed_on(rt: HostRuntime) -> Result<(), Fail> {
    let alloc = rt.alloc();
    let bytes = b"{}\n{\"type\":\"profile\",\"rate\":0.5}\nnot read\n\n{\"type\":\"event\"}\n{";
    let left = pass_on(alloc, bytes)?;
    wanted(matches!(&left, Some(left) if left.as_slice() == bytes.as_slice()))?;
    drop(left);
    wanted(pass_on(alloc, b"{}\n")?.is_none())
}
