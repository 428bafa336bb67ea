//! What refuses an envelope, one of its items alone, or a payload.

ghost use Rattle.std.specs.Prelude.{◌≡◌, ◌≢◌, IfOk, IfSome, IsTrue, IsNone, OnOk};
ghost use Rattle.sentry_envelope.specs.SentryProfile.{profile};
ghost use Rattle.sentry_moments.specs.Moments.{moment_cell};
ghost use Rattle.sentry_mending.specs.Alone.{Fails, Reads, RefusesPayload, alone, item_of};

use crate::times::Rfc3339Times;
use rand_core::Rng;
use sentry_envelope::Envelope;
use sentry_framing::EnvelopeError;
use sentry_moments::Moment;
use sentry_places::{Oracle, Times};
use std::alloc::{AllocError, Global};

// Returns an error if this one is that an allocation failed.
pub(crate) fn not_memory(error: &EnvelopeError) -> Result<(), AllocError>
    ensures { OnOk result (error.now ≢ EnvelopeError.OutOfMemory) }
{
    match error {
        EnvelopeError::OutOfMemory => Err(AllocError),
        _ => Ok(()),
    }
}

// Returns the first check of the bytes that fails; `None` if they read.
#[tactic(auto, using(crate::proofs::Refusals::reads_made))]
pub(crate) fn fault_of<R: Rng>(
    alloc: Global,
    bytes: &[u8],
    now: Moment,
    ids: &mut R,
) -> Result<Option<EnvelopeError>, AllocError>
    ensures reads { IfOk result (λ o. IsNone o → Reads profile (moment_cell now) bytes.now) }
    ensures fails { IfOk result (λ o. IfSome o (Fails profile bytes.now)) }
{
    match Envelope::from_slice(alloc, bytes, now, ids) {
        Ok(envelope) => {
            drop(envelope);
            Ok(None)
        }
        Err(error) => {
            not_memory(&error)?;
            Ok(Some(error))
        }
    }
}

// Returns the text of an envelope of one item.
fn alone_text(alloc: Global, item: &[u8]) -> Result<Vec<u8>, AllocError>
    ensures { IfOk result (λ text. text.items ≡ alone item.now) }
{
    let mut text = Vec::with_capacity(alloc, item.len().saturating_add(3))?;
    text.extend_from_slice(b"{}\n")?;
    text.extend_from_slice(item)?;
    Ok(text)
}

// Returns the first check that fails in an envelope of this item alone; `None` if it reads.
pub(crate) fn fault_alone<R: Rng>(
    alloc: Global,
    item: &[u8],
    now: Moment,
    ids: &mut R,
) -> Result<Option<EnvelopeError>, AllocError>
    ensures { IfOk result (λ o. IfSome o (Fails profile (alone item.now))) }
{
    let text = alone_text(alloc, item)?;
    let found = fault_of(alloc, &text, now, ids)?;
    Ok(found)
}

// Returns an item of a type and a payload.
fn item_text(alloc: Global, word: &[u8], payload: &[u8]) -> Result<Vec<u8>, AllocError>
    ensures { IfOk result (λ text. text.items ≡ item_of word.now payload.now) }
{
    let len = payload.len();
    let length = format!(in alloc; "{len}")?;
    let mut text = Vec::with_capacity(alloc, len.saturating_add(64))?;
    text.extend_from_slice(b"{\"type\":\"")?;
    text.extend_from_slice(word)?;
    text.extend_from_slice(b"\",\"length\":")?;
    text.extend_from_slice(length.as_str().as_bytes())?;
    text.extend_from_slice(b"}\n")?;
    text.extend_from_slice(payload)?;
    Ok(text)
}

// Returns whether an envelope of an item of this type and payload is refused.
#[tactic(auto, using(crate::proofs::Refusals::refused_made))]
pub(crate) fn refuses_payload<R: Rng>(
    alloc: Global,
    word: &[u8],
    payload: &[u8],
    now: Moment,
    ids: &mut R,
) -> Result<bool, AllocError>
    ensures { IfOk result (λ b. IsTrue b → RefusesPayload profile word.now payload.now) }
{
    let item = item_text(alloc, word, payload)?;
    match fault_alone(alloc, &item, now, ids)? {
        Some(_) => Ok(true),
        None => Ok(false),
    }
}

/// What a text is read as, alone.
#[derive(Clone, Copy)]
pub(crate) enum Role<'a> {
    /// The header line of an envelope.
    HeaderLine,
    /// The header of an item.
    ItemHeader,
    /// The payload of an item of this type.
    Payload(&'a [u8]),
}

/// Reads texts of one role.
#[derive(Drop)]
pub(crate) struct Reader<'r, 'a, R> {
    pub alloc: Global,
    pub role: Role<'a>,
    pub now: Moment,
    pub ids: &'r mut R,
}

// Returns JSON as one line: line feeds stand between its tokens alone.
fn one_line(alloc: Global, json: &[u8]) -> Result<Vec<u8>, AllocError> {
    let mut line = Vec::with_capacity(alloc, json.len().saturating_add(1))?;
    for byte in json {
        line.push(if *byte == b'\n' { b' ' } else { *byte })?;
    }
    line.push(b'\n')?;
    Ok(line)
}

impl<R: Rng> Oracle for Reader<'_, '_, R> {
    fn reads(&mut self, text: &[u8]) -> Result<bool, AllocError> {
        let alloc = self.alloc;
        match self.role {
            Role::HeaderLine => {
                let line = one_line(alloc, text)?;
                let found = fault_of(alloc, &line, self.now, self.ids)?;
                Ok(!matches!(found, Some(EnvelopeError::InvalidHeader)))
            }
            Role::ItemHeader => {
                let line = one_line(alloc, text)?;
                let found = fault_alone(alloc, &line, self.now, self.ids)?;
                Ok(!matches!(found, Some(EnvelopeError::InvalidItemHeader)))
            }
            Role::Payload(word) => {
                let refused = refuses_payload(alloc, word, text, self.now, self.ids)?;
                Ok(!refused)
            }
        }
    }

    fn time_of(&self, number: &[u8]) -> Result<Option<Vec<u8>>, AllocError> {
        Rfc3339Times::time_of(self.alloc, number)
    }
}
