//! Allocations that fail, and allocations that don't.
//!
//! Without a failure these tests call each function and expect its answer. With one failed
//! allocation, whichever it is (`rt try --test --fail-alloc N`), they pass too: the answer says so,
//! nothing was done, and the next call is answered.

use super::read;
use crate::wanted::{holds, is_none, is_same, wanted};
use sentry_types::protocol::v7::{
    CountedWriter, Envelope, EnvelopeError, EnvelopeFilter, EnvelopeItem, EnvelopeWriteError,
};
use std::alloc::{AllocError, Global};
use std::io;
use std::io::Write;
use std::test::Fail;

/// An envelope of an event and an attachment of `helloworld`.
const TWO: &[u8] =
    b"{}\n{\"type\":\"event\"}\n{\"event_id\":\"22d00b3fd1b14b5d8d2049d138cd8a9c\",\"timestamp\":\"2020-07-20T14:51:14.296Z\"}\n{\"type\":\"attachment\"}\nhelloworld";

/// The text that is written of it.
const TEXT: &str = concat!(
    "{\"event_id\":\"22d00b3f-d1b1-4b5d-8d20-49d138cd8a9c\"}\n{\"length\":86,\"type\":\"event\"}\n",
    "{\"event_id\":\"22d00b3fd1b14b5d8d2049d138cd8a9c\",\"timestamp\":\"2020-07-20T14:51:14.296Z\"}\n",
    "{\"attachment_type\":\"event.attachment\",\"content_type\":\"application/octet-stream\",",
    "\"filename\":\"\",\"length\":10,\"type\":\"attachment\"}\nhelloworld\n"
);

/// Holds what is written, and takes no memory.
#[derive(Drop)]
struct Page {
    bytes: [u8; 512],
    taken: usize,
}

impl Write for Page {
    fn write(&mut self, bytes: &[u8]) -> io::Result<usize> {
        match (bytes.first(), self.bytes.get_mut(self.taken)) {
            (Some(byte), Some(place)) => {
                *place = *byte;
                self.taken = self.taken.saturating_add(1);
                Ok(1)
            }
            _ => Ok(0),
        }
    }

    fn flush(&mut self) -> io::Result<()> {
        Ok(())
    }
}

/// Answers yes, and counts its calls.
#[derive(Drop)]
struct Calls {
    asked: u8,
    handed: u8,
}

impl EnvelopeFilter for Calls {
    ghost use Rattle.std.specs.Prelude.{⊤};

    ghost can_filter = { λ calls. ⊤ };

    ghost ask = { λ calls item answer next. ⊤ };

    ghost hand = { λ calls item next. ⊤ };

    ghost ask_keeps = { λ first item answer next ready asked. tt };

    ghost hand_keeps = { λ first item next ready given. tt };

    fn filter(&mut self, _item: &EnvelopeItem) -> bool {
        self.asked = self.asked.saturating_add(1);
        true
    }

    fn on_filtered(&mut self, item: EnvelopeItem) {
        drop(item);
        self.handed = self.handed.saturating_add(1);
    }
}

/// The envelope that bytes spell. After a failed allocation they are read once more.
pub(crate) fn read_at_last(alloc: Global, bytes: &[u8]) -> Result<Envelope, EnvelopeError> {
    match read(alloc, bytes) {
        Err(EnvelopeError::OutOfMemory) => read(alloc, bytes),
        answer => answer,
    }
}

/// Whether a page gets the whole text, after a failed allocation, which wrote nothing, at the
/// second try.
fn is_written_at_last(alloc: Global, envelope: &Envelope) -> bool {
    let mut page = Page {
        bytes: [0; 512],
        taken: 0,
    };
    let written = match envelope.to_writer(alloc, &mut page) {
        Ok(()) => true,
        Err(EnvelopeWriteError::Memory) => {
            page.taken == 0 && envelope.to_writer(alloc, &mut page).is_ok()
        }
        Err(_) => false,
    };
    written && page.bytes.get(..page.taken).unwrap_or(&[]) == TEXT.as_bytes()
}

/// Whether a vector has the whole text, after a failed allocation at the second try.
fn is_text_at_last(alloc: Global, envelope: &Envelope) -> bool {
    let text = match envelope.to_vec(alloc) {
        Err(EnvelopeWriteError::Memory) => envelope.to_vec(alloc),
        answer => answer,
    };
    match text {
        Ok(text) => text.as_slice() == TEXT.as_bytes(),
        Err(_) => false,
    }
}

/// The normal form of an envelope. After a failed allocation it is asked for once more.
fn normalized_at_last(envelope: &Envelope) -> Result<Envelope, AllocError> {
    match envelope.normalized() {
        Ok(normal) => Ok(normal),
        Err(AllocError) => envelope.normalized(),
    }
}

/// Whether an envelope and its normal form are written, each after a failed allocation or at once.
fn is_rewritten_at_last(alloc: Global, envelope: &Envelope) -> bool {
    is_written_at_last(alloc, envelope)
        && is_text_at_last(alloc, envelope)
        && holds(alloc, normalized_at_last(envelope), is_written_at_last)
}

#[test]
fn refused_when_rewriting(rt: HostRuntime) -> Result<(), Fail> {
    let alloc = rt.alloc();
    wanted(holds(alloc, read_at_last(alloc, TWO), is_rewritten_at_last))
}

/// Whether an envelope is left after a filter.
fn is_left<T: Drop, E: Drop>(filtered: Result<Option<T>, E>) -> bool {
    matches!(filtered, Ok(Some(_)))
}

/// Whether all stays, after a failed allocation, which called nothing and left the envelope as it
/// was, at the second try.
fn stays_at_last(alloc: Global, envelope: Envelope) -> bool {
    let none = Calls {
        asked: 0,
        handed: 0,
    };
    match envelope.filter(alloc, none) {
        Ok(left) => !is_none(left),
        Err((envelope, calls)) => {
            let unchanged = (calls.asked, calls.handed) == (0, 0)
                && is_same(read(alloc, TWO), &envelope);
            let left = is_left(envelope.filter(alloc, calls));
            unchanged && left
        }
    }
}

#[test]
fn refused_when_filtering(rt: HostRuntime) -> Result<(), Fail> {
    wanted(stays_at_last(rt.alloc(), read_at_last(rt.alloc(), TWO)?))
}

const LENGTH: usize = 1_000_000;

/// The bytes of an envelope of a long attachment.
fn long_bytes(alloc: Global) -> Result<Vec<u8>, AllocError> {
    let header = format!(in alloc; "{{}}\n{{\"type\":\"attachment\",\"length\":{LENGTH}}}\n")?;
    let mut bytes = header.as_bytes().to_vec(alloc)?;
    bytes.extend_from_slice(&vec![in alloc; b'x'; LENGTH]?)?;
    Ok(bytes)
}

/// Whether an envelope is written as more bytes than its attachment has, and the same by a writer
/// that counts and into a vector of its own.
fn is_long(alloc: Global, envelope: &Envelope) -> bool {
    let mut out = Vec::new(alloc);
    let mut counted = CountedWriter::new(Vec::new(alloc));
    envelope.to_writer(alloc, &mut out).is_ok()
        && envelope.write_counted(alloc, &mut counted).is_ok()
        && out.len() > LENGTH
        && counted.into_inner() == out
        && holds(alloc, envelope.to_vec(alloc), |_, text| *text == out)
}

/// Whether an envelope and its normal form are long.
fn are_long(alloc: Global, envelope: &Envelope) -> bool {
    is_long(alloc, envelope) && holds(alloc, envelope.normalized(), is_long)
}

/// No allocation fails for an envelope of a long attachment.
#[test]
fn none_refused(rt: HostRuntime) -> Result<(), Fail> {
    let alloc = rt.alloc();
    let bytes = long_bytes(alloc)?;
    wanted(holds(alloc, read(alloc, &bytes), are_long))
}
