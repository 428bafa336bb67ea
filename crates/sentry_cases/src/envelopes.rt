//! What bytes spell, as envelopes.

use crate::asked::{holds, is_same, said_of};
use crate::bytes::said_bytes;
use crate::counting::Counting;
use crate::form::agreed;
use crate::said::{as_tree, list, maybe, refused, text};
use rand_core::Rng;
use rand_pcg::Pcg32;
use sentry_types::protocol::v7::{
    CountedWriter, Envelope, EnvelopeError, EnvelopeItem, EnvelopeWriteError, Frames,
    ItemContainer, ItemFrame, ItemLoss, LossSource, Moment, Value, normal_text,
};
use std::alloc::{AllocError, Global};

/// The envelope that bytes spell at second 0.
pub fn read(alloc: Global, bytes: &[u8]) -> Result<Envelope, EnvelopeError> {
    let now = Moment::new(0, 0).unwrap();
    Envelope::from_slice(alloc, bytes, now, &mut Pcg32::new(42, 54))
}

/// The text of an envelope, or why it isn't written.
pub fn said_envelope(alloc: Global, envelope: &Envelope) -> Result<Value, AllocError> {
    let mut out = Vec::new(alloc);
    match envelope.to_writer(alloc, &mut out) {
        Ok(()) => said_bytes(alloc, out.as_slice()),
        // A vector takes what is written unless an allocation fails.
        Err(EnvelopeWriteError::Io) => Err(AllocError),
        Err(EnvelopeWriteError::NotPlain) if envelope.to_vec(alloc).is_ok() => {
            text(alloc, "a vector has the text")
        }
        Err(error) if out.is_empty() => refused(alloc, &error),
        Err(_) => text(alloc, "a part is written"),
    }
}

// Whether an envelope is written as this text, and the same by a writer that counts failures.
fn is_written(alloc: Global, envelope: &Envelope, text: &[u8]) -> bool {
    let mut out = Vec::new(alloc);
    let mut counted = CountedWriter::new(Vec::new(alloc));
    envelope.to_writer(alloc, &mut out).is_ok()
        && envelope.write_counted(alloc, &mut counted).is_ok()
        && counted.failures() == 0
        && out.as_slice() == text
        && counted.into_inner().as_slice() == text
}

// Whether a text spells this envelope, and both are written as the text.
fn spells(alloc: Global, text: &[u8], envelope: &Envelope) -> bool {
    is_written(alloc, envelope, text)
        && holds(read(alloc, text), |again: &Envelope| {
            *again == *envelope && is_written(alloc, again, text)
        })
}

// Whether the text of an envelope spells its normal form, which has the same text, and a clone is
// the envelope.
fn is_steady(alloc: Global, envelope: &Envelope) -> bool {
    let Ok(text) = envelope.to_vec(alloc) else {
        return false;
    };
    envelope.is_plain()
        && is_written(alloc, envelope, &text)
        && is_same(envelope.clone(), envelope)
        && holds(
            envelope.normalized(),
            |normal: &Envelope| spells(alloc, &text, normal),
        )
}

// What is written of an envelope, if its text can be read.
fn said_steady(alloc: Global, envelope: &Envelope) -> Result<Value, AllocError> {
    if is_steady(alloc, envelope) {
        said_envelope(alloc, envelope)
    } else {
        text(alloc, "not read back")
    }
}

// The text of the normal form that bytes spell at second 0, which is written while they are read, or
// why there is none.
fn said_normal<R: Rng>(alloc: Global, bytes: &[u8], ids: &mut R) -> Result<Value, AllocError> {
    let now = Moment::new(0, 0).unwrap();
    match normal_text(alloc, bytes, now, ids) {
        Ok(text) => said_bytes(alloc, &text.into_vec()?),
        Err(error) => refused(alloc, &error),
    }
}

// What is told of the envelope that bytes spell at second 0, if that is the text of its normal form,
// or the same error.
fn beside_normal(alloc: Global, bytes: &[u8], told: Value) -> Result<Value, AllocError> {
    agreed(
        alloc,
        told,
        said_normal(alloc, bytes, &mut Pcg32::new(42, 54)),
    )
}

/// What is written of the envelope that bytes spell at second 0, by its values and while it is read.
pub fn of_rewritten(alloc: Global, bytes: &[u8]) -> Result<Value, AllocError> {
    let told = said_of(alloc, read(alloc, bytes), said_envelope)?;
    beside_normal(alloc, bytes, told)
}

/// The same, if the text can be read.
pub fn of_envelope(alloc: Global, bytes: &[u8]) -> Result<Value, AllocError> {
    let told = said_of(alloc, read(alloc, bytes), said_steady)?;
    beside_normal(alloc, bytes, told)
}

/// What is written of the envelopes that texts spell at second 0, one after the other, with one
/// generator of ids, whose words count from 1.
pub fn rewritten_in_turn(alloc: Global, texts: &[Value]) -> Result<Value, AllocError> {
    let (now, mut ids) = (Moment::new(0, 0).unwrap(), Counting(0));
    let mut told = Vec::new(alloc);
    for given in texts {
        let bytes = given.as_str().unwrap_or("").as_bytes();
        let mut same = Counting(ids.0);
        let made = Envelope::from_slice(alloc, bytes, now, &mut ids);
        let said = said_of(alloc, made, said_envelope)?;
        told.push(agreed(alloc, said, said_normal(alloc, bytes, &mut same))?)?;
    }
    Ok(Value::from(told))
}

/// What is written of a raw envelope, whether it is plain, how many items it shows, and what is
/// lost with them.
pub fn said_raw(alloc: Global, envelope: &Envelope) -> Result<Value, AllocError> {
    let fields = [
        said_of(alloc, envelope.clone(), said_envelope),
        as_tree(envelope.is_plain()),
        as_tree(envelope.items().count() as u64),
        said_losses(alloc, envelope),
    ];
    list(alloc, fields)
}

/// The word and the media type of a container, and how many values it has.
fn said_container(alloc: Global, container: &ItemContainer) -> Result<Value, AllocError> {
    let fields = [
        text(alloc, container.ty()),
        text(alloc, container.content_type()),
        as_tree(container.len() as u64),
    ];
    list(alloc, fields)
}

/// The containers of an envelope.
pub fn said_containers(alloc: Global, envelope: &Envelope) -> Result<Value, AllocError> {
    let mut told = Vec::new(alloc);
    for item in envelope.items() {
        if let EnvelopeItem::ItemContainer(container) = item {
            told.push(said_container(alloc, container)?)?;
        }
    }
    Ok(Value::from(told))
}

// The header and the payload of a frame, or why there is none.
fn said_frame(
    alloc: Global,
    frame: Result<ItemFrame<'_>, EnvelopeError>,
) -> Result<Value, AllocError> {
    match frame {
        Ok(frame) => list(
            alloc,
            [
                said_bytes(alloc, frame.header),
                said_bytes(alloc, frame.payload),
            ],
        ),
        Err(error) => refused(alloc, &error),
    }
}

/// The header line of bytes, and the header and the payload of each frame, up to a refusal.
pub fn of_frames(alloc: Global, bytes: &[u8]) -> Result<Value, AllocError> {
    let mut frames = Frames::new(bytes);
    let mut told = Vec::new(alloc);
    told.push(said_bytes(alloc, frames.header_line())?)?;
    for _ in 0..bytes.len() {
        let Some(frame) = frames.next_frame(alloc) else {
            break;
        };
        told.push(said_frame(alloc, frame)?)?;
    }
    Ok(Value::from(told))
}

/// A loss: its category, its quantity, and its reason or null.
pub fn said_loss(alloc: Global, loss: &ItemLoss) -> Result<Value, AllocError> {
    let reason = match &loss.reason {
        Some(reason) => Some(reason.as_str()),
        None => None,
    };
    let category = text(alloc, loss.category.as_str());
    list(
        alloc,
        [category, as_tree(loss.quantity), maybe(alloc, reason)],
    )
}

/// The losses of a source, in order.
pub fn said_losses<S: LossSource>(alloc: Global, source: &S) -> Result<Value, AllocError> {
    let mut told = Vec::new(alloc);
    for loss in source.losses() {
        told.push(said_loss(alloc, &loss)?)?;
    }
    Ok(Value::from(told))
}
