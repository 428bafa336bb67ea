//! What is known of an envelope: the verdict on it, and its item frames.

ghost use Rattle.std.specs.Prelude.{◌≢◌, ◌↔◌, IfOk, IsNone, MatchOption, OnOk};
ghost use Rattle.std.specs.Bool.{MatchBool};
ghost use Rattle.std.specs.List.{All};
ghost use Rattle.sentry_forward.specs.View.{any_frame};
ghost use Rattle.sentry_envelope.specs.EnvelopeFault.{FrameIsRefused};
ghost use Rattle.sentry_envelope.specs.SentryProfile.{profile};
ghost use Rattle.sentry_show.specs.Verdicts.{IsAccepted, IsRead};
ghost use Rattle.sentry_show.specs.Rows.{AreRows, IsRowOf, Stand};

use rand_pcg::Pcg32;
use sentry_envelope::read_item;
use sentry_forward::{AnyFrame, AnyFrames};
use sentry_framing::{EnvelopeError, Frames};
use sentry_items::EnvelopeItem;
use sentry_mending::{Explanation, explain};
use sentry_moments::Moment;
use std::alloc::{AllocError, Global};

/// What is said of an envelope.
#[derive(Drop)]
pub struct Shown {
    /// UTF-8 text.
    pub text: Vec<u8>,
    /// Whether `Envelope::from_slice` accepts the envelope.
    pub accepted: bool,
}

/// An item frame, and whether it reads as an item.
#[derive(Drop)]
pub struct Row<'a> {
    /// Frame of any item type.
    pub frame: AnyFrame<'a>,
    /// Whether it reads as an item of its type.
    pub accepted: bool,
}

/// What is known of an envelope.
#[derive(Drop)]
pub struct Survey<'a> {
    /// Its bytes.
    pub bytes: &'a [u8],
    /// Its header line.
    pub header_line: &'a [u8],
    /// Offset behind the header line.
    pub body: usize,
    /// Its item frames, up to the first that can't be split off; none if the header line is no
    /// object.
    pub rows: Vec<Row<'a>>,
    /// Why it is refused; `None` if it is accepted.
    pub explanation: Option<Explanation>,
}

// Returns an error if this one is that an allocation failed.
pub(crate) fn not_memory(error: &EnvelopeError) -> Result<(), AllocError>
    ensures { OnOk result (error.now ≢ EnvelopeError.OutOfMemory) }
{
    match error {
        EnvelopeError::OutOfMemory => Err(AllocError),
        _ => Ok(()),
    }
}

// The moment at which all is read. No verdict depends on it.
pub(crate) fn any_moment() -> Moment {
    Moment::new(0, 0).unwrap()
}

/// Reads the item of a frame; `None` if it reads as none. Absent ids and timestamps are filled with
/// others at each version of this crate.
///
/// # Errors
///
/// `AllocError` if an allocation fails, or if a URL would take 4 GB.
#[tactic(auto, using(sentry_envelope::proofs::FrameItems::fault_refuses))]
pub fn read_frame(alloc: Global, frame: &AnyFrame<'_>) -> Result<Option<EnvelopeItem>, AllocError>
    ensures { IfOk result (λ read. MatchOption read
        (FrameIsRefused profile (any_frame frame.now)) (λ _. IsRead (any_frame frame.now))) }
{
    match read_item(
        alloc,
        frame.header,
        frame.payload,
        any_moment(),
        &mut Pcg32::new(0, 0),
    ) {
        Ok(item) => Ok(Some(item)),
        Err(error) => {
            not_memory(&error)?;
            Ok(None)
        }
    }
}

// Returns whether a frame reads as an item.
fn is_read(alloc: Global, frame: &AnyFrame<'_>) -> Result<bool, AllocError>
    ensures { IfOk result (λ read. MatchBool read
        (IsRead (any_frame frame.now)) (FrameIsRefused profile (any_frame frame.now))) }
{
    let read = read_frame(alloc, frame)?;
    match read {
        Some(_) => Ok(true),
        None => Ok(false),
    }
}

// Reads frames up to the first that can't be split off.
#[tactic(auto, using(crate::proofs::RowLemmas::stand_all, crate::proofs::RowLemmas::stand_before))]
fn read_rows<'a>(alloc: Global, reader: &mut AnyFrames<'a>) -> Result<Vec<Row<'a>>, AllocError>
    ensures stand { IfOk result (λ rows. Stand reader.old.rest rows.items) }
    ensures rows { IfOk result (λ rows. All (IsRowOf reader.old.bytes) rows.items) }
{
    let mut rows = Vec::new(alloc);
    while let Some(next) = reader.next_frame(alloc) {
        let frame = match next {
            Ok(frame) => frame,
            Err(error) => {
                not_memory(&error)?;
                return Ok(rows);
            }
        };
        let accepted = is_read(alloc, &frame)?;
        rows.push(Row { frame, accepted })?;
    }
    Ok(rows)
}

// Reads the frames of an envelope.
#[tactic(auto, using(crate::proofs::RowLemmas::no_rows))]
fn rows_of<'a>(alloc: Global, bytes: &'a [u8]) -> Result<Vec<Row<'a>>, AllocError>
    ensures { IfOk result (λ rows. AreRows bytes.now rows.items) }
{
    let mut reader = match AnyFrames::new(alloc, bytes) {
        Ok(reader) => reader,
        Err(error) => {
            not_memory(&error)?;
            return Ok(Vec::new(alloc));
        }
    };
    let rows = read_rows(alloc, &mut reader)?;
    Ok(rows)
}

// Returns why an envelope is refused; `None` if it is accepted.
#[tactic(auto, using(crate::proofs::VerdictLemmas::exactly))]
pub(crate) fn refusal(alloc: Global, bytes: &[u8]) -> Result<Option<Explanation>, AllocError>
    ensures { IfOk result (λ explanation. IsNone explanation ↔ IsAccepted bytes.now) }
{
    let explanation = explain(alloc, bytes, any_moment(), &mut Pcg32::new(0, 0))?;
    Ok(explanation)
}

impl<'a> Survey<'a> {
    ghost use Rattle.std.specs.Prelude.{◌↔◌, IfOk, IsNone, IsTrue};
    ghost use Rattle.sentry_show.specs.Rows.{AreRows};
    ghost use Rattle.sentry_show.specs.Verdicts.{IsAccepted};

    /// Reads all that is known of an envelope.
    ///
    /// # Errors
    ///
    /// `AllocError` if an allocation fails, or if a URL would take 4 GB.
    pub fn new(alloc: Global, bytes: &'a [u8]) -> Result<Survey<'a>, AllocError>
        ensures accepted { IfOk result (λ s. IsNone s.explanation ↔ IsAccepted bytes.now) }
        ensures rows { IfOk result (λ s. AreRows bytes.now s.rows.items) }
    {
        let explanation = refusal(alloc, bytes)?;
        let rows = rows_of(alloc, bytes)?;
        let frames = Frames::new(bytes);
        Ok(Survey {
            bytes,
            header_line: frames.header_line(),
            body: bytes.len().saturating_sub(frames.rest().len()),
            rows,
            explanation,
        })
    }

    /// Returns whether the envelope is accepted.
    pub fn is_accepted(&self) -> bool
        ensures { IsTrue result ↔ IsNone self.now.explanation }
    {
        self.explanation.is_none()
    }

    /// Returns the offset behind the last frame.
    pub fn end(&self) -> usize {
        match self.rows.last() {
            Some(row) => row.frame.start.saturating_add(row.frame.bytes.len()),
            None => self.body,
        }
    }
}
