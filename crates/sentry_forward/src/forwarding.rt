//! Forwarding of envelopes.
ghost use Rattle.std.specs.Prelude.{◌≡◌, ◌≢◌, ◌≤◌, ◌<◌, ◌+◌, ◌-◌, ◌&&◌, ◌++◌, ◌∷◌, [], Bool, false, List, ℕ, take, map, length, vec_len, vec_capacity, not, IfOk, IfErr};
ghost use Rattle.std.specs.List.{All};
ghost use Rattle.std.specs.Fn.{CalledAt};
ghost use Rattle.sentry_framing.specs.Framing.{AreFrames, IsAtFault};
ghost use Rattle.sentry_forward.specs.AnyHeader.{any_reading};
ghost use Rattle.sentry_forward.specs.Forward.{ArePieces, Asked, joined};
ghost use Rattle.sentry_forward.specs.View.{any_frame, is_attachment, loses_main, piece_of, text_of, unless_orphaned, AreNamed, IsForwarded, IsOver, IsPlaced, IsRefused, Sorts};

use crate::error::ForwardError;
use crate::frames::{AnyFrame, AnyFrames};
use sentry_framing::EnvelopeError;
use sentry_framing::sending::{SendFailed, send_plain};
use std::alloc::{AllocError, Global};
use std::io::Write;

/// What is left of an envelope, and the frames that were dropped.
#[derive(Drop)]
pub struct Forwarded<'a> {
    /// The bytes that are left, in order. Neighbors in the envelope are one slice.
    pub parts: Vec<&'a [u8]>,
    /// The dropped frames, in order.
    pub dropped: Vec<AnyFrame<'a>>,
    /// Number of items of the envelope, kept and dropped.
    pub items: usize,
}

impl<'a> Forwarded<'a> {
    ghost use Rattle.std.specs.Prelude.{◌≡◌, ◌↔◌, IfOk, IfSome, IsNone, OnErr, OnOk, vec_len};
    ghost use Rattle.std.specs.Io.KnownBytes.{Appends};
    ghost use Rattle.sentry_framing.specs.Sending.{AppendsFront};
    ghost use Rattle.sentry_forward.specs.View.{joined_parts, text_of};

    /// Returns the bytes that are left, in order; `None` if all items were dropped, or there were
    /// none: a relay sends no envelope without items.
    pub fn nonempty_parts(&self) -> Option<&[&'a [u8]]>
        ensures parts { IfSome result (λ parts. joined_parts parts.now ≡ text_of self.now) }
        ensures none { IsNone result ↔ (vec_len self.now.dropped ≡ self.now.items) }
    {
        if self.dropped.len() == self.items {
            return None;
        }
        Some(self.parts.as_slice())
    }

    /// Writes the bytes that are left to a writer. They are not copied before.
    ///
    /// # Errors
    ///
    /// `SendFailed` at the first write that fails, is interrupted, or accepts 0 bytes; only a proper
    /// prefix of the bytes was written, possibly none of them.
    pub fn to_writer<W: Write>(&self, writer: &mut W) -> Result<(), SendFailed>
        ensures whole { OnOk result (Appends (W.contents writer.old) (W.contents writer.new)
            (text_of self.now)) }
        ensures front { OnErr result (AppendsFront (W.contents writer.old)
            (W.contents writer.new) (text_of self.now)) }
    {
        for part in &self.parts {
            send_plain(*part, writer)?;
        }
        Ok(())
    }

    /// Returns the bytes that are left in one vector. `AllocError` if an allocation fails.
    pub fn to_vec(&self, alloc: Global) -> Result<Vec<u8>, AllocError>
        ensures { IfOk result (λ bytes. bytes.items ≡ text_of self.now) }
    {
        let mut len: usize = 0;
        for part in &self.parts {
            len = len.checked_add(part.len()).ok_or(AllocError)?;
        }
        let mut bytes = Vec::with_capacity(alloc, len)?;
        for part in &self.parts {
            bytes.extend_from_slice(*part)?;
        }
        Ok(bytes)
    }
}

/// The rules of a relay.
#[derive(Clone, Copy, Debug)]
pub struct ForwardRules {
    /// Most items of an envelope.
    pub max_items: usize,
    /// Whether attachments are dropped with the event or transaction that they belong to: if one is
    /// dropped and none is kept.
    pub attachments_follow: bool,
}

impl ForwardRules {
    ghost use Rattle.std.specs.Prelude.{◌≡◌, ◌-◌, ◌^◌, false};

    /// Creates rules that bound no number of items and drop nothing that the filter keeps.
    pub fn new() -> ForwardRules
        ensures unbounded { result.max_items ≡ 2 ^ 64 - 1 }
        ensures kept { result.attachments_follow ≡ false }
    {
        ForwardRules {
            max_items: usize::MAX,
            attachments_follow: false,
        }
    }
}

/// Forwards an envelope: the filter tells of each frame, once and in order, whether to keep it. The
/// header line and the kept items are left byte for byte, and nothing else.
///
/// An item is its frame with the white space in front and the line feeds, so if all frames are
/// kept, all bytes of the envelope are left.
///
/// # Errors
///
/// - `InvalidHeader` if the header line isn't one JSON object.
/// - The errors of [`AnyFrames::next_frame`], for the first frame that has one.
/// - `OutOfMemory` if an allocation fails.
///
/// The filter was not called then.
pub fn forward<'a, F: FnMut(&AnyFrame<'a>) -> bool>(
    alloc: Global,
    bytes: &'a [u8],
    filter: &mut F,
) -> Result<Forwarded<'a>, EnvelopeError>
    requires { F.IsAlwaysCallable filter.old }
    ensures forwarded { IfOk result
        (IsForwarded (CalledAt F.FnMut) false bytes.now filter.old filter.new) }
    ensures refused { IfErr result (λ e. e ≢ EnvelopeError.OutOfMemory → IsRefused bytes.now e) }
    ensures unasked { IfErr result (λ _. filter.new ≡ filter.old) }
{
    match forward_by(alloc, bytes, ForwardRules::new(), filter) {
        Ok(forwarded) => Ok(forwarded),
        Err(ForwardError::Envelope(error)) => Err(error),
        // So many frames don't fit in memory.
        Err(ForwardError::TooManyItems) => Err(EnvelopeError::OutOfMemory),
    }
}

/// Forwards an envelope as [`forward`] does, by the rules of a relay.
///
/// # Errors
///
/// - `TooManyItems` if more bytes follow `max_items` frames; they were not read.
/// - `Envelope` with the errors of [`forward`].
///
/// The filter was not called then.
pub fn forward_by<'a, F: FnMut(&AnyFrame<'a>) -> bool>(
    alloc: Global,
    bytes: &'a [u8],
    rules: ForwardRules,
    filter: &mut F,
) -> Result<Forwarded<'a>, ForwardError>
    requires { F.IsAlwaysCallable filter.old }
    ensures forwarded { IfOk result (IsForwarded (CalledAt F.FnMut) rules.attachments_follow
        bytes.now filter.old filter.new) }
    ensures bounded { IfOk result (λ forwarded. forwarded.items ≤ rules.max_items) }
    ensures over { result ≡ Err ForwardError.TooManyItems → IsOver bytes.now rules.max_items }
    ensures refused { (e : EnvelopeError) → result ≡ Err (ForwardError.Envelope e)
        → e ≢ EnvelopeError.OutOfMemory → IsRefused bytes.now e }
    ensures unasked { IfErr result (λ _. filter.new ≡ filter.old) }
{
    let mut reader = AnyFrames::new(alloc, bytes)?;
    let body = reader.rest();
    let frames = read_frames(alloc, &mut reader, rules.max_items)?;
    if !reader.rest().is_empty() {
        return Err(ForwardError::TooManyItems);
    }
    let most = frames.len().checked_add(1).ok_or(AllocError)?;
    let parts = Vec::with_capacity(alloc, most)?;
    let dropped = Vec::with_capacity(alloc, frames.len())?;
    let room = Vec::with_capacity(alloc, frames.len())?;
    // No allocation comes after the first call of the filter.
    let answers = ask_each(&frames, filter, room);
    let orphaned = are_orphaned(rules.attachments_follow, &frames, &answers);
    Ok(sort(bytes, body, frames, &answers, orphaned, parts, dropped))
}

// Reads at most so many frames.
fn read_frames<'a>(
    alloc: Global,
    reader: &mut AnyFrames<'a>,
    max: usize,
) -> Result<Vec<AnyFrame<'a>>, EnvelopeError>
    ensures stand { IfOk result (λ frames. AreFrames any_reading reader.old.rest
        (map any_frame frames.items) reader.new.rest) }
    ensures pieces { IfOk result (λ frames. reader.new.rest ≡ [] →
        ArePieces any_reading reader.old.rest (map piece_of frames.items)) }
    ensures named { IfOk result (λ frames. AreNamed frames.items) }
    ensures placed { IfOk result (λ frames. All (IsPlaced reader.old.bytes) frames.items) }
    ensures bounded { IfOk result (λ frames. length frames.items ≤ max) }
    ensures full { IfOk result (λ frames. reader.new.rest ≢ [] → length frames.items ≡ max) }
    ensures fault { IfErr result (λ e. e ≢ EnvelopeError.OutOfMemory
        → IsAtFault any_reading reader.old.rest e) }
{
    let mut frames = Vec::new(alloc);
    while frames.len() < max {
        let Some(next) = reader.next_frame(alloc) else {
            return Ok(frames);
        };
        let frame = next?;
        frames.push(frame)?;
    }
    Ok(frames)
}

// Asks the filter about a frame.
#[inline(always)]
fn is_kept<'a, F: FnMut(&AnyFrame<'a>) -> bool>(filter: &mut F, frame: &AnyFrame<'a>) -> bool
    requires { F.IsAlwaysCallable filter.old }
    ensures asked { CalledAt F.FnMut filter.old frame.now result filter.new }
    ensures callable { F.IsAlwaysCallable filter.new }
{
    filter(frame)
}

// Asks the filter about each frame. The answers fit in `answers`, which is empty.
fn ask_each<'a, F: FnMut(&AnyFrame<'a>) -> bool>(
    frames: &[AnyFrame<'a>],
    filter: &mut F,
    mut answers: Vec<bool>,
) -> Vec<bool>
    requires callable { F.IsAlwaysCallable filter.old }
    requires empty { (answers.items ≡ []) × (vec_len answers ≡ 0) }
    requires room { length frames.now ≤ vec_capacity answers }
    ensures asked { Asked (CalledAt F.FnMut) filter.old frames.now result.items filter.new }
    ensures as_many { length result.items ≡ length frames.now }
{
    for frame in frames {
        answers.push(is_kept(filter, frame)).unwrap();
    }
    answers
}

// Whether an event or a transaction is dropped, and none is kept.
fn loses_main(frames: &[AnyFrame<'_>], answers: &[bool]) -> bool
    requires { length answers.now ≡ length frames.now }
    ensures { result ≡ loses_main frames.now answers.now }
{
    let mut lost = false;
    for i in 0..frames.len() {
        if frames[i].is_main() {
            if answers[i] {
                return false;
            }
            lost = true;
        }
    }
    lost
}

// Whether attachments follow what they belong to, and it is lost.
fn are_orphaned(follow: bool, frames: &[AnyFrame<'_>], answers: &[bool]) -> bool
    requires { length answers.now ≡ length frames.now }
    ensures { result ≡ (follow && loses_main frames.now answers.now) }
{
    follow && loses_main(frames, answers)
}

// Whether a frame is kept after this answer.
#[inline(always)]
fn stays(frame: &AnyFrame<'_>, answer: bool, orphaned: bool) -> bool
    ensures { result ≡ (answer && not (orphaned && is_attachment frame.now)) }
{
    answer && !(orphaned && frame.is_attachment())
}

// Splits off the first answer.
#[inline(always)]
fn split_answer(answers: &[bool]) -> (bool, &[bool])
    requires { 0 < length answers.now }
    ensures { answers.now ≡ result.0 ∷ result.1.now }
{
    let (first, rest) = answers.split_first().unwrap();
    (*first, rest)
}

// Keeps or drops each frame. `body` ends the bytes, and consists of the frames.
fn sort<'a>(
    bytes: &'a [u8],
    body: &'a [u8],
    frames: Vec<AnyFrame<'a>>,
    answers: &[bool],
    orphaned: bool,
    mut parts: Vec<&'a [u8]>,
    mut dropped: Vec<AnyFrame<'a>>,
) -> Forwarded<'a>
    requires whole { (front : List ℕ) × (bytes.now ≡ front ++ body.now) }
    requires follow { body.now ≡ joined (map piece_of frames.items) }
    requires answered { length answers.now ≡ vec_len frames }
    requires no_parts { (parts.items ≡ []) × (vec_len parts ≡ 0) }
    requires none_dropped { (dropped.items ≡ []) × (vec_len dropped ≡ 0) }
    requires room { vec_len frames + 1 ≤ vec_capacity parts }
    requires room_dropped { vec_len frames ≤ vec_capacity dropped }
    ensures sorted { Sorts frames.entry.items
        (unless_orphaned orphaned frames.entry.items answers.now)
        (take (length bytes.now - length body.now) bytes.now) [] (text_of result)
        result.dropped.items }
    ensures items { result.items ≡ length frames.entry.items }
{
    let items = frames.len();
    // What is left begins with a run of items that are kept; the rest of it is still to be sorted.
    let mut left = bytes;
    let mut rest = body;
    let mut told = answers;
    for frame in frames {
        let (_, next) = rest.split_at(frame.bytes.len());
        let (answer, more) = split_answer(told);
        told = more;
        if stays(&frame, answer, orphaned) {
            rest = next;
        } else {
            parts.push(&left[..left.len() - rest.len()]).unwrap();
            dropped.push(frame).unwrap();
            left = next;
            rest = next;
        }
    }
    parts.push(left).unwrap();
    Forwarded {
        parts,
        dropped,
        items,
    }
}
