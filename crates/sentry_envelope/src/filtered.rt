//! Envelopes that are filtered by item types, and written while they are read.

ghost use Rattle.std.specs.Prelude.{◌≡◌, ◌≢◌, ◌&&◌, ◌||◌, IfErr, IfOk, OnOk, Some, false, not, option_map, true};
ghost use Rattle.sentry_envelope.specs.EnvelopeFault.{BodyIsAtFault, Fault};
ghost use Rattle.sentry_envelope.specs.Filter.{header_left};
ghost use Rattle.sentry_envelope.specs.FilteredText.{HasMain, IsBodyOf, IsHeaded, IsLeft, IsLost, IsTextOfLeft, is_among, is_attachment_kind, is_main_kind};
ghost use Rattle.sentry_envelope.specs.HeaderFields.{headers_cell, put_id};
ghost use Rattle.sentry_envelope.specs.ItemAdded.{IsNotAdded};
ghost use Rattle.sentry_envelope.specs.SentryProfile.{profile};
ghost use Rattle.sentry_framing.specs.HeaderView.{header_view};
ghost use Rattle.sentry_framing.specs.ItemHeader.{read_header};
ghost use Rattle.sentry_framing.specs.ItemWords.{item_words};
ghost use Rattle.sentry_framing.specs.View.{frame_of};
ghost use Rattle.sentry_items.specs.Texts.{bytes_of};
ghost use Rattle.sentry_moments.specs.Moments.{moment_cell};

use crate::filtering::headers_of_rest;
use crate::headers::{EnvelopeHeaders, read_header_line};
use crate::losses::push_losses;
use crate::read::add_item;
use crate::rewrite::{ROOM, line_of, write_frame};
use bumpalo::Bump;
use rand_core::Rng;
use sentry_framing::frames::next_item_into;
use sentry_framing::{EnvelopeError, Frames, ItemFrame, ItemHeader, ItemKind};
use sentry_items::text::Text;
use sentry_moments::Moment;
use sentry_reports::ItemLoss;
use sentry_tables::{LineReader, Member};
use std::alloc::{AllocError, Global};
use uuid::Uuid;

/// A choice of item types: those that stay in an envelope.
pub trait KindChoice {
    ghost use Rattle.std.specs.Prelude.{Bool};
    ghost use Rattle.sentry_framing.specs.declared.kind.ItemKind.{ItemKind as Kinds};

    /// Tells the types that stay.
    ghost stays: { Self → Kinds → Bool };

    /// Returns whether the items of a type stay.
    fn stays(&self, kind: ItemKind) -> bool
        ensures { result ≡ stays self.now kind };
}

/// The choice of all item types but some.
#[derive(Drop)]
pub struct AllBut<'a> {
    /// The types that don't stay.
    pub kinds: &'a [ItemKind],
}

impl KindChoice for AllBut<'_> {
    ghost use Rattle.sentry_envelope.specs.FilteredText.{is_none_of};

    ghost stays = { λ choice. is_none_of choice.kinds.now };

    fn stays(&self, kind: ItemKind) -> bool {
        !is_among(self.kinds, kind)
    }
}

fn is_among(kinds: &[ItemKind], kind: ItemKind) -> bool
    ensures { result ≡ is_among kinds.now kind }
{
    kinds.contains(&kind)
}

/// What a filter leaves of an envelope, and what is lost.
#[derive(Drop)]
pub struct FilteredText<'a> {
    /// The text of what is left; `None` if no item is left.
    pub text: Option<Text<'a>>,
    /// The losses of the items that are taken out, in order.
    pub losses: Vec<ItemLoss>,
}

// What is left of items that were read, and what is lost with the others.
#[derive(Drop)]
struct Left<'a> {
    text: Text<'a>,
    // Id of the first event or transaction.
    id: Option<Uuid>,
    losses: Vec<ItemLoss>,
    // Whether there is an item.
    any: bool,
}

/// Parses an envelope, takes out the items of some types, and returns the text of what is left, in
/// normal form, with the losses of the items that are taken out.
///
/// An attachment of a type that stays is taken out all the same if no event and no transaction is
/// left. The event id of what is left is that of the first event or transaction that is left; with
/// `keep_headers` the other headers stay. What is left is written as it is read, and no value is
/// made of it. The moment `now` fills absent timestamps, and `ids` absent ids. Large payloads of
/// attachments and replay recordings are borrowed from `bytes`.
///
/// # Errors
///
/// The errors of [`Envelope::from_slice`](crate::Envelope::from_slice), for the same bytes.
#[inline(never)]
pub fn filtered_text<'a, K: KindChoice, R: Rng>(
    alloc: Global,
    bytes: &'a [u8],
    now: Moment,
    ids: &mut R,
    choice: &K,
    keep_headers: bool,
) -> Result<FilteredText<'a>, EnvelopeError>
    ensures left { IfOk result (λ left. IsTextOfLeft (K.stays choice.now) keep_headers bytes.now
        (moment_cell now) (option_map bytes_of left.text) left.losses.items) }
    ensures fault { IfErr result (λ x. x ≢ EnvelopeError.OutOfMemory →
        Fault profile bytes.now x) }
{
    let texts = Bump::new(alloc);
    let mut lines = LineReader::new(alloc, &texts);
    let mut frames = Frames::new(bytes);
    let mut headers = EnvelopeHeaders::new();
    let line = frames.header_line();
    read_header_line(&mut lines, line, &mut headers)?;
    let left = read_left(&mut lines, bytes, &mut frames, now, ids, choice)?;
    let filtered = under_header(alloc, headers, keep_headers, left)?;
    Ok(filtered)
}

// Writes the header line, if an item is left.
fn under_header<'a>(
    alloc: Global,
    headers: EnvelopeHeaders,
    keep_headers: bool,
    left: Left<'a>,
) -> Result<FilteredText<'a>, AllocError>
    ensures text { IfOk result (λ filtered. IsHeaded
        (put_id left.entry.id (header_left keep_headers (headers_cell headers))) left.entry
        (option_map bytes_of filtered.text)) }
    ensures losses { IfOk result (λ filtered. filtered.losses ≡ left.entry.losses) }
{
    let Left {
        mut text,
        id,
        losses,
        any,
    } = left;
    if !any {
        return Ok(FilteredText { text: None, losses });
    }
    let headers = headers_of_rest(headers, keep_headers, id);
    let front = line_of(alloc, &headers)?;
    text.put_before(front)?;
    Ok(FilteredText {
        text: Some(text),
        losses,
    })
}

// Reads the items of the frames of an envelope, and writes those that are left.
fn read_left<'l, 'a: 'l, K: KindChoice, R: Rng>(
    lines: &mut LineReader<'l>,
    bytes: &'a [u8],
    frames: &mut Frames<'a>,
    now: Moment,
    ids: &mut R,
    choice: &K,
) -> Result<Left<'a>, EnvelopeError>
    requires { IsBodyOf bytes.now frames.old.rest }
    ensures ok { IfOk result
        (IsLeft (K.stays choice.now) (moment_cell now) frames.old.rest) }
    ensures err { IfErr result (λ e. e ≢ EnvelopeError.OutOfMemory →
        BodyIsAtFault profile frames.old.rest e) }
{
    let alloc = lines.alloc();
    let out = Vec::with_capacity(alloc, ROOM)?;
    let mut text = Text::new(alloc, out);
    let mut id = None;
    let mut losses = Vec::new(alloc);
    let mut any = false;
    let mut main = false;
    let mut attached = false;
    // Whether attachments of a type that stays are left.
    let mut beside = true;
    let mut header = ItemHeader::new();
    let mut payload = Vec::new(alloc);
    while let Some(answer) = next_item_into(frames, lines, &mut header) {
        let frame = answer?;
        let kind = header.kind;
        beside = look_ahead(lines, bytes, choice, kind, beside, main | attached)?;
        if is_left(choice, beside, kind) {
            write_frame(
                lines,
                &frame,
                &mut header,
                now,
                ids,
                &mut id,
                &mut payload,
                &mut text,
            )?;
            any = true;
            main |= is_main(kind);
            attached |= is_attachment(kind);
        } else {
            add_losses(lines, &frame, &mut header, now, ids, &mut losses)?;
        }
    }
    Ok(Left {
        text,
        id,
        losses,
        any,
    })
}

// Whether attachments are left from this item on: for the first one that stays, without an event or
// transaction before it, whether one is anywhere in the envelope.
fn look_ahead<'l, 'a: 'l, K: KindChoice>(
    lines: &mut LineReader<'l>,
    bytes: &'a [u8],
    choice: &K,
    kind: ItemKind,
    beside: bool,
    settled: bool,
) -> Result<bool, AllocError>
    ensures settled { IfOk result (λ still. settled ≡ true → still ≡ beside) }
    ensures falls { IfOk result (λ still. still ≡ true → beside ≡ true) }
    ensures fell { IfOk result (λ still. still ≡ false → beside ≡ true →
        HasMain (K.stays choice.now) bytes.now false) }
    ensures asked { IfOk result (λ still. still ≡ true → settled ≡ false →
        is_attachment_kind kind ≡ true → K.stays choice.now kind ≡ true →
        HasMain (K.stays choice.now) bytes.now true) }
{
    if settled || !is_attachment(kind) || !is_left(choice, beside, kind) {
        return Ok(beside);
    }
    main_stays(lines, bytes, choice)
}

// Whether an event or a transaction that stays is in an envelope. What is at fault is found when it
// is read.
fn main_stays<'l, 'a: 'l, K: KindChoice>(
    lines: &mut LineReader<'l>,
    bytes: &'a [u8],
    choice: &K,
) -> Result<bool, AllocError>
    ensures { IfOk result (HasMain (K.stays choice.now) bytes.now) }
{
    let mut frames = Frames::new(bytes);
    let mut header = ItemHeader::new();
    while let Some(answer) = next_item_into(&mut frames, lines, &mut header) {
        match answer {
            Ok(_) => {
                if is_main(header.kind) && choice.stays(header.kind) {
                    return Ok(true);
                }
            }
            Err(error) => match error {
                EnvelopeError::OutOfMemory => return Err(AllocError),
                _ => return Ok(false),
            },
        }
    }
    Ok(false)
}

// Whether an item of the type is left; an attachment only with `beside`.
fn is_left<K: KindChoice>(choice: &K, beside: bool, kind: ItemKind) -> bool
    ensures { result ≡ ((beside || not (is_attachment_kind kind)) && K.stays choice.now kind) }
{
    (beside || !is_attachment(kind)) && choice.stays(kind)
}

fn is_main(kind: ItemKind) -> bool
    ensures { result ≡ is_main_kind kind }
{
    matches!(kind, ItemKind::Event | ItemKind::Transaction)
}

fn is_attachment(kind: ItemKind) -> bool
    ensures { result ≡ is_attachment_kind kind }
{
    matches!(kind, ItemKind::Attachment)
}

// Reads the item of a frame, and appends its losses. Strings are moved out of `header`.
fn add_losses<'a, R: Rng>(
    lines: &mut LineReader<'a>,
    frame: &ItemFrame<'a>,
    header: &mut ItemHeader,
    now: Moment,
    ids: &mut R,
    losses: &mut Vec<ItemLoss>,
) -> Result<(), EnvelopeError>
    requires { read_header item_words (frame_of frame.now).header ≡ Some (header_view header.old) }
    ensures ok { OnOk result
        (IsLost (moment_cell now) (frame_of frame.now) losses.old.items losses.new.items) }
    ensures err { IfErr result (IsNotAdded (frame_of frame.now)) }
{
    let mut items = Vec::with_capacity(lines.alloc(), 1)?;
    add_item(lines, frame, header, now, ids, &mut items)?;
    let item = items.pop().unwrap();
    push_losses(&item, losses)?;
    Ok(())
}
