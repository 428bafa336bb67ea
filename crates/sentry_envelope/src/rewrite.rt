//! Envelopes that are written while they are read.

ghost use Rattle.std.specs.Prelude.{◌≡◌, ◌≢◌, ◌⊎◌, ◌++◌, [], IfErr, IfOk, IfSome, OnOk, Some, codes};
ghost use Rattle.sentry_framing.specs.Framing.{with_line};
ghost use Rattle.sentry_framing.specs.HeaderView.{header_view};
ghost use Rattle.sentry_framing.specs.ItemHeader.{read_header};
ghost use Rattle.sentry_framing.specs.ItemWords.{item_words};
ghost use Rattle.sentry_framing.specs.View.{frame_of};
ghost use Rattle.sentry_framing.specs.declared.kind.ItemKind.TheVariants as kinds;
ghost use Rattle.sentry_items.specs.Attached.{attachment_header, short_header};
ghost use Rattle.sentry_items.specs.Containers.{container_kind};
ghost use Rattle.sentry_items.specs.HeaderText.{header_text};
ghost use Rattle.sentry_items.specs.Texts.{bytes_of};
ghost use Rattle.sentry_items.specs.View.{payload_kind};
ghost use Rattle.sentry_moments.specs.Moments.{moment_cell};
ghost use Rattle.sentry_tables.specs.Reading.{Only, TextRefused};
ghost use Rattle.sentry_tables.specs.Written.{tree};
ghost use Rattle.serde_json.specs.Written.{compact_text};
ghost use Rattle.sentry_envelope.specs.Envelope.{attached_by};
ghost use Rattle.sentry_envelope.specs.EnvelopeFault.{BodyIsAtFault, Fault};
ghost use Rattle.sentry_envelope.specs.EnvelopeView.{IsStoredAndPlain};
ghost use Rattle.sentry_envelope.specs.HeaderFields.{header_kind, headers_cell};
ghost use Rattle.sentry_envelope.specs.ItemAdded.{IsNotAdded, IsOfKind};
ghost use Rattle.sentry_envelope.specs.NormalText.{AreItemsWritten, IsItemWritten, IsListFramed, IsListWritten, IsNormalText, PassesValue};
ghost use Rattle.sentry_envelope.specs.SentryProfile.{gives_of, profile};

use crate::headers::{EnvelopeHeaders, read_header_line};
use crate::payload::payload_error;
use crate::read::attachment;
use crate::timed::{pass_at, pass_main};
use crate::write::{end_frame, take_frame, write_headers};
use bumpalo::Bump;
use rand_core::Rng;
use sentry_event::{Event, Transaction};
use sentry_framing::frames::next_item_into;
use sentry_framing::{EnvelopeError, Frames, ItemFrame, ItemHeader, ItemKind};
use sentry_items::Listed;
use sentry_items::header::{write_attached_header, write_counted_header, write_short_header};
use sentry_items::text::Text;
use sentry_json::Writer;
use sentry_moments::Moment;
use sentry_records::{Log, Metric, MonitorCheckIn, SessionAggregates, SessionUpdate, UserReport};
use sentry_reports::ReportRows;
use sentry_tables::{FromTree, LineReader, TreeError, write_text};
use std::alloc::{AllocError, Global};
use std::mem;
use uuid::Uuid;

// Room for a text before it is built.
pub(crate) const ROOM: usize = 512;

/// Parses an envelope, and returns the text of its normal form. Most of it is written as it is
/// read, and no value is made of it.
///
/// The moment `now` fills absent timestamps, and `ids` absent ids. An absent event id of the
/// envelope is that of the first event or transaction. Large payloads of attachments and replay
/// recordings are borrowed from `bytes`.
///
/// # Errors
///
/// The errors of [`Envelope::from_slice`](crate::Envelope::from_slice), for the same bytes.
#[inline(never)]
pub fn normal_text<'a, R: Rng>(
    alloc: Global,
    bytes: &'a [u8],
    now: Moment,
    ids: &mut R,
) -> Result<Text<'a>, EnvelopeError>
    ensures normal { IfOk result (λ text.
        IsNormalText bytes.now (moment_cell now) (bytes_of text)) }
    ensures fault { IfErr result (λ x. x ≢ EnvelopeError.OutOfMemory →
        Fault profile bytes.now x) }
{
    let texts = Bump::new(alloc);
    let mut lines = LineReader::new(alloc, &texts);
    let mut frames = Frames::new(bytes);
    let mut headers = EnvelopeHeaders::new();
    let line = frames.header_line();
    read_header_line(&mut lines, line, &mut headers)?;
    if let Some(given) = headers.event_id() {
        let mut id = Some(*given);
        let begun = line_of(alloc, &headers)?;
        let mut text = Text::new(alloc, begun);
        write_items(&mut lines, &mut frames, now, ids, &mut id, &mut text)?;
        return Ok(text);
    }
    let mut id = None;
    let out = Vec::with_capacity(alloc, ROOM)?;
    let mut items = Text::new(alloc, out);
    write_items(&mut lines, &mut frames, now, ids, &mut id, &mut items)?;
    headers.fill(id);
    let front = line_of(alloc, &headers)?;
    items.put_before(front)?;
    Ok(items)
}

// Returns the header line with its line feed.
pub(crate) fn line_of(alloc: Global, headers: &EnvelopeHeaders) -> Result<Vec<u8>, AllocError>
    ensures { IfOk result (λ line. IsStoredAndPlain header_kind (headers_cell headers.now)
        → line.items ≡ with_line (compact_text (tree header_kind (headers_cell headers.now))) []) }
{
    let mut line = Vec::with_capacity(alloc, ROOM)?;
    write_headers(headers, &mut line)?;
    line.push(b'\n')?;
    Ok(line)
}

// Appends the items of the frames that are left. `id` becomes the id of the first event or
// transaction if it was `None`.
fn write_items<'l, 'a: 'l, R: Rng>(
    lines: &mut LineReader<'l>,
    frames: &mut Frames<'a>,
    now: Moment,
    ids: &mut R,
    id: &mut Option<Uuid>,
    text: &mut Text<'a>,
) -> Result<(), EnvelopeError>
    ensures ok { OnOk result (AreItemsWritten (moment_cell now) frames.old.rest []
        id.old id.new (bytes_of text.old) (bytes_of text.new)) }
    ensures err { IfErr result (λ e. e ≢ EnvelopeError.OutOfMemory →
        BodyIsAtFault profile frames.old.rest e) }
{
    let mut header = ItemHeader::new();
    let mut payload = Vec::new(lines.alloc());
    while let Some(answer) = next_item_into(frames, lines, &mut header) {
        let frame = answer?;
        write_frame(lines, &frame, &mut header, now, ids, id, &mut payload, text)?;
    }
    Ok(())
}

// Appends the item of a frame. Strings are moved out of `header`; a JSON payload is built in the
// buffer `payload`.
pub(crate) fn write_frame<'l, 'a: 'l, R: Rng>(
    lines: &mut LineReader<'l>,
    frame: &ItemFrame<'a>,
    header: &mut ItemHeader,
    now: Moment,
    ids: &mut R,
    id: &mut Option<Uuid>,
    payload: &mut Vec<u8>,
    text: &mut Text<'a>,
) -> Result<(), EnvelopeError>
    requires { read_header item_words (frame_of frame.now).header ≡ Some (header_view header.old) }
    ensures ok { OnOk result (IsItemWritten (moment_cell now) (frame_of frame.now)
        id.old id.new (bytes_of text.old) (bytes_of text.new)) }
    ensures err { IfErr result (IsNotAdded (frame_of frame.now)) }
{
    match header.kind {
        ItemKind::Attachment => {
            pass_attachment(lines.alloc(), frame.payload, header, text)?;
            Ok(())
        }
        ItemKind::ReplayRecording => {
            pass_recording(frame.payload, text)?;
            Ok(())
        }
        ItemKind::Logs => pass_container::<Log>(
            lines,
            frame.payload,
            "application/vnd.sentry.items.log+json",
            "log",
            payload,
            text,
        ),
        ItemKind::Metrics => pass_container::<Metric>(
            lines,
            frame.payload,
            "application/vnd.sentry.items.trace-metric+json",
            "trace_metric",
            payload,
            text,
        ),
        kind => pass_value(lines, frame, kind, now, ids, id, payload, text),
    }
}

// Appends an attachment, with the header `header`, whose strings are moved out.
#[inline(never)]
fn pass_attachment<'a>(
    alloc: Global,
    payload: &'a [u8],
    header: &mut ItemHeader,
    text: &mut Text<'a>,
) -> Result<(), AllocError>
    ensures { OnOk result (bytes_of text.new ≡ bytes_of text.old ++
        with_line (header_text (attachment_header (codes "attachment")
        (attached_by (header_view header.old) payload.now))) (with_line payload.now [])) }
{
    let attached = attachment(alloc, b"", header)?;
    write_attached_header(&attached, payload, &mut text.end)?;
    end_frame(payload, text)
}

fn pass_recording<'a>(payload: &'a [u8], text: &mut Text<'a>) -> Result<(), AllocError>
    ensures { OnOk result (bytes_of text.new ≡ bytes_of text.old ++
        with_line (header_text (short_header (codes "replay_recording") payload.now))
        (with_line payload.now [])) }
{
    write_short_header("replay_recording", payload, &mut text.end)?;
    end_frame(payload, text)
}

// Appends an item whose payload is one JSON text, other than a container.
fn pass_value<'l, 'a: 'l, R: Rng>(
    lines: &mut LineReader<'l>,
    frame: &ItemFrame<'a>,
    kind: ItemKind,
    now: Moment,
    ids: &mut R,
    id: &mut Option<Uuid>,
    payload: &mut Vec<u8>,
    text: &mut Text<'a>,
) -> Result<(), EnvelopeError>
    requires of_kind { IsOfKind (frame_of frame.now) kind }
    requires no_attachment { kind ≢ kinds.Attachment }
    requires no_recording { kind ≢ kinds.ReplayRecording }
    requires no_logs { kind ≢ kinds.Logs }
    requires no_metrics { kind ≢ kinds.Metrics }
    ensures ok { OnOk result (IsItemWritten (moment_cell now) (frame_of frame.now)
        id.old id.new (bytes_of text.old) (bytes_of text.new)) }
    ensures err { IfErr result (IsNotAdded (frame_of frame.now)) }
{
    let mut out = begin_payload(payload)?;
    match pass_payload(lines, frame.payload, kind, now, ids, id, &mut out) {
        Ok(()) => {}
        Err(error) => return Err(payload_error(error)),
    }
    *payload = out.into_inner();
    write_short_header(kind.as_str(), payload, &mut text.end)?;
    take_frame(payload, text)?;
    Ok(())
}

// Returns a writer into the buffer, which is emptied.
fn begin_payload(payload: &mut Vec<u8>) -> Result<Writer, AllocError>
    ensures before { IfOk result (λ out. out.before ≡ []) }
    ensures tokens { IfOk result (λ out. out.tokens ≡ []) }
{
    payload.clear();
    payload.reserve(ROOM)?;
    let alloc = *payload.allocator();
    Ok(Writer::new(mem::replace(payload, Vec::new(alloc))))
}

// Writes a payload of a type whose payloads are one JSON text, other than a container.
fn pass_payload<'a, R: Rng>(
    lines: &mut LineReader<'a>,
    line: &'a [u8],
    kind: ItemKind,
    now: Moment,
    ids: &mut R,
    id: &mut Option<Uuid>,
    out: &mut Writer,
) -> Result<(), TreeError>
    requires no_attachment { kind ≢ kinds.Attachment }
    requires no_recording { kind ≢ kinds.ReplayRecording }
    requires no_logs { kind ≢ kinds.Logs }
    requires no_metrics { kind ≢ kinds.Metrics }
    ensures { PassesValue (gives_of kind) (moment_cell now) (payload_kind kind) line.now result
        id.old id.new out.old out.new }
{
    match kind {
        ItemKind::Event => pass_main::<Box<Event<'static>>, R>(lines, line, now, ids, id, out),
        ItemKind::Transaction => {
            pass_main::<Box<Transaction<'static>>, R>(lines, line, now, ids, id, out)
        }
        ItemKind::SessionUpdate => {
            pass_at::<SessionUpdate<'static>, R>(lines, line, now, ids, out)
        }
        ItemKind::ClientReport => pass_at::<ReportRows, R>(lines, line, now, ids, out),
        ItemKind::SessionAggregates => lines.pass::<SessionAggregates<'static>>(line, out),
        ItemKind::MonitorCheckIn => lines.pass::<MonitorCheckIn>(line, out),
        ItemKind::UserReport => lines.pass::<UserReport>(line, out),
        ItemKind::Attachment | ItemKind::ReplayRecording => unreachable!(),
        ItemKind::Logs | ItemKind::Metrics => unreachable!(),
    }
}

// Appends a container: its header, with how many values the payload has, and its payload.
fn pass_container<'a, T: FromTree>(
    lines: &mut LineReader<'a>,
    line: &'a [u8],
    content_type: &str,
    word: &str,
    payload: &mut Vec<u8>,
    text: &mut Text<'_>,
) -> Result<(), EnvelopeError>
    ensures ok { OnOk result (IsListFramed T.kind line.now content_type.now word.now
        (bytes_of text.old) (bytes_of text.new)) }
    ensures err { IfErr result (λ e. (e ≡ EnvelopeError.OutOfMemory)
        ⊎ ((e ≡ EnvelopeError.InvalidItemPayload)
        × TextRefused (container_kind T.kind) line.now)) }
{
    let count = match pass_list::<T>(lines, line, payload) {
        Ok(count) => count,
        Err(error) => return Err(payload_error(error)),
    };
    write_counted_header(content_type, count, word, &mut text.end)?;
    take_frame(payload, text)?;
    Ok(())
}

// Builds the payload of a container in the buffer, and returns how many values it has.
fn pass_list<'a, T: FromTree>(
    lines: &mut LineReader<'a>,
    line: &'a [u8],
    payload: &mut Vec<u8>,
) -> Result<usize, TreeError>
    ensures ok { IfOk result (λ count. IsListWritten T.kind line.now count payload.new.items) }
    ensures err { IfErr result (λ e. Only e (TextRefused (container_kind T.kind) line.now)) }
{
    match pass_list_alone::<T>(lines, line, payload)? {
        Some(count) => Ok(count),
        None => write_list::<T>(lines, line, payload),
    }
}

// The same of a container without other members than its values; `None` for any other line.
fn pass_list_alone<'a, T: FromTree>(
    lines: &mut LineReader<'a>,
    line: &'a [u8],
    payload: &mut Vec<u8>,
) -> Result<Option<usize>, AllocError>
    ensures { IfOk result (λ passed. IfSome passed (λ count.
        IsListWritten T.kind line.now count payload.new.items)) }
{
    let mut out = begin_payload(payload)?;
    out.begin_object()?;
    out.key("items")?;
    out.begin_array()?;
    let Some(count) = lines.pass_list::<T>("items", line, &mut out)? else {
        return Ok(None);
    };
    out.end_array()?;
    out.end_object()?;
    *payload = out.into_inner();
    Ok(Some(count))
}

// The same of any line, of which values are made. Not inlined: few lines come here.
#[cold]
#[inline(never)]
fn write_list<'a, T: FromTree>(
    lines: &mut LineReader<'a>,
    line: &'a [u8],
    payload: &mut Vec<u8>,
) -> Result<usize, TreeError>
    ensures ok { IfOk result (λ count. IsListWritten T.kind line.now count payload.new.items) }
    ensures err { IfErr result (λ e. Only e (TextRefused (container_kind T.kind) line.now)) }
{
    let listed: Listed<T> = lines.read(line)?;
    payload.clear();
    write_text(&listed, payload)?;
    Ok(listed.items.len())
}
