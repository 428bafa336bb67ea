//! Envelope headers.
#![tactic(auto, unfolding(crate::specs::HeaderFields::header_fields))]

ghost use Rattle.std.specs.Prelude.{◌≡◌, ◌⊎◌, IfErr, IfSome, OnOk, Some};
ghost use Rattle.sentry_tables.specs.Reading.{Only, Refused, Shown, TextRefused, TextShown};
ghost use Rattle.sentry_envelope.specs.EnvelopeView.{no_fields};
ghost use Rattle.sentry_envelope.specs.HeaderFields.{header_fields, header_in_order, header_kind, headers_cell, put_id};

use sentry_framing::EnvelopeError;
use sentry_identifiers::Hyphenated;
use sentry_json::{Node, look_up};
use sentry_keys::Dsn;
use sentry_moments::{Moment, Rfc3339};
use sentry_parts::ClientSdkInfo;
use sentry_records::DynamicSamplingContext;
use sentry_rows::{AsTable, Copier, CopyTable, ReadTable, Reader, Sink, Source, Table};
use sentry_tables::{Formed, LineReader, Member, ReadCodec, TreeError};
use std::alloc::{AllocError, Global};
use uuid::Uuid;

/// Envelope headers: the fields in the header line of an envelope.
///
/// <https://develop.sentry.dev/sdk/data-model/envelopes/#envelope-headers>
#[derive(Debug, Drop, PartialEq)]
pub struct EnvelopeHeaders {
    dsn: Option<Dsn>,
    event_id: Option<Uuid>,
    sdk: Option<ClientSdkInfo>,
    sent_at: Option<Moment>,
    trace: Option<DynamicSamplingContext>,
}

impl EnvelopeHeaders {
    ghost use Rattle.std.specs.Prelude.{IfOk, codes, option_map};
    ghost use Rattle.sentry_tables.specs.Cell.{octets};
    ghost use Rattle.sentry_tables.specs.Cells.{option_cell};
    ghost use Rattle.sentry_keys.specs.DsnTree.{dsn_cell};
    ghost use Rattle.sentry_moments.specs.Moments.{moment_cell};
    ghost use Rattle.sentry_parts.specs.ClientSdk.{sdk_cell};
    ghost use Rattle.sentry_records.specs.Sampling.{sampling_cell};
    ghost use Rattle.sentry_rows.specs.Parts.{part_at};
    ghost use Rattle.sentry_tables.specs.Norm.{norm};
    ghost use Rattle.sentry_envelope.specs.HeaderFields.{fill_id, given_id, with_field};

    /// Creates headers with no fields set.
    pub fn new() -> EnvelopeHeaders
        ensures { headers_cell result ≡ no_fields }
    {
        EnvelopeHeaders {
            dsn: None,
            event_id: None,
            sdk: None,
            sent_at: None,
            trace: None,
        }
    }

    /// Creates headers with no fields set.
    pub fn default_in(_alloc: Global) -> EnvelopeHeaders
        ensures { headers_cell result ≡ no_fields }
    {
        EnvelopeHeaders::new()
    }

    /// Sets the event id: that of the event or transaction that the envelope belongs to.
    pub fn with_event_id(self, event_id: Uuid) -> EnvelopeHeaders
        ensures { headers_cell result ≡ put_id (Some event_id) (headers_cell self) }
    {
        self.with_id(Some(event_id))
    }

    /// Sets the DSN that the envelope is sent to.
    pub fn with_dsn(self, dsn: Dsn) -> EnvelopeHeaders
        ensures { headers_cell result ≡ with_field (codes "dsn") (dsn_cell dsn) self }
    {
        EnvelopeHeaders {
            dsn: Some(dsn),
            ..self
        }
    }

    /// Sets the SDK that sends the envelope.
    pub fn with_sdk(self, sdk: ClientSdkInfo) -> EnvelopeHeaders
        ensures { headers_cell result ≡ with_field (codes "sdk") (sdk_cell sdk) self }
    {
        EnvelopeHeaders {
            sdk: Some(sdk),
            ..self
        }
    }

    /// Sets the time of sending.
    pub fn with_sent_at(self, sent_at: Moment) -> EnvelopeHeaders
        ensures { headers_cell result ≡ with_field (codes "sent_at") (moment_cell sent_at) self }
    {
        EnvelopeHeaders {
            sent_at: Some(sent_at),
            ..self
        }
    }

    /// Sets the dynamic sampling context of the trace.
    pub fn with_trace(self, trace: DynamicSamplingContext) -> EnvelopeHeaders
        ensures { headers_cell result ≡ with_field (codes "trace") (sampling_cell trace) self }
    {
        EnvelopeHeaders {
            trace: Some(trace),
            ..self
        }
    }

    // Replaces the event id; `None` removes the id.
    pub(crate) fn with_id(self, event_id: Option<Uuid>) -> EnvelopeHeaders
        ensures { headers_cell result ≡ put_id event_id (headers_cell self) }
    {
        EnvelopeHeaders { event_id, ..self }
    }

    // Sets the event id if absent.
    pub(crate) fn fill(&mut self, id: Option<Uuid>)
        ensures { headers_cell self.new ≡ fill_id (given_id id) (headers_cell self.old) }
    {
        if self.event_id.is_none() {
            self.event_id = id;
        }
    }

    /// Returns the id of the event or transaction that the envelope belongs to.
    pub fn event_id(&self) -> Option<&Uuid>
        ensures id { option_map (λ id. id.now) result ≡ self.now.event_id }
        ensures part { option_cell (λ id.
            octets id.now) result ≡ part_at (codes "event_id") header_fields self.now }
    {
        self.event_id.as_ref()
    }

    /// Returns the DSN that the envelope is sent to.
    pub fn dsn(&self) -> Option<&Dsn>
        ensures { option_cell (λ dsn.
            dsn_cell dsn.now) result ≡ part_at (codes "dsn") header_fields self.now }
    {
        self.dsn.as_ref()
    }

    /// Returns the SDK that sends the envelope.
    pub fn sdk(&self) -> Option<&ClientSdkInfo>
        ensures { option_cell (λ sdk.
            sdk_cell sdk.now) result ≡ part_at (codes "sdk") header_fields self.now }
    {
        self.sdk.as_ref()
    }

    /// Returns the time of sending.
    pub fn sent_at(&self) -> Option<Moment>
        ensures { option_cell moment_cell result ≡
            part_at (codes "sent_at") header_fields self.now }
    {
        self.sent_at
    }

    /// Returns the dynamic sampling context of the trace.
    pub fn trace(&self) -> Option<&DynamicSamplingContext>
        ensures { option_cell (λ trace.
            sampling_cell trace.now) result ≡ part_at (codes "trace") header_fields self.now }
    {
        self.trace.as_ref()
    }

    /// Clones the headers. `AllocError` if an allocation fails.
    pub fn clone(&self) -> Result<EnvelopeHeaders, AllocError>
        ensures { IfOk result (λ headers. headers_cell headers ≡ headers_cell self.now) }
    {
        self.copy()
    }

    /// Returns the normal form, which has the normal form of each field. `AllocError` if an
    /// allocation fails.
    pub fn normalized(&self, alloc: Global) -> Result<EnvelopeHeaders, AllocError>
        ensures { IfOk result (λ headers.
            headers_cell headers ≡ norm header_kind (headers_cell self.now)) }
    {
        self.normal(alloc)
    }
}

impl Formed for EnvelopeHeaders {
    type Form = AsTable;
}

impl Table for EnvelopeHeaders {
    ghost lines = { header_fields };

    fn rows<S: Sink>(&self, to: &mut S) {
        to.optional("dsn", &self.dsn);
        to.optional_as::<Hyphenated, Uuid>("event_id", &self.event_id);
        to.optional("sdk", &self.sdk);
        to.optional_strict_as::<Rfc3339, Moment>("sent_at", &self.sent_at);
        to.optional("trace", &self.trace);
    }

    ghost ordered = { header_in_order };
}

impl ReadTable for EnvelopeHeaders {
    fn read<S: Source>(from: &mut S) -> EnvelopeHeaders {
        EnvelopeHeaders {
            dsn: from.optional("dsn"),
            event_id: from.optional_as::<Hyphenated, Uuid>("event_id"),
            sdk: from.optional("sdk"),
            sent_at: from.optional_strict_as::<Rfc3339, Moment>("sent_at"),
            trace: from.optional("trace"),
        }
    }
}

impl CopyTable for EnvelopeHeaders {
    fn copy_rows(&self, copies: &mut Copier) -> Result<EnvelopeHeaders, AllocError> {
        Ok(EnvelopeHeaders {
            dsn: copies.optional(&self.dsn),
            event_id: copies.optional_as::<Hyphenated, Uuid>(&self.event_id),
            sdk: copies.optional(&self.sdk),
            sent_at: copies.optional_strict_as::<Rfc3339, Moment>(&self.sent_at),
            trace: copies.optional(&self.trace),
        })
    }
}

// Reads the header line into `headers`, where they stay: they are too large to hand on by value.
#[inline(never)]
pub(crate) fn read_header_line<'a>(
    lines: &mut LineReader<'a>,
    line: &'a [u8],
    headers: &mut EnvelopeHeaders,
) -> Result<(), EnvelopeError>
    ensures ok { OnOk result (TextShown header_kind line.now (headers_cell headers.new)) }
    ensures err { IfErr result (λ e. (e ≡ EnvelopeError.OutOfMemory)
        ⊎ ((e ≡ EnvelopeError.InvalidHeader) × TextRefused header_kind line.now)) }
{
    match fill_headers(lines, line, headers) {
        Ok(()) => Ok(()),
        Err(TreeError::Misfit) => Err(EnvelopeError::InvalidHeader),
        Err(TreeError::Memory) => Err(EnvelopeError::OutOfMemory),
    }
}

// As long as a header line with an event id alone is, but for white space.
const ID_ALONE: usize = 64;

// The event id of a header line that has it and no other field, as that of some SDKs: such a line
// needs no tape. `None` for any other line.
fn id_alone(alloc: Global, line: &[u8]) -> Option<Uuid>
    ensures { IfSome result (λ id.
        TextShown header_kind line.now (put_id (Some id) no_fields)) }
{
    if line.len() > ID_ALONE {
        return None;
    }
    let mut places = [None, None, None, None, None];
    look_up(
        line,
        &["event_id", "dsn", "sdk", "sent_at", "trace"],
        &mut places,
    )?;
    let id = places[0]?;
    if places[1].is_some() || places[2].is_some() || places[3].is_some() || places[4].is_some() {
        return None;
    }
    match Hyphenated::from_node(alloc, &id) {
        Ok(id) => Some(id),
        Err(_) => None,
    }
}

fn fill_headers<'a>(
    lines: &mut LineReader<'a>,
    line: &'a [u8],
    headers: &mut EnvelopeHeaders,
) -> Result<(), TreeError>
    ensures ok { OnOk result (TextShown header_kind line.now (headers_cell headers.new)) }
    ensures err { IfErr result (λ e. Only e (TextRefused header_kind line.now)) }
{
    // Many envelopes of sessions, check-ins and reports have no header fields: their header line
    // needs no tape.
    if line == b"{}".as_slice() {
        *headers = EnvelopeHeaders::new();
        return Ok(());
    }
    let alloc = lines.alloc();
    if let Some(id) = id_alone(alloc, line) {
        *headers = EnvelopeHeaders::new().with_id(Some(id));
        return Ok(());
    }
    match lines.root(line)? {
        Some(root) => fill_from_root(alloc, &root, headers),
        None => fill_from_line(lines, line, headers),
    }
}

#[tactic(auto, using(sentry_rows::proofs::Answering::no_object_fails))]
fn fill_from_root<N: Node>(
    alloc: Global,
    root: &N,
    headers: &mut EnvelopeHeaders,
) -> Result<(), TreeError>
    ensures ok { OnOk result (Shown header_kind (N.data_of root.now) (headers_cell headers.new)) }
    ensures err { IfErr result (λ e. Only e (Refused header_kind (N.data_of root.now))) }
{
    let mut from = Reader::new(alloc, root)?;
    *headers = ReadTable::read(&mut from);
    from.end(())
}

// The same of a line that the tape doesn't take: few lines come here.
#[cold]
#[inline(never)]
fn fill_from_line<'a>(
    lines: &mut LineReader<'a>,
    line: &'a [u8],
    headers: &mut EnvelopeHeaders,
) -> Result<(), TreeError>
    ensures ok { OnOk result (TextShown header_kind line.now (headers_cell headers.new)) }
    ensures err { IfErr result (λ e. Only e (TextRefused header_kind line.now)) }
{
    *headers = lines.read(line)?;
    Ok(())
}
