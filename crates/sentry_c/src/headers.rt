//! Envelope headers.

ghost use Rattle.std.specs.Prelude.{◌≡◌, ◌≢◌, ◌⊎◌, IfErr, IfOk, codes, option_copied, option_map, string_bytes};
ghost use Rattle.hex.specs.Hex.{encode_lower};
ghost use Rattle.uuid.specs.Text.{hyphenated_text, lower};
ghost use Rattle.sentry_identifiers.specs.HexId.{trace_bytes};
ghost use Rattle.sentry_keys.specs.Dsn.{dsn_parts, dsn_text};
ghost use Rattle.sentry_tables.specs.Cells.{natural_cell, option_cell};
ghost use Rattle.sentry_tables.specs.Reading.{Only};
ghost use Rattle.sentry_c.specs.Headers.{HasNoHeader, IsHeader, IsHeaderText, IsNumber, IsSomeHeaderText, IsTrace, TellsHeader, TellsTrace, in_trace, truth_number};
ghost use Rattle.sentry_c.specs.Misfits.{IsGrown};
ghost use Rattle.sentry_c.specs.Output.{IsTooLong, Puts};
ghost use Rattle.sentry_c.specs.Texts.{IsOptionalAt};

use crate::misfit::{NOWHERE, push_text};
use crate::output::deliver;
use crate::status::{INVALID_HEADER, NO_ROOM, OK, OUT_OF_MEMORY};
use crate::texts::{CurdmesaPlace, numbers_of};
use sentry_types::protocol::v7::{
    ClientSdkInfo, DynamicSamplingContext, EnvelopeHeaders, Frames, TraceId, TreeError, read_line,
};
use sentry_types::{Dsn, Uuid};
use std::alloc::{AllocError, Global};
use uuid::fmt::Hyphenated;

/// The dynamic sampling context of a trace. Texts are places in what is written.
#[derive(Clone, Copy)]
#[repr(C)]
pub struct CurdmesaTrace {
    /// The trace id: 32 hex digits in lower case.
    pub trace_id: CurdmesaPlace,
    /// The public key of the DSN that the trace is sent to.
    pub public_key: CurdmesaPlace,
    /// The release.
    pub release: CurdmesaPlace,
    /// The environment.
    pub environment: CurdmesaPlace,
    /// The transaction name.
    pub transaction: CurdmesaPlace,
    /// The sample rate in billionths.
    pub sample_rate: u64,
    /// The random value that the sample rate is compared with, in billionths.
    pub sample_rand: u64,
    /// The organization id.
    pub org_id: u64,
    /// 1 if the trace was sampled, else 0.
    pub sampled: u32,
    /// 1 if there is a trace id, else 0.
    pub has_trace_id: u32,
    /// 1 if there is a public key, else 0.
    pub has_public_key: u32,
    /// 1 if there is a release, else 0.
    pub has_release: u32,
    /// 1 if there is an environment, else 0.
    pub has_environment: u32,
    /// 1 if there is a transaction name, else 0.
    pub has_transaction: u32,
    /// 1 if there is a sample rate, else 0.
    pub has_sample_rate: u32,
    /// 1 if there is a random value, else 0.
    pub has_sample_rand: u32,
    /// 1 if there is an organization id, else 0.
    pub has_org_id: u32,
    /// 1 if it is told whether the trace was sampled, else 0.
    pub has_sampled: u32,
}

/// Envelope headers. Texts are places in what is written; a text that is absent is empty, and a
/// number 0.
#[derive(Clone, Copy)]
#[repr(C)]
pub struct CurdmesaHeader {
    /// The event id, hyphenated and in lower case.
    pub event_id: CurdmesaPlace,
    /// The DSN that the envelope is sent to, in its printed form.
    pub dsn: CurdmesaPlace,
    /// The name of the SDK that sends the envelope.
    pub sdk_name: CurdmesaPlace,
    /// The version of the SDK.
    pub sdk_version: CurdmesaPlace,
    /// The dynamic sampling context of the trace.
    pub trace: CurdmesaTrace,
    /// Seconds of the time of sending.
    pub sent_at_secs: u64,
    /// Nanoseconds of the time of sending.
    pub sent_at_nanos: u32,
    /// 1 if there is an event id, else 0.
    pub has_event_id: u32,
    /// 1 if there is a DSN, else 0.
    pub has_dsn: u32,
    /// 1 if there is an SDK, else 0.
    pub has_sdk: u32,
    /// 1 if there is a time of sending, else 0.
    pub has_sent_at: u32,
    /// 1 if there is a dynamic sampling context, else 0.
    pub has_trace: u32,
}

// Appends a text, if there is one. Returns its place and 1, or an empty place and 0.
fn push_optional(
    texts: &mut Vec<u8>,
    text: Option<&str>,
) -> Result<(CurdmesaPlace, u32), AllocError>
    ensures grown { IfOk result (λ told. IsGrown texts.old.items texts.new.items) }
    ensures told { IfOk result (λ told. IsOptionalAt texts.new.items told.0 told.1
        (option_copied text.entry)) }
{
    match text {
        Some(text) => {
            let place = push_text(texts, text.as_bytes())?;
            Ok((place, 1))
        }
        None => Ok((NOWHERE, 0)),
    }
}

fn push_event_id(texts: &mut Vec<u8>, id: Option<&Uuid>) -> Result<(CurdmesaPlace, u32), AllocError>
    ensures grown { IfOk result (λ told. IsGrown texts.old.items texts.new.items) }
    ensures told { IfOk result (λ told. IsOptionalAt texts.new.items told.0 told.1
        (option_map (λ id. hyphenated_text lower id.now) id.entry)) }
{
    match id {
        Some(id) => {
            let mut digits = [0; 36];
            let text = Hyphenated::from_uuid(*id).encode_lower(&mut digits);
            let place = push_text(texts, text.as_bytes())?;
            Ok((place, 1))
        }
        None => Ok((NOWHERE, 0)),
    }
}

fn push_dsn(
    alloc: Global,
    texts: &mut Vec<u8>,
    dsn: Option<&Dsn>,
) -> Result<(CurdmesaPlace, u32), AllocError>
    ensures grown { IfOk result (λ told. IsGrown texts.old.items texts.new.items) }
    ensures told { IfOk result (λ told. IsOptionalAt texts.new.items told.0 told.1
        (option_map (λ dsn. dsn_text (dsn_parts dsn.now)) dsn.entry)) }
{
    match dsn {
        Some(dsn) => {
            let text = dsn.to_string(alloc)?;
            let place = push_text(texts, text.as_str().as_bytes())?;
            Ok((place, 1))
        }
        None => Ok((NOWHERE, 0)),
    }
}

fn push_trace_id(
    alloc: Global,
    texts: &mut Vec<u8>,
    id: Option<TraceId>,
) -> Result<(CurdmesaPlace, u32), AllocError>
    ensures grown { IfOk result (λ told. IsGrown texts.old.items texts.new.items) }
    ensures told { IfOk result (λ told. IsOptionalAt texts.new.items told.0 told.1
        (option_map (λ id. encode_lower (trace_bytes id)) id)) }
{
    match id {
        Some(id) => {
            let text = id.to_text(alloc)?;
            let place = push_text(texts, text.as_str().as_bytes())?;
            Ok((place, 1))
        }
        None => Ok((NOWHERE, 0)),
    }
}

// Returns a number and 1, or twice 0.
fn number_told(number: Option<u64>) -> (u64, u32)
    ensures { IsNumber result.0 result.1 number }
{
    match number {
        Some(number) => (number, 1),
        None => (0, 0),
    }
}

fn truth_told(truth: Option<bool>) -> (u32, u32)
    ensures { IsNumber result.0 result.1 (option_map truth_number truth) }
{
    match truth {
        Some(true) => (1, 1),
        Some(false) => (0, 1),
        None => (0, 0),
    }
}

fn rand_of(trace: &DynamicSamplingContext) -> Option<u64>
    ensures { option_cell natural_cell result ≡ in_trace (codes "sample_rand") trace.now }
{
    match trace.sample_rand() {
        Some(rand) => Some(rand.billionths()),
        None => None,
    }
}

fn organization_of(trace: &DynamicSamplingContext) -> Option<u64>
    ensures { option_cell natural_cell result ≡ in_trace (codes "org_id") trace.now }
{
    match trace.org_id() {
        Some(id) => Some(id.value()),
        None => None,
    }
}

// Returns what a dynamic sampling context tells, and appends its texts.
fn trace_row(
    alloc: Global,
    trace: &DynamicSamplingContext,
    texts: &mut Vec<u8>,
) -> Result<CurdmesaTrace, AllocError>
    ensures grown { IfOk result (λ row. IsGrown texts.old.items texts.new.items) }
    ensures tells { IfOk result (λ row. TellsTrace texts.new.items row trace.now) }
{
    let (trace_id, has_trace_id) = push_trace_id(alloc, texts, trace.trace_id())?;
    let (public_key, has_public_key) = push_optional(texts, trace.public_key())?;
    let (release, has_release) = push_optional(texts, trace.release())?;
    let (environment, has_environment) = push_optional(texts, trace.environment())?;
    let (transaction, has_transaction) = push_optional(texts, trace.transaction())?;
    let (sample_rate, has_sample_rate) = number_told(trace.sample_rate());
    let (sample_rand, has_sample_rand) = number_told(rand_of(trace));
    let (org_id, has_org_id) = number_told(organization_of(trace));
    let (sampled, has_sampled) = truth_told(trace.sampled());
    Ok(CurdmesaTrace {
        trace_id,
        public_key,
        release,
        environment,
        transaction,
        sample_rate,
        sample_rand,
        org_id,
        sampled,
        has_trace_id,
        has_public_key,
        has_release,
        has_environment,
        has_transaction,
        has_sample_rate,
        has_sample_rand,
        has_org_id,
        has_sampled,
    })
}

// The same of an optional context, and 1 or 0.
fn push_trace(
    alloc: Global,
    texts: &mut Vec<u8>,
    trace: Option<&DynamicSamplingContext>,
) -> Result<(CurdmesaTrace, u32), AllocError>
    ensures grown { IfOk result (λ told. IsGrown texts.old.items texts.new.items) }
    ensures told { IfOk result (λ told. IsTrace texts.new.items told.0 told.1
        (option_map (λ trace. trace.now) trace.entry)) }
{
    match trace {
        Some(trace) => {
            let row = trace_row(alloc, trace, texts)?;
            Ok((row, 1))
        }
        None => {
            let row = trace_row(alloc, &DynamicSamplingContext::new(), texts)?;
            Ok((row, 0))
        }
    }
}

// Returns the name and the version of an SDK.
fn name_of(sdk: Option<&ClientSdkInfo>) -> Option<&str>
    ensures { option_copied result ≡ option_map (λ sdk. string_bytes sdk.now.name) sdk.entry }
{
    match sdk {
        Some(sdk) => Some(sdk.name.as_str()),
        None => None,
    }
}

fn version_of(sdk: Option<&ClientSdkInfo>) -> Option<&str>
    ensures { option_copied result ≡ option_map (λ sdk. string_bytes sdk.now.version) sdk.entry }
{
    match sdk {
        Some(sdk) => Some(sdk.version.as_str()),
        None => None,
    }
}

// Returns what envelope headers tell, and appends their texts.
fn header_row(
    alloc: Global,
    headers: &EnvelopeHeaders,
    texts: &mut Vec<u8>,
) -> Result<CurdmesaHeader, AllocError>
    ensures { IfOk result (λ row. TellsHeader texts.new.items row headers.now) }
{
    let (event_id, has_event_id) = push_event_id(texts, headers.event_id())?;
    let (dsn, has_dsn) = push_dsn(alloc, texts, headers.dsn())?;
    let sdk = headers.sdk();
    let (sdk_name, has_sdk) = push_optional(texts, name_of(sdk))?;
    let (sdk_version, _) = push_optional(texts, version_of(sdk))?;
    let (trace, has_trace) = push_trace(alloc, texts, headers.trace())?;
    let (sent_at_secs, sent_at_nanos, has_sent_at) = numbers_of(headers.sent_at());
    Ok(CurdmesaHeader {
        event_id,
        dsn,
        sdk_name,
        sdk_version,
        trace,
        sent_at_secs,
        sent_at_nanos,
        has_event_id,
        has_dsn,
        has_sdk,
        has_sent_at,
        has_trace,
    })
}

fn read_header(alloc: Global, bytes: &[u8]) -> Result<EnvelopeHeaders, TreeError>
    ensures ok { IfOk result (IsHeader bytes.now) }
    ensures err { IfErr result (λ e. Only e (HasNoHeader bytes.now)) }
{
    read_line(alloc, Frames::new(bytes).header_line())
}

// Returns what the header line of an envelope tells, and appends its texts to none.
fn told_header(
    alloc: Global,
    bytes: &[u8],
    texts: &mut Vec<u8>,
) -> Result<CurdmesaHeader, TreeError>
    ensures told { IfOk result (λ row. IsHeaderText bytes.now row texts.new.items) }
    ensures err { IfErr result (λ e. Only e (HasNoHeader bytes.now)) }
{
    let headers = read_header(alloc, bytes)?;
    Ok(header_row(alloc, &headers, texts)?)
}

/// Parses the header line of an envelope, writes the texts in it to `out`, and tells its members.
/// What stands behind the header line isn't parsed.
///
/// # Returns
///
/// - `OK` if the texts were written; `needed` is their length, and `header` is set.
/// - `NO_ROOM` if the texts are longer than `out`; `needed` is their length.
/// - The status of `InvalidHeader` if the header line is refused.
/// - `OUT_OF_MEMORY` if an allocation fails.
#[unsafe(no_mangle)]
pub extern "C" fn curdmesa_envelope_header(
    alloc: Global,
    bytes: &[u8],
    out: &mut [u8],
    needed: &mut u64,
    header: &mut CurdmesaHeader,
) -> i32
    ensures written { result ≡ OK →
        Puts (IsHeaderText bytes.now header.new) out.old out.new needed.new }
    ensures no_room { result ≡ NO_ROOM →
        IsTooLong (IsSomeHeaderText bytes.now) out.old needed.new }
    ensures refused { result ≡ INVALID_HEADER → HasNoHeader bytes.now }
    ensures unchanged { result ≢ OK → out.new ≡ out.old }
    ensures header_unchanged { result ≢ OK → header.new ≡ header.old }
    ensures no_text { result ≢ OK → result ≢ NO_ROOM → needed.new ≡ 0 }
    ensures answers { (result ≡ OK) ⊎ ((result ≡ NO_ROOM) ⊎ ((result ≡ INVALID_HEADER) ⊎
        (result ≡ OUT_OF_MEMORY))) }
{
    *needed = 0;
    let mut texts = Vec::new(alloc);
    let told = match told_header(alloc, bytes, &mut texts) {
        Ok(told) => told,
        Err(TreeError::Misfit) => return INVALID_HEADER,
        Err(TreeError::Memory) => return OUT_OF_MEMORY,
    };
    if !deliver(&texts, out, needed) {
        return NO_ROOM;
    }
    *header = told;
    OK
}
