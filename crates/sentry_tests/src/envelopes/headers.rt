//! Headers of envelopes that builders make.

use crate::envelopes::is_text;
use crate::wanted::{taken, wanted};
use sentry_types::protocol::v7::{
    ClientSdkInfo, DynamicSamplingContext, Envelope, EnvelopeHeaders, Moment, OrganizationId,
    SampleRand, TraceId,
};
use sentry_types::{Dsn, Uuid};
use std::alloc::{AllocError, Global};
use std::test::Fail;

fn text(alloc: Global, text: &str) -> Result<String, AllocError> {
    String::from_str(alloc, text)
}

/// What a trace is sampled by, with each of its fields.
fn sampling(alloc: Global, sample_rand: SampleRand) -> Result<DynamicSamplingContext, AllocError> {
    let (key, release) = (text(alloc, "k")?, text(alloc, "r")?);
    let (environment, transaction) = (text(alloc, "e")?, text(alloc, "t")?);
    Ok(
        DynamicSamplingContext::new()
            .with_public_key(key)
            .with_release(release)
            .with_environment(environment)
            .with_transaction(transaction)
            .with_trace_id(TraceId::from([0x65; 16]))
            .with_sample_rate(210)
            .with_sample_rand(sample_rand)
            .with_sampled(true)
            .with_org_id(OrganizationId::from(5)),
    )
}

fn software(alloc: Global) -> Result<ClientSdkInfo, AllocError> {
    let (name, version) = (text(alloc, "a")?, text(alloc, "1")?);
    Ok(ClientSdkInfo {
        name,
        version,
        integrations: Vec::new(alloc),
        packages: Vec::new(alloc),
    })
}

/// A header with each of its fields.
fn header(
    dsn: Dsn,
    sdk: ClientSdkInfo,
    sent_at: Moment,
    trace: DynamicSamplingContext,
) -> EnvelopeHeaders {
    EnvelopeHeaders::new()
        .with_event_id(Uuid::nil())
        .with_dsn(dsn)
        .with_sent_at(sent_at)
        .with_trace(trace)
        .with_sdk(sdk)
}

const LINE: &str = concat!(
    "{\"dsn\":\"https://username:@domain/42\",\"event_id\":\"00000000-0000-0000-0000-000000000000\",",
    "\"sdk\":{\"name\":\"a\",\"version\":\"1\"},\"sent_at\":\"2020-02-07T14:16:00Z\",",
    "\"trace\":{\"environment\":\"e\",\"org_id\":\"5\",\"public_key\":\"k\",\"release\":\"r\",",
    "\"sample_rand\":\"0.999999\",\"sample_rate\":\"0.00000021\",\"sampled\":\"true\",",
    "\"trace_id\":\"65656565656565656565656565656565\",\"transaction\":\"t\"}}\n"
);

/// Whether a header's envelope is written as a line.
fn is_written(alloc: Global, header: EnvelopeHeaders, line: &str) -> bool {
    let made: Result<Envelope, AllocError> = Ok(Envelope::new(alloc).with_headers(header));
    is_text(alloc, made, line)
}

/// Whether it is written as `LINE`.
fn is_line(alloc: Global, header: EnvelopeHeaders) -> bool {
    is_written(alloc, header, LINE)
}

/// Whether a header and its normal form are written as `LINE`.
fn are_lines(alloc: Global, header: EnvelopeHeaders) -> bool {
    let normal = taken(alloc, header.normalized(alloc), is_line);
    is_line(alloc, header) && normal
}

/// The header of `LINE`.
fn header_of_line(alloc: Global) -> Result<EnvelopeHeaders, Fail> {
    let near_one = SampleRand::from_billionths(999_999_900).ok().ok_or("rand")?;
    let sent_at = Moment::new(1_581_084_960, 0).ok_or("moment")?;
    let (sdk, trace) = (software(alloc)?, sampling(alloc, near_one)?);
    let dsn = Dsn::from_str(alloc, "https://username@domain/42")?;
    Ok(header(dsn, sdk, sent_at, trace))
}

/// What is put in is written, and a number below 1 isn't rounded up to it.
#[test]
fn builders(rt: HostRuntime) -> Result<(), Fail> {
    wanted(are_lines(rt.alloc(), header_of_line(rt.alloc())?))
}

/// A header with a number near 1, and no other field.
#[test]
fn a_number_near_1(rt: HostRuntime) -> Result<(), Fail> {
    let near_one = SampleRand::from_billionths(999_999_900).ok().ok_or("rand")?;
    let trace = DynamicSamplingContext::new().with_sample_rand(near_one);
    let header = EnvelopeHeaders::new().with_trace(trace);
    wanted(is_written(
        rt.alloc(),
        header,
        "{\"trace\":{\"sample_rand\":\"0.999999\"}}\n",
    ))
}
