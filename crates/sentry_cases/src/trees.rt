//! The types whose values lines of JSON show, by their names.

use crate::contexts::of_context;
use crate::events::of_event;
use crate::form::{by_tree, by_tree_at, cloned, debugged, form, member, members, own};
use crate::headers::of_fields;
use crate::parts::of_part;
use crate::records::of_record;
use sentry_types::protocol::v7::{
    Addr, AttachmentType, Breadcrumb, CError, Category, ClientSdkInfo, ClientSdkPackage,
    EnvelopeHeaders, Exception, Hyphenated, IpAddress, IpText, Level, LogLevel, LogSeverityNumber,
    Map, MetricType, Moment, MonitorCheckInStatus, MonitorIntervalUnit, MonitorSchedule,
    OrganizationId, OrganizationText, Orientation, OsContext, Reason, RegVal, Rfc3339,
    RuntimeContext, SampleRand, SampleRate, Sampled, Seconds, SessionStatus, Simple, Span, SpanId,
    SpanStatus, Thread, TraceId, Unit, Url, UrlText, Value, Values,
};
use sentry_types::{Auth, CodeId, DebugId, Dsn, ProjectId, Uuid};
use std::alloc::{AllocError, Global};
use std::borrow::CowStr;
use std::net::IpAddr;

fn of_basic(alloc: Global, name: &str, line: &[u8]) -> Option<Result<Value, AllocError>> {
    Some(match name {
        "bool" => own::<bool>(alloc, line),
        "u8" => own::<u8>(alloc, line),
        "u16" => own::<u16>(alloc, line),
        "u32" => own::<u32>(alloc, line),
        "u64" => own::<u64>(alloc, line),
        "i32" => own::<i32>(alloc, line),
        "i64" => own::<i64>(alloc, line),
        "String" => own::<String>(alloc, line),
        "CowStr" => own::<CowStr<'static>>(alloc, line),
        "Value" => own::<Value>(alloc, line),
        "(u64, u64)" => own::<(u64, u64)>(alloc, line),
        "Vec<u64>" => own::<Vec<u64>>(alloc, line),
        "Values<u64>" => cloned(alloc, line, Values::<u64>::clone),
        "Values<Map<String, Value>>" => cloned(alloc, line, Values::<Map<String, Value>>::clone),
        "Map<String, u64>" => own::<Map<String, u64>>(alloc, line),
        "Map<String, Value>" => own::<Map<String, Value>>(alloc, line),
        _ => return None,
    })
}

fn of_word(alloc: Global, name: &str, line: &[u8]) -> Option<Result<Value, AllocError>> {
    Some(match name {
        "Level" => own::<Level>(alloc, line),
        "SpanStatus" => own::<SpanStatus>(alloc, line),
        "SessionStatus" => own::<SessionStatus>(alloc, line),
        "LogLevel" => own::<LogLevel>(alloc, line),
        "MetricType" => own::<MetricType>(alloc, line),
        "Orientation" => own::<Orientation>(alloc, line),
        "MonitorCheckInStatus" => own::<MonitorCheckInStatus>(alloc, line),
        "MonitorIntervalUnit" => own::<MonitorIntervalUnit>(alloc, line),
        "Category" => own::<Category>(alloc, line),
        "Reason" => own::<Reason>(alloc, line),
        "AttachmentType" => cloned(alloc, line, AttachmentType::clone),
        "Unit" => cloned(alloc, line, Unit::clone),
        _ => return None,
    })
}

fn of_number(alloc: Global, name: &str, line: &[u8]) -> Option<Result<Value, AllocError>> {
    Some(match name {
        "Addr" => own::<Addr>(alloc, line),
        "RegVal" => own::<RegVal>(alloc, line),
        "LogSeverityNumber" => own::<LogSeverityNumber>(alloc, line),
        "OrganizationId" => own::<OrganizationId>(alloc, line),
        "OrganizationText" => form::<OrganizationText, OrganizationId>(alloc, line),
        "Rfc3339" => form::<Rfc3339, Moment>(alloc, line),
        "Seconds" => form::<Seconds, Moment>(alloc, line),
        "SampleRand" => own::<SampleRand>(alloc, line),
        "SampleRate" => own::<SampleRate>(alloc, line),
        "Sampled" => form::<Sampled, bool>(alloc, line),
        _ => return None,
    })
}

fn of_id(alloc: Global, name: &str, line: &[u8]) -> Option<Result<Value, AllocError>> {
    Some(match name {
        "SpanId" => own::<SpanId>(alloc, line),
        "TraceId" => own::<TraceId>(alloc, line),
        "ProjectId" => cloned(alloc, line, ProjectId::clone),
        "IpAddress" => own::<IpAddress>(alloc, line),
        "IpText" => form::<IpText, IpAddr>(alloc, line),
        "DebugId" => own::<DebugId>(alloc, line),
        "CodeId" => cloned(alloc, line, CodeId::clone),
        "Hyphenated" => form::<Hyphenated, Uuid>(alloc, line),
        "Simple" => form::<Simple, Uuid>(alloc, line),
        "UrlText" => form::<UrlText, Url>(alloc, line),
        "Dsn" => cloned(alloc, line, Dsn::clone),
        _ => return None,
    })
}

fn of_table(alloc: Global, name: &str, line: &[u8]) -> Option<Result<Value, AllocError>> {
    Some(match name {
        "Auth" => cloned(alloc, line, Auth::clone),
        "ClientSdkInfo" => cloned(alloc, line, ClientSdkInfo::clone),
        "ClientSdkPackage" => cloned(alloc, line, ClientSdkPackage::clone),
        "EnvelopeHeaders" => cloned(alloc, line, EnvelopeHeaders::clone),
        _ => return None,
    })
}

fn of_member(alloc: Global, name: &str, line: &[u8]) -> Option<Result<Value, AllocError>> {
    Some(match name {
        "Breadcrumb" => member::<Breadcrumb>(alloc, line),
        "Exception" => member::<Exception>(alloc, line),
        "Thread" => member::<Thread>(alloc, line),
        "u64" => member::<u64>(alloc, line),
        _ => return None,
    })
}

fn of_members(alloc: Global, name: &str, line: &[u8]) -> Option<Result<Value, AllocError>> {
    Some(match name {
        "Breadcrumb" => members::<Breadcrumb>(alloc, line),
        "Exception" => members::<Exception>(alloc, line),
        "Thread" => members::<Thread>(alloc, line),
        "u64" => members::<u64>(alloc, line),
        _ => return None,
    })
}

fn of_debug(alloc: Global, name: &str, line: &[u8]) -> Option<Result<Value, AllocError>> {
    Some(match name {
        "Addr" => debugged::<Addr>(alloc, by_tree(alloc, line)),
        "AttachmentType" => debugged::<AttachmentType>(alloc, by_tree(alloc, line)),
        "CError" => debugged::<CError>(alloc, by_tree(alloc, line)),
        "Category" => debugged::<Category>(alloc, by_tree(alloc, line)),
        "ClientSdkPackage" => debugged::<ClientSdkPackage>(alloc, by_tree(alloc, line)),
        "Level" => debugged::<Level>(alloc, by_tree(alloc, line)),
        "MonitorSchedule" => debugged::<MonitorSchedule>(alloc, by_tree(alloc, line)),
        "OsContext" => debugged::<OsContext>(alloc, by_tree(alloc, line)),
        "RuntimeContext" => debugged::<RuntimeContext>(alloc, by_tree(alloc, line)),
        "SampleRate" => debugged::<SampleRate>(alloc, by_tree(alloc, line)),
        "SpanId" => debugged::<SpanId>(alloc, by_tree(alloc, line)),
        "TraceId" => debugged::<TraceId>(alloc, by_tree(alloc, line)),
        "Unit" => debugged::<Unit>(alloc, by_tree(alloc, line)),
        "Values<u64>" => debugged::<Values<u64>>(alloc, by_tree(alloc, line)),
        "Span" => debugged::<Span>(alloc, by_tree_at(alloc, line)),
        _ => return None,
    })
}

/// What is written of the value of a type that a line shows.
pub fn of_tree(alloc: Global, name: &str, line: &[u8]) -> Option<Result<Value, AllocError>> {
    if let Some(name) = name.strip_prefix("member ") {
        return of_member(alloc, name, line);
    }
    if let Some(name) = name.strip_prefix("members ") {
        return of_members(alloc, name, line);
    }
    if let Some(name) = name.strip_prefix("debug ") {
        return of_debug(alloc, name, line);
    }
    if let Some(name) = name.strip_prefix("fields ") {
        return of_fields(alloc, name, line);
    }
    of_basic(alloc, name, line)
        .or_else(|| of_word(alloc, name, line))
        .or_else(|| of_number(alloc, name, line))
        .or_else(|| of_id(alloc, name, line))
        .or_else(|| of_table(alloc, name, line))
        .or_else(|| of_context(alloc, name, line))
        .or_else(|| of_event(alloc, name, line))
        .or_else(|| of_record(alloc, name, line))
        .or_else(|| of_part(alloc, name, line))
}
