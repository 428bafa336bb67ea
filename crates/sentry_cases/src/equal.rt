//! Which values are the same, by `==`.

use crate::asked::said_same;
use crate::form::{ids, now};
use crate::said::{as_tree, list, refused, unknown};
use sentry_types::protocol::v7::{
    Breadcrumb, Context, DebugMeta, Event, Exception, Frame, FromTree, FromTreeAt, GpuContext, Log,
    LogEntry, Mechanism, Member, Metric, OtelContext, Report, Request, ResponseContext, Span,
    Stacktrace, Thread, TraceContext, Transaction, TreeError, User, Value,
};
use sentry_types::{Dsn, ProjectId};
use std::alloc::{AllocError, Global};

// Whether a value is its clone, and whether it is the other one, both ways.
fn compared<T: Member + PartialEq>(alloc: Global, one: &T, other: &T) -> Result<Value, AllocError> {
    let fields = [
        said_same(one.copy(), one),
        as_tree(*one == *other),
        as_tree(*other == *one),
    ];
    list(alloc, fields)
}

fn answered<T: Member + PartialEq>(
    alloc: Global,
    one: Result<T, TreeError>,
    other: Result<T, TreeError>,
) -> Result<Value, AllocError> {
    match (&one, &other) {
        (Ok(one), Ok(other)) => compared(alloc, one, other),
        (Err(error), _) | (_, Err(error)) => refused(alloc, error),
    }
}

fn own<T: FromTree + PartialEq>(
    alloc: Global,
    one: &Value,
    other: &Value,
) -> Result<Value, AllocError> {
    answered::<T>(alloc, T::from_tree(alloc, one), T::from_tree(alloc, other))
}

// The value that a tree shows at the moment of reading.
fn at_now<T: FromTreeAt>(alloc: Global, tree: &Value) -> Result<T, TreeError> {
    T::from_tree(alloc, tree, now(), &mut ids())
}

fn own_at<T: FromTreeAt + PartialEq>(
    alloc: Global,
    one: &Value,
    other: &Value,
) -> Result<Value, AllocError> {
    answered::<T>(alloc, at_now(alloc, one), at_now(alloc, other))
}

fn of_message(alloc: Global, name: &str, one: &Value, other: &Value) -> Result<Value, AllocError> {
    match name {
        "Breadcrumb" => own_at::<Breadcrumb>(alloc, one, other),
        "Context" => own_at::<Context>(alloc, one, other),
        "Event" => own_at::<Event<'static>>(alloc, one, other),
        "Report" => own_at::<Report>(alloc, one, other),
        "Span" => own_at::<Span>(alloc, one, other),
        "TraceContext" => own_at::<TraceContext>(alloc, one, other),
        "Transaction" => own_at::<Transaction<'static>>(alloc, one, other),
        _ => unknown(alloc),
    }
}

/// Whether the values that two trees show are the same.
pub fn of_two_trees(
    alloc: Global,
    name: &str,
    one: &Value,
    other: &Value,
) -> Result<Value, AllocError> {
    match name {
        "DebugMeta" => own::<DebugMeta>(alloc, one, other),
        "Dsn" => own::<Dsn>(alloc, one, other),
        "Exception" => own::<Exception>(alloc, one, other),
        "Frame" => own::<Frame>(alloc, one, other),
        "GpuContext" => own::<GpuContext>(alloc, one, other),
        "Log" => own::<Log>(alloc, one, other),
        "LogEntry" => own::<LogEntry>(alloc, one, other),
        "Mechanism" => own::<Mechanism>(alloc, one, other),
        "Metric" => own::<Metric>(alloc, one, other),
        "ProjectId" => own::<ProjectId>(alloc, one, other),
        "OtelContext" => own::<OtelContext>(alloc, one, other),
        "Request" => own::<Request>(alloc, one, other),
        "ResponseContext" => own::<ResponseContext>(alloc, one, other),
        "Stacktrace" => own::<Stacktrace>(alloc, one, other),
        "Thread" => own::<Thread>(alloc, one, other),
        "User" => own::<User>(alloc, one, other),
        _ => of_message(alloc, name, one, other),
    }
}
