//! What small texts are read as.

use crate::asked::said_of;
use crate::ids::of_id;
use crate::moments::of_moment_text;
use crate::said::{as_tree, list, printed, refused, shown};
use crate::words::of_word;
use sentry_types::protocol::v7::{
    Addr, CrontabParseError, IpAddress, Member, MonitorSchedule, RegVal, ScheduleError, ThreadId,
    Value, validate,
};
use std::alloc::{AllocError, Global};

fn of_address(alloc: Global, given: &str) -> Result<Value, AllocError> {
    match given.parse::<Addr>() {
        Ok(addr) => list(alloc, [as_tree(u64::from(addr)), shown(alloc, &addr)]),
        Err(error) => refused(alloc, &error),
    }
}

fn of_register(alloc: Global, given: &str) -> Result<Value, AllocError> {
    match given.parse::<RegVal>() {
        Ok(value) => list(alloc, [as_tree(u64::from(value)), shown(alloc, &value)]),
        Err(error) => refused(alloc, &error),
    }
}

// The refusals of a crontab, outer and inner.
fn said_fault(alloc: Global, given: &str, inner: &CrontabParseError) -> Result<Value, AllocError> {
    let outer = ScheduleError::Invalid(CrontabParseError::new(alloc, given)?);
    list(alloc, [refused(alloc, &outer), shown(alloc, inner)])
}

// The tree of the schedule of a crontab, or the refusals.
fn of_crontab(alloc: Global, given: &str) -> Result<Value, AllocError> {
    match MonitorSchedule::from_crontab(alloc, given) {
        Ok(schedule) => list(alloc, [schedule.to_tree(alloc)]),
        Err(ScheduleError::Invalid(inner)) => said_fault(alloc, given, &inner),
        Err(error) => refused(alloc, &error),
    }
}

// The tree of an id of a thread, and what it prints.
fn said_thread_id(alloc: Global, id: &ThreadId) -> Result<Value, AllocError> {
    list(alloc, [id.to_tree(alloc), shown(alloc, id)])
}

fn of_other_text(alloc: Global, name: &str, given: &str) -> Option<Result<Value, AllocError>> {
    Some(match name {
        "Addr" => of_address(alloc, given),
        "RegVal" => of_register(alloc, given),
        "IpAddress" => printed::<IpAddress>(alloc, given),
        "validate" => as_tree(validate(given)),
        "MonitorSchedule::from_crontab" => of_crontab(alloc, given),
        "ThreadId::from_text" => said_of(alloc, ThreadId::from_text(alloc, given), said_thread_id),
        "CrontabParseError" => said_of(alloc, CrontabParseError::new(alloc, given), shown),
        _ => return None,
    })
}

/// What a text is read as, where the name is that of a reader.
pub fn of_text(alloc: Global, name: &str, given: &str) -> Option<Result<Value, AllocError>> {
    of_word(alloc, name, given)
        .or_else(|| of_id(alloc, name, given))
        .or_else(|| of_moment_text(alloc, name, given))
        .or_else(|| of_other_text(alloc, name, given))
}
