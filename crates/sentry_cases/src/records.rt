//! Sampling contexts, sessions, check-ins, logs, metrics and reports of users and clients that
//! lines of JSON show.

use crate::form::{answered_by, cloned, cloned_at, own};
use sentry_types::protocol::v7::{
    DynamicSamplingContext, Item, Log, LogAttribute, Metric, MonitorCheckIn, MonitorConfig,
    MonitorSchedule, Report, SessionAggregateItem, SessionAggregates, SessionAttributes,
    SessionUpdate, UserReport, Value, read_tree,
};
use std::alloc::{AllocError, Global};

fn of_session(alloc: Global, name: &str, line: &[u8]) -> Option<Result<Value, AllocError>> {
    Some(match name {
        "DynamicSamplingContext" => cloned(alloc, line, DynamicSamplingContext::clone),
        "SessionAttributes" => cloned(alloc, line, SessionAttributes::clone),
        "SessionUpdate" => cloned_at(alloc, line, SessionUpdate::clone),
        "SessionAggregateItem" => cloned(alloc, line, SessionAggregateItem::clone),
        "SessionAggregates" => cloned(alloc, line, SessionAggregates::clone),
        _ => return None,
    })
}

// What is written of the attribute that is the tree of a line.
fn of_attribute(alloc: Global, line: &[u8]) -> Result<Value, AllocError> {
    let read = read_tree(alloc, line).map(LogAttribute::from);
    answered_by(alloc, &read, LogAttribute::clone)
}

fn of_other_record(alloc: Global, name: &str, line: &[u8]) -> Option<Result<Value, AllocError>> {
    Some(match name {
        "MonitorSchedule" => cloned(alloc, line, MonitorSchedule::clone),
        "MonitorConfig" => cloned(alloc, line, MonitorConfig::clone),
        "MonitorCheckIn" => cloned(alloc, line, MonitorCheckIn::clone),
        "Log" => cloned(alloc, line, Log::clone),
        "Metric" => cloned(alloc, line, Metric::clone),
        "LogAttribute" => cloned(alloc, line, LogAttribute::clone),
        "LogAttribute::from" => of_attribute(alloc, line),
        "UserReport" => cloned(alloc, line, UserReport::clone),
        "Report" => cloned_at(alloc, line, Report::clone),
        "Item" => own::<Item>(alloc, line),
        _ => return None,
    })
}

/// What is written of the record that a line shows.
pub fn of_record(alloc: Global, name: &str, line: &[u8]) -> Option<Result<Value, AllocError>> {
    of_session(alloc, name, line).or_else(|| of_other_record(alloc, name, line))
}
