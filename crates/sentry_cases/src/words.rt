//! Words and units.

use crate::asked::said_of;
use crate::said::{as_tree, list, none, printed, refused, shown, text};
use sentry_types::IndexedEnum;
use sentry_types::protocol::v7::{
    AttachmentType, Category, Level, LogLevel, Member, MetricType, MonitorCheckInStatus,
    MonitorIntervalUnit, Orientation, Reason, SessionStatus, SpanStatus, Unit, Value,
};
use std::alloc::{AllocError, Global};
use std::borrow::CowStr;
use std::fmt::Display;
use std::str::FromStr;

fn of_level(alloc: Global, given: &str) -> Result<Value, AllocError> {
    match given.parse::<Level>() {
        Ok(level) => {
            let fields = [
                text(alloc, level.as_str()),
                shown(alloc, &level),
                as_tree(level.is_debug()),
                as_tree(level.is_info()),
                as_tree(level.is_warning()),
                as_tree(level.is_error()),
                as_tree(level.is_fatal()),
            ];
            list(alloc, fields)
        }
        Err(error) => refused(alloc, &error),
    }
}

// The text of a unit, and whether it is one that the table of units doesn't list.
fn of_unit(alloc: Global, unit: &Unit) -> Result<Value, AllocError> {
    let other = matches!(unit, Unit::Other(_));
    list(alloc, [text(alloc, unit.as_str()), as_tree(other)])
}

fn unit_of(alloc: Global, given: &str) -> Result<Unit, AllocError> {
    Ok(Unit::from(String::from_str(alloc, given)?))
}

// What is said of the clone of the unit that is made of a `Cow`.
fn of_cow(alloc: Global, given: &str) -> Result<Value, AllocError> {
    let unit = Unit::from(CowStr::Owned(String::from_str(alloc, given)?));
    said_of(alloc, unit.clone(), of_unit)
}

// A type of attachments, and whether it is one of its own.
fn of_attachment_type(alloc: Global, given: &str) -> Result<Value, AllocError> {
    let ty = AttachmentType::from_text(alloc, given)?;
    let custom = matches!(ty, AttachmentType::Custom(_));
    list(alloc, [text(alloc, ty.as_str()), as_tree(custom)])
}

// What the value of a word writes.
fn word<T: FromStr + Member>(alloc: Global, given: &str) -> Result<Value, AllocError>
where
    T::Err: Display + Drop,
{
    match given.parse::<T>() {
        Ok(value) => list(alloc, [value.to_tree(alloc)]),
        Err(error) => refused(alloc, &error),
    }
}

/// What a word or a unit is read as.
pub fn of_word(alloc: Global, name: &str, given: &str) -> Option<Result<Value, AllocError>> {
    Some(match name {
        "Level" => of_level(alloc, given),
        "LogLevel" => word::<LogLevel>(alloc, given),
        "MetricType" => word::<MetricType>(alloc, given),
        "Orientation" => word::<Orientation>(alloc, given),
        "MonitorIntervalUnit" => word::<MonitorIntervalUnit>(alloc, given),
        "MonitorCheckInStatus" => {
            let status = MonitorCheckInStatus::from_word(given);
            list(alloc, [text(alloc, status.as_str())])
        }
        "SpanStatus" => word::<SpanStatus>(alloc, given),
        "SessionStatus" => word::<SessionStatus>(alloc, given),
        "SpanStatus::fmt" => printed::<SpanStatus>(alloc, given),
        "SessionStatus::fmt" => printed::<SessionStatus>(alloc, given),
        "AttachmentType" => of_attachment_type(alloc, given),
        "Unit" => said_of(alloc, unit_of(alloc, given), of_unit),
        "Unit::from(Cow)" => of_cow(alloc, given),
        _ => return None,
    })
}

fn said_place(alloc: Global, word: &str, index: usize) -> Result<Value, AllocError> {
    list(alloc, [text(alloc, word), as_tree(index as u64)])
}

/// The word of a place in a list of variants, and the variant's index.
pub fn of_place(alloc: Global, name: &str, place: usize) -> Option<Result<Value, AllocError>> {
    Some(match name {
        "Category::VARIANTS" => match Category::VARIANTS.get(place) {
            Some(found) => said_place(alloc, found.as_str(), found.as_index()),
            None => none(alloc),
        },
        "Reason::VARIANTS" => match Reason::VARIANTS.get(place) {
            Some(found) => said_place(alloc, found.as_str(), found.as_index()),
            None => none(alloc),
        },
        _ => return None,
    })
}
