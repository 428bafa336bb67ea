//! Moments and sampling values.

use crate::said::{as_tree, list, none, owned, refused, shown};
use sentry_types::protocol::v7::{Moment, SampleRand, SampleRate, Value};
use std::alloc::{AllocError, Global};

/// The seconds and nanoseconds of a moment and its texts.
pub fn of_moment(alloc: Global, found: Option<Moment>) -> Result<Value, AllocError> {
    let Some(moment) = found else {
        return none(alloc);
    };
    list(
        alloc,
        [
            as_tree(moment.secs()),
            as_tree(moment.nanos()),
            owned(moment.to_rfc3339(alloc)),
            shown(alloc, &moment),
            owned(moment.to_decimal(alloc)),
        ],
    )
}

/// The billionths of a sampling value and its text.
pub fn of_rand<E: std::fmt::Display>(
    alloc: Global,
    found: &Result<SampleRand, E>,
) -> Result<Value, AllocError> {
    match found {
        Ok(value) => list(alloc, [as_tree(value.billionths()), shown(alloc, value)]),
        Err(error) => refused(alloc, error),
    }
}

fn of_rate(alloc: Global, given: &str) -> Result<Value, AllocError> {
    match given.parse::<SampleRate>() {
        Ok(rate) => list(alloc, [as_tree(rate.0), shown(alloc, &rate)]),
        Err(error) => refused(alloc, &error),
    }
}

/// What a text of a moment or of a sampling value is read as.
pub fn of_moment_text(alloc: Global, name: &str, given: &str) -> Option<Result<Value, AllocError>> {
    Some(match name {
        "Moment::from_rfc3339" => of_moment(alloc, Moment::from_rfc3339(given)),
        "Moment::from_decimal" => of_moment(alloc, Moment::from_decimal(given)),
        "SampleRand" => of_rand(alloc, &given.parse::<SampleRand>()),
        "SampleRate" => of_rate(alloc, given),
        _ => return None,
    })
}
