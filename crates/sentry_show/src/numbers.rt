//! Numbers and times as people read them.

use sentry_moments::Moment;
use std::alloc::{AllocError, Global};

/// Returns a number with commas between groups of three digits.
pub fn grouped(alloc: Global, number: u64) -> Result<String, AllocError> {
    let digits = format!(in alloc; "{number}")?;
    let mut text = String::new(alloc);
    let mut left = digits.len();
    for digit in digits.chars() {
        text.push(digit)?;
        left = left.saturating_sub(1);
        if left % 3 == 0 && left > 0 {
            text.push(',')?;
        }
    }
    Ok(text)
}

/// Returns the time between two moments, in nanoseconds; 0 if the second comes first.
pub fn nanos_between(start: Moment, end: Moment) -> u64 {
    nanos_of(end).saturating_sub(nanos_of(start))
}

// Nanoseconds since 1970, at most 2^64-1, in the year 2554.
fn nanos_of(moment: Moment) -> u64 {
    moment
        .secs()
        .saturating_mul(1_000_000_000)
        .saturating_add(u64::from(moment.nanos()))
}

/// Returns a time in the largest unit of s, ms and µs that it fills, with a digit behind the point
/// where it has one before.
pub fn time_text(alloc: Global, nanos: u64) -> Result<String, AllocError> {
    let (unit, name) = if nanos >= 1_000_000_000 {
        (1_000_000_000, "s")
    } else if nanos >= 1_000_000 {
        (1_000_000, "ms")
    } else {
        (1_000, "µs")
    };
    let whole = nanos / unit;
    if nanos == 0 {
        String::from_str(alloc, "0 ms")
    } else if whole < 10 {
        let tenths = nanos % unit / (unit / 10);
        format!(in alloc; "{whole}.{tenths} {name}")
    } else {
        let whole = grouped(alloc, whole)?;
        format!(in alloc; "{whole} {name}")
    }
}
