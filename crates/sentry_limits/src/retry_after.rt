//! Seconds and HTTP dates of rate limits.

ghost use Rattle.std.specs.Prelude.{◌≡◌, ◌≤◌, ◌+◌, IfSome};
ghost use Rattle.sentry_tables.specs.Lawful.{last_second};
ghost use Rattle.sentry_limits.specs.RetryAfter.{IsRetryAfter, ReadsDelay, RetriesAt, end_after as end_of, rounded_up as rounded};

use httpdate::HttpDate;
use sentry_moments::Moment;

// The last second of the year 9999.
pub(crate) const LAST_SECOND: u64 = 253_402_300_799;

// Seconds of a limit that states none.
const DEFAULT: u64 = 60;

// Returns the seconds since 1970, rounded up.
fn rounded_up(moment: Moment) -> u64
    ensures value { result ≡ rounded moment.secs moment.nanos }
    ensures bound { result ≤ last_second + 1 }
{
    if moment.nanos() == 0 {
        moment.secs()
    } else {
        moment.secs() + 1
    }
}

// Parses a decimal of seconds, rounded up.
fn delay(text: &str) -> Option<u64>
    ensures read { ReadsDelay text.now result }
    ensures bound { IfSome result (λ n. n ≤ last_second + 1) }
{
    let seconds = Moment::from_decimal(text)?;
    Some(rounded_up(seconds))
}

// Returns the seconds of a limit.
pub(crate) fn retry_after(text: &str) -> u64
    ensures value { IsRetryAfter text.now result }
    ensures bound { result ≤ last_second + 1 }
{
    delay(text).unwrap_or(DEFAULT)
}

// Returns the second in which a limit of so many seconds ends.
pub(crate) fn end_after(now: Moment, seconds: u64) -> u64
    requires { seconds ≤ last_second + 1 }
    ensures { result ≡ end_of now seconds }
{
    (rounded_up(now) + seconds).min(LAST_SECOND)
}

// Returns the second at which the value of `Retry-After` ends a limit.
pub(crate) fn retry_at(text: &str, now: Moment) -> u64
    ensures { RetriesAt now text.now result }
{
    if let Some(seconds) = delay(text) {
        return end_after(now, seconds);
    }
    match HttpDate::parse_ascii(text.as_bytes()) {
        Ok(date) => date.unix_secs(),
        Err(_) => end_after(now, DEFAULT),
    }
}
