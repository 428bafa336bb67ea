//! The clock and the seed.

ghost use Rattle.std.specs.Prelude.{◌≡◌, ◌<◌, ◌≤◌, ◌^◌, ◌/◌, ◌%◌};
ghost use Rattle.std.specs.Duration.{as_nanos};
ghost use Rattle.sentry_tables.specs.Lawful.{last_second};

use sentry_moments::Moment;
use std::rt::Clock;
use std::time::{Duration, SystemTime, UNIX_EPOCH};

/// Returns the time since 1970; zero if the clock can't be read.
pub fn time_since_1970(rt: &impl Clock) -> Duration {
    match SystemTime::now(rt) {
        Ok(time) => time.duration_since(UNIX_EPOCH).unwrap_or(Duration::ZERO),
        Err(_) => Duration::ZERO,
    }
}

/// Returns the moment this long after 1970; second 0 past the year 9999.
pub fn moment_after(time: Duration) -> Moment
    ensures within { as_nanos time / 10 ^ 9 ≤ last_second →
        (result.secs ≡ as_nanos time / 10 ^ 9) × (result.nanos ≡ as_nanos time % 10 ^ 9) }
    ensures beyond { last_second < as_nanos time / 10 ^ 9 → (result.secs ≡ 0) ×
        (result.nanos ≡ 0) }
{
    moment_at(time.as_secs(), time.subsec_nanos())
}

// Returns the moment of these seconds and nanoseconds; second 0 if there is none.
fn moment_at(secs: u64, nanos: u32) -> Moment
    ensures within { secs ≤ last_second → nanos < 10 ^ 9 → (result.secs ≡ secs) ×
        (result.nanos ≡ nanos) }
    ensures beyond { last_second < secs → (result.secs ≡ 0) × (result.nanos ≡ 0) }
{
    match Moment::new(secs, nanos) {
        Some(moment) => moment,
        None => Moment::new(0, 0).unwrap(),
    }
}

/// Returns the seed of the generator of ids at this time.
pub fn seed_at(time: Duration) -> u64 {
    time.as_secs()
        .wrapping_mul(1_000_000_000)
        .wrapping_add(u64::from(time.subsec_nanos()))
}
