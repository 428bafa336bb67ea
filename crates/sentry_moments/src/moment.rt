//! Moments (timestamps), and their RFC 3339 and decimal texts.

ghost use Rattle.std.specs.Prelude.{ℕ, ◌≡◌, ◌↔◌, ◌≤◌, ◌<◌, ◌^◌, ◌*◌, ◌+◌, ◌/◌, IsSome, IfSome, IsSomeAnd, IfOk, Some, pos, string_bytes};
ghost use Rattle.sentry_tables.specs.Lawful.{last_second};
ghost use Rattle.sentry_moments.specs.Decimal.{IsDecimal, Billionths, decimal_text};
ghost use Rattle.sentry_moments.specs.Rfc3339.{IsMomentTime, IsRfc3339, date_text, clock_text};
ghost use Rattle.sentry_moments.specs.MomentTexts.{civil_at, day_after, rfc3339_text};
ghost use Rattle.sentry_moments.specs.MomentPlaces.{end_of, with_places};

use crate::decimal::{self, Decimal};
use crate::digits::{last_digit, two_digits};
use crate::fraction::places;
use crate::rfc3339;
use jiff_core::civil::Date;
use std::alloc::{AllocError, Global};
use std::{fmt, str};

/// A point in time, to the nanosecond, from 1970-01-01T00:00:00Z to 9999-12-31T23:59:59.999999999Z.
///
/// Moments are compared by their seconds, then by their nanoseconds, and printed as RFC 3339 texts.
#[derive(Clone, Copy, Debug, PartialEq, Eq, PartialOrd, Ord, Hash)]
pub struct Moment {
    secs: u64,
    nanos: u32,
    pub ghost secs_in_range: { secs ≤ last_second },
    pub ghost nanos_in_range: { nanos < 10 ^ 9 },
}

// Length of an RFC 3339 text in UTC with nine places, the longest.
pub(crate) const LONGEST: usize = 30;

// The last second of the year 9999.
const LAST_SECOND: u64 = 253_402_300_799;

// Nanoseconds from the beginning of 1970 to the end of the year 9999.
const ALL_BILLIONTHS: u128 = 253_402_300_800_000_000_000;

impl Moment {
    /// Returns the moment `secs` seconds and `nanos` nanoseconds after 1970-01-01T00:00:00Z.
    ///
    /// `None` past the year 9999, and if `nanos` is 10^9 or more.
    pub fn new(secs: u64, nanos: u32) -> Option<Moment>
        ensures exactly { IsSome result ↔ ((secs ≤ last_second) × (nanos < 10 ^ 9)) }
        ensures same { IfSome result (λ m. (m.secs ≡ secs) × (m.nanos ≡ nanos)) }
    {
        if secs <= LAST_SECOND && nanos < 1_000_000_000 {
            Some(Moment { secs, nanos })
        } else {
            None
        }
    }

    // Calls `Moment::new` with seconds that may be negative; `None` if they are.
    fn from_signed(secs: i64, nanos: u32) -> Option<Moment>
        requires { nanos < 10 ^ 9 }
        ensures found { IfSome result (λ m. (pos m.secs ≡ secs) × (m.nanos ≡ nanos)) }
        ensures only { (s : ℕ) → pos s ≡ secs → s ≤ last_second →
            IsSomeAnd result (λ m. (m.secs ≡ s) × (m.nanos ≡ nanos)) }
    {
        if secs < 0 {
            return None;
        }
        Moment::new(secs as u64, nanos)
    }

    /// Returns the whole seconds since 1970-01-01T00:00:00Z.
    pub fn secs(&self) -> u64
        ensures { result ≡ self.now.secs }
    {
        self.secs
    }

    /// Returns the nanoseconds within the second; below 10^9.
    pub fn nanos(&self) -> u32
        ensures { result ≡ self.now.nanos }
    {
        self.nanos
    }

    /// Parses an RFC 3339 text.
    ///
    /// The date and the time are separated by `T`, `t` or one space. An optional fraction has one
    /// digit or more and is truncated to nine. The text ends with `Z`, `z` or an offset such as
    /// `+01:00` or `-01:00`.
    ///
    /// `None` for any other text, for second 60, for a date that the calendar doesn't have, and for
    /// a moment before 1970 or past the year 9999. Doesn't allocate.
    ///
    /// <https://www.rfc-editor.org/rfc/rfc3339>
    pub fn from_rfc3339(text: &str) -> Option<Moment>
        ensures found { IfSome result (λ m. IsRfc3339 text.now m.secs m.nanos) }
        ensures only { (secs nanos : ℕ) → IsRfc3339 text.now secs nanos →
            IsSomeAnd result (λ m. (m.secs ≡ secs) × (m.nanos ≡ nanos)) }
    {
        let (secs, nanos) = rfc3339::read(text.as_bytes())?;
        Moment::from_signed(secs, nanos)
    }

    /// Returns the RFC 3339 text in UTC, such as `2020-07-20T14:51:14.296Z`; the fraction has no
    /// trailing zeros, and is omitted if 0.
    ///
    /// # Errors
    ///
    /// `AllocError` if an allocation fails.
    pub fn to_rfc3339(&self, alloc: Global) -> Result<String, AllocError>
        ensures { IfOk result (λ t. string_bytes t ≡ rfc3339_text self.now.secs self.now.nanos) }
    {
        self.to_string(alloc)
    }

    /// Parses a decimal text of seconds since 1970-01-01T00:00:00Z, truncated to nanoseconds.
    ///
    /// `None` if the text is no decimal, is below 0, or is past the year 9999. Doesn't allocate.
    pub fn from_decimal(text: &str) -> Option<Moment>
        ensures found { IfSome result (λ m.
            IsDecimal text.now (Billionths (m.secs * 10 ^ 9 + m.nanos))) }
        ensures only { (secs nanos : ℕ) → IsMomentTime secs nanos →
            IsDecimal text.now (Billionths (secs * 10 ^ 9 + nanos)) →
            IsSomeAnd result (λ m. (m.secs ≡ secs) × (m.nanos ≡ nanos)) }
    {
        let billionths = decimal::read(text, ALL_BILLIONTHS).ok()?;
        let (secs, nanos) = (billionths / 1_000_000_000, billionths % 1_000_000_000);
        Moment::new(secs as u64, nanos as u32)
    }

    /// Returns the seconds since 1970-01-01T00:00:00Z as a decimal text of at most nine places,
    /// without trailing zeros.
    ///
    /// # Errors
    ///
    /// `AllocError` if an allocation fails.
    pub fn to_decimal(&self, alloc: Global) -> Result<String, AllocError>
        ensures { IfOk result (λ t. string_bytes t ≡ decimal_text self.now.secs self.now.nanos) }
    {
        let seconds = Decimal {
            whole: self.secs,
            billionths: self.nanos,
        };
        seconds.to_string(alloc)
    }

    // Returns the date in UTC. 1970-01-01 is 4_371_587 days after the first date, -9999-01-01.
    fn day(&self) -> Day
        ensures year { result.year ≡ (day_after (self.now.secs / 86_400)).year }
        ensures month { result.month ≡ (day_after (self.now.secs / 86_400)).month }
        ensures day { result.day ≡ (day_after (self.now.secs / 86_400)).day }
    {
        let date = Date::from_days_since_min((self.secs / 86_400) as u32 + 4_371_587);
        Day {
            year: date.year as u16,
            month: date.month,
            day: date.day,
        }
    }

    // Returns the date and the time in UTC with nine places, such as
    // `2020-07-20T14:51:14.296000000Z`.
    #[inline(always)]
    #[tactic(auto, using(crate::proofs::Padding::four_digits, crate::proofs::Padding::two_digits, crate::proofs::Padding::last_two_digits, crate::proofs::Padding::nine_digits), unfolding(crate::specs::Rfc3339::date_text, crate::specs::Rfc3339::clock_text))]
    fn with_nine_places(&self) -> [u8; LONGEST]
        ensures { result ≡ with_places (civil_at self.now.secs) self.now.nanos }
    {
        let date = self.day();
        let year = u32::from(date.year);
        let year = (two_digits(year / 100 % 100), two_digits(year % 100));
        let month = two_digits(u32::from(date.month) % 100);
        let day = two_digits(u32::from(date.day) % 100);
        let hour = two_digits((self.secs % 86_400 / 3_600) as u32);
        let minute = two_digits((self.secs % 3_600 / 60) as u32);
        let second = two_digits((self.secs % 60) as u32);
        let place_1 = last_digit(self.nanos / 100_000_000);
        let places_2_3 = two_digits(self.nanos / 1_000_000 % 100);
        let places_4_5 = two_digits(self.nanos / 10_000 % 100);
        let places_6_7 = two_digits(self.nanos / 100 % 100);
        let places_8_9 = two_digits(self.nanos % 100);
        [
            year.0.0,
            year.0.1,
            year.1.0,
            year.1.1,
            b'-',
            month.0,
            month.1,
            b'-',
            day.0,
            day.1,
            b'T',
            hour.0,
            hour.1,
            b':',
            minute.0,
            minute.1,
            b':',
            second.0,
            second.1,
            b'.',
            place_1,
            places_2_3.0,
            places_2_3.1,
            places_4_5.0,
            places_4_5.1,
            places_6_7.0,
            places_6_7.1,
            places_8_9.0,
            places_8_9.1,
            b'Z',
        ]
    }

    // Returns how many bytes the text has before its `Z`.
    fn end(&self) -> usize
        ensures { result ≡ end_of self.now.nanos }
    {
        if self.nanos == 0 {
            return 19;
        }
        20 + places(self.nanos)
    }

    // Writes the RFC 3339 text in UTC into `room`, and returns it.
    pub(crate) fn text<'a>(&self, room: &'a mut [u8; LONGEST]) -> &'a str
        ensures { result.now ≡ rfc3339_text self.now.secs self.now.nanos }
    {
        *room = self.with_nine_places();
        let end = self.end();
        room[end] = b'Z';
        // SAFETY: the text is ASCII.
        unsafe { str::from_utf8_unchecked(&room[..end + 1]) }
    }
}

// A calendar date.
#[derive(Drop)]
struct Day {
    year: u16,
    month: u8,
    day: u8,
}

impl fmt::Display for Moment {
    ghost output = { λ m. Some (rfc3339_text m.secs m.nanos) };

    fn fmt<W: fmt::Write>(&self, f: &mut fmt::Formatter<W>) -> fmt::Result {
        let mut room = [0; LONGEST];
        f.write_str(self.text(&mut room))
    }
}
