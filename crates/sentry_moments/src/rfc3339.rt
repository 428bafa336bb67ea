//! Parses RFC 3339 texts: a date and a time at fixed places, and then a fraction and an offset.
ghost use Rattle.std.specs.Prelude.{ℤ, ℕ, ◌≡◌, ◌↔◌, ◌+◌, ◌*◌, ◌<◌, ◌≤◌, ◌+ℤ◌, ◌-ℤ◌, ◌*ℤ◌, ◌∷◌, pos, neg_ℤ, length, IsTrue, Some, IsSome, IfSome, option_map};
ghost use Rattle.std.specs.Char.{is_ascii_digit};
ghost use Rattle.std.specs.List.{prefix_len};
ghost use Rattle.jiff_core.specs.Calendar.{IsCivilDate, IsEpochDay, IsBetween, IsWithin, days_from_civil};
ghost use Rattle.sentry_moments.specs.Characters.{plus_sign};
ghost use Rattle.sentry_moments.specs.Digits.{front_digits};
ghost use Rattle.sentry_moments.specs.Rfc3339Parts as spec;
ghost use Rattle.sentry_moments.specs.Rfc3339 as texts;

use crate::digits::digits_len;
use jiff_core::civil::Date;
use std::simd::prelude::*;

// How many bytes a date and a time take, such as `2020-07-20T14:51:14`.
const LEN: usize = 19;

// The lowest byte at each place to the minute. Any byte passes between the date and the time.
const LOWEST: [u8; 16] = *b"0000-00-00\x0000:00";

// How far above it a byte may lie.
const ABOVE: [u8; 16] = [9, 9, 9, 9, 0, 9, 9, 0, 9, 9, 255, 9, 9, 0, 5, 9];

// Returns whether digits and separators stand where a date and a time have them, with a minute and
// a second below 60.
#[inline(always)]
fn has_form(text: &[u8]) -> bool
    requires { length text.now ≡ 19 }
    ensures { IsTrue result ↔ spec.HasForm text.now }
{
    let above_lowest = u8x16::from_slice(text) - u8x16::from_array(LOWEST);
    if above_lowest.simd_gt(u8x16::from_array(ABOVE)).to_bitmask() != 0 {
        return false;
    }
    matches!(
        (text[10], text[16], text[17], text[18]),
        (b'T' | b't' | b' ', b':', b'0'..=b'5', b'0'..=b'9')
    )
}

// Returns the number that two digits write.
#[inline(always)]
fn number_at(text: &[u8], place: usize) -> u32
    requires within { place + 1 < length text.now }
    requires tens { spec.HasDigit text.now place }
    requires ones { spec.HasDigit text.now (place + 1) }
    ensures value { result ≡ spec.number_at text.now place }
    ensures bound { result < 100 }
{
    u32::from(text[place]) * 10 + u32::from(text[place + 1]) - 11 * u32::from(b'0')
}

// Returns the days from 1970-01-01 to a date; `None` if the calendar doesn't have the date.
#[inline(always)]
fn day_number(year: u16, month: u8, day: u8) -> Option<i32>
    requires year_in { year < 10_000 }
    requires month_in { month < 100 }
    requires day_in { day < 100 }
    ensures found { IfSome result (λ number.
        IsCivilDate (pos year) month day × (number ≡ days_from_civil (pos year) month day)) }
    ensures only { IsCivilDate (pos year) month day → IsSome result }
    ensures bound { IfSome result IsEpochDay }
{
    let date = Date::new(year as i16, month as i8, day as i8).ok()?;
    Some(date.to_unix_epoch_day())
}

// Parses a date and a time: the days since 1970-01-01, and the seconds since midnight.
#[inline(always)]
fn date_and_time(text: &[u8]) -> Option<(i32, u32)>
    requires { length text.now ≡ 19 }
    ensures found { IfSome result (λ p. spec.IsDateAndTime text.now p.0 p.1) }
    ensures only { (day : ℤ) (second : ℕ) → spec.IsDateAndTime text.now day second → IsSome result }
    ensures bound { IfSome result (λ p. IsEpochDay p.0 × (p.1 < 86_400)) }
{
    if !has_form(text) {
        return None;
    }
    let year = number_at(text, 0) * 100 + number_at(text, 2);
    let day = day_number(
        year as u16,
        number_at(text, 5) as u8,
        number_at(text, 8) as u8,
    )?;
    let hour = number_at(text, 11);
    if hour >= 24 {
        return None;
    }
    Some((
        day,
        hour * 3_600 + number_at(text, 14) * 60 + number_at(text, 17),
    ))
}

// What a digit counts for at each place of a fraction, in nanoseconds.
const WORTH: [u32; 9] = [
    100_000_000,
    10_000_000,
    1_000_000,
    100_000,
    10_000,
    1_000,
    100,
    10,
    1,
];

// Reads the digits of a fraction: the nanoseconds that the first nine write, and how many digits
// there are.
#[inline(always)]
fn fraction_digits(text: &[u8]) -> (u32, usize)
    ensures value { result.0 ≡ texts.nanoseconds (front_digits text.now) }
    ensures bound { result.0 < 1_000_000_000 }
    ensures count { result.1 ≡ prefix_len is_ascii_digit text.now }
    ensures some { result.1 ≡ 0 ↔ length (front_digits text.now) ≡ 0 }
    ensures within { result.1 ≤ length text.now }
{
    let mut nanos = 0;
    for place in 0..9 {
        if place == text.len() || !text[place].is_ascii_digit() {
            return (nanos, place);
        }
        nanos += u32::from(text[place] - b'0') * WORTH[place];
    }
    (nanos, 9 + digits_len(&text[9..]))
}

// Reads an optional fraction, as nanoseconds.
#[inline(always)]
#[tactic(auto, unfolding(crate::specs::Rfc3339Parts::fraction))]
fn fraction(text: &[u8]) -> Option<(u32, &[u8])>
    ensures value { option_map (λ p. (p.0, p.1.now)) result ≡ spec.fraction text.now }
    ensures bound { IfSome result (λ p. p.0 < 1_000_000_000) }
{
    let [b'.', rest @ ..] = text else {
        return Some((0, text));
    };
    let (nanos, count) = fraction_digits(rest);
    if count == 0 {
        return None;
    }
    Some((nanos, &rest[count..]))
}

// Returns whether a text has the form of `01:00`, with a minute below 60.
#[inline(always)]
fn is_hour_and_minute(text: &[u8]) -> bool
    ensures { IsTrue result ↔ spec.IsHourAndMinute text.now }
{
    matches!(
        text,
        [b'0'..=b'2', b'0'..=b'9', b':', b'0'..=b'5', b'0'..=b'9',]
    )
}

// Parses the rest of an offset, in seconds.
fn hour_and_minute(text: &[u8]) -> Option<i32>
    ensures found { IfSome result (texts.IsZone (plus_sign ∷ text.now)) }
    ensures only { (offset : ℤ) → texts.IsZone (plus_sign ∷ text.now) offset → IsSome result }
    ensures bound { IfSome result (IsBetween (pos 0) (pos 86_399)) }
{
    if !is_hour_and_minute(text) {
        return None;
    }
    let hour = number_at(text, 0);
    if hour >= 24 {
        return None;
    }
    Some((hour * 3_600 + number_at(text, 3) * 60) as i32)
}

// Parses `Z`, `z` or an offset, as the seconds that the clock is ahead of UTC.
#[inline(always)]
fn zone(text: &[u8]) -> Option<i32>
    ensures found { IfSome result (texts.IsZone text.now) }
    ensures only { (offset : ℤ) → texts.IsZone text.now offset → IsSome result }
    ensures bound { IfSome result (IsBetween (neg_ℤ (pos 86_399)) (pos 86_399)) }
{
    match text {
        [b'Z' | b'z'] => Some(0),
        [b'+', rest @ ..] => hour_and_minute(rest),
        [b'-', rest @ ..] => Some(-hour_and_minute(rest)?),
        _ => None,
    }
}

// Returns the seconds since 1970-01-01T00:00:00Z of a local time `offset` seconds ahead of UTC.
#[inline(always)]
fn seconds(day: i32, second: u32, offset: i32) -> i64
    requires day_in { IsEpochDay day }
    requires second_in { second < 86_400 }
    requires offset_in { IsBetween (neg_ℤ (pos 86_399)) (pos 86_399) offset }
    ensures value { result ≡ day *ℤ pos 86_400 +ℤ pos second -ℤ offset }
    ensures bound { IsWithin 1_000_000_000_000 result }
{
    i64::from(day) * 86_400 + i64::from(second) - i64::from(offset)
}

// Parses an RFC 3339 text: the seconds since 1970-01-01T00:00:00Z, which are negative before 1970,
// and the nanoseconds.
pub(crate) fn read(text: &[u8]) -> Option<(i64, u32)>
    ensures found { IfSome result (λ p. spec.IsMomentText text.now p.0 p.1) }
    ensures only { (secs : ℤ) (nanos : ℕ) → spec.IsMomentText text.now secs nanos →
        result ≡ Some (secs, nanos) }
    ensures bound { IfSome result (λ p. IsWithin 1_000_000_000_000 p.0 × (p.1 < 1_000_000_000)) }
{
    let (front, rest) = text.split_at_checked(LEN)?;
    let (day, second) = date_and_time(front)?;
    let (nanos, rest) = fraction(rest)?;
    let offset = zone(rest)?;
    Some((seconds(day, second, offset), nanos))
}
