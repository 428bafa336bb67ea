//! Rate limits in the caller's memory.

ghost use Rattle.std.specs.Prelude.{◌≡◌, ◌≢◌, ◌⊎◌, IfSome, IfNone, None, length, slice_get};
ghost use Rattle.std.specs.Str.{IsUtf8};
ghost use Rattle.sentry_moments.specs.Rfc3339.{IsMomentTime};
ghost use Rattle.sentry_reports.specs.Categories.{categories, category_index};
ghost use Rattle.sentry_reports.specs.declared.category.Category.{Category as Categories};
ghost use Rattle.sentry_ledger.specs.FrameLosses.{category_of_type as category_of};
ghost use Rattle.sentry_limits.specs.RateLimits.{category_end, item_end};
ghost use Rattle.sentry_c.specs.Limits.{HoldsBackRow, HoldsRow, HoldsStated, IsHeldOf, UpdatesRow, limits_of};

use crate::ledger::category_at;
use crate::status::{INVALID_ARGUMENT, NO_MOMENT, NOT_UTF8, OK};
use sentry_limits::rate_limits::ENDS;
use sentry_types::protocol::v7::client_report::category_of_type;
use sentry_types::protocol::v7::{Moment, RateLimits};
use std::str;

// Returns the limits of a row of ends; `None` if it has another length than `ENDS`.
fn limits_in(row: &[u64]) -> Option<RateLimits>
    ensures found { IfSome result (λ limits. limits ≡ limits_of row.now) }
    ensures long { IfSome result (λ limits. length row.now ≡ ENDS) }
    ensures none { IfNone result (length row.now ≢ ENDS) }
{
    if row.len() != ENDS {
        return None;
    }
    let mut ends = [0; ENDS];
    ends.copy_from_slice(row);
    Some(RateLimits::from_ends(ends))
}

fn hold(held: &mut RateLimits, text: &str, now: Moment, retry_after: bool)
    ensures { IsHeldOf retry_after text.now now held.old held.new }
{
    if retry_after {
        held.update_retry_after(text, now);
    } else {
        held.update(text, now);
    }
}

// Holds the limits that the value of a header states, beside those that are held.
fn hold_row(
    limits: &mut [u64],
    text: &[u8],
    now_secs: u64,
    now_nanos: u32,
    retry_after: bool,
) -> i32
    ensures held { result ≡ OK →
        HoldsRow retry_after text.now now_secs now_nanos limits.old limits.new }
    ensures not_utf8 { result ≡ NOT_UTF8 → ¬ IsUtf8 text.now }
    ensures utf8 { result ≡ OK → IsUtf8 text.now }
    ensures moment { result ≡ NO_MOMENT → ¬ IsMomentTime now_secs now_nanos }
    ensures argument { result ≡ INVALID_ARGUMENT → length limits.old ≢ ENDS }
    ensures long { result ≢ INVALID_ARGUMENT → length limits.old ≡ ENDS }
    ensures unchanged { result ≢ OK → limits.new ≡ limits.old }
    ensures answers { (result ≡ OK) ⊎ ((result ≡ NOT_UTF8) ⊎ ((result ≡ NO_MOMENT) ⊎
        (result ≡ INVALID_ARGUMENT))) }
{
    let Some(mut held) = limits_in(limits) else {
        return INVALID_ARGUMENT;
    };
    let Some(now) = Moment::new(now_secs, now_nanos) else {
        return NO_MOMENT;
    };
    let Ok(text) = str::from_utf8(text) else {
        return NOT_UTF8;
    };
    hold(&mut held, text, now, retry_after);
    limits.copy_from_slice(&held.ends());
    OK
}

/// Holds the rate limits that the value of an `X-Sentry-Rate-Limits` header states, beside those that
/// are held.
///
/// # Returns
///
/// - `OK` if the limits are held.
/// - `NOT_UTF8` if the header isn't UTF-8.
/// - `NO_MOMENT` if the seconds and nanoseconds are no moment.
/// - `INVALID_ARGUMENT` if there are other than [`ENDS`] limits.
#[unsafe(no_mangle)]
pub extern "C" fn curdmesa_limits_update(
    limits: &mut [u64],
    header: &[u8],
    now_secs: u64,
    now_nanos: u32,
) -> i32
    ensures { HoldsStated UpdatesRow header.now now_secs now_nanos limits.old limits.new result }
{
    hold_row(limits, header, now_secs, now_nanos, false)
}

/// Holds a limit of all categories that the value of a `Retry-After` header states, beside those that
/// are held.
///
/// # Returns
///
/// - `OK` if the limit is held.
/// - `NOT_UTF8` if the header isn't UTF-8.
/// - `NO_MOMENT` if the seconds and nanoseconds are no moment.
/// - `INVALID_ARGUMENT` if there are other than [`ENDS`] limits.
#[unsafe(no_mangle)]
pub extern "C" fn curdmesa_limits_retry_after(
    limits: &mut [u64],
    text: &[u8],
    now_secs: u64,
    now_nanos: u32,
) -> i32
    ensures { HoldsStated HoldsBackRow text.now now_secs now_nanos limits.old limits.new result }
{
    hold_row(limits, text, now_secs, now_nanos, true)
}

/// Tells until when a category is limited.
///
/// # Returns
///
/// - `OK` if `end` was set: the second since 1970 in which the later of the limits of the category
///   and of all categories ends, 0 if there is none.
/// - `INVALID_ARGUMENT` if there are other than [`ENDS`] limits, or no category has the number.
#[unsafe(no_mangle)]
pub extern "C" fn curdmesa_limits_category_end(limits: &[u64], category: u32, end: &mut u64) -> i32
    ensures told { result ≡ OK → (c : Categories) × (category_index c ≡ category)
        × (end.new ≡ category_end (limits_of limits.now) c) }
    ensures argument { result ≡ INVALID_ARGUMENT → (length limits.now ≢ ENDS) ⊎
        (slice_get categories category ≡ None) }
    ensures long { result ≡ OK → length limits.now ≡ ENDS }
    ensures unchanged { result ≢ OK → end.new ≡ end.old }
    ensures answers { (result ≡ OK) ⊎ (result ≡ INVALID_ARGUMENT) }
{
    let Some(held) = limits_in(limits) else {
        return INVALID_ARGUMENT;
    };
    let Some(category) = category_at(category) else {
        return INVALID_ARGUMENT;
    };
    *end = held.category_end(category);
    OK
}

/// Tells until when items of a type are limited, by its word.
///
/// # Returns
///
/// - `OK` if `end` was set: the second since 1970 in which the last limit of the type's category
///   ends, or that of all categories; 0 if there is none.
/// - `NOT_UTF8` if the word isn't UTF-8.
/// - `INVALID_ARGUMENT` if there are other than [`ENDS`] limits.
#[unsafe(no_mangle)]
pub extern "C" fn curdmesa_limits_item_end(limits: &[u64], word: &[u8], end: &mut u64) -> i32
    ensures told { result ≡ OK →
        end.new ≡ item_end (limits_of limits.now) (category_of word.now) }
    ensures not_utf8 { result ≡ NOT_UTF8 → ¬ IsUtf8 word.now }
    ensures utf8 { result ≡ OK → IsUtf8 word.now }
    ensures argument { result ≡ INVALID_ARGUMENT → length limits.now ≢ ENDS }
    ensures long { result ≢ INVALID_ARGUMENT → length limits.now ≡ ENDS }
    ensures unchanged { result ≢ OK → end.new ≡ end.old }
    ensures answers { (result ≡ OK) ⊎ ((result ≡ NOT_UTF8) ⊎ (result ≡ INVALID_ARGUMENT)) }
{
    let Some(held) = limits_in(limits) else {
        return INVALID_ARGUMENT;
    };
    let Ok(word) = str::from_utf8(word) else {
        return NOT_UTF8;
    };
    *end = held.item_end(category_of_type(word));
    OK
}
