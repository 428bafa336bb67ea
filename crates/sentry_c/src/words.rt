//! The words of item types, categories and reasons, by their numbers.

ghost use Rattle.std.specs.Prelude.{◌≡◌, ◌≢◌, ◌⊎◌, None, slice_get};
ghost use Rattle.std.specs.Str.{IsUtf8};
ghost use Rattle.sentry_framing.specs.ItemWords.{item_kinds, kind_of_word, kind_place, kind_word};
ghost use Rattle.sentry_reports.specs.Categories.{categories, category_index, category_of, category_word, reasons, reason_index, reason_of, reason_word};
ghost use Rattle.sentry_c.specs.Output.{IsTooLong, Puts};
ghost use Rattle.sentry_c.specs.Words.{IsNumberOf, IsWordAt};

use crate::frames::number_of;
use crate::ledger::{category_at, reason_at};
use crate::output::deliver;
use crate::status::{INVALID_ARGUMENT, INVALID_TEXT, NO_ROOM, NOT_UTF8, OK};
use sentry_tables::Word;
use sentry_types::IndexedEnum;
use sentry_types::protocol::v7::ItemKind;
use sentry_types::protocol::v7::client_report::{Category, Reason};
use std::str;

fn kind_at(number: u32) -> Option<ItemKind>
    ensures { result ≡ slice_get item_kinds number }
{
    ItemKind::ALL.get(number as usize).copied()
}

/// Writes the word of an item type to `out`.
///
/// # Returns
///
/// - `OK` if the word was written; `needed` is its length.
/// - `NO_ROOM` if the word is longer than `out`; `needed` is its length.
/// - `INVALID_ARGUMENT` if no item type has the number.
#[unsafe(no_mangle)]
pub extern "C" fn curdmesa_item_word(kind: u32, out: &mut [u8], needed: &mut u64) -> i32
    ensures written { result ≡ OK →
        Puts (IsWordAt item_kinds kind_word kind) out.old out.new needed.new }
    ensures no_room { result ≡ NO_ROOM →
        IsTooLong (IsWordAt item_kinds kind_word kind) out.old needed.new }
    ensures argument { result ≡ INVALID_ARGUMENT → slice_get item_kinds kind ≡ None }
    ensures unchanged { result ≢ OK → out.new ≡ out.old }
    ensures no_text { result ≢ OK → result ≢ NO_ROOM → needed.new ≡ 0 }
    ensures answers { (result ≡ OK) ⊎ ((result ≡ NO_ROOM) ⊎ (result ≡ INVALID_ARGUMENT)) }
{
    *needed = 0;
    match kind_at(kind) {
        Some(found) if deliver(found.as_str().as_bytes(), out, needed) => OK,
        Some(_) => NO_ROOM,
        None => INVALID_ARGUMENT,
    }
}

/// Writes the word of a category to `out`.
///
/// # Returns
///
/// - `OK` if the word was written; `needed` is its length.
/// - `NO_ROOM` if the word is longer than `out`; `needed` is its length.
/// - `INVALID_ARGUMENT` if no category has the number.
#[unsafe(no_mangle)]
pub extern "C" fn curdmesa_category_word(category: u32, out: &mut [u8], needed: &mut u64) -> i32
    ensures written { result ≡ OK →
        Puts (IsWordAt categories category_word category) out.old out.new needed.new }
    ensures no_room { result ≡ NO_ROOM →
        IsTooLong (IsWordAt categories category_word category) out.old needed.new }
    ensures argument { result ≡ INVALID_ARGUMENT → slice_get categories category ≡ None }
    ensures unchanged { result ≢ OK → out.new ≡ out.old }
    ensures no_text { result ≢ OK → result ≢ NO_ROOM → needed.new ≡ 0 }
    ensures answers { (result ≡ OK) ⊎ ((result ≡ NO_ROOM) ⊎ (result ≡ INVALID_ARGUMENT)) }
{
    *needed = 0;
    match category_at(category) {
        Some(found) if deliver(found.as_str().as_bytes(), out, needed) => OK,
        Some(_) => NO_ROOM,
        None => INVALID_ARGUMENT,
    }
}

/// Writes the word of a reason to `out`.
///
/// # Returns
///
/// - `OK` if the word was written; `needed` is its length.
/// - `NO_ROOM` if the word is longer than `out`; `needed` is its length.
/// - `INVALID_ARGUMENT` if no reason has the number.
#[unsafe(no_mangle)]
pub extern "C" fn curdmesa_reason_word(reason: u32, out: &mut [u8], needed: &mut u64) -> i32
    ensures written { result ≡ OK →
        Puts (IsWordAt reasons reason_word reason) out.old out.new needed.new }
    ensures no_room { result ≡ NO_ROOM →
        IsTooLong (IsWordAt reasons reason_word reason) out.old needed.new }
    ensures argument { result ≡ INVALID_ARGUMENT → slice_get reasons reason ≡ None }
    ensures unchanged { result ≢ OK → out.new ≡ out.old }
    ensures no_text { result ≢ OK → result ≢ NO_ROOM → needed.new ≡ 0 }
    ensures answers { (result ≡ OK) ⊎ ((result ≡ NO_ROOM) ⊎ (result ≡ INVALID_ARGUMENT)) }
{
    *needed = 0;
    match reason_at(reason) {
        Some(found) if deliver(found.as_str().as_bytes(), out, needed) => OK,
        Some(_) => NO_ROOM,
        None => INVALID_ARGUMENT,
    }
}

/// Finds the number of the item type that a word names.
///
/// # Returns
///
/// - `OK` if `kind` was set.
/// - `INVALID_TEXT` if no item type has the word.
/// - `NOT_UTF8` if the bytes aren't UTF-8.
#[unsafe(no_mangle)]
pub extern "C" fn curdmesa_item_of_word(word: &[u8], kind: &mut u32) -> i32
    ensures found { result ≡ OK → IsNumberOf (kind_of_word word.now) kind_place kind.new }
    ensures invalid { result ≡ INVALID_TEXT → kind_of_word word.now ≡ None }
    ensures not_utf8 { result ≡ NOT_UTF8 → ¬ IsUtf8 word.now }
    ensures utf8 { result ≢ NOT_UTF8 → IsUtf8 word.now }
    ensures unchanged { result ≢ OK → kind.new ≡ kind.old }
    ensures answers { (result ≡ OK) ⊎ ((result ≡ INVALID_TEXT) ⊎ (result ≡ NOT_UTF8)) }
{
    let Ok(word) = str::from_utf8(word) else {
        return NOT_UTF8;
    };
    let Some(found) = ItemKind::from_word(word) else {
        return INVALID_TEXT;
    };
    *kind = number_of(found);
    OK
}

/// Finds the number of the category that a word names.
///
/// # Returns
///
/// - `OK` if `category` was set.
/// - `INVALID_TEXT` if no category has the word.
/// - `NOT_UTF8` if the bytes aren't UTF-8.
#[unsafe(no_mangle)]
pub extern "C" fn curdmesa_category_of_word(word: &[u8], category: &mut u32) -> i32
    ensures found { result ≡ OK → IsNumberOf (category_of word.now) category_index category.new }
    ensures invalid { result ≡ INVALID_TEXT → category_of word.now ≡ None }
    ensures not_utf8 { result ≡ NOT_UTF8 → ¬ IsUtf8 word.now }
    ensures utf8 { result ≢ NOT_UTF8 → IsUtf8 word.now }
    ensures unchanged { result ≢ OK → category.new ≡ category.old }
    ensures answers { (result ≡ OK) ⊎ ((result ≡ INVALID_TEXT) ⊎ (result ≡ NOT_UTF8)) }
{
    let Ok(word) = str::from_utf8(word) else {
        return NOT_UTF8;
    };
    let Some(found) = Category::of_word(word) else {
        return INVALID_TEXT;
    };
    *category = found.as_index() as u32;
    OK
}

/// Finds the number of the reason that a word names.
///
/// # Returns
///
/// - `OK` if `reason` was set.
/// - `INVALID_TEXT` if no reason has the word.
/// - `NOT_UTF8` if the bytes aren't UTF-8.
#[unsafe(no_mangle)]
pub extern "C" fn curdmesa_reason_of_word(word: &[u8], reason: &mut u32) -> i32
    ensures found { result ≡ OK → IsNumberOf (reason_of word.now) reason_index reason.new }
    ensures invalid { result ≡ INVALID_TEXT → reason_of word.now ≡ None }
    ensures not_utf8 { result ≡ NOT_UTF8 → ¬ IsUtf8 word.now }
    ensures utf8 { result ≢ NOT_UTF8 → IsUtf8 word.now }
    ensures unchanged { result ≢ OK → reason.new ≡ reason.old }
    ensures answers { (result ≡ OK) ⊎ ((result ≡ INVALID_TEXT) ⊎ (result ≡ NOT_UTF8)) }
{
    let Ok(word) = str::from_utf8(word) else {
        return NOT_UTF8;
    };
    let Some(found) = Reason::of_word(word) else {
        return INVALID_TEXT;
    };
    *reason = found.as_index() as u32;
    OK
}
