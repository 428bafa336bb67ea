//! Item headers of a type and perhaps a length, and nothing else, as clients write most of them.

ghost use Rattle.std.specs.Prelude.{◌≡◌, ◌++◌, ◌∷◌, IfSome, List, Some, ℕ};
ghost use Rattle.sentry_json.specs.Balanced.{IsBalanced};
ghost use Rattle.sentry_framing.specs.HeaderView.{short_header};
ghost use Rattle.sentry_framing.specs.ItemHeader.{read_header};
ghost use Rattle.sentry_framing.specs.ItemWords.{item_words, kind_word};

use crate::kind::ItemKind;
use sentry_json::leading_integer;

// What stands before the word of the type.
const FRONT: &[u8] = b"{\"type\":\"";

// Returns what follows these bytes at the front; `None` if others stand there.
#[inline(always)]
fn after<'a>(bytes: &'a [u8], front: &[u8]) -> Option<&'a [u8]>
    ensures { IfSome result (λ rest. bytes.now ≡ front.now ++ rest.now) }
{
    let (begin, rest) = bytes.split_at_checked(front.len())?;
    if begin == front { Some(rest) } else { None }
}

// Splits off the word of a type whose headers mostly have no more than a length, and its closing
// quote.
#[inline(always)]
fn split_kind(bytes: &[u8]) -> Option<(ItemKind, &[u8])>
    ensures { IfSome result (λ x. bytes.now ≡ kind_word x.0 ++ 34 ∷ x.1.now) }
{
    if let Some(rest) = after(bytes, b"event\"") {
        return Some((ItemKind::Event, rest));
    }
    if let Some(rest) = after(bytes, b"transaction\"") {
        return Some((ItemKind::Transaction, rest));
    }
    if let Some(rest) = after(bytes, b"session\"") {
        return Some((ItemKind::SessionUpdate, rest));
    }
    if let Some(rest) = after(bytes, b"sessions\"") {
        return Some((ItemKind::SessionAggregates, rest));
    }
    if let Some(rest) = after(bytes, b"check_in\"") {
        return Some((ItemKind::MonitorCheckIn, rest));
    }
    let rest = after(bytes, b"client_report\"")?;
    Some((ItemKind::ClientReport, rest))
}

/// Splits a header off the front of a body: its type, its length if it states one, and what follows
/// the header. `None` if no such header stands there; there may be another.
#[inline(always)]
pub(crate) fn split_short(body: &[u8]) -> Option<(ItemKind, Option<u64>, &[u8])>
    ensures { IfSome result (λ x. (header : List ℕ) × (body.now ≡ header ++ x.2.now)
        × IsBalanced header × (read_header item_words header ≡ Some (short_header x.0 x.1))) }
{
    // Attachments have a name too. Their first letter is asked for before anything else.
    if let Some(b'a') = body.get(FRONT.len()) {
        return None;
    }
    let word = after(body, FRONT)?;
    let (kind, rest) = split_kind(word)?;
    if let Some(rest) = after(rest, b"}") {
        return Some((kind, None, rest));
    }
    let digits = after(rest, b",\"length\":")?;
    let (length, len) = leading_integer(digits)?;
    let rest = after(&digits[len..], b"}")?;
    Some((kind, Some(length), rest))
}
