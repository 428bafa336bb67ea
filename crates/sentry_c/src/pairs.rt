//! Pairs of texts that stand one after another in the caller's memory.

ghost use Rattle.std.specs.Prelude.{◌≡◌, ◌≢◌, ◌+◌, ◌<◌, ◌++◌, IfNone, IfOk, IfSome, MatchOption, length, map};
ghost use Rattle.sentry_c.specs.Making.{AreJoined, AreTexts, both, pair_of, total};

use sentry_framing::ItemFrame;
use sentry_types::protocol::v7::TextMember;
use std::alloc::{AllocError, Global};
use std::str;

/// The lengths of two texts that stand one after the other, in bytes.
#[derive(Clone, Copy)]
#[repr(C)]
pub struct CurdmesaPair {
    /// Length of the first text.
    pub first: u64,
    /// Length of the second text.
    pub second: u64,
}

// Splits off a pair: both texts, and what follows. `None` if they are longer than the texts.
fn split_pair<'a>(texts: &'a [u8], lengths: &CurdmesaPair) -> Option<(&'a [u8], &'a [u8], &'a [u8])>
    ensures parts { IfSome result (λ x. texts.now ≡ x.0.now ++ (x.1.now ++ x.2.now)) }
    ensures first { IfSome result (λ x. length x.0.now ≡ lengths.now.first) }
    ensures second { IfSome result (λ x. length x.1.now ≡ lengths.now.second) }
    ensures none { IfNone result (length texts.now < lengths.now.first + lengths.now.second) }
{
    let (first, rest) = texts.split_at_checked(lengths.first as usize)?;
    let (second, rest) = rest.split_at_checked(lengths.second as usize)?;
    Some((first, second, rest))
}

/// Returns the pairs of such lengths, as items of a header and a payload. `None` if the lengths
/// don't add up to that of the texts.
pub fn items_of<'a>(
    alloc: Global,
    texts: &'a [u8],
    lengths: &[CurdmesaPair],
) -> Result<Option<Vec<ItemFrame<'a>>>, AllocError>
    ensures { IfOk result (λ found. MatchOption found (length texts.now ≢ total lengths.now)
        (λ items. AreJoined texts.now lengths.now (map both items.items))) }
{
    let mut items = Vec::new(alloc);
    let mut left = texts;
    for pair in lengths {
        let Some((header, payload, rest)) = split_pair(left, pair) else {
            return Ok(None);
        };
        items.push(ItemFrame { header, payload })?;
        left = rest;
    }
    if !left.is_empty() {
        return Ok(None);
    }
    Ok(Some(items))
}

/// Returns pairs as members of a key and a text. `None` if not all are UTF-8.
pub fn members_of<'a>(
    alloc: Global,
    pairs: &[ItemFrame<'a>],
) -> Result<Option<Vec<TextMember<'a>>>, AllocError>
    ensures { IfOk result (λ found. MatchOption found (¬ AreTexts (map both pairs.now))
        (λ members. map pair_of members.items ≡ map both pairs.now)) }
{
    let mut members = Vec::new(alloc);
    for pair in pairs {
        let Ok(key) = str::from_utf8(pair.header) else {
            return Ok(None);
        };
        let Ok(value) = str::from_utf8(pair.payload) else {
            return Ok(None);
        };
        members.push(TextMember { key, value })?;
    }
    Ok(Some(members))
}
