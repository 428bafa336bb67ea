//! Whether a text needs no escape in a string: it has no quote, no backslash and no control byte.

ghost use Rattle.std.specs.Prelude.{◌≡◌, ◌+◌, ◌-◌, ◌<◌, ◌≤◌, ◌++◌, length, take, drop};
ghost use Rattle.std.specs.Bool.{OnTrue};
ghost use Rattle.json.specs.Print.{escape};
ghost use Rattle.json.specs.Written.{PlainBetween};

use std::simd::prelude::*;

// Whether N bytes need no escape.
#[inline(always)]
fn is_plain_at<const N: usize>(text: &[u8], at: usize) -> bool
    requires few { N ≤ 64 }
    requires room { at + N ≤ length text.now }
    ensures { OnTrue result (PlainBetween text.now at (at + N)) }
{
    let lanes = Simd::<u8, N>::from_slice(&text[at..]);
    (lanes.simd_eq(Simd::splat(b'"'))
        | lanes.simd_eq(Simd::splat(b'\\'))
        | lanes.simd_lt(Simd::splat(0x20))).to_bitmask()
        == 0
}

// Stores the first N bytes of a text and behind them its last N.
#[inline(always)]
fn store_ends<const N: usize>(ends: &mut [u8], text: &[u8])
    requires room { length ends.old ≡ N + N }
    requires long { N ≤ length text.now }
    ensures { ends.new ≡ take N text.now ++ drop (length text.now - N) text.now }
{
    let at = text.len() - N;
    Simd::<u8, N>::from_slice(text).copy_to_slice(ends);
    Simd::<u8, N>::from_slice(&text[at..]).copy_to_slice(&mut ends[N..]);
}

// Whether N to 2 N bytes need no escape: both ends, which may overlap, are tested as one vector.
#[inline(always)]
fn has_plain_ends<const N: usize, const M: usize>(text: &[u8]) -> bool
    requires twice { M ≡ N + N }
    requires few { M ≤ 64 }
    requires long { N ≤ length text.now }
    requires covered { length text.now ≤ M }
    ensures { OnTrue result (PlainBetween text.now 0 (length text.now)) }
{
    let mut ends = [0_u8; M];
    store_ends::<N>(&mut ends[..], text);
    is_plain_at::<M>(&ends[..], 0)
}

// Whether a few bytes need no escape.
#[inline(always)]
fn are_plain(text: &[u8]) -> bool
    ensures { OnTrue result (PlainBetween text.now 0 (length text.now)) }
{
    for &byte in text {
        if byte == b'"' || byte == b'\\' || byte < 0x20 {
            return false;
        }
    }
    true
}

// Whether 32 bytes and more need no escape.
#[inline(always)]
fn is_long_plain(text: &[u8]) -> bool
    requires { 32 ≤ length text.now }
    ensures { OnTrue result (PlainBetween text.now 0 (length text.now)) }
{
    let mut at = 0;
    while text.len() - at > 32 {
        if !is_plain_at::<32>(text, at) {
            return false;
        }
        at += 32;
    }
    is_plain_at::<32>(text, text.len() - 32)
}

// Whether fewer than 16 bytes need no escape.
#[inline(always)]
fn is_small_plain(text: &[u8]) -> bool
    requires { length text.now < 16 }
    ensures { OnTrue result (PlainBetween text.now 0 (length text.now)) }
{
    if text.len() >= 8 {
        has_plain_ends::<8, 16>(text)
    } else if text.len() >= 4 {
        has_plain_ends::<4, 8>(text)
    } else {
        are_plain(text)
    }
}

// Whether a text of any length needs no escape.
#[inline(always)]
fn is_plain_to_its_end(text: &[u8]) -> bool
    ensures { OnTrue result (PlainBetween text.now 0 (length text.now)) }
{
    if text.len() < 16 {
        is_small_plain(text)
    } else if text.len() <= 32 {
        has_plain_ends::<16, 32>(text)
    } else {
        is_long_plain(text)
    }
}

// Returns whether a text stands in a string as it is.
#[inline(always)]
#[tactic(auto, using(json::proofs::Printed::Plain::escape_on_plain))]
pub(super) fn is_plain(text: &[u8]) -> bool
    ensures { OnTrue result (escape text.now ≡ text.now) }
{
    is_plain_to_its_end(text)
}
