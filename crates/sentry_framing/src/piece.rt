//! The length of a balanced piece: a `{`, balanced content, and its `}`.
ghost use Rattle.std.specs.Prelude.{◌≡◌, ◌≤◌, ◌++◌, List, ℕ, IfSome, IfNone, length, map, take};
ghost use Rattle.std.specs.Simd.Lanes.{mask_l};
ghost use Rattle.sentry_json.specs.Balanced.{IsBalanced, IsStringEnd};
ghost use Rattle.sentry_framing.specs.Quotes.{is_stop, quotes};

use std::simd::prelude::*;

/// Returns the length of the balanced piece at the front, if any. Any bytes may follow the piece.
pub fn piece_len(bytes: &[u8]) -> Option<usize>
    ensures within { IfSome result (λ len. len ≤ length bytes.now) }
    ensures found { IfSome result (λ len. IsBalanced (take len bytes.now)) }
    ensures none { IfNone result ((piece rest : List ℕ) → IsBalanced piece →
        bytes.now ≡ piece ++ rest → ⊥) }
{
    flat_len(bytes).or_else(|| nested_len(bytes))
}

// A fast path for pieces without braces and backslashes inside; `None` for all others, even if
// these bytes are in a string. The quotes are counted on the way, since a second pass would cost as
// much as the first.
fn flat_len(bytes: &[u8]) -> Option<usize>
    ensures within { IfSome result (λ len. len ≤ length bytes.now) }
    ensures found { IfSome result (λ len. IsBalanced (take len bytes.now)) }
{
    let Some((b'{', inside)) = bytes.split_first() else {
        return None;
    };
    let mut quotes = 0;
    let mut end = 0;
    while inside.len() - end >= 16 {
        let lanes = u8x16::from_slice(&inside[end..]);
        let found = stops(lanes);
        if found != 0 {
            let flat = found.trailing_zeros() as usize;
            quotes += quotes_in(lanes, flat);
            end += flat;
            break;
        }
        quotes += quotes_in(lanes, 16);
        end += 16;
    }
    while end < inside.len() && !is_stop(inside[end]) {
        if inside[end] == b'"' {
            quotes += 1;
        }
        end += 1;
    }
    if end < inside.len() && inside[end] == b'}' && quotes % 2 == 0 {
        Some(end + 2)
    } else {
        None
    }
}

fn is_stop(byte: u8) -> bool
    ensures { result ≡ is_stop byte }
{
    matches!(byte, b'{' | b'}' | b'\\')
}

// The lanes with a brace or a backslash.
#[inline(always)]
fn stops(lanes: u8x16) -> u64
    ensures { result ≡ mask_l (map is_stop lanes) }
{
    (lanes.simd_eq(u8x16::splat(b'{'))
        | lanes.simd_eq(u8x16::splat(b'}'))
        | lanes.simd_eq(u8x16::splat(b'\\'))).to_bitmask()
}

// The number of quotes in the first lanes.
#[inline(always)]
fn quotes_in(lanes: u8x16, len: usize) -> usize
    requires { len ≤ 16 }
    ensures { result ≡ quotes (take len lanes) }
{
    let found = lanes.simd_eq(u8x16::splat(b'"')).to_bitmask();
    (found % (1 << len)).count_ones() as usize
}

// Finds any balanced piece, byte by byte.
fn nested_len(bytes: &[u8]) -> Option<usize>
    ensures within { IfSome result (λ len. len ≤ length bytes.now) }
    ensures found { IfSome result (λ len. IsBalanced (take len bytes.now)) }
    ensures none { IfNone result ((piece rest : List ℕ) → IsBalanced piece →
        bytes.now ≡ piece ++ rest → ⊥) }
{
    let Some((b'{', inside)) = bytes.split_first() else {
        return None;
    };
    let mut depth = 0usize;
    let mut i = 0usize;
    while i < inside.len() {
        match inside[i] {
            b'"' => i += string_len(&inside[i + 1..])? + 1,
            b'{' => {
                depth += 1;
                i += 1;
            }
            b'}' if depth == 0 => return Some(i + 2),
            b'}' => {
                depth -= 1;
                i += 1;
            }
            _ => i += 1,
        }
    }
    None
}

// The length of a string after its opening quote, with its closing quote.
fn string_len(bytes: &[u8]) -> Option<usize>
    ensures within { IfSome result (λ len. len ≤ length bytes.now) }
    ensures found { IfSome result (λ len. IsStringEnd (take len bytes.now)) }
    ensures none { IfNone result ((end rest : List ℕ) → IsStringEnd end → bytes.now ≡ end ++ rest →
        ⊥) }
{
    let mut i = 0usize;
    while i < bytes.len() {
        match bytes[i] {
            b'"' => return Some(i + 1),
            b'\\' if bytes.len() - i > 1 => i += 2,
            b'\\' => return None,
            _ => i += 1,
        }
    }
    None
}
