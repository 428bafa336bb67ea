//! Copies of texts, quick for short ones.

ghost use Rattle.std.specs.Prelude.{◌≡◌, ◌+◌, ◌<◌, ◌≤◌, length};

use std::simd::Simd;

// Copies a text of N to 2 N bytes as its first and its last N, which may overlap.
#[inline(always)]
fn copy_ends<const N: usize>(to: &mut [u8], text: &[u8])
    requires same { length to.old ≡ length text.now }
    requires long { N ≤ length text.now }
    requires covered { length text.now ≤ N + N }
    ensures { to.new ≡ text.now }
{
    let at = text.len() - N;
    let first = Simd::<u8, N>::from_slice(text);
    let last = Simd::<u8, N>::from_slice(&text[at..]);
    first.copy_to_slice(to);
    last.copy_to_slice(&mut to[at..]);
}

// Copies a text of 32 bytes or more.
#[inline(always)]
fn copy_long(to: &mut [u8], text: &[u8])
    requires same { length to.old ≡ length text.now }
    requires long { 32 ≤ length text.now }
    ensures { to.new ≡ text.now }
{
    let mut at = 0;
    while text.len() - at > 64 {
        Simd::<u8, 32>::from_slice(&text[at..]).copy_to_slice(&mut to[at..]);
        at += 32;
    }
    copy_ends::<32>(&mut to[at..], &text[at..]);
}

// Copies a text of fewer than 16 bytes.
#[inline(always)]
fn copy_small(to: &mut [u8], text: &[u8])
    requires same { length to.old ≡ length text.now }
    requires small { length text.now < 16 }
    ensures { to.new ≡ text.now }
{
    let len = text.len();
    if len >= 8 {
        copy_ends::<8>(to, text);
    } else if len >= 4 {
        copy_ends::<4>(to, text);
    } else if len >= 2 {
        copy_ends::<2>(to, text);
    } else if len == 1 {
        to[0] = text[0];
    }
}

// Copies a text of at most 32 bytes into a slice of its length.
#[inline(always)]
pub(super) fn copy_short(to: &mut [u8], text: &[u8])
    requires same { length to.old ≡ length text.now }
    requires short { length text.now ≤ 32 }
    ensures { to.new ≡ text.now }
{
    if text.len() < 16 {
        copy_small(to, text);
    } else {
        copy_ends::<16>(to, text);
    }
}

// Copies a text into a slice of its length.
#[inline(always)]
pub(super) fn copy_text(to: &mut [u8], text: &[u8])
    requires { length to.old ≡ length text.now }
    ensures { to.new ≡ text.now }
{
    if text.len() < 16 {
        copy_small(to, text);
    } else if text.len() <= 32 {
        copy_ends::<16>(to, text);
    } else {
        copy_long(to, text);
    }
}
