//! Runs of a string's bytes that stand for themselves and are ASCII.

ghost use Rattle.std.specs.Prelude.{◌≡◌, ◌≤◌, ◌+◌, map, length, drop};
ghost use Rattle.std.specs.List.{prefix_len};
ghost use Rattle.std.specs.Simd.Lanes.{mask_l};
ghost use Rattle.sentry_forward.specs.Runs.{ends_run, is_in_run};

use std::simd::prelude::*;

// The lanes at which a run ends.
#[inline(always)]
fn stops(lanes: u8x16) -> u64
    ensures { result ≡ mask_l (map ends_run lanes) }
{
    (lanes.simd_eq(u8x16::splat(b'"'))
        | lanes.simd_eq(u8x16::splat(b'\\'))
        | lanes.simd_lt(u8x16::splat(0x20))
        | u8x16::splat(0x7f).simd_lt(lanes)).to_bitmask()
}

// Returns where the run that goes on at `from` ends: byte by byte, for the last bytes of a text.
fn short_run_end(bytes: &[u8], from: usize) -> usize
    requires { from ≤ length bytes.now }
    ensures { result ≡ from + prefix_len is_in_run (drop from bytes.now) }
{
    let mut i = from;
    while i < bytes.len()
        && bytes[i] != b'"'
        && bytes[i] != b'\\'
        && bytes[i] >= 0x20
        && bytes[i] <= 0x7f
    {
        i += 1;
    }
    i
}

/// Returns how many bytes stand before the first quote, backslash, control byte or byte that isn't
/// ASCII.
#[inline(always)]
pub(crate) fn run_len(bytes: &[u8]) -> usize
    ensures value { result ≡ prefix_len is_in_run bytes.now }
    ensures within { result ≤ length bytes.now }
{
    let mut i = 0;
    while bytes.len() - i >= 16 {
        let found = stops(u8x16::from_slice(&bytes[i..]));
        if found != 0 {
            return i + found.trailing_zeros() as usize;
        }
        i += 16;
    }
    short_run_end(bytes, i)
}
