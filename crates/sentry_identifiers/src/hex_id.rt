//! Bytes that are written as hex digits.

ghost use Rattle.std.specs.Prelude.{◌≡◌, ◌*◌, ◌≤◌, length};
ghost use Rattle.hex.specs.Hex.{decode_sized, encode_lower};

use hex::{FromHex, FromHexError};
use sentry_tables::Room;
use std::str;

// Reads two digits for each byte, in any case.
pub(crate) fn read_bytes<const N: usize>(text: &str) -> Result<[u8; N], FromHexError>
    ensures { result ≡ decode_sized text.now N }
{
    <[u8; N]>::from_hex(text)
}

// The two digits of each byte, one byte after the other.
static TWO_DIGITS: [u8; 512] = *b"\
    000102030405060708090a0b0c0d0e0f101112131415161718191a1b1c1d1e1f\
    202122232425262728292a2b2c2d2e2f303132333435363738393a3b3c3d3e3f\
    404142434445464748494a4b4c4d4e4f505152535455565758595a5b5c5d5e5f\
    606162636465666768696a6b6c6d6e6f707172737475767778797a7b7c7d7e7f\
    808182838485868788898a8b8c8d8e8f909192939495969798999a9b9c9d9e9f\
    a0a1a2a3a4a5a6a7a8a9aaabacadaeafb0b1b2b3b4b5b6b7b8b9babbbcbdbebf\
    c0c1c2c3c4c5c6c7c8c9cacbcccdcecfd0d1d2d3d4d5d6d7d8d9dadbdcdddedf\
    e0e1e2e3e4e5e6e7e8e9eaebecedeeeff0f1f2f3f4f5f6f7f8f9fafbfcfdfeff";

// Writes two digits in lower case for each byte, and returns them.
pub(crate) fn write_bytes<'a>(bytes: &[u8], digits: &'a mut [u8]) -> &'a str
    requires { length digits.old ≡ 2 * length bytes.now }
    ensures { result.now ≡ encode_lower bytes.now }
{
    for (place, byte) in bytes.iter().enumerate() {
        let pair = 2 * usize::from(*byte);
        digits[2 * place] = TWO_DIGITS[pair];
        digits[2 * place + 1] = TWO_DIGITS[pair + 1];
    }
    // SAFETY: the digits are ASCII.
    unsafe { str::from_utf8_unchecked(digits) }
}

// Writes the digits of at most 16 bytes into `room`, and returns them.
#[tactic(auto, using(crate::proofs::Lengths::hex_id_fits))]
pub(crate) fn digits_in<'a>(bytes: &[u8], room: &'a mut Room) -> &'a str
    requires { length bytes.now ≤ 16 }
    ensures { result.now ≡ encode_lower bytes.now }
{
    let mut digits = [0; 32];
    room.clear();
    room.push_str(write_bytes(bytes, &mut digits[..2 * bytes.len()]));
    room.as_str()
}
