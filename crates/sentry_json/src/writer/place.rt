//! Texts stored at a place of a buffer that has room for them.

ghost use Rattle.std.specs.Prelude.{◌+◌, ◌<◌, ◌≤◌, [], ◌∷◌, length, cond};
ghost use Rattle.json.specs.Filled.{Placed};

use crate::writer::copy::{copy_short, copy_text};

// Stores a comma, which counts only where one is wanted, so that there is no branch.
#[inline(always)]
pub(super) fn place_comma(buffer: &mut [u8], at: usize, wanted: bool) -> usize
    requires { at < length buffer.old }
    ensures { Placed buffer.old buffer.new at (cond wanted (44 ∷ []) []) result }
{
    buffer[at] = b',';
    if wanted { at + 1 } else { at }
}

// Stores a byte.
#[inline(always)]
pub(super) fn place_byte(buffer: &mut [u8], at: usize, byte: u8) -> usize
    requires { at < length buffer.old }
    ensures { Placed buffer.old buffer.new at (byte ∷ []) result }
{
    buffer[at] = byte;
    at + 1
}

// Stores a text whose length is known where the call is inlined.
#[inline(always)]
pub(super) fn place_known(buffer: &mut [u8], at: usize, text: &[u8]) -> usize
    requires { at + length text.now ≤ length buffer.old }
    ensures { Placed buffer.old buffer.new at text.now result }
{
    let end = at + text.len();
    buffer[at..end].copy_from_slice(text);
    end
}

// Stores a text of at most 32 bytes.
#[inline(always)]
pub(super) fn place_short(buffer: &mut [u8], at: usize, text: &[u8]) -> usize
    requires short { length text.now ≤ 32 }
    requires room { at + length text.now ≤ length buffer.old }
    ensures { Placed buffer.old buffer.new at text.now result }
{
    let end = at + text.len();
    copy_short(&mut buffer[at..end], text);
    end
}

// Stores a text.
#[inline(always)]
pub(super) fn place_text(buffer: &mut [u8], at: usize, text: &[u8]) -> usize
    requires { at + length text.now ≤ length buffer.old }
    ensures { Placed buffer.old buffer.new at text.now result }
{
    let end = at + text.len();
    copy_text(&mut buffer[at..end], text);
    end
}
