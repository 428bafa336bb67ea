//! The buffer of a writer: bytes, of which the first ones count.

ghost use Rattle.std.specs.Prelude.{◌≡◌, ◌+◌, ◌-◌, ◌<◌, ◌≤◌, [], ◌∷◌, ◌++◌, length, take, cond, min, vec_len, vec_capacity, OnOk, OnErr};
ghost use Rattle.sentry_json.specs.Filled.{Appends};

use crate::writer::place::{place_byte, place_comma, place_known, place_short, place_text};
use std::alloc::AllocError;
use std::marker::Model;

// What is cleared ahead at once: as much as the buffer holds, between these two.
const LEAST_AHEAD: usize = 1024;

const MOST_AHEAD: usize = 16 * 1024;

static ZEROS: [u8; 1024] = [0; 1024];

// A buffer. What lies behind the bytes that count is cleared ahead, so that a token is stored after
// one test.
#[derive(Drop)]
pub(super) struct Buffer {
    bytes: Vec<u8>,
    len: usize,
}

impl Model for Buffer {
    ghost use Rattle.std.specs.Prelude.{◌-◌, ◌≤◌, length, take, vec_capacity};
    ghost use Rattle.json.specs.Filled.{Filled, filled_code};

    ghost Value = { Filled };

    ghost coded = { filled_code };

    ghost view = { λ b. record {
      items = take b.len b.bytes.items;
      spare = vec_capacity b.bytes - b.len;
      ready = length b.bytes.items - b.len;
    } };

    ghost invariant = { λ b. b.len ≤ length b.bytes.items };
}

impl Buffer {
    pub(super) fn new(bytes: Vec<u8>) -> Buffer
        ensures items { result.items ≡ bytes.items }
        ensures spare { result.spare ≡ vec_capacity bytes - vec_len bytes }
    {
        let len = bytes.len();
        Buffer { bytes, len }
    }

    pub(super) fn into_vec(self) -> Vec<u8>
        ensures { result.items ≡ self.items }
    {
        let Buffer { mut bytes, len } = self;
        bytes.truncate(len);
        bytes
    }

    #[inline(always)]
    pub(super) fn len(&self) -> usize
        ensures { result ≡ length self.now.items }
    {
        self.len
    }

    // Returns how many bytes may be stored with no test.
    #[inline(always)]
    pub(super) fn ready(&self) -> usize
        ensures { result ≡ self.now.ready }
    {
        self.bytes.len() - self.len
    }

    // Drops the bytes behind the first `len`.
    pub(super) fn truncate(&mut self, len: usize)
        ensures items { self.new.items ≡ take len self.old.items }
        ensures room { length self.old.items + self.old.spare
            ≤ length self.new.items + self.new.spare }
    {
        if len < self.len {
            self.len = len;
        }
    }

    // Makes `count` bytes ready.
    #[inline(always)]
    pub(super) fn reserve(&mut self, count: usize) -> Result<(), AllocError>
        ensures items { self.new.items ≡ self.old.items }
        ensures kept { self.old.spare ≤ self.new.spare }
        ensures ready { OnOk result (count ≤ self.new.ready) }
        ensures missing { OnErr result (self.old.spare < count) }
    {
        if count <= self.ready() {
            return Ok(());
        }
        self.grow(count)
    }

    #[cold]
    #[inline(never)]
    fn grow(&mut self, count: usize) -> Result<(), AllocError>
        requires { self.old.ready < count }
        ensures items { self.new.items ≡ self.old.items }
        ensures kept { self.old.spare ≤ self.new.spare }
        ensures ready { OnOk result (count ≤ self.new.ready) }
        ensures missing { OnErr result (self.old.spare < count) }
    {
        let missing = count - self.ready();
        self.bytes.reserve(missing)?;
        let ahead = self.bytes.len().clamp(LEAST_AHEAD, MOST_AHEAD);
        clear(&mut self.bytes, ahead.max(missing));
        Ok(())
    }

    // Appends a comma if one is wanted, and a text whose length is known where it is inlined.
    #[inline(always)]
    pub(super) fn put_known(&mut self, comma: bool, text: &[u8])
        requires { length text.now + 1 ≤ self.old.ready }
        ensures { Appends self.old self.new (cond comma (44 ∷ []) [] ++ text.now) }
    {
        let buffer = self.bytes.as_mut_slice();
        let at = place_comma(buffer, self.len, comma);
        self.len = place_known(buffer, at, text);
    }

    // As `put_known`, with any text.
    #[inline(always)]
    pub(super) fn put_text(&mut self, comma: bool, text: &[u8])
        requires { length text.now + 1 ≤ self.old.ready }
        ensures { Appends self.old self.new (cond comma (44 ∷ []) [] ++ text.now) }
    {
        let buffer = self.bytes.as_mut_slice();
        let at = place_comma(buffer, self.len, comma);
        self.len = place_text(buffer, at, text);
    }

    // As `put_known`, with a text of at most 32 bytes.
    #[inline(always)]
    pub(super) fn put_short(&mut self, comma: bool, text: &[u8])
        requires short { length text.now ≤ 32 }
        requires room { length text.now + 1 ≤ self.old.ready }
        ensures { Appends self.old self.new (cond comma (44 ∷ []) [] ++ text.now) }
    {
        let buffer = self.bytes.as_mut_slice();
        let at = place_comma(buffer, self.len, comma);
        self.len = place_short(buffer, at, text);
    }

    // As `put_known`, with any text between a quote and `close`.
    #[inline(always)]
    pub(super) fn quote(&mut self, comma: bool, text: &[u8], close: &[u8])
        requires { length text.now + length close.now + 2 ≤ self.old.ready }
        ensures { Appends self.old self.new
            (cond comma (44 ∷ []) [] ++ 34 ∷ (text.now ++ close.now)) }
    {
        let buffer = self.bytes.as_mut_slice();
        let at = place_comma(buffer, self.len, comma);
        let at = place_byte(buffer, at, b'"');
        let at = place_text(buffer, at, text);
        self.len = place_known(buffer, at, close);
    }

    // Appends a text.
    #[inline(always)]
    pub(super) fn push(&mut self, text: &[u8])
        requires { length text.now ≤ self.old.ready }
        ensures appended { Appends self.old self.new text.now }
        ensures ready { self.new.ready + length text.now ≡ self.old.ready }
    {
        self.len = place_text(self.bytes.as_mut_slice(), self.len, text);
    }
}

// Appends `count` zeros, or as many as need no allocation.
fn clear(bytes: &mut Vec<u8>, count: usize)
    ensures front { take (vec_len bytes.old) bytes.new.items ≡ bytes.old.items }
    ensures capacity { vec_capacity bytes.old ≤ vec_capacity bytes.new }
    ensures len { min (vec_len bytes.old + count) (vec_capacity bytes.old) ≤ vec_len bytes.new }
{
    let mut left = count.min(bytes.capacity() - bytes.len());
    while left > 0 {
        let step = left.min(ZEROS.len());
        if bytes.extend_from_slice(&ZEROS[..step]).is_err() {
            unreachable!();
        }
        left -= step;
    }
}
