//! Texts that are built whole and then sent; large pieces of them are not copied.

ghost use Rattle.std.specs.Prelude.{◌≡◌, ◌+◌, ◌-◌, ◌^◌, ◌<◌, ◌++◌, IfOk, IfSome, OnOk, OnErr, length, map};
ghost use Rattle.std.specs.List.{concat};
ghost use Rattle.std.specs.Io.KnownBytes.{Appends};
ghost use Rattle.sentry_framing.specs.Sending.{AppendsFront};
ghost use Rattle.sentry_items.specs.Counted.{writer_failures, writer_inside};
ghost use Rattle.sentry_items.specs.Texts.{bytes_of};

use crate::counted::CountedWriter;
use sentry_framing::sending::{SendFailed, send_counting};
use std::alloc::{AllocError, Global};
use std::io::Write;
use std::mem;

// So many bytes are lent or moved: a copy costs more than a further piece. Buffered writers commonly
// hand on as many without a copy.
const LARGE: usize = 1 << 13;

// Bytes of the text's own, and then some that are lent.
#[derive(Drop)]
struct Part<'e> {
    own: Vec<u8>,
    lent: &'e [u8],
}

/// A text: its parts, and what follows the last one.
#[derive(Drop)]
pub struct Text<'e> {
    parts: Vec<Part<'e>>,
    /// What follows the last part.
    pub end: Vec<u8>,
}

impl<'e> Text<'e> {
    /// Creates a text of which nothing is lent.
    pub fn new(alloc: Global, end: Vec<u8>) -> Text<'e>
        ensures { bytes_of result ≡ end.items }
    {
        Text {
            parts: Vec::new(alloc),
            end,
        }
    }

    /// Creates a text of these bytes, which are lent if they are many. `AllocError` if an
    /// allocation fails.
    pub fn lent(alloc: Global, bytes: &'e [u8]) -> Result<Text<'e>, AllocError>
        ensures { IfOk result (λ text. bytes_of text ≡ bytes.now) }
    {
        let mut text = Text::new(alloc, Vec::new(alloc));
        text.lend(bytes)?;
        Ok(text)
    }

    /// Appends bytes, which are lent if they are many. `AllocError` if an allocation fails.
    pub fn lend(&mut self, bytes: &'e [u8]) -> Result<(), AllocError>
        ensures { OnOk result (bytes_of self.new ≡ bytes_of self.old ++ bytes.now) }
    {
        if bytes.len() < LARGE {
            return self.end.extend_from_slice(bytes);
        }
        let alloc = *self.end.allocator();
        let own = mem::replace(&mut self.end, Vec::new(alloc));
        self.parts.push(Part { own, lent: bytes })?;
        Ok(())
    }

    /// Appends the bytes of a buffer, which are moved out of it if they are many. `AllocError` if
    /// an allocation fails.
    pub fn take(&mut self, bytes: &mut Vec<u8>) -> Result<(), AllocError>
        ensures { OnOk result (bytes_of self.new ≡ bytes_of self.old ++ bytes.old.items) }
    {
        if bytes.len() < LARGE {
            return self.end.extend_from_slice(bytes);
        }
        let alloc = *self.end.allocator();
        let taken = mem::replace(bytes, Vec::new(alloc));
        let own = mem::replace(&mut self.end, taken);
        self.parts.push(Part { own, lent: &[] })?;
        Ok(())
    }

    /// Puts bytes before all others. `AllocError` if an allocation fails.
    pub fn put_before(&mut self, mut front: Vec<u8>) -> Result<(), AllocError>
        ensures { OnOk result (bytes_of self.new ≡ front.items ++ bytes_of self.old) }
    {
        if self.parts.is_empty() && self.end.len() < LARGE {
            front.extend_from_slice(&self.end)?;
            self.end = front;
            return Ok(());
        }
        let part = Part {
            own: front,
            lent: &[],
        };
        self.parts.insert(0, part)?;
        Ok(())
    }

    /// Returns how many bytes there are; `None` for 2^64 or more.
    pub fn len(&self) -> Option<usize>
        ensures value { IfSome result (λ len. length (bytes_of self.now) ≡ len) }
        ensures fits { IfSome result (λ len. length (bytes_of self.now) < 2 ^ 64) }
    {
        let mut len = self.end.len();
        for part in &self.parts {
            len = len
                .checked_add(part.own.len())?
                .checked_add(part.lent.len())?;
        }
        Some(len)
    }

    /// Returns the text as one vector of bytes. It is the end itself where there are no parts.
    /// `AllocError` if an allocation fails, or for 2^64 bytes or more.
    pub fn into_vec(self) -> Result<Vec<u8>, AllocError>
        ensures { IfOk result (λ bytes. bytes.items ≡ bytes_of self.entry) }
    {
        if self.parts.is_empty() {
            return Ok(self.end);
        }
        let len = self.len().ok_or(AllocError)?;
        let mut whole = Vec::with_capacity(*self.end.allocator(), len)?;
        for part in &self.parts {
            whole.extend_from_slice(&part.own)?;
            whole.extend_from_slice(part.lent)?;
        }
        whole.extend_from_slice(&self.end)?;
        Ok(whole)
    }

    /// Returns the text in pieces, in order, which aren't copied. `AllocError` if an allocation
    /// fails.
    pub fn pieces(&self, alloc: Global) -> Result<Vec<&[u8]>, AllocError>
        ensures { IfOk result (λ pieces.
            concat (map (λ piece. piece.now) pieces.items) ≡ bytes_of self.now) }
    {
        let mut pieces = Vec::new(alloc);
        for part in &self.parts {
            pieces.push(part.own.as_slice())?;
            pieces.push(part.lent)?;
        }
        pieces.push(self.end.as_slice())?;
        Ok(pieces)
    }

    // Writes the text to a writer, and counts a failure in `failures`.
    fn send_counting<W: Write>(&self, writer: &mut W, failures: &mut u64) -> Result<(), SendFailed>
        requires { failures.old < 2 ^ 64 - 1 }
        ensures whole { OnOk result (Appends (W.contents writer.old) (W.contents writer.new)
            (bytes_of self.now)) }
        ensures front { OnErr result (AppendsFront (W.contents writer.old)
            (W.contents writer.new) (bytes_of self.now)) }
        ensures no_failure { OnOk result (failures.new ≡ failures.old) }
        ensures one_failure { OnErr result (failures.new ≡ failures.old + 1) }
    {
        for part in &self.parts {
            send_counting(&part.own, writer, failures)?;
            send_counting(part.lent, writer, failures)?;
        }
        send_counting(&self.end, writer, failures)
    }

    /// Writes the text to a counted writer, as [`crate::counted::send`] does.
    pub fn send<W: Write>(&self, writer: &mut CountedWriter<W>) -> Result<(), SendFailed>
        requires { writer_failures writer.old < 2 ^ 64 - 1 }
        ensures whole { OnOk result (Appends (W.contents (writer_inside writer.old))
            (W.contents (writer_inside writer.new)) (bytes_of self.now)) }
        ensures front { OnErr result (AppendsFront (W.contents (writer_inside writer.old))
            (W.contents (writer_inside writer.new)) (bytes_of self.now)) }
        ensures no_failure { OnOk result (writer_failures writer.new ≡
            writer_failures writer.old) }
        ensures one_failure { OnErr result (writer_failures writer.new ≡
            writer_failures writer.old + 1) }
    {
        self.send_counting(&mut writer.inner, &mut writer.failures)
    }

    /// Writes the text to a writer, as [`sentry_framing::sending::send_plain`] does.
    pub fn send_plain<W: Write>(&self, writer: &mut W) -> Result<(), SendFailed>
        ensures whole { OnOk result (Appends (W.contents writer.old) (W.contents writer.new)
            (bytes_of self.now)) }
        ensures front { OnErr result (AppendsFront (W.contents writer.old)
            (W.contents writer.new) (bytes_of self.now)) }
    {
        let mut failures = 0;
        self.send_counting(writer, &mut failures)
    }
}
