//! A writer and a reader that count failed calls.
ghost use Rattle.std.specs.Prelude.{◌≡◌, ◌+◌, ◌-◌, ◌^◌, ◌<◌, OnOk, OnErr, if◌then◌else◌};
ghost use Rattle.std.specs.Io.{ReadsAtMost, WritesAtMost};
ghost use Rattle.std.specs.Io.KnownBytes.{Appends, ReadConsumes, WriteAppends};
ghost use Rattle.sentry_framing.specs.Sending.{write_fails, AppendsFront};
ghost use Rattle.sentry_items.specs.Counted.{reader_inside, reader_failures, writer_inside, writer_failures};

use sentry_framing::sending::{SendFailed, send_counting, write_counting};
use std::io;
use std::io::{Read, Write};

/// A writer that counts failed writes: those that return an error, and those that accept 0 bytes of
/// one or more.
///
/// An interrupted write counts as failed.
#[derive(Drop)]
pub struct CountedWriter<W> {
    pub(crate) inner: W,
    pub(crate) failures: u64,
}

impl<W> CountedWriter<W> {
    /// Wraps a writer, with no failures counted.
    pub fn new(inner: W) -> Self
        ensures inside { writer_inside result ≡ inner }
        ensures failures { writer_failures result ≡ 0 }
    {
        CountedWriter { inner, failures: 0 }
    }

    /// Returns the number of failed writes.
    pub fn failures(&self) -> u64
        ensures { result ≡ writer_failures self.now }
    {
        self.failures
    }

    /// Returns the wrapped writer.
    pub fn into_inner(self) -> W
        ensures { result ≡ writer_inside self }
    {
        let CountedWriter { inner, failures: _ } = self;
        inner
    }
}

impl<W: Write> CountedWriter<W> {
    /// Writes to the wrapped writer once, and counts a failure. The count before has to be below
    /// 2^64-1.
    ///
    /// # Errors
    ///
    /// Those of the wrapped writer. Each is counted, as is a write that takes none of one or more
    /// bytes.
    pub fn write(&mut self, bytes: &[u8]) -> io::Result<usize>
        requires { writer_failures self.old < 2 ^ 64 - 1 }
        ensures bound { WritesAtMost result bytes.now }
        ensures bytes { WriteAppends (W.contents (writer_inside self.old))
            (W.contents (writer_inside self.new)) result bytes.now }
        ensures failures { writer_failures self.new ≡
            (if write_fails result bytes.now then writer_failures self.old + 1 else writer_failures
            self.old) }
    {
        write_counting(bytes, &mut self.inner, &mut self.failures)
    }
}

/// A reader that counts failed reads: those that return an error.
///
/// An interrupted read counts as failed.
#[derive(Drop)]
pub struct CountedReader<R> {
    inner: R,
    failures: u64,
}

impl<R> CountedReader<R> {
    /// Wraps a reader, with no failures counted.
    pub fn new(inner: R) -> Self
        ensures inside { reader_inside result ≡ inner }
        ensures failures { reader_failures result ≡ 0 }
    {
        CountedReader { inner, failures: 0 }
    }

    /// Returns the number of failed reads.
    pub fn failures(&self) -> u64
        ensures { result ≡ reader_failures self.now }
    {
        self.failures
    }

    /// Returns the wrapped reader.
    pub fn into_inner(self) -> R
        ensures { result ≡ reader_inside self }
    {
        let CountedReader { inner, failures: _ } = self;
        inner
    }
}

impl<R: Read> CountedReader<R> {
    ghost use Rattle.sentry_items.specs.Counted.{read_fails};

    /// Reads from the wrapped reader once, and counts a failure. The count before has to be below
    /// 2^64-1.
    ///
    /// # Errors
    ///
    /// Those of the wrapped reader; each is counted.
    pub fn read(&mut self, buffer: &mut [u8]) -> io::Result<usize>
        requires { reader_failures self.old < 2 ^ 64 - 1 }
        ensures bound { ReadsAtMost result buffer.new }
        ensures bytes { ReadConsumes (R.remaining (reader_inside self.old))
            (R.remaining (reader_inside self.new)) result buffer.new }
        ensures failures { reader_failures self.new ≡
            (if read_fails result then reader_failures self.old + 1 else reader_failures self.old) }
    {
        let result = self.inner.read(buffer);
        if result.is_err() {
            self.failures += 1;
        }
        result
    }
}

/// Writes a whole text to a counted writer, by as many writes as needed. The count before has to be
/// below 2^64-1.
///
/// # Errors
///
/// `SendFailed` at the first write that fails, is interrupted, or accepts 0 bytes; that write is
/// counted.
pub fn send<W: Write>(text: &[u8], writer: &mut CountedWriter<W>) -> Result<(), SendFailed>
    requires { writer_failures writer.old < 2 ^ 64 - 1 }
    ensures whole { OnOk result (Appends (W.contents (writer_inside writer.old))
        (W.contents (writer_inside writer.new)) text.now) }
    ensures front { OnErr result (AppendsFront (W.contents (writer_inside writer.old))
        (W.contents (writer_inside writer.new)) text.now) }
    ensures no_failure { OnOk result (writer_failures writer.new ≡ writer_failures writer.old) }
    ensures one_failure { OnErr result (writer_failures writer.new ≡
        writer_failures writer.old + 1) }
{
    send_counting(text, &mut writer.inner, &mut writer.failures)
}
