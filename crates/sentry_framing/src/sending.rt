//! Calls that write a whole text.
ghost use Rattle.std.specs.Prelude.{◌≡◌, ◌+◌, ◌-◌, ◌^◌, ◌<◌, ◌++◌, OnOk, OnErr, if◌then◌else◌};
ghost use Rattle.std.specs.Io.{WritesAtMost};
ghost use Rattle.std.specs.Io.KnownBytes.{Appends, WriteAppends};
ghost use Rattle.sentry_framing.specs.Sending.{write_fails, AppendsFront};

use std::io;
use std::io::Write;

/// The failure to write a whole text: only a proper prefix was written, possibly none of it.
#[derive(Debug, Drop)]
pub struct SendFailed;

/// Writes to a writer once, and counts a failure in `failures`, which has to be below 2^64-1.
///
/// # Errors
///
/// Those of the writer. Each is counted, as is a write that takes none of one or more bytes.
pub fn write_counting<W: Write>(
    bytes: &[u8],
    writer: &mut W,
    failures: &mut u64,
) -> io::Result<usize>
    requires { failures.old < 2 ^ 64 - 1 }
    ensures bound { WritesAtMost result bytes.now }
    ensures bytes { WriteAppends (W.contents writer.old) (W.contents writer.new) result bytes.now }
    ensures failures { failures.new ≡
        (if write_fails result bytes.now then failures.old + 1 else failures.old) }
{
    let result = writer.write(bytes);
    let failed = match &result {
        Ok(count) => *count == 0 && !bytes.is_empty(),
        Err(_) => true,
    };
    if failed {
        *failures += 1;
    }
    result
}

/// Writes a whole text to a writer, by as many writes as needed, and counts a failure in `failures`,
/// which has to be below 2^64-1.
///
/// # Errors
///
/// `SendFailed` at the first write that fails, is interrupted, or accepts 0 bytes.
pub fn send_counting<W: Write>(
    text: &[u8],
    writer: &mut W,
    failures: &mut u64,
) -> Result<(), SendFailed>
    requires { failures.old < 2 ^ 64 - 1 }
    ensures whole { OnOk result (Appends (W.contents writer.old) (W.contents writer.new) text.now) }
    ensures front { OnErr result (AppendsFront (W.contents writer.old)
        (W.contents writer.new) text.now) }
    ensures no_failure { OnOk result (failures.new ≡ failures.old) }
    ensures one_failure { OnErr result (failures.new ≡ failures.old + 1) }
{
    let mut rest = text;
    while !rest.is_empty() {
        match write_counting(rest, writer, failures) {
            Ok(count) if count > 0 => rest = &rest[count..],
            _ => return Err(SendFailed),
        }
    }
    Ok(())
}

/// Writes a whole text to a writer, by as many writes as needed.
///
/// # Errors
///
/// `SendFailed` at the first write that fails, is interrupted, or accepts 0 bytes.
pub fn send_plain<W: Write>(text: &[u8], writer: &mut W) -> Result<(), SendFailed>
    ensures whole { OnOk result (Appends (W.contents writer.old) (W.contents writer.new) text.now) }
    ensures front { OnErr result (AppendsFront (W.contents writer.old)
        (W.contents writer.new) text.now) }
{
    let mut failures = 0;
    send_counting(text, writer, &mut failures)
}

/// Writes two texts to a writer, one after the other, by as many writes as needed.
///
/// # Errors
///
/// `SendFailed` at the first write that fails, is interrupted, or accepts 0 bytes; only a proper
/// prefix of both texts together was written.
pub fn send_both<W: Write>(first: &[u8], second: &[u8], writer: &mut W) -> Result<(), SendFailed>
    ensures whole { OnOk result (Appends (W.contents writer.old) (W.contents writer.new)
        (first.now ++ second.now)) }
    ensures front { OnErr result (AppendsFront (W.contents writer.old) (W.contents writer.new)
        (first.now ++ second.now)) }
{
    send_plain(first, writer)?;
    send_plain(second, writer)
}
