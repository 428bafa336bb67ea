//! Writers and readers that count what fails.

use crate::wanted::wanted;
use crate::writers::{Broken, Full};
use sentry_types::protocol::v7::{CountedReader, CountedWriter};
use std::alloc::Global;
use std::io::{Read, Write};
use std::test::Fail;

/// What a writer with so much room, two bytes at a time, says of one write: whether it answers an
/// error, how many failures are counted, and how many bytes it holds.
fn after_a_write(alloc: Global, room: usize, bytes: &[u8], by_error: bool) -> (bool, u64, usize) {
    let mut out = CountedWriter::new(Full::new(alloc, room, 2, by_error));
    let refused = out.write(bytes).is_err();
    (refused, out.failures(), out.into_inner().taken.len())
}

/// A write that fails, by an error or by taking none, is counted, and no other one.
#[test]
fn a_failed_write_is_counted(rt: HostRuntime) -> Result<(), Fail> {
    for (room, bytes, by_error, after) in [
        (3, "abc", false, (false, 0, 2)),
        (1, "ab", true, (false, 0, 1)),
        (0, "a", false, (false, 1, 0)),
        (0, "a", true, (true, 1, 0)),
        (0, "", true, (false, 0, 0)),
    ] {
        wanted(after_a_write(rt.alloc(), room, bytes.as_bytes(), by_error) == after)?;
    }
    Ok(())
}

#[test]
fn a_failed_read_is_counted(_rt: HostRuntime) -> Result<(), Fail> {
    let mut reader = CountedReader::new(Broken { given: false });
    let mut buffer = [0; 2];
    let given = reader.read(&mut buffer)? == 1 && buffer[0] == b'e' && reader.failures() == 0;
    let failed = reader.read(&mut buffer).is_err() && reader.failures() == 1;
    wanted(given && failed && reader.into_inner().given)
}
