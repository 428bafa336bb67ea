//! Reading all of the input.

ghost use Rattle.std.specs.Prelude.{◌≡◌, ◌+◌, ◌-◌, ◌^◌, ◌<◌, IfOk, IfErr};
ghost use Rattle.sentry_items.specs.Counted.{reader_failures};
ghost use Rattle.sentry_env.specs.Reading.{failed_reads};
ghost use Rattle.sentry_env.specs.Streams.{GivesAll, reader_stream};

use sentry_types::protocol::v7::CountedReader;
use std::alloc::Global;
use std::io::Read;

/// Why reading failed.
#[derive(Drop)]
pub enum ReadError {
    /// A read failed, or was interrupted.
    Read,
    /// An allocation failed.
    Memory,
}

// Bytes a read.
const CHUNK: usize = 8192;

/// Reads all that a reader has left.
///
/// # Errors
///
/// - `Read` at the first read that fails; the reader's count of failures rises by 1.
/// - `Memory` if an allocation fails.
pub fn read_all<R: Read>(alloc: Global, reader: &mut CountedReader<R>) -> Result<Vec<u8>, ReadError>
    requires { reader_failures reader.old < 2 ^ 64 - 1 }
    ensures all { IfOk result (λ bytes. GivesAll (reader_stream R.remaining reader.old)
        (reader_stream R.remaining reader.new) bytes.items) }
    ensures failure { IfErr result (λ error.
        reader_failures reader.new ≡ reader_failures reader.old + failed_reads error) }
{
    let mut bytes = Vec::new(alloc);
    let mut chunk = [0; CHUNK];
    loop {
        let Ok(count) = reader.read(&mut chunk) else {
            return Err(ReadError::Read);
        };
        if count == 0 {
            return Ok(bytes);
        }
        if bytes.extend_from_slice(&chunk[..count]).is_err() {
            return Err(ReadError::Memory);
        }
    }
}
