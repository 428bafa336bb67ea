//! A run: reading, filtering and writing.

ghost use Rattle.std.specs.Prelude.{◌≡◌, ◌-◌, ◌^◌, ◌<◌, IfOk, option_map};
ghost use Rattle.sentry_items.specs.Counted.{reader_failures, writer_failures};
ghost use Rattle.sentry_items.specs.Texts.{bytes_of};
ghost use Rattle.sentry_moments.specs.Moments.{moment_cell};
ghost use Rattle.sentry_env.specs.Run.{Runs, Sends, left_outcome, left_text, settings};
ghost use Rattle.sentry_env.specs.Streams.{streams, writer_stream};

use crate::Kind;
use crate::ending::{Outcome, RunError};
use crate::read_all::read_all;
use rand_core::Rng;
use sentry_envelope::{AllBut, filtered_text, normal_text};
use sentry_items::counted::send;
use sentry_items::text::Text;
use sentry_program::losses::table_of;
use sentry_types::protocol::v7::{CountedReader, CountedWriter, Moment};
use std::alloc::Global;
use std::io::{Read, Write};

fn send_left<W: Write>(
    left: &Option<Text<'_>>,
    out: &mut CountedWriter<W>,
) -> Result<Outcome, RunError>
    requires { writer_failures out.old < 2 ^ 64 - 1 }
    ensures sent { Sends (writer_stream W.contents out.old) (writer_stream W.contents out.new)
        (left_text (option_map bytes_of left.now)) result }
    ensures outcome { IfOk result (λ outcome.
        outcome ≡ left_outcome (option_map bytes_of left.now)) }
{
    match left {
        Some(text) => {
            text.send(out)?;
            Ok(Outcome::Written)
        }
        None => Ok(Outcome::NothingLeft),
    }
}

/// Reads an envelope, writes it without the items of these types, and then writes the table of the
/// losses of the removed items.
///
/// An attachment is also removed if no event and no transaction is left. With `keep_headers` the
/// header's fields other than the id are kept. Without types the whole envelope is written, and no
/// table. All texts are built before the first byte is written.
///
/// # Errors
///
/// - `Refused` if all was read and the bytes are no envelope; nothing was written.
/// - `Read` if a read failed, and was counted; nothing was written.
/// - `Memory` if an allocation fails; nothing was written.
/// - `Write` if a write failed, and was counted; a beginning of the envelope was written and
///   nothing of the table, or the whole envelope and a beginning of the table.
pub fn run<R: Read, W: Write, T: Write, G: Rng>(
    alloc: Global,
    reader: &mut CountedReader<R>,
    kinds: &[Kind],
    keep_headers: bool,
    now: Moment,
    ids: &mut G,
    out: &mut CountedWriter<W>,
    table: &mut CountedWriter<T>,
) -> Result<Outcome, RunError>
    requires reader_counts { reader_failures reader.old < 2 ^ 64 - 1 }
    requires out_counts { writer_failures out.old < 2 ^ 64 - 1 }
    requires table_counts { writer_failures table.old < 2 ^ 64 - 1 }
    ensures { Runs (settings kinds.now keep_headers (moment_cell now))
        (streams R.remaining W.contents T.contents reader.old out.old table.old)
        (streams R.remaining W.contents T.contents reader.new out.new table.new) result }
{
    let bytes = read_all(alloc, reader)?;
    if kinds.is_empty() {
        let text = normal_text(alloc, &bytes, now, ids)?;
        text.send(out)?;
        return Ok(Outcome::Written);
    }
    let left = filtered_text(alloc, &bytes, now, ids, &AllBut { kinds }, keep_headers)?;
    let losses = table_of(alloc, &left.losses)?;
    let outcome = send_left(&left.text, out)?;
    send(losses.as_bytes(), table)?;
    Ok(outcome)
}
