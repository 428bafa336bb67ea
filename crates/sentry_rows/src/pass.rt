//! Tables that are written as text while they are read.

ghost use Rattle.std.specs.Prelude.{◌≡◌, None};
ghost use Rattle.sentry_json.specs.Nodes.{object_data};
ghost use Rattle.sentry_tables.specs.Fields.{rows_of, table_of};
ghost use Rattle.sentry_moments.specs.Moments.{moment_cell};
ghost use Rattle.sentry_tables.specs.Passed.{Passes, PassesAt};
ghost use Rattle.sentry_rows.specs.Passed.{PassesRows, PassesRowsAt};

use crate::passer::Passer;
use crate::read::{ReadTable, ReadTableAt};
use crate::reader::Reader;
use rand_core::Rng;
use sentry_json::{Node, Writer};
use sentry_moments::Moment;
use sentry_tables::TreeError;
use sentry_writing::table::leave;
use std::alloc::Global;

// Writes the rows of an object while they are read.
fn pass_rows<T: ReadTable, N: Node>(from: Reader<'_, N>, out: &mut Writer) -> Result<(), TreeError>
    requires { from.failed ≡ None }
    ensures { PassesRows (rows_of T.lines) (object_data N.data_of from.entry.object)
        result out.old out.new }
{
    let mut rows = Passer { from, out };
    drop(T::read(&mut rows));
    let Passer { from, out } = rows;
    leave(out);
    match from.failed {
        None => Ok(()),
        Some(error) => Err(error),
    }
}

/// Writes the value that the tree at a node shows, as JSON text, while it is read.
///
/// # Errors
///
/// - `Misfit` if the tree shows no value of the table.
/// - `Memory` if an allocation fails.
///
/// Part of the text may have been written.
#[tactic(auto, using(crate::proofs::Answering::no_object_fails))]
pub fn pass_table<T: ReadTable, N: Node>(
    alloc: Global,
    node: &N,
    out: &mut Writer,
) -> Result<(), TreeError>
    ensures { Passes (table_of T.lines) (N.data_of node.now) result out.old out.new }
{
    let from = Reader::new(alloc, node)?;
    out.begin_object()?;
    pass_rows::<T, N>(from, out)?;
    out.end_object()?;
    Ok(())
}

// Writes the rows of an object while they are read at the moment `now`.
fn pass_rows_at<T: ReadTableAt, N: Node, R: Rng>(
    from: Reader<'_, N>,
    now: Moment,
    ids: &mut R,
    out: &mut Writer,
) -> Result<(), TreeError>
    requires { from.failed ≡ None }
    ensures { PassesRowsAt (moment_cell now) (rows_of T.lines) (object_data N.data_of from.entry.object)
        result out.old out.new }
{
    let mut rows = Passer { from, out };
    drop(T::read(&mut rows, now, ids));
    let Passer { from, out } = rows;
    leave(out);
    match from.failed {
        None => Ok(()),
        Some(error) => Err(error),
    }
}

/// Writes the value that the tree at a node shows at the moment `now`, as JSON text, while it is
/// read; absent ids are drawn from `ids`.
///
/// # Errors
///
/// Those of [`pass_table`].
#[tactic(auto, using(crate::proofs::Answering::no_object_fails_at))]
pub fn pass_table_at<T: ReadTableAt, N: Node, R: Rng>(
    alloc: Global,
    node: &N,
    now: Moment,
    ids: &mut R,
    out: &mut Writer,
) -> Result<(), TreeError>
    ensures { PassesAt (moment_cell now) (table_of T.lines) (N.data_of node.now)
        result out.old out.new }
{
    let from = Reader::new(alloc, node)?;
    out.begin_object()?;
    pass_rows_at::<T, N, R>(from, now, ids, out)?;
    out.end_object()?;
    Ok(())
}
