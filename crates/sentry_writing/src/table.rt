//! Types that are written row by row as a JSON object.

ghost use Rattle.std.specs.Prelude.{◌≡◌, List, OnOk, IfOk, None, true};
ghost use Rattle.serde_json.specs.Data.{object};
ghost use Rattle.serde_json.specs.View.{view};
ghost use Rattle.sentry_tables.specs.Fields.{Field, table_of, fields_by, rows_of, cells_by};
ghost use Rattle.sentry_tables.specs.Kind.{keys};
ghost use Rattle.sentry_tables.specs.Written.{put_all, rows_given, in_order};
ghost use Rattle.sentry_tables.specs.Writes.{written, WritesTree, WritesMembers};
ghost use Rattle.sentry_writing.specs.Given.{GivesRows, case_written};
ghost use Rattle.sentry_writing.specs.Sinks.{members_so_far, tag_left};

use crate::beside::{Others, Tag, rows_among};
use crate::sink::Sink;
use crate::text::TextRows;
use crate::tree::TreeRows;
use sentry_json::Writer;
pub use sentry_tables::pass::leave;
use serde_json::Value;
use std::alloc::{AllocError, Global};

/// A type whose values are written as the rows of an object.
pub trait Table: Sized + Drop {
    // the rows, in key order: for each its key, rule, kind and the part of the value that it holds
    ghost lines: { List (Field Self) };

    /// Gives each row to the sink `to`, in key order.
    fn rows<S: Sink>(&self, to: &mut S)
        ensures { GivesRows S.Adds S.Tests lines self.now to.old to.new };

    /// Gives the members that the rows are written as to the sink `to`, in key order.
    final fn give<S: Sink>(&self, to: &mut S)
        ensures { S.Adds to.old to.new (rows_given (rows_of lines) (cells_by lines self.now)) }
    {
        self.rows(to)
    }

    ghost ordered: { in_order (keys (rows_of lines)) ≡ true };
}

/// Returns the object of a value's rows and the members of `rows`.
///
/// A written row replaces a member of `rows` with its key.
///
/// # Errors
///
/// `AllocError` if an allocation fails, or has failed in `rows` before.
pub fn rows_tree<T: Table>(value: &T, mut rows: TreeRows) -> Result<Value, AllocError>
    ensures { IfOk result (λ t. (rows.failed ≡ None)
        × (view t ≡
        object (put_all (rows_given (rows_of T.lines) (cells_by T.lines value.now))
        (members_so_far rows)))) }
{
    value.give(&mut rows);
    rows.into_tree()
}

// Writes the members of a value's rows, with a tag and other members merged in key order.
fn write_members<T: Table, L: Others>(
    value: &T,
    tag: Tag<'_>,
    others: L,
    out: &mut Writer,
) -> Result<(), AllocError>
    ensures { OnOk result (WritesMembers (put_all (put_all
        (rows_given (rows_of T.lines) (cells_by T.lines value.now)) (tag_left tag.entry.word))
        (L.left others)) out.old out.new) }
{
    let mut text = TextRows { out, failed: None };
    rows_among(value, tag, others, &mut text);
    let TextRows { out, failed } = text;
    leave(out);
    match failed {
        None => Ok(()),
        Some(error) => Err(error),
    }
}

/// Writes the object of a value's rows as JSON text, with a tag and other members merged in key
/// order.
///
/// A written row replaces a tag or member with its key; the tag replaces a member at `type`.
///
/// # Errors
///
/// `AllocError` if an allocation fails; part of the text may have been written.
pub fn write_rows<T: Table, L: Others>(
    value: &T,
    tag: Tag<'_>,
    others: L,
    out: &mut Writer,
) -> Result<(), AllocError>
    ensures { OnOk result (WritesTree (object (put_all (put_all
        (rows_given (rows_of T.lines) (cells_by T.lines value.now)) (tag_left tag.entry.word))
        (L.left others))) out.old out.new) }
{
    out.begin_object()?;
    write_members(value, tag, others, out)?;
    out.end_object()
}

// Writes the members of a value's rows, without a tag or other members.
fn write_own<T: Table>(value: &T, out: &mut Writer) -> Result<(), AllocError>
    ensures { OnOk result
        (WritesMembers (rows_given (rows_of T.lines) (cells_by T.lines value.now)) out.old
        out.new) }
{
    let mut text = TextRows { out, failed: None };
    value.give(&mut text);
    let TextRows { out, failed } = text;
    leave(out);
    match failed {
        None => Ok(()),
        Some(error) => Err(error),
    }
}

/// Returns the JSON tree of a value.
///
/// # Errors
///
/// `AllocError` if an allocation fails.
pub fn table_tree<T: Table>(value: &T, alloc: Global) -> Result<Value, AllocError>
    ensures { IfOk result (λ t. view t ≡ written (table_of T.lines) (fields_by T.lines value.now)) }
{
    rows_tree(value, TreeRows::new(alloc))
}

/// Writes a value as JSON text.
///
/// # Errors
///
/// `AllocError` if an allocation fails; part of the text may have been written.
pub fn write_table<T: Table>(value: &T, out: &mut Writer) -> Result<(), AllocError>
    ensures { OnOk result
        (WritesTree (written (table_of T.lines) (fields_by T.lines value.now)) out.old out.new) }
{
    out.begin_object()?;
    write_own(value, out)?;
    out.end_object()
}

/// Returns the JSON tree of a case: its rows, the tag `word` at the key `type`, and the members of
/// `rows`.
///
/// A written row replaces a tag or member with its key; the tag replaces a member at `type`.
///
/// # Errors
///
/// `AllocError` if an allocation fails, or has failed in `rows` before.
pub fn case_tree<T: Table>(value: &T, word: &str, mut rows: TreeRows) -> Result<Value, AllocError>
    ensures { IfOk result (λ t. (rows.failed ≡ None)
        × (view t ≡ case_written word.now (rows_of T.lines) (cells_by T.lines value.now)
        (members_so_far rows))) }
{
    rows.word("type", word);
    rows_tree(value, rows)
}

/// Writes a case as JSON text: its rows, the tag `word` at the key `type`, and the members of
/// `others`.
///
/// A written row replaces a tag or member with its key; the tag replaces a member at `type`.
///
/// # Errors
///
/// `AllocError` if an allocation fails; part of the text may have been written.
pub fn write_case<T: Table, L: Others>(
    value: &T,
    word: &str,
    others: L,
    out: &mut Writer,
) -> Result<(), AllocError>
    ensures { OnOk result (WritesTree
        (case_written word.now (rows_of T.lines) (cells_by T.lines value.now) (L.left others))
        out.old out.new) }
{
    write_rows(value, Tag::new(word), others, out)
}
