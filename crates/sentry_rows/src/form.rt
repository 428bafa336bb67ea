//! Codecs of tables.

ghost use Rattle.std.specs.Prelude.{◌≡◌};
ghost use Rattle.sentry_tables.specs.Fields.{table_of, fields_by, rows_of, cells_by};
ghost use Rattle.sentry_tables.specs.Cell.{Cell, fields, same_cell};
ghost use Rattle.sentry_tables.specs.Kind.{table, kept};
ghost use Rattle.sentry_tables.specs.Norm.{norm};

use crate::copier::{Copier, CopyTable};
use crate::pass::{pass_table, pass_table_at};
use crate::read::{KeptTable, ReadTable, ReadTableAt};
use crate::reader::Reader;
use crate::timed::ReadCodecAt;
use rand_core::Rng;
use sentry_json::{Node, Writer};
use sentry_moments::Moment;
use sentry_tables::codec::DefaultedCodec;
use sentry_tables::{Codec, ReadCodec, TreeError, Way};
use sentry_writing::Table;
use sentry_writing::beside::{Kept, Tag};
use sentry_writing::kept::others_are_plain;
use sentry_writing::plain::rows_are_plain;
use sentry_writing::table::{rows_tree, table_tree, write_rows, write_table};
use sentry_writing::tree::TreeRows;
use serde_json::Value;
use std::alloc::{AllocError, Global};

/// Codec of a table that ignores additional members when read.
pub struct AsTable;

impl<T: CopyTable> Codec<T> for AsTable {
    ghost kind = { table_of T.lines };

    ghost cell_of = { λ v. fields_by T.lines v };

    fn to_tree(value: &T, alloc: Global) -> Result<Value, AllocError> {
        table_tree(value, alloc)
    }

    fn write(value: &T, out: &mut Writer) -> Result<(), AllocError> {
        write_table(value, out)
    }

    fn remake(value: &T, way: Way) -> Result<T, AllocError> {
        let mut copies = Copier::new(way);
        let copy = CopyTable::copy_rows(value, &mut copies)?;
        copies.end(copy)
    }

    fn is_null_tree(_value: &T) -> bool {
        false
    }

    fn is_plain(value: &T) -> bool {
        rows_are_plain(value)
    }
}

impl<T: ReadTable + CopyTable> ReadCodec<T> for AsTable {
    #[tactic(auto, using(crate::proofs::Answering::no_object_fails))]
    fn from_node<N: Node>(alloc: Global, node: &N) -> Result<T, TreeError> {
        let mut from = Reader::new(alloc, node)?;
        let value = T::read(&mut from);
        from.end(value)
    }

    fn pass<N: Node>(alloc: Global, node: &N, out: &mut Writer) -> Result<(), TreeError> {
        pass_table::<T, N>(alloc, node, out)
    }
}

impl<T: ReadTableAt + CopyTable> ReadCodecAt<T> for AsTable {
    #[tactic(auto, using(crate::proofs::Answering::no_object_fails_at))]
    fn from_node<N: Node, R: Rng>(
        alloc: Global,
        node: &N,
        now: Moment,
        ids: &mut R,
    ) -> Result<T, TreeError> {
        let mut from = Reader::new(alloc, node)?;
        let value = T::read(&mut from, now, ids);
        // As `from.end(value)`, which would move an event once more.
        match from.failed {
            None => Ok(value),
            Some(error) => Err(error),
        }
    }

    fn pass<N: Node, R: Rng>(
        alloc: Global,
        node: &N,
        now: Moment,
        ids: &mut R,
        out: &mut Writer,
    ) -> Result<(), TreeError> {
        pass_table_at::<T, N, R>(alloc, node, now, ids, out)
    }
}

/// A table with a default value, which may be omitted.
pub trait DefaultedTable: Table {
    // the default value
    ghost usual: { Cell };

    /// Returns whether the normal form of the value is the default.
    fn is_usual(&self) -> bool
        ensures { result ≡
            same_cell (norm (table_of Self.lines) (fields_by Self.lines self.now)) usual };
}

impl<T: DefaultedTable + CopyTable> DefaultedCodec<T> for AsTable {
    ghost usual = { T.usual };

    fn is_usual(value: &T) -> bool {
        value.is_usual()
    }
}

/// Codec of a table that keeps additional members.
pub struct AsKept;

impl<T: KeptTable> Codec<T> for AsKept {
    ghost kind = { table (rows_of T.lines) (kept T.reserved) };

    ghost cell_of = { λ v. fields (cells_by T.lines v) (T.others_of v) };

    fn to_tree(value: &T, alloc: Global) -> Result<Value, AllocError> {
        rows_tree(value, TreeRows::with_others(alloc, value.others()))
    }

    fn write(value: &T, out: &mut Writer) -> Result<(), AllocError> {
        write_rows(value, Tag::none(), Kept::new(value.others()), out)
    }

    fn remake(value: &T, way: Way) -> Result<T, AllocError> {
        let mut copies = Copier::new(way);
        let copy = KeptTable::copy_rows(value, &mut copies)?;
        copies.end(copy)
    }

    fn is_null_tree(_value: &T) -> bool {
        false
    }

    fn is_plain(value: &T) -> bool {
        rows_are_plain(value) && others_are_plain(value.others(), T::names())
    }
}

impl<T: KeptTable> ReadCodec<T> for AsKept {
    #[tactic(auto, using(crate::proofs::Answering::no_object_fails))]
    fn from_node<N: Node>(alloc: Global, node: &N) -> Result<T, TreeError> {
        let mut from = Reader::new(alloc, node)?;
        let value = T::read(&mut from);
        from.end(value)
    }
}
