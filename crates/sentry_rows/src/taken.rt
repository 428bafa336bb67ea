//! Sinks of a case: its JSON tree, its JSON text, or a test whether it is plain.

ghost use Rattle.sentry_rows.specs.Taken.{IsCaseTree, WritesCase, TestsCase};
ghost use Rattle.sentry_rows.specs.NoRows.{no_lines, no_lines_in_order};

use crate::cased::CaseSink;
use crate::read::KeptTable;
use sentry_json::Writer;
use sentry_writing::beside::{Kept, NoOthers};
use sentry_writing::kept::others_are_plain;
use sentry_writing::plain::rows_are_plain;
use sentry_writing::table::{case_tree, write_case};
use sentry_writing::tree::TreeRows;
use sentry_writing::{Sink, Table};
use serde_json::{Map, Value};
use std::alloc::{AllocError, Global};

// The rows of a case that has none: all its members are additional ones.
#[derive(Drop)]
pub(crate) struct NoRows;

impl Table for NoRows {
    ghost lines = { no_lines };

    fn rows<S: Sink>(&self, _to: &mut S) {}

    ghost ordered = { no_lines_in_order };
}

// Makes the JSON tree of a case.
#[derive(Drop)]
pub(crate) struct TreeCase {
    pub(crate) alloc: Global,
    pub(crate) tree: Result<Value, AllocError>,
}

impl CaseSink for TreeCase {
    ghost Takes = { λ a b w rows o cs ms. IsCaseTree b.tree w rows o cs ms };

    fn table<T: Table>(&mut self, word: &str, value: &T) {
        self.tree = case_tree(value, word, TreeRows::new(self.alloc));
    }

    fn keep<T: KeptTable>(&mut self, word: &str, value: &T) {
        let rows = TreeRows::with_others(self.alloc, value.others());
        self.tree = case_tree(value, word, rows);
    }

    fn members(&mut self, word: &str, members: &Map<String, Value>) {
        let rows = TreeRows::with_others(self.alloc, members);
        self.tree = case_tree(&NoRows, word, rows);
    }
}

// Writes a case as JSON text.
#[derive(Drop)]
pub(crate) struct TextCase<'w> {
    pub(crate) out: &'w mut Writer,
    pub(crate) wrote: Result<(), AllocError>,
}

impl<'w> CaseSink for TextCase<'w> {
    ghost use Rattle.std.specs.Prelude.{◌≡◌};

    ghost Takes = { λ a b w rows o cs ms. (b.out.ghost_name ≡ a.out.ghost_name) ×
        WritesCase a.out.now b.out.now b.wrote w rows o cs ms };

    fn table<T: Table>(&mut self, word: &str, value: &T) {
        self.wrote = write_case(value, word, NoOthers, &mut *self.out);
    }

    fn keep<T: KeptTable>(&mut self, word: &str, value: &T) {
        self.wrote = write_case(value, word, Kept::new(value.others()), &mut *self.out);
    }

    fn members(&mut self, word: &str, members: &Map<String, Value>) {
        self.wrote = write_case(&NoRows, word, Kept::new(members), &mut *self.out);
    }
}

// Tests whether a case is plain.
#[derive(Drop)]
pub(crate) struct PlainCase {
    pub(crate) plain: bool,
}

impl CaseSink for PlainCase {
    ghost Takes = { λ a b w rows o cs ms. TestsCase b.plain w rows o cs ms };

    fn table<T: Table>(&mut self, _word: &str, value: &T) {
        self.plain = rows_are_plain(value);
    }

    fn keep<T: KeptTable>(&mut self, _word: &str, value: &T) {
        self.plain = rows_are_plain(value) && others_are_plain(value.others(), T::names());
    }

    fn members(&mut self, _word: &str, members: &Map<String, Value>) {
        self.plain = others_are_plain(members, &["type"]);
    }
}
