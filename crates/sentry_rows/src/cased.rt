//! Types of several cases, told apart by the tag: the word at the key `type`.

ghost use Rattle.std.specs.Prelude.{◌≡◌, ℕ, List, IfOk, true, map as map_list};
ghost use Rattle.serde_json.specs.Data.{Members, no_members};
ghost use Rattle.serde_json.specs.View.{members_view};
ghost use Rattle.sentry_json.specs.Keys.{are_distinct};
ghost use Rattle.sentry_tables.specs.Cell.{Cell, Cells, fields, no_cells};
ghost use Rattle.sentry_tables.specs.Fields.{rows_of, cells_by};
ghost use Rattle.sentry_tables.specs.Kind.{Cases, Rows, Other, ignored, kept, no_rows, table, tagged, words};
ghost use Rattle.sentry_tables.specs.Made.{made};
ghost use Rattle.sentry_tables.specs.Reading.{Reads};
ghost use Rattle.sentry_moments.specs.Moments.{moment_cell};
ghost use Rattle.sentry_rows.specs.Cased.{but_tag, TakesCase, MakesCase, ReadsCase, ReadsCaseAt};

use crate::read::KeptTable;
use crate::reader::Reader;
use crate::source::Source;
use crate::tagged::tag;
use crate::taken::{PlainCase, TextCase, TreeCase};
use crate::timed::ReadCodecAt;
use rand_core::Rng;
use sentry_json::keys::place;
use sentry_json::{Node, Writer};
use sentry_moments::Moment;
use sentry_tables::{Codec, ReadCodec, TreeError, Way};
use sentry_writing::Table;
use sentry_writing::kept::copy_others;
use sentry_writing::table::leave;
use serde_json::{Map, Value};
use std::alloc::{AllocError, Global};

/// A receiver of the case of a value.
pub trait CaseSink {
    // from the first state to the second, this case was taken: its word, its rows, whether
    // additional members are kept, and the cells of the rows and the additional members
    ghost Takes: { Self → Self → List ℕ → Rows → Other → Cells → Members → Type 0 };

    /// Takes a case that ignores additional members.
    fn table<T: Table>(&mut self, word: &str, value: &T)
        ensures { Takes self.old self.new word.now (rows_of T.lines) ignored
            (cells_by T.lines value.now) no_members };

    /// Takes a case that keeps additional members.
    fn keep<T: KeptTable>(&mut self, word: &str, value: &T)
        ensures { Takes self.old self.new word.now (rows_of T.lines) (kept T.reserved)
            (cells_by T.lines value.now) (T.others_of value.now) };

    /// Takes a case without rows, which keeps all members but the tag.
    fn members(&mut self, word: &str, members: &Map<String, Value>)
        ensures { Takes self.old self.new word.now no_rows but_tag no_cells
            (members_view members.now.entries) };
}

/// A type of several cases, each named by a word.
pub trait Cased: Sized + Drop {
    // the cases, in the order of their numbers
    ghost cases: { Cases };

    // the number of a value's case, and the cell of what the case holds
    ghost choice_of: { Self → Cell };

    /// Returns the words of the cases, in the order of their numbers.
    fn words() -> &'static [&'static str]
        ensures { map_list (λ word. word.now) result.now ≡ words cases };

    /// Gives the case of the value to the sink `to`.
    fn give<S: CaseSink>(&self, to: &mut S)
        ensures { TakesCase (S.Takes to.old to.new) Self.cases (choice_of self.now) };

    /// Returns a copy of the value, or its normal form, by `way`.
    ///
    /// # Errors
    ///
    /// `AllocError` if an allocation fails.
    fn remake_case(&self, way: Way) -> Result<Self, AllocError>
        ensures { IfOk result (λ v. MakesCase way Self.cases (choice_of self.now) (choice_of v)) };

    ghost distinct: { are_distinct (words cases) ≡ true };
}

/// A type of several cases that is read from a JSON tree alone.
pub trait ReadCased: Cased {
    /// Reads a value of the case with number `case`, whatever the tag.
    ///
    /// # Errors
    ///
    /// - `Misfit` if the tree shows no value of the case.
    /// - `Memory` if an allocation fails.
    fn read<N: Node>(alloc: Global, node: &N, case: usize) -> Result<Self, TreeError>
        ensures { ReadsCase Self.cases Self.choice_of case (N.data_of node.now) result };
}

/// A type of several cases that is read from a JSON tree at a moment, with a generator of ids.
pub trait ReadCasedAt: Cased {
    /// Reads a value of the case with number `case`, whatever the tag; `now` fills absent
    /// timestamps, `ids` absent ids.
    ///
    /// # Errors
    ///
    /// - `Misfit` if the tree shows no value of the case.
    /// - `Memory` if an allocation fails.
    fn read<N: Node, R: Rng>(
        alloc: Global,
        node: &N,
        case: usize,
        now: Moment,
        ids: &mut R,
    ) -> Result<Self, TreeError>
        ensures { ReadsCaseAt (moment_cell now) Self.cases Self.choice_of case
            (N.data_of node.now) result };
}

/// Codec of a type of several cases: the tag at the key `type` names the case.
pub struct AsCase;

impl<T: Cased> Codec<T> for AsCase {
    ghost kind = { tagged T.cases };

    ghost cell_of = { T.choice_of };

    #[tactic(auto, using(crate::proofs::CasesGiven::tree_is))]
    fn to_tree(value: &T, alloc: Global) -> Result<Value, AllocError> {
        let mut to = TreeCase {
            alloc,
            tree: Ok(Value::Null),
        };
        value.give(&mut to);
        to.tree
    }

    fn write(value: &T, out: &mut Writer) -> Result<(), AllocError> {
        let mut to = TextCase { out, wrote: Ok(()) };
        value.give(&mut to);
        let TextCase { out, wrote } = to;
        leave(out);
        wrote
    }

    #[tactic(auto, using(crate::proofs::CasesGiven::case_made))]
    fn remake(value: &T, way: Way) -> Result<T, AllocError> {
        value.remake_case(way)
    }

    fn is_null_tree(_value: &T) -> bool {
        false
    }

    fn is_plain(value: &T) -> bool {
        let mut to = PlainCase { plain: true };
        value.give(&mut to);
        to.plain
    }
}

impl<T: ReadCased> ReadCodec<T> for AsCase {
    #[tactic(auto, using(crate::proofs::CasesRead::case_read, crate::proofs::CasesRead::case_fails, crate::proofs::TagsShown::another_word, crate::proofs::TagsShown::no_word))]
    fn from_node<N: Node>(alloc: Global, node: &N) -> Result<T, TreeError> {
        let word = tag(node).ok_or(TreeError::Misfit)?;
        let case = place(T::words(), word).ok_or(TreeError::Misfit)?;
        T::read(alloc, node, case)
    }
}

impl<T: ReadCasedAt> ReadCodecAt<T> for AsCase {
    #[tactic(auto, using(crate::proofs::CasesRead::case_read_at, crate::proofs::CasesRead::case_fails_at, crate::proofs::TagsShown::another_word_at, crate::proofs::TagsShown::no_word_at))]
    fn from_node<N: Node, R: Rng>(
        alloc: Global,
        node: &N,
        now: Moment,
        ids: &mut R,
    ) -> Result<T, TreeError> {
        let word = tag(node).ok_or(TreeError::Misfit)?;
        let case = place(T::words(), word).ok_or(TreeError::Misfit)?;
        T::read(alloc, node, case, now, ids)
    }
}

/// Reads all members of an object but the tag, for a case without rows.
///
/// # Errors
///
/// - `Misfit` if the node isn't an object.
/// - `Memory` if an allocation fails.
#[tactic(auto, using(crate::proofs::Answering::no_object_fails))]
pub fn read_members<N: Node>(alloc: Global, node: &N) -> Result<Map<String, Value>, TreeError>
    ensures { Reads (table no_rows but_tag) (λ m.
        fields no_cells (members_view m.entries)) (N.data_of node.now) result }
{
    let mut from = Reader::new(alloc, node)?;
    let members = from.others(&["type"]);
    from.end(members)
}

/// Clones the members of a case without rows, which are their own normal form.
///
/// # Errors
///
/// `AllocError` if an allocation fails.
#[tactic(auto, using(crate::proofs::CasesGiven::members_made))]
pub fn made_members(
    members: &Map<String, Value>,
    way: Way,
) -> Result<Map<String, Value>, AllocError>
    ensures { IfOk result (λ m. fields no_cells (members_view m.entries)
        ≡ made way (table no_rows but_tag) (fields no_cells (members_view members.now.entries))) }
{
    copy_others(members)
}
