//! Reading of values from lines of JSON.

ghost use Rattle.std.specs.Prelude.{◌≡◌, ◌↔◌, ◌++◌, ◌∷◌, ◌+◌, [], IsTrue, IfOk, IfErr, IfSome, Some, None, false, map, option_map};
ghost use Rattle.serde_json.specs.Data.{Data, no_members, object};
ghost use Rattle.serde_json.specs.Find.{get};
ghost use Rattle.serde_json.specs.View.{members_view, view};
ghost use Rattle.serde_json.specs.Written.{has_float};
ghost use Rattle.sentry_json.specs.Keys.{at_keys, is_among};
ghost use Rattle.sentry_json.specs.Line.{tree_of};
ghost use Rattle.sentry_json.specs.Sound.{IsSound};
ghost use Rattle.sentry_json.specs.TapeView.{IsParsed, node_data};
ghost use Rattle.sentry_tables.specs.Cell.{fields, no_cells, cell};
ghost use Rattle.sentry_tables.specs.Cells.{list_cell};
ghost use Rattle.sentry_tables.specs.Kind.{list, must, ignored, table, no_rows, row};
ghost use Rattle.sentry_tables.specs.Passed.{ListPassed, Passed, PassesText};
ghost use Rattle.sentry_tables.specs.Reading.{Only, LineShows, LineRefused, ReadsText, Shown, Refused, TextShown};

use crate::error::TreeError;
use crate::pass::leave;
use crate::read::FromTree;
use crate::tree::has_float;
use bumpalo::Bump;
use sentry_json::{Node, Parsed, Tape, TapeNode, Visitor, Writer};
use serde_json::{Map, Value};
use std::alloc::{AllocError, Global};
use std::marker::PhantomData;

/// Returns whether no number in a tree, at any depth, is a float.
pub fn whole(tree: &Value) -> bool
    ensures exactly { IsTrue result ↔ (has_float (view tree.now) ≡ false) }
    ensures sound { IsTrue result → IsSound (view tree.now) }
{
    !has_float(tree)
}

/// Parses a line as a JSON tree.
///
/// # Errors
///
/// - `Misfit` if the line is not UTF-8, is not one JSON text that nests at most 127 deep, or has a
///   number that is read as a float ([`has_float`]).
/// - `Memory` if an allocation fails.
#[inline(never)]
pub fn read_tree(alloc: Global, line: &[u8]) -> Result<Value, TreeError>
    ensures ok { IfOk result (λ tree. tree_of line.now ≡ Some (view tree)) }
    ensures sound { IfOk result (λ tree. IsSound (view tree)) }
    ensures err { IfErr result (λ e. Only e (tree_of line.now ≡ None)) }
{
    match Value::from_slice(alloc, line) {
        Ok(tree) if has_float(&tree) => Err(TreeError::Misfit),
        Ok(tree) => Ok(tree),
        Err(error) if error.is_memory() => Err(TreeError::Memory),
        Err(_) => Err(TreeError::Misfit),
    }
}

/// A reader of values of type `T` from JSON nodes.
pub trait ReadsNode<T>: Drop {
    // the tree may be read as the value
    ghost shown: { Self → Data → T → Type 0 };

    // the tree is read as no value
    ghost refused: { Self → Data → Type 0 };

    /// Reads a value from the tree at a node.
    ///
    /// # Errors
    ///
    /// - `Misfit` if the tree is not a value of the type.
    /// - `Memory` if an allocation fails.
    fn read<N: Node>(self, alloc: Global, node: &N) -> Result<T, TreeError>
        ensures ok { IfOk result (λ value. shown self (N.data_of node.now) value) }
        ensures err { IfErr result (λ e. Only e (refused self (N.data_of node.now))) };
}

// A shorter line takes little memory, whatever its members are, and less time if none is left out.
const LONG: usize = 16384;

/// A reader of lines of JSON, which keeps its working memory from line to line.
///
/// A line is read in one pass onto a tape ([`Tape::parse`]). One that the tape doesn't take, such
/// as a damaged one, is read into a tree, and [`read_tree`] decides whether it is taken. Where an
/// allocation fails, the line isn't read in another way.
#[derive(Drop)]
pub struct LineReader<'a> {
    alloc: Global,
    tape: Tape<'a>,
}

impl<'a> LineReader<'a> {
    /// Creates a reader, without allocating yet. `texts` takes what strings with escapes stand for.
    pub fn new(alloc: Global, texts: &'a Bump) -> LineReader<'a> {
        LineReader {
            alloc,
            tape: Tape::new(alloc, texts),
        }
    }

    /// Returns the allocator of the reader.
    #[inline]
    pub fn alloc(&self) -> Global {
        self.alloc
    }

    /// Reads a line onto the tape, in place of the one before, as [`Tape::parse`] does.
    ///
    /// # Errors
    ///
    /// `AllocError` if an allocation fails.
    #[inline]
    pub fn parse(&mut self, line: &'a [u8]) -> Result<Parsed<'_, 'a>, AllocError>
        ensures { IfOk result (λ read. IsParsed read line.now) }
    {
        self.tape.parse(line)
    }

    /// Returns the root node of a line; `None` if it has to be read as a tree, never because an
    /// allocation fails.
    ///
    /// # Errors
    ///
    /// `AllocError` if an allocation fails.
    #[inline]
    pub fn root(&mut self, line: &'a [u8]) -> Result<Option<TapeNode<'_, 'a>>, AllocError>
        ensures { IfOk result (λ read. IfSome read (λ root.
            tree_of line.now ≡ Some (node_data root))) }
    {
        match self.tape.parse(line)? {
            Parsed::Root(root) => Ok(Some(root)),
            Parsed::Float | Parsed::Other => Ok(None),
        }
    }

    /// Reads a value from a line with `reader`.
    ///
    /// # Errors
    ///
    /// - `Misfit` if [`read_tree`] rejects the line, or the tree is not a value of the type.
    /// - `Memory` if an allocation fails.
    #[tactic(auto, using(crate::proofs::Texts::line_shows, crate::proofs::Texts::line_refused, crate::proofs::Texts::no_line))]
    pub fn read_by<T, R: ReadsNode<T>>(&mut self, line: &'a [u8], reader: R) -> Result<T, TreeError>
        ensures ok { IfOk result (λ value. LineShows (λ d. R.shown reader d value) line.now) }
        ensures err { IfErr result (λ e. Only e (LineRefused (λ d. R.refused reader d) line.now)) }
    {
        match self.tape.parse(line)? {
            Parsed::Root(root) => reader.read(self.alloc, &root),
            Parsed::Float => Err(TreeError::Misfit),
            Parsed::Other => read_as_tree(self.alloc, line, reader),
        }
    }

    /// Reads a long line that is an object, the member at `apart` apart from the others: the value
    /// that `reader` makes of the members of `keys`, and the members of the object at `apart`, if
    /// one stands there. Neither that object nor members of other keys leave tokens.
    ///
    /// `None` if the line isn't long, or if it isn't such an object or can't be read, never because
    /// an allocation fails: [`LineReader::read_by`] decides then.
    ///
    /// # Errors
    ///
    /// `AllocError` if an allocation fails.
    pub fn read_apart<T, R: ReadsNode<T>>(
        &mut self,
        line: &'a [u8],
        keys: &[&str],
        apart: &str,
        reader: R,
    ) -> Result<Option<(T, Option<Map<String, Value>>)>, AllocError>
        requires { is_among apart.now (map (λ key. key.now) keys.now) ≡ false }
        ensures { IfOk result (λ read. IfSome read (λ x. LineShows (λ d.
            R.shown reader (at_keys (map (λ key. key.now) keys.now) d) x.0
            × (option_map (λ m. object (members_view m.entries)) x.1 ≡ get apart.now d))
            line.now)) }
    {
        if line.len() < LONG {
            return Ok(None);
        }
        let Some((root, members)) = self.tape.parse_at(line, keys, apart)? else {
            return Ok(None);
        };
        match reader.read(self.alloc, &root) {
            Ok(value) => Ok(Some((value, members))),
            Err(TreeError::Misfit) => Ok(None),
            Err(TreeError::Memory) => Err(AllocError),
        }
    }

    /// Reads a value from a line.
    ///
    /// # Errors
    ///
    /// As of [`LineReader::read_by`].
    #[tactic(auto, using(crate::proofs::Texts::text_read_by))]
    pub fn read<T: FromTree>(&mut self, line: &'a [u8]) -> Result<T, TreeError>
        ensures { ReadsText T.kind T.cell_of line.now result }
    {
        self.read_by(line, Plainly)
    }

    /// Reads the values of a line that is an object of one member, an array at `key`. The tape
    /// holds one value at a time.
    ///
    /// `None` if it isn't such a line, or if one of its items is not a value of the type, never
    /// because an allocation fails: [`LineReader::read`] decides then.
    ///
    /// # Errors
    ///
    /// `AllocError` if an allocation fails.
    pub fn read_list<T: FromTree>(
        &mut self,
        key: &str,
        line: &'a [u8],
    ) -> Result<Option<Vec<T>>, AllocError>
        ensures { IfOk result (λ read. IfSome read (λ values. TextShown
            (table (row key.now must (list T.kind) no_rows) ignored) line.now
            (fields (cell (list_cell T.cell_of values.items) no_cells) no_members))) }
    {
        let mut visitor = ListVisitor {
            alloc: self.alloc,
            values: Vec::new(self.alloc),
        };
        let Some(()) = self.tape.parse_list(line, key, &mut visitor)? else {
            return Ok(None);
        };
        Ok(Some(visitor.values))
    }
}

impl<'a> LineReader<'a> {
    /// Writes the value that a line shows as JSON text; what can be is written as it is read, and no
    /// value made of it.
    ///
    /// # Errors
    ///
    /// As of [`LineReader::read`]; part of the text may have been written.
    #[tactic(auto, using(crate::proofs::Passing::line_passed))]
    pub fn pass<T: FromTree>(&mut self, line: &'a [u8], out: &mut Writer) -> Result<(), TreeError>
        ensures { PassesText T.kind line.now result out.old out.new }
    {
        match self.tape.parse(line)? {
            Parsed::Root(root) => T::pass(self.alloc, &root, out),
            Parsed::Float => Err(TreeError::Misfit),
            Parsed::Other => pass_as_tree::<T>(self.alloc, line, out),
        }
    }

    /// Writes the values of a line that is an object of one member, an array at `key`, without the
    /// brackets round them, and returns how many there are. The tape holds one value at a time.
    ///
    /// `None` if it isn't such a line, or if one of its items is not a value of the type, never
    /// because an allocation fails: [`LineReader::pass`] decides then. Part of the text may have been
    /// written.
    ///
    /// # Errors
    ///
    /// `AllocError` if an allocation fails.
    pub fn pass_list<T: FromTree>(
        &mut self,
        key: &str,
        line: &'a [u8],
        out: &mut Writer,
    ) -> Result<Option<usize>, AllocError>
        ensures { IfOk result (λ read. IfSome read (λ count.
            ListPassed T.kind key.now line.now count out.old out.new)) }
    {
        let mut visitor = PassingVisitor::<T> {
            alloc: self.alloc,
            out,
            count: 0,
            of: PhantomData,
        };
        let Some(()) = self.tape.parse_list(line, key, &mut visitor)? else {
            return Ok(None);
        };
        let PassingVisitor { out, count, .. } = visitor;
        leave(out);
        Ok(Some(count))
    }
}

// Writes the value of any line, which is read as a tree. Not inlined: few lines come here.
#[cold]
#[inline(never)]
#[tactic(auto, using(crate::proofs::Passing::line_passed, crate::proofs::Passing::line_unread))]
fn pass_as_tree<T: FromTree>(alloc: Global, line: &[u8], out: &mut Writer) -> Result<(), TreeError>
    ensures { PassesText T.kind line.now result out.old out.new }
{
    let tree = read_tree(alloc, line)?;
    T::pass(alloc, &&tree, out)
}

// A visitor that writes the values of a list, and counts them.
#[derive(Drop)]
struct PassingVisitor<'w, T> {
    alloc: Global,
    out: &'w mut Writer,
    count: usize,
    of: PhantomData<T>,
}

impl<'w, T: FromTree> Visitor for PassingVisitor<'w, T> {
    ghost visits = { λ before d after. (after.count ≡ before.count + 1)
        × (after.out.ghost_name ≡ before.out.ghost_name)
        × Passed T.kind d before.out.now after.out.now };

    fn visit<N: Node>(&mut self, node: &N) -> Result<bool, AllocError> {
        let Some(count) = self.count.checked_add(1) else {
            return Err(AllocError);
        };
        match T::pass(self.alloc, node, &mut *self.out) {
            Ok(()) => {
                self.count = count;
                Ok(true)
            }
            Err(TreeError::Misfit) => Ok(false),
            Err(TreeError::Memory) => Err(AllocError),
        }
    }
}

// A visitor that keeps the values of a list.
#[derive(Drop)]
struct ListVisitor<T: Drop> {
    alloc: Global,
    values: Vec<T>,
}

impl<T: FromTree> Visitor for ListVisitor<T> {
    ghost visits = { λ before d after. (v : T)
        × (after.values.items ≡ before.values.items ++ v ∷ []) × Shown T.kind d (T.cell_of v) };

    fn visit<N: Node>(&mut self, node: &N) -> Result<bool, AllocError> {
        match T::from_node(self.alloc, node) {
            Ok(value) => {
                if self.values.push(value).is_err() {
                    return Err(AllocError);
                }
                Ok(true)
            }
            Err(TreeError::Misfit) => Ok(false),
            Err(TreeError::Memory) => Err(AllocError),
        }
    }
}

// Reads any line, as a tree. Not inlined: few lines come here.
#[cold]
#[inline(never)]
#[tactic(auto, using(crate::proofs::Texts::line_shows, crate::proofs::Texts::line_refused, crate::proofs::Texts::no_line))]
fn read_as_tree<T, R: ReadsNode<T>>(alloc: Global, line: &[u8], reader: R) -> Result<T, TreeError>
    ensures ok { IfOk result (λ value. LineShows (λ d. R.shown reader d value) line.now) }
    ensures err { IfErr result (λ e. Only e (LineRefused (λ d. R.refused reader d) line.now)) }
{
    let tree = read_tree(alloc, line)?;
    reader.read(alloc, &&tree)
}

// The reader of a type by its own `FromTree`.
#[derive(Drop)]
struct Plainly;

impl<T: FromTree> ReadsNode<T> for Plainly {
    ghost shown = { λ reader d value. Shown T.kind d (T.cell_of value) };

    ghost refused = { λ reader d. Refused T.kind d };

    fn read<N: Node>(self, alloc: Global, node: &N) -> Result<T, TreeError> {
        T::from_node(alloc, node)
    }
}

/// Reads a value from a line.
///
/// To read many lines, make one [`LineReader`].
///
/// # Errors
///
/// - `Misfit` if [`read_tree`] rejects the line, or the tree is not a value of the type.
/// - `Memory` if an allocation fails.
#[inline(never)]
pub fn read_line<T: FromTree>(alloc: Global, line: &[u8]) -> Result<T, TreeError>
    ensures { ReadsText T.kind T.cell_of line.now result }
{
    let texts = Bump::new(alloc);
    LineReader::new(alloc, &texts).read(line)
}
