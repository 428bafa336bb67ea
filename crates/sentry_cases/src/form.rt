//! Values that lines of JSON show, and what is written of them.

use crate::said::{debug, list, refused, text};
use bumpalo::Bump;
use rand_pcg::Pcg32;
use sentry_json::{Parsed, Scalar, Tape, look_up};
use sentry_types::protocol::v7::value::Writer;
use sentry_types::protocol::v7::{
    Codec, FromTree, FromTreeAt, Member, Moment, Node, Own, ReadCodec, ReadCodecAt, TreeError,
    TreeMember, Value, Values, Way, read_line, read_line_at, read_tree,
};
use std::alloc::{AllocError, Global};
use std::fmt::Debug;

/// What a value writes: the tree in a list, where the value's text, its clone and its normal form
/// agree with it.
pub fn written<F: Codec<T>, T: Drop>(
    alloc: Global,
    value: &T,
    clone: &T,
) -> Result<Value, AllocError> {
    let tree = F::to_tree(value, alloc)?;
    let line = tree.to_string(alloc)?;
    let mut out = Writer::new(Vec::new(alloc));
    F::write(value, &mut out)?;
    let normal = F::remake(value, Way::Normal(alloc))?;
    let same = out.into_inner().as_slice() == line.as_bytes()
        && F::is_plain(value)
        && F::to_tree(clone, alloc)?.to_string(alloc)?.as_str() == line.as_str()
        && F::to_tree(&normal, alloc)?.to_string(alloc)?.as_str() == line.as_str();
    if same {
        list(alloc, [Ok(tree)])
    } else {
        drop(tree);
        text(alloc, "two texts")
    }
}

/// What a value that was read writes, or why none was read.
pub fn answered<F: Codec<T>, T: Drop>(
    alloc: Global,
    read: &Result<T, TreeError>,
) -> Result<Value, AllocError> {
    match read {
        Ok(value) => written::<F, T>(alloc, value, &F::remake(value, Way::Same)?),
        Err(error) => refused(alloc, error),
    }
}

/// The same, by the type's own call `clone`.
pub fn answered_by<T: Member, C: FnOnce(&T) -> Result<T, AllocError>>(
    alloc: Global,
    read: &Result<T, TreeError>,
    clone: C,
) -> Result<Value, AllocError>
    requires { C.IsAlwaysCallable clone }
{
    match read {
        Ok(value) => written::<Own, T>(alloc, value, &clone(value)?),
        Err(error) => refused(alloc, error),
    }
}

/// Whether two trees have one text.
pub fn are_alike(alloc: Global, one: &Value, other: &Value) -> Result<bool, AllocError> {
    let one = one.to_string(alloc)?;
    let other = other.to_string(alloc)?;
    Ok(one.as_str() == other.as_str())
}

/// What one way answers, if the other answers the same.
pub fn agreed(
    alloc: Global,
    one: Value,
    other: Result<Value, AllocError>,
) -> Result<Value, AllocError> {
    match other {
        Ok(other) => {
            if are_alike(alloc, &one, &other)? {
                drop(other);
                Ok(one)
            } else {
                list(alloc, [text(alloc, "otherwise"), Ok(other), Ok(one)])
            }
        }
        Err(error) => {
            drop(one);
            Err(error)
        }
    }
}

/// The value that a line shows as a tree of values.
pub fn by_tree<T: FromTree>(alloc: Global, line: &[u8]) -> Result<T, TreeError> {
    T::from_tree(alloc, &read_tree(alloc, line)?)
}

// What the tree of values answers, if that is a list of the text that was passed, or the same error.
fn passed(
    alloc: Global,
    told: Value,
    text_of: Vec<u8>,
    ended: &Result<(), TreeError>,
) -> Result<Value, AllocError> {
    let same = match ended {
        Ok(()) => told.to_string(alloc)?.as_bytes() == text_of.as_slice(),
        Err(error) => are_alike(alloc, &told, &refused(alloc, error)?)?,
    };
    if same {
        return Ok(told);
    }
    drop(told);
    text(alloc, "passed otherwise")
}

// What the tree of values answers, if the tape answers the same or the line has none; and if it is
// what is written while the tape is read.
fn beside_tape<F: ReadCodec<T>, T: Drop>(
    alloc: Global,
    line: &[u8],
    told: Value,
) -> Result<Value, AllocError> {
    let texts = Bump::new(alloc);
    let mut tape = Tape::new(alloc, &texts);
    let root = match tape.parse(line)? {
        Parsed::Root(root) => root,
        Parsed::Float | Parsed::Other => return Ok(told),
    };
    let by_tape = F::from_node(alloc, &root);
    let told = agreed(alloc, told, answered::<F, T>(alloc, &by_tape))?;
    let mut out = Writer::new(Vec::new(alloc));
    out.begin_array()?;
    let ended = F::pass(alloc, &root, &mut out);
    out.end_array()?;
    passed(alloc, told, out.into_inner(), &ended)
}

// As `beside_tape`, for a type with one form, where the line reader has to answer the same too.
fn beside_line<T: FromTree>(alloc: Global, line: &[u8], told: Value) -> Result<Value, AllocError> {
    let told = beside_tape::<Own, T>(alloc, line, told)?;
    agreed(
        alloc,
        told,
        answered::<Own, T>(alloc, &read_line(alloc, line)),
    )
}

// The value that a line shows in a form, as a tree of values.
fn by_tree_as<F: ReadCodec<T>, T: Drop>(alloc: Global, line: &[u8]) -> Result<T, TreeError> {
    F::from_node(alloc, &&read_tree(alloc, line)?)
}

/// What the value that a line shows in a form writes. The line is read as a tree of values and,
/// where the tape takes it, onto a tape; both have to give the same answer.
pub fn form<F: ReadCodec<T>, T: Drop>(alloc: Global, line: &[u8]) -> Result<Value, AllocError> {
    let told = answered::<F, T>(alloc, &by_tree_as::<F, T>(alloc, line))?;
    beside_tape::<F, T>(alloc, line, told)
}

/// The same for a type with one form, by the line reader too.
pub fn own<T: FromTree>(alloc: Global, line: &[u8]) -> Result<Value, AllocError> {
    let told = answered::<Own, T>(alloc, &by_tree::<T>(alloc, line))?;
    beside_line::<T>(alloc, line, told)
}

/// The same for a type with a call `clone` that may fail.
pub fn cloned<T: FromTree, C: FnOnce(&T) -> Result<T, AllocError>>(
    alloc: Global,
    line: &[u8],
    clone: C,
) -> Result<Value, AllocError>
    requires { C.IsAlwaysCallable clone }
{
    let told = answered_by(alloc, &by_tree::<T>(alloc, line), clone)?;
    beside_line::<T>(alloc, line, told)
}

/// The moment at which lines are read: 2020-07-20T14:51:14.296Z.
pub fn now() -> Moment {
    Moment::new(1_595_256_674, 296_000_000).unwrap()
}

/// The generator of absent ids.
pub fn ids() -> Pcg32 {
    Pcg32::new(42, 54)
}

/// The value that a line shows as a tree of values at the moment of reading.
pub fn by_tree_at<T: FromTreeAt>(alloc: Global, line: &[u8]) -> Result<T, TreeError> {
    T::from_tree(alloc, &read_tree(alloc, line)?, now(), &mut ids())
}

/// The value that a line shows at the moment of reading, whatever holds its tree.
pub fn by_line_at<T: FromTreeAt>(alloc: Global, line: &[u8]) -> Result<T, TreeError> {
    read_line_at(alloc, line, now(), &mut ids())
}

// As `beside_tape`, at the moment of reading.
fn beside_tape_at<F: ReadCodecAt<T>, T: Drop>(
    alloc: Global,
    line: &[u8],
    told: Value,
) -> Result<Value, AllocError> {
    let texts = Bump::new(alloc);
    let mut tape = Tape::new(alloc, &texts);
    let root = match tape.parse(line)? {
        Parsed::Root(root) => root,
        Parsed::Float | Parsed::Other => return Ok(told),
    };
    let by_tape = F::from_node(alloc, &root, now(), &mut ids());
    let told = agreed(alloc, told, answered::<F, T>(alloc, &by_tape))?;
    let mut out = Writer::new(Vec::new(alloc));
    out.begin_array()?;
    let ended = F::pass(alloc, &root, now(), &mut ids(), &mut out);
    out.end_array()?;
    passed(alloc, told, out.into_inner(), &ended)
}

// The value that a line shows in a form at the moment of reading, as a tree of values.
fn by_tree_as_at<F: ReadCodecAt<T>, T: Drop>(alloc: Global, line: &[u8]) -> Result<T, TreeError> {
    F::from_node(alloc, &&read_tree(alloc, line)?, now(), &mut ids())
}

/// As `form`, at the moment of reading.
pub fn form_at<F: ReadCodecAt<T>, T: Drop>(
    alloc: Global,
    line: &[u8],
) -> Result<Value, AllocError> {
    let told = answered::<F, T>(alloc, &by_tree_as_at::<F, T>(alloc, line))?;
    beside_tape_at::<F, T>(alloc, line, told)
}

/// As `cloned`, at the moment of reading.
pub fn cloned_at<T: FromTreeAt, C: FnOnce(&T) -> Result<T, AllocError>>(
    alloc: Global,
    line: &[u8],
    clone: C,
) -> Result<Value, AllocError>
    requires { C.IsAlwaysCallable clone }
{
    let told = answered_by(alloc, &by_tree_at::<T>(alloc, line), clone)?;
    let told = beside_tape_at::<Own, T>(alloc, line, told)?;
    agreed(
        alloc,
        told,
        answered::<Own, T>(alloc, &by_line_at(alloc, line)),
    )
}

// A tree that a clone writes too, in a list.
fn cloned_member<T: TreeMember>(alloc: Global, value: &T) -> Result<Value, AllocError> {
    if !value.is_plain() {
        return text(alloc, "not plain");
    }
    let clone = value.clone()?;
    agreed(alloc, value.to_tree(alloc)?, clone.to_tree(alloc))
}

/// The tree in a list that a value writes that may stand in lists, read at the moment of reading.
pub fn member<T: TreeMember>(alloc: Global, line: &[u8]) -> Result<Value, AllocError> {
    match member_of::<T>(alloc, line) {
        Ok(value) => list(alloc, [cloned_member(alloc, &value)]),
        Err(error) => refused(alloc, &error),
    }
}

fn member_of<T: TreeMember>(alloc: Global, line: &[u8]) -> Result<T, TreeError> {
    T::from_tree(alloc, &read_tree(alloc, line)?, now(), &mut ids())
}

/// The trees that the values of a list write, read at the moment of reading.
pub fn members<T: TreeMember>(alloc: Global, line: &[u8]) -> Result<Value, AllocError> {
    let values = match members_of::<T>(alloc, line) {
        Ok(values) => values,
        Err(error) => return refused(alloc, &error),
    };
    let mut trees = Vec::new(alloc);
    for value in values.as_slice() {
        trees.push(cloned_member(alloc, value)?)?;
    }
    Ok(Value::from(trees))
}

fn members_of<T: TreeMember>(alloc: Global, line: &[u8]) -> Result<Values<T>, TreeError> {
    T::values_from_tree(alloc, &read_tree(alloc, line)?, now(), &mut ids())
}

/// The `Debug` text of a value that was read.
pub fn debugged<T: Debug + Drop>(
    alloc: Global,
    read: Result<T, TreeError>,
) -> Result<Value, AllocError> {
    match read {
        Ok(value) => debug(alloc, &value),
        Err(error) => refused(alloc, &error),
    }
}

// `float` if `read_tree` refuses a line too that the tape refuses for a float, else `two answers`.
fn of_float(alloc: Global, line: &[u8]) -> Result<Value, AllocError> {
    match read_tree(alloc, line) {
        Err(TreeError::Misfit) => text(alloc, "float"),
        _ => text(alloc, "two answers"),
    }
}

/// `true` if the tape takes a line and has the tree that `read_tree` gives, `float` if both refuse
/// it, the tape for a float, and `two answers` if they differ; `by tree` if `read_tree` alone takes
/// the line, else its error.
pub fn of_tape(alloc: Global, line: &[u8]) -> Result<Value, AllocError> {
    let texts = Bump::new(alloc);
    let mut tape = Tape::new(alloc, &texts);
    let root = match tape.parse(line)? {
        Parsed::Root(root) => root,
        Parsed::Float => return of_float(alloc, line),
        Parsed::Other => {
            return match read_tree(alloc, line) {
                Ok(_) => text(alloc, "by tree"),
                Err(error) => refused(alloc, &error),
            };
        }
    };
    match read_tree(alloc, line) {
        Ok(tree) if are_alike(alloc, &tree, &root.to_value(alloc)?)? => Ok(Value::from(true)),
        _ => text(alloc, "two answers"),
    }
}

// A scalar as a tree; null where there is none.
fn found(alloc: Global, place: &Option<Scalar<'_>>) -> Result<Value, AllocError> {
    match place {
        Some(scalar) => scalar.to_value(alloc),
        None => Ok(Value::Null),
    }
}

/// What the members `a` and `b` leave of a line on a tape, and the object at `c` that is read
/// apart, or null; `false` if the tape doesn't take the line so.
pub fn of_apart(alloc: Global, line: &[u8]) -> Result<Value, AllocError> {
    let texts = Bump::new(alloc);
    let mut tape = Tape::new(alloc, &texts);
    let Some((root, apart)) = tape.parse_at(line, &["a", "b"], "c")? else {
        return Ok(Value::from(false));
    };
    let object = match apart {
        Some(members) => Value::Object(members),
        None => Value::Null,
    };
    list(alloc, [root.to_value(alloc), Ok(object)])
}

/// What a line has at the keys `a` and `b` by the way without a tape; `false` if that doesn't take
/// the line.
pub fn of_flat(alloc: Global, line: &[u8]) -> Result<Value, AllocError> {
    let mut places = [None, None];
    match look_up(line, &["a", "b"], &mut places) {
        Some(()) => list(alloc, [found(alloc, &places[0]), found(alloc, &places[1])]),
        None => Ok(Value::from(false)),
    }
}
