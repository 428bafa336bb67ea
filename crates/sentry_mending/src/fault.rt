//! A fault of an envelope, with its place.

ghost use Rattle.std.specs.Prelude.{◌≡◌, IfOk, List, OnOk, ℕ};
ghost use Rattle.serde_json.specs.Data.{string};
ghost use Rattle.serde_json.specs.View.{members_view, view};
ghost use Rattle.sentry_mending.specs.FaultTrees.{break_members, cause_members, fault_tree, index_tree, place_members, shown_text};
ghost use Rattle.sentry_tables.specs.Written.{put_all};

use sentry_framing::EnvelopeError;
use sentry_places::{Break, Place};
use serde_json::{Map, Value, put};
use std::alloc::{AllocError, Global};
use std::{fmt, str};

/// Why an item or a header line is refused.
#[derive(Debug, Drop)]
pub enum Cause {
    /// The whole of it: its framing, or no place inside was found.
    Whole,
    /// It isn't JSON.
    Syntax(Break),
    /// A value inside doesn't fit.
    Place(Place),
}

/// A fault of an envelope: the check that fails, and where.
#[derive(Debug, Drop)]
pub struct Fault {
    /// The first check of the item that fails, as if it stood alone.
    pub error: EnvelopeError,
    /// Index of the item; `None` for the header line.
    pub item: Option<usize>,
    /// Item type (`type`); empty if it can't be read.
    pub word: Vec<u8>,
    /// First byte of the item, or of the header line.
    pub start: usize,
    /// Byte behind it.
    pub end: usize,
    /// What doesn't fit. Offsets are those of the envelope.
    pub cause: Cause,
}

// Returns the text of these bytes; `?` if they aren't UTF-8.
#[tactic(auto, using(crate::proofs::Shown::shown_as_text, crate::proofs::Shown::shown_as_mark))]
fn text_of(bytes: &[u8]) -> &str
    ensures { result.now ≡ shown_text bytes.now }
{
    match str::from_utf8(bytes) {
        Ok(text) => text,
        Err(_) => "?",
    }
}

impl fmt::Display for Cause {
    fn fmt<W: fmt::Write>(&self, f: &mut fmt::Formatter<W>) -> fmt::Result {
        match self {
            Cause::Whole => f.write_str("the whole"),
            Cause::Syntax(end) => {
                let expected = end.expected.as_str();
                write!(f, "no JSON at byte {}: expected {expected}", end.at)
            }
            Cause::Place(place) => {
                let path = str::from_utf8(&place.path).unwrap_or("?");
                let wanted = place.wanted.as_str();
                let found = place.found.as_str();
                let value = str::from_utf8(&place.value).unwrap_or("?");
                let space = if value.is_empty() { "" } else { " " };
                write!(
                    f,
                    "`{path}` at bytes {}..{}: wanted {wanted}, found {found}{space}{value}",
                    place.start, place.end
                )
            }
        }
    }
}

impl fmt::Display for Fault {
    fn fmt<W: fmt::Write>(&self, f: &mut fmt::Formatter<W>) -> fmt::Result {
        match self.item {
            None => write!(f, "header line: {}: {}", self.error, self.cause),
            Some(item) => {
                let word = str::from_utf8(&self.word).unwrap_or("?");
                let range = (self.start, self.end);
                write!(
                    f,
                    "item {item} `{word}` at bytes {}..{}: {}: {}",
                    range.0, range.1, self.error, self.cause
                )
            }
        }
    }
}

fn text_value(alloc: Global, bytes: &[u8]) -> Result<Value, AllocError>
    ensures { IfOk result (λ t. view t ≡ string (shown_text bytes.now)) }
{
    let text = text_of(bytes);
    let value = Value::try_from_str(alloc, text)?;
    Ok(value)
}

// Sets the members of a break.
fn put_break(alloc: Global, members: &mut Map<String, Value>, end: &Break) -> Result<(), AllocError>
    ensures { OnOk result (members_view members.new.entries
        ≡ put_all (break_members end.now) (members_view members.old.entries)) }
{
    put(members, alloc, "at", Value::from(end.at))?;
    let expected = Value::try_from_str(alloc, end.expected.as_str())?;
    put(members, alloc, "expected", expected)?;
    Ok(())
}

// Sets the members of a place.
fn put_place(
    alloc: Global,
    members: &mut Map<String, Value>,
    place: &Place,
) -> Result<(), AllocError>
    ensures { OnOk result (members_view members.new.entries
        ≡ put_all (place_members place.now) (members_view members.old.entries)) }
{
    put(members, alloc, "path", text_value(alloc, &place.path)?)?;
    put(members, alloc, "from", Value::from(place.start))?;
    put(members, alloc, "to", Value::from(place.end))?;
    let wanted = Value::try_from_str(alloc, place.wanted.as_str())?;
    put(members, alloc, "wanted", wanted)?;
    let found = Value::try_from_str(alloc, place.found.as_str())?;
    put(members, alloc, "found", found)?;
    put(members, alloc, "value", text_value(alloc, &place.value)?)?;
    Ok(())
}

// Sets the members of a cause.
fn put_cause(
    alloc: Global,
    members: &mut Map<String, Value>,
    cause: &Cause,
) -> Result<(), AllocError>
    ensures { OnOk result (members_view members.new.entries
        ≡ put_all (cause_members cause.now) (members_view members.old.entries)) }
{
    match cause {
        Cause::Whole => {}
        Cause::Syntax(end) => put_break(alloc, members, end)?,
        Cause::Place(place) => put_place(alloc, members, place)?,
    }
    Ok(())
}

// Returns the index of an item; null for the header line.
fn index_value(item: Option<usize>) -> Value
    ensures { view result ≡ index_tree item }
{
    match item {
        Some(item) => Value::from(item),
        None => Value::Null,
    }
}

impl Fault {
    /// Returns the fault as a JSON object: `error`, `item` (null for the header line), `type`,
    /// `start` and `end`; of broken JSON `at` and `expected`, of a value that doesn't fit `path`,
    /// `from`, `to`, `wanted`, `found` and `value`.
    ///
    /// # Errors
    ///
    /// `AllocError` if an allocation fails.
    pub fn to_tree(&self, alloc: Global) -> Result<Value, AllocError>
        ensures { IfOk result (λ t. (message : List ℕ) ×
            (view t ≡ fault_tree message self.now)) }
    {
        let mut members = Map::new(alloc);
        let message = self.error.to_string(alloc)?;
        put(&mut members, alloc, "error", Value::from(message))?;
        put(&mut members, alloc, "item", index_value(self.item))?;
        put(&mut members, alloc, "type", text_value(alloc, &self.word)?)?;
        put(&mut members, alloc, "start", Value::from(self.start))?;
        put(&mut members, alloc, "end", Value::from(self.end))?;
        put_cause(alloc, &mut members, &self.cause)?;
        Ok(Value::from(members))
    }
}
