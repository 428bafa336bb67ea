//! Repairs that are likely: those that other values at places of the same shape got.
//!
//! A shape is a path without indices. Nothing is claimed of these repairs either: they are tried.

use crate::honest::quoted;
use crate::note::{Found, Note, Place, Repair, Wanted};
use crate::oracle::{Around, Oracle, joined};
use crate::scan::{byte_at, cut, found, space_end, value_end};
use crate::splicing::push_rest;
use std::alloc::{AllocError, Global};

/// A repair that values of a kind got at places of a shape.
#[derive(Drop)]
pub(crate) struct Habit {
    /// Shape of the places; where any key has them, that of their objects.
    pub shape: Vec<u8>,
    /// Whether members of any key are such places.
    pub any_key: bool,
    /// What stood there.
    pub found: Found,
    /// The string that stood there; of other values nothing.
    pub stood: Vec<u8>,
    /// What reads there.
    pub wanted: Wanted,
    /// What was done.
    pub repair: Repair,
}

// Most habits that are kept.
const MAX_HABITS: usize = 64;

/// Returns a path without its indices.
pub(crate) fn shape_of(alloc: Global, path: &[u8]) -> Result<Vec<u8>, AllocError> {
    let mut shape = Vec::with_capacity(alloc, path.len())?;
    let mut inside = false;
    for byte in path {
        if !inside || !byte.is_ascii_digit() {
            shape.push(*byte)?;
        }
        inside = *byte == b'[' || (inside && byte.is_ascii_digit());
    }
    Ok(shape)
}

/// Returns the habit that a repair makes, if it doesn't depend on the value that stood there: no
/// decimal reads anywhere, and where a string is wanted, no number or boolean does.
pub(crate) fn habit_of(
    alloc: Global,
    note: &Note,
    value: &[u8],
    path: &[u8],
) -> Result<Option<Habit>, AllocError> {
    let found = note.place.found;
    let is_text = found == Found::Text;
    let stands = match found {
        Found::Decimal => true,
        Found::Integer | Found::Boolean => note.place.wanted == Wanted::Text,
        _ => is_text && note.repair == Repair::AsStringType,
    };
    if !stands {
        return Ok(None);
    }
    let stood = if is_text { value } else { b"".as_slice() };
    Ok(Some(Habit {
        shape: shape_of(alloc, path)?,
        any_key: false,
        found,
        stood: joined(alloc, &[stood])?,
        wanted: note.place.wanted,
        repair: note.repair,
    }))
}

/// Keeps a habit, in the place of one of the same shape and value if there is one.
pub(crate) fn keep(habits: &mut Vec<Habit>, habit: Habit) -> Result<(), AllocError> {
    for old in habits.iter_mut() {
        let is_same = old.any_key == habit.any_key && old.found == habit.found;
        if is_same && old.stood == habit.stood && old.shape == habit.shape {
            *old = habit;
            return Ok(());
        }
    }
    if habits.len() >= MAX_HABITS {
        habits.clear();
    }
    habits.push(habit)?;
    Ok(())
}

/// Items of an array or members of an object, one behind the other.
#[derive(Clone, Copy)]
pub(crate) struct Run {
    /// First byte of the first.
    pub begin: usize,
    /// Byte behind the last.
    pub end: usize,
    /// Whether they are items of an array.
    pub is_array: bool,
    /// Index of the first in its array.
    pub index: usize,
}

// An array or an object that is open, with the place of the item or member.
#[derive(Clone, Copy)]
struct Level {
    is_array: bool,
    // length of the shape of the array or object
    shape_len: usize,
    index: usize,
    // where the key stands, without its quotes
    key_start: usize,
    key_end: usize,
    // whether the key was read
    keyed: bool,
}

// A walk over the text of a run.
#[derive(Drop)]
struct Walk<'t> {
    alloc: Global,
    text: &'t [u8],
    // path of the array or object of the run
    path: &'t [u8],
    shape: Vec<u8>,
    levels: Vec<Level>,
}

impl Walk<'_> {
    // Opens an array or an object.
    fn open(&mut self, is_array: bool, index: usize) -> Result<(), AllocError> {
        let shape_len = self.shape.len();
        if is_array {
            self.shape.extend_from_slice(b"[]")?;
        }
        self.levels.push(Level {
            is_array,
            shape_len,
            index,
            key_start: 0,
            key_end: 0,
            keyed: false,
        })?;
        Ok(())
    }

    // Ends the innermost array or object.
    fn close(&mut self) {
        if let Some(level) = self.levels.pop() {
            self.shape.truncate(level.shape_len);
        }
    }

    // Goes on behind a comma.
    fn next(&mut self) {
        if let Some(level) = self.levels.last_mut() {
            level.index = level.index.saturating_add(1);
            level.keyed = false;
        }
    }

    // Takes a string as the key of a member, if it is one.
    fn takes_key(&mut self, start: usize, end: usize) -> Result<bool, AllocError> {
        let Some(level) = self.levels.last_mut() else {
            return Ok(false);
        };
        if level.is_array || level.keyed {
            return Ok(false);
        }
        level.keyed = true;
        level.key_start = start.saturating_add(1);
        level.key_end = end.saturating_sub(1);
        let outside = level.shape_len;
        let key = cut(self.text, level.key_start, level.key_end);
        self.shape.truncate(outside);
        if outside > 0 {
            self.shape.push(b'.')?;
        }
        self.shape.extend_from_slice(key)?;
        Ok(true)
    }

    // Returns the path of the value at which the walk is.
    fn place_path(&self) -> Result<Vec<u8>, AllocError> {
        let alloc = self.alloc;
        let mut path = joined(alloc, &[self.path])?;
        for level in &self.levels {
            if level.is_array {
                let name = format!(in alloc; "[{}]", level.index)?;
                path.extend_from_slice(name.as_str().as_bytes())?;
            } else {
                if !path.is_empty() {
                    path.push(b'.')?;
                }
                path.extend_from_slice(cut(self.text, level.key_start, level.key_end))?;
            }
        }
        Ok(path)
    }

    // Whether values of the shape at which the walk is have the habit.
    fn has_habit(&self, habit: &Habit, kind: Found, value: &[u8]) -> bool {
        if habit.found != kind || (kind == Found::Text && habit.stood.as_slice() != value) {
            return false;
        }
        if !habit.any_key {
            return habit.shape.as_slice() == self.shape.as_slice();
        }
        let Some(level) = self.levels.last() else {
            return false;
        };
        !level.is_array && habit.shape.as_slice() == cut(&self.shape, 0, level.shape_len)
    }

    // Returns the habit of a value: that of its own shape before that of any key.
    fn habit_at<'h>(&self, habits: &'h [Habit], kind: Found, value: &[u8]) -> Option<&'h Habit> {
        let mut any = None;
        for habit in habits {
            if self.has_habit(habit, kind, value) {
                if !habit.any_key {
                    return Some(habit);
                }
                any = Some(habit);
            }
        }
        any
    }

    // Returns the note that a habit makes at a value; `None` if it can't.
    fn note<O: Oracle>(
        &self,
        oracle: &O,
        habit: &Habit,
        start: usize,
        end: usize,
    ) -> Result<Option<Note>, AllocError> {
        let alloc = self.alloc;
        let value = cut(self.text, start, end);
        let instead = match habit.repair {
            Repair::AsMoment => oracle.time_of(value)?,
            Repair::AsStringType => Some(joined(alloc, &[b"\"string\"".as_slice()])?),
            _ => Some(quoted(alloc, value)?),
        };
        let Some(instead) = instead else {
            return Ok(None);
        };
        let shown = match habit.found {
            Found::Text => b"".as_slice(),
            _ => cut(self.text, start, end.min(start.saturating_add(40))),
        };
        Ok(Some(Note {
            place: Place {
                path: self.place_path()?,
                found: habit.found,
                wanted: habit.wanted,
                value: joined(alloc, &[shown])?,
                start,
                end,
            },
            repair: habit.repair,
            because: None,
            start,
            end,
            instead,
        }))
    }
}

/// Returns the repairs that are likely in a run of the array or object at a path.
pub(crate) fn likely<O: Oracle>(
    alloc: Global,
    oracle: &O,
    text: &[u8],
    habits: &[Habit],
    run: Run,
    path: &[u8],
) -> Result<Vec<Note>, AllocError> {
    let mut notes = Vec::new(alloc);
    if habits.is_empty() {
        return Ok(notes);
    }
    let mut walk = Walk {
        alloc,
        text,
        path,
        shape: shape_of(alloc, path)?,
        levels: Vec::new(alloc),
    };
    walk.open(run.is_array, run.index)?;
    let mut at = run.begin;
    for _ in 0..text.len() {
        at = space_end(text, at);
        if at >= run.end {
            break;
        }
        let start = at;
        at = at.saturating_add(1);
        match byte_at(text, start) {
            b'{' => walk.open(false, 0)?,
            b'[' => walk.open(true, 0)?,
            b'}' | b']' => walk.close(),
            b',' => walk.next(),
            b':' => {}
            _ => {
                at = value_end(text, start);
                let value = cut(text, start, at);
                let kind = found(value);
                if kind == Found::Text && walk.takes_key(start, at)? {
                    continue;
                }
                if let Some(habit) = walk.habit_at(habits, kind, value)
                    && let Some(note) = walk.note(oracle, habit, start, at)?
                {
                    notes.push(note)?;
                }
            }
        }
    }
    Ok(notes)
}

/// Returns a text in which a run stands alone at its place, with what notes put there; `None` if the
/// notes aren't in order.
pub(crate) fn run_text(
    alloc: Global,
    text: &[u8],
    run: Run,
    around: Around<'_>,
    notes: &[Note],
) -> Result<Option<Vec<u8>>, AllocError> {
    let front = cut(text, 0, run.end);
    let mut payload = joined(alloc, &[around.before])?;
    if run.begin > front.len() || !push_rest(&mut payload, front, run.begin, notes)? {
        return Ok(None);
    }
    payload.extend_from_slice(around.behind)?;
    Ok(Some(payload))
}
