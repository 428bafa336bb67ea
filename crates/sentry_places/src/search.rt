//! Looks for the places of a JSON text that don't fit its type, from its members inwards.
//!
//! A place is tried alone: in a text that holds nothing else but what its tables require. So each
//! place that doesn't fit is found, however many there are. Those beside each other are tried
//! together, twice as many each time they read, with the repairs that others of their shape got.
//! Nothing is claimed of what is found: who asks has to try the whole.

use crate::donors::{DONORS, STRING_ATTRIBUTE, UNTYPED};
use crate::honest::quoted;
use crate::likely::{Habit, Run, habit_of, keep, likely, run_text, shape_of};
use crate::note::{Found, Note, Place, Repair, Repairs, Wanted};
use crate::oracle::{Around, Known, Oracle, fits, joined, know, known_at, wanted};
use crate::scan::{
    Part, cut, found, is_key, key_of, member_at, parts, space_end, value_end, value_of,
};
use crate::table::{
    Table, before_value, closed, empty_list, inside, item_path, member_path, opened,
};
use std::alloc::{AllocError, Global};

// A search of one JSON text.
#[derive(Drop)]
struct Search<'t, O> {
    alloc: Global,
    oracle: O,
    // the envelope
    text: &'t [u8],
    // what may be done; `None` if faults are listed, and none repaired
    repairs: Option<Repairs>,
    // how many notes there may be
    most: usize,
    // what reads at places that were asked: the items of an array are all tried at one place
    known: Vec<Known>,
    // repairs that others of their shape got
    habits: Vec<Habit>,
    notes: Vec<Note>,
    // the first place that can't be repaired
    stuck: Option<Place>,
    // there would be more notes
    over: bool,
}

/// What a search found.
#[derive(Drop)]
pub struct Searched {
    /// Notes on the places that don't fit, in order.
    pub notes: Vec<Note>,
    /// A place that can't be repaired, if there is one.
    pub stuck: Option<Place>,
}

// What becomes of a member that doesn't fit.
enum Fate {
    Kept,
    TakenOut,
    Stuck,
}

impl<O: Oracle> Search<'_, O> {
    // Returns whether a payload reads in which `value` stands at a place.
    fn fits(&mut self, around: Around<'_>, value: &[u8]) -> Result<bool, AllocError> {
        fits(self.alloc, &mut self.oracle, around, value)
    }

    // Returns what reads at a place.
    fn wanted(&mut self, around: Around<'_>) -> Result<Wanted, AllocError> {
        if let Some(wanted) = known_at(&self.known, around) {
            return Ok(wanted);
        }
        let wanted = wanted(self.alloc, &mut self.oracle, around)?;
        know(self.alloc, &mut self.known, around, wanted)?;
        Ok(wanted)
    }

    // Returns a place with the value that stands there.
    fn place(
        &mut self,
        path: &[u8],
        found: Found,
        value: (usize, usize),
        around: Around<'_>,
    ) -> Result<Place, AllocError> {
        let shown = match found {
            Found::Boolean | Found::Integer | Found::Decimal => {
                cut(self.text, value.0, value.1.min(value.0.saturating_add(40)))
            }
            _ => b"".as_slice(),
        };
        Ok(Place {
            path: joined(self.alloc, &[path])?,
            found,
            wanted: self.wanted(around)?,
            value: joined(self.alloc, &[shown])?,
            start: value.0,
            end: value.1,
        })
    }

    // Returns the place of a member or an item.
    fn place_of(
        &mut self,
        part: Part,
        path: &[u8],
        around: Around<'_>,
    ) -> Result<Place, AllocError> {
        let kind = found(value_of(self.text, &part));
        self.place(path, kind, (part.start, part.end), around)
    }

    // Appends a note, if there may be another.
    fn push(&mut self, note: Note) -> Result<bool, AllocError> {
        if self.notes.len() >= self.most {
            self.over = true;
            return Ok(false);
        }
        self.notes.push(note)?;
        Ok(true)
    }

    // Drops the notes from an index on, but where there would be more than are listed.
    fn drop_notes(&mut self, from: usize) {
        if self.repairs.is_some() || !self.over {
            self.notes.truncate(from);
        }
    }

    // Whether what is lost with a value may be lost: all may, or nothing is.
    fn may_lose(&self, part: Part) -> bool {
        match self.repairs {
            Some(Repairs::All) => true,
            Some(Repairs::Form) => found(value_of(self.text, &part)) == Found::Null,
            _ => false,
        }
    }

    // Notes a change if the text reads with it.
    fn takes(
        &mut self,
        part: Part,
        around: Around<'_>,
        path: &[u8],
        repair: Repair,
        instead: Vec<u8>,
    ) -> Result<bool, AllocError> {
        if !self.fits(around, &instead)? {
            return Ok(false);
        }
        self.stuck = None;
        let place = self.place_of(part, path, around)?;
        self.push(Note {
            place,
            repair,
            because: None,
            start: part.start,
            end: part.end,
            instead,
        })
    }

    // Notes a place that doesn't fit, where faults are listed.
    fn list_fault(&mut self, place: Place) -> Result<bool, AllocError> {
        let start = place.start;
        let end = place.end;
        self.push(Note {
            place,
            repair: Repair::Left,
            because: None,
            start,
            end,
            instead: Vec::new(self.alloc),
        })
    }

    // Repairs a scalar, or a container as a whole, by another form of the same characters.
    fn mend_form(
        &mut self,
        part: Part,
        around: Around<'_>,
        path: &[u8],
    ) -> Result<bool, AllocError> {
        let value = value_of(self.text, &part);
        let kind = found(value);
        if matches!(kind, Found::Null | Found::Text) {
            return Ok(false);
        }
        let text = quoted(self.alloc, value)?;
        if self.takes(part, around, path, Repair::AsText, text)? {
            self.learn(part, path)?;
            return Ok(true);
        }
        if matches!(kind, Found::Integer | Found::Decimal)
            && let Some(time) = self.oracle.time_of(value)?
            && self.takes(part, around, path, Repair::AsMoment, time)?
        {
            self.learn(part, path)?;
            return Ok(true);
        }
        Ok(false)
    }

    // Keeps the last repair for others of its shape.
    fn learn(&mut self, part: Part, path: &[u8]) -> Result<(), AllocError> {
        let Some(note) = self.notes.last() else {
            return Ok(());
        };
        let value = value_of(self.text, &part);
        if let Some(habit) = habit_of(self.alloc, note, value, path)? {
            keep(&mut self.habits, habit)?;
        }
        Ok(())
    }

    // Keeps the last habit for members of any key, if it is that of this member, and a member of a
    // key that no table has is refused as this one was and reads as it does now.
    fn learn_any_key(
        &mut self,
        part: Part,
        around: Around<'_>,
        path: &[u8],
    ) -> Result<(), AllocError> {
        let alloc = self.alloc;
        let (Some(habit), Some(note)) = (self.habits.last(), self.notes.last()) else {
            return Ok(());
        };
        let (found, wanted, repair) = (habit.found, habit.wanted, habit.repair);
        // Of a moment others have no part: where a string reads, a number becomes one.
        if repair != Repair::AsText || found != note.place.found || note.start != part.start {
            return Ok(());
        }
        let instead = joined(alloc, &[&note.instead])?;
        let before = before_value(alloc, around, b"\"?\"")?;
        let unknown = Around {
            before: &before,
            behind: around.behind,
        };
        let value = value_of(self.text, &part);
        if self.fits(unknown, value)? || !self.fits(unknown, &instead)? {
            return Ok(());
        }
        let habit = Habit {
            shape: shape_of(alloc, path)?,
            any_key: true,
            found,
            stood: Vec::new(alloc),
            wanted,
            repair,
        };
        keep(&mut self.habits, habit)
    }

    // Tries a run at once, with the repairs that are likely in it. Returns whether it reads; the
    // repairs are noted then.
    fn mend_run(&mut self, run: Run, around: Around<'_>, path: &[u8]) -> Result<bool, AllocError> {
        let alloc = self.alloc;
        let notes = likely(alloc, &self.oracle, self.text, &self.habits, run, path)?;
        let Some(payload) = run_text(alloc, self.text, run, around, &notes)? else {
            return Ok(false);
        };
        if !self.oracle.reads(&payload)? {
            return Ok(false);
        }
        if !notes.is_empty() {
            self.stuck = None;
        }
        for note in notes {
            if !self.push(note)? {
                return Ok(false);
            }
        }
        Ok(true)
    }

    // Notes that the type of an attribute becomes `string`. Returns whether it may.
    fn retype(&mut self, part: Part, around: Around<'_>, path: &[u8]) -> Result<bool, AllocError> {
        let word = joined(self.alloc, &[b"\"string\"".as_slice()])?;
        let takes = self.takes(part, around, path, Repair::AsStringType, word)?;
        if takes {
            self.learn(part, path)?;
        }
        Ok(takes)
    }

    // Returns how many items or members from an index on read together: so many, or one, or none.
    fn fit_run(
        &mut self,
        list: &[Part],
        at: usize,
        len: usize,
        around: Around<'_>,
        path: &[u8],
    ) -> Result<usize, AllocError> {
        if at >= list.len() || self.over {
            return Ok(0);
        }
        let first = list[at];
        let mut fit = len.min(list.len() - at).max(1);
        for _ in 0..2u8 {
            let last = at.saturating_add(fit).saturating_sub(1).min(list.len() - 1);
            let run = Run {
                begin: first.begin,
                end: list[last].end,
                is_array: first.begin == first.start,
                index: at,
            };
            if self.mend_run(run, around, path)? {
                return Ok(fit);
            }
            if fit == 1 {
                break;
            }
            fit = 1;
        }
        Ok(0)
    }

    // Repairs a value that is refused alone at its place, and notes the changes. Returns whether it
    // fits then.
    #[cycle(search)]
    fn mend(
        &mut self,
        part: Part,
        around: Around<'_>,
        path: &[u8],
        depth: usize,
    ) -> Result<bool, AllocError> {
        if self.over {
            return Ok(false);
        }
        let kind = found(value_of(self.text, &part));
        if depth > 0 {
            let below = depth - 1;
            if kind == Found::Array && self.fits(around, b"[]")? {
                return self.mend_items(part, around, path, below);
            }
            if kind == Found::Object
                && (self.mend_members(part, around, path, below, false)?
                    || self.mend_members(part, around, path, below, true)?)
            {
                return Ok(true);
            }
        }
        if self.repairs.is_none() {
            let place = self.place_of(part, path, around)?;
            return self.list_fault(place);
        }
        self.mend_form(part, around, path)
    }

    // Takes a member or an item out, with a comma beside it, if that may be. Returns whether.
    fn take_out(
        &mut self,
        list: &[Part],
        index: usize,
        kept: bool,
        around: Around<'_>,
        path: &[u8],
    ) -> Result<bool, AllocError> {
        if index >= list.len() {
            return Ok(false);
        }
        let part = list[index];
        // An item of an array isn't null for nothing: those behind it would move.
        let is_item = part.begin == part.start;
        if !self.may_lose(part) || (is_item && self.repairs != Some(Repairs::All)) {
            self.get_stuck(part, path, around)?;
            return Ok(false);
        }
        let (start, end) = if kept && index > 0 {
            (list[index - 1].end, part.end)
        } else if index + 1 < list.len() {
            (part.begin, list[index + 1].begin)
        } else {
            (part.begin, part.end)
        };
        let place = self.place_of(part, path, around)?;
        let because = self.stuck.take();
        self.push(Note {
            place,
            repair: Repair::TakenOut,
            because,
            start,
            end,
            instead: Vec::new(self.alloc),
        })
    }

    // Repairs an item of an array that is refused alone, or takes it out.
    #[cycle(search)]
    fn mend_item(
        &mut self,
        list: &[Part],
        at: usize,
        kept: bool,
        around: Around<'_>,
        path: &[u8],
        depth: usize,
    ) -> Result<Fate, AllocError> {
        let path = item_path(self.alloc, path, at)?;
        if at < list.len() && depth > 0 && self.mend(list[at], around, &path, depth - 1)? {
            return Ok(Fate::Kept);
        }
        Ok(if self.take_out(list, at, kept, around, &path)? {
            Fate::TakenOut
        } else {
            Fate::Stuck
        })
    }

    // Repairs the items of an array that reads where it is empty.
    #[cycle(search)]
    fn mend_items(
        &mut self,
        part: Part,
        around: Around<'_>,
        path: &[u8],
        depth: usize,
    ) -> Result<bool, AllocError> {
        let alloc = self.alloc;
        let list = parts(alloc, self.text, part.start)?;
        let before = opened(alloc, around, b"[", b"")?;
        let behind = closed(alloc, around, b"]")?;
        let inside = Around {
            before: &before,
            behind: &behind,
        };
        let noted = self.notes.len();
        if self.mend_parts(&list, inside, path, depth, None)?.is_some() {
            return Ok(self.notes.len() > noted);
        }
        self.drop_notes(noted);
        Ok(false)
    }

    // Repairs the items of an array, or the members of an object of a table. Returns whether some
    // are kept; `None` if not all can be repaired.
    #[cycle(search)]
    fn mend_parts(
        &mut self,
        list: &[Part],
        around: Around<'_>,
        path: &[u8],
        depth: usize,
        table: Option<&Table>,
    ) -> Result<Option<bool>, AllocError> {
        let mut kept = false;
        let mut at = 0;
        let mut len = 1;
        for _ in 0..list.len() {
            let fit = self.fit_run(list, at, len, around, path)?;
            if fit > 0 {
                kept = true;
                at = at.saturating_add(fit);
                len = fit.saturating_mul(2);
                continue;
            }
            if at >= list.len() {
                break;
            }
            let fate = match table {
                Some(table) => self.mend_member(list, at, kept, around, path, depth, table)?,
                None => self.mend_item(list, at, kept, around, path, depth)?,
            };
            match fate {
                Fate::Kept => kept = true,
                Fate::TakenOut => {}
                Fate::Stuck => return Ok(None),
            }
            at = at.saturating_add(1);
            len = 1;
        }
        Ok(Some(kept))
    }

    // Returns a table that reads where an object of these members stands, with the object's own tag
    // if it reads; `None` if there is none.
    fn table(&mut self, list: &[Part], around: Around<'_>) -> Result<Option<Table>, AllocError> {
        let alloc = self.alloc;
        for donor in DONORS.iter() {
            let bytes = donor.as_bytes();
            let required = parts(alloc, bytes, 0)?;
            let members = inside(alloc, bytes)?;
            let before = joined(alloc, &[around.before, b"{".as_slice(), &members])?;
            if let Some(tag) = member_at(self.text, list, b"\"type\"") {
                let tag = cut(self.text, tag.begin, tag.end);
                let behind = joined(alloc, &[b"}".as_slice(), around.behind])?;
                let tagged = Around {
                    before: &before,
                    behind: &behind,
                };
                if self.fits(tagged, tag)? {
                    return Ok(Some(Table {
                        donor: bytes,
                        required,
                        members: joined(alloc, &[&members, tag, b",".as_slice()])?,
                        retyped: false,
                    }));
                }
            }
            let untagged = match member_at(bytes, &required, b"\"type\"") {
                Some(tag) => value_of(bytes, &tag) == b"\"\"".as_slice(),
                None => true,
            };
            if untagged && self.fits(around, bytes)? {
                return Ok(Some(Table {
                    donor: bytes,
                    required,
                    members,
                    retyped: false,
                }));
            }
        }
        Ok(None)
    }

    // Returns the table of string attributes, if an object of these members is an attribute whose
    // type and value don't fit each other.
    fn attribute_table(
        &mut self,
        list: &[Part],
        around: Around<'_>,
    ) -> Result<Option<Table>, AllocError> {
        let alloc = self.alloc;
        let Some(tag) = member_at(self.text, list, b"\"type\"") else {
            return Ok(None);
        };
        let word = value_of(self.text, &tag);
        let is_typed = found(word) == Found::Text && word != b"\"string\"".as_slice();
        let has_value = member_at(self.text, list, b"\"value\"").is_some();
        if self.repairs.is_none() || !is_typed || !has_value {
            return Ok(None);
        }
        let donor = STRING_ATTRIBUTE.as_bytes();
        // Where any type reads, it is no attribute.
        if !self.fits(around, donor)? || self.fits(around, UNTYPED.as_bytes())? {
            return Ok(None);
        }
        Ok(Some(Table {
            donor,
            required: parts(alloc, donor, 0)?,
            members: inside(alloc, donor)?,
            retyped: true,
        }))
    }

    // Notes that a place can't be repaired, if it is the first.
    fn get_stuck(&mut self, part: Part, path: &[u8], around: Around<'_>) -> Result<(), AllocError> {
        if self.stuck.is_none() {
            let place = self.place_of(part, path, around)?;
            self.stuck = Some(place);
        }
        Ok(())
    }

    // Notes that a member is absent. Returns whether the search goes on.
    fn note_absent(
        &mut self,
        path: &[u8],
        at: usize,
        around: Around<'_>,
    ) -> Result<bool, AllocError> {
        if self.repairs.is_some() && self.stuck.is_some() {
            return Ok(false);
        }
        let place = self.place(path, Found::Absent, (at, at), around)?;
        if self.repairs.is_none() {
            return self.list_fault(place);
        }
        self.stuck = Some(place);
        Ok(false)
    }

    // Settles what becomes of a member that doesn't fit. Returns whether its object can be mended.
    fn settle(
        &mut self,
        list: &[Part],
        index: usize,
        kept: bool,
        around: Around<'_>,
        path: &[u8],
        table: &Table,
    ) -> Result<Fate, AllocError> {
        if index >= list.len() {
            return Ok(Fate::Stuck);
        }
        let member = list[index];
        let Some(usual) = table.usual(key_of(self.text, &member)) else {
            return Ok(if self.take_out(list, index, kept, around, path)? {
                Fate::TakenOut
            } else {
                Fate::Stuck
            });
        };
        if usual == b"[]".as_slice() && self.may_lose(member) {
            let instead = joined(self.alloc, &[usual])?;
            if self.takes(member, around, path, Repair::AsEmptyList, instead)? {
                return Ok(Fate::Kept);
            }
        }
        self.get_stuck(member, path, around)?;
        Ok(Fate::Stuck)
    }

    // Puts empty arrays where an object lacks members that its table requires. Returns whether it
    // lacks no others.
    fn fill(
        &mut self,
        list: &[Part],
        end: usize,
        kept: bool,
        around: Around<'_>,
        path: &[u8],
        table: &Table,
    ) -> Result<bool, AllocError> {
        let alloc = self.alloc;
        let mut kept = kept;
        for own in &table.required {
            let key = key_of(table.donor, own);
            if member_at(self.text, list, key).is_some() {
                continue;
            }
            let path = member_path(alloc, path, key)?;
            if self.repairs.is_none() || value_of(table.donor, own) != b"[]".as_slice() {
                let before = before_value(alloc, around, key)?;
                let alone = Around {
                    before: &before,
                    behind: around.behind,
                };
                if !self.note_absent(&path, end, alone)? {
                    return Ok(false);
                }
                continue;
            }
            let note = Note {
                place: Place {
                    path,
                    found: Found::Absent,
                    wanted: Wanted::List,
                    value: Vec::new(alloc),
                    start: end,
                    end,
                },
                repair: Repair::AsEmptyList,
                because: None,
                start: end,
                end,
                instead: empty_list(alloc, key, kept)?,
            };
            if !self.push(note)? {
                return Ok(false);
            }
            kept = true;
        }
        Ok(true)
    }

    // Returns the table of an object of these members; that of string attributes if it is one of
    // another type.
    fn table_for(
        &mut self,
        list: &[Part],
        around: Around<'_>,
        retyped: bool,
    ) -> Result<Option<Table>, AllocError> {
        if retyped {
            self.attribute_table(list, around)
        } else {
            self.table(list, around)
        }
    }

    // Repairs a member that is refused alone, or takes it out.
    #[cycle(search)]
    fn mend_member(
        &mut self,
        list: &[Part],
        at: usize,
        kept: bool,
        around: Around<'_>,
        path: &[u8],
        depth: usize,
        table: &Table,
    ) -> Result<Fate, AllocError> {
        let alloc = self.alloc;
        if at >= list.len() {
            return Ok(Fate::Stuck);
        }
        let key = key_of(self.text, &list[at]);
        let before = before_value(alloc, around, key)?;
        let inner = member_path(alloc, path, key)?;
        let alone = Around {
            before: &before,
            behind: around.behind,
        };
        let known = self.habits.len();
        let fits = if table.retyped && is_key(key, b"\"type\"") {
            self.retype(list[at], alone, &inner)?
        } else {
            depth > 0 && self.mend(list[at], alone, &inner, depth - 1)?
        };
        if !fits {
            return self.settle(list, at, kept, alone, &inner, table);
        }
        if self.habits.len() > known {
            self.learn_any_key(list[at], around, path)?;
        }
        Ok(Fate::Kept)
    }

    // Repairs the members of an object, if some table reads where it stands; with `retyped` that of
    // string attributes, whose type the object gets.
    #[cycle(search)]
    fn mend_members(
        &mut self,
        part: Part,
        around: Around<'_>,
        path: &[u8],
        depth: usize,
        retyped: bool,
    ) -> Result<bool, AllocError> {
        let alloc = self.alloc;
        let list = parts(alloc, self.text, part.start)?;
        let Some(table) = self.table_for(&list, around, retyped)? else {
            return Ok(false);
        };
        let before = opened(alloc, around, b"{", &table.members)?;
        let behind = closed(alloc, around, b"}")?;
        let inside = Around {
            before: &before,
            behind: &behind,
        };
        let noted = self.notes.len();
        let end = part.end.saturating_sub(1);
        if let Some(kept) = self.mend_parts(&list, inside, path, depth, Some(&table))?
            && self.fill(&list, end, kept, inside, path, &table)?
        {
            return Ok(self.notes.len() > noted);
        }
        self.drop_notes(noted);
        Ok(false)
    }
}

// How deep a text is searched: each bracket takes two steps.
const DEPTH: usize = 256;

/// Searches the JSON text that begins at an index of the envelope. With repairs, returns the
/// changes with which its members read one by one; if there are none, the place that can't be
/// repaired. Without, returns a note of each place that doesn't fit. Of more than `most` notes the
/// search gives up.
///
/// # Errors
///
/// `AllocError` if an allocation fails.
pub fn find_faults<O: Oracle>(
    alloc: Global,
    oracle: O,
    text: &[u8],
    at: usize,
    repairs: Option<Repairs>,
    most: usize,
) -> Result<Searched, AllocError> {
    let start = space_end(text, at);
    let whole = Part {
        begin: start,
        start,
        end: value_end(text, start),
    };
    let mut all = Search {
        alloc,
        oracle,
        text,
        repairs,
        most,
        known: Vec::new(alloc),
        habits: Vec::new(alloc),
        notes: Vec::new(alloc),
        stuck: None,
        over: false,
    };
    let nothing = Around {
        before: b"",
        behind: b"",
    };
    let reads = all.fits(nothing, value_of(text, &whole))?;
    if !reads && !all.mend(whole, nothing, b"", DEPTH)? {
        if all.over {
            all.stuck = None;
        } else {
            all.get_stuck(whole, b"", nothing)?;
        }
        if repairs.is_some() {
            all.notes.clear();
        }
    }
    let Search { notes, stuck, .. } = all;
    Ok(Searched { notes, stuck })
}
