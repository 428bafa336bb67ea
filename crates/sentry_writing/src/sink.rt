//! Sinks: receivers of the members of one object, key by key.

ghost use Rattle.std.specs.Prelude.{IsUtf8, ⊤};
ghost use Rattle.sentry_tables.specs.Meets.{IsPlain, IsStored};
ghost use Rattle.serde_json.specs.Data.{Members, no_members, member, null, string};
ghost use Rattle.sentry_tables.specs.Cell.{Cell, text as text_of};
ghost use Rattle.sentry_tables.specs.Kind.{must, may, may_null, may_strict, default, always, draw, at_once, list as list_kind, map as map_kind, values as values_kind};
ghost use Rattle.sentry_tables.specs.Cells.{option_cell, list_cell, map_cell, empty_list, empty_map};
ghost use Rattle.sentry_tables.specs.Kinds.{text_kind};
ghost use Rattle.sentry_writing.specs.Given.{both, Took, GivesRow};
ghost use Rattle.sentry_tables.specs.Writes.{written};

use crate::values::Values;
use sentry_tables::codec::DefaultedCodec;
use sentry_tables::member::Usual;
use sentry_tables::{Codec, Drawn, Member, Own};
use serde_json::Map;
use std::convert::AsStr;

/// A receiver of the members of one object, which are given in key order.
///
/// A sink that fails remembers the failure and takes no further members.
///
/// The calls for rows are inlined where a type gives its rows: each key is a literal there, so that
/// its test for escapes is decided, and its text stored, at compile time.
pub trait Sink {
    // from the first state to the second, these members were taken
    ghost Adds: { Self → Self → Members → Type 0 };

    // from the first state to the second, a value was tested that is plain where the first
    // proposition holds, and stored where the second does
    ghost Tests: { Self → Self → Type 0 → Type 0 → Type 0 };

    /// Adds a member, whose value is written with the codec `F`.
    fn member<F: Codec<T>, T>(&mut self, key: &str, value: &T)
        ensures { Took Adds Tests (member key.now (written F.kind (F.cell_of value.now)) no_members)
            (IsPlain F.kind (F.cell_of value.now)) (IsStored F.kind (F.cell_of value.now))
            self.old self.new };

    /// Adds a member that is null.
    fn null(&mut self, key: &str)
        ensures { Took Adds Tests (member key.now null no_members) ⊤ ⊤ self.old self.new };

    /// Adds a member that is a string.
    fn word(&mut self, key: &str, text: &str)
        ensures { Took Adds Tests (member key.now (string text.now) no_members) ⊤
            (IsUtf8 text.now) self.old self.new };

    /// Takes a value that its row omits: no member is added, but the value is tested.
    fn left_out<F: Codec<T>, T>(&mut self, value: &T)
        ensures { Took Adds Tests no_members
            (IsPlain F.kind (F.cell_of value.now)) (IsStored F.kind (F.cell_of value.now))
            self.old self.new };

    /// Takes a string that its row omits: no member is added.
    fn left_out_text(&mut self, text: &str)
        ensures { Took Adds Tests no_members ⊤ (IsUtf8 text.now) self.old self.new };

    /// Takes a row without a value: no member is added.
    fn absent(&mut self)
        ensures { Took Adds Tests no_members ⊤ ⊤ self.old self.new };

    /// Adds a required member, with the codec `F`.
    #[tactic(auto, unfolding(crate::specs::Given::row_given, crate::specs::Given::GivesRow))]
    #[inline(always)]
    final fn required_as<F: Codec<T>, T>(&mut self, key: &str, value: &T)
        ensures { GivesRow Adds Tests key.now must F.kind (F.cell_of value.now) self.old self.new }
    {
        self.member::<F, T>(key, value)
    }

    /// Adds a required member.
    #[inline(always)]
    final fn required<T: Member>(&mut self, key: &str, value: &T)
        ensures { GivesRow Adds Tests key.now must T.kind (T.cell_of value.now) self.old self.new }
    {
        self.required_as::<Own, T>(key, value)
    }

    /// Adds an optional member that is omitted when `None`, with the codec `F`.
    #[tactic(auto, unfolding(crate::specs::Given::row_given, crate::specs::Given::GivesRow))]
    #[inline(always)]
    final fn optional_as<F: Codec<T>, T>(&mut self, key: &str, value: &Option<T>)
        ensures { GivesRow Adds Tests key.now may F.kind
            (option_cell F.cell_of value.now) self.old self.new }
    {
        match value {
            Some(value) => self.member::<F, T>(key, value),
            None => self.absent(),
        }
    }

    /// Adds an optional member that is omitted when `None`.
    #[inline(always)]
    final fn optional<T: Member>(&mut self, key: &str, value: &Option<T>)
        ensures { GivesRow Adds Tests key.now may T.kind
            (option_cell T.cell_of value.now) self.old self.new }
    {
        self.optional_as::<Own, T>(key, value)
    }

    /// Adds an optional member that is written as null when `None`.
    #[tactic(auto, unfolding(crate::specs::Given::row_given, crate::specs::Given::GivesRow))]
    #[inline(always)]
    final fn optional_or_null<T: Member>(&mut self, key: &str, value: &Option<T>)
        ensures { GivesRow Adds Tests key.now may_null T.kind
            (option_cell T.cell_of value.now) self.old self.new }
    {
        match value {
            Some(value) => self.member::<Own, T>(key, value),
            None => self.null(key),
        }
    }

    /// Adds an optional member that is omitted when `None` and rejects null when read, with the
    /// codec `F`.
    #[tactic(auto, unfolding(crate::specs::Given::row_given, crate::specs::Given::GivesRow))]
    #[inline(always)]
    final fn optional_strict_as<F: Codec<T>, T>(&mut self, key: &str, value: &Option<T>)
        ensures { GivesRow Adds Tests key.now may_strict F.kind
            (option_cell F.cell_of value.now) self.old self.new }
    {
        match value {
            Some(value) => self.member::<F, T>(key, value),
            None => self.absent(),
        }
    }

    /// Adds a member that has a default when read and is always written.
    #[tactic(auto, unfolding(crate::specs::Given::row_given, crate::specs::Given::GivesRow))]
    #[inline(always)]
    final fn always<T: Member>(&mut self, key: &str, value: &T)
        ensures { (e : Cell) →
            GivesRow Adds Tests key.now (always e) T.kind (T.cell_of value.now) self.old self.new }
    {
        self.member::<Own, T>(key, value)
    }

    /// Adds a timestamp that defaults to the moment of reading and is always written, with the
    /// codec `F`.
    #[tactic(auto, unfolding(crate::specs::Given::row_given, crate::specs::Given::GivesRow))]
    #[inline(always)]
    final fn at_once_as<F: Codec<T>, T>(&mut self, key: &str, value: &T)
        ensures { GivesRow Adds Tests key.now at_once F.kind
            (F.cell_of value.now) self.old self.new }
    {
        self.member::<F, T>(key, value)
    }

    /// Adds a member that is drawn if absent when read, and is always written, with the codec `F`.
    #[tactic(auto, unfolding(crate::specs::Given::row_given, crate::specs::Given::GivesRow))]
    #[inline(always)]
    final fn drawn_as<F: Drawn<T>, T: Drop>(&mut self, key: &str, value: &T)
        ensures { GivesRow Adds Tests key.now (draw F.IsDrawn) F.kind
            (F.cell_of value.now) self.old self.new }
    {
        self.member::<F, T>(key, value)
    }

    /// Adds a list that is omitted when empty.
    #[tactic(auto, unfolding(crate::specs::Given::row_given, crate::specs::Given::GivesRow))]
    #[inline(always)]
    final fn list<T: Member>(&mut self, key: &str, list: &Vec<T>)
        ensures { GivesRow Adds Tests key.now (default empty_list) (list_kind T.kind)
            (list_cell T.cell_of list.now.items) self.old self.new }
    {
        if list.is_empty() {
            self.left_out::<Own, Vec<T>>(list)
        } else {
            self.member::<Own, Vec<T>>(key, list)
        }
    }

    /// Adds a list that defaults to empty when read and is always written.
    #[tactic(auto, unfolding(crate::specs::Given::row_given, crate::specs::Given::GivesRow))]
    #[inline(always)]
    final fn written_list<T: Member>(&mut self, key: &str, list: &Vec<T>)
        ensures { GivesRow Adds Tests key.now (always empty_list) (list_kind T.kind)
            (list_cell T.cell_of list.now.items) self.old self.new }
    {
        self.member::<Own, Vec<T>>(key, list)
    }

    /// Adds a map that is omitted when empty.
    #[tactic(auto, unfolding(crate::specs::Given::row_given, crate::specs::Given::GivesRow))]
    #[inline(always)]
    final fn map<T: Member>(&mut self, key: &str, map: &Map<String, T>)
        ensures { GivesRow Adds Tests key.now (default empty_map) (map_kind T.kind)
            (map_cell T.cell_of map.now.entries) self.old self.new }
    {
        if map.is_empty() {
            self.left_out::<Own, Map<String, T>>(map)
        } else {
            self.member::<Own, Map<String, T>>(key, map)
        }
    }

    /// Adds a list under the key `values`, omitted when empty.
    #[tactic(auto, unfolding(crate::specs::Given::row_given, crate::specs::Given::GivesRow))]
    #[inline(always)]
    final fn values<T: Member>(&mut self, key: &str, list: &Values<T>)
        ensures { GivesRow Adds Tests key.now (default empty_list) (values_kind T.kind)
            (list_cell T.cell_of list.now.values.items) self.old self.new }
    {
        if list.values.is_empty() {
            self.left_out::<Own, Values<T>>(list)
        } else {
            self.member::<Own, Values<T>>(key, list)
        }
    }

    /// Adds a string that is omitted when it equals the default `usual`.
    #[tactic(auto, unfolding(crate::specs::Given::row_given, crate::specs::Given::GivesRow, sentry_tables::specs::Writes::written))]
    #[inline(always)]
    final fn text_unless<T: AsStr>(&mut self, key: &str, value: &T, usual: &str)
        ensures { GivesRow Adds Tests key.now (default (text_of usual.now)) text_kind
            (text_of (T.text value.now)) self.old self.new }
    {
        let text = value.as_str();
        if text == usual {
            self.left_out_text(text)
        } else {
            self.word(key, text)
        }
    }

    /// Adds a member that is omitted when its value is written the same as the default `usual`.
    #[tactic(auto, unfolding(crate::specs::Given::row_given, crate::specs::Given::GivesRow))]
    #[inline(always)]
    final fn unless<T: Usual>(&mut self, key: &str, value: &T, usual: &T)
        ensures { GivesRow Adds Tests key.now (default (T.cell_of usual.now)) T.kind
            (T.cell_of value.now) self.old self.new }
    {
        if value.is(usual) {
            self.left_out::<Own, T>(value)
        } else {
            self.member::<Own, T>(key, value)
        }
    }

    /// Adds a member that is omitted when its value is written the same as the default of the codec
    /// `F`.
    #[tactic(auto, unfolding(crate::specs::Given::row_given, crate::specs::Given::GivesRow))]
    #[inline(always)]
    final fn unless_usual_as<F: DefaultedCodec<T>, T>(&mut self, key: &str, value: &T)
        ensures { GivesRow Adds Tests key.now (default F.usual) F.kind
            (F.cell_of value.now) self.old self.new }
    {
        if F::is_usual(value) {
            self.left_out::<F, T>(value)
        } else {
            self.member::<F, T>(key, value)
        }
    }

    ghost nothing: { (s : Self) → Adds s s no_members };

    ghost joined: { (a b c : Self) (ms ns : Members) → Adds a b ms → Adds b c ns →
        Adds a c (both ms ns) };
}
