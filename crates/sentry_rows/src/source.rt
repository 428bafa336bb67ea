//! Sources: the members of one object, row by row.

ghost use Rattle.std.specs.Prelude.{◌≡◌, ℕ, List, map as map_list};
ghost use Rattle.serde_json.specs.Data.{Members};
ghost use Rattle.serde_json.specs.View.{members_view};
ghost use Rattle.sentry_tables.specs.Cell.{Cell, text};
ghost use Rattle.sentry_tables.specs.Kind.{Rule, Kind, must, may, may_strict, may_null, default as default_rule, always, draw, at_once, list as list_kind, map as map_kind, values as values_kind};
ghost use Rattle.sentry_tables.specs.Cells.{text_cell, cow_cell, option_cell, list_cell, map_cell, empty_list, empty_map};
ghost use Rattle.sentry_tables.specs.Kinds.{text_kind};
ghost use Rattle.sentry_moments.specs.Moments.{moment_cell};

use crate::rows::MadeCodec;
use crate::timed::{FromTreeAt, ReadCodecAt};
use rand_core::Rng;
use sentry_moments::Moment;
use sentry_tables::codec::DefaultedCodec;
use sentry_tables::member::Usual;
use sentry_tables::{Drawn, FromTree, Own, ReadCodec};
use sentry_writing::Values;
use serde_json::{Map, Value};
use std::alloc::Global;
use std::borrow::CowStr;

/// A source of the members of one object, which are taken in key order.
///
/// Each call takes the member at a key by the rule of its row. The first failure is remembered; a
/// call that fails returns a stand-in value.
///
/// `now` fills absent timestamps, `ids` absent ids.
pub trait Source {
    // from the first state to the second, the row of this key, rule and kind was taken, and holds
    // the cell
    ghost Takes: { List ℕ → Rule → Kind → Cell → Self → Self → Type 0 };

    // the same of a row that is taken at the moment of the first cell
    ghost TakesAt: { Cell → List ℕ → Rule → Kind → Cell → Self → Self → Type 0 };

    // from the first state to the second, the members of other keys were taken
    ghost TakesOthers: { List (List ℕ) → Members → Self → Self → Type 0 };

    /// Returns the allocator of the values.
    fn alloc(&self) -> Global;

    /// Takes a required member with the codec `F`; `Misfit` if absent.
    fn required_as<F: ReadCodec<X>, X: Drop>(&mut self, key: &str, stand_in: X) -> X
        ensures { Takes key.now must F.kind (F.cell_of result) self.old self.new };

    /// Takes a required member; `Misfit` if absent.
    #[inline(always)]
    final fn required<X: FromTree>(&mut self, key: &str, stand_in: X) -> X
        ensures { Takes key.now must X.kind (X.cell_of result) self.old self.new }
    {
        self.required_as::<Own, X>(key, stand_in)
    }

    /// Takes an optional member with the codec `F`; `None` if absent or null.
    fn optional_as<F: ReadCodec<X>, X: Drop>(&mut self, key: &str) -> Option<X>
        ensures { Takes key.now may F.kind (option_cell F.cell_of result) self.old self.new };

    /// Takes an optional member; `None` if absent or null.
    #[inline(always)]
    final fn optional<X: FromTree>(&mut self, key: &str) -> Option<X>
        ensures { Takes key.now may X.kind (option_cell X.cell_of result) self.old self.new }
    {
        self.optional_as::<Own, X>(key)
    }

    /// Takes an optional member that is written as null when `None`; `None` if absent or null.
    fn optional_or_null<X: FromTree>(&mut self, key: &str) -> Option<X>
        ensures { Takes key.now may_null X.kind (option_cell X.cell_of result) self.old self.new };

    /// Takes an optional member that rejects null, with the codec `F`; `None` if absent.
    fn optional_strict_as<F: ReadCodec<X>, X: Drop>(&mut self, key: &str) -> Option<X>
        ensures { Takes key.now may_strict F.kind
            (option_cell F.cell_of result) self.old self.new };

    /// Takes a member; defaults to `default`.
    fn or<X: FromTree + Usual>(&mut self, key: &str, default: X) -> X
        ensures { Takes key.now (default_rule (X.cell_of default)) X.kind
            (X.cell_of result) self.old self.new };

    /// Takes a member with the codec `F`; defaults to `default`, the default of `F`.
    fn or_as<F: ReadCodec<X> + DefaultedCodec<X>, X: Drop>(&mut self, key: &str, default: X) -> X
        requires usual { F.cell_of default ≡ F.usual }
        ensures { Takes key.now (default_rule F.usual) F.kind
            (F.cell_of result) self.old self.new };

    /// Takes a member with the codec `F`; defaults to the default of `F`, which takes an
    /// allocation.
    fn made_as<F: MadeCodec<X>, X: Drop>(&mut self, key: &str, stand_in: X) -> X
        ensures { Takes key.now (default_rule F.usual) F.kind
            (F.cell_of result) self.old self.new };

    /// Takes a member that is always written; defaults to `default`.
    fn written_or<X: FromTree>(&mut self, key: &str, default: X) -> X
        ensures { Takes key.now (always (X.cell_of default)) X.kind
            (X.cell_of result) self.old self.new };

    /// Takes a required string; `Misfit` if absent.
    #[inline(always)]
    final fn text(&mut self, key: &str) -> String
        ensures { Takes key.now must text_kind (text_cell result) self.old self.new }
    {
        let stand_in = String::new(self.alloc());
        self.required(key, stand_in)
    }

    /// Takes a string; defaults to `default`.
    fn text_or(&mut self, key: &str, default: &str) -> String
        ensures { Takes key.now (default_rule (text default.now)) text_kind
            (text_cell result) self.old self.new };

    /// Takes a required string as a [`CowStr`]; `Misfit` if absent.
    #[inline(always)]
    final fn cow<'a>(&mut self, key: &str) -> CowStr<'a>
        ensures { Takes key.now must text_kind (cow_cell result) self.old self.new }
    {
        self.required(key, CowStr::Borrowed(""))
    }

    /// Takes a string as a [`CowStr`]; defaults to `default`, which is borrowed.
    fn cow_or<'a>(&mut self, key: &str, default: &'a str) -> CowStr<'a>
        ensures { Takes key.now (default_rule (text default.now)) text_kind
            (cow_cell result) self.old self.new };

    /// Takes a member with the codec `F`; drawn from `ids` if absent.
    ///
    /// The stand-in of a failure is drawn from `ids` too.
    fn drawn_as<F: Drawn<X>, X: Drop, R: Rng>(&mut self, key: &str, ids: &mut R) -> X
        ensures { Takes key.now (draw F.IsDrawn) F.kind (F.cell_of result) self.old self.new };

    /// Takes a list; defaults to empty.
    fn list<X: FromTree>(&mut self, key: &str) -> Vec<X>
        ensures { Takes key.now (default_rule empty_list) (list_kind X.kind)
            (list_cell X.cell_of result.items) self.old self.new };

    /// Takes a list that is always written; defaults to empty.
    fn written_list<X: FromTree>(&mut self, key: &str) -> Vec<X>
        ensures { Takes key.now (always empty_list) (list_kind X.kind)
            (list_cell X.cell_of result.items) self.old self.new };

    /// Takes a map; defaults to empty.
    fn map<X: FromTree>(&mut self, key: &str) -> Map<String, X>
        ensures { Takes key.now (default_rule empty_map) (map_kind X.kind)
            (map_cell X.cell_of result.entries) self.old self.new };

    /// Takes a list under the key `values`, or a bare array; defaults to empty.
    fn values<X: FromTree>(&mut self, key: &str) -> Values<X>
        ensures { Takes key.now (default_rule empty_list) (values_kind X.kind)
            (list_cell X.cell_of result.values.items) self.old self.new };

    /// Takes the additional members: those whose keys are none of `names`.
    ///
    /// `names` are the keys that the members may not have: those of the table's rows, and `type` in
    /// a type with a tag.
    fn others(&mut self, names: &[&str]) -> Map<String, Value>
        ensures { TakesOthers (map_list (λ name.
            name.now) names.now) (members_view result.entries) self.old self.new };

    /// Takes a timestamp with the codec `F`; defaults to `now`.
    fn at_once_as<F: ReadCodec<Moment>>(&mut self, key: &str, now: Moment) -> Moment
        ensures { TakesAt (F.cell_of now) key.now at_once F.kind
            (F.cell_of result) self.old self.new };

    /// Takes a member with the codec `F` at the moment `now`; defaults to `default`, the default
    /// of `F`.
    fn or_as_at<F: ReadCodecAt<X> + DefaultedCodec<X>, X: Drop, R: Rng>(
        &mut self,
        key: &str,
        default: X,
        now: Moment,
        ids: &mut R,
    ) -> X
        requires usual { F.cell_of default ≡ F.usual }
        ensures { TakesAt (moment_cell now) key.now (default_rule F.usual) F.kind
            (F.cell_of result) self.old self.new };

    /// Takes a required list at the moment `now`; `Misfit` if absent.
    fn required_list_at<X: FromTreeAt, R: Rng>(
        &mut self,
        key: &str,
        now: Moment,
        ids: &mut R,
    ) -> Vec<X>
        ensures { TakesAt (moment_cell now) key.now must (list_kind X.kind)
            (list_cell X.cell_of result.items) self.old self.new };

    /// Takes a list under the key `values`, or a bare array, at the moment `now`; defaults to
    /// empty.
    fn values_at<X: FromTreeAt, R: Rng>(&mut self, key: &str, now: Moment, ids: &mut R) -> Values<X>
        ensures { TakesAt (moment_cell now) key.now (default_rule empty_list)
            (values_kind X.kind) (list_cell X.cell_of result.values.items) self.old self.new };
}
