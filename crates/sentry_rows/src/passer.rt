//! A source that writes each row it takes.

ghost use Rattle.std.specs.Prelude.{◌≡◌};
ghost use Rattle.sentry_rows.specs.Passed.{PassesField, PassesFieldAt, PassesOthers};

use crate::pass_row::{
    give_unless, pass_list, pass_map, pass_optional, pass_optional_or_null, pass_or, pass_required,
    pass_required_list_at, pass_strict, pass_text_or, pass_values, pass_values_at,
    pass_written_list, pass_written_or,
};
use crate::reader::Reader;
use crate::rows::MadeCodec;
use crate::source::Source;
use crate::timed::{FromTreeAt, ReadCodecAt};
use rand_core::Rng;
use sentry_json::{Node, Writer};
use sentry_moments::Moment;
use sentry_tables::codec::DefaultedCodec;
use sentry_tables::member::Usual;
use sentry_tables::{Drawn, FromTree, ReadCodec};
use sentry_writing::Values;
use serde_json::{Map, Value};
use std::alloc::Global;
use std::borrow::CowStr;

/// A JSON object whose rows are written as they are read.
///
/// What a call returns may be a stand-in: what counts is what was written.
#[derive(Drop)]
pub struct Passer<'t, 'w, N> {
    /// Object that is read.
    pub from: Reader<'t, N>,
    /// Writer of the text, inside an object that has begun.
    pub out: &'w mut Writer,
}

impl<'t, 'w, N: Node> Source for Passer<'t, 'w, N> {
    ghost Takes = { PassesField N.data_of };

    ghost TakesAt = { PassesFieldAt N.data_of };

    ghost TakesOthers = { PassesOthers N.data_of };

    #[inline(always)]
    fn alloc(&self) -> Global {
        self.from.alloc
    }

    #[inline(always)]
    fn required_as<F: ReadCodec<X>, X: Drop>(&mut self, key: &str, stand_in: X) -> X {
        let passed = pass_required::<F, X, N>(&self.from, key, &mut *self.out);
        self.from.keep(passed, ());
        stand_in
    }

    #[inline(always)]
    fn optional_as<F: ReadCodec<X>, X: Drop>(&mut self, key: &str) -> Option<X> {
        let passed = pass_optional::<F, X, N>(&self.from, key, &mut *self.out);
        self.from.keep(passed, ());
        None
    }

    #[inline(always)]
    fn optional_or_null<X: FromTree>(&mut self, key: &str) -> Option<X> {
        let passed = pass_optional_or_null::<X, N>(&self.from, key, &mut *self.out);
        self.from.keep(passed, ());
        None
    }

    #[inline(always)]
    fn optional_strict_as<F: ReadCodec<X>, X: Drop>(&mut self, key: &str) -> Option<X> {
        let passed = pass_strict::<F, X, N>(&self.from, key, &mut *self.out);
        self.from.keep(passed, ());
        None
    }

    #[inline(always)]
    fn or<X: FromTree + Usual>(&mut self, key: &str, default: X) -> X {
        let passed = pass_or::<X, N>(&self.from, key, &default, &mut *self.out);
        self.from.keep(passed, ());
        default
    }

    #[inline(always)]
    fn or_as<F: ReadCodec<X> + DefaultedCodec<X>, X: Drop>(&mut self, key: &str, default: X) -> X {
        let value = self.from.or_as::<F, X>(key, default);
        let given = give_unless::<F, X>(F::is_usual(&value), key, &value, &mut *self.out);
        self.from.keep(given, ());
        value
    }

    #[inline(always)]
    fn made_as<F: MadeCodec<X>, X: Drop>(&mut self, key: &str, stand_in: X) -> X {
        let value = self.from.made_as::<F, X>(key, stand_in);
        let given = give_unless::<F, X>(F::is_usual(&value), key, &value, &mut *self.out);
        self.from.keep(given, ());
        value
    }

    #[inline(always)]
    fn written_or<X: FromTree>(&mut self, key: &str, default: X) -> X {
        let passed = pass_written_or::<X, N>(&self.from, key, &default, &mut *self.out);
        self.from.keep(passed, ());
        default
    }

    #[inline(always)]
    fn text_or(&mut self, key: &str, default: &str) -> String {
        let passed = pass_text_or(&self.from, key, default, &mut *self.out);
        self.from.keep(passed, ());
        String::new(self.from.alloc)
    }

    #[inline(always)]
    fn cow_or<'a>(&mut self, key: &str, default: &'a str) -> CowStr<'a> {
        let passed = pass_text_or(&self.from, key, default, &mut *self.out);
        self.from.keep(passed, ());
        CowStr::Borrowed(default)
    }

    #[inline(always)]
    fn drawn_as<F: Drawn<X>, X: Drop, R: Rng>(&mut self, key: &str, ids: &mut R) -> X {
        let value = self.from.drawn_as::<F, X, R>(key, ids);
        let given = give_unless::<F, X>(false, key, &value, &mut *self.out);
        self.from.keep(given, ());
        value
    }

    #[inline(always)]
    fn list<X: FromTree>(&mut self, key: &str) -> Vec<X> {
        let passed = pass_list::<X, N>(&self.from, key, &mut *self.out);
        self.from.keep(passed, ());
        Vec::new(self.from.alloc)
    }

    #[inline(always)]
    fn written_list<X: FromTree>(&mut self, key: &str) -> Vec<X> {
        let passed = pass_written_list::<X, N>(&self.from, key, &mut *self.out);
        self.from.keep(passed, ());
        Vec::new(self.from.alloc)
    }

    #[inline(always)]
    fn map<X: FromTree>(&mut self, key: &str) -> Map<String, X> {
        let passed = pass_map::<X, N>(&self.from, key, &mut *self.out);
        self.from.keep(passed, ());
        Map::new(self.from.alloc)
    }

    #[inline(always)]
    fn values<X: FromTree>(&mut self, key: &str) -> Values<X> {
        let passed = pass_values::<X, N>(&self.from, key, &mut *self.out);
        self.from.keep(passed, ());
        Values::new(self.from.alloc)
    }

    #[tactic(auto, unfolding(crate::specs::Passed::PassesOthers))]
    #[inline(always)]
    fn others(&mut self, names: &[&str]) -> Map<String, Value> {
        self.from.others(names)
    }

    fn at_once_as<F: ReadCodec<Moment>>(&mut self, key: &str, now: Moment) -> Moment {
        let value = self.from.at_once_as::<F>(key, now);
        let given = give_unless::<F, Moment>(false, key, &value, &mut *self.out);
        self.from.keep(given, ());
        value
    }

    fn or_as_at<F: ReadCodecAt<X> + DefaultedCodec<X>, X: Drop, R: Rng>(
        &mut self,
        key: &str,
        default: X,
        now: Moment,
        ids: &mut R,
    ) -> X {
        let value = self.from.or_as_at::<F, X, R>(key, default, now, ids);
        let given = give_unless::<F, X>(F::is_usual(&value), key, &value, &mut *self.out);
        self.from.keep(given, ());
        value
    }

    fn required_list_at<X: FromTreeAt, R: Rng>(
        &mut self,
        key: &str,
        now: Moment,
        ids: &mut R,
    ) -> Vec<X> {
        let passed = pass_required_list_at::<X, N, R>(&self.from, key, now, ids, &mut *self.out);
        self.from.keep(passed, ());
        Vec::new(self.from.alloc)
    }

    fn values_at<X: FromTreeAt, R: Rng>(
        &mut self,
        key: &str,
        now: Moment,
        ids: &mut R,
    ) -> Values<X> {
        let passed = pass_values_at::<X, N, R>(&self.from, key, now, ids, &mut *self.out);
        self.from.keep(passed, ());
        Values::new(self.from.alloc)
    }
}
