//! A reader of a table's rows.

ghost use Rattle.std.specs.Prelude.{◌≡◌, None, IfOk, IfErr, is_some, false};
ghost use Rattle.serde_json.specs.Find.{as_object};
ghost use Rattle.sentry_tables.specs.Kind.{may, default as default_rule};
ghost use Rattle.sentry_tables.specs.Cells.{option_cell};
ghost use Rattle.sentry_tables.specs.Reading.{Only};
ghost use Rattle.sentry_moments.specs.Moments.{moment_cell};
ghost use Rattle.sentry_json.specs.Nodes.{object_data};
ghost use Rattle.sentry_rows.specs.Fields.{Keeps, Ends, ReadsField, ReadsFieldAt, ReadsOthers};

use crate::draw::or_drawn_as;
use crate::rows::{self, MadeCodec};
use crate::source::Source;
use crate::timed::{FromTreeAt, ReadCodecAt, now_or_as, read_list_at};
use rand_core::Rng;
use sentry_json::{Node, Object};
use sentry_moments::Moment;
use sentry_tables::codec::DefaultedCodec;
use sentry_tables::member::Usual;
use sentry_tables::{Drawn, FromTree, Own, ReadCodec, TreeError};
use sentry_writing::values::{AsValues, Values};
use serde_json::{Map, Value};
use std::alloc::Global;
use std::borrow::CowStr;

/// A JSON object that is read row by row.
///
/// The first failure is returned by [`end`](Reader::end).
///
/// The calls are inlined where a type reads its rows, so that keys are compared with literals.
#[derive(Drop)]
pub struct Reader<'t, N> {
    /// Allocator of the values.
    pub alloc: Global,
    /// Members of the object.
    pub object: Object<'t, N>,
    /// First failure of a row, if any.
    pub failed: Option<TreeError>,
}

impl<'t, N: Node> Reader<'t, N> {
    /// Creates a reader of the object at a node, whose members are walked once.
    ///
    /// # Errors
    ///
    /// - `Misfit` if the node isn't an object.
    /// - `Memory` if an allocation fails.
    #[tactic(auto, using(crate::proofs::RowLemmas::object_there, crate::proofs::RowLemmas::no_object))]
    pub fn new(alloc: Global, node: &'t N) -> Result<Reader<'t, N>, TreeError>
        ensures object { IfOk result (λ r. object_data N.data_of r.object ≡ N.data_of node.now) }
        ensures failed { IfOk result (λ r. r.failed ≡ None) }
        ensures err { IfErr result (λ e.
            Only e (is_some (as_object (N.data_of node.now)) ≡ false)) }
    {
        let object = Object::new(alloc, node)?.ok_or(TreeError::Misfit)?;
        Ok(Reader {
            alloc,
            object,
            failed: None,
        })
    }

    /// Returns `value`, made of the rows that were read.
    ///
    /// # Errors
    ///
    /// Returns the first failure of a row, if any.
    pub fn end<X: Drop>(self, value: X) -> Result<X, TreeError>
        ensures { Ends self.entry value result }
    {
        match self.failed {
            None => Ok(value),
            Some(error) => Err(error),
        }
    }

    /// Returns the value of `read`, or `stand_in` if `read` is an error; the first error is
    /// remembered.
    #[inline(always)]
    pub fn keep<X: Drop>(&mut self, read: Result<X, TreeError>, stand_in: X) -> X
        ensures { Keeps read result self.old self.new }
    {
        match read {
            Ok(value) => value,
            Err(error) => match self.failed {
                None => {
                    self.failed = Some(error);
                    stand_in
                }
                Some(_) => stand_in,
            },
        }
    }

    // Reads an optional member with the codec `F`; `None` if absent or null.
    //
    // Most members are absent, and then nothing is moved, however large a value may be.
    #[tactic(auto, using(crate::proofs::Reading::field_ready, crate::proofs::Reading::field_failed, crate::proofs::RowLemmas::may_absent, crate::proofs::RowLemmas::may_is_null, crate::proofs::RowLemmas::may_shown, crate::proofs::RowLemmas::may_fails))]
    #[inline(always)]
    fn unless_null<F: ReadCodec<X>, X: Drop>(&mut self, key: &str) -> Option<X>
        ensures { ReadsField N.data_of key.now may F.kind
            (option_cell F.cell_of result) self.old self.new }
    {
        let Some(member) = self.object.get(key) else {
            return None;
        };
        if member.is_null() {
            return None;
        }
        match F::from_node(self.alloc, member) {
            Ok(value) => Some(value),
            Err(error) => {
                self.keep(Err(error), ());
                None
            }
        }
    }

    // Reads a member with the codec `F`; defaults to `default`.
    #[tactic(auto, using(crate::proofs::Reading::default_kept, crate::proofs::Reading::field_ready, crate::proofs::RowLemmas::default_absent))]
    #[inline(always)]
    fn default_as<F: ReadCodec<X>, X: Drop>(&mut self, key: &str, default: X) -> X
        ensures { ReadsField N.data_of key.now (default_rule (F.cell_of default)) F.kind
            (F.cell_of result) self.old self.new }
    {
        let Some(member) = self.object.get(key) else {
            return default;
        };
        let read = F::from_node(self.alloc, member);
        self.keep(read, default)
    }

    // Reads a member with the codec `F` at the moment `now`; defaults to `default`.
    #[tactic(auto, using(crate::proofs::Reading::default_kept_at, crate::proofs::Reading::field_ready_at, crate::proofs::RowLemmas::default_absent_at))]
    #[inline(always)]
    fn default_as_at<F: ReadCodecAt<X>, X: Drop, R: Rng>(
        &mut self,
        key: &str,
        default: X,
        now: Moment,
        ids: &mut R,
    ) -> X
        ensures { ReadsFieldAt N.data_of (moment_cell now) key.now
            (default_rule (F.cell_of default)) F.kind (F.cell_of result) self.old self.new }
    {
        let Some(member) = self.object.get(key) else {
            return default;
        };
        let read = F::from_node(self.alloc, member, now, ids);
        self.keep(read, default)
    }
}

impl<'t, N: Node> Source for Reader<'t, N> {
    ghost Takes = { ReadsField N.data_of };

    ghost TakesAt = { ReadsFieldAt N.data_of };

    ghost TakesOthers = { ReadsOthers N.data_of };

    #[inline(always)]
    fn alloc(&self) -> Global {
        self.alloc
    }

    #[tactic(auto, using(crate::proofs::Reading::field_kept))]
    #[inline(always)]
    fn required_as<F: ReadCodec<X>, X: Drop>(&mut self, key: &str, stand_in: X) -> X {
        let read = rows::required_as::<F, X, N>(self.alloc, &self.object, key);
        self.keep(read, stand_in)
    }

    #[inline(always)]
    fn optional_as<F: ReadCodec<X>, X: Drop>(&mut self, key: &str) -> Option<X> {
        self.unless_null::<F, X>(key)
    }

    #[tactic(auto, using(crate::proofs::Reading::field_or_null))]
    #[inline(always)]
    fn optional_or_null<X: FromTree>(&mut self, key: &str) -> Option<X> {
        self.unless_null::<Own, X>(key)
    }

    #[tactic(auto, using(crate::proofs::Reading::field_kept))]
    #[inline(always)]
    fn optional_strict_as<F: ReadCodec<X>, X: Drop>(&mut self, key: &str) -> Option<X> {
        let read = rows::optional_strict_as::<F, X, N>(self.alloc, &self.object, key);
        self.keep(read, None)
    }

    #[inline(always)]
    fn or<X: FromTree + Usual>(&mut self, key: &str, default: X) -> X {
        self.default_as::<Own, X>(key, default)
    }

    #[inline(always)]
    fn or_as<F: ReadCodec<X> + DefaultedCodec<X>, X: Drop>(&mut self, key: &str, default: X) -> X {
        self.default_as::<F, X>(key, default)
    }

    #[tactic(auto, using(crate::proofs::Reading::field_kept))]
    #[inline(always)]
    fn made_as<F: MadeCodec<X>, X: Drop>(&mut self, key: &str, stand_in: X) -> X {
        let read = rows::made_as::<F, X, N>(self.alloc, &self.object, key);
        self.keep(read, stand_in)
    }

    #[tactic(auto, using(crate::proofs::Reading::field_always))]
    #[inline(always)]
    fn written_or<X: FromTree>(&mut self, key: &str, default: X) -> X {
        self.default_as::<Own, X>(key, default)
    }

    #[tactic(auto, using(crate::proofs::Reading::field_kept))]
    #[inline(always)]
    fn text_or(&mut self, key: &str, default: &str) -> String {
        let read = rows::text_or(self.alloc, &self.object, key, default);
        self.keep(read, String::new(self.alloc))
    }

    #[inline(always)]
    fn cow_or<'a>(&mut self, key: &str, default: &'a str) -> CowStr<'a> {
        self.default_as::<Own, CowStr<'a>>(key, CowStr::Borrowed(default))
    }

    #[tactic(auto, using(crate::proofs::Reading::field_ready, crate::proofs::Reading::field_kept))]
    #[inline(always)]
    fn drawn_as<F: Drawn<X>, X: Drop, R: Rng>(&mut self, key: &str, ids: &mut R) -> X {
        match or_drawn_as::<F, X, R, N>(self.alloc, &self.object, key, ids) {
            Ok(value) => value,
            Err(error) => {
                let stand_in = F::random(ids);
                self.keep(Err(error), stand_in)
            }
        }
    }

    #[inline(always)]
    fn list<X: FromTree>(&mut self, key: &str) -> Vec<X> {
        self.default_as::<Own, Vec<X>>(key, Vec::new(self.alloc))
    }

    #[tactic(auto, using(crate::proofs::Reading::field_always))]
    #[inline(always)]
    fn written_list<X: FromTree>(&mut self, key: &str) -> Vec<X> {
        self.default_as::<Own, Vec<X>>(key, Vec::new(self.alloc))
    }

    #[inline(always)]
    fn map<X: FromTree>(&mut self, key: &str) -> Map<String, X> {
        self.default_as::<Own, Map<String, X>>(key, Map::new(self.alloc))
    }

    #[inline(always)]
    fn values<X: FromTree>(&mut self, key: &str) -> Values<X> {
        let none = Values {
            values: Vec::new(self.alloc),
        };
        self.default_as::<Own, Values<X>>(key, none)
    }

    #[inline(always)]
    fn others(&mut self, names: &[&str]) -> Map<String, Value> {
        let read = rows::others(self.alloc, &self.object, names);
        self.keep(read, Map::new(self.alloc))
    }

    #[tactic(auto, using(crate::proofs::Reading::field_kept_at))]
    fn at_once_as<F: ReadCodec<Moment>>(&mut self, key: &str, now: Moment) -> Moment {
        let read = now_or_as::<F, N>(self.alloc, &self.object, key, now);
        self.keep(read, now)
    }

    fn or_as_at<F: ReadCodecAt<X> + DefaultedCodec<X>, X: Drop, R: Rng>(
        &mut self,
        key: &str,
        default: X,
        now: Moment,
        ids: &mut R,
    ) -> X {
        self.default_as_at::<F, X, R>(key, default, now, ids)
    }

    #[tactic(auto, using(crate::proofs::RowLemmas::must_missing_at))]
    fn required_list_at<X: FromTreeAt, R: Rng>(
        &mut self,
        key: &str,
        now: Moment,
        ids: &mut R,
    ) -> Vec<X> {
        let Some(member) = self.object.get(key) else {
            return self.keep(Err(TreeError::Misfit), Vec::new(self.alloc));
        };
        let read = read_list_at(self.alloc, member, now, ids);
        self.keep(read, Vec::new(self.alloc))
    }

    fn values_at<X: FromTreeAt, R: Rng>(
        &mut self,
        key: &str,
        now: Moment,
        ids: &mut R,
    ) -> Values<X> {
        let none = Values {
            values: Vec::new(self.alloc),
        };
        self.default_as_at::<AsValues, Values<X>, R>(key, none, now, ids)
    }
}
