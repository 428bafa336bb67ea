//! A sink that collects rows as the members of a JSON tree.

ghost use Rattle.std.specs.Prelude.{◌≡◌, IfOk, None};
ghost use Rattle.serde_json.specs.Data.{no_members, object, put};
ghost use Rattle.serde_json.specs.View.{view, members_view};
ghost use Rattle.sentry_tables.specs.Written.{put_all};
ghost use Rattle.sentry_writing.specs.Failing.{While};
ghost use Rattle.sentry_writing.specs.Sinks.{members_so_far};

use crate::kept::copy_others;
use crate::sink::Sink;
use sentry_tables::Codec;
use serde_json::{Map, Value, put};
use std::alloc::{AllocError, Global};

/// A sink that collects the members of an object.
///
/// After an allocation failure no further member is added.
#[derive(Drop)]
pub struct TreeRows {
    alloc: Global,
    members: Map<String, Value>,
    failed: Option<AllocError>,
}

impl TreeRows {
    /// Creates a sink without members.
    pub fn new(alloc: Global) -> TreeRows
        ensures { members_so_far result ≡ no_members }
    {
        TreeRows {
            alloc,
            members: Map::new(alloc),
            failed: None,
        }
    }

    /// Creates a sink with copies of the members of `others`.
    ///
    /// An allocation failure is remembered, and returned by [`into_tree`](TreeRows::into_tree).
    pub fn with_others(alloc: Global, others: &Map<String, Value>) -> TreeRows
        ensures { result.failed ≡ None → members_so_far result ≡ members_view others.now.entries }
    {
        match copy_others(others) {
            Ok(members) => TreeRows {
                alloc,
                members,
                failed: None,
            },
            Err(error) => TreeRows {
                alloc,
                members: Map::new(alloc),
                failed: Some(error),
            },
        }
    }

    /// Returns the object of the collected members.
    ///
    /// # Errors
    ///
    /// `AllocError` if an allocation has failed since the sink was created.
    pub fn into_tree(self) -> Result<Value, AllocError>
        ensures { IfOk result (λ t. (self.failed ≡ None) ×
            (view t ≡ object (members_so_far self))) }
    {
        match self.failed {
            None => Ok(Value::from(self.members)),
            Some(error) => Err(error),
        }
    }

    // Adds a member, or replaces the one with its key; does nothing after a failure.
    #[tactic(auto, using(crate::proofs::Failing::wrote_while, crate::proofs::Failing::after_failure))]
    fn put(&mut self, key: &str, tree: Value)
        ensures { While self.old.failed self.new.failed
            (members_so_far self.new ≡ put key.now (view tree) (members_so_far self.old)) }
    {
        if self.failed.is_some() {
            return;
        }
        self.failed = put(&mut self.members, self.alloc, key, tree).err();
    }
}

impl Sink for TreeRows {
    ghost use Rattle.std.specs.Prelude.{refl, ⊤};
    ghost use Rattle.sentry_writing.specs.Failing.{nothing_while, joined_while};
    ghost use Rattle.sentry_writing.specs.Joined.{put_both};

    ghost Adds = { λ a b ms.
        While a.failed b.failed (members_so_far b ≡ put_all ms (members_so_far a)) };

    ghost Tests = { λ a b P Q. ⊤ };

    #[tactic(auto, using(crate::proofs::Failing::failed_while))]
    fn member<F: Codec<T>, T>(&mut self, key: &str, value: &T) {
        match F::to_tree(value, self.alloc) {
            Ok(tree) => self.put(key, tree),
            Err(error) => self.failed = Some(error),
        }
    }

    fn null(&mut self, key: &str) {
        self.put(key, Value::Null);
    }

    #[tactic(auto, using(crate::proofs::Failing::failed_while))]
    fn word(&mut self, key: &str, text: &str) {
        match Value::try_from_str(self.alloc, text) {
            Ok(tree) => self.put(key, tree),
            Err(error) => self.failed = Some(error),
        }
    }

    #[tactic(auto, using(crate::specs::Failing::nothing_while))]
    fn left_out<F: Codec<T>, T>(&mut self, _value: &T) {}

    #[tactic(auto, using(crate::specs::Failing::nothing_while))]
    fn left_out_text(&mut self, _text: &str) {}

    #[tactic(auto, using(crate::specs::Failing::nothing_while))]
    fn absent(&mut self) {}

    ghost nothing = { λ s. nothing_while s.failed refl };

    ghost joined = { λ a b c ms ns x y.
        joined_while a.failed b.failed c.failed (put_both ms ns (members_so_far a)
        (members_so_far b) (members_so_far c)) x y };
}
