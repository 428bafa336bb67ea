//! Members that are merged among the rows of a table: a tag or additional members.

ghost use Rattle.std.specs.Prelude.{◌≡◌};
ghost use Rattle.serde_json.specs.Data.{Members, no_members, member, null, string};
ghost use Rattle.serde_json.specs.View.{members_view};
ghost use Rattle.sentry_tables.specs.Fields.{rows_of, cells_by};
ghost use Rattle.sentry_tables.specs.Written.{put_all, rows_given};
ghost use Rattle.sentry_tables.specs.Kind.{tag};
ghost use Rattle.sentry_writing.specs.Merged.{ClearsWay};
ghost use Rattle.sentry_writing.specs.Sinks.{tag_left, others_left};

use crate::sink::Sink;
use crate::table::Table;
use sentry_tables::{Codec, Own};
use serde_json::{Map, Value};
use std::cmp::Ordering;
use std::collections::btree_map::Iter;

/// Members that are merged among rows, in key order.
pub trait Others: Sized + Drop {
    // the members not given to a sink yet
    ghost left: { Self → Members };

    /// Gives `sink` the members whose keys precede `key`.
    ///
    /// A member at `key` itself is dropped, since a row replaces it.
    fn hand_before<S: Sink>(&mut self, key: &str, sink: &mut S)
        ensures { ClearsWay (S.Adds sink.old sink.new) key.now (left self.old) (left self.new) };

    /// Gives `sink` the remaining members.
    fn hand_rest<S: Sink>(self, sink: &mut S)
        ensures { S.Adds sink.old sink.new (left self) };
}

/// The tag of a case: a word that is written at the key `type`, or none.
#[derive(Drop)]
pub struct Tag<'t> {
    word: Option<&'t str>,
}

impl<'t> Tag<'t> {
    /// Creates a tag with the word `word`.
    pub fn new(word: &'t str) -> Tag<'t>
        ensures { tag_left result.word ≡ member tag (string word.now) no_members }
    {
        Tag { word: Some(word) }
    }

    /// Creates an absent tag, which writes no member.
    pub fn none() -> Tag<'t>
        ensures { tag_left result.word ≡ no_members }
    {
        Tag { word: None }
    }
}

impl<'t> Others for Tag<'t> {
    ghost left = { λ t. tag_left t.word };

    #[inline]
    fn hand_before<S: Sink>(&mut self, key: &str, sink: &mut S) {
        let Some(word) = self.word else {
            return;
        };
        match "type".cmp(key) {
            Ordering::Less => {
                sink.word("type", word);
                self.word = None;
            }
            Ordering::Equal => self.word = None,
            Ordering::Greater => {}
        }
    }

    #[inline]
    fn hand_rest<S: Sink>(self, sink: &mut S) {
        match self.word {
            Some(word) => sink.word("type", word),
            None => {}
        }
    }
}

/// No additional members.
#[derive(Drop)]
pub struct NoOthers;

impl Others for NoOthers {
    ghost left = { λ n. no_members };

    fn hand_before<S: Sink>(&mut self, _key: &str, _sink: &mut S) {}

    fn hand_rest<S: Sink>(self, _sink: &mut S) {}
}

/// The additional members of a value, borrowed from a map.
#[derive(Drop)]
pub struct Kept<'o> {
    next: Option<(&'o String, &'o Value)>,
    rest: Iter<'o, String, Value>,
}

impl<'o> Kept<'o> {
    /// Borrows all members of `others`.
    pub fn new(others: &'o Map<String, Value>) -> Kept<'o>
        ensures { others_left result.next result.rest ≡ members_view others.now.entries }
    {
        let mut rest = others.iter();
        let next = rest.next();
        Kept { next, rest }
    }
}

impl<'o> Others for Kept<'o> {
    ghost left = { λ k. others_left k.next k.rest };

    fn hand_before<S: Sink>(&mut self, key: &str, sink: &mut S) {
        while let Some((name, value)) = self.next {
            match name.as_str().cmp(key) {
                Ordering::Less => {
                    sink.member::<Own, Value>(name.as_str(), value);
                    self.next = self.rest.next();
                }
                Ordering::Equal => {
                    self.next = self.rest.next();
                    return;
                }
                Ordering::Greater => return,
            }
        }
    }

    fn hand_rest<S: Sink>(self, sink: &mut S) {
        let Kept { next, rest } = self;
        if let Some((name, value)) = next {
            sink.member::<Own, Value>(name.as_str(), value);
            for (name, value) in rest {
                sink.member::<Own, Value>(name.as_str(), value);
            }
        }
    }
}

/// A sink that merges other members among those it is given, and passes all to a second sink.
#[derive(Drop)]
pub struct Beside<'s, L, S> {
    sink: &'s mut S,
    others: L,
}

impl<'s, L: Others, S: Sink> Sink for Beside<'s, L, S> {
    ghost use Rattle.sentry_writing.specs.Merged.{Merges, merges_nothing, merges_joined};
    ghost use Rattle.std.specs.Prelude.{refl, ⊤};
    ghost use Rattle.std.proofs.Common.{◌∙◌};

    ghost Adds = { λ a b ms. (b.sink.ghost_name ≡ a.sink.ghost_name) ×
        Merges (S.Adds a.sink.now b.sink.now) (L.left a.others) (L.left b.others) ms };

    ghost Tests = { λ a b P Q. ⊤ };

    #[inline]
    fn member<F: Codec<T>, T>(&mut self, key: &str, value: &T) {
        self.others.hand_before(key, &mut *self.sink);
        self.sink.member::<F, T>(key, value)
    }

    #[inline]
    fn null(&mut self, key: &str) {
        self.others.hand_before(key, &mut *self.sink);
        self.sink.null(key)
    }

    #[inline]
    fn word(&mut self, key: &str, text: &str) {
        self.others.hand_before(key, &mut *self.sink);
        self.sink.word(key, text)
    }

    #[inline]
    fn left_out<F: Codec<T>, T>(&mut self, _value: &T) {}

    #[inline]
    fn left_out_text(&mut self, _text: &str) {}

    #[inline]
    fn absent(&mut self) {}

    ghost nothing = { λ s.
        (refl, merges_nothing S.Adds S.nothing S.joined s.sink.now (L.left s.others)) };

    ghost joined = { λ a b c ms ns x y. (
      y.0 ∙ x.0,
      merges_joined S.Adds S.nothing S.joined a.sink.now b.sink.now c.sink.now
          (L.left a.others) (L.left b.others) (L.left c.others) ms ns x.1 y.1,
    ) };
}

/// Gives the rows of a value to a sink, with other members merged in key order.
///
/// A written row replaces a member with its key.
pub fn rows_beside<T: Table, L: Others, S: Sink>(value: &T, others: L, sink: &mut S)
    ensures { S.Adds sink.old sink.new
        (put_all (rows_given (rows_of T.lines) (cells_by T.lines value.now)) (L.left others)) }
{
    let mut rows = Beside { sink, others };
    value.give(&mut rows);
    let Beside { sink, others } = rows;
    others.hand_rest(sink)
}

/// Gives the rows of a value to a sink, with a tag and other members merged in key order.
///
/// A written row replaces a tag or member with its key; the tag replaces a member at `type`.
pub fn rows_among<T: Table, L: Others, S: Sink>(value: &T, tag: Tag<'_>, others: L, sink: &mut S)
    ensures { S.Adds sink.old sink.new (put_all (put_all
        (rows_given (rows_of T.lines) (cells_by T.lines value.now)) (tag_left tag.entry.word))
        (L.left others)) }
{
    let mut rows = Beside { sink, others };
    rows_beside(value, tag, &mut rows);
    let Beside { sink, others } = rows;
    others.hand_rest(sink)
}
