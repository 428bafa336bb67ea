//! Maps of values of several cases, whose keys stand for absent tags.

ghost use Rattle.std.specs.Prelude.{◌≡◌, ℕ, List, Some, option_map};
ghost use Rattle.sentry_tables.specs.Kind.{tagged_map, words};
ghost use Rattle.sentry_tables.specs.Shows.{word_at, tag_word};
ghost use Rattle.sentry_tables.specs.Cells.{map_cell, empty_map};
ghost use Rattle.sentry_tables.specs.Reading.{ReadsAt};
ghost use Rattle.sentry_moments.specs.Moments.{moment_cell};
ghost use Rattle.sentry_rows.specs.Cased.{ReadsEntryAt};

use crate::cased::{AsCase, Cased, ReadCasedAt};
use crate::timed::ReadCodecAt;
use rand_core::Rng;
use sentry_json::keys::place;
use sentry_json::{Node, Writer};
use sentry_moments::Moment;
use sentry_tables::codec::DefaultedCodec;
use sentry_tables::{Codec, Formed, Member, TreeError, Way};
use serde_json::{Map, Value};
use std::alloc::{AllocError, Global};
use std::collections::btree_map::Entry;

/// A type of several cases whose maps name a case by the key if the tag is absent.
pub trait CasedByKey: Cased + Formed<Form = AsCase> {
    // the tag of a member that has none and whose key names no case
    ghost fallback_word: { List ℕ };

    /// Returns the tag of a member that has none and whose key names no case.
    fn fallback() -> &'static str
        ensures { result.now ≡ fallback_word };
}

/// Codec of maps of values of several cases.
///
/// The case of a member without a tag is the one that its key names, or else the fallback. Each
/// member is written with its tag.
pub struct AsCaseMap;

impl<T: CasedByKey> Codec<Map<String, T>> for AsCaseMap {
    ghost kind = { tagged_map T.cases T.fallback_word };

    ghost cell_of = { λ m. map_cell T.choice_of m.entries };

    #[tactic(auto, using(crate::proofs::CaseMaps::map_written))]
    fn to_tree(value: &Map<String, T>, alloc: Global) -> Result<Value, AllocError> {
        value.to_tree(alloc)
    }

    #[tactic(auto, using(crate::proofs::CaseMaps::map_written))]
    fn write(value: &Map<String, T>, out: &mut Writer) -> Result<(), AllocError> {
        value.write(out)
    }

    #[tactic(auto, using(crate::proofs::CaseMaps::map_made))]
    fn remake(value: &Map<String, T>, way: Way) -> Result<Map<String, T>, AllocError> {
        value.remake(way)
    }

    fn is_null_tree(_value: &Map<String, T>) -> bool {
        false
    }

    fn is_plain(value: &Map<String, T>) -> bool {
        value.is_plain()
    }
}

impl<T: CasedByKey> DefaultedCodec<Map<String, T>> for AsCaseMap {
    ghost usual = { empty_map };

    fn is_usual(value: &Map<String, T>) -> bool {
        value.is_empty()
    }
}

impl<T: CasedByKey + ReadCasedAt> ReadCodecAt<Map<String, T>> for AsCaseMap {
    fn from_node<N: Node, R: Rng>(
        alloc: Global,
        node: &N,
        now: Moment,
        ids: &mut R,
    ) -> Result<Map<String, T>, TreeError> {
        read_case_map(alloc, node, T::fallback(), now, ids)
    }
}

// The word of a member's case: its tag; without a tag its key if that names a case, else
// `fallback`. `None` if the tag isn't a string.
#[tactic(auto, using(crate::proofs::CaseMaps::tag_there, crate::proofs::CaseMaps::key_known, crate::proofs::CaseMaps::key_unknown))]
fn entry_word<'a, T: Cased, N: Node>(
    node: &'a N,
    key: &'a str,
    fallback: &'a str,
) -> Option<&'a str>
    ensures { option_map (λ word. word.now) result
        ≡ tag_word (Some (word_at key.now (words T.cases) fallback.now)) (N.data_of node.now) }
{
    match node.get("type") {
        Some(_) => node.text_at("type"),
        None => match place(T::words(), key) {
            Some(_) => Some(key),
            None => Some(fallback),
        },
    }
}

#[tactic(auto, using(crate::proofs::CaseMaps::entry_read, crate::proofs::CaseMaps::unknown_entry, crate::proofs::CaseMaps::no_entry))]
fn read_entry<T: ReadCasedAt, N: Node, R: Rng>(
    alloc: Global,
    node: &N,
    key: &str,
    fallback: &str,
    now: Moment,
    ids: &mut R,
) -> Result<T, TreeError>
    ensures { ReadsEntryAt (moment_cell now) T.cases fallback.now T.choice_of key.now
        (N.data_of node.now) result }
{
    let word = entry_word::<T, N>(node, key, fallback).ok_or(TreeError::Misfit)?;
    let case = place(T::words(), word).ok_or(TreeError::Misfit)?;
    T::read(alloc, node, case, now, ids)
}

// Reads a map of values of several cases; `now` fills absent timestamps, `ids` absent ids.
//
// The case of a member without a tag is the one that its key names, or else `fallback`. Of members
// with the same key the last one counts.
#[tactic(auto, using(crate::proofs::CaseMaps::no_map))]
fn read_case_map<T: ReadCasedAt, N: Node, R: Rng>(
    alloc: Global,
    node: &N,
    fallback: &str,
    now: Moment,
    ids: &mut R,
) -> Result<Map<String, T>, TreeError>
    ensures { ReadsAt (moment_cell now) (tagged_map T.cases fallback.now) (λ m.
        map_cell T.choice_of m.entries)
        (N.data_of node.now) result }
{
    let members = node.members(alloc)?.ok_or(TreeError::Misfit)?;
    let mut map = Map::new(alloc);
    let mut left = members.len();
    while left > 0 {
        left -= 1;
        let member = &members[left];
        let name = String::from_str(alloc, member.key)?;
        // A member whose key comes again later isn't even read.
        if let Entry::Vacant(place) = map.entry(name)? {
            place.insert(read_entry(alloc, &member.node, member.key, fallback, now, ids)?);
        }
    }
    Ok(map)
}
