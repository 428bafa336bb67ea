//! What a type reads, asked one text at a time.

use crate::donors::{DONORS, PROBES};
use crate::note::Wanted;
use std::alloc::{AllocError, Global};

/// A type of payloads, as a search sees it.
pub trait Oracle: Drop {
    /// Returns whether a payload reads as the type. `AllocError` if an allocation fails.
    fn reads(&mut self, payload: &[u8]) -> Result<bool, AllocError>;

    /// Returns a number of seconds as a JSON string of a time; `None` if there is none.
    ///
    /// # Errors
    ///
    /// `AllocError` if an allocation fails.
    fn time_of(&self, number: &[u8]) -> Result<Option<Vec<u8>>, AllocError>;
}

/// Where a value stands in a payload: what stands before it and behind it.
#[derive(Clone, Copy)]
pub(crate) struct Around<'a> {
    pub before: &'a [u8],
    pub behind: &'a [u8],
}

/// Returns these pieces, one behind the other.
pub(crate) fn joined(alloc: Global, pieces: &[&[u8]]) -> Result<Vec<u8>, AllocError> {
    let mut all = Vec::new(alloc);
    for piece in pieces {
        all.extend_from_slice(piece)?;
    }
    Ok(all)
}

// Returns whether a payload reads in which `value` stands at a place.
pub(crate) fn fits<O: Oracle>(
    alloc: Global,
    oracle: &mut O,
    around: Around<'_>,
    value: &[u8],
) -> Result<bool, AllocError> {
    let payload = joined(alloc, &[around.before, value, around.behind])?;
    oracle.reads(&payload)
}

// Returns what reads at a place.
pub(crate) fn wanted<O: Oracle>(
    alloc: Global,
    oracle: &mut O,
    around: Around<'_>,
) -> Result<Wanted, AllocError> {
    for (value, wanted) in PROBES.iter() {
        if !fits(alloc, oracle, around, value.as_bytes())? {
            continue;
        }
        let is_text = matches!(*wanted, Wanted::Text);
        let is_time = matches!(*wanted, Wanted::Rfc3339);
        if !is_text && !is_time {
            return Ok(*wanted);
        }
        if !fits(alloc, oracle, around, b"0")? {
            return Ok(*wanted);
        }
        if is_time {
            return Ok(Wanted::Moment);
        }
        return Ok(if fits(alloc, oracle, around, b"[]")? {
            Wanted::Any
        } else {
            Wanted::IntegerOrText
        });
    }
    for donor in DONORS.iter() {
        if fits(alloc, oracle, around, donor.as_bytes())? {
            return Ok(Wanted::Object);
        }
    }
    Ok(Wanted::Other)
}

/// What reads at a place.
#[derive(Drop)]
pub(crate) struct Known {
    before: Vec<u8>,
    behind: Vec<u8>,
    wanted: Wanted,
}

// How many places are known at most.
const MAX_KNOWN: usize = 64;

/// Returns what reads at a place, if it is known.
pub(crate) fn known_at(known: &[Known], around: Around<'_>) -> Option<Wanted> {
    for place in known {
        if place.before.as_slice() == around.before && place.behind.as_slice() == around.behind {
            return Some(place.wanted);
        }
    }
    None
}

/// Keeps what reads at a place.
pub(crate) fn know(
    alloc: Global,
    known: &mut Vec<Known>,
    around: Around<'_>,
    wanted: Wanted,
) -> Result<(), AllocError> {
    if known.len() >= MAX_KNOWN {
        known.clear();
    }
    known.push(Known {
        before: joined(alloc, &[around.before])?,
        behind: joined(alloc, &[around.behind])?,
        wanted,
    })?;
    Ok(())
}
