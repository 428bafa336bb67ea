//! Debug identifiers.

ghost use Rattle.std.specs.Prelude.{◌≡◌, Some};
ghost use Rattle.sentry_identifiers.specs.DebugId.{id_size, appendix_of, debug_id_of, appendix_text, debug_id_text, debug_parts};
ghost use Rattle.sentry_identifiers.specs.DebugIdTree.{debug_cell, debug_spelling};
ghost use Rattle.sentry_text.specs.Number.{ReadsAs};

use crate::bytes::are_bytes;
use sentry_tables::spelled::print_into;
use sentry_tables::{AsText, Formed, Room, Spelled, TreeError, Way};
use std::alloc::{AllocError, Global};
use std::fmt;
use std::str::FromStr;
use thiserror::Error;
use uuid::Uuid;

/// Debug identifier of a debug information file: a UUID and an appendix (the age of a PDB file).
///
/// Parsed from the UUID as 32 hex digits or with hyphens, in any case, and the appendix as `-` and
/// one to eight hex digits; an absent appendix is 0. Written with hyphens in lower case, without
/// the appendix if 0.
///
/// <https://docs.sentry.io/platforms/native/data-management/debug-files/identifiers/>
#[derive(Clone, Copy, Debug, PartialEq, Eq, PartialOrd, Ord, Hash)]
pub struct DebugId {
    uuid: Uuid,
    appendix: u32,
}

/// The error of a text that is not a [`DebugId`].
#[derive(Debug, Drop, Error)]
#[error("ParseDebugIdError")]
pub struct ParseDebugIdError;

impl DebugId {
    /// Creates a debug id from a UUID and an appendix.
    pub fn from_parts(uuid: Uuid, appendix: u32) -> DebugId
        ensures { debug_parts result ≡ (uuid, appendix) }
    {
        DebugId { uuid, appendix }
    }

    /// Returns the UUID.
    pub fn uuid(&self) -> Uuid
        ensures { result ≡ (debug_parts self.now).0 }
    {
        self.uuid
    }

    /// Returns the appendix; 0 if absent.
    pub fn appendix(&self) -> u32
        ensures { result ≡ (debug_parts self.now).1 }
    {
        self.appendix
    }
}

// How many characters the UUID has.
fn id_size(text: &str) -> usize
    ensures { result ≡ id_size text.now }
{
    match text.as_bytes().get(8) {
        Some(b'-') => 36,
        _ => 32,
    }
}

// The number of what follows the UUID.
fn read_appendix(tail: &str) -> Option<u32>
    ensures { result ≡ appendix_of tail.now }
{
    let Some(digits) = tail.strip_prefix("-") else {
        return if tail.is_empty() { Some(0) } else { None };
    };
    if digits.len() > 8 || digits.starts_with('+') {
        return None;
    }
    u32::from_str_radix(digits, 16).ok()
}

fn read_parts(text: &str) -> Option<(Uuid, u32)>
    ensures { result ≡ debug_id_of text.now }
{
    let (id, tail) = text.split_at_checked(id_size(text))?;
    match Uuid::parse_str(id) {
        Ok(uuid) => Some((uuid, read_appendix(tail)?)),
        Err(_) => None,
    }
}

impl FromStr for DebugId {
    type Err = ParseDebugIdError;

    ghost from_str_gives = { ReadsAs debug_id_of debug_parts };

    /// Parses a debug id.
    ///
    /// # Errors
    ///
    /// `ParseDebugIdError` if the text doesn't begin with a UUID as 32 hex digits or with hyphens,
    /// or if the rest of the text is neither empty nor an appendix.
    fn from_str(text: &str) -> Result<DebugId, ParseDebugIdError> {
        let (uuid, appendix) = read_parts(text).ok_or(ParseDebugIdError)?;
        Ok(DebugId::from_parts(uuid, appendix))
    }
}

// The appendix as it is written: nothing for 0.
#[derive(Clone, Copy)]
struct Appendix(u32);

impl fmt::Display for Appendix {
    ghost output = { λ a. Some (appendix_text a.0) };

    fn fmt<W: fmt::Write>(&self, f: &mut fmt::Formatter<W>) -> fmt::Result {
        if self.0 == 0 {
            f.write_str("")
        } else {
            write!(f, "-{:x}", self.0)
        }
    }
}

impl fmt::Display for DebugId {
    ghost output = { λ id. Some (debug_id_text (debug_parts id).0 (debug_parts id).1) };

    fn fmt<W: fmt::Write>(&self, f: &mut fmt::Formatter<W>) -> fmt::Result {
        write!(f, "{}{}", self.uuid, Appendix(self.appendix))
    }
}

impl Formed for DebugId {
    type Form = AsText;
}

impl Spelled for DebugId {
    ghost spelling = { debug_spelling };

    ghost cell_of = { λ id. debug_cell (debug_parts id) };

    fn of_text(_alloc: Global, text: &str) -> Result<DebugId, TreeError> {
        text.parse().map_err(|_| TreeError::Misfit)
    }

    #[tactic(auto, using(crate::proofs::Lengths::debug_id_fits))]
    fn text<'a>(&'a self, room: &'a mut Room) -> Result<&'a str, AllocError> {
        self.hold();
        print_into(self, room)
    }

    #[tactic(auto, using(sentry_tables::proofs::Ways::unchanged))]
    fn respell(&self, _way: Way) -> Result<DebugId, AllocError> {
        Ok(*self)
    }

    fn hold(&self) {
        let DebugId { uuid, .. } = *self;
        are_bytes(uuid.as_bytes());
        let _appendix = self.appendix;
    }
}
