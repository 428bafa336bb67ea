//! Ids of traces.

ghost use Rattle.std.specs.Prelude.{◌≡◌, IfOk, Some, string_bytes};
ghost use Rattle.hex.specs.Hex.{encode_lower};
ghost use Rattle.rand_core.specs.Stream.{fill_bytes};
ghost use Rattle.sentry_identifiers.specs.HexId.{ReadsHex, trace_bytes};
ghost use Rattle.sentry_identifiers.specs.HexIdTree.{IsOctets, hex_id_spelling, trace_id_cell};

use crate::bytes::are_bytes;
use crate::hex_id::{digits_in, read_bytes, write_bytes};
use hex::FromHexError;
use rand_core::Rng;
use sentry_tables::{AsText, Drawn, Formed, Own, Room, Spelled, TreeError, Way};
use std::alloc::{AllocError, Global};
use std::fmt;
use std::str::FromStr;

/// Trace id: 16 bytes.
///
/// Parsed from 32 hex digits in any case, and written in lower case.
///
/// <https://develop.sentry.dev/sdk/data-model/event-payloads/contexts/#trace-context>
#[derive(Clone, Copy, PartialEq, Eq, Hash)]
pub struct TraceId([u8; 16]);

impl TraceId {
    /// Draws a random id: the generator's next 16 bytes.
    pub fn random<R: Rng>(ids: &mut R) -> TraceId
        ensures { (trace_bytes result, R.stream ids.new) ≡ fill_bytes 16 (R.stream ids.old) }
    {
        let mut bytes = [0; 16];
        ids.fill_bytes(&mut bytes);
        TraceId::from(bytes)
    }

    /// Returns the id as 32 hex digits in lower case.
    ///
    /// # Errors
    ///
    /// `AllocError` if an allocation fails.
    pub fn to_text(&self, alloc: Global) -> Result<String, AllocError>
        ensures { IfOk result (λ text. string_bytes text ≡ encode_lower (trace_bytes self.now)) }
    {
        hex::encode(alloc, self.0)
    }
}

impl From<[u8; 16]> for TraceId {
    ghost from_gives = { λ bytes id. trace_bytes id ≡ bytes };

    fn from(bytes: [u8; 16]) -> TraceId {
        TraceId(bytes)
    }
}

impl FromStr for TraceId {
    type Err = FromHexError;

    ghost from_str_gives = { ReadsHex 16 trace_bytes };

    /// Parses 32 hex digits in any case.
    ///
    /// # Errors
    ///
    /// `OddLength` if the text has an odd number of bytes; else `InvalidStringLength` if the text
    /// doesn't have 32 bytes; else `InvalidHexCharacter` with the first byte that is not a hex
    /// digit and its index.
    fn from_str(text: &str) -> Result<TraceId, FromHexError> {
        Ok(TraceId(read_bytes(text)?))
    }
}

impl TryFrom<String> for TraceId {
    type Error = FromHexError;

    ghost try_from_gives = { λ text r. ReadsHex 16 trace_bytes (string_bytes text) r };

    /// Parses 32 hex digits in any case.
    ///
    /// # Errors
    ///
    /// The errors of [`TraceId::from_str`].
    fn try_from(text: String) -> Result<TraceId, FromHexError> {
        text.as_str().parse()
    }
}

impl fmt::Display for TraceId {
    ghost output = { λ id. Some (encode_lower (trace_bytes id)) };

    fn fmt<W: fmt::Write>(&self, f: &mut fmt::Formatter<W>) -> fmt::Result {
        let mut digits = [0; 32];
        f.write_str(write_bytes(&self.0, &mut digits))
    }
}

impl fmt::Debug for TraceId {
    fn fmt<W: fmt::Write>(&self, f: &mut fmt::Formatter<W>) -> fmt::Result {
        write!(f, "TraceId({self})")
    }
}

impl Formed for TraceId {
    type Form = AsText;
}

impl Spelled for TraceId {
    ghost spelling = { hex_id_spelling 16 };

    ghost cell_of = { trace_id_cell };

    #[tactic(auto, using(crate::proofs::HexIdTrees::id_spelled, crate::proofs::HexIdTrees::none_spelled))]
    fn of_text(_alloc: Global, text: &str) -> Result<TraceId, TreeError> {
        text.parse().map_err(|_| TreeError::Misfit)
    }

    fn text<'a>(&'a self, room: &'a mut Room) -> Result<&'a str, AllocError> {
        Ok(digits_in(&self.0, room))
    }

    #[tactic(auto, using(sentry_tables::proofs::Ways::unchanged))]
    fn respell(&self, _way: Way) -> Result<TraceId, AllocError> {
        Ok(*self)
    }

    fn hold(&self) {
        are_bytes(&self.0);
    }
}

impl Drawn<TraceId> for Own {
    ghost IsDrawn = { IsOctets 16 };

    fn random<R: Rng>(ids: &mut R) -> TraceId
        ensures any { IsOctets 16 (trace_id_cell result) }
        ensures next { (trace_bytes result, R.stream ids.new) ≡ fill_bytes 16 (R.stream ids.old) }
    {
        let id = TraceId::random(ids);
        id.hold();
        id
    }
}
