//! Ids of spans.

ghost use Rattle.std.specs.Prelude.{◌≡◌, IfOk, Some, string_bytes};
ghost use Rattle.hex.specs.Hex.{encode_lower};
ghost use Rattle.rand_core.specs.Stream.{fill_bytes};
ghost use Rattle.sentry_identifiers.specs.HexId.{ReadsHex, span_bytes};
ghost use Rattle.sentry_identifiers.specs.HexIdTree.{IsOctets, hex_id_spelling, span_id_cell};

use crate::bytes::are_bytes;
use crate::hex_id::{digits_in, read_bytes, write_bytes};
use hex::FromHexError;
use rand_core::Rng;
use sentry_tables::{AsText, Drawn, Formed, Own, Room, Spelled, TreeError, Way};
use std::alloc::{AllocError, Global};
use std::fmt;
use std::str::FromStr;

/// Span id: 8 bytes.
///
/// Parsed from 16 hex digits in any case, and written in lower case.
///
/// <https://develop.sentry.dev/sdk/data-model/event-payloads/contexts/#trace-context>
#[derive(Clone, Copy, PartialEq, Eq, Hash)]
pub struct SpanId([u8; 8]);

impl SpanId {
    /// Draws a random id: the generator's next 8 bytes.
    pub fn random<R: Rng>(ids: &mut R) -> SpanId
        ensures { (span_bytes result, R.stream ids.new) ≡ fill_bytes 8 (R.stream ids.old) }
    {
        let mut bytes = [0; 8];
        ids.fill_bytes(&mut bytes);
        SpanId::from(bytes)
    }

    /// Returns the id as 16 hex digits in lower case.
    ///
    /// # Errors
    ///
    /// `AllocError` if an allocation fails.
    pub fn to_text(&self, alloc: Global) -> Result<String, AllocError>
        ensures { IfOk result (λ text. string_bytes text ≡ encode_lower (span_bytes self.now)) }
    {
        hex::encode(alloc, self.0)
    }
}

impl From<[u8; 8]> for SpanId {
    ghost from_gives = { λ bytes id. span_bytes id ≡ bytes };

    fn from(bytes: [u8; 8]) -> SpanId {
        SpanId(bytes)
    }
}

impl FromStr for SpanId {
    type Err = FromHexError;

    ghost from_str_gives = { ReadsHex 8 span_bytes };

    /// Parses 16 hex digits in any case.
    ///
    /// # Errors
    ///
    /// `OddLength` if the text has an odd number of bytes; else `InvalidStringLength` if the text
    /// doesn't have 16 bytes; else `InvalidHexCharacter` with the first byte that is not a hex
    /// digit and its index.
    fn from_str(text: &str) -> Result<SpanId, FromHexError> {
        Ok(SpanId(read_bytes(text)?))
    }
}

impl TryFrom<String> for SpanId {
    type Error = FromHexError;

    ghost try_from_gives = { λ text r. ReadsHex 8 span_bytes (string_bytes text) r };

    /// Parses 16 hex digits in any case.
    ///
    /// # Errors
    ///
    /// The errors of [`SpanId::from_str`].
    fn try_from(text: String) -> Result<SpanId, FromHexError> {
        text.as_str().parse()
    }
}

impl fmt::Display for SpanId {
    ghost output = { λ id. Some (encode_lower (span_bytes id)) };

    fn fmt<W: fmt::Write>(&self, f: &mut fmt::Formatter<W>) -> fmt::Result {
        let mut digits = [0; 16];
        f.write_str(write_bytes(&self.0, &mut digits))
    }
}

impl fmt::Debug for SpanId {
    fn fmt<W: fmt::Write>(&self, f: &mut fmt::Formatter<W>) -> fmt::Result {
        write!(f, "SpanId({self})")
    }
}

impl Formed for SpanId {
    type Form = AsText;
}

impl Spelled for SpanId {
    ghost spelling = { hex_id_spelling 8 };

    ghost cell_of = { span_id_cell };

    #[tactic(auto, using(crate::proofs::HexIdTrees::id_spelled, crate::proofs::HexIdTrees::none_spelled))]
    fn of_text(_alloc: Global, text: &str) -> Result<SpanId, TreeError> {
        text.parse().map_err(|_| TreeError::Misfit)
    }

    fn text<'a>(&'a self, room: &'a mut Room) -> Result<&'a str, AllocError> {
        Ok(digits_in(&self.0, room))
    }

    #[tactic(auto, using(sentry_tables::proofs::Ways::unchanged))]
    fn respell(&self, _way: Way) -> Result<SpanId, AllocError> {
        Ok(*self)
    }

    fn hold(&self) {
        are_bytes(&self.0);
    }
}

impl Drawn<SpanId> for Own {
    ghost IsDrawn = { IsOctets 8 };

    fn random<R: Rng>(ids: &mut R) -> SpanId
        ensures any { IsOctets 8 (span_id_cell result) }
        ensures next { (span_bytes result, R.stream ids.new) ≡ fill_bytes 8 (R.stream ids.old) }
    {
        let id = SpanId::random(ids);
        id.hold();
        id
    }
}
