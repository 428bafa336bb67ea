//! UUIDs.

ghost use Rattle.std.specs.Prelude.{◌≡◌, ℕ, List};
ghost use Rattle.rand_core.specs.Stream.{fill_bytes};
ghost use Rattle.uuid.specs.Parts.{v4_of_fill};
ghost use Rattle.sentry_tables.specs.Cell.{Cell, octets};
ghost use Rattle.sentry_identifiers.specs.Uuids.{uuid_kind, hyphenated_kind, simple_kind, IsRandomUuid};
ghost use Rattle.sentry_tables.specs.Reading.{Reads};

use crate::bytes::are_bytes;
use rand_core::Rng;
use sentry_json::{Node, Writer};
use sentry_tables::{Codec, Drawn, ReadCodec, TreeError, Way};
use serde_json::Value;
use std::alloc::{AllocError, Global};
use uuid::Uuid;

/// The JSON form of a UUID as a string with hyphens, in lower case.
///
/// A UUID is read with hyphens (RFC 9562), as 32 hex digits, as a URN (`urn:uuid:`) or in braces,
/// in any case.
pub struct Hyphenated;

/// The JSON form of a UUID as a string of 32 hex digits, in lower case.
///
/// A UUID is read with hyphens (RFC 9562), as 32 hex digits, as a URN (`urn:uuid:`) or in braces,
/// in any case.
pub struct Simple;

impl Codec<Uuid> for Hyphenated {
    ghost kind = { hyphenated_kind };

    ghost cell_of = { octets };

    #[tactic(auto, unfolding(sentry_tables::specs::Writes::written))]
    fn to_tree(value: &Uuid, alloc: Global) -> Result<Value, AllocError> {
        Value::try_from_str(alloc, value.hyphenated().encode_lower(&mut [0; 36]))
    }

    #[tactic(auto, using(sentry_tables::proofs::Spellings::spelling_wrote))]
    fn write(value: &Uuid, out: &mut Writer) -> Result<(), AllocError> {
        out.string(value.hyphenated().encode_lower(&mut [0; 36]))
    }

    #[tactic(auto, using(sentry_tables::proofs::Ways::unchanged))]
    fn remake(value: &Uuid, _way: Way) -> Result<Uuid, AllocError> {
        Ok(*value)
    }

    fn is_null_tree(_value: &Uuid) -> bool {
        false
    }

    fn is_plain(value: &Uuid) -> bool {
        are_bytes(value.as_bytes());
        true
    }
}

impl Codec<Uuid> for Simple {
    ghost kind = { simple_kind };

    ghost cell_of = { octets };

    #[tactic(auto, unfolding(sentry_tables::specs::Writes::written))]
    fn to_tree(value: &Uuid, alloc: Global) -> Result<Value, AllocError> {
        Value::try_from_str(alloc, value.simple().encode_lower(&mut [0; 32]))
    }

    #[tactic(auto, using(sentry_tables::proofs::Spellings::spelling_wrote))]
    fn write(value: &Uuid, out: &mut Writer) -> Result<(), AllocError> {
        out.string(value.simple().encode_lower(&mut [0; 32]))
    }

    #[tactic(auto, using(sentry_tables::proofs::Ways::unchanged))]
    fn remake(value: &Uuid, _way: Way) -> Result<Uuid, AllocError> {
        Ok(*value)
    }

    fn is_null_tree(_value: &Uuid) -> bool {
        false
    }

    fn is_plain(value: &Uuid) -> bool {
        are_bytes(value.as_bytes());
        true
    }
}

// Reads a UUID from a JSON string in one of the four forms.
fn read_uuid<N: Node>(node: &N) -> Result<Uuid, TreeError>
    ensures { (to_text : Cell → List ℕ) →
        Reads (uuid_kind to_text) octets (N.data_of node.now) result }
{
    match node.as_str() {
        Some(text) => match Uuid::parse_str(text) {
            Ok(id) => Ok(id),
            Err(_) => Err(TreeError::Misfit),
        },
        None => Err(TreeError::Misfit),
    }
}

impl ReadCodec<Uuid> for Hyphenated {
    fn from_node<N: Node>(_alloc: Global, node: &N) -> Result<Uuid, TreeError> {
        read_uuid(node)
    }
}

impl ReadCodec<Uuid> for Simple {
    fn from_node<N: Node>(_alloc: Global, node: &N) -> Result<Uuid, TreeError> {
        read_uuid(node)
    }
}

impl Drawn<Uuid> for Hyphenated {
    ghost IsDrawn = { IsRandomUuid };

    fn random<R: Rng>(ids: &mut R) -> Uuid
        ensures any { IsRandomUuid (octets result) }
        ensures next { (result, R.stream ids.new) ≡ v4_of_fill (fill_bytes 16 (R.stream ids.old)) }
    {
        random_uuid(ids)
    }
}

impl Drawn<Uuid> for Simple {
    ghost IsDrawn = { IsRandomUuid };

    fn random<R: Rng>(ids: &mut R) -> Uuid
        ensures any { IsRandomUuid (octets result) }
        ensures next { (result, R.stream ids.new) ≡ v4_of_fill (fill_bytes 16 (R.stream ids.old)) }
    {
        <Hyphenated as Drawn<Uuid>>::random(ids)
    }
}

/// Draws a random UUID (version 4) from the generator's next 16 bytes.
pub fn random_uuid<R: Rng>(ids: &mut R) -> Uuid
    ensures drawn { (result, R.stream ids.new) ≡ v4_of_fill (fill_bytes 16 (R.stream ids.old)) }
    ensures random { IsRandomUuid (octets result) }
{
    let id = Uuid::new_v4(ids);
    are_bytes(id.as_bytes());
    id
}
