//! JSON forms of moments: RFC 3339 strings, and whole seconds.

ghost use Rattle.sentry_moments.specs.Moments.{moment_cell};
ghost use Rattle.sentry_moments.specs.MomentForms.{rfc3339_kind, seconds_kind};

use crate::moment::{LONGEST, Moment};
use sentry_json::{Node, Writer};
use sentry_tables::{Codec, ReadCodec, TreeError, Way};
use serde_json::Value;
use std::alloc::{AllocError, Global};

/// The JSON form of a moment as an RFC 3339 string.
///
/// A string is read by [`Moment::from_rfc3339`], and written as the moment is printed.
///
/// <https://www.rfc-editor.org/rfc/rfc3339>
pub struct Rfc3339;

/// The JSON form of a moment as whole seconds since 1970-01-01T00:00:00Z, or as an RFC 3339 string.
///
/// A moment of whole seconds is written as a number, any other as a string. A negative number, a
/// number with a fraction, and a number past the year 9999 are rejected.
///
/// <https://develop.sentry.dev/sdk/data-model/event-payloads/#required-attributes>
pub struct Seconds;

impl Codec<Moment> for Rfc3339 {
    ghost kind = { rfc3339_kind };

    ghost cell_of = { moment_cell };

    #[tactic(auto, using(sentry_tables::proofs::Spellings::text_tree))]
    fn to_tree(value: &Moment, alloc: Global) -> Result<Value, AllocError> {
        let mut room = [0; LONGEST];
        Value::try_from_str(alloc, value.text(&mut room))
    }

    #[tactic(auto, using(sentry_tables::proofs::Spellings::spelling_wrote))]
    fn write(value: &Moment, out: &mut Writer) -> Result<(), AllocError> {
        let mut room = [0; LONGEST];
        out.string(value.text(&mut room))
    }

    #[tactic(auto, using(sentry_tables::proofs::Ways::unchanged))]
    fn remake(value: &Moment, _way: Way) -> Result<Moment, AllocError> {
        Ok(*value)
    }

    fn is_null_tree(_value: &Moment) -> bool {
        false
    }

    #[tactic(auto, using(crate::proofs::MomentRange::moment_in_range))]
    fn is_plain(_value: &Moment) -> bool {
        true
    }
}

impl ReadCodec<Moment> for Rfc3339 {
    #[tactic(auto, using(crate::proofs::MomentsShown::named_shown, crate::proofs::MomentsShown::not_named, sentry_tables::proofs::Spellings::not_text))]
    fn from_node<N: Node>(_alloc: Global, node: &N) -> Result<Moment, TreeError> {
        let text = node.as_str().ok_or(TreeError::Misfit)?;
        match Moment::from_rfc3339(text) {
            Some(moment) => Ok(moment),
            None => Err(TreeError::Misfit),
        }
    }
}

impl Codec<Moment> for Seconds {
    ghost kind = { seconds_kind };

    ghost cell_of = { moment_cell };

    #[tactic(auto, using(crate::proofs::MomentsWritten::whole_tree))]
    fn to_tree(value: &Moment, alloc: Global) -> Result<Value, AllocError> {
        if value.nanos() == 0 {
            Ok(Value::from(value.secs()))
        } else {
            Rfc3339::to_tree(value, alloc)
        }
    }

    #[tactic(auto, using(crate::proofs::MomentsWritten::whole_wrote, crate::proofs::MomentsWritten::part_wrote))]
    fn write(value: &Moment, out: &mut Writer) -> Result<(), AllocError> {
        if value.nanos() == 0 {
            out.u64(value.secs())
        } else {
            Rfc3339::write(value, out)
        }
    }

    #[tactic(auto, using(sentry_tables::proofs::Ways::unchanged))]
    fn remake(value: &Moment, _way: Way) -> Result<Moment, AllocError> {
        Rfc3339::copy(value)
    }

    fn is_null_tree(_value: &Moment) -> bool {
        false
    }

    fn is_plain(value: &Moment) -> bool {
        Rfc3339::is_plain(value)
    }
}

impl ReadCodec<Moment> for Seconds {
    #[tactic(auto, using(crate::proofs::MomentsShown::seconds_shown, crate::proofs::MomentsShown::past_the_range, crate::proofs::MomentsShown::without_number))]
    fn from_node<N: Node>(alloc: Global, node: &N) -> Result<Moment, TreeError> {
        match node.as_u64() {
            Some(secs) => Moment::new(secs, 0).ok_or(TreeError::Misfit),
            None => Rfc3339::from_node(alloc, node),
        }
    }
}
