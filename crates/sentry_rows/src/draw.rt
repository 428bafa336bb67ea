//! Rows whose values are drawn if absent, as ids.

ghost use Rattle.sentry_tables.specs.Kind.{draw};
ghost use Rattle.sentry_tables.specs.Reading.{ReadsRow};
ghost use Rattle.sentry_json.specs.Nodes.{object_data};

use rand_core::Rng;
use sentry_json::{Node, Object};
use sentry_tables::{Drawn, TreeError};
use std::alloc::Global;

// Reads a member with the codec `F`; drawn from `ids` if absent.
#[tactic(auto, using(crate::proofs::RowLemmas::draw_absent, crate::proofs::RowLemmas::draw_read))]
pub(crate) fn or_drawn_as<F: Drawn<T>, T: Drop, R: Rng, N: Node>(
    alloc: Global,
    object: &Object<'_, N>,
    key: &str,
    ids: &mut R,
) -> Result<T, TreeError>
    ensures { ReadsRow key.now (draw F.IsDrawn) F.kind F.cell_of
        (object_data N.data_of object.now) result }
{
    match object.get(key) {
        Some(member) => F::from_node(alloc, member),
        None => Ok(F::random(ids)),
    }
}
