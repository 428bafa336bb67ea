//! Booleans as JSON strings.

ghost use Rattle.std.specs.Prelude.{◌≡◌};
ghost use Rattle.sentry_tables.specs.Spelling.{ReadsSpelling};
ghost use Rattle.sentry_words.specs.Sampled.{sampled_word, sampled_kind, sampled_spelling, sampled_cell};

use sentry_json::{Node, Writer};
use sentry_tables::{Codec, ReadCodec, TreeError, Way};
use serde_json::Value;
use std::alloc::{AllocError, Global};

/// The form of a boolean as the string `true` or `false`; `sampled` in trace headers has it.
///
/// <https://develop.sentry.dev/sdk/telemetry/traces/dynamic-sampling-context/>
pub struct Sampled;

fn word(truth: bool) -> &'static str
    ensures { result.now ≡ sampled_word truth }
{
    if truth { "true" } else { "false" }
}

fn truth_of(text: &str) -> Result<bool, TreeError>
    ensures { ReadsSpelling sampled_spelling sampled_cell text.now result }
{
    match text {
        "true" => Ok(true),
        "false" => Ok(false),
        _ => Err(TreeError::Misfit),
    }
}

impl Codec<bool> for Sampled {
    ghost kind = { sampled_kind };

    ghost cell_of = { sampled_cell };

    #[tactic(auto, unfolding(sentry_tables::specs::Writes::written))]
    fn to_tree(value: &bool, alloc: Global) -> Result<Value, AllocError> {
        Value::try_from_str(alloc, word(*value))
    }

    #[tactic(auto, using(sentry_tables::proofs::Spellings::spelling_wrote))]
    fn write(value: &bool, out: &mut Writer) -> Result<(), AllocError> {
        out.string(word(*value))
    }

    #[tactic(auto, using(sentry_tables::proofs::Ways::unchanged))]
    fn remake(value: &bool, _way: Way) -> Result<bool, AllocError> {
        Ok(*value)
    }

    fn is_null_tree(_value: &bool) -> bool {
        false
    }

    #[tactic(auto, using(crate::proofs::SampledLaws::sampled_stored))]
    fn is_plain(_value: &bool) -> bool {
        true
    }
}

impl ReadCodec<bool> for Sampled {
    #[tactic(auto, using(sentry_tables::proofs::Spellings::text_read, sentry_tables::proofs::Spellings::not_text))]
    fn from_node<N: Node>(_alloc: Global, node: &N) -> Result<bool, TreeError> {
        truth_of(node.as_str().ok_or(TreeError::Misfit)?)
    }
}
