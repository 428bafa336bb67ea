//! The tag of an object: the word at the key `type`.

ghost use Rattle.std.specs.Prelude.{◌≡◌, None, option_map};
ghost use Rattle.sentry_tables.specs.Shows.{tag_word};

use sentry_json::Node;

/// Returns the tag of an object; `None` if the node has no string at the key `type`.
#[tactic(auto, using(crate::proofs::TagsShown::word_there, crate::proofs::TagsShown::word_absent))]
pub fn tag<N: Node>(node: &N) -> Option<&str>
    ensures { option_map (λ word. word.now) result ≡ tag_word None (N.data_of node.now) }
{
    node.text_at("type")
}
