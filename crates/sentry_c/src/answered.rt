//! Forwarding by a list of answers.

ghost use Rattle.std.specs.Prelude.{◌≡◌, ◌≢◌, ◌≤◌, ◌↔◌, Err, IfOk, IsTrue};
ghost use Rattle.std.specs.List.{All};
ghost use Rattle.sentry_framing.specs.declared.error.EnvelopeError.{EnvelopeError as Refusal};
ghost use Rattle.sentry_framing.specs.declared.error.EnvelopeError.TheVariants as refusals;
ghost use Rattle.sentry_forward.specs.View.{IsOver, IsRefused};
ghost use Rattle.sentry_c.specs.Forwarding.{after_first, first_answer, IsForwardedAs};

use sentry_types::protocol::v7::{AnyFrame, ForwardError, ForwardRules, Forwarded, forward_by};
use std::alloc::Global;

/// Returns whether each answer is 0 or 1.
pub fn are_answers(keep: &[u8]) -> bool
    ensures { IsTrue result ↔ All (λ answer. answer ≤ 1) keep.now }
{
    keep.iter().all(|answer| *answer <= 1)
}

/// Forwards an envelope by answers, one for each item in order: 1 keeps the item. An item without
/// an answer is dropped.
///
/// # Errors
///
/// The errors of [`forward_by`].
pub fn forward_answered<'a>(
    alloc: Global,
    bytes: &'a [u8],
    rules: ForwardRules,
    keep: &[u8],
) -> Result<Forwarded<'a>, ForwardError>
    ensures forwarded { IfOk result (IsForwardedAs bytes.now keep.now rules.attachments_follow) }
    ensures bounded { IfOk result (λ left. left.items ≤ rules.max_items) }
    ensures over { result ≡ Err ForwardError.TooManyItems → IsOver bytes.now rules.max_items }
    ensures refused { (x : Refusal) → result ≡ Err (ForwardError.Envelope x) →
        x ≢ refusals.OutOfMemory → IsRefused bytes.now x }
{
    let mut left = keep;
    let mut filter = move |_: &AnyFrame<'_>| -> bool
        ensures answer { result ≡ first_answer left.entry.now }
        ensures rest { left.exit.now ≡ after_first left.entry.now }
    {
        match left.split_first() {
            Some((answer, rest)) => {
                left = rest;
                *answer == 1
            }
            None => false,
        }
    };
    forward_by(alloc, bytes, rules, &mut filter)
}
