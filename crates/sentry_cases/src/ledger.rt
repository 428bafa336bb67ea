//! Histories of a ledger, and envelopes whose losses a ledger records.

use crate::asked::taken;
use crate::envelopes::{read, said_loss};
use crate::filters::{is_kept, said_left};
use crate::said::{as_tree, list, text};
use sentry_types::IndexedEnum;
use sentry_types::protocol::v7::client_report::{
    Category, ItemLoss, Ledger, Reason, Step, StepAnswer, filter_recorded, run_steps,
};
use sentry_types::protocol::v7::{Envelope, EnvelopeItem, Member, Moment, Value, Word};
use std::alloc::{AllocError, Global};

// `flush SECONDS`, or `add CATEGORY QUANTITY REASON`, after which the loss's own reason may stand.
fn step_of(given: &str) -> Option<Step> {
    let mut words = given.split(' ');
    if words.next()? == "flush" {
        let secs = words.next()?.parse::<u64>().ok()?;
        return Some(Step::Flush(Moment::new(secs, 0)?));
    }
    let category = Category::of_word(words.next()?)?;
    let quantity = words.next()?.parse::<u64>().ok()?;
    let given = Reason::of_word(words.next()?)?;
    let reason = match words.next() {
        Some(word) => Some(Reason::of_word(word)?),
        None => None,
    };
    let loss = ItemLoss {
        category,
        quantity,
        reason,
    };
    Some(Step::Add(loss, given))
}

// Steps with `; ` between them.
fn steps_of(alloc: Global, given: &str) -> Result<Option<Vec<Step>>, AllocError> {
    let mut steps = Vec::new(alloc);
    for part in given.split("; ") {
        if part.is_empty() {
            continue;
        }
        let Some(step) = step_of(part) else {
            return Ok(None);
        };
        steps.push(step)?;
    }
    Ok(Some(steps))
}

fn said_answer(alloc: Global, answer: &StepAnswer) -> Result<Value, AllocError> {
    match answer {
        StepAnswer::Accepted => text(alloc, "accepted"),
        StepAnswer::Refused => text(alloc, "refused"),
        StepAnswer::Flushed(report) => report.to_tree(alloc),
        StepAnswer::Nothing => text(alloc, "nothing"),
        StepAnswer::NoMemory => Err(AllocError),
    }
}

/// What is held of each category and reason above 0, in order, or `empty`.
pub fn said_held(alloc: Global, ledger: &Ledger) -> Result<Value, AllocError> {
    if ledger.is_empty() {
        return text(alloc, "empty");
    }
    let mut told = Vec::new(alloc);
    for category in Category::VARIANTS {
        for reason in Reason::VARIANTS {
            let quantity = ledger.held(*category, *reason);
            if quantity != 0 {
                let loss = ItemLoss {
                    category: *category,
                    quantity,
                    reason: Some(*reason),
                };
                told.push(said_loss(alloc, &loss)?)?;
            }
        }
    }
    Ok(Value::from(told))
}

/// The answers to steps on an empty ledger, and what is held afterwards.
pub fn of_history(alloc: Global, given: &str) -> Result<Value, AllocError> {
    let Some(steps) = steps_of(alloc, given)? else {
        return text(alloc, "no steps");
    };
    let mut ledger = Ledger::default();
    let mut told = Vec::new(alloc);
    for answer in &run_steps(alloc, &mut ledger, steps.as_slice())? {
        told.push(said_answer(alloc, answer)?)?;
    }
    list(alloc, [as_tree(told), said_held(alloc, &ledger)])
}

// What is left of an envelope without the items of some kinds, how many of their losses a ledger
// refuses, and what it holds afterwards.
fn said_recorded(
    alloc: Global,
    envelope: Envelope,
    kinds: &str,
    reason: Reason,
    ledger: &mut Ledger,
) -> Result<Value, AllocError> {
    let filter = |item: &EnvelopeItem| { is_kept(kinds, item) };
    match filter_recorded(alloc, envelope, filter, reason, ledger) {
        Ok((left, refused)) => {
            let left = said_left(alloc, left);
            list(alloc, [left, as_tree(refused), said_held(alloc, ledger)])
        }
        Err(envelope) => {
            drop(envelope);
            Err(AllocError)
        }
    }
}

/// The ledger after the steps that stand after `; `, the reason that is the first word, and the
/// words after the reason; `None` where there are no such steps or no such reason.
pub fn begun<'w>(
    alloc: Global,
    words: &'w str,
) -> Result<Option<(Ledger, Reason, &'w str)>, AllocError> {
    let (words, before) = words.split_once("; ").unwrap_or((words, ""));
    let (reason, others) = words.split_once(' ').unwrap_or((words, ""));
    let (Some(reason), Some(steps)) = (Reason::of_word(reason), steps_of(alloc, before)?) else {
        return Ok(None);
    };
    let mut ledger = Ledger::new();
    drop(run_steps(alloc, &mut ledger, steps.as_slice())?);
    Ok(Some((ledger, reason, others)))
}

/// What is left of the envelope that bytes spell without the items of some kinds, how many of their
/// losses are refused, and what is held afterwards. The first word is the reason; steps may stand
/// after `; `, and come first.
pub fn of_recorded(alloc: Global, words: &str, bytes: &[u8]) -> Result<Value, AllocError> {
    let Some((mut ledger, reason, kinds)) = begun(alloc, words)? else {
        return text(alloc, "no steps");
    };
    taken(
        alloc,
        read(alloc, bytes),
        |alloc: Global, envelope: Envelope| {
            said_recorded(alloc, envelope, kinds, reason, &mut ledger)
        },
    )
}
