//! Histories of a ledger: lists of steps and their answers.

ghost use Rattle.std.specs.Prelude.{◌≡◌, ◌+◌, ◌∷◌, [], IfOk, OnErr};
ghost use Rattle.std.specs.List.{zip};
ghost use Rattle.sentry_reports.specs.declared.category.Category.{Category as Categories};
ghost use Rattle.sentry_reports.specs.declared.reason.Reason.{Reason as Reasons};
ghost use Rattle.sentry_ledger.specs.Held.{quantity_held};
ghost use Rattle.sentry_ledger.specs.Histories.{AnswersSteps, Holds, IsAnswered, accepted, flushed};

use crate::ledger::Ledger;
use sentry_moments::Moment;
use sentry_reports::{ItemLoss, Reason, Report};
use std::alloc::{AllocError, Global};

/// A step of a ledger's history.
#[derive(Clone, Copy, Debug)]
pub enum Step {
    /// Records a loss under its own reason, or under this one if the loss has none.
    Add(ItemLoss, Reason),
    /// Flushes the ledger at this moment.
    Flush(Moment),
}

/// A ledger's answer to a [`Step`].
#[derive(Debug, Drop)]
pub enum StepAnswer {
    /// The loss is recorded.
    Accepted,
    /// The loss would exceed the limit of 2^64-1 and is not recorded.
    Refused,
    /// The report of all losses that were held; the ledger is empty.
    Flushed(Report),
    /// The ledger was empty, and no report was made.
    Nothing,
    /// An allocation failed during the flush; the ledger is unchanged.
    NoMemory,
}

impl Ledger {
    fn answer(&mut self, alloc: Global, step: &Step) -> StepAnswer
        ensures answered { IsAnswered (quantity_held self.old) (step.now, result) }
        ensures held { Holds self.new (quantity_held self.old) ((step.now, result) ∷ []) }
        ensures conserved { (category : Categories) (reason : Reasons) →
            flushed category reason (result ∷ []) + quantity_held self.new category reason
            ≡ quantity_held self.old category reason
            + accepted category reason ((step.now, result) ∷ []) }
    {
        match step {
            Step::Add(loss, reason) => match self.record(*loss, *reason) {
                Ok(()) => StepAnswer::Accepted,
                Err(_) => StepAnswer::Refused,
            },
            Step::Flush(now) => match self.flush(alloc, *now) {
                Ok(Some(report)) => StepAnswer::Flushed(report),
                Ok(None) => StepAnswer::Nothing,
                Err(_) => StepAnswer::NoMemory,
            },
        }
    }
}

/// Applies steps to a ledger, one after another, and returns their answers.
///
/// A refused loss and a flush whose allocation fails change nothing; the steps after them are
/// applied all the same. For each category and reason, the quantities of all flushed reports plus
/// what is held afterwards equal what was held before plus all accepted quantities.
///
/// # Errors
///
/// `AllocError` if the allocation of the answers fails, which comes before the first step; the
/// ledger is unchanged.
pub fn run_steps(
    alloc: Global,
    ledger: &mut Ledger,
    steps: &[Step],
) -> Result<Vec<StepAnswer>, AllocError>
    ensures answered { IfOk result (λ answers.
        AnswersSteps ledger.old ledger.new steps.now answers.items) }
    ensures conserved { IfOk result (λ answers. (category : Categories) (reason : Reasons) →
        flushed category reason answers.items + quantity_held ledger.new category reason
        ≡ quantity_held ledger.old category reason
        + accepted category reason (zip steps.now answers.items)) }
    ensures refused { OnErr result (ledger.new ≡ ledger.old) }
{
    let mut answers = Vec::with_capacity(alloc, steps.len())?;
    for step in steps {
        let answer = ledger.answer(alloc, step);
        answers.push(answer).unwrap();
    }
    Ok(answers)
}
