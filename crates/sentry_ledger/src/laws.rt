//! Laws of the definitions that the contracts of this crate cite.
ghost use Rattle.std.specs.Prelude.{◌≡◌, List, fold};
ghost use Rattle.sentry_reports.specs.declared.item_loss.ItemLoss.{ItemLoss};
ghost use Rattle.sentry_ledger.specs.Held.{Fits, Quantities};
ghost use Rattle.sentry_ledger.specs.Histories.{Entry, IsConserved, IsHistory};
ghost use Rattle.sentry_ledger.specs.LossSums.{SumsLosses, add_loss, no_sums};
ghost use Rattle.sentry_ledger.specs.declared.loss_sums.LossSums.{LossSums};

/// No accepted loss gets lost: over each history of records and flushes, for each category and
/// reason, all reports and what is held at the end sum to what was held at the start and all that
/// was accepted, without a limit.
#[tactic(auto, using(crate::proofs::Conserved::conserved))]
pub fn histories_conserve()
    ensures { (start : Quantities) (history : List Entry) → Fits start → IsHistory start history →
        IsConserved start history }
{}

/// Losses that are added one by one, from sums of zero, are summed: each sum is that of the losses
/// of its category and reason, cut once at 2^64-1.
pub fn losses_are_summed()
    ensures { (sums : LossSums) (losses : List ItemLoss) → sums.row ≡ no_sums →
        SumsLosses (fold add_loss sums losses) losses }
{}
