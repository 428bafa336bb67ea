//! The sums that a client report keeps.

ghost use Rattle.std.specs.Prelude.{◌≡◌, ◌+◌, ◌-◌, ◌^◌, ◌<◌, min};
ghost use Rattle.sentry_reports.specs.ReportSums.{pair_place, KeepsSums};

use crate::category::Category;
use crate::item::Item;
use crate::reason::Reason;
use sentry_words::IndexedEnum;

/// Number of sums that a report keeps: one for each pair of a category and a reason.
pub const PAIRS: usize = 108;

// Number of reasons, and of the sums in each category.
const REASONS: usize = 9;

/// Returns the index of a sum: category by category, and by reason in each category.
pub fn pair_place(category: Category, reason: Reason) -> usize
    ensures same { result ≡ pair_place category reason }
    ensures within { result < PAIRS }
{
    REASONS * category.as_index() + reason.as_index()
}

fn add_up(sum: u64, quantity: u64) -> u64
    ensures { result ≡ min (sum + quantity) (2 ^ 64 - 1) }
{
    sum.saturating_add(quantity)
}

// Returns the sum of each category and reason, saturating at 2^64-1.
#[tactic(auto, using(crate::proofs::ReportSums::keeps_nothing))]
pub(crate) fn sums_of(items: &[Item]) -> [u64; PAIRS]
    ensures { KeepsSums result items.now }
{
    let mut sums = [0_u64; PAIRS];
    for item in items {
        let place = pair_place(item.category, item.reason);
        sums[place] = add_up(sums[place], item.quantity);
    }
    sums
}
