//! Sums of losses, by category and reason.

ghost use Rattle.std.specs.Prelude.{◌≡◌, ◌<◌};
ghost use Rattle.sentry_reports.specs.Sums.{place};
ghost use Rattle.sentry_ledger.specs.LossSums.{SumsLosses, add_loss, no_sums, sum_at};

use sentry_reports::{Category, ItemLoss, Reason};
use sentry_words::IndexedEnum;

// Number of sums in a category: one without a reason, and one for each reason.
const PLACES: usize = 10;

/// Number of sums: one for each category and reason, and one for each category without a reason.
pub const SUMS: usize = 12 * PLACES;

/// The quantity lost in each category for each reason, and without one, saturating at 2^64-1.
#[derive(Debug, Drop)]
pub struct LossSums {
    row: [u64; SUMS],
}

// Returns the index of a sum.
fn place(category: Category, reason: Option<Reason>) -> usize
    ensures same { result ≡ place category reason }
    ensures within { result < SUMS }
{
    let within = match reason {
        Some(reason) => reason.as_index() + 1,
        None => 0,
    };
    PLACES * category.as_index() + within
}

impl LossSums {
    /// Creates sums of zero.
    pub fn new() -> LossSums
        ensures { result.row ≡ no_sums }
    {
        LossSums { row: [0; SUMS] }
    }

    /// Sums losses.
    pub fn of(losses: &[ItemLoss]) -> LossSums
        ensures { SumsLosses result losses.now }
    {
        let mut sums = LossSums::new();
        for loss in losses {
            sums.add(*loss);
        }
        sums
    }

    /// Returns the quantity of a category that was lost for a reason, or without one.
    pub fn sum(&self, category: Category, reason: Option<Reason>) -> u64
        ensures { result ≡ sum_at self.now category reason }
    {
        self.row[place(category, reason)]
    }

    /// Returns all sums, category by category, in each without a reason first.
    pub fn as_slice(&self) -> &[u64]
        ensures { result.now ≡ self.now.row }
    {
        &self.row
    }

    /// Adds a loss.
    pub fn add(&mut self, loss: ItemLoss)
        ensures { self.new ≡ add_loss self.old loss }
    {
        let place = place(loss.category, loss.reason);
        self.row[place] = self.row[place].saturating_add(loss.quantity);
    }
}

/// The default sums are zero.
impl Default for LossSums {
    ghost is_default = { λ sums. sums.row ≡ no_sums };

    fn default() -> LossSums {
        LossSums::new()
    }
}
