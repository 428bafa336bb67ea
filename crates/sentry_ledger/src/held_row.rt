//! What is held of each category and reason, as a row of sums, and the items that report it.

ghost use Rattle.std.specs.Prelude.{◌≡◌, ◌↔◌, ◌++◌, EachIndex, IfOk, IsTrue, OnOk, length, slice_index};
ghost use Rattle.std.specs.List.{flat_map};
ghost use Rattle.sentry_reports.specs.ReportSums.{report_sum};
ghost use Rattle.sentry_reports.specs.declared.category.Category.{Category as Categories};
ghost use Rattle.sentry_reports.specs.declared.kept_sums.TheConstants.{PAIRS};
ghost use Rattle.sentry_reports.specs.declared.reason.Reason.{Reason as Reasons};
ghost use Rattle.sentry_ledger.specs.Held.{HoldsNothing, held_in, items_held, items_of_category, items_of_pair};

use sentry_reports::kept_sums::pair_place;
use sentry_reports::{Category, Item, Reason};
use sentry_words::IndexedEnum;
use std::alloc::{AllocError, Global};

fn are_zeros(quantities: &[u64]) -> bool
    ensures { IsTrue result ↔ EachIndex quantities.now (λ k. slice_index quantities.now k ≡ 0) }
{
    quantities.iter().all(|quantity| *quantity == 0)
}

/// Returns whether a row of 108 sums holds no loss.
pub fn holds_nothing(row: &[u64]) -> bool
    requires { length row.now ≡ PAIRS }
    ensures { IsTrue result ↔ HoldsNothing (held_in row.now) }
{
    are_zeros(row)
}

/// Returns the items of a report of all that a row of 108 sums holds: one for each category and
/// reason with a quantity above 0, sorted by category and then by reason.
///
/// # Errors
///
/// `AllocError` if an allocation fails.
#[tactic(auto, unfolding(crate::specs::Held::items_held))]
pub fn report_items(alloc: Global, row: &[u64]) -> Result<Vec<Item>, AllocError>
    requires { length row.now ≡ PAIRS }
    ensures items { IfOk result (λ items. items.items ≡ items_held (held_in row.now)) }
    ensures sums { IfOk result (λ items. (category : Categories) (reason : Reasons) →
        report_sum category reason items.items ≡ held_in row.now category reason) }
{
    let mut items = Vec::new(alloc);
    push_categories(&mut items, row, Category::VARIANTS)?;
    Ok(items)
}

fn push_categories(
    items: &mut Vec<Item>,
    row: &[u64],
    categories: &[Category],
) -> Result<(), AllocError>
    requires { length row.now ≡ PAIRS }
    ensures { OnOk result (items.new.items ≡ items.old.items
        ++ flat_map (items_of_category (held_in row.now)) categories.now) }
{
    for category in categories {
        push_category(items, row, *category)?;
    }
    Ok(())
}

#[tactic(auto, unfolding(crate::specs::Held::items_of_category))]
fn push_category(items: &mut Vec<Item>, row: &[u64], category: Category) -> Result<(), AllocError>
    requires { length row.now ≡ PAIRS }
    ensures { OnOk result (items.new.items ≡ items.old.items
        ++ items_of_category (held_in row.now) category) }
{
    push_reasons(items, row, category, Reason::VARIANTS)
}

fn push_reasons(
    items: &mut Vec<Item>,
    row: &[u64],
    category: Category,
    reasons: &[Reason],
) -> Result<(), AllocError>
    requires { length row.now ≡ PAIRS }
    ensures { OnOk result (items.new.items ≡ items.old.items
        ++ flat_map (items_of_pair (held_in row.now) category) reasons.now) }
{
    for reason in reasons {
        push_pair(items, row, category, *reason)?;
    }
    Ok(())
}

// Appends the item of a pair, unless its quantity is 0.
fn push_pair(
    items: &mut Vec<Item>,
    row: &[u64],
    category: Category,
    reason: Reason,
) -> Result<(), AllocError>
    requires { length row.now ≡ PAIRS }
    ensures { OnOk result (items.new.items ≡ items.old.items
        ++ items_of_pair (held_in row.now) category reason) }
{
    let quantity = row[pair_place(category, reason)];
    if quantity != 0 {
        items.push(Item::new(category, reason, quantity))?;
    }
    Ok(())
}
