//! The table of losses.

ghost use Rattle.std.specs.Prelude.{◌≡◌, ◌++◌, IfOk, OnOk, Some, string_bytes};
ghost use Rattle.std.specs.List.{flat_map};
ghost use Rattle.sentry_ledger.specs.LossSums.{sum_at};
ghost use Rattle.sentry_program.specs.Table.{line_of, lines_by, reason_text, table_by, table_of};

use sentry_ledger::loss_sums::LossSums;
use sentry_reports::{Category, ItemLoss, Reason};
use sentry_words::IndexedEnum;
use std::alloc::{AllocError, Global};

fn reason_text(reason: Option<Reason>) -> &'static str
    ensures { result.now ≡ reason_text reason }
{
    match reason {
        Some(reason) => reason.as_str(),
        None => "none",
    }
}

// Appends the line of a sum that is above 0.
fn push_line(
    text: &mut String,
    sums: &LossSums,
    category: Category,
    reason: Option<Reason>,
) -> Result<(), AllocError>
    ensures { OnOk result (string_bytes text.new ≡ string_bytes text.old ++
        line_of category reason (sum_at sums.now category reason)) }
{
    let quantity = sums.sum(category, reason);
    if quantity != 0 {
        let category = category.as_str();
        let reason = reason_text(reason);
        writeln!(text, "{category} {reason} {quantity}")?;
    }
    Ok(())
}

fn push_reasons(
    text: &mut String,
    sums: &LossSums,
    category: Category,
    reasons: &[Reason],
) -> Result<(), AllocError>
    ensures { OnOk result (string_bytes text.new ≡ string_bytes text.old
        ++ flat_map (λ reason.
        line_of category (Some reason) (sum_at sums.now category (Some reason))) reasons.now) }
{
    for reason in reasons {
        push_line(text, sums, category, Some(*reason))?;
    }
    Ok(())
}

#[tactic(auto, unfolding(crate::specs::Table::lines_by))]
fn push_category(text: &mut String, sums: &LossSums, category: Category) -> Result<(), AllocError>
    ensures { OnOk result (string_bytes text.new ≡ string_bytes text.old ++
        lines_by (sum_at sums.now) category) }
{
    push_line(text, sums, category, None)?;
    push_reasons(text, sums, category, Reason::VARIANTS)
}

fn push_categories(
    text: &mut String,
    sums: &LossSums,
    categories: &[Category],
) -> Result<(), AllocError>
    ensures { OnOk result (string_bytes text.new ≡ string_bytes text.old ++
        flat_map (lines_by (sum_at sums.now)) categories.now) }
{
    for category in categories {
        push_category(text, sums, *category)?;
    }
    Ok(())
}

/// Returns the table: a line for each sum above 0. `AllocError` if an allocation fails.
#[tactic(auto, unfolding(crate::specs::Table::table_by))]
pub fn table(alloc: Global, sums: &LossSums) -> Result<String, AllocError>
    ensures { IfOk result (λ text. string_bytes text ≡ table_by (sum_at sums.now)) }
{
    let mut text = String::new(alloc);
    push_categories(&mut text, sums, Category::VARIANTS)?;
    Ok(text)
}

/// Returns the table of the sums of these losses. `AllocError` if an allocation fails.
#[tactic(auto, using(crate::proofs::TableLemmas::table_of_sums))]
pub fn table_of(alloc: Global, losses: &[ItemLoss]) -> Result<String, AllocError>
    ensures { IfOk result (λ text. string_bytes text ≡ table_of losses.now) }
{
    let text = table(alloc, &LossSums::of(losses))?;
    Ok(text)
}
