//! Laws of the definitions that the contracts of this crate cite.
ghost use Rattle.std.specs.Prelude.{◌≡◌, ◌↔◌, ◌*◌, ◌++◌, ◌∷◌, true, List, length, Some, slice_get, IsPermutation};
ghost use Rattle.sentry_tables.specs.Laws.{HasLaws};
ghost use Rattle.sentry_words.specs.Lookup.{HasEachOnce};
ghost use Rattle.sentry_reports.specs.declared.category.Category.{Category as Categories};
ghost use Rattle.sentry_moments.specs.declared.moment.Moment.{Moment as Moments};
ghost use Rattle.sentry_reports.specs.declared.item.Item.{Item as Items};
ghost use Rattle.sentry_reports.specs.declared.reason.Reason.{Reason as Reasons};
ghost use Rattle.sentry_reports.specs.declared.report.Report.{Report as Reports};
ghost use Rattle.sentry_reports.specs.Categories.{categories, category_index, category_word, category_words, category_of, category_kind, reasons, reason_index, reason_word, reason_words, reason_of, reason_kind};
ghost use Rattle.sentry_reports.specs.ItemTable.{item_kind};
ghost use Rattle.sentry_reports.specs.Reports.{report_kind, report, AreReportsAlike};

use crate::category::Category;
use crate::kept_sums::PAIRS;
use crate::reason::Reason;
use crate::report::Report;
use sentry_words::IndexedEnum;

/// Returns all categories: each at its index, which no other category has.
pub fn categories_stand_at_their_indices() -> &'static [Category]
    ensures all { result.now ≡ categories }
    ensures index { (category : Categories) →
        slice_get result.now (category_index category) ≡ Some category }
    ensures distinct { (a b : Categories) → category_index a ≡ category_index b → a ≡ b }
{
    Category::VARIANTS
}

/// Returns all reasons: each at its index, which no other reason has.
pub fn reasons_stand_at_their_indices() -> &'static [Reason]
    ensures all { result.now ≡ reasons }
    ensures index { (reason : Reasons) → slice_get result.now (reason_index reason) ≡ Some reason }
    ensures distinct { (a b : Reasons) → reason_index a ≡ reason_index b → a ≡ b }
{
    Reason::VARIANTS
}

/// Categories round-trip: no two share a word, and each word reads back as its category.
pub fn category_words_read_back()
    ensures once { HasEachOnce category_words }
    ensures back { (category : Categories) → category_of (category_word category) ≡ Some category }
    ensures laws { HasLaws category_kind }
{}

/// Reasons round-trip: no two share a word, and each word reads back as its reason.
pub fn reason_words_read_back()
    ensures once { HasEachOnce reason_words }
    ensures back { (reason : Reasons) → reason_of (reason_word reason) ≡ Some reason }
    ensures laws { HasLaws reason_kind }
{}

/// `==` on categories and reasons: two are equal exactly if they are the same variant.
pub fn equal_categories_and_reasons()
    ensures categories { (a b : Categories) → ⟦<Category as PartialEq>⟧.eq a b ≡ true ↔ (a ≡ b) }
    ensures reasons { (a b : Reasons) → ⟦<Reason as PartialEq>⟧.eq a b ≡ true ↔ (a ≡ b) }
{}

/// The laws hold of the tables of client reports and their items.
#[tactic(auto, using(crate::proofs::TableLaws::item_laws, crate::proofs::TableLaws::report_laws))]
pub fn tables()
    ensures items { HasLaws item_kind }
    ensures reports { HasLaws report_kind }
{}

/// Returns the number of sums that a report keeps: one for each pair of a category and a reason.
pub fn sums_of_all_pairs() -> usize
    ensures kept { result ≡ PAIRS }
    ensures pairs { result ≡ length categories * length reasons }
{
    Category::VARIANTS.len() * Reason::VARIANTS.len()
}

/// `==` on reports: two are equal exactly if their timestamps are the same, and their sums for each
/// category and reason.
#[tactic(auto, using(crate::proofs::Alike::reports_decide))]
pub fn equal_reports()
    ensures { (a b : Reports) → ⟦<Report as PartialEq>⟧.eq a b ≡ true ↔ AreReportsAlike a b }
{}

/// Equality of reports is an equivalence relation that ignores the order of items and items of
/// quantity 0.
#[tactic(auto, using(crate::proofs::Alike::alike_itself, crate::proofs::Alike::alike_turned, crate::proofs::Alike::alike_chained))]
pub fn alike_reports()
    ensures reflexive { (a : Reports) → AreReportsAlike a a }
    ensures symmetric { (a b : Reports) → AreReportsAlike a b → AreReportsAlike b a }
    ensures transitive { (a b c : Reports) → AreReportsAlike a b → AreReportsAlike b c →
        AreReportsAlike a c }
    ensures any_order { (moment : Moments) (xs ys : List Items) → IsPermutation xs ys →
        AreReportsAlike (report moment xs) (report moment ys) }
    ensures without_zeros { (moment : Moments) (xs ys : List Items) (item : Items) →
        item.quantity ≡ 0 →
        AreReportsAlike (report moment (xs ++ item ∷ ys)) (report moment (xs ++ ys)) }
{}
