//! Laws of texts (printed values read back, no text has two values), of JSON forms (a written tree
//! or line shows the normal form of the value and nothing else; a shown value is written as its
//! normal form is), of equality (by content), and of order (moments by time).

ghost use Rattle.std.specs.Prelude.{ℕ, ◌≡◌, ◌+◌, ◌*◌, ◌/◌, ◌%◌, ◌^◌, ◌<◌, ◌≤◌, ◌⊎◌, ◌↔◌, true, List, Some, IsUtf8};
ghost use Rattle.std.specs.declared.cmp.Ordering.TheVariants.{Less, Equal, Greater};
ghost use Rattle.sentry_tables.specs.Kind.{at_once};
ghost use Rattle.sentry_tables.specs.Lawful.{RefusesNull, RuleLaws};
ghost use Rattle.sentry_tables.specs.Laws.{HasLaws};
ghost use Rattle.sentry_moments.specs.Decimal.{IsDecimal, IsNoDecimal, Worth, Billionths, decimal_text};
ghost use Rattle.sentry_moments.specs.MomentForms.{rfc3339_kind, seconds_kind};
ghost use Rattle.sentry_moments.specs.MomentTexts.{rfc3339_text};
ghost use Rattle.sentry_moments.specs.Moments.{elapsed_nanoseconds};
ghost use Rattle.sentry_moments.specs.Rfc3339.{IsMomentTime, IsRfc3339};
ghost use Rattle.sentry_moments.specs.SampleRand.{IsNearestEven, millionths as millionths_of, sample_rand_text};
ghost use Rattle.sentry_moments.specs.SamplingTexts.{sample_rand_kind, sample_rate_kind};
ghost use Rattle.sentry_moments.specs.declared.decimal.Decimal.{Decimal as Decimals};
ghost use Rattle.sentry_moments.specs.declared.moment.Moment.{Moment as Moments};
ghost use Rattle.sentry_moments.specs.declared.sample_rand.SampleRand.{SampleRand as SampleRands};
ghost use Rattle.sentry_moments.specs.declared.sample_rate.SampleRate.{SampleRate as SampleRates};

use crate::{Decimal, Moment, SampleRand, SampleRate};

/// RFC 3339 texts: the text of a moment names that moment and is UTF-8; each text names one moment
/// or none.
pub fn rfc3339_texts()
    ensures read_back { (secs nanos : ℕ) → IsMomentTime secs nanos →
        IsRfc3339 (rfc3339_text secs nanos) secs nanos }
    ensures are_texts { (secs nanos : ℕ) → IsUtf8 (rfc3339_text secs nanos) }
    ensures one { (text : List ℕ) (secs nanos s n : ℕ) → IsRfc3339 text secs nanos →
        IsRfc3339 text s n →
        (secs ≡ s) × (nanos ≡ n) }
    ensures decided { (text : List ℕ) → ((secs : ℕ) × (nanos : ℕ) × IsRfc3339 text secs nanos) ⊎
        ((secs nanos : ℕ) → IsRfc3339 text secs nanos → ⊥) }
{}

/// Decimal texts: the text of a moment has the value of its seconds and is UTF-8; each text has one
/// value, or is no decimal.
pub fn decimal_texts()
    ensures read_back { (secs nanos : ℕ) → IsMomentTime secs nanos →
        IsDecimal (decimal_text secs nanos) (Billionths (secs * 10 ^ 9 + nanos)) }
    ensures are_texts { (secs nanos : ℕ) → secs < 2 ^ 64 → IsUtf8 (decimal_text secs nanos) }
    ensures one { (text : List ℕ) (w v : Worth) → IsDecimal text w → IsDecimal text v → w ≡ v }
    ensures decided { (text : List ℕ) → ((w : Worth) × IsDecimal text w) ⊎ IsNoDecimal text }
{}

/// Printed `sample_rand` values: the text reads as the value rounded to millionths, half to even,
/// and as 0.999999 from 0.9999995 on. The rounded value is printed as the same text.
pub fn printed_sample_rands()
    ensures nearest { (b : ℕ) → b < 999_999_500 → IsNearestEven b (millionths_of b) }
    ensures last { (b : ℕ) → 999_999_500 ≤ b → millionths_of b ≡ 999_999 }
    ensures reads { (b : ℕ) → IsDecimal (sample_rand_text b) (Billionths (1000 * millionths_of b)) }
    ensures is_text { (b : ℕ) → IsUtf8 (sample_rand_text b) }
    ensures again { (b : ℕ) → millionths_of (1000 * millionths_of b) ≡ millionths_of b }
{}

/// Round trip of sample rates: the printed text of each rate reads as that rate.
pub fn printed_sample_rates_read_back()
    ensures { (n : ℕ) → n < 2 ^ 64 →
        IsDecimal (decimal_text (n / 10 ^ 9) (n % 10 ^ 9)) (Billionths n) }
{}

/// Moments as RFC 3339 strings; an absent row of this form may default to the moment of reading.
pub fn rfc3339_trees()
    ensures laws { HasLaws rfc3339_kind }
    ensures at_once { RuleLaws at_once rfc3339_kind }
{}

/// Moments as whole seconds or RFC 3339 strings; an absent row of this form may default to the
/// moment of reading.
pub fn seconds_trees()
    ensures laws { HasLaws seconds_kind }
    ensures at_once { RuleLaws at_once seconds_kind }
{}

/// `sample_rand` values in JSON: the normal form is the printed value, in whole millionths; null is
/// rejected.
pub fn sample_rand_trees()
    ensures laws { HasLaws sample_rand_kind }
    ensures not_null { RefusesNull sample_rand_kind }
{}

/// Sample rates in JSON; null is rejected.
pub fn sample_rate_trees()
    ensures laws { HasLaws sample_rate_kind }
    ensures not_null { RefusesNull sample_rate_kind }
{}

/// Two moments are equal exactly if their seconds and their nanoseconds are equal.
pub fn equal_moments()
    ensures { (a b : Moments) → ⟦<Moment as PartialEq>⟧.eq a b ≡ true ↔
        ((a.secs ≡ b.secs) × (a.nanos ≡ b.nanos)) }
{}

/// `cmp` and `partial_cmp` order moments by time.
pub fn ordered_moments()
    ensures less { (a b : Moments) → ⟦<Moment as Ord>⟧.cmp a b ≡ Less ↔
        (elapsed_nanoseconds a < elapsed_nanoseconds b) }
    ensures equal { (a b : Moments) → ⟦<Moment as Ord>⟧.cmp a b ≡ Equal ↔
        (elapsed_nanoseconds a ≡ elapsed_nanoseconds b) }
    ensures greater { (a b : Moments) → ⟦<Moment as Ord>⟧.cmp a b ≡ Greater ↔
        (elapsed_nanoseconds b < elapsed_nanoseconds a) }
    ensures partial { (a b : Moments) →
        ⟦<Moment as PartialOrd>⟧.partial_cmp a b ≡ Some (⟦<Moment as Ord>⟧.cmp a b) }
{}

/// Two decimals are equal exactly if their whole units and their billionths are equal.
pub fn equal_decimals()
    ensures { (a b : Decimals) → ⟦<Decimal as PartialEq>⟧.eq a b ≡ true ↔
        ((a.whole ≡ b.whole) × (a.billionths ≡ b.billionths)) }
{}

/// Two sampling values are equal exactly if their billionths are equal.
pub fn equal_sampling_values()
    ensures sample_rands { (a b : SampleRands) → ⟦<SampleRand as PartialEq>⟧.eq a b ≡ true ↔
        (a.billionths ≡ b.billionths) }
    ensures sample_rates { (a b : SampleRates) → ⟦<SampleRate as PartialEq>⟧.eq a b ≡ true ↔
        (a.0 ≡ b.0) }
{}
