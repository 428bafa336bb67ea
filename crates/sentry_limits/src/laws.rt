//! Laws of the definitions that the contracts of this crate cite.

ghost use Rattle.std.specs.Prelude.{◌≡◌, ◌≤◌, ◌⊎◌, true, Contains, List, Option, ℕ};
ghost use Rattle.std.specs.List.{AllZip};
ghost use Rattle.sentry_moments.specs.declared.moment.Moment.{Moment as Moments};
ghost use Rattle.sentry_reports.specs.declared.category.Category.{Category as Categories};
ghost use Rattle.sentry_limits.specs.RateLimits.{IsLimit, Limit, is_named, latest};
ghost use Rattle.sentry_limits.specs.RetryAfter.{end_after};

/// A header states one list of limits.
pub fn headers_state_one_list()
    ensures { (texts : List (List ℕ)) (limits others : List Limit) → AllZip IsLimit texts limits →
        AllZip IsLimit texts others → limits ≡ others }
{}

/// The end that is held after a header is the latest: no end of a limit of this name is later, nor
/// the one that was held before, and it is one of these.
pub fn the_latest_end_is_held()
    ensures held { (now : Moments) (name : Option Categories) (limits : List Limit) (held : ℕ) →
        held ≤ latest now name limits held }
    ensures each { (now : Moments) (name : Option Categories) (limits : List Limit) (held : ℕ)
        (limit : Limit) → Contains limits limit → is_named name limit.names ≡ true →
        end_after now limit.seconds ≤ latest now name limits held }
    ensures one { (now : Moments) (name : Option Categories) (limits : List Limit) (held : ℕ) →
        (latest now name limits held ≡ held) ⊎ ((limit : Limit) × Contains limits limit
        × (is_named name limit.names ≡ true)
        × (latest now name limits held ≡ end_after now limit.seconds)) }
{}
