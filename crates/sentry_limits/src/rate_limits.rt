//! Rate limits by category.

ghost use Rattle.std.specs.Prelude.{◌≡◌, ◌==◌, ◌<◌, ◌↔◌, ◌∷◌, [], Some, Option, ℕ, IfSome, IsNone, min, nat_lt};
ghost use Rattle.std.specs.List.{after_first, before_first};
ghost use Rattle.sentry_reports.specs.declared.category.Category.{Category as Categories};
ghost use Rattle.sentry_tables.specs.Lawful.{last_second};
ghost use Rattle.sentry_limits.specs.RateLimits.{colon, AreHeld, IsHeldBack, IsUpdated, category_end, end_of, item_end, listed, place, raised};

use crate::retry_after::{LAST_SECOND, end_after, retry_after, retry_at};
use sentry_moments::Moment;
use sentry_reports::Category;
use sentry_tables::Word;
use sentry_words::IndexedEnum;

/// Number of ends that [`RateLimits::ends`] has: one for all categories, and one for each category.
pub const ENDS: usize = 13;

/// The rate limits that Sentry's answers state: when the limit of each category ends, and that of
/// all categories.
///
/// <https://develop.sentry.dev/sdk/expected-features/rate-limiting/>
#[derive(Clone, Copy, Debug, PartialEq, Eq)]
pub struct RateLimits {
    ends: [u64; ENDS],
}

// Returns the index of the end of a category's limit; `None` stands for all categories.
fn place(category: Option<Category>) -> usize
    ensures same { result ≡ place category }
    ensures within { result < ENDS }
{
    match category {
        Some(category) => category.as_index() + 1,
        None => 0,
    }
}

// Returns the text before the first colon; the whole text if absent.
fn before_colon(text: &str) -> &str
    ensures { result.now ≡ before_first (λ b. b == colon) text.now }
{
    text.split_once(':').map_or(text, |(front, _)| front)
}

// Returns the text after the first colon; an empty text if absent.
fn after_colon(text: &str) -> &str
    ensures { result.now ≡ after_first (λ b. b == colon) text.now }
{
    text.split_once(':').map_or("", |(_, rest)| rest)
}

impl RateLimits {
    /// Creates limits of which none holds.
    pub fn new() -> RateLimits
        ensures { (name : Option Categories) → end_of result name ≡ 0 }
    {
        RateLimits { ends: [0; ENDS] }
    }

    /// Creates limits of their ends, as [`RateLimits::ends`] returns them.
    pub fn from_ends(ends: [u64; ENDS]) -> RateLimits
        ensures { result.ends ≡ ends }
    {
        RateLimits { ends }
    }

    /// Returns when the limits end, in seconds since 1970; 0 if there is none. That of all
    /// categories stands first, then that of each category, by its index.
    pub fn ends(&self) -> [u64; ENDS]
        ensures { result ≡ self.now.ends }
    {
        self.ends
    }

    // Holds a limit of a category, or of all, until a second.
    fn raise(&mut self, category: Option<Category>, end: u64)
        ensures { (name : Option Categories) → end_of self.new name ≡
            raised name (category ∷ []) end (end_of self.old name) }
    {
        let place = place(category);
        self.ends[place] = self.ends[place].max(end);
    }

    // Holds a limit of each known category in a list, until a second.
    fn raise_listed(&mut self, words: &str, end: u64)
        ensures { (name : Option Categories) → end_of self.new name ≡
            raised name (listed words.now) end (end_of self.old name) }
    {
        for word in words.split(';') {
            if let Some(category) = Category::of_word(word.trim()) {
                self.raise(Some(category), end);
            }
        }
    }

    // Holds a limit, beside those that are held.
    fn hold(&mut self, limit: &str, now: Moment)
        ensures { AreHeld (limit.now ∷ []) now self.old self.new }
    {
        let end = end_after(now, retry_after(before_colon(limit).trim()));
        if limit.trim().is_empty() {
            return;
        }
        let words = before_colon(after_colon(limit)).trim();
        if words.is_empty() {
            self.raise(None, end);
        } else {
            self.raise_listed(words, end);
        }
    }

    /// Holds the limits that the value of an `X-Sentry-Rate-Limits` header states, beside those that
    /// are held: of two ends the later one counts.
    ///
    /// The value is a comma-separated list of limits. A limit is a number of seconds, a colon, and a
    /// list of categories between semicolons; further parts, behind a colon each, are ignored. White
    /// space around all of these is trimmed, and a blank limit is none.
    ///
    /// - Seconds are a decimal and rounded up; any other text, and a number past the year 9999,
    ///   stands for 60.
    /// - An empty list stands for all categories; unknown categories are ignored.
    pub fn update(&mut self, header: &str, now: Moment)
        ensures { IsUpdated header.now now self.old self.new }
    {
        for limit in header.split(',') {
            self.hold(limit, now);
        }
    }

    /// Holds a limit of all categories that the value of a `Retry-After` header states, beside those
    /// that are held: of an answer with status 429 that has no `X-Sentry-Rate-Limits`.
    ///
    /// The value is a decimal of seconds, rounded up, or an HTTP date; any other text, as an empty
    /// one for a header that is absent, stands for 60 seconds.
    pub fn update_retry_after(&mut self, text: &str, now: Moment)
        ensures { IsHeldBack text.now now self.old self.new }
    {
        let end = retry_at(text.trim(), now);
        self.raise(None, end);
    }

    // Returns the end of a category's limit, or of that of all categories.
    fn end(&self, category: Option<Category>) -> u64
        ensures { result ≡ end_of self.now category }
    {
        self.ends[place(category)]
    }

    /// Returns the second since 1970 until which a category is limited, by its own limit or by that
    /// of all categories; 0 if there is none.
    pub fn category_end(&self, category: Category) -> u64
        ensures { result ≡ category_end self.now category }
    {
        self.end(None).max(self.end(Some(category)))
    }

    /// Returns the second since 1970 until which items are limited whose type has a category; 0 if
    /// there is none.
    ///
    /// Logs and metrics are limited by two categories, the second one their bytes. Types without a
    /// category (`None`) are limited by the limit of all categories alone.
    pub fn item_end(&self, category: Option<Category>) -> u64
        ensures { result ≡ item_end self.now category }
    {
        let Some(category) = category else {
            return self.end(None);
        };
        let end = self.category_end(category);
        match category {
            Category::LogItem => end.max(self.category_end(Category::LogByte)),
            Category::TraceMetric => end.max(self.category_end(Category::TraceMetricByte)),
            _ => end,
        }
    }

    /// Returns until when a category is limited; `None` if no limit of it, or of all categories, was
    /// stated. The moment may be past.
    pub fn until(&self, category: Category) -> Option<Moment>
        ensures none { IsNone result ↔ (category_end self.now category ≡ 0) }
        ensures end { IfSome result (λ m. (m.secs ≡ min (category_end self.now category) last_second)
            × (m.nanos ≡ 0)) }
    {
        moment_of(self.category_end(category))
    }

    /// Returns whether a category is limited at a moment.
    pub fn is_limited(&self, category: Category, now: Moment) -> bool
        ensures { result ≡ nat_lt now.secs (category_end self.now category) }
    {
        now.secs() < self.category_end(category)
    }

    /// Returns whether items whose type has a category, or none, are limited at a moment.
    pub fn is_item_limited(&self, category: Option<Category>, now: Moment) -> bool
        ensures { result ≡ nat_lt now.secs (item_end self.now category) }
    {
        now.secs() < self.item_end(category)
    }
}

// Returns the moment at which a limit ends, if there is one.
fn moment_of(end: u64) -> Option<Moment>
    ensures none { IsNone result ↔ (end ≡ 0) }
    ensures end { IfSome result (λ m. (m.secs ≡ min end last_second) × (m.nanos ≡ 0)) }
{
    if end == 0 {
        return None;
    }
    Moment::new(end.min(LAST_SECOND), 0)
}
