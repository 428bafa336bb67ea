//! Fields of a crontab schedule.

ghost use Rattle.std.specs.Prelude.{◌≡◌, ◌≢◌, ℕ, ◌<◌, ◌↔◌, ◌∷◌, ◌++◌, map, IsTrue, IfSome, MatchOption, length, slice_index, Some};
ghost use Rattle.sentry_text.specs.Number.{IsNumber};
ghost use Rattle.sentry_text.specs.Crontab.{AreBounds, IsWithin, IsStep, IsRange, IsSteppedRange, IsItem, AreItems, IsPart, IsOneOf, names_of, low_of, high_of};

/// Field of a crontab schedule.
#[derive(Clone, Copy)]
pub(crate) enum Field {
    Minute,
    Hour,
    DayOfMonth,
    Month,
    DayOfWeek,
}

const MONTHS: [&str; 12] = [
    "jan", "feb", "mar", "apr", "may", "jun", "jul", "aug", "sep", "oct", "nov", "dec",
];

const DAYS: [&str; 7] = ["sun", "mon", "tue", "wed", "thu", "fri", "sat"];

// A number, as `parse` reads one.
fn number(text: &str) -> Option<u64>
    ensures found { IfSome result (IsNumber 10 text.now) }
    ensures only { (n : ℕ) → IsNumber 10 text.now n → result ≡ Some n }
{
    text.parse::<u64>().ok()
}

fn is_step(text: &str) -> bool
    ensures { IsTrue result ↔ IsStep text.now }
{
    number(text).is_some_and(|step| step > 0)
}

// The texts before and after the first such character.
fn cut(text: &str, at: char) -> Option<(&str, &str)>
    requires { at < 128 }
    ensures { MatchOption result ((i : ℕ) → i < length text.now → slice_index text.now i ≢ at)
        (λ x. (text.now ≡ x.0.now ++ at ∷ x.1.now)
        × ((i : ℕ) → i < length x.0.now → slice_index x.0.now i ≢ at)) }
{
    text.split_once(at)
}

// The first and the last number of a range.
fn bounds(text: &str) -> Option<(u64, u64)>
    ensures found { IfSome result (λ p. AreBounds text.now p.0 p.1) }
    ensures only { (m n : ℕ) → AreBounds text.now m n → result ≡ Some (m, n) }
{
    let (first, last) = cut(text, '-')?;
    Some((number(first)?, number(last)?))
}

// Whether the text is one of the names, in any case.
fn is_one_of(text: &str, names: &[&str]) -> bool
    ensures { IsTrue result ↔ IsOneOf text.now (map (λ n. n.now) names.now) }
{
    for name in names {
        if text.eq_ignore_ascii_case(name) {
            return true;
        }
    }
    false
}

impl Field {
    pub(crate) const ALL: [Field; 5] = [
        Field::Minute,
        Field::Hour,
        Field::DayOfMonth,
        Field::Month,
        Field::DayOfWeek,
    ];

    fn low(self) -> u64
        ensures { result ≡ low_of self }
    {
        match self {
            Field::Minute | Field::Hour | Field::DayOfWeek => 0,
            Field::DayOfMonth | Field::Month => 1,
        }
    }

    fn high(self) -> u64
        ensures { result ≡ high_of self }
    {
        match self {
            Field::Minute => 59,
            Field::Hour => 23,
            Field::DayOfMonth => 31,
            Field::Month => 12,
            Field::DayOfWeek => 6,
        }
    }

    fn is_name(self, text: &str) -> bool
        ensures { IsTrue result ↔ IsOneOf text.now (names_of self) }
    {
        match self {
            Field::Month => is_one_of(text, &MONTHS),
            Field::DayOfWeek => is_one_of(text, &DAYS),
            _ => false,
        }
    }

    fn contains(self, number: u64) -> bool
        ensures { IsTrue result ↔ IsWithin self number number }
    {
        self.spans(number, number)
    }

    fn spans(self, first: u64, last: u64) -> bool
        ensures { IsTrue result ↔ IsWithin self first last }
    {
        self.low() <= first && first <= last && last <= self.high()
    }

    fn has_range(self, text: &str) -> bool
        ensures { IsTrue result ↔ IsRange self text.now }
    {
        if text == "*" {
            return true;
        }
        match bounds(text) {
            Some((first, last)) => self.spans(first, last),
            None => false,
        }
    }

    fn has_stepped_range(self, text: &str) -> bool
        ensures { IsTrue result ↔ IsSteppedRange self text.now }
    {
        match cut(text, '/') {
            Some((range, step)) => self.has_range(range) && is_step(step),
            None => self.has_range(text),
        }
    }

    fn has_item(self, text: &str) -> bool
        ensures { IsTrue result ↔ IsItem self text.now }
    {
        match number(text) {
            Some(number) => self.contains(number),
            None => self.has_stepped_range(text),
        }
    }

    fn has_items(self, text: &str) -> bool
        ensures { IsTrue result ↔ AreItems self text.now }
    {
        text.split(',').all(|item| self.has_item(item))
    }

    pub(crate) fn has_part(self, text: &str) -> bool
        ensures { IsTrue result ↔ IsPart self text.now }
    {
        self.is_name(text) || self.has_items(text)
    }
}
