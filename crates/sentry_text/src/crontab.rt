//! Crontab schedules, as Sentry reads those of its cron monitors; crontab(5) describes their parts.

ghost use Rattle.std.specs.Prelude.{◌≡◌, ◌↔◌, List, ℕ, IsTrue, IfOk, Some, string_bytes};
ghost use Rattle.std.specs.List.{join_with_byte};
ghost use Rattle.sentry_text.specs.Crontab.{IsCrontab, SplitsInto, refusal, message_of};

mod field;

use field::Field;
use std::alloc::{AllocError, Global};
use std::error::Error;
use std::fmt;

/// Returns whether the text is a crontab schedule; doesn't allocate.
///
/// A schedule has five parts: minute, hour, day of the month, month and day of the week, with
/// Unicode white space between them.
///
/// Numbers go from 0 to 59, 0 to 23, 1 to 31, 1 to 12 and 0 to 6. A part is one name (`jan` to
/// `dec` for the month, `sun` to `sat` for the day of the week, in any ASCII case), or items with
/// commas between them. An item is a number, `*`, or a range `a-b` with `a` at most `b`; after the
/// last two a `/` and a step above 0 may follow. A number may begin with `+`.
pub fn validate(crontab: &str) -> bool
    ensures { IsTrue result ↔ IsCrontab crontab.now }
{
    let all = Field::ALL;
    let mut fields: &[Field] = &all;
    for part in crontab.split_whitespace() {
        let Some((field, rest)) = fields.split_first() else {
            return false;
        };
        if !field.has_part(part) {
            return false;
        }
        fields = rest;
    }
    fields.is_empty()
}

/// The error of an invalid crontab schedule.
#[derive(Debug, Drop)]
pub struct CrontabParseError {
    message: String,
}

impl CrontabParseError {
    /// Creates the error for a text that [`validate`] rejected.
    ///
    /// # Errors
    ///
    /// `AllocError` if an allocation fails.
    pub fn new(alloc: Global, invalid_crontab: &str) -> Result<CrontabParseError, AllocError>
        ensures { IfOk result (λ e. (words : List (List ℕ)) × SplitsInto invalid_crontab.now words
            × (message_of e ≡ refusal invalid_crontab.now (join_with_byte 95 words))) }
    {
        let words = joined_words(alloc, invalid_crontab)?;
        let message = refusal(alloc, invalid_crontab, words.as_str())?;
        Ok(CrontabParseError { message })
    }
}

// The text of an error, of the refused text and of its words, joined.
fn refusal(alloc: Global, invalid_crontab: &str, words: &str) -> Result<String, AllocError>
    ensures { IfOk result (λ m. string_bytes m ≡ refusal invalid_crontab.now words.now) }
{
    format!(in alloc;
        "\"{invalid_crontab}\" is not a valid crontab schedule.\n\t For help determining why this schedule is invalid, you can use this site: https://crontab.guru/#{words}"
    )
}

// The words of the text, with `_` between them.
fn joined_words(alloc: Global, text: &str) -> Result<String, AllocError>
    ensures { IfOk result (λ joined. (words : List (List ℕ)) × SplitsInto text.now words
        × (string_bytes joined ≡ join_with_byte 95 words)) }
{
    let mut joined = String::new(alloc);
    for word in text.split_whitespace() {
        if !joined.is_empty() {
            joined.push('_')?;
        }
        joined.push_str(word)?;
    }
    Ok(joined)
}

impl fmt::Display for CrontabParseError {
    ghost output = { λ e. Some (message_of e) };

    fn fmt<W: fmt::Write>(&self, f: &mut fmt::Formatter<W>) -> fmt::Result {
        f.write_str(self.message.as_str())
    }
}

impl Error for CrontabParseError {}
