//! Code identifiers.

ghost use Rattle.std.specs.Prelude.{◌≡◌, IfOk, IsTrue, string_bytes};
ghost use Rattle.sentry_identifiers.specs.CodeDigits.{code_digits, are_code_digits};

use sentry_tables::{AsText, Formed, Room, Spelled, TreeError, Way};
use std::alloc::{AllocError, Global};

/// Code identifier of a code file: hex digits in lower case.
///
/// <https://docs.sentry.io/platforms/native/data-management/debug-files/identifiers/>
#[derive(Debug, Drop, PartialEq, Eq, PartialOrd, Ord, Hash)]
pub struct CodeId {
    digits: String,
    // it has lower case hex digits alone
    ghost lower: { IsTrue (are_code_digits (string_bytes digits)) },
}

impl CodeId {
    ghost use Rattle.sentry_identifiers.specs.CodeId.{code_text};

    /// Creates a code id from the ASCII hex digits of a text, in lower case; other characters are
    /// dropped.
    ///
    /// # Errors
    ///
    /// `AllocError` if an allocation fails.
    pub fn new(alloc: Global, text: &str) -> Result<CodeId, AllocError>
        ensures { IfOk result (λ id. code_text id ≡ code_digits text.now) }
    {
        Ok(CodeId {
            digits: hex_digits(alloc, text)?,
        })
    }

    /// Clones the id.
    ///
    /// # Errors
    ///
    /// `AllocError` if an allocation fails.
    pub fn clone(&self) -> Result<CodeId, AllocError>
        ensures { IfOk result (λ id. code_text id ≡ code_text self.now) }
    {
        Ok(CodeId {
            digits: self.digits.clone()?,
        })
    }

    /// Returns the digits.
    pub fn as_str(&self) -> &str
        ensures text { result.now ≡ code_text self.now }
        ensures lower { IsTrue (are_code_digits result.now) }
    {
        self.digits.as_str()
    }
}

// The hex digits of the text, in lower case.
#[tactic(auto, using(crate::proofs::CodeIds::kept_are_digits))]
fn hex_digits(alloc: Global, text: &str) -> Result<String, AllocError>
    ensures digits { IfOk result (λ digits. string_bytes digits ≡ code_digits text.now) }
    ensures lower { IfOk result (λ digits. IsTrue (are_code_digits (string_bytes digits))) }
{
    let mut digits = String::new(alloc);
    for byte in text.as_bytes() {
        if byte.is_ascii_hexdigit() {
            digits.push(char::from(byte.to_ascii_lowercase()))?;
        }
    }
    Ok(digits)
}

impl Formed for CodeId {
    type Form = AsText;
}

impl Spelled for CodeId {
    ghost use Rattle.sentry_tables.specs.Cell.{text};
    ghost use Rattle.sentry_identifiers.specs.CodeId.{code_text};
    ghost use Rattle.sentry_identifiers.specs.CodeIdTree.{code_spelling};

    ghost spelling = { code_spelling };

    ghost cell_of = { λ id. text (code_text id) };

    fn of_text(alloc: Global, text: &str) -> Result<CodeId, TreeError> {
        Ok(CodeId::new(alloc, text)?)
    }

    fn text<'a>(&'a self, _room: &'a mut Room) -> Result<&'a str, AllocError> {
        Ok(self.as_str())
    }

    #[tactic(auto, using(sentry_tables::proofs::Ways::unchanged))]
    fn respell(&self, _way: Way) -> Result<CodeId, AllocError> {
        self.clone()
    }

    fn hold(&self) {}
}
