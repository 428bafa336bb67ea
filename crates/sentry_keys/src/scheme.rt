//! URL schemes of DSNs.

ghost use Rattle.std.specs.Prelude.{◌≡◌, ◌≢◌, MatchOption, Some};
ghost use Rattle.sentry_keys.specs.declared.scheme.Scheme.{Scheme};
ghost use Rattle.sentry_keys.specs.DsnScheme as spec;

use std::fmt;

/// The URL scheme of a DSN.
#[derive(Clone, Copy, Debug, PartialEq, Eq, PartialOrd, Ord, Hash)]
pub enum Scheme {
    /// `http`: without encryption.
    Http,
    /// `https`: with encryption.
    Https,
}

impl Scheme {
    /// Returns the default port by the URL Standard: 80 or 443.
    ///
    /// <https://url.spec.whatwg.org/#special-scheme>
    pub fn default_port(self) -> u16
        ensures { result ≡ spec.default_port self }
    {
        match self {
            Scheme::Http => 80,
            Scheme::Https => 443,
        }
    }

    // Returns `http` or `https`.
    pub(crate) fn as_str(self) -> &'static str
        ensures { result.now ≡ spec.scheme_text self }
    {
        match self {
            Scheme::Http => "http",
            Scheme::Https => "https",
        }
    }

    // Parses `http` or `https`, in lower case only.
    pub(crate) fn of_word(word: &str) -> Option<Scheme>
        ensures { MatchOption result ((s : Scheme) → word.now ≢ spec.scheme_text s) (λ s.
            word.now ≡ spec.scheme_text s) }
    {
        match word {
            "http" => Some(Scheme::Http),
            "https" => Some(Scheme::Https),
            _ => None,
        }
    }
}

impl fmt::Display for Scheme {
    ghost output = { λ s. Some (spec.scheme_text s) };

    fn fmt<W: fmt::Write>(&self, f: &mut fmt::Formatter<W>) -> fmt::Result {
        f.write_str(self.as_str())
    }
}
