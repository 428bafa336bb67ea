//! Units of metrics.

ghost use Rattle.std.specs.Prelude.{◌≡◌, IfOk, codes, drop, take, option_map, string_bytes};
ghost use Rattle.std.specs.Cow.{cow_str_bytes};
ghost use Rattle.sentry_words.specs.Units.{times, units, named, found, unit_cell, unit_of, unit_text, unit_spelling};

use sentry_tables::{AsText, Formed, Room, Spelled, TreeError, Way};
use std::alloc::{AllocError, Global};
use std::borrow::CowStr;

/// Unit of a metric: one that Sentry knows, or any other text.
///
/// <https://develop.sentry.dev/sdk/foundations/state-management/scopes/attributes/#units>
///
/// A known unit is read from its name, in lower case or with a capital, from the plural with `s`
/// (except fractions), and from its symbol. `Other` of a known spelling, such as `ms`, differs from
/// the known unit, but is read back as the known unit.
#[derive(Debug, Drop, PartialEq)]
pub enum Unit {
    /// 10^-9 seconds; symbol `ns`.
    Nanosecond,
    /// 10^-6 seconds; symbol `μs`, with either of the letters U+03BC and U+00B5.
    Microsecond,
    /// 10^-3 seconds; symbol `ms`.
    Millisecond,
    /// Symbol `s`.
    Second,
    /// 60 seconds; symbol `min`.
    Minute,
    /// 3,600 seconds; symbol `h`.
    Hour,
    /// 24 hours; symbol `d`.
    Day,
    /// 7 days; no symbol.
    Week,
    /// Symbol `b`.
    Bit,
    /// 8 bits; symbol `B`.
    Byte,
    /// 1,000 bytes; symbol `kB`.
    Kilobyte,
    /// 1,024 bytes; symbol `KiB`.
    Kibibyte,
    /// 1,000^2 bytes; symbol `MB`.
    Megabyte,
    /// 1,024^2 bytes; symbol `MiB`.
    Mebibyte,
    /// 1,000^3 bytes; symbol `GB`.
    Gigabyte,
    /// 1,024^3 bytes; symbol `GiB`.
    Gibibyte,
    /// 1,000^4 bytes; symbol `TB`.
    Terabyte,
    /// 1,024^4 bytes; symbol `TiB`.
    Tebibyte,
    /// 1,000^5 bytes; symbol `PB`.
    Petabyte,
    /// 1,024^5 bytes; symbol `PiB`.
    Pebibyte,
    /// 1,000^6 bytes; symbol `EB`.
    Exabyte,
    /// 1,024^6 bytes; symbol `EiB`.
    Exbibyte,
    /// A fraction of 1, such as 0.5; no plural, no symbol.
    Ratio,
    /// A fraction of 100; no plural; symbol `%`.
    Percent,
    /// Any other unit.
    Other(CowStr<'static>),
}

#[tactic(auto, unfolding(crate::specs::Units::times, crate::specs::Units::sizes, crate::specs::Units::binary_sizes, crate::specs::Units::shares))]
impl Unit {
    // each reads the units whose names begin with a letter or two
    fn nanosecond_or_week(text: &str) -> Option<Unit>
        ensures { option_map unit_cell result ≡ found (named (codes "nw") units) text.now }
    {
        match text {
            "nanosecond" | "Nanosecond" | "nanoseconds" | "Nanoseconds" | "ns" => Some(
                Unit::Nanosecond,
            ),
            "week" | "Week" | "weeks" | "Weeks" => Some(Unit::Week),
            _ => None,
        }
    }

    fn second_or_day(text: &str) -> Option<Unit>
        ensures { option_map unit_cell result ≡ found (named (codes "sd") units) text.now }
    {
        match text {
            "second" | "Second" | "seconds" | "Seconds" | "s" => Some(Unit::Second),
            "day" | "Day" | "days" | "Days" | "d" => Some(Unit::Day),
            _ => None,
        }
    }

    fn millisecond_or_microsecond(text: &str) -> Option<Unit>
        ensures { option_map unit_cell result ≡ found (named (codes "m") (take 3 times)) text.now }
    {
        match text {
            "millisecond" | "Millisecond" | "milliseconds" | "Milliseconds" | "ms" => Some(
                Unit::Millisecond,
            ),
            "microsecond" | "Microsecond" | "microseconds" | "Microseconds" | "μs" | "µs" => Some(
                Unit::Microsecond,
            ),
            _ => None,
        }
    }

    fn hour_or_ratio(text: &str) -> Option<Unit>
        ensures { option_map unit_cell result ≡ found (named (codes "hr") units) text.now }
    {
        match text {
            "hour" | "Hour" | "hours" | "Hours" | "h" => Some(Unit::Hour),
            "ratio" | "Ratio" => Some(Unit::Ratio),
            _ => None,
        }
    }

    fn bit_or_byte(text: &str) -> Option<Unit>
        ensures { option_map unit_cell result ≡ found (named (codes "b") units) text.now }
    {
        match text {
            "byte" | "Byte" | "bytes" | "Bytes" | "B" => Some(Unit::Byte),
            "bit" | "Bit" | "bits" | "Bits" | "b" => Some(Unit::Bit),
            _ => None,
        }
    }

    fn minute_or_m_size(text: &str) -> Option<Unit>
        ensures { option_map unit_cell result ≡ found (named (codes "m") (drop 4 units)) text.now }
    {
        match text {
            "minute" | "Minute" | "minutes" | "Minutes" | "min" => Some(Unit::Minute),
            "megabyte" | "Megabyte" | "megabytes" | "Megabytes" | "MB" => Some(Unit::Megabyte),
            "mebibyte" | "Mebibyte" | "mebibytes" | "Mebibytes" | "MiB" => Some(Unit::Mebibyte),
            _ => None,
        }
    }

    fn k_size(text: &str) -> Option<Unit>
        ensures { option_map unit_cell result ≡ found (named (codes "k") units) text.now }
    {
        match text {
            "kilobyte" | "Kilobyte" | "kilobytes" | "Kilobytes" | "kB" => Some(Unit::Kilobyte),
            "kibibyte" | "Kibibyte" | "kibibytes" | "Kibibytes" | "KiB" => Some(Unit::Kibibyte),
            _ => None,
        }
    }

    fn g_size(text: &str) -> Option<Unit>
        ensures { option_map unit_cell result ≡ found (named (codes "g") units) text.now }
    {
        match text {
            "gigabyte" | "Gigabyte" | "gigabytes" | "Gigabytes" | "GB" => Some(Unit::Gigabyte),
            "gibibyte" | "Gibibyte" | "gibibytes" | "Gibibytes" | "GiB" => Some(Unit::Gibibyte),
            _ => None,
        }
    }

    fn t_size(text: &str) -> Option<Unit>
        ensures { option_map unit_cell result ≡ found (named (codes "t") units) text.now }
    {
        match text {
            "terabyte" | "Terabyte" | "terabytes" | "Terabytes" | "TB" => Some(Unit::Terabyte),
            "tebibyte" | "Tebibyte" | "tebibytes" | "Tebibytes" | "TiB" => Some(Unit::Tebibyte),
            _ => None,
        }
    }

    fn e_size(text: &str) -> Option<Unit>
        ensures { option_map unit_cell result ≡ found (named (codes "e") units) text.now }
    {
        match text {
            "exabyte" | "Exabyte" | "exabytes" | "Exabytes" | "EB" => Some(Unit::Exabyte),
            "exbibyte" | "Exbibyte" | "exbibytes" | "Exbibytes" | "EiB" => Some(Unit::Exbibyte),
            _ => None,
        }
    }

    fn percent_or_p_size(text: &str) -> Option<Unit>
        ensures { option_map unit_cell result ≡ found (named (codes "p") units) text.now }
    {
        match text {
            "percent" | "Percent" | "%" => Some(Unit::Percent),
            "petabyte" | "Petabyte" | "petabytes" | "Petabytes" | "PB" => Some(Unit::Petabyte),
            "pebibyte" | "Pebibyte" | "pebibytes" | "Pebibytes" | "PiB" => Some(Unit::Pebibyte),
            _ => None,
        }
    }
}

impl Unit {
    // chosen by the first byte, so that few spellings are compared
    fn known(text: &str) -> Option<Unit>
        ensures { option_map unit_cell result ≡ found units text.now }
    {
        match text.as_bytes().first()? {
            b'n' | b'N' | b'w' | b'W' => Unit::nanosecond_or_week(text),
            b's' | b'S' | b'd' | b'D' => Unit::second_or_day(text),
            b'h' | b'H' | b'r' | b'R' => Unit::hour_or_ratio(text),
            b'b' | b'B' => Unit::bit_or_byte(text),
            b'k' | b'K' => Unit::k_size(text),
            b'g' | b'G' => Unit::g_size(text),
            b't' | b'T' => Unit::t_size(text),
            b'e' | b'E' => Unit::e_size(text),
            b'p' | b'P' | b'%' => Unit::percent_or_p_size(text),
            b'm' | b'M' | 0xce | 0xc2 => match Unit::millisecond_or_microsecond(text) {
                Some(unit) => Some(unit),
                None => Unit::minute_or_m_size(text),
            },
            _ => None,
        }
    }

    /// Returns the text in payloads: a known unit's name in lower case, or the text of `Other`.
    pub fn as_str(&self) -> &str
        ensures { result.now ≡ unit_text (unit_cell self.now) }
    {
        match self {
            Unit::Nanosecond => "nanosecond",
            Unit::Microsecond => "microsecond",
            Unit::Millisecond => "millisecond",
            Unit::Second => "second",
            Unit::Minute => "minute",
            Unit::Hour => "hour",
            Unit::Day => "day",
            Unit::Week => "week",
            Unit::Bit => "bit",
            Unit::Byte => "byte",
            Unit::Kilobyte => "kilobyte",
            Unit::Kibibyte => "kibibyte",
            Unit::Megabyte => "megabyte",
            Unit::Mebibyte => "mebibyte",
            Unit::Gigabyte => "gigabyte",
            Unit::Gibibyte => "gibibyte",
            Unit::Terabyte => "terabyte",
            Unit::Tebibyte => "tebibyte",
            Unit::Petabyte => "petabyte",
            Unit::Pebibyte => "pebibyte",
            Unit::Exabyte => "exabyte",
            Unit::Exbibyte => "exbibyte",
            Unit::Ratio => "ratio",
            Unit::Percent => "percent",
            Unit::Other(text) => text.as_str(),
        }
    }

    /// Clones the unit.
    ///
    /// # Errors
    ///
    /// `AllocError` if the allocation of `Other`'s text fails.
    pub fn clone(&self) -> Result<Unit, AllocError>
        ensures { IfOk result (λ unit. unit_cell unit ≡ unit_cell self.now) }
    {
        Ok(match self {
            Unit::Nanosecond => Unit::Nanosecond,
            Unit::Microsecond => Unit::Microsecond,
            Unit::Millisecond => Unit::Millisecond,
            Unit::Second => Unit::Second,
            Unit::Minute => Unit::Minute,
            Unit::Hour => Unit::Hour,
            Unit::Day => Unit::Day,
            Unit::Week => Unit::Week,
            Unit::Bit => Unit::Bit,
            Unit::Byte => Unit::Byte,
            Unit::Kilobyte => Unit::Kilobyte,
            Unit::Kibibyte => Unit::Kibibyte,
            Unit::Megabyte => Unit::Megabyte,
            Unit::Mebibyte => Unit::Mebibyte,
            Unit::Gigabyte => Unit::Gigabyte,
            Unit::Gibibyte => Unit::Gibibyte,
            Unit::Terabyte => Unit::Terabyte,
            Unit::Tebibyte => Unit::Tebibyte,
            Unit::Petabyte => Unit::Petabyte,
            Unit::Pebibyte => Unit::Pebibyte,
            Unit::Exabyte => Unit::Exabyte,
            Unit::Exbibyte => Unit::Exbibyte,
            Unit::Ratio => Unit::Ratio,
            Unit::Percent => Unit::Percent,
            Unit::Other(text) => Unit::Other(text.clone()?),
        })
    }
}

/// Parses a unit; `Other` if the text is not a known one.
impl From<CowStr<'static>> for Unit {
    ghost from_gives = { λ text unit. unit_cell unit ≡ unit_of (cow_str_bytes text) };

    fn from(text: CowStr<'static>) -> Unit {
        Unit::known(text.as_str()).unwrap_or(Unit::Other(text))
    }
}

impl From<&'static str> for Unit {
    ghost from_gives = { λ text unit. unit_cell unit ≡ unit_of text.now };

    fn from(text: &'static str) -> Unit {
        Unit::from(CowStr::Borrowed(text))
    }
}

impl From<String> for Unit {
    ghost from_gives = { λ text unit. unit_cell unit ≡ unit_of (string_bytes text) };

    fn from(text: String) -> Unit {
        Unit::from(CowStr::Owned(text))
    }
}

impl Formed for Unit {
    type Form = AsText;
}

impl Spelled for Unit {
    ghost spelling = { unit_spelling };

    ghost cell_of = { unit_cell };

    fn of_text(alloc: Global, text: &str) -> Result<Unit, TreeError> {
        match Unit::known(text) {
            Some(unit) => Ok(unit),
            None => Ok(Unit::Other(CowStr::Owned(String::from_str(alloc, text)?))),
        }
    }

    fn text<'a>(&'a self, _room: &'a mut Room) -> Result<&'a str, AllocError> {
        Ok(self.as_str())
    }

    #[tactic(auto, using(sentry_tables::proofs::Ways::made_same, crate::proofs::UnitLaws::known_normal, crate::proofs::UnitLaws::other_normal))]
    fn respell(&self, way: Way) -> Result<Unit, AllocError> {
        match way {
            Way::Same => self.clone(),
            Way::Normal(_) => match Unit::known(self.as_str()) {
                Some(unit) => Ok(unit),
                None => self.clone(),
            },
        }
    }

    #[tactic(auto, using(crate::proofs::UnitLaws::unit_stored))]
    fn hold(&self) {
        let _text = self.as_str();
    }
}
