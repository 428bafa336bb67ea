//! How severe a log is, as a number.

ghost use Rattle.std.specs.Prelude.{◌≡◌, ℕ, OkIff};
ghost use Rattle.sentry_tables.specs.Cells.{natural_cell};
ghost use Rattle.sentry_text.specs.Severity.{IsSeverity, severity_kind};

use sentry_json::{Node, Writer};
use sentry_tables::{FromTree, Member, TreeError, Way};
use serde_json::Value;
use std::alloc::{AllocError, Global};
use std::marker::Model;
use thiserror::Error;

/// Severity number of a log by OpenTelemetry: 1 (`TRACE`) to 24 (`FATAL4`).
///
/// <https://opentelemetry.io/docs/specs/otel/logs/data-model/#field-severitynumber>
#[derive(Clone, Copy, Debug, PartialEq)]
pub struct LogSeverityNumber {
    number: u8,
}

impl Model for LogSeverityNumber {
    ghost Value = { ℕ };

    ghost view = { λ severity. severity.number };

    ghost invariant = { λ severity. IsSeverity severity.number };

    ghost inverse = { λ n. record { number = n } };
}

/// The error of a severity number that is not from 1 to 24.
#[derive(Debug, Drop, Error)]
#[error("Log severity number must be between 1 and 24")]
pub struct SeverityOutOfRange;

impl LogSeverityNumber {
    /// Minimum: 1.
    pub const MIN: u8 = 1;

    /// Maximum: 24.
    pub const MAX: u8 = 24;

    /// Returns the number.
    pub fn value(&self) -> u8
        ensures value { result ≡ self.now }
        ensures within { IsSeverity result }
    {
        self.number
    }
}

impl TryFrom<u8> for LogSeverityNumber {
    type Error = SeverityOutOfRange;

    ghost try_from_gives = { λ n r. OkIff r (IsSeverity n) n };

    /// Creates a severity number from 1 to 24.
    ///
    /// # Errors
    ///
    /// `SeverityOutOfRange` if the number is not from 1 to 24.
    fn try_from(number: u8) -> Result<LogSeverityNumber, SeverityOutOfRange> {
        if number < LogSeverityNumber::MIN || LogSeverityNumber::MAX < number {
            return Err(SeverityOutOfRange);
        }
        Ok(LogSeverityNumber { number })
    }
}

impl Member for LogSeverityNumber {
    ghost kind = { severity_kind };

    ghost cell_of = { natural_cell };

    #[tactic(auto, unfolding(sentry_tables::specs::Writes::written))]
    fn to_tree(&self, _alloc: Global) -> Result<Value, AllocError> {
        Ok(Value::from(self.value()))
    }

    #[tactic(auto, using(crate::proofs::SeverityLaws::severity_wrote))]
    fn write(&self, out: &mut Writer) -> Result<(), AllocError> {
        out.u64(u64::from(self.value()))
    }

    #[tactic(auto, using(sentry_tables::proofs::Ways::unchanged))]
    fn remake(&self, _way: Way) -> Result<LogSeverityNumber, AllocError> {
        Ok(*self)
    }

    fn is_null_tree(&self) -> bool {
        false
    }

    fn is_plain(&self) -> bool {
        let _number = self.value();
        true
    }
}

impl FromTree for LogSeverityNumber {
    #[tactic(auto, using(crate::proofs::SeverityLaws::not_whole, crate::proofs::SeverityLaws::whole_outside, crate::proofs::SeverityLaws::severity_shown))]
    fn from_node<N: Node>(_alloc: Global, node: &N) -> Result<LogSeverityNumber, TreeError> {
        let number = node.as_u64().ok_or(TreeError::Misfit)?;
        let number = u8::try_from(number).map_err(|_| TreeError::Misfit)?;
        LogSeverityNumber::try_from(number).map_err(|_| TreeError::Misfit)
    }
}
