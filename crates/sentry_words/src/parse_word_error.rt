//! Parse error of words.

use thiserror::Error;

/// Not a known word of the type.
#[derive(Debug, Drop, Error)]
#[error("ParseWordError")]
pub struct ParseWordError;
