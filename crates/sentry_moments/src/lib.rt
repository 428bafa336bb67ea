//! Timestamps, decimals and sampling values of the Sentry protocol, and their texts.
#![tactic(auto)]

pub mod decimal;
mod digits;
pub mod forms;
mod fraction;
pub mod laws;
pub mod moment;
mod rfc3339;
pub mod sample_rand;
pub mod sample_rate;

pub use decimal::{Decimal, DecimalError};
pub use forms::{Rfc3339, Seconds};
pub use moment::Moment;
pub use sample_rand::{InvalidSampleRandError, SampleRand};
pub use sample_rate::SampleRate;
