//! Envelopes: headers, reading, writing and filtering; and JSON lines read at a moment.
#![tactic(auto)]

pub mod called;
pub mod envelope;
pub mod error;
mod file;
pub mod filter;
mod filter_laws;
pub mod filtered;
mod filtering;
pub mod headers;
pub mod items;
pub mod laws;
pub mod losses;
mod payload;
mod plain;
mod read;
mod remake;
mod rewrite;
pub mod timed;
pub mod write;

pub use envelope::{AddRefused, Envelope};
pub use error::EnvelopeWriteError;
pub use filter::{EnvelopeFilter, EnvelopeFilterCallbacks};
pub use filtered::{AllBut, FilteredText, KindChoice, filtered_text};
pub use headers::EnvelopeHeaders;
pub use items::{EnvelopeItemIter, IntoItems};
pub use read::read_item;
pub use rewrite::normal_text;
pub use sentry_framing::{EnvelopeError, Frames, ItemFrame};
pub use sentry_items::counted::{CountedReader, CountedWriter};
