//! The framing of envelopes: a header line, and items of a header and a payload; and calls that
//! write a whole text.
#![tactic(auto)]

pub mod error;
pub mod frames;
pub mod header;
pub mod kind;
pub mod laws;
pub mod lines;
mod piece;
pub mod sending;
mod short;

pub use error::EnvelopeError;
pub use frames::{Frames, ItemFrame};
pub use header::{ItemHeader, read_item_header};
pub use kind::ItemKind;
