//! Forwarding of envelopes: frames of any item type, and the bytes of an envelope of which some
//! items are dropped. Nothing but item headers and the header line is parsed.
#![tactic(auto)]

pub mod error;
mod flat;
pub mod forwarding;
pub mod frames;
pub mod header;
pub mod laws;
mod run;

pub use error::ForwardError;
pub use forwarding::{ForwardRules, Forwarded, forward, forward_by};
pub use frames::{AnyFrame, AnyFrames};
