//! Envelopes that are made of a header line and items, and items that are appended to an envelope.
#![tactic(auto)]

mod header;
pub mod laws;
pub mod making;
pub mod texts;

pub use making::{append_item, make_envelope};
pub use texts::{TextMember, event_payload, json_text};
