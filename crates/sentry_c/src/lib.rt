//! Envelopes, small texts and the ledger, for callers in C.
//!
//! The exported functions for envelopes, frames and small texts are each a few lines over a call of
//! `sentry_types`, and say that call's clauses again, over bytes. Those of the ledger add, read and
//! report sums in the caller's memory. `bindings/c/curdmesa.h` declares all of them, and says what
//! a caller owes.
#![tactic(auto)]

mod answered;
pub mod any_frames;
pub mod envelope;
pub mod events;
pub mod explaining;
mod filter;
pub mod forwarding;
pub mod frames;
pub mod headers;
pub mod keeping;
pub mod keys;
pub mod ledger;
pub mod limits;
pub mod losses;
pub mod making;
pub mod measuring;
pub mod mending;
pub mod misfit;
mod output;
pub mod pairs;
pub mod recording;
pub mod showing;
pub mod status;
pub mod texts;
pub mod version;
pub mod words;
