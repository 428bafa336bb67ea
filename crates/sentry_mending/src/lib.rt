//! Envelopes that don't read: where and why, and what reads once some places are repaired.
#![tactic(auto)]

pub mod explaining;
pub mod fault;
mod header_ids;
mod items;
pub mod mending;
mod reading;
mod repairs;
pub mod times;

pub use explaining::{Explanation, explain};
pub use fault::{Cause, Fault};
pub use mending::{MendRules, Mended, MendedItem, Refusal, mend};
pub use sentry_places::{Break, Expected, Found, Note, Place, Repair, Repairs, Wanted};
