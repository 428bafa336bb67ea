//! What the programs share: the clock, and the table of losses.
#![tactic(auto)]

pub mod clock;
pub mod losses;
