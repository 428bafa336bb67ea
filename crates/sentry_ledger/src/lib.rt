//! A ledger that holds losses until they are reported, and keeps each loss that it accepts; sums of
//! losses; the losses of frames of any item type.
#![tactic(auto)]

pub mod forwarded;
pub mod held_row;
pub mod laws;
pub mod ledger;
pub mod loss_sums;
pub mod lost_frames;
pub mod recorded;
pub mod steps;

pub use forwarded::{ForwardFailed, forward_recorded};
pub use ledger::{Ledger, LedgerFull};
pub use lost_frames::{category_of_type, frame_losses, losses_of_frames};
pub use recorded::filter_recorded;
pub use steps::{Step, StepAnswer, run_steps};
