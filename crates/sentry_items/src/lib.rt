//! Envelope items and their losses, counted writers and readers, and texts that are sent.
#![tactic(auto)]

pub mod attachment;
pub mod attachment_type;
pub mod container;
pub mod counted;
mod escaped;
pub mod header;
pub mod item;
pub mod laws;
mod listed;
pub mod loss;
pub mod replay_recording;
mod sizes;
pub mod text;

pub use attachment::{Attachment, AttachmentWriteError};
pub use attachment_type::AttachmentType;
pub use container::ItemContainer;
pub use counted::{CountedReader, CountedWriter};
pub use item::EnvelopeItem;
pub use listed::{Listed, read_listed};
pub use loss::{ItemLossIter, LossSlice, LossSource};
pub use replay_recording::ReplayRecording;
pub use sentry_records::{
    DynamicSamplingContext, Log, LogAttribute, Metric, MonitorCheckIn, MonitorConfig,
    MonitorSchedule, ScheduleError, SessionAggregateItem, SessionAggregates, SessionAttributes,
    SessionUpdate, UserReport,
};
pub use sentry_reports::{Category, Item, ItemLoss, Reason, Report};
