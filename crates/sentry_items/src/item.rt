//! Envelope items.

ghost use Rattle.std.specs.Prelude.{◌≡◌, [], IfOk, OnErr, OnOk};
ghost use Rattle.sentry_items.specs.Payload.{AppendsPayload};
ghost use Rattle.sentry_items.specs.View.{item_held};
ghost use Rattle.sentry_items.specs.declared.container.ItemContainer.TheVariants as containers;
ghost use Rattle.sentry_items.specs.declared.item.EnvelopeItem.TheVariants as variants;

use crate::attachment::Attachment;
use crate::container::{ItemContainer, write_container_payload};
use crate::replay_recording::ReplayRecording;
use sentry_event::{Event, Transaction};
use sentry_framing::ItemKind;
use sentry_records::{Log, Metric, MonitorCheckIn, SessionAggregates, SessionUpdate, UserReport};
use sentry_reports::Report;
use sentry_tables::{Member, Way, write_text};
use std::alloc::{AllocError, Global};

/// An item of an envelope.
///
/// <https://develop.sentry.dev/sdk/data-model/envelope-items/>
#[derive(Debug, Drop, PartialEq)]
pub enum EnvelopeItem {
    /// An event (`event`), boxed.
    Event(Box<Event<'static>>),
    /// A session update (`session`).
    SessionUpdate(SessionUpdate<'static>),
    /// Session aggregates (`sessions`): sessions counted in groups.
    SessionAggregates(SessionAggregates<'static>),
    /// A transaction (`transaction`), boxed.
    Transaction(Box<Transaction<'static>>),
    /// An attachment (`attachment`).
    Attachment(Attachment),
    /// A check-in of a monitor (`check_in`).
    MonitorCheckIn(MonitorCheckIn),
    /// A user report (`user_report`): feedback of a user on an event.
    UserReport(UserReport),
    /// A replay recording (`replay_recording`).
    ReplayRecording(ReplayRecording),
    /// A container of logs (`log`) or of metrics (`trace_metric`).
    ItemContainer(ItemContainer),
    /// A client report (`client_report`): counts of what a client didn't send.
    ClientReport(Report),
    /// A placeholder for the unread bytes of a raw envelope, which the envelope keeps; never
    /// written.
    Raw,
}

impl EnvelopeItem {
    ghost use Rattle.std.specs.Prelude.{◌↔◌, IfErr, IsTrue};
    ghost use Rattle.sentry_contexts.specs.Contexts.{IsBoxed};
    ghost use Rattle.sentry_items.specs.Made.{item_made, item_norm};
    ghost use Rattle.sentry_items.specs.Meets.{IsItemPlain, IsItemStored};
    ghost use Rattle.sentry_items.specs.View.{kind_held};

    /// Boxes an event as an item; returns the event unchanged if the allocation fails.
    pub fn event(alloc: Global, event: Event<'static>) -> Result<EnvelopeItem, Event<'static>>
        ensures boxed { IfOk result (IsBoxed EnvelopeItem.Event event.entry) }
        ensures handed_back { IfErr result (λ back. back ≡ event.entry) }
    {
        match Box::new(alloc, event) {
            Ok(boxed) => Ok(EnvelopeItem::Event(boxed)),
            Err(refused) => Err(refused.value),
        }
    }

    /// Boxes a transaction as an item; returns the transaction unchanged if the allocation fails.
    pub fn transaction(
        alloc: Global,
        transaction: Transaction<'static>,
    ) -> Result<EnvelopeItem, Transaction<'static>>
        ensures boxed { IfOk result (IsBoxed EnvelopeItem.Transaction transaction.entry) }
        ensures handed_back { IfErr result (λ back. back ≡ transaction.entry) }
    {
        match Box::new(alloc, transaction) {
            Ok(boxed) => Ok(EnvelopeItem::Transaction(boxed)),
            Err(refused) => Err(refused.value),
        }
    }

    /// Returns the item type; `None` for `Raw`.
    pub fn kind(&self) -> Option<ItemKind>
        ensures { result ≡ kind_held (item_held self.now) }
    {
        match self {
            EnvelopeItem::Event(_) => Some(ItemKind::Event),
            EnvelopeItem::SessionUpdate(_) => Some(ItemKind::SessionUpdate),
            EnvelopeItem::SessionAggregates(_) => Some(ItemKind::SessionAggregates),
            EnvelopeItem::Transaction(_) => Some(ItemKind::Transaction),
            EnvelopeItem::Attachment(_) => Some(ItemKind::Attachment),
            EnvelopeItem::MonitorCheckIn(_) => Some(ItemKind::MonitorCheckIn),
            EnvelopeItem::UserReport(_) => Some(ItemKind::UserReport),
            EnvelopeItem::ReplayRecording(_) => Some(ItemKind::ReplayRecording),
            EnvelopeItem::ItemContainer(container) => Some(container.kind()),
            EnvelopeItem::ClientReport(_) => Some(ItemKind::ClientReport),
            EnvelopeItem::Raw => None,
        }
    }

    /// Returns whether the item can be written: no JSON value in the item holds a float, and no
    /// additional member has the key of a field or, in a context, `type`. Always true for `Raw`,
    /// which is left out of what is written.
    pub fn is_plain(&self) -> bool
        ensures plain { IsTrue result ↔ IsItemPlain (item_held self.now) }
        ensures stored { IsTrue result → IsItemStored (item_held self.now) }
    {
        match self {
            EnvelopeItem::Event(event) => event.as_ref().is_plain(),
            EnvelopeItem::SessionUpdate(session) => session.is_plain(),
            EnvelopeItem::SessionAggregates(groups) => groups.is_plain(),
            EnvelopeItem::Transaction(transaction) => transaction.as_ref().is_plain(),
            EnvelopeItem::Attachment(attachment) => attachment.is_plain(),
            EnvelopeItem::MonitorCheckIn(check_in) => check_in.is_plain(),
            EnvelopeItem::UserReport(report) => report.is_plain(),
            EnvelopeItem::ItemContainer(container) => container.is_plain(),
            EnvelopeItem::ClientReport(report) => report.is_plain(),
            EnvelopeItem::ReplayRecording(_) | EnvelopeItem::Raw => true,
        }
    }

    /// Clones the item, or makes its normal form, by `way`. `AllocError` if an allocation fails.
    #[tactic(auto, using(crate::proofs::Made::value_made, crate::proofs::Made::attachment_made, crate::proofs::Made::recording_made, crate::proofs::Made::raw_made))]
    pub fn remake(&self, way: Way) -> Result<EnvelopeItem, AllocError>
        ensures { IfOk result (λ item. item_held item ≡ item_made way (item_held self.now)) }
    {
        Ok(match self {
            EnvelopeItem::Event(event) => EnvelopeItem::Event(event.remake(way)?),
            EnvelopeItem::SessionUpdate(session) => {
                EnvelopeItem::SessionUpdate(session.remake(way)?)
            }
            EnvelopeItem::SessionAggregates(groups) => {
                EnvelopeItem::SessionAggregates(groups.remake(way)?)
            }
            EnvelopeItem::Transaction(transaction) => {
                EnvelopeItem::Transaction(transaction.remake(way)?)
            }
            EnvelopeItem::Attachment(attachment) => {
                EnvelopeItem::Attachment(attachment.remake(way)?)
            }
            EnvelopeItem::MonitorCheckIn(check_in) => {
                EnvelopeItem::MonitorCheckIn(check_in.remake(way)?)
            }
            EnvelopeItem::UserReport(report) => EnvelopeItem::UserReport(report.remake(way)?),
            EnvelopeItem::ReplayRecording(recording) => {
                EnvelopeItem::ReplayRecording(recording.remake(way)?)
            }
            EnvelopeItem::ItemContainer(container) => {
                EnvelopeItem::ItemContainer(container.remake(way)?)
            }
            EnvelopeItem::ClientReport(report) => EnvelopeItem::ClientReport(report.remake(way)?),
            EnvelopeItem::Raw => EnvelopeItem::Raw,
        })
    }

    /// Clones the item. `AllocError` if an allocation fails.
    #[tactic(auto, unfolding(crate::specs::Made::item_made))]
    pub fn clone(&self) -> Result<EnvelopeItem, AllocError>
        ensures { IfOk result (λ item. item_held item ≡ item_held self.now) }
    {
        self.remake(Way::Same)
    }

    /// Returns the normal form: the item that is read back after writing. `Raw` stays `Raw`.
    /// `AllocError` if an allocation fails.
    #[tactic(auto, unfolding(crate::specs::Made::item_made))]
    pub fn normalized(&self, alloc: Global) -> Result<EnvelopeItem, AllocError>
        ensures { IfOk result (λ item. item_held item ≡ item_norm (item_held self.now)) }
    {
        self.remake(Way::Normal(alloc))
    }
}

/// Appends the JSON payload of an item to `out`; appends nothing for an attachment, a replay
/// recording and `Raw`, which have none.
///
/// The contract covers payloads whose tree has no float.
///
/// # Errors
///
/// `AllocError` if an allocation fails; `out` is empty then.
#[tactic(auto, unfolding(sentry_tables::specs::Writes::written))]
pub fn write_payload(item: &EnvelopeItem, out: &mut Vec<u8>) -> Result<(), AllocError>
    ensures ok { OnOk result (AppendsPayload (item_held item.now) out.old.items out.new.items) }
    ensures err { OnErr result (out.new.items ≡ []) }
{
    match item {
        EnvelopeItem::Event(event) => write_text(event.as_ref(), out),
        EnvelopeItem::SessionUpdate(session) => write_text(session, out),
        EnvelopeItem::SessionAggregates(groups) => write_text(groups, out),
        EnvelopeItem::Transaction(transaction) => write_text(transaction.as_ref(), out),
        EnvelopeItem::MonitorCheckIn(check_in) => write_text(check_in, out),
        EnvelopeItem::UserReport(report) => write_text(report, out),
        EnvelopeItem::ItemContainer(container) => write_container_payload(container, out),
        EnvelopeItem::ClientReport(report) => write_text(report, out),
        EnvelopeItem::Attachment(_) | EnvelopeItem::ReplayRecording(_) => Ok(()),
        EnvelopeItem::Raw => Ok(()),
    }
}

impl From<SessionUpdate<'static>> for EnvelopeItem {
    ghost from_gives = { λ session item. item ≡ variants.SessionUpdate session };

    fn from(session: SessionUpdate<'static>) -> EnvelopeItem {
        EnvelopeItem::SessionUpdate(session)
    }
}

impl From<SessionAggregates<'static>> for EnvelopeItem {
    ghost from_gives = { λ groups item. item ≡ variants.SessionAggregates groups };

    fn from(groups: SessionAggregates<'static>) -> EnvelopeItem {
        EnvelopeItem::SessionAggregates(groups)
    }
}

impl From<Attachment> for EnvelopeItem {
    ghost from_gives = { λ attachment item. item ≡ variants.Attachment attachment };

    fn from(attachment: Attachment) -> EnvelopeItem {
        EnvelopeItem::Attachment(attachment)
    }
}

impl From<MonitorCheckIn> for EnvelopeItem {
    ghost from_gives = { λ check_in item. item ≡ variants.MonitorCheckIn check_in };

    fn from(check_in: MonitorCheckIn) -> EnvelopeItem {
        EnvelopeItem::MonitorCheckIn(check_in)
    }
}

impl From<UserReport> for EnvelopeItem {
    ghost from_gives = { λ report item. item ≡ variants.UserReport report };

    fn from(report: UserReport) -> EnvelopeItem {
        EnvelopeItem::UserReport(report)
    }
}

impl From<ReplayRecording> for EnvelopeItem {
    ghost from_gives = { λ recording item. item ≡ variants.ReplayRecording recording };

    fn from(recording: ReplayRecording) -> EnvelopeItem {
        EnvelopeItem::ReplayRecording(recording)
    }
}

impl From<ItemContainer> for EnvelopeItem {
    ghost from_gives = { λ container item. item ≡ variants.ItemContainer container };

    fn from(container: ItemContainer) -> EnvelopeItem {
        EnvelopeItem::ItemContainer(container)
    }
}

impl From<Vec<Log>> for EnvelopeItem {
    ghost from_gives = { λ logs item. item ≡ variants.ItemContainer (containers.Logs logs) };

    fn from(logs: Vec<Log>) -> EnvelopeItem {
        EnvelopeItem::ItemContainer(ItemContainer::Logs(logs))
    }
}

impl From<Vec<Metric>> for EnvelopeItem {
    ghost from_gives = { λ metrics item.
        item ≡ variants.ItemContainer (containers.Metrics metrics) };

    fn from(metrics: Vec<Metric>) -> EnvelopeItem {
        EnvelopeItem::ItemContainer(ItemContainer::Metrics(metrics))
    }
}

impl From<Report> for EnvelopeItem {
    ghost from_gives = { λ report item. item ≡ variants.ClientReport report };

    fn from(report: Report) -> EnvelopeItem {
        EnvelopeItem::ClientReport(report)
    }
}
