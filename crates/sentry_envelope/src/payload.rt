//! Payloads of JSON: the values that they hold, as items.

ghost use Rattle.std.specs.Prelude.{◌≡◌, ◌≢◌, IfErr, OnOk};
ghost use Rattle.sentry_event.specs.Events.{event_cell};
ghost use Rattle.sentry_event.specs.Transactions.{transaction_cell};
ghost use Rattle.sentry_records.specs.Monitors.{check_in_cell};
ghost use Rattle.sentry_records.specs.Sessions.{groups_cell, session_cell};
ghost use Rattle.sentry_records.specs.UserReports.{user_report_cell};
ghost use Rattle.sentry_reports.specs.Reports.{report_cell};
ghost use Rattle.sentry_framing.specs.declared.kind.ItemKind.{ItemKind as ItemKinds};
ghost use Rattle.sentry_framing.specs.declared.kind.ItemKind.TheVariants as kinds;
ghost use Rattle.sentry_items.specs.Containers.{container_cell};
ghost use Rattle.sentry_items.specs.declared.container.ItemContainer.TheVariants as containers;
ghost use Rattle.sentry_tables.specs.Cell.{Cell};
ghost use Rattle.sentry_tables.specs.Reading.{ReadsTextAt};
ghost use Rattle.sentry_envelope.specs.ItemAdded.{IsAdded, IsJson, IsNotAdded, IsOfKind, IsValueAdded};
ghost use Rattle.sentry_envelope.specs.SentryProfile.{form_of};
ghost use Rattle.sentry_framing.specs.View.{frame_of};
ghost use Rattle.sentry_moments.specs.Moments.{moment_cell};

use crate::timed::{read_apart_at, read_at};
use rand_core::Rng;
use sentry_event::{Event, Transaction};
use sentry_framing::{EnvelopeError, ItemFrame, ItemKind};
use sentry_items::{EnvelopeItem, ItemContainer, Listed, read_listed};
use sentry_moments::Moment;
use sentry_records::{Log, Metric, MonitorCheckIn, SessionAggregates, SessionUpdate, UserReport};
use sentry_reports::ReportRows;
use sentry_tables::{LineReader, Member, TreeError};
use std::alloc::AllocError;

// A type of values that payloads of JSON hold.
pub(crate) trait Payload: Sized + Drop {
    // the type of the value's item
    ghost item_kind: { ItemKinds };

    // what the item holds
    ghost cell: { Self → Cell };

    // Appends the value as an item. `AllocError` if an allocation fails.
    fn push_to(self, items: &mut Vec<EnvelopeItem>) -> Result<(), AllocError>
        ensures { OnOk result
            (IsValueAdded item_kind (cell self) items.old.items items.new.items) };
}

impl Payload for Box<Event<'static>> {
    ghost item_kind = { kinds.Event };

    ghost cell = { λ value. event_cell value.value };

    fn push_to(self, items: &mut Vec<EnvelopeItem>) -> Result<(), AllocError> {
        items.push(EnvelopeItem::Event(self))?;
        Ok(())
    }
}

impl Payload for Box<Transaction<'static>> {
    ghost item_kind = { kinds.Transaction };

    ghost cell = { λ value. transaction_cell value.value };

    fn push_to(self, items: &mut Vec<EnvelopeItem>) -> Result<(), AllocError> {
        items.push(EnvelopeItem::Transaction(self))?;
        Ok(())
    }
}

impl Payload for SessionUpdate<'static> {
    ghost item_kind = { kinds.SessionUpdate };

    ghost cell = { session_cell };

    fn push_to(self, items: &mut Vec<EnvelopeItem>) -> Result<(), AllocError> {
        items.push(EnvelopeItem::SessionUpdate(self))?;
        Ok(())
    }
}

impl Payload for SessionAggregates<'static> {
    ghost item_kind = { kinds.SessionAggregates };

    ghost cell = { groups_cell };

    fn push_to(self, items: &mut Vec<EnvelopeItem>) -> Result<(), AllocError> {
        items.push(EnvelopeItem::SessionAggregates(self))?;
        Ok(())
    }
}

impl Payload for MonitorCheckIn {
    ghost item_kind = { kinds.MonitorCheckIn };

    ghost cell = { check_in_cell };

    fn push_to(self, items: &mut Vec<EnvelopeItem>) -> Result<(), AllocError> {
        items.push(EnvelopeItem::MonitorCheckIn(self))?;
        Ok(())
    }
}

impl Payload for UserReport {
    ghost item_kind = { kinds.UserReport };

    ghost cell = { user_report_cell };

    fn push_to(self, items: &mut Vec<EnvelopeItem>) -> Result<(), AllocError> {
        items.push(EnvelopeItem::UserReport(self))?;
        Ok(())
    }
}

impl Payload for Listed<Log> {
    ghost item_kind = { kinds.Logs };

    ghost cell = { λ list. container_cell (containers.Logs list.items) };

    fn push_to(self, items: &mut Vec<EnvelopeItem>) -> Result<(), AllocError> {
        items.push(EnvelopeItem::ItemContainer(ItemContainer::Logs(self.items)))?;
        Ok(())
    }
}

impl Payload for Listed<Metric> {
    ghost item_kind = { kinds.Metrics };

    ghost cell = { λ list. container_cell (containers.Metrics list.items) };

    fn push_to(self, items: &mut Vec<EnvelopeItem>) -> Result<(), AllocError> {
        items.push(EnvelopeItem::ItemContainer(ItemContainer::Metrics(self.items)))?;
        Ok(())
    }
}

impl Payload for ReportRows {
    ghost item_kind = { kinds.ClientReport };

    ghost cell = { λ value. report_cell value };

    fn push_to(self, items: &mut Vec<EnvelopeItem>) -> Result<(), AllocError> {
        items.push(EnvelopeItem::ClientReport(self.report()))?;
        Ok(())
    }
}

// Appends the item of a frame whose payload is JSON.
#[tactic(auto, using(crate::specs::ItemAdded::alone, crate::specs::ItemAdded::listed, crate::proofs::ItemReads::at_moment))]
#[inline(never)]
pub(crate) fn add_json_item<'a, R: Rng>(
    lines: &mut LineReader<'a>,
    frame: &ItemFrame<'a>,
    kind: ItemKind,
    now: Moment,
    ids: &mut R,
    items: &mut Vec<EnvelopeItem>,
) -> Result<(), EnvelopeError>
    requires of_kind { IsOfKind (frame_of frame.now) kind }
    requires no_attachment { kind ≢ kinds.Attachment }
    requires no_recording { kind ≢ kinds.ReplayRecording }
    ensures ok { OnOk result
        (IsAdded (moment_cell now) (frame_of frame.now) items.old.items items.new.items) }
    ensures err { IfErr result (IsNotAdded (frame_of frame.now)) }
{
    let payload = frame.payload;
    match kind {
        ItemKind::Event => {
            let read: Result<Box<Event<'static>>, TreeError> = read_apart_at(
                lines, payload, now, ids,
            );
            add_read(read, frame, items)
        }
        ItemKind::SessionUpdate => {
            add_read(
                read_at::<SessionUpdate<'static>, R>(lines, payload, now, ids),
                frame,
                items,
            )
        }
        ItemKind::SessionAggregates => {
            add_read(
                lines.read::<SessionAggregates<'static>>(payload),
                frame,
                items,
            )
        }
        ItemKind::Transaction => {
            let read: Result<Box<Transaction<'static>>, TreeError> = read_apart_at(
                lines, payload, now, ids,
            );
            add_read(read, frame, items)
        }
        ItemKind::MonitorCheckIn => add_read(lines.read::<MonitorCheckIn>(payload), frame, items),
        ItemKind::UserReport => add_read(lines.read::<UserReport>(payload), frame, items),
        ItemKind::Logs => add_read(read_listed::<Log>(lines, payload), frame, items),
        ItemKind::Metrics => add_read(read_listed::<Metric>(lines, payload), frame, items),
        ItemKind::ClientReport => {
            add_read(
                read_at::<ReportRows, R>(lines, payload, now, ids),
                frame,
                items,
            )
        }
        ItemKind::Attachment | ItemKind::ReplayRecording => unreachable!(),
    }
}

// Appends the item of a frame whose payload was read.
fn add_read<T: Member + Payload>(
    read: Result<T, TreeError>,
    frame: &ItemFrame<'_>,
    items: &mut Vec<EnvelopeItem>,
) -> Result<(), EnvelopeError>
    requires of_kind { IsOfKind (frame_of frame.now) T.item_kind }
    requires fits { IsJson (form_of T.item_kind) T.kind }
    requires held { (v : T) → T.cell v ≡ T.cell_of v }
    ensures ok { (now : Cell) → ReadsTextAt now T.kind T.cell_of frame.now.payload.now read →
        OnOk result (IsAdded now (frame_of frame.now) items.old.items items.new.items) }
    ensures err { (now : Cell) → ReadsTextAt now T.kind T.cell_of frame.now.payload.now read →
        IfErr result (IsNotAdded (frame_of frame.now)) }
{
    let value = match read {
        Ok(value) => value,
        Err(error) => return Err(payload_error(error)),
    };
    value.push_to(items)?;
    Ok(())
}

// Returns the error of an envelope whose item's payload can't be read.
pub(crate) fn payload_error(error: TreeError) -> EnvelopeError
    ensures misfit { error ≡ TreeError.Misfit → result ≡ EnvelopeError.InvalidItemPayload }
    ensures memory { error ≡ TreeError.Memory → result ≡ EnvelopeError.OutOfMemory }
{
    match error {
        TreeError::Misfit => EnvelopeError::InvalidItemPayload,
        TreeError::Memory => EnvelopeError::OutOfMemory,
    }
}
