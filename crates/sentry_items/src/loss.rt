//! Losses: what counts as lost, by category, if an item is not sent.

ghost use Rattle.std.specs.Prelude.{◌≡◌};
ghost use Rattle.sentry_items.specs.Losses.{loss as lost_without_reason, one_of};
ghost use Rattle.sentry_reports.specs.declared.category.Category.TheVariants as categories;

use crate::sizes::sum_of_sizes;
use crate::{Attachment, EnvelopeItem, ItemContainer, ReplayRecording};
use sentry_event::{Event, Span, Transaction};
use sentry_records::{Log, Metric, MonitorCheckIn, SessionAggregates, SessionUpdate, UserReport};
use sentry_reports::{Category, Item, ItemLoss, Report};
use sentry_words::Sealed;
use std::slice;

/// An iterator over the losses of a source, in order.
///
/// The iterator doesn't allocate.
#[derive(Clone, Drop)]
pub struct ItemLossIter<'a> {
    source: SourceLosses<'a>,
    items: &'a [EnvelopeItem],
}

// The remaining losses of one source.
#[derive(Clone, Copy)]
enum SourceLosses<'a> {
    // The next loss and the one after it.
    Pair(Option<ItemLoss>, Option<ItemLoss>),
    // The losses that the items of a client report tell, with their reasons.
    Reported(&'a [Item]),
    // A list of losses.
    Listed(&'a [ItemLoss]),
}

// A loss of `quantity` in `category`, without a reason.
fn loss(category: Category, quantity: u64) -> ItemLoss
    ensures { result ≡ lost_without_reason category quantity }
{
    ItemLoss {
        category,
        quantity,
        reason: None,
    }
}

impl<'a> SourceLosses<'a> {
    ghost use Rattle.std.specs.Prelude.{◌∷◌, []};
    ghost use Rattle.std.specs.Iterator.{YieldsFirst};
    ghost use Rattle.sentry_items.specs.Losses.{loss, losses_of_attachment, losses_of_container, losses_of_groups, losses_of_item, losses_of_logs, losses_of_metrics, losses_of_report, losses_of_transaction, source_left};

    fn none() -> SourceLosses<'a>
        ensures { source_left result ≡ [] }
    {
        SourceLosses::Pair(None, None)
    }

    fn single(category: Category, quantity: u64) -> SourceLosses<'a>
        ensures { source_left result ≡ loss category quantity ∷ [] }
    {
        SourceLosses::Pair(Some(loss(category, quantity)), None)
    }

    fn one(category: Category) -> SourceLosses<'a>
        ensures { source_left result ≡ one_of category }
    {
        SourceLosses::single(category, 1)
    }

    fn pair(first: Category, many: u64, second: Category, much: u64) -> SourceLosses<'a>
        ensures { source_left result ≡ loss first many ∷ loss second much ∷ [] }
    {
        SourceLosses::Pair(Some(loss(first, many)), Some(loss(second, much)))
    }

    fn of_groups(groups: &SessionAggregates<'_>) -> SourceLosses<'a>
        ensures { source_left result ≡ losses_of_groups groups.now }
    {
        SourceLosses::single(Category::Session, sum_of_sizes(&groups.aggregates))
    }

    // A transaction counts as a span, too.
    fn of_transaction(transaction: &Transaction<'_>) -> SourceLosses<'a>
        ensures { source_left result ≡ losses_of_transaction transaction.now }
    {
        let spans = transaction.spans.len() as u64 + 1;
        SourceLosses::pair(Category::Transaction, 1, Category::Span, spans)
    }

    fn of_logs(logs: &[Log]) -> SourceLosses<'a>
        ensures { source_left result ≡ losses_of_logs logs.now }
    {
        let bytes = sum_of_sizes(logs);
        SourceLosses::pair(
            Category::LogItem,
            logs.len() as u64,
            Category::LogByte,
            bytes,
        )
    }

    fn of_metrics(metrics: &[Metric]) -> SourceLosses<'a>
        ensures { source_left result ≡ losses_of_metrics metrics.now }
    {
        let count = metrics.len() as u64;
        let bytes = sum_of_sizes(metrics);
        SourceLosses::pair(
            Category::TraceMetric,
            count,
            Category::TraceMetricByte,
            bytes,
        )
    }

    fn of_container(container: &ItemContainer) -> SourceLosses<'a>
        ensures { source_left result ≡ losses_of_container container.now }
    {
        match container {
            ItemContainer::Logs(logs) => SourceLosses::of_logs(logs),
            ItemContainer::Metrics(metrics) => SourceLosses::of_metrics(metrics),
        }
    }

    fn of_attachment(attachment: &Attachment) -> SourceLosses<'a>
        ensures { source_left result ≡ losses_of_attachment attachment.now }
    {
        SourceLosses::single(Category::Attachment, attachment.buffer.len() as u64)
    }

    fn of_report(report: &'a Report) -> SourceLosses<'a>
        ensures { source_left result ≡ losses_of_report report.now }
    {
        SourceLosses::Reported(report.discarded_events())
    }

    fn of_item(item: &'a EnvelopeItem) -> SourceLosses<'a>
        ensures { source_left result ≡ losses_of_item item.now }
    {
        match item {
            EnvelopeItem::Event(_) => SourceLosses::one(Category::Error),
            EnvelopeItem::SessionUpdate(_) => SourceLosses::one(Category::Session),
            EnvelopeItem::SessionAggregates(groups) => SourceLosses::of_groups(groups),
            EnvelopeItem::Transaction(transaction) => SourceLosses::of_transaction(transaction),
            EnvelopeItem::Attachment(attachment) => SourceLosses::of_attachment(attachment),
            EnvelopeItem::MonitorCheckIn(_) => SourceLosses::one(Category::Monitor),
            EnvelopeItem::UserReport(_) => SourceLosses::one(Category::Feedback),
            EnvelopeItem::ReplayRecording(_) => SourceLosses::one(Category::Replay),
            EnvelopeItem::ItemContainer(container) => SourceLosses::of_container(container),
            EnvelopeItem::ClientReport(report) => SourceLosses::of_report(report),
            EnvelopeItem::Raw => SourceLosses::none(),
        }
    }

    fn next(&mut self) -> Option<ItemLoss>
        ensures { YieldsFirst source_left self.old result self.new }
    {
        match self {
            SourceLosses::Pair(next, after) => {
                if next.is_some() {
                    next.take()
                } else {
                    after.take()
                }
            }
            SourceLosses::Reported(items) => {
                let (item, others) = items.split_first()?;
                *items = others;
                Some(ItemLoss::from(*item))
            }
            SourceLosses::Listed(losses) => {
                let (loss, others) = losses.split_first()?;
                *losses = others;
                Some(*loss)
            }
        }
    }
}

impl<'a> ItemLossIter<'a> {
    ghost use Rattle.sentry_items.specs.Losses.{losses_left, losses_of_items, source_left};

    fn of_source(source: SourceLosses<'a>) -> ItemLossIter<'a>
        ensures { losses_left result ≡ source_left source.entry }
    {
        ItemLossIter { source, items: &[] }
    }

    // The loss of one in a category.
    fn one(category: Category) -> ItemLossIter<'a>
        ensures { losses_left result ≡ one_of category }
    {
        ItemLossIter::of_source(SourceLosses::one(category))
    }

    /// Returns the losses of all items, in order.
    pub fn of_items(items: &'a [EnvelopeItem]) -> ItemLossIter<'a>
        ensures { losses_left result ≡ losses_of_items items.now }
    {
        ItemLossIter {
            source: SourceLosses::none(),
            items,
        }
    }
}

impl Iterator for ItemLossIter<'_> {
    ghost use Rattle.std.specs.Iterator.{YieldsFirst, item_count};
    ghost use Rattle.sentry_items.specs.Losses.{losses_left};

    type Item = ItemLoss;

    ghost next_gives = { YieldsFirst losses_left };

    ghost remaining = { item_count losses_left };

    fn next(&mut self) -> Option<ItemLoss> {
        loop {
            if let Some(loss) = self.source.next() {
                return Some(loss);
            }
            let (item, others) = self.items.split_first()?;
            self.source = SourceLosses::of_item(item);
            self.items = others;
        }
    }
}

/// A value whose losses can be counted, as in client reports.
///
/// The losses of each type, without a reason unless stated:
///
/// - an event: 1 `error`; a session update: 1 `session`; a span: 1 `span`; a check-in: 1 `monitor`;
///   a user report: 1 `feedback`; a replay recording: 1 `replay`
/// - session aggregates: the `session` count of all groups
/// - a transaction: 1 `transaction`, and a `span` for each of its spans and one for the transaction
/// - an attachment: its bytes as `attachment`
/// - logs: their number as `log_item`, and their size as `log_byte`
/// - metrics: their number as `trace_metric`, and their size as `trace_metric_byte`
/// - a client report: each of its items, with its reason
/// - `EnvelopeItem::Raw`: none
/// - an envelope: the losses of its items, in order; none if raw
/// - a [`LossSlice`]: those of its list, in order
///
/// Each sum is capped at 2^64-1.
pub trait LossSource: Sealed {
    ghost use Rattle.std.specs.Prelude.{List};
    ghost use Rattle.sentry_reports.specs.declared.item_loss.ItemLoss.{ItemLoss};
    ghost use Rattle.sentry_items.specs.Losses.{losses_left};

    /// The losses, in order.
    ghost losses_of: { Self → List ItemLoss };

    /// Returns the losses, in order, without an allocation.
    fn losses(&self) -> ItemLossIter<'_>
        ensures { losses_left result ≡ losses_of self.now };
}

impl LossSource for Event<'_> {
    ghost losses_of = { λ _. one_of categories.Error };

    fn losses(&self) -> ItemLossIter<'_> {
        ItemLossIter::one(Category::Error)
    }
}

impl LossSource for SessionUpdate<'_> {
    ghost losses_of = { λ _. one_of categories.Session };

    fn losses(&self) -> ItemLossIter<'_> {
        ItemLossIter::one(Category::Session)
    }
}

impl LossSource for SessionAggregates<'_> {
    ghost use Rattle.sentry_items.specs.Losses.{losses_of_groups};

    ghost losses_of = { losses_of_groups };

    fn losses(&self) -> ItemLossIter<'_> {
        ItemLossIter::of_source(SourceLosses::of_groups(self))
    }
}

impl LossSource for Transaction<'_> {
    ghost use Rattle.sentry_items.specs.Losses.{losses_of_transaction};

    ghost losses_of = { losses_of_transaction };

    fn losses(&self) -> ItemLossIter<'_> {
        ItemLossIter::of_source(SourceLosses::of_transaction(self))
    }
}

impl LossSource for Span {
    ghost losses_of = { λ _. one_of categories.Span };

    fn losses(&self) -> ItemLossIter<'_> {
        ItemLossIter::one(Category::Span)
    }
}

impl LossSource for Attachment {
    ghost use Rattle.sentry_items.specs.Losses.{losses_of_attachment};

    ghost losses_of = { losses_of_attachment };

    fn losses(&self) -> ItemLossIter<'_> {
        ItemLossIter::of_source(SourceLosses::of_attachment(self))
    }
}

impl LossSource for MonitorCheckIn {
    ghost losses_of = { λ _. one_of categories.Monitor };

    fn losses(&self) -> ItemLossIter<'_> {
        ItemLossIter::one(Category::Monitor)
    }
}

impl LossSource for UserReport {
    ghost losses_of = { λ _. one_of categories.Feedback };

    fn losses(&self) -> ItemLossIter<'_> {
        ItemLossIter::one(Category::Feedback)
    }
}

impl LossSource for ReplayRecording {
    ghost losses_of = { λ _. one_of categories.Replay };

    fn losses(&self) -> ItemLossIter<'_> {
        ItemLossIter::one(Category::Replay)
    }
}

impl LossSource for Log {
    ghost use Rattle.sentry_items.specs.Losses.{losses_of_log};

    ghost losses_of = { losses_of_log };

    fn losses(&self) -> ItemLossIter<'_> {
        ItemLossIter::of_source(SourceLosses::of_logs(slice::from_ref(self)))
    }
}

impl LossSource for Metric {
    ghost use Rattle.sentry_items.specs.Losses.{losses_of_metric};

    ghost losses_of = { losses_of_metric };

    fn losses(&self) -> ItemLossIter<'_> {
        ItemLossIter::of_source(SourceLosses::of_metrics(slice::from_ref(self)))
    }
}

impl LossSource for ItemContainer {
    ghost use Rattle.sentry_items.specs.Losses.{losses_of_container};

    ghost losses_of = { losses_of_container };

    fn losses(&self) -> ItemLossIter<'_> {
        ItemLossIter::of_source(SourceLosses::of_container(self))
    }
}

impl LossSource for Report {
    ghost use Rattle.sentry_items.specs.Losses.{losses_of_report};

    ghost losses_of = { losses_of_report };

    fn losses(&self) -> ItemLossIter<'_> {
        ItemLossIter::of_source(SourceLosses::of_report(self))
    }
}

impl LossSource for EnvelopeItem {
    ghost use Rattle.sentry_items.specs.Losses.{losses_of_item};

    ghost losses_of = { losses_of_item };

    fn losses(&self) -> ItemLossIter<'_> {
        ItemLossIter::of_source(SourceLosses::of_item(self))
    }
}

/// A list of losses as a source; its losses are those of the list, in order.
#[derive(Clone, Copy, Debug)]
pub struct LossSlice<'a>(pub &'a [ItemLoss]);

impl LossSource for LossSlice<'_> {
    ghost losses_of = { λ slice. slice.0.now };

    fn losses(&self) -> ItemLossIter<'_> {
        ItemLossIter::of_source(SourceLosses::Listed(self.0))
    }
}
