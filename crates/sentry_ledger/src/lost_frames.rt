//! The losses of frames of any item type.

ghost use Rattle.std.specs.Prelude.{◌≡◌, ◌≢◌, ◌++◌, IfOk, IfSome, List, None, Ok, OnOk, length};
ghost use Rattle.sentry_envelope.specs.Envelope.{ItemShows};
ghost use Rattle.sentry_envelope.specs.EnvelopeFault.{FrameIsRefused};
ghost use Rattle.sentry_envelope.specs.EnvelopeView.{item_view};
ghost use Rattle.sentry_envelope.specs.SentryProfile.{profile};
ghost use Rattle.sentry_forward.specs.View.{any_frame, word_of};
ghost use Rattle.sentry_tables.specs.Cell.{Cell};
ghost use Rattle.sentry_items.specs.Losses.{one_or_none};
ghost use Rattle.sentry_reports.specs.declared.item_loss.ItemLoss.{ItemLoss as ItemLosses};
ghost use Rattle.sentry_ledger.specs.FrameLosses.{AreLossesOf, AreLossesOfAll, category_of_type, depends_on_payload, loss_by_type};

use rand_pcg::Pcg32;
use sentry_envelope::losses::push_losses;
use sentry_envelope::{EnvelopeError, read_item};
use sentry_forward::AnyFrame;
use sentry_framing::ItemKind;
use sentry_items::EnvelopeItem;
use sentry_moments::Moment;
use sentry_reports::{Category, ItemLoss};
use std::alloc::{AllocError, Global};

/// Returns the data category in which items of a type count, by the word of the type; `None` for
/// types that have none of the categories of [`Category`], such as `profile` and `statsd`.
///
/// <https://develop.sentry.dev/sdk/telemetry/client-reports/>
pub fn category_of_type(word: &str) -> Option<Category>
    ensures { result ≡ category_of_type word.now }
{
    match word {
        "event" => Some(Category::Error),
        "unreal_report" => Some(Category::Error),
        "session" => Some(Category::Session),
        "sessions" => Some(Category::Session),
        "transaction" => Some(Category::Transaction),
        "span" => Some(Category::Span),
        "attachment" => Some(Category::Attachment),
        "check_in" => Some(Category::Monitor),
        "log" => Some(Category::LogItem),
        "trace_metric" => Some(Category::TraceMetric),
        "user_report" => Some(Category::Feedback),
        "feedback" => Some(Category::Feedback),
        "replay_event" => Some(Category::Replay),
        "replay_recording" => Some(Category::Replay),
        "replay_video" => Some(Category::Replay),
        _ => None,
    }
}

fn loss_by_type(word: &str, size: usize) -> Option<ItemLoss>
    ensures { result ≡ loss_by_type word.now size }
{
    let category = category_of_type(word)?;
    let quantity = match category {
        Category::Attachment => size as u64,
        _ => 1,
    };
    Some(ItemLoss {
        category,
        quantity,
        reason: None,
    })
}

// Whether the losses of an item of this type depend on what its payload holds.
fn depends_on_payload(kind: Option<ItemKind>) -> bool
    ensures { result ≡ depends_on_payload kind }
{
    match kind {
        Some(ItemKind::SessionAggregates) => true,
        Some(ItemKind::Transaction) => true,
        Some(ItemKind::Logs) => true,
        Some(ItemKind::Metrics) => true,
        Some(ItemKind::ClientReport) => true,
        _ => false,
    }
}

// Returns nothing for a frame that reads as no item.
fn refused_item(error: EnvelopeError) -> Result<Option<EnvelopeItem>, AllocError>
    ensures none { IfOk result (λ item. item ≡ None) }
    ensures refused { OnOk result (error ≢ EnvelopeError.OutOfMemory) }
{
    match error {
        EnvelopeError::OutOfMemory => Err(AllocError),
        _ => Ok(None),
    }
}

// Reads the item of a frame; `None` if it reads as none. The item isn't kept: the moment and the
// ids that it is read with change no loss.
fn read_typed(alloc: Global, frame: &AnyFrame<'_>) -> Result<Option<EnvelopeItem>, AllocError>
    ensures shown { IfOk result (λ read. IfSome read (λ item. (now : Cell) ×
        ItemShows profile now (any_frame frame.now) (item_view item))) }
    ensures refused { result ≡ Ok None → FrameIsRefused profile (any_frame frame.now) }
{
    let now = Moment::new(0, 0).unwrap();
    match read_item(
        alloc,
        frame.header,
        frame.payload,
        now,
        &mut Pcg32::new(0, 0),
    ) {
        Ok(item) => Ok(Some(item)),
        Err(error) => refused_item(error),
    }
}

// Appends the loss that a frame has by its item type, if any.
fn push_by_type(losses: &mut Vec<ItemLoss>, frame: &AnyFrame<'_>) -> Result<(), AllocError>
    ensures { OnOk result (losses.new.items ≡ losses.old.items
        ++ one_or_none (loss_by_type (word_of frame.now) (length frame.now.payload.now))) }
{
    if let Some(loss) = loss_by_type(frame.word.as_str(), frame.payload.len()) {
        losses.push(loss)?;
    }
    Ok(())
}

// Appends the losses of a frame.
fn push_frame(
    alloc: Global,
    losses: &mut Vec<ItemLoss>,
    frame: &AnyFrame<'_>,
) -> Result<(), AllocError>
    ensures { OnOk result ((more : List ItemLosses) × (losses.new.items ≡ losses.old.items ++ more) ×
        AreLossesOf frame.now more) }
{
    if !depends_on_payload(frame.kind()) {
        push_by_type(losses, frame)?;
        return Ok(());
    }
    match read_typed(alloc, frame)? {
        Some(item) => {
            let pushed = push_losses(&item, losses);
            drop(item);
            pushed?;
            Ok(())
        }
        None => {
            push_by_type(losses, frame)?;
            Ok(())
        }
    }
}

/// Returns the losses of a frame: what counts as lost if its item is not sent.
///
/// If the frame reads as an item ([`read_item`]), its losses are those of the item
/// ([`LossSource`](sentry_items::LossSource)). Else they are the loss of its item type, without a reason: an attachment's
/// bytes, and 1 in any other category; none for a type without a category ([`category_of_type`]).
/// This holds of frames whose `word` is that of their header, as of all that `AnyFrames` gives.
///
/// # Errors
///
/// `AllocError` if an allocation fails, or if a URL would take 4 GB.
pub fn frame_losses(alloc: Global, frame: &AnyFrame<'_>) -> Result<Vec<ItemLoss>, AllocError>
    ensures { IfOk result (λ losses. AreLossesOf frame.now losses.items) }
{
    let mut losses = Vec::new(alloc);
    push_frame(alloc, &mut losses, frame)?;
    Ok(losses)
}

/// Returns the losses of frames, in order.
///
/// # Errors
///
/// `AllocError` if an allocation fails, or if a URL would take 4 GB.
pub fn losses_of_frames(alloc: Global, frames: &[AnyFrame<'_>]) -> Result<Vec<ItemLoss>, AllocError>
    ensures { IfOk result (λ losses. AreLossesOfAll frames.now losses.items) }
{
    let mut losses = Vec::new(alloc);
    for frame in frames {
        push_frame(alloc, &mut losses, frame)?;
    }
    Ok(losses)
}
