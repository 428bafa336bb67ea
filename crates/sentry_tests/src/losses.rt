//! What is lost with sources that no line of text gives: lists of losses, and items alone.

use crate::attachments::attachment;
use crate::wanted::wanted;
use sentry_types::protocol::v7::client_report::{
    Category, Item, ItemLoss, LossSlice, LossSource, Reason,
};
use sentry_types::protocol::v7::{EnvelopeItem, ReplayRecording};
use std::test::Fail;

/// What a loss says, as one text.
fn shown(loss: &ItemLoss) -> (&'static str, u64, &'static str) {
    let reason = match &loss.reason {
        Some(reason) => reason.as_str(),
        None => "none",
    };
    (loss.category.as_str(), loss.quantity, reason)
}

/// Whether these are the losses of a source, and nothing comes after them.
fn gives<S: LossSource + Drop>(source: S, expected: &[(&'static str, u64, &'static str)]) -> bool {
    let mut losses = source.losses();
    for row in expected {
        match losses.next() {
            Some(loss) if shown(&loss) == *row => {}
            _ => return false,
        }
    }
    losses.next().is_none() && losses.next().is_none()
}

#[test]
fn losses_of_sources(rt: HostRuntime) -> Result<(), Fail> {
    let listed = [
        ItemLoss::from(Item::new(Category::Error, Reason::BeforeSend, 2)),
        ItemLoss {
            category: Category::Session,
            quantity: 0,
            reason: None,
        },
    ];
    let rows = [("error", 2, "before_send"), ("session", 0, "none")];
    let file = attachment(rt.alloc(), b"twelve bytes")?;
    let of_file = gives(file, &[("attachment", 12, "none")]);
    let recording = ReplayRecording::default_in(rt.alloc());
    let of_recording = gives(recording, &[("replay", 1, "none")]);
    wanted(
        gives(LossSlice(&[]), &[])
            && gives(LossSlice(&listed), &rows)
            && of_file
            && of_recording
            && gives(EnvelopeItem::Raw, &[]),
    )
}
