//! Errors that no line of text brings about, as they are printed, and `Debug` texts of what no line
//! of text shows.

use crate::wanted::wanted;
use sentry_types::protocol::v7::client_report::{LedgerFull, LossSlice};
use sentry_types::protocol::v7::{
    AddRefused, AttachmentWriteError, Category, CrontabParseError, EnvelopeError, EnvelopeItem,
    EnvelopeWriteError, ItemLoss, OrganizationId, ScheduleError, TreeError,
};
use sentry_types::{ApiUrlError, ParseAuthError, ParseDsnError, ParseProjectIdError, Scheme};
use std::alloc::Global;
use std::fmt::{Debug, Display};
use std::test::Fail;

fn prints<E: Display + Drop>(alloc: Global, error: E, text: &str) -> bool {
    matches!(error.to_string(alloc), Ok(found) if found.as_str() == text)
}

#[test]
fn failed_allocations_are_printed(rt: HostRuntime) -> Result<(), Fail> {
    let (alloc, text) = (rt.alloc(), "out of memory");
    wanted(
        prints(alloc, TreeError::Memory, text)
            && prints(alloc, ParseAuthError::Memory, text)
            && prints(alloc, ParseDsnError::Memory, text)
            && prints(alloc, ParseProjectIdError::Memory, text)
            && prints(alloc, ApiUrlError::Memory, text)
            && prints(alloc, ScheduleError::Memory, text)
            && prints(alloc, AttachmentWriteError::Memory, text)
            && prints(alloc, EnvelopeWriteError::Memory, text)
            && prints(alloc, EnvelopeError::OutOfMemory, text)
            && prints(alloc, AddRefused::Memory(EnvelopeItem::Raw), text),
    )
}

#[test]
fn others_are_printed(rt: HostRuntime) -> Result<(), Fail> {
    let alloc = rt.alloc();
    let header = "missing envelope header";
    wanted(
        prints(alloc, ApiUrlError::NotAUrl, "NotAUrl")
            && prints(alloc, AttachmentWriteError::Io, "Io")
            && prints(alloc, EnvelopeWriteError::Io, "Io")
            && prints(alloc, EnvelopeWriteError::NotPlain, "NotPlain")
            && prints(alloc, LedgerFull(an_error()), "LedgerFull")
            && prints(
                alloc,
                AddRefused::RawEnvelope(EnvelopeItem::Raw),
                "RawEnvelope",
            )
            && prints(alloc, EnvelopeError::MissingHeader, header)
            && prints(
                alloc,
                EnvelopeError::MissingItemHeader,
                "missing item header",
            ),
    )
}

/// A loss of one error.
fn an_error() -> ItemLoss {
    ItemLoss {
        category: Category::Error,
        quantity: 1,
        reason: None,
    }
}

/// The `Debug` text of a value begins with this text.
fn debugs<T: Debug + Drop>(alloc: Global, value: T, text: &str) -> bool {
    matches!(format!(in alloc; "{value:?}"), Ok(found) if found.as_str().starts_with(text))
}

#[test]
fn debug_texts(rt: HostRuntime) -> Result<(), Fail> {
    let alloc = rt.alloc();
    let crontab = CrontabParseError::new(alloc, "x")?;
    wanted(
        debugs(alloc, crontab, "CrontabParseError")
            && debugs(alloc, TreeError::Misfit, "Misfit")
            && debugs(alloc, EnvelopeError::InvalidHeader, "InvalidHeader")
            && debugs(alloc, EnvelopeWriteError::NotPlain, "NotPlain")
            && debugs(alloc, Scheme::Https, "Https")
            && debugs(alloc, OrganizationId::from(5), "OrganizationId(5)")
            && debugs(alloc, LossSlice(&[]), "LossSlice([])")
            && debugs(
                alloc,
                LedgerFull(an_error()),
                "LedgerFull(ItemLoss { category: Error, quantity: 1,",
            ),
    )
}
