//! Events, spans and transactions that lines of JSON show.

use crate::asked::{said_of, taken};
use crate::envelopes::said_envelope;
use crate::form::{by_line_at, by_tree_at, cloned_at};
use crate::said::{as_tree, list, shown, text};
use sentry_types::protocol::v7::{
    Envelope, EnvelopeItem, Event, FromTreeAt, Member, Span, Transaction, Value,
};
use std::alloc::{AllocError, Global};
use std::borrow::CowStr;
use std::fmt::Display;

// What the value that a line shows prints.
fn printed<T: FromTreeAt + Display>(alloc: Global, line: &[u8]) -> Result<Value, AllocError> {
    said_of(alloc, by_tree_at::<T>(alloc, line), shown)
}

// The text of the envelope of an item.
fn said_item(alloc: Global, item: EnvelopeItem) -> Result<Value, AllocError> {
    said_of(alloc, Envelope::from_item(alloc, item), said_envelope)
}

// The text of the envelope of an item that was boxed, if it was.
fn said_boxed<T: Drop>(alloc: Global, boxed: Result<EnvelopeItem, T>) -> Result<Value, AllocError> {
    match boxed {
        Ok(item) => said_item(alloc, item),
        Err(back) => {
            drop(back);
            text(alloc, "handed back")
        }
    }
}

/// The text of the envelope of an event.
pub fn said_event(alloc: Global, event: Event<'static>) -> Result<Value, AllocError> {
    said_boxed(alloc, EnvelopeItem::event(alloc, event))
}

// The text of the envelope of a transaction.
fn said_transaction(alloc: Global, transaction: Transaction<'static>) -> Result<Value, AllocError> {
    said_boxed(alloc, EnvelopeItem::transaction(alloc, transaction))
}

/// The id, the level, the platform, the fingerprint and the second of an event.
pub fn said_fields(alloc: Global, event: &Event<'static>) -> Result<Value, AllocError> {
    let mut fingerprint = Vec::new(alloc);
    for part in &event.fingerprint {
        fingerprint.push(text(alloc, part.as_str())?)?;
    }
    let fields = [
        shown(alloc, &event.event_id),
        text(alloc, event.level.as_str()),
        text(alloc, event.platform.as_str()),
        as_tree(fingerprint),
        as_tree(event.timestamp.secs()),
    ];
    list(alloc, fields)
}

const LENT: &str = "lent";

// What a value that borrows nothing writes, if it was made.
fn said_owned<T: Member, B: Drop>(alloc: Global, owned: Result<T, B>) -> Result<Value, AllocError> {
    match owned {
        Ok(owned) => list(alloc, [owned.to_tree(alloc)]),
        Err(_) => text(alloc, "handed back"),
    }
}

// What an event writes once it borrows nothing, to which a text was lent for each of its texts that
// may be.
fn owned_event(alloc: Global, mut event: Event<'static>) -> Result<Value, AllocError> {
    event.platform = CowStr::Borrowed(LENT);
    event.server_name = Some(CowStr::Borrowed(LENT));
    event.release = Some(CowStr::Borrowed(LENT));
    event.dist = Some(CowStr::Borrowed(LENT));
    event.environment = Some(CowStr::Borrowed(LENT));
    if let Some(first) = event.fingerprint.first_mut() {
        *first = CowStr::Borrowed(LENT);
    }
    said_owned(alloc, event.into_owned(alloc))
}

// The same of a transaction.
fn owned_transaction(
    alloc: Global,
    mut transaction: Transaction<'static>,
) -> Result<Value, AllocError> {
    transaction.platform = CowStr::Borrowed(LENT);
    transaction.server_name = Some(CowStr::Borrowed(LENT));
    transaction.release = Some(CowStr::Borrowed(LENT));
    transaction.environment = Some(CowStr::Borrowed(LENT));
    said_owned(alloc, transaction.into_owned(alloc))
}

/// What is written of the event, or the span or the transaction, that a line shows, or what a call
/// makes of it.
pub fn of_event(alloc: Global, name: &str, line: &[u8]) -> Option<Result<Value, AllocError>> {
    Some(match name {
        "Event" => cloned_at(alloc, line, Event::clone),
        "Span" => cloned_at(alloc, line, Span::clone),
        "Transaction" => cloned_at(alloc, line, Transaction::clone),
        "Event::fmt" => printed::<Event<'static>>(alloc, line),
        "Span::fmt" => printed::<Span>(alloc, line),
        "Transaction::fmt" => printed::<Transaction<'static>>(alloc, line),
        "EnvelopeItem::event" => taken(alloc, by_line_at(alloc, line), said_event),
        "EnvelopeItem::transaction" => taken(alloc, by_line_at(alloc, line), said_transaction),
        "Event::into_owned" => taken(alloc, by_line_at(alloc, line), owned_event),
        "Transaction::into_owned" => taken(alloc, by_line_at(alloc, line), owned_transaction),
        _ => return None,
    })
}
