//! A client: it builds an event with what was around it, and an envelope that is queued as a file.

use crate::envelopes::is_text;
use crate::wanted::wanted;
use rand_pcg::Pcg32;
use sentry_types::Dsn;
use sentry_types::protocol::v7::{
    AddRefused, Attachment, Breadcrumb, Context, Envelope, EnvelopeHeaders, EnvelopeItem, Event,
    Level, Map, Moment, OsContext, Values,
};
use std::alloc::{AllocError, Global};
use std::test::Fail;

/// Returns the breadcrumbs: a document was opened.
fn opened(alloc: Global, now: Moment) -> Result<Values<Breadcrumb>, AllocError> {
    let mut breadcrumb = Breadcrumb::new(alloc, now)?;
    breadcrumb.message = Some(String::from_str(alloc, "document opened")?);
    let mut trail = Vec::new(alloc);
    trail.push(breadcrumb)?;
    Ok(Values::from(trail))
}

/// Returns the contexts: the operating system.
fn system(alloc: Global, name: &str) -> Result<Map<String, Context>, AllocError> {
    let mut system = OsContext::default_in(alloc);
    system.name = Some(String::from_str(alloc, name)?);
    let system = Context::os(alloc, system).map_err(|_| AllocError)?;
    let mut contexts = Map::new(alloc);
    drop(contexts.insert(String::from_str(alloc, "os")?, system)?);
    Ok(contexts)
}

/// Returns an event for a panic, with what was around it.
fn panicked(
    alloc: Global,
    now: Moment,
    ids: &mut Pcg32,
    message: String,
) -> Result<Event<'static>, AllocError> {
    let (breadcrumbs, contexts) = (opened(alloc, now)?, system(alloc, "linux")?);
    let mut event = Event::new(alloc, now, ids)?;
    event.level = Level::Fatal;
    event.message = Some(message);
    event.breadcrumbs = breadcrumbs;
    event.contexts = contexts;
    Ok(event)
}

/// Returns an attachment of a log file's bytes.
fn log_file(alloc: Global, bytes: &[u8]) -> Result<EnvelopeItem, AllocError> {
    let mut attachment = Attachment::default_in(alloc);
    attachment.filename.push_str("app.log")?;
    attachment.buffer.extend_from_slice(bytes)?;
    Ok(EnvelopeItem::from(attachment))
}

/// Returns an envelope without items for a DSN, to be sent at `now`.
fn addressed(alloc: Global, dsn: Dsn, now: Moment) -> Envelope {
    let headers = EnvelopeHeaders::new().with_dsn(dsn).with_sent_at(now);
    Envelope::new(alloc).with_headers(headers)
}

/// Appends an event and an attachment.
fn add_both(
    envelope: &mut Envelope,
    event: EnvelopeItem,
    attachment: EnvelopeItem,
) -> Result<(), AddRefused> {
    envelope.add_item(event)?;
    envelope.add_item(attachment)
}

/// Returns the item of a panic's event.
fn panic_item(alloc: Global, now: Moment) -> Result<EnvelopeItem, AllocError> {
    let mut ids = Pcg32::new(42, 54);
    let message = String::from_str(alloc, "index out of bounds")?;
    match EnvelopeItem::event(alloc, panicked(alloc, now, &mut ids, message)?) {
        Ok(item) => Ok(item),
        Err(_) => Err(AllocError),
    }
}

/// Returns the envelope of a panic.
fn report(alloc: Global, dsn: Dsn, now: Moment) -> Result<Envelope, AllocError> {
    let event = panic_item(alloc, now)?;
    let file = log_file(alloc, b"opened\n")?;
    let mut envelope = addressed(alloc, dsn, now);
    match add_both(&mut envelope, event, file) {
        Ok(()) => Ok(envelope),
        Err(_) => Err(AllocError),
    }
}

/// The report: the event's id is the first one of the generator, and the header's.
const REPORT: &str = concat!(
    "{\"dsn\":\"https://key:@sentry.io/1\",\"event_id\":\"b7025ca1-09f4-477b-b033-1dba93f2d283\",",
    "\"sent_at\":\"2020-07-20T14:51:14Z\"}\n{\"length\":245,\"type\":\"event\"}\n",
    "{\"breadcrumbs\":{\"values\":[{\"message\":\"document opened\",\"timestamp\":1595256674}]},",
    "\"contexts\":{\"os\":{\"name\":\"linux\",\"type\":\"os\"}},\"event_id\":\"b7025ca109f4477bb0331dba93f2d283\",",
    "\"level\":\"fatal\",\"message\":\"index out of bounds\",\"timestamp\":1595256674}\n",
    "{\"attachment_type\":\"event.attachment\",\"content_type\":\"application/octet-stream\",",
    "\"filename\":\"app.log\",\"length\":7,\"type\":\"attachment\"}\nopened\n\n"
);

#[test]
fn a_panic_is_reported(rt: HostRuntime) -> Result<(), Fail> {
    let alloc = rt.alloc();
    let now = Moment::new(1_595_256_674, 0).ok_or("moment")?;
    let dsn = Dsn::from_str(alloc, "https://key@sentry.io/1")?;
    wanted(is_text(alloc, report(alloc, dsn, now), REPORT))
}
