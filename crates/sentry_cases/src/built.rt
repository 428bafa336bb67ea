//! Envelopes that items are added to.

use crate::asked::{is_copy, said_of, taken};
use crate::envelopes::{read, said_envelope};
use crate::filters::word_of;
use crate::form::{ids, now};
use crate::said::{as_tree, list, maybe_shown, text};
use sentry_types::Uuid;
use sentry_types::protocol::v7::{
    AddRefused, Attachment, Envelope, EnvelopeError, EnvelopeItem, EnvelopeItemIter, Event, Log,
    Metric, Moment, MonitorCheckIn, MonitorCheckInStatus, MonitorConfig, MonitorSchedule,
    ReplayRecording, Value,
};
use std::alloc::{AllocError, Global};

/// An empty envelope, the raw one of bytes, or the one that they spell.
pub fn begun(alloc: Global, word: &str, bytes: &[u8]) -> Result<Envelope, EnvelopeError> {
    match word {
        "new" => Ok(Envelope::new(alloc)),
        "default" => Ok(Envelope::default_in(alloc)),
        "raw" => Envelope::from_bytes_raw(bytes.to_vec(alloc)?),
        _ => read(alloc, bytes),
    }
}

// An attachment of these bytes and this name.
fn attachment(alloc: Global, buffer: &[u8], filename: &str) -> Result<EnvelopeItem, AllocError> {
    let buffer = buffer.to_vec(alloc)?;
    let filename = String::from_str(alloc, filename)?;
    let mut attachment = Attachment::default_in(alloc);
    attachment.buffer = buffer;
    attachment.filename = filename;
    Ok(EnvelopeItem::from(attachment))
}

// The id of the events and check-ins that are made here.
fn id() -> Uuid {
    Uuid::from_u128(0x22d00b3f_d1b1_4b5d_8d20_49d138cd8a9c)
}

// A schedule of a crontab expression.
fn schedule(alloc: Global) -> Result<MonitorSchedule, AllocError> {
    MonitorSchedule::from_crontab(alloc, "12 0 * * *")
        .ok()
        .ok_or(AllocError)
}

// A monitor with each of its fields.
fn monitor(alloc: Global) -> Result<MonitorConfig, AllocError> {
    let timezone = String::from_str(alloc, "UTC")?;
    Ok(MonitorConfig {
        schedule: schedule(alloc)?,
        checkin_margin: Some(5),
        max_runtime: Some(30),
        timezone: Some(timezone),
        failure_issue_threshold: Some(4),
        recovery_threshold: Some(7),
    })
}

// A check-in with each of its fields.
fn check_in(alloc: Global) -> Result<MonitorCheckIn, AllocError> {
    let monitor_slug = String::from_str(alloc, "my-monitor")?;
    let environment = String::from_str(alloc, "production")?;
    Ok(MonitorCheckIn {
        check_in_id: id(),
        monitor_slug,
        status: MonitorCheckInStatus::Ok,
        duration: Some(123),
        environment: Some(environment),
        monitor_config: Some(monitor(alloc)?),
    })
}

// A new event whose id and moment are set.
fn event(alloc: Global) -> Result<Event<'static>, AllocError> {
    let mut event = Event::new(alloc, Moment::new(0, 0).unwrap(), &mut ids())?;
    event.event_id = id();
    event.timestamp = now();
    Ok(event)
}

// An event as an item.
fn boxed(alloc: Global, event: Event<'static>) -> Result<EnvelopeItem, AllocError> {
    match EnvelopeItem::event(alloc, event) {
        Ok(item) => Ok(item),
        Err(event) => {
            drop(event);
            Err(AllocError)
        }
    }
}

// The item that a word names, or else a placeholder.
fn item_of(alloc: Global, word: &str) -> Result<EnvelopeItem, AllocError> {
    Ok(match word {
        "attachment" => attachment(alloc, b"helloworld", "")?,
        "check_in" => EnvelopeItem::from(check_in(alloc)?),
        "event" => boxed(alloc, event(alloc)?)?,
        "file" => attachment(alloc, b"some content", "file.txt")?,
        "log" => EnvelopeItem::from(Vec::<Log>::new(alloc)),
        "replay_recording" => EnvelopeItem::from(ReplayRecording::default_in(alloc)),
        "trace_metric" => EnvelopeItem::from(Vec::<Metric>::new(alloc)),
        _ => EnvelopeItem::Raw,
    })
}

// The word of an item that a raw envelope hands back.
fn word_back(answer: Result<(), AddRefused>) -> Result<Option<&'static str>, AllocError> {
    match answer {
        Ok(()) => Ok(None),
        Err(AddRefused::RawEnvelope(item)) => {
            let word = word_of(&item);
            drop(item);
            Ok(Some(word))
        }
        Err(AddRefused::Memory(item)) => {
            drop(item);
            Err(AllocError)
        }
    }
}

// The words of the items that are handed back.
fn add_all(alloc: Global, envelope: &mut Envelope, words: &str) -> Result<Value, AllocError> {
    let mut back = Vec::new(alloc);
    for word in words.split(' ') {
        if word.is_empty() {
            continue;
        }
        let item = item_of(alloc, word)?;
        if let Some(word) = word_back(envelope.add_item(item))? {
            back.push(text(alloc, word)?)?;
        }
    }
    Ok(Value::from(back))
}

fn said_words(alloc: Global, items: EnvelopeItemIter<'_>) -> Result<Value, AllocError> {
    let mut words = Vec::new(alloc);
    for item in items {
        words.push(text(alloc, word_of(item))?)?;
    }
    Ok(Value::from(words))
}

// The words of an envelope's items, by a clone of the iterator over them.
fn said_items(alloc: Global, envelope: &Envelope) -> Result<Value, AllocError> {
    said_words(alloc, envelope.items().clone()?)
}

// How many items an envelope is taken apart into.
fn said_count(_alloc: Global, envelope: Envelope) -> Result<Value, AllocError> {
    as_tree(envelope.into_items().count() as u64)
}

// The id of an envelope's header, and that of its first event.
fn said_ids(alloc: Global, envelope: &Envelope) -> Result<Value, AllocError> {
    let event = match envelope.event() {
        Some(event) => Some(event.event_id),
        None => None,
    };
    let fields = [
        maybe_shown(alloc, envelope.uuid().copied()),
        maybe_shown(alloc, event),
    ];
    list(alloc, fields)
}

// Whether an envelope and its items are their clones, and the items' normal forms are those of the
// envelope's normal form, which has no placeholders.
fn are_copied(alloc: Global, envelope: &Envelope, normal: &Envelope) -> Result<bool, AllocError> {
    let mut others = normal.items();
    for item in envelope.items() {
        if !is_copy(item.clone(), item)? {
            return Ok(false);
        }
        if item.kind().is_none() {
            continue;
        }
        let Some(other) = others.next() else {
            return Ok(false);
        };
        if !is_copy(item.normalized(alloc), other)? {
            return Ok(false);
        }
    }
    Ok(others.next().is_none() && is_copy(envelope.clone(), envelope)?)
}

// The same, said of an envelope.
fn said_copied(alloc: Global, envelope: &Envelope) -> Result<Value, AllocError> {
    said_of(
        alloc,
        envelope.normalized(),
        |alloc: Global, normal: &Envelope| {
            Ok(Value::from(are_copied(alloc, envelope, normal)?))
        },
    )
}

// The text of an envelope, its ids and the words of its items, those of its normal form, whether it
// and its items are their copies, and how many items its clone is taken apart into.
fn said_whole(alloc: Global, envelope: &Envelope) -> Result<Value, AllocError> {
    let fields = [
        said_envelope(alloc, envelope),
        said_ids(alloc, envelope),
        said_items(alloc, envelope),
        said_of(alloc, envelope.normalized(), said_items),
        said_copied(alloc, envelope),
        taken(alloc, envelope.clone(), said_count),
    ];
    list(alloc, fields)
}

fn said_built(alloc: Global, mut envelope: Envelope, words: &str) -> Result<Value, AllocError> {
    let back = add_all(alloc, &mut envelope, words);
    let told = list(alloc, [said_whole(alloc, &envelope), back]);
    drop(envelope);
    told
}

/// What an envelope is that some items were added to, and the words of those that it hands back.
/// The first word tells which envelope they are added to, and the others name the items.
pub fn of_built(alloc: Global, words: &str, bytes: &[u8]) -> Result<Value, AllocError> {
    let (first, words) = words.split_once(' ').unwrap_or((words, ""));
    taken(
        alloc,
        begun(alloc, first, bytes),
        |alloc: Global, envelope: Envelope| { said_built(alloc, envelope, words) },
    )
}
