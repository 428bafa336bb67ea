//! Values that no line of JSON shows: they are made of parts.

use crate::asked::{said_of, said_own, said_same};
use crate::bytes::said_bytes;
use crate::envelopes::said_losses;
use crate::events::{said_event, said_fields};
use crate::form::{ids, now, written};
use crate::said::{as_tree, debug, list, refused, shown, text, tree, unknown};
use sentry_types::IndexedEnum;
use sentry_types::protocol::v7::{
    Attachment, AttachmentType, Breadcrumb, Category, Context, Event, FromTree, GpuContext, Item,
    Log, LogAttribute, LogLevel, Map, Member, Metric, Moment, OsContext, Own, Reason, Report, Span,
    SpanId, TraceContext, TraceId, Transaction, TreeError, Unit, User, Value, text_of,
};
use std::alloc::{AllocError, Global};
use std::borrow::CowStr;
use std::mem::replace;

// The text of the normal form of an attachment.
fn said_normal(alloc: Global, attachment: &Attachment) -> Result<Value, AllocError> {
    let mut out = Vec::new(alloc);
    match attachment.to_writer(alloc, &mut out) {
        Ok(()) => said_bytes(alloc, &out),
        Err(_) => text(alloc, "not written"),
    }
}

// The text of an attachment behind what the writer had, its `Debug` text, whether it is plain, and
// the text of its normal form.
fn said_attachment(alloc: Global, attachment: &Attachment) -> Result<Value, AllocError> {
    let mut out = Vec::from_slice(alloc, b"before ")?;
    if attachment.to_writer(alloc, &mut out).is_err() {
        return text(alloc, "not written");
    }
    let fields = [
        said_bytes(alloc, &out),
        debug(alloc, attachment),
        as_tree(attachment.is_plain()),
        said_of(alloc, attachment.normalized(), said_normal),
    ];
    list(alloc, fields)
}

// The text of a string; of another tree there is none.
fn maybe(alloc: Global, tree: &Value) -> Result<Option<String>, AllocError> {
    match tree.as_str() {
        Some(text) => Ok(Some(String::from_str(alloc, text)?)),
        None => Ok(None),
    }
}

// The type of attachments that a text names; of another tree there is none.
fn type_of(alloc: Global, tree: &Value) -> Result<Option<AttachmentType>, AllocError> {
    match tree.as_str() {
        Some(text) => Ok(Some(AttachmentType::from_text(alloc, text)?)),
        None => Ok(None),
    }
}

// An attachment of its bytes, its content type, its name and the text of its type.
fn attachment_of(
    alloc: Global,
    buffer: &str,
    content_type: &Value,
    filename: &str,
    ty: &Value,
) -> Result<Attachment, AllocError> {
    let ty = type_of(alloc, ty)?;
    let content_type = maybe(alloc, content_type)?;
    Ok(Attachment {
        buffer: buffer.as_bytes().to_vec(alloc)?,
        filename: String::from_str(alloc, filename)?,
        content_type,
        ty,
    })
}

// What is said of the clone of an attachment.
fn said_clone(alloc: Global, attachment: &Attachment) -> Result<Value, AllocError> {
    said_of(alloc, attachment.clone(), said_attachment)
}

// Members of any type as attributes.
fn attributes(
    alloc: Global,
    members: &Map<String, Value>,
) -> Result<Map<String, LogAttribute>, AllocError> {
    let mut attributes = Map::new(alloc);
    for (key, value) in members.iter() {
        drop(attributes.insert(key.clone()?, LogAttribute(value.copy()?))?);
    }
    Ok(attributes)
}

// What a log writes, and what is lost with it.
fn said_log(alloc: Global, log: &Log) -> Result<Value, AllocError> {
    let written = said_of(alloc, log.clone(), |alloc: Global, copy: &Log| {
        written::<Own, Log>(alloc, log, copy)
    });
    list(alloc, [written, said_losses(alloc, log)])
}

// A log of this body and these attributes.
fn log_of(
    alloc: Global,
    body: &str,
    attributes: Map<String, LogAttribute>,
) -> Result<Log, AllocError> {
    let body = String::from_str(alloc, body)?;
    Ok(Log {
        level: LogLevel::Info,
        body,
        trace_id: None,
        timestamp: now(),
        severity_number: None,
        attributes,
    })
}

// What a log of this body and these members as attributes writes, and what is lost with it.
fn of_log(alloc: Global, body: &str, members: &Map<String, Value>) -> Result<Value, AllocError> {
    let attributes = attributes(alloc, members)?;
    said_of(alloc, log_of(alloc, body, attributes), said_log)
}

// So many arrays, each the one item of the next.
fn nested(alloc: Global, depth: u64) -> Result<Value, AllocError> {
    let mut tree = Value::Array(Vec::new(alloc));
    for _ in 1..depth {
        tree = list(alloc, [Ok(tree)])?;
    }
    Ok(tree)
}

// What a log writes whose attribute is so many nested arrays, and what is lost with it.
fn of_nested(alloc: Global, depth: u64) -> Result<Value, AllocError> {
    let attribute = LogAttribute(nested(alloc, depth)?);
    let attributes = one_entry(alloc, "deep", attribute)?;
    said_of(alloc, log_of(alloc, "", attributes), said_log)
}

// The sums of a report that are above 0: category, reason and sum.
fn said_sums(alloc: Global, report: &Report) -> Result<Value, AllocError> {
    let mut told = Vec::new(alloc);
    for category in Category::VARIANTS {
        for reason in Reason::VARIANTS {
            let sum = report.sum(*category, *reason);
            if sum > 0 {
                let names = (text(alloc, category.as_str()), text(alloc, reason.as_str()));
                told.push(list(alloc, [names.0, names.1, as_tree(sum)])?)?;
            }
        }
    }
    Ok(Value::from(told))
}

// An item of a report: category, reason and quantity.
fn item_of(alloc: Global, tree: &Value) -> Result<Item, TreeError> {
    let Value::Array(parts) = tree else {
        return Err(TreeError::Misfit);
    };
    let [category, reason, quantity] = parts.as_slice() else {
        return Err(TreeError::Misfit);
    };
    Ok(Item::new(
        Category::from_tree(alloc, category)?,
        Reason::from_tree(alloc, reason)?,
        u64::from_tree(alloc, quantity)?,
    ))
}

fn items_of(alloc: Global, trees: &[Value]) -> Result<Vec<Item>, TreeError> {
    let mut items = Vec::new(alloc);
    for tree in trees {
        items.push(item_of(alloc, tree)?)?;
    }
    Ok(items)
}

/// What a report of these items writes, its sums above 0, and what is lost with it.
pub fn of_report(alloc: Global, trees: &[Value]) -> Result<Value, AllocError> {
    let items = match items_of(alloc, trees) {
        Ok(items) => items,
        Err(error) => return refused(alloc, &error),
    };
    let report = Report::new(now(), items);
    let fields = [
        report.to_tree(alloc),
        said_sums(alloc, &report),
        said_losses(alloc, &report),
    ];
    list(alloc, fields)
}

/// What is made of some parts.
pub fn of_parts(alloc: Global, name: &str, parts: &[Value]) -> Option<Result<Value, AllocError>> {
    Some(match (name, parts) {
        (
            "Attachment",
            [
                Value::String(buffer),
                content_type,
                Value::String(filename),
                ty,
            ],
        ) => {
            let (buffer, filename) = (buffer.as_str(), filename.as_str());
            said_of(
                alloc,
                attachment_of(alloc, buffer, content_type, filename, ty),
                said_clone,
            )
        }
        ("Log", [Value::String(body), Value::Object(members)]) => {
            of_log(alloc, body.as_str(), members)
        }
        ("Log of nested arrays", [Value::Number(depth)]) => {
            of_nested(alloc, depth.as_u64().unwrap_or(0))
        }
        ("User with other members", [Value::String(id), Value::Object(members)]) => {
            of_user(alloc, id.as_str(), members)
        }
        ("Event whose user has another member", [Value::String(key)]) => {
            of_other_member(alloc, key.as_str())
        }
        ("Event whose context has another member", [Value::String(name), Value::String(key)]) =>
            of_other_context(alloc, name.as_str(), key.as_str()),
        ("Metric of another unit", [Value::String(unit), metric]) => {
            of_other_metric(alloc, unit.as_str(), metric)
        }
        ("Context with other members", [Value::String(name), Value::Object(members)]) => {
            of_members(alloc, name.as_str(), members)
        }
        ("Report::new", items) => of_report(alloc, items),
        _ => return None,
    })
}

// A map of one value, under this key.
fn one_entry<V: Drop>(alloc: Global, key: &str, value: V) -> Result<Map<String, V>, AllocError> {
    let mut entries = Map::new(alloc);
    drop(entries.insert(String::from_str(alloc, key)?, value)?);
    Ok(entries)
}

// The context of the operating system with other members.
fn system(alloc: Global, other: Map<String, Value>) -> Result<Context, OsContext> {
    let mut system = OsContext::default_in(alloc);
    drop(replace(&mut system.other, other));
    Context::os(alloc, system)
}

// The context of a graphics processor with other members.
fn processor(alloc: Global, other: Map<String, Value>) -> Result<Context, GpuContext> {
    let mut processor = GpuContext::default_in(alloc);
    drop(replace(&mut processor.other, other));
    Context::gpu(alloc, processor)
}

// A context of this type with other members.
fn context_of(alloc: Global, name: &str, other: Map<String, Value>) -> Result<Context, AllocError> {
    match name {
        "os" => system(alloc, other).ok().ok_or(AllocError),
        "gpu" => processor(alloc, other).ok().ok_or(AllocError),
        _ => Ok(Context::Other(other)),
    }
}

// The tree of a context, and whether it is plain.
fn said_context(alloc: Global, context: &Context) -> Result<Value, AllocError> {
    list(alloc, [context.to_tree(alloc), as_tree(context.is_plain())])
}

// What is said of a context of this type with other members.
fn of_members(
    alloc: Global,
    name: &str,
    members: &Map<String, Value>,
) -> Result<Value, AllocError> {
    let other = members.copy()?;
    said_of(alloc, context_of(alloc, name, other), said_context)
}

// A user with other members.
fn user_of(alloc: Global, other: Map<String, Value>) -> User {
    let mut user = User::default_in(alloc);
    drop(replace(&mut user.other, other));
    user
}

// The text that a user writes, its tree, and whether it is plain.
fn said_user(alloc: Global, user: &User) -> Result<Value, AllocError> {
    let line = text_of(alloc, user)?;
    list(
        alloc,
        [
            said_bytes(alloc, &line),
            user.to_tree(alloc),
            as_tree(user.is_plain()),
        ],
    )
}

// What is said of a user with an id and other members, which may have keys of fields.
fn of_user(alloc: Global, id: &str, members: &Map<String, Value>) -> Result<Value, AllocError> {
    let id = String::from_str(alloc, id)?;
    let mut user = user_of(alloc, members.copy()?);
    drop(user.id.replace(id));
    let told = said_user(alloc, &user);
    drop(user);
    told
}

// What is said of a value of its own, whose text may name another value: the tree that it writes,
// whether it is the value that is named, whether it is its clone, and whether its normal form is
// the value that is named.
fn said_beside<T: Member + PartialEq>(
    alloc: Global,
    custom: &T,
    named: &T,
) -> Result<Value, AllocError> {
    let fields = [
        custom.to_tree(alloc),
        as_tree(*custom == *named),
        said_same(custom.copy(), custom),
        said_same(custom.normal(alloc), named),
    ];
    list(alloc, fields)
}

/// What is said of the type of attachments that is `Custom` of a text.
pub fn of_custom(alloc: Global, given: &str) -> Result<Value, AllocError> {
    let custom = AttachmentType::Custom(String::from_str(alloc, given)?);
    let named = AttachmentType::from_text(alloc, given)?;
    said_beside(alloc, &custom, &named)
}

/// What is said of the unit that is `Other` of a text.
pub fn of_other_unit(alloc: Global, given: &str) -> Result<Value, AllocError> {
    let custom = Unit::Other(CowStr::Owned(String::from_str(alloc, given)?));
    let named = Unit::from(String::from_str(alloc, given)?);
    said_beside(alloc, &custom, &named)
}

// The tree that a value writes, and the tree that is written of the value which it shows.
fn said_again<T: FromTree + Member>(alloc: Global, value: T) -> Result<Value, AllocError> {
    let first = said_own(alloc, value)?;
    let second = said_of(alloc, T::from_tree(alloc, &first), tree);
    list(alloc, [Ok(first), second])
}

// What is written of the metric that a tree shows, with a unit that is `Other` of a text, and what
// is written of it once it was read.
fn of_other_metric(alloc: Global, unit: &str, shown: &Value) -> Result<Value, AllocError> {
    let unit = Unit::Other(CowStr::Owned(String::from_str(alloc, unit)?));
    match Metric::from_tree(alloc, shown) {
        Ok(mut metric) => {
            drop(metric.unit.replace(unit));
            said_again(alloc, metric)
        }
        Err(error) => {
            drop(unit);
            refused(alloc, &error)
        }
    }
}

// A transaction that began at a moment and has ended.
fn ended(alloc: Global, now: Moment) -> Transaction<'static> {
    let mut transaction = Transaction::new(alloc, now, &mut ids());
    transaction.finish(now);
    transaction
}

// The same whose end is set to second 5.
fn ended_early(alloc: Global, now: Moment) -> Transaction<'static> {
    let mut transaction = ended(alloc, now);
    transaction.finish_with_timestamp(Moment::new(5, 0).unwrap());
    transaction
}

// A span that began at a moment and has ended.
fn ended_span(alloc: Global, now: Moment) -> Span {
    let mut span = Span::new(alloc, now, &mut ids());
    span.finish(now);
    span
}

// The same whose end is set to second 5.
fn span_ended_early(alloc: Global, now: Moment) -> Span {
    let mut span = ended_span(alloc, now);
    span.finish_with_timestamp(Moment::new(5, 0).unwrap());
    span
}

/// What a new value of a type writes, made at the moment of reading.
pub fn of_new(alloc: Global, name: &str) -> Result<Value, AllocError> {
    let now = now();
    match name {
        "Breadcrumb" => said_of(alloc, Breadcrumb::new(alloc, now), tree),
        "Event" => said_of(alloc, new_event(alloc), tree),
        "Event, by its fields" => said_of(alloc, new_event(alloc), said_fields),
        "Span" => said_own(alloc, Span::new(alloc, now, &mut ids())),
        "Span, ended" => said_own(alloc, ended_span(alloc, now)),
        "Span, ended at second 5" => said_own(alloc, span_ended_early(alloc, now)),
        "SpanId::random" => shown(alloc, &SpanId::random(&mut ids())),
        "TraceId::random" => shown(alloc, &TraceId::random(&mut ids())),
        "TraceContext" => said_own(alloc, TraceContext::new(alloc, &mut ids())),
        "Transaction" => said_own(alloc, ended(alloc, now)),
        "Transaction, ended at second 5" => said_own(alloc, ended_early(alloc, now)),
        _ => unknown(alloc),
    }
}

// A new event.
fn new_event(alloc: Global) -> Result<Event<'static>, TreeError> {
    Ok(Event::new(alloc, now(), &mut ids())?)
}

// What is written of a new event with a user.
fn said_with_user(alloc: Global, user: User) -> Result<Value, AllocError> {
    match new_event(alloc) {
        Ok(mut event) => {
            drop(event.user.replace(user));
            said_event(alloc, event)
        }
        Err(error) => {
            drop(user);
            refused(alloc, &error)
        }
    }
}

// What is written of an event whose user has another member of this key.
fn of_other_member(alloc: Global, key: &str) -> Result<Value, AllocError> {
    let other = one_entry(alloc, key, Value::from(1u64))?;
    said_with_user(alloc, user_of(alloc, other))
}

// What is written of a new event with contexts.
fn said_with_contexts(alloc: Global, contexts: Map<String, Context>) -> Result<Value, AllocError> {
    match new_event(alloc) {
        Ok(mut event) => {
            drop(replace(&mut event.contexts, contexts));
            said_event(alloc, event)
        }
        Err(error) => {
            drop(contexts);
            refused(alloc, &error)
        }
    }
}

// What is written of an event whose context of a type has another member of this key.
fn of_other_context(alloc: Global, name: &str, key: &str) -> Result<Value, AllocError> {
    let other = one_entry(alloc, key, Value::from(1u64))?;
    let context = context_of(alloc, name, other)?;
    said_with_contexts(alloc, one_entry(alloc, name, context)?)
}
