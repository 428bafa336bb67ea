//! Answers, as trees of JSON: a list of what was read, or the text of a refusal after `!`.

use sentry_types::protocol::v7::{Member, Value};
use std::alloc::{AllocError, Global};
use std::fmt::{Debug, Display};
use std::str::FromStr;

/// A list of fields, if each was made.
pub fn list<const N: usize>(
    alloc: Global,
    fields: [Result<Value, AllocError>; N],
) -> Result<Value, AllocError> {
    let mut items = Vec::new(alloc);
    for field in Vec::from_array(alloc, fields)? {
        items.push(field?)?;
    }
    Ok(Value::from(items))
}

/// A text that was made.
pub fn owned(made: Result<String, AllocError>) -> Result<Value, AllocError> {
    Ok(Value::from(made?))
}

/// A number, a truth value, a text or a list, as a tree.
pub fn as_tree<T: Into<Value>>(value: T) -> Result<Value, AllocError> {
    Ok(value.into())
}

/// The tree that a value writes.
pub fn tree<T: Member>(alloc: Global, value: &T) -> Result<Value, AllocError> {
    value.to_tree(alloc)
}

/// The `Debug` text of a value.
pub fn debug<T: Debug>(alloc: Global, value: &T) -> Result<Value, AllocError> {
    owned(format!(in alloc; "{value:?}"))
}

/// What a value prints.
pub fn shown<T: Display>(alloc: Global, value: &T) -> Result<Value, AllocError> {
    owned(value.to_string(alloc))
}

pub fn text(alloc: Global, text: &str) -> Result<Value, AllocError> {
    Value::try_from_str(alloc, text)
}

/// A text, or null.
pub fn maybe(alloc: Global, found: Option<&str>) -> Result<Value, AllocError> {
    match found {
        Some(found) => text(alloc, found),
        None => Ok(Value::Null),
    }
}

/// What a value prints, or null.
pub fn maybe_shown<T: Display + Drop>(
    alloc: Global,
    found: Option<T>,
) -> Result<Value, AllocError> {
    match found {
        Some(found) => shown(alloc, &found),
        None => Ok(Value::Null),
    }
}

/// What a refusal prints, after `!`. A failed allocation is no answer.
pub fn refused<E: Display>(alloc: Global, error: &E) -> Result<Value, AllocError> {
    let told = format!(in alloc; "!{error}")?;
    match told.as_str() {
        "!out of memory" | "!memory allocation failed" => Err(AllocError),
        _ => Ok(Value::from(told)),
    }
}

/// The answer to a name that asks for nothing.
pub fn unknown(alloc: Global) -> Result<Value, AllocError> {
    text(alloc, "unknown")
}

/// The answer to a name, if it asks for something.
pub fn known(
    alloc: Global,
    answer: Option<Result<Value, AllocError>>,
) -> Result<Value, AllocError> {
    answer.unwrap_or_else(|| unknown(alloc))
}

/// The answer where nothing is found.
pub fn none(alloc: Global) -> Result<Value, AllocError> {
    text(alloc, "!")
}

/// What the value of a text prints.
pub fn printed<T: FromStr + Display + Drop>(alloc: Global, given: &str) -> Result<Value, AllocError>
where
    T::Err: Display + Drop,
{
    match given.parse::<T>() {
        Ok(value) => list(alloc, [shown(alloc, &value)]),
        Err(error) => refused(alloc, &error),
    }
}
