//! Questions about values that were made.
//!
//! A value of a large type that is dropped where its scope ends costs many seconds of proof: each
//! of its fields is walked there. So such values are handed to the generic calls here, which drop
//! them once for all types, or to `drop`.

use crate::said::refused;
use sentry_types::protocol::v7::{Member, Value};
use std::alloc::{AllocError, Global};
use std::fmt::Display;

/// Whether a value was made, and is as asked.
pub fn holds<T: Drop, E: Drop, F: FnOnce(&T) -> bool>(made: Result<T, E>, ask: F) -> bool
    requires { F.IsAlwaysCallable ask }
{
    match made {
        Ok(value) => ask(&value),
        Err(_) => false,
    }
}

/// Whether a value was made, and is this one.
pub fn is_same<T: PartialEq + Drop, E: Drop>(made: Result<T, E>, value: &T) -> bool {
    match made {
        Ok(made) => made == *value,
        Err(_) => false,
    }
}

/// Whether a copy that was made is the value.
pub fn is_copy<T: PartialEq + Drop>(
    copy: Result<T, AllocError>,
    value: &T,
) -> Result<bool, AllocError> {
    Ok(copy? == *value)
}

/// What is said of a copy that was made: whether it is the value.
pub fn said_same<T: PartialEq + Drop>(
    copy: Result<T, AllocError>,
    value: &T,
) -> Result<Value, AllocError> {
    Ok(Value::from(is_copy(copy, value)?))
}

/// What is said of a value that was made, or why none was.
pub fn said_of<T: Drop, E: Display + Drop, F: FnOnce(Global, &T) -> Result<Value, AllocError>>(
    alloc: Global,
    made: Result<T, E>,
    say: F,
) -> Result<Value, AllocError>
    requires { F.IsAlwaysCallable say }
{
    match made {
        Ok(value) => say(alloc, &value),
        Err(error) => refused(alloc, &error),
    }
}

/// The tree that a value writes.
pub fn said_own<T: Member>(alloc: Global, value: T) -> Result<Value, AllocError> {
    let told = value.to_tree(alloc);
    drop(value);
    told
}

/// What a call makes of a value that was made, or why none was.
pub fn taken<T: Drop, E: Display + Drop, F: FnOnce(Global, T) -> Result<Value, AllocError>>(
    alloc: Global,
    made: Result<T, E>,
    call: F,
) -> Result<Value, AllocError>
    requires { F.IsAlwaysCallable call }
{
    match made {
        Ok(value) => call(alloc, value),
        Err(error) => refused(alloc, &error),
    }
}
