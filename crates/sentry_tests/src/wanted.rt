//! How a test asks the values that it makes, and how it fails.
//!
//! A value of a large type that is dropped where its scope ends costs a test many seconds of proof:
//! each of its fields is walked there. So tests hand such values to the generic calls here, which
//! drop them once for all types, or to `drop`.

use std::alloc::Global;
use std::test::Fail;

/// Fails where what is wanted doesn't hold.
pub(crate) fn wanted(holds: bool) -> Result<(), Fail> {
    if holds { Ok(()) } else { Err("not as wanted")? }
}

/// Whether a value was made, and is as asked.
pub(crate) fn holds<T: Drop, E: Drop, F: FnOnce(Global, &T) -> bool>(
    alloc: Global,
    made: Result<T, E>,
    ask: F,
) -> bool
    requires { F.IsAlwaysCallable ask }
{
    match made {
        Ok(value) => ask(alloc, &value),
        Err(_) => false,
    }
}

/// Whether a value was made, and the call that takes it answers yes.
pub(crate) fn taken<T: Drop, E: Drop, F: FnOnce(Global, T) -> bool>(
    alloc: Global,
    made: Result<T, E>,
    call: F,
) -> bool
    requires { F.IsAlwaysCallable call }
{
    match made {
        Ok(value) => call(alloc, value),
        Err(_) => false,
    }
}

/// Whether a value was made, and is this one.
pub(crate) fn is_same<T: PartialEq + Drop, E: Drop>(made: Result<T, E>, value: &T) -> bool {
    match made {
        Ok(made) => made == *value,
        Err(_) => false,
    }
}

/// Whether a call succeeded.
pub(crate) fn is_done<T: Drop, E: Drop>(answer: Result<T, E>) -> bool {
    answer.is_ok()
}

/// Whether a call found nothing.
pub(crate) fn is_none<T: Drop>(found: Option<T>) -> bool {
    found.is_none()
}

/// Whether a filter left nothing, and a count beside, unless an allocation failed.
pub(crate) fn told<T: Drop, E: Drop>(filtered: Result<(Option<T>, u64), E>) -> Option<(bool, u64)> {
    match filtered {
        Ok((left, count)) => Some((left.is_none(), count)),
        Err(_) => None,
    }
}
