//! Contexts that lines of JSON show.

use crate::form::{by_tree, by_tree_at, cloned, cloned_at, form_at};
use crate::said::{list, refused, text};
use sentry_types::protocol::v7::{
    AppContext, AsCaseMap, BrowserContext, Context, DeviceContext, GpuContext, Map, Member,
    OsContext, OtelContext, ResponseContext, RuntimeContext, TraceContext, TreeError, Value,
};
use std::alloc::{AllocError, Global};

// The type and the tree of a context.
fn said_context(alloc: Global, context: &Context) -> Result<Value, AllocError> {
    list(
        alloc,
        [text(alloc, context.type_name()), context.to_tree(alloc)],
    )
}

// The type and the tree of a context that is made of its struct.
fn boxed<T: Drop, C: FnOnce(Global, T) -> Result<Context, T>>(
    alloc: Global,
    read: Result<T, TreeError>,
    boxing: C,
) -> Result<Value, AllocError>
    requires { C.IsAlwaysCallable boxing }
{
    match read {
        Ok(value) => match boxing(alloc, value) {
            Ok(context) => {
                let told = said_context(alloc, &context);
                drop(context);
                told
            }
            Err(back) => {
                drop(back);
                text(alloc, "handed back")
            }
        },
        Err(error) => refused(alloc, &error),
    }
}

// What a call that makes a context of a struct makes of what a line shows.
fn of_boxing(alloc: Global, name: &str, line: &[u8]) -> Option<Result<Value, AllocError>> {
    Some(match name {
        "Context::device" => boxed(alloc, by_tree(alloc, line), Context::device),
        "Context::os" => boxed(alloc, by_tree(alloc, line), Context::os),
        "Context::runtime" => boxed(alloc, by_tree(alloc, line), Context::runtime),
        "Context::app" => boxed(alloc, by_tree(alloc, line), Context::app),
        "Context::browser" => boxed(alloc, by_tree(alloc, line), Context::browser),
        "Context::trace" => boxed(alloc, by_tree_at(alloc, line), Context::trace),
        "Context::gpu" => boxed(alloc, by_tree(alloc, line), Context::gpu),
        "Context::otel" => boxed(alloc, by_tree(alloc, line), Context::otel),
        "Context::response" => boxed(alloc, by_tree(alloc, line), Context::response),
        _ => return None,
    })
}

fn of_system(alloc: Global, name: &str, line: &[u8]) -> Option<Result<Value, AllocError>> {
    Some(match name {
        "DeviceContext" => cloned(alloc, line, DeviceContext::clone),
        "OsContext" => cloned(alloc, line, OsContext::clone),
        "RuntimeContext" => cloned(alloc, line, RuntimeContext::clone),
        "AppContext" => cloned(alloc, line, AppContext::clone),
        "BrowserContext" => cloned(alloc, line, BrowserContext::clone),
        "GpuContext" => cloned(alloc, line, GpuContext::clone),
        _ => return None,
    })
}

fn of_case(alloc: Global, name: &str, line: &[u8]) -> Option<Result<Value, AllocError>> {
    Some(match name {
        "OtelContext" => cloned(alloc, line, OtelContext::clone),
        "ResponseContext" => cloned(alloc, line, ResponseContext::clone),
        "TraceContext" => cloned_at(alloc, line, TraceContext::clone),
        "Context" => cloned_at(alloc, line, Context::clone),
        "Map<String, Context>" => form_at::<AsCaseMap, Map<String, Context>>(alloc, line),
        _ => return None,
    })
}

/// What is written of the context, or the map of contexts, that a line shows.
pub fn of_context(alloc: Global, name: &str, line: &[u8]) -> Option<Result<Value, AllocError>> {
    of_system(alloc, name, line)
        .or_else(|| of_boxing(alloc, name, line))
        .or_else(|| of_case(alloc, name, line))
}
