//! Parts of messages that lines of JSON show.

use crate::asked::{said_own, taken};
use crate::form::{by_tree, cloned, cloned_at};
use sentry_types::protocol::v7::{
    AppleDebugImage, Breadcrumb, CError, DebugImage, DebugMeta, Exception, Frame, LogEntry,
    MachException, Mechanism, MechanismMeta, PosixSignal, ProguardDebugImage, Request, Stacktrace,
    SymbolicDebugImage, SystemSdkInfo, TemplateInfo, Thread, ThreadId, User, Value, Values,
    WasmDebugImage,
};
use std::alloc::{AllocError, Global};

// What the stack trace of some frames in reverse writes; null where there is none.
fn of_reversed(alloc: Global, frames: Vec<Frame>) -> Result<Value, AllocError> {
    match Stacktrace::from_frames_reversed(frames) {
        Some(trace) => said_own(alloc, trace),
        None => Ok(Value::Null),
    }
}

fn of_trace(alloc: Global, name: &str, line: &[u8]) -> Option<Result<Value, AllocError>> {
    Some(match name {
        "LogEntry" => cloned(alloc, line, LogEntry::clone),
        "Frame" => cloned(alloc, line, Frame::clone),
        "TemplateInfo" => cloned(alloc, line, TemplateInfo::clone),
        "Stacktrace" => cloned(alloc, line, Stacktrace::clone),
        "Stacktrace::from_frames_reversed" => taken(alloc, by_tree(alloc, line), of_reversed),
        "ThreadId" => cloned(alloc, line, ThreadId::clone),
        "Thread" => cloned(alloc, line, Thread::clone),
        "Values<Thread>" => cloned(alloc, line, Values::<Thread>::clone),
        _ => return None,
    })
}

fn of_exception(alloc: Global, name: &str, line: &[u8]) -> Option<Result<Value, AllocError>> {
    Some(match name {
        "CError" => cloned(alloc, line, CError::clone),
        "MachException" => cloned(alloc, line, MachException::clone),
        "PosixSignal" => cloned(alloc, line, PosixSignal::clone),
        "MechanismMeta" => cloned(alloc, line, MechanismMeta::clone),
        "Mechanism" => cloned(alloc, line, Mechanism::clone),
        "Exception" => cloned(alloc, line, Exception::clone),
        "Values<Exception>" => cloned(alloc, line, Values::<Exception>::clone),
        _ => return None,
    })
}

fn of_user(alloc: Global, name: &str, line: &[u8]) -> Option<Result<Value, AllocError>> {
    Some(match name {
        "Breadcrumb" => cloned_at(alloc, line, Breadcrumb::clone),
        "Values<Breadcrumb>" => cloned_at(alloc, line, Values::<Breadcrumb>::clone),
        "User" => cloned(alloc, line, User::clone),
        "Request" => cloned(alloc, line, Request::clone),
        _ => return None,
    })
}

fn of_image(alloc: Global, name: &str, line: &[u8]) -> Option<Result<Value, AllocError>> {
    Some(match name {
        "SystemSdkInfo" => cloned(alloc, line, SystemSdkInfo::clone),
        "AppleDebugImage" => cloned(alloc, line, AppleDebugImage::clone),
        "SymbolicDebugImage" => cloned(alloc, line, SymbolicDebugImage::clone),
        "ProguardDebugImage" => cloned(alloc, line, ProguardDebugImage::clone),
        "WasmDebugImage" => cloned(alloc, line, WasmDebugImage::clone),
        "DebugImage" => cloned(alloc, line, DebugImage::clone),
        "DebugMeta" => cloned(alloc, line, DebugMeta::clone),
        _ => return None,
    })
}

/// What is written of the part of a message that a line shows.
pub fn of_part(alloc: Global, name: &str, line: &[u8]) -> Option<Result<Value, AllocError>> {
    of_trace(alloc, name, line)
        .or_else(|| of_exception(alloc, name, line))
        .or_else(|| of_user(alloc, name, line))
        .or_else(|| of_image(alloc, name, line))
}
