//! How the program ends: exit statuses and messages.

use crate::args::{Reason, Wrong};
use crate::check::{framing_line, refusal_lines};
use sentry_framing::EnvelopeError;
use sentry_framing::sending::SendFailed;
use sentry_show::screen::push_visible;
use std::alloc::{AllocError, AllocFailed, Global};
use std::io;

/// Why a command failed.
#[derive(Debug, Drop)]
pub enum Failure<'a> {
    /// The input is refused: lines that tell why.
    Refused(Vec<u8>),
    /// The file isn't base64.
    NotBase64(&'a str),
    /// The envelope has no item of this number.
    NoItem(usize),
    /// An argument isn't UTF-8.
    Words,
    /// The file, or standard input (`-`), can't be read.
    Read(&'a str, io::Error),
    /// An allocation failed.
    Memory,
    /// A write failed.
    Write,
}

impl From<AllocError> for Failure<'_> {
    fn from(_: AllocError) -> Self {
        Failure::Memory
    }
}

impl<T: Drop> From<AllocFailed<T>> for Failure<'_> {
    fn from(_: AllocFailed<T>) -> Self {
        Failure::Memory
    }
}

impl From<SendFailed> for Failure<'_> {
    fn from(_: SendFailed) -> Self {
        Failure::Write
    }
}

impl<'a> Failure<'a> {
    // Returns the failure with lines that tell why the input is refused.
    fn told(lines: Result<Vec<u8>, AllocError>) -> Failure<'a> {
        match lines {
            Ok(lines) => Failure::Refused(lines),
            Err(_) => Failure::Memory,
        }
    }

    /// Returns the failure for an envelope that is refused with this error: a line for each fault.
    pub fn refused(alloc: Global, path: &str, bytes: &[u8], error: &EnvelopeError) -> Failure<'a> {
        match error {
            EnvelopeError::OutOfMemory => Failure::Memory,
            _ => Failure::told(refusal_lines(alloc, path, bytes)),
        }
    }

    /// Returns the failure for an envelope that can't be split into items, with this error: the line
    /// of that fault.
    pub fn unframed(alloc: Global, path: &str, bytes: &[u8], error: &EnvelopeError) -> Failure<'a> {
        match error {
            EnvelopeError::OutOfMemory => Failure::Memory,
            _ => Failure::told(framing_line(alloc, path, bytes)),
        }
    }
}

/// Returns the exit status of a failure.
pub fn status_of(failure: &Failure<'_>) -> u8 {
    match failure {
        Failure::NoItem(_) => 1,
        Failure::Refused(_) | Failure::NotBase64(_) => 2,
        Failure::Words => 3,
        Failure::Read(_, _) | Failure::Memory | Failure::Write => 4,
    }
}

/// Returns the message of a failure, in lines. `AllocError` if an allocation fails.
pub fn failure_text(alloc: Global, failure: &Failure<'_>) -> Result<Vec<u8>, AllocError> {
    let text = match failure {
        Failure::Refused(lines) => return Vec::from_slice(alloc, lines),
        Failure::NotBase64(path) => file_text(alloc, *path, "isn't base64")?,
        Failure::NoItem(number) => format!(in alloc; "curdmesa: no item {number}\n")?,
        Failure::Words => String::from_str(alloc, "curdmesa: an argument isn't UTF-8\n")?,
        Failure::Read(path, error) => file_text(alloc, *path, &format!(in alloc; "{error}")?)?,
        Failure::Memory => String::from_str(alloc, "curdmesa: out of memory\n")?,
        Failure::Write => String::from_str(alloc, "curdmesa: write failed\n")?,
    };
    Ok(text.into_bytes())
}

// The message for a file.
fn file_text(alloc: Global, path: &str, why: &str) -> Result<String, AllocError> {
    let mut text = String::from_str(alloc, "curdmesa: ")?;
    push_visible(&mut text, path)?;
    writeln!(text, ": {why}")?;
    Ok(text)
}

fn reason_text(reason: Reason) -> &'static str {
    match reason {
        Reason::NoCommand => "no command",
        Reason::UnknownCommand => "no such command: ",
        Reason::UnknownOption => "no such option: ",
        Reason::NoValue => "no value behind ",
        Reason::UnneededValue => "no value is taken by ",
        Reason::NoNumber => "not a number: ",
        Reason::NumberZero => "items are numbered from 1, not ",
        Reason::NoColor => "--color takes always, never or auto, not ",
        Reason::SecondFile => "one file is read, and this is a second: ",
        Reason::NoFile => "files stand behind --event or --attachment, not alone: ",
        Reason::NoItemNumber => "the number of the item is missing: -n N",
        Reason::NoPart => "nothing to make an envelope of: --event FILE or --attachment FILE",
    }
}

/// Returns the message of a usage error, with the call that tells more. `AllocError` if an
/// allocation fails.
pub fn wrong_text(alloc: Global, wrong: &Wrong<'_>) -> Result<String, AllocError> {
    let mut text = String::from_str(alloc, "curdmesa: ")?;
    text.push_str(reason_text(wrong.reason))?;
    push_visible(&mut text, wrong.word)?;
    text.push_str("\ntry: curdmesa ")?;
    if let Some(command) = wrong.command {
        text.push_str(command.name())?;
        text.push(' ')?;
    }
    text.push_str("--help\n")?;
    Ok(text)
}
