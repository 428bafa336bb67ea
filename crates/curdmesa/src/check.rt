//! The commands `check` and `show`.

ghost use Rattle.std.specs.Prelude.{◌≡◌, ◌≢◌, ◌↔◌, IfOk, IsTrue};
ghost use Rattle.sentry_show.specs.Verdicts.{IsAccepted};

use sentry_show::{Shown, check, show_json, show_text};
use std::alloc::{AllocError, Global};

/// What is printed of an envelope, and the exit status.
#[derive(Drop)]
pub struct Answer {
    /// UTF-8 text.
    pub text: Vec<u8>,
    /// The exit status.
    pub status: u8,
}

// Returns the status 0 if an envelope is accepted, and else the one for a refusal.
fn status(accepted: bool, refused: u8) -> u8
    requires { refused ≢ 0 }
    ensures { (result ≡ 0) ↔ IsTrue accepted }
{
    if accepted { 0 } else { refused }
}

/// Returns the lines for a file of this name, and the status: 0 if `Envelope::from_slice` accepts
/// the bytes, else 1.
///
/// # Errors
///
/// `AllocError` if an allocation fails, or if a URL would take 4 GB.
pub fn check_envelope(alloc: Global, name: &str, bytes: &[u8]) -> Result<Answer, AllocError>
    ensures { IfOk result (λ answer. (answer.status ≡ 0) ↔ IsAccepted bytes.now) }
{
    let shown = check(alloc, name, bytes)?;
    Ok(Answer {
        status: status(shown.accepted, 1),
        text: shown.text,
    })
}

/// Returns the lines that tell why an envelope of this file is refused, one for each fault.
///
/// # Errors
///
/// `AllocError` if an allocation fails, or if a URL would take 4 GB.
pub fn refusal_lines(alloc: Global, path: &str, bytes: &[u8]) -> Result<Vec<u8>, AllocError> {
    let name = format!(in alloc; "curdmesa: {path}")?;
    let shown = check(alloc, &name, bytes)?;
    Ok(shown.text)
}

/// Returns the line that tells why an envelope of this file can't be split into items: that of its
/// last fault, behind which no item is found.
///
/// # Errors
///
/// `AllocError` if an allocation fails, or if a URL would take 4 GB.
pub fn framing_line(alloc: Global, path: &str, bytes: &[u8]) -> Result<Vec<u8>, AllocError> {
    let lines = refusal_lines(alloc, path, bytes)?;
    Vec::from_slice(alloc, last_line(&lines))
}

// Returns the last of some lines, each with a line feed behind it.
fn last_line(lines: &[u8]) -> &[u8] {
    let Some((_, inside)) = lines.split_last() else {
        return lines;
    };
    match inside.iter().rposition(|byte| *byte == b'\n') {
        Some(end) => &lines[end + 1..],
        None => lines,
    }
}

/// Returns the status for several files: the highest of theirs.
pub fn status_of_both(first: u8, second: u8) -> u8
    ensures { (result ≡ 0) ↔ ((first ≡ 0) × (second ≡ 0)) }
{
    first.max(second)
}

// Returns what is shown of an envelope, with a line feed at the end.
fn shown(alloc: Global, bytes: &[u8], json: bool, colors: bool) -> Result<Shown, AllocError>
    ensures { IfOk result (λ shown. IsTrue shown.accepted ↔ IsAccepted bytes.now) }
{
    if !json {
        let shown = show_text(alloc, bytes, colors)?;
        return Ok(shown);
    }
    let mut shown = show_json(alloc, bytes)?;
    shown.text.push(b'\n')?;
    Ok(shown)
}

/// Returns the text or the JSON document that shows an envelope, and the status: 0 if
/// `Envelope::from_slice` accepts the bytes, else 2.
///
/// # Errors
///
/// `AllocError` if an allocation fails, or if a URL would take 4 GB.
pub fn show_envelope(
    alloc: Global,
    bytes: &[u8],
    json: bool,
    colors: bool,
) -> Result<Answer, AllocError>
    ensures { IfOk result (λ answer. (answer.status ≡ 0) ↔ IsAccepted bytes.now) }
{
    let shown = shown(alloc, bytes, json, colors)?;
    Ok(Answer {
        status: status(shown.accepted, 2),
        text: shown.text,
    })
}
