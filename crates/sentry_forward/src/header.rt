//! Item headers of any type, and header lines.
ghost use Rattle.std.specs.Prelude.{◌≡◌, ◌⊎◌, false, true, Some, None, IfOk, IfErr, IfSome, OnOk};
ghost use Rattle.serde_json.specs.View.{view};
ghost use Rattle.sentry_tables.specs.Reading.{Only};
ghost use Rattle.sentry_forward.specs.AnyHeader.{any_header, is_object_line, json_of, typed_of};
ghost use Rattle.sentry_forward.specs.HeaderView.{any_view};

use bumpalo::Bump;
use sentry_framing::EnvelopeError;
use sentry_framing::header::optional_number;
use sentry_json::Node;
use sentry_tables::{LineReader, TreeError};
use serde_json::Value;
use std::alloc::Global;
use std::borrow::CowStr;

/// The fields of an item header that framing needs.
#[derive(Drop)]
pub struct AnyHeader<'a> {
    /// Item type (`type`), unescaped.
    pub word: CowStr<'a, Global>,
    /// Payload size in bytes; if `None`, the payload ends at the next line feed or the end.
    pub length: Option<u64>,
}

// Parses any line, with floats too.
#[tactic(auto, unfolding(crate::specs::AnyHeader::json_of))]
fn read_json(alloc: Global, line: &[u8]) -> Result<Value, TreeError>
    ensures ok { IfOk result (λ tree. json_of line.now ≡ Some (view tree)) }
    ensures err { IfErr result (λ e. Only e (json_of line.now ≡ None)) }
{
    match Value::from_slice(alloc, line) {
        Ok(tree) => Ok(tree),
        Err(error) if error.is_memory() => Err(TreeError::Memory),
        Err(_) => Err(TreeError::Misfit),
    }
}

// Reads the fields from a JSON node.
#[tactic(auto, unfolding(crate::specs::AnyHeader::typed_of))]
fn read_node<'a, N: Node>(alloc: Global, node: &N) -> Result<AnyHeader<'a>, TreeError>
    ensures ok { IfOk result (λ h. typed_of (N.data_of node.now) ≡ Some (any_view h)) }
    ensures err { IfErr result (λ e. Only e (typed_of (N.data_of node.now) ≡ None)) }
{
    let word = node.text_at("type").ok_or(TreeError::Misfit)?;
    let length = optional_number(&node.get("length"))?;
    let word = CowStr::Owned(String::from_str(alloc, word)?);
    Ok(AnyHeader { word, length })
}

// Reads the fields from a header that the tape doesn't serve.
#[cold]
#[inline(never)]
#[tactic(auto, unfolding(crate::specs::AnyHeader::any_header))]
fn read_as_tree<'a>(alloc: Global, header: &[u8]) -> Result<AnyHeader<'a>, TreeError>
    ensures ok { IfOk result (λ h. any_header header.now ≡ Some (any_view h)) }
    ensures err { IfErr result (λ e. Only e (any_header header.now ≡ None)) }
{
    let tree = read_json(alloc, header)?;
    read_node(alloc, &&tree)
}

// Reads the fields from any header.
#[inline(never)]
#[tactic(auto, using(crate::proofs::Headers::from_tree))]
fn read_any<'a>(alloc: Global, header: &[u8]) -> Result<AnyHeader<'a>, TreeError>
    ensures ok { IfOk result (λ h. any_header header.now ≡ Some (any_view h)) }
    ensures err { IfErr result (λ e. Only e (any_header header.now ≡ None)) }
{
    let texts = Bump::new(alloc);
    let mut lines = LineReader::new(alloc, &texts);
    match lines.root(header)? {
        Some(root) => read_node(alloc, &root),
        None => read_as_tree(alloc, header),
    }
}

/// Parses an item header of any type. Floats, and members other than `type` and `length`, are
/// ignored.
///
/// # Errors
///
/// - `InvalidItemHeader` if the bytes aren't one JSON object with a string `type`, and with
///   `length`, a whole number below 2^64, which may be absent or null.
/// - `OutOfMemory` if an allocation fails.
pub fn read_any_header<'a>(alloc: Global, header: &[u8]) -> Result<AnyHeader<'a>, EnvelopeError>
    ensures ok { IfOk result (λ h. any_header header.now ≡ Some (any_view h)) }
    ensures err { IfErr result (λ e. (e ≡ EnvelopeError.OutOfMemory)
        ⊎ ((e ≡ EnvelopeError.InvalidItemHeader) × (any_header header.now ≡ None))) }
{
    match read_any(alloc, header) {
        Ok(fields) => Ok(fields),
        Err(TreeError::Misfit) => Err(EnvelopeError::InvalidItemHeader),
        Err(TreeError::Memory) => Err(EnvelopeError::OutOfMemory),
    }
}

// Whether a line that the tape doesn't serve is a JSON object.
#[cold]
#[inline(never)]
#[tactic(auto, unfolding(crate::specs::AnyHeader::is_object_line))]
fn is_object_as_tree(alloc: Global, line: &[u8]) -> Result<bool, TreeError>
    ensures ok { IfOk result (λ found. is_object_line line.now ≡ found) }
    ensures memory { IfErr result (λ e. e ≡ TreeError.Memory) }
{
    match read_json(alloc, line) {
        Ok(tree) => Ok(tree.is_object()),
        Err(TreeError::Misfit) => Ok(false),
        Err(TreeError::Memory) => Err(TreeError::Memory),
    }
}

// Whether a line is a JSON object.
#[tactic(auto, unfolding(crate::specs::AnyHeader::is_object_line), using(crate::proofs::Readings::tree_is))]
fn is_object(alloc: Global, line: &[u8]) -> Result<bool, TreeError>
    ensures ok { IfOk result (λ found. is_object_line line.now ≡ found) }
    ensures memory { IfErr result (λ e. e ≡ TreeError.Memory) }
{
    let texts = Bump::new(alloc);
    let mut lines = LineReader::new(alloc, &texts);
    match lines.root(line)? {
        Some(root) => Ok(root.is_object()),
        None => is_object_as_tree(alloc, line),
    }
}

/// Checks that a header line is one JSON object. Floats are allowed, and no member is read.
///
/// # Errors
///
/// - `InvalidHeader` if the line isn't one JSON object.
/// - `OutOfMemory` if an allocation fails.
pub fn check_header_line(alloc: Global, line: &[u8]) -> Result<(), EnvelopeError>
    ensures ok { OnOk result (is_object_line line.now ≡ true) }
    ensures err { IfErr result (λ e. (e ≡ EnvelopeError.OutOfMemory)
        ⊎ ((e ≡ EnvelopeError.InvalidHeader) × (is_object_line line.now ≡ false))) }
{
    match is_object(alloc, line) {
        Ok(true) => Ok(()),
        Ok(false) => Err(EnvelopeError::InvalidHeader),
        Err(_) => Err(EnvelopeError::OutOfMemory),
    }
}
