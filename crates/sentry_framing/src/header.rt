//! Item headers.
ghost use Rattle.std.specs.Prelude.{◌≡◌, [], ◌∷◌, ◌⊎◌, Some, None, IfOk, IfErr, IfSome, OnOk, length, map, option_map, string_bytes};
ghost use Rattle.serde_json.specs.Data.{Data};
ghost use Rattle.serde_json.specs.Find.{as_str};
ghost use Rattle.sentry_framing.specs.ItemHeader.{at_keys, header_of, kind_of, read_header, optional, whole_number};
ghost use Rattle.sentry_framing.specs.ItemWords.{item_words, kind_place};
ghost use Rattle.sentry_framing.specs.declared.kind.ItemKind.TheVariants as kinds;
ghost use Rattle.sentry_framing.specs.HeaderView.{header_view, short_header};
ghost use Rattle.sentry_json.specs.TapeView.{node_data};

use crate::error::EnvelopeError;
use crate::kind::ItemKind;
use bumpalo::Bump;
use sentry_json::{Node, TapeNode, look_up};
use sentry_tables::{LineReader, TreeError, read_tree};
use std::alloc::Global;

/// The fields of an item header.
///
/// <https://develop.sentry.dev/sdk/data-model/envelopes/#items>
#[derive(Debug, Drop)]
pub struct ItemHeader {
    /// Item type (`type`).
    pub kind: ItemKind,
    /// Payload size in bytes; if `None`, the payload ends at the next line feed or the end.
    pub length: Option<u64>,
    /// Media type of an attachment.
    pub content_type: Option<String>,
    /// File name of an attachment.
    pub filename: Option<String>,
    /// Attachment type, such as `event.minidump`.
    pub attachment_type: Option<String>,
}

impl ItemHeader {
    /// Creates the header of an attachment, with no other fields set.
    pub fn new() -> ItemHeader
        ensures { header_view result ≡ short_header kinds.Attachment None }
    {
        ItemHeader {
            kind: ItemKind::Attachment,
            length: None,
            content_type: None,
            filename: None,
            attachment_type: None,
        }
    }

    // Sets the fields of a header that has no more than a type and a length.
    #[inline(always)]
    pub(crate) fn set_short(&mut self, kind: ItemKind, length: Option<u64>)
        ensures { header_view self.new ≡ short_header kind length }
    {
        self.kind = kind;
        self.length = length;
        self.content_type = None;
        self.filename = None;
        self.attachment_type = None;
    }
}

fn kind<N: Node>(place: &Option<N>) -> Result<ItemKind, TreeError>
    ensures ok { IfOk result (λ kind.
        kind_of item_words (option_map N.data_of place.now) ≡ Some (kind_place kind)) }
    ensures misfit { IfErr result (λ e. (e ≡ TreeError.Misfit)
        × (kind_of item_words (option_map N.data_of place.now) ≡ None)) }
{
    let node = place.as_ref().ok_or(TreeError::Misfit)?;
    let word = node.as_str().ok_or(TreeError::Misfit)?;
    ItemKind::from_word(word).ok_or(TreeError::Misfit)
}

/// Returns the whole number below 2^64 at a place; `None` if the member is absent or null.
///
/// # Errors
///
/// `Misfit` for any other node.
pub fn optional_number<N: Node>(place: &Option<N>) -> Result<Option<u64>, TreeError>
    ensures ok { IfOk result (λ number.
        optional whole_number (option_map N.data_of place.now) ≡ Some number) }
    ensures misfit { result ≡ Err TreeError.Misfit →
        optional whole_number (option_map N.data_of place.now) ≡ None }
{
    match place {
        None => Ok(None),
        Some(node) if node.is_null() => Ok(None),
        Some(node) => node.as_u64().map(Some).ok_or(TreeError::Misfit),
    }
}

// `None` if the member is absent or null.
fn optional_text<N: Node>(alloc: Global, place: &Option<N>) -> Result<Option<String>, TreeError>
    ensures ok { IfOk result (λ text.
        optional as_str (option_map N.data_of place.now) ≡ Some (option_map string_bytes text)) }
    ensures misfit { result ≡ Err TreeError.Misfit →
        optional as_str (option_map N.data_of place.now) ≡ None }
{
    match place {
        None => Ok(None),
        Some(node) if node.is_null() => Ok(None),
        Some(node) => match node.as_str() {
            Some(text) => Ok(Some(String::from_str(alloc, text)?)),
            None => Err(TreeError::Misfit),
        },
    }
}

// Reads the fields from the nodes at their keys. Some may be set after an error.
#[tactic(auto, unfolding(crate::specs::ItemHeader::header_of))]
fn fill_header<N: Node>(
    alloc: Global,
    places: &[Option<N>],
    fields: &mut ItemHeader,
) -> Result<(), TreeError>
    requires { length places.now ≡ 5 }
    ensures ok { (d : Data) → map (option_map N.data_of) places.now ≡ at_keys d
        → OnOk result (header_of item_words d ≡ Some (header_view fields.new)) }
    ensures misfit { (d : Data) → map (option_map N.data_of) places.now ≡ at_keys d
        → result ≡ Err TreeError.Misfit → header_of item_words d ≡ None }
{
    fields.kind = kind(&places[0])?;
    fields.length = optional_number(&places[1])?;
    fields.content_type = optional_text(alloc, &places[2])?;
    fields.filename = optional_text(alloc, &places[3])?;
    fields.attachment_type = optional_text(alloc, &places[4])?;
    Ok(())
}

// The keys of the fields.
const KEYS: [&str; 5] = [
    "type",
    "length",
    "content_type",
    "filename",
    "attachment_type",
];

// Reads the fields from a flat header, as most are. `None` if it isn't one.
#[tactic(auto, unfolding(crate::specs::ItemHeader::read_header))]
fn fill_from_flat(
    alloc: Global,
    header: &[u8],
    fields: &mut ItemHeader,
) -> Option<Result<(), TreeError>>
    ensures ok { IfSome result (λ filled.
        OnOk filled (read_header item_words header.now ≡ Some (header_view fields.new))) }
    ensures misfit { result ≡ Some (Err TreeError.Misfit)
        → read_header item_words header.now ≡ None }
{
    let mut places = [None, None, None, None, None];
    look_up(header, &KEYS, &mut places)?;
    Some(fill_header(alloc, &places, fields))
}

// Reads the fields from a JSON node. `places` is filled with the nodes of the members.
fn fill_from_node<N: Node>(
    alloc: Global,
    node: &N,
    places: &mut [Option<N>],
    fields: &mut ItemHeader,
) -> Result<(), TreeError>
    requires { places.old ≡ None ∷ None ∷ None ∷ None ∷ None ∷ [] }
    ensures ok { OnOk result (header_of item_words (N.data_of node.now) ≡
        Some (header_view fields.new)) }
    ensures misfit { result ≡ Err TreeError.Misfit →
        header_of item_words (N.data_of node.now) ≡ None }
{
    node.get_each(&KEYS, places);
    fill_header(alloc, places, fields)
}

fn fill_from_tape<'t, 'a>(
    alloc: Global,
    root: &TapeNode<'t, 'a>,
    fields: &mut ItemHeader,
) -> Result<(), TreeError>
    ensures ok { OnOk result (header_of item_words (node_data root.now) ≡
        Some (header_view fields.new)) }
    ensures misfit { result ≡ Err TreeError.Misfit →
        header_of item_words (node_data root.now) ≡ None }
{
    let mut places: [Option<TapeNode<'t, 'a>>; 5] = [None, None, None, None, None];
    fill_from_node(alloc, root, &mut places, fields)
}

// Reads any line, as a tree of values.
#[cold]
#[inline(never)]
#[tactic(auto, unfolding(crate::specs::ItemHeader::read_header))]
fn fill_from_tree(alloc: Global, line: &[u8], fields: &mut ItemHeader) -> Result<(), TreeError>
    ensures ok { OnOk result (read_header item_words line.now ≡ Some (header_view fields.new)) }
    ensures misfit { result ≡ Err TreeError.Misfit → read_header item_words line.now ≡ None }
{
    let tree = read_tree(alloc, line)?;
    fill_from_node(alloc, &&tree, &mut [None, None, None, None, None], fields)
}

// Reads any line, on the tape where that takes it.
#[inline(never)]
#[tactic(auto, unfolding(crate::specs::ItemHeader::read_header))]
fn fill_from_line<'a>(
    lines: &mut LineReader<'a>,
    line: &'a [u8],
    fields: &mut ItemHeader,
) -> Result<(), TreeError>
    ensures ok { OnOk result (read_header item_words line.now ≡ Some (header_view fields.new)) }
    ensures misfit { result ≡ Err TreeError.Misfit → read_header item_words line.now ≡ None }
{
    let alloc = lines.alloc();
    match lines.root(line)? {
        Some(root) => fill_from_tape(alloc, &root, fields),
        None => fill_from_tree(alloc, line, fields),
    }
}

/// Parses an item header. Members that [`ItemHeader`] has no field for are ignored.
///
/// # Errors
///
/// - `InvalidItemHeader` if the bytes aren't one JSON object without floats, with a known `type`,
///   and with `length`, a whole number below 2^64, and strings `content_type`, `filename` and
///   `attachment_type`, each of which may be absent or null.
/// - `OutOfMemory` if an allocation fails.
#[inline(never)]
pub fn read_item_header(alloc: Global, header: &[u8]) -> Result<ItemHeader, EnvelopeError>
    ensures ok { IfOk result (λ fields.
        read_header item_words header.now ≡ Some (header_view fields)) }
    ensures err { IfErr result (λ e. (e ≡ EnvelopeError.OutOfMemory)
        ⊎ ((e ≡ EnvelopeError.InvalidItemHeader) × (read_header item_words header.now ≡ None))) }
{
    let mut fields = ItemHeader::new();
    let texts = Bump::new(alloc);
    read_fields(&mut LineReader::new(alloc, &texts), header, &mut fields)?;
    Ok(fields)
}

// Parses an item header into `fields`; some may be set after an error.
pub(crate) fn read_fields<'a>(
    lines: &mut LineReader<'a>,
    header: &'a [u8],
    fields: &mut ItemHeader,
) -> Result<(), EnvelopeError>
    ensures ok { OnOk result (read_header item_words header.now ≡ Some (header_view fields.new)) }
    ensures err { IfErr result (λ e. (e ≡ EnvelopeError.OutOfMemory)
        ⊎ ((e ≡ EnvelopeError.InvalidItemHeader) × (read_header item_words header.now ≡ None))) }
{
    let filled = match fill_from_flat(lines.alloc(), header, fields) {
        Some(filled) => filled,
        None => fill_from_line(lines, header, fields),
    };
    match filled {
        Ok(()) => Ok(()),
        Err(TreeError::Misfit) => Err(EnvelopeError::InvalidItemHeader),
        Err(TreeError::Memory) => Err(EnvelopeError::OutOfMemory),
    }
}
