//! The JSON form of event fingerprints.

ghost use Rattle.std.specs.Prelude.{◌≡◌, OnOk, IfOk};
ghost use Rattle.serde_json.specs.View.{view};
ghost use Rattle.sentry_tables.specs.Cell.{same_cell};
ghost use Rattle.sentry_tables.specs.Kind.{list as list_kind};
ghost use Rattle.sentry_tables.specs.Kinds.{text_kind};
ghost use Rattle.sentry_tables.specs.Writes.{written, WritesTree};
ghost use Rattle.sentry_event.specs.Fingerprints.{fingerprint_kind, fingerprint_cell, one_text, usual_fingerprint};

use crate::owned::owned_text;
use sentry_json::{Node, Writer};
use sentry_rows::MadeCodec;
use sentry_tables::codec::DefaultedCodec;
use sentry_tables::{Codec, FromTree, Member, ReadCodec, TreeError, Way};
use serde_json::Value;
use std::alloc::{AllocError, Global};
use std::borrow::CowStr;

/// The JSON form of a fingerprint: an array of strings. `["{{default}}"]` is written as the
/// default, `["{{ default }}"]`.
///
/// <https://develop.sentry.dev/sdk/data-model/event-payloads/>
pub struct AsFingerprint;

// Returns whether `text` is the only string of the fingerprint.
#[tactic(auto, using(crate::proofs::FingerprintForms::not_one))]
fn is_one<'a>(texts: &Vec<CowStr<'a>>, text: &str) -> bool
    ensures { result ≡ same_cell (fingerprint_cell texts.now.items) (one_text text.now) }
{
    match texts.as_slice().split_first() {
        Some((first, rest)) => rest.is_empty() && first.as_str() == text,
        None => false,
    }
}

// Returns the JSON tree of the default fingerprint, `["{{ default }}"]`.
fn usual_tree(alloc: Global) -> Result<Value, AllocError>
    ensures { IfOk result (λ t. view t ≡ written (list_kind text_kind) usual_fingerprint) }
{
    let mut items = Vec::with_capacity(alloc, 1)?;
    items.push(Value::try_from_str(alloc, "{{ default }}")?)?;
    Ok(Value::Array(items))
}

// Writes the JSON text of the default fingerprint.
fn write_usual(out: &mut Writer) -> Result<(), AllocError>
    ensures { OnOk result
        (WritesTree (written (list_kind text_kind) usual_fingerprint) out.old out.new) }
{
    out.begin_array()?;
    out.string("{{ default }}")?;
    out.end_array()
}

// Returns the default fingerprint.
fn usual<'a>(alloc: Global) -> Result<Vec<CowStr<'a>>, AllocError>
    ensures { IfOk result (λ v. fingerprint_cell v.items ≡ usual_fingerprint) }
{
    let mut texts = Vec::with_capacity(alloc, 1)?;
    texts.push(CowStr::Borrowed("{{ default }}"))?;
    Ok(texts)
}

impl<'a> Codec<Vec<CowStr<'a>>> for AsFingerprint {
    ghost kind = { fingerprint_kind };

    ghost cell_of = { λ v. fingerprint_cell v.items };

    fn to_tree(value: &Vec<CowStr<'a>>, alloc: Global) -> Result<Value, AllocError> {
        if is_one(value, "{{default}}") {
            usual_tree(alloc)
        } else {
            value.to_tree(alloc)
        }
    }

    fn write(value: &Vec<CowStr<'a>>, out: &mut Writer) -> Result<(), AllocError> {
        if is_one(value, "{{default}}") {
            write_usual(out)
        } else {
            value.write(out)
        }
    }

    fn remake(value: &Vec<CowStr<'a>>, way: Way) -> Result<Vec<CowStr<'a>>, AllocError> {
        match way {
            Way::Same => value.copy(),
            Way::Normal(_) => {
                if is_one(value, "{{default}}") {
                    usual(*value.allocator())
                } else {
                    value.copy()
                }
            }
        }
    }

    #[tactic(auto, unfolding(crate::specs::Fingerprints::fingerprint_kind))]
    fn is_null_tree(_value: &Vec<CowStr<'a>>) -> bool {
        false
    }

    #[tactic(auto, unfolding(crate::specs::Fingerprints::fingerprint_kind))]
    fn is_plain(value: &Vec<CowStr<'a>>) -> bool {
        value.is_plain()
    }
}

impl<'a> DefaultedCodec<Vec<CowStr<'a>>> for AsFingerprint {
    ghost usual = { usual_fingerprint };

    fn is_usual(value: &Vec<CowStr<'a>>) -> bool {
        is_one(value, "{{ default }}") || is_one(value, "{{default}}")
    }
}

impl<'a> ReadCodec<Vec<CowStr<'a>>> for AsFingerprint {
    #[tactic(auto, using(crate::proofs::FingerprintForms::fingerprint_read))]
    fn from_node<N: Node>(alloc: Global, node: &N) -> Result<Vec<CowStr<'a>>, TreeError> {
        FromTree::from_node(alloc, node)
    }
}

impl<'a> MadeCodec<Vec<CowStr<'a>>> for AsFingerprint {
    fn make(alloc: Global) -> Result<Vec<CowStr<'a>>, AllocError> {
        usual(alloc)
    }
}

// Clones a fingerprint into owned strings. `AllocError` if an allocation fails.
pub(crate) fn owned_texts<'a>(
    alloc: Global,
    texts: &Vec<CowStr<'a>>,
) -> Result<Vec<CowStr<'static>>, AllocError>
    ensures { IfOk result (λ v. fingerprint_cell v.items ≡ fingerprint_cell texts.now.items) }
{
    let mut list = Vec::with_capacity(alloc, texts.len())?;
    for text in texts {
        list.push(owned_text(alloc, text)?)?;
    }
    Ok(list)
}
