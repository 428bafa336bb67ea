//! The JSON document that shows an envelope.

ghost use Rattle.std.specs.Prelude.{◌≡◌, ◌↔◌, IfOk, IsTrue, OnOk, length};
ghost use Rattle.std.specs.List.{flat_map};
ghost use Rattle.json.specs.Print.{print};
ghost use Rattle.sentry_tables.specs.Writes.{Continues};
ghost use Rattle.sentry_show.specs.Document.{IsDocument, count_tokens, flag_tokens, front, header_place, item_place, payload_place, places, row_tokens, text_tokens};
ghost use Rattle.sentry_show.specs.Verdicts.{IsAccepted};

mod details;
mod members;

use crate::survey::{Row, Shown, Survey};
use members::members_text;
use sentry_forward::AnyFrame;
use sentry_json::Writer;
use std::alloc::{AllocError, Global};

#[tactic(auto, unfolding(crate::specs::Document::count_tokens))]
fn write_count(out: &mut Writer, name: &str, count: usize) -> Result<(), AllocError>
    ensures { OnOk result (Continues out.old out.new (count_tokens name.now count)) }
{
    out.key(name)?;
    out.u64(count as u64)
}

#[tactic(auto, unfolding(crate::specs::Document::flag_tokens))]
fn write_flag(out: &mut Writer, name: &str, flag: bool) -> Result<(), AllocError>
    ensures { OnOk result (Continues out.old out.new (flag_tokens name.now flag)) }
{
    out.key(name)?;
    out.boolean(flag)
}

#[tactic(auto, unfolding(crate::specs::Document::text_tokens))]
fn write_text(out: &mut Writer, name: &str, text: &str) -> Result<(), AllocError>
    ensures { OnOk result (Continues out.old out.new (text_tokens name.now text.now)) }
{
    out.key(name)?;
    out.string(text)
}

#[tactic(auto, unfolding(crate::specs::Document::item_place))]
fn write_item_place(out: &mut Writer, frame: &AnyFrame<'_>) -> Result<(), AllocError>
    ensures { OnOk result (Continues out.old out.new (item_place frame.now)) }
{
    write_count(out, "start", frame.start)?;
    write_count(out, "length", frame.bytes.len())?;
    Ok(())
}

#[tactic(auto, unfolding(crate::specs::Document::header_place))]
fn write_header_place(out: &mut Writer, frame: &AnyFrame<'_>) -> Result<(), AllocError>
    ensures { OnOk result (Continues out.old out.new (header_place frame.now)) }
{
    write_count(out, "header_start", frame.header_start)?;
    write_count(out, "header_length", frame.header.len())?;
    Ok(())
}

#[tactic(auto, unfolding(crate::specs::Document::payload_place))]
fn write_payload_place(out: &mut Writer, frame: &AnyFrame<'_>) -> Result<(), AllocError>
    ensures { OnOk result (Continues out.old out.new (payload_place frame.now)) }
{
    write_count(out, "payload_start", frame.payload_start)?;
    write_count(out, "payload_length", frame.payload.len())?;
    Ok(())
}

#[tactic(auto, unfolding(crate::specs::Document::places))]
fn write_places(out: &mut Writer, frame: &AnyFrame<'_>) -> Result<(), AllocError>
    ensures { OnOk result (Continues out.old out.new (places frame.now)) }
{
    write_item_place(out, frame)?;
    write_header_place(out, frame)?;
    write_payload_place(out, frame)?;
    Ok(())
}

#[tactic(auto, unfolding(crate::specs::Document::row_tokens))]
fn write_row(out: &mut Writer, row: &Row<'_>) -> Result<(), AllocError>
    ensures { OnOk result (Continues out.old out.new (row_tokens row.now)) }
{
    out.begin_object()?;
    write_text(out, "type", row.frame.word.as_str())?;
    write_flag(out, "accepted", row.accepted)?;
    write_places(out, &row.frame)?;
    out.end_object()?;
    Ok(())
}

fn write_rows(out: &mut Writer, rows: &[Row<'_>]) -> Result<(), AllocError>
    ensures { OnOk result (Continues out.old out.new (flat_map row_tokens rows.now)) }
{
    for row in rows {
        write_row(out, row)?;
    }
    Ok(())
}

// Returns the first members of the document.
#[tactic(auto, unfolding(crate::specs::Document::front))]
fn front_text(
    alloc: Global,
    size: usize,
    accepted: bool,
    rows: &[Row<'_>],
) -> Result<Vec<u8>, AllocError>
    ensures { IfOk result (λ text. text.items ≡ print (front size accepted rows.now)) }
{
    let mut out = Writer::new(Vec::new(alloc));
    out.begin_object()?;
    write_count(&mut out, "bytes", size)?;
    write_flag(&mut out, "accepted", accepted)?;
    out.key("items")?;
    out.begin_array()?;
    write_rows(&mut out, rows)?;
    out.end_array()?;
    Ok(out.into_inner())
}

/// Shows an envelope as one JSON object, without a line feed behind it. Its first members tell the
/// verdict and the item frames with their places; the others tell why it is refused, the header,
/// the losses if all items are dropped, and what events and transactions tell.
///
/// # Errors
///
/// `AllocError` if an allocation fails, or if a URL would take 4 GB.
#[tactic(auto, using(crate::proofs::DocumentLemmas::document_made))]
pub fn show_json(alloc: Global, bytes: &[u8]) -> Result<Shown, AllocError>
    ensures accepted { IfOk result (λ s. IsTrue s.accepted ↔ IsAccepted bytes.now) }
    ensures document { IfOk result (λ s. IsDocument bytes.now s.accepted s.text.items) }
{
    let survey = Survey::new(alloc, bytes)?;
    let accepted = survey.is_accepted();
    let mut text = front_text(alloc, bytes.len(), accepted, &survey.rows)?;
    let members = members_text(alloc, &survey)?;
    text.push(b',')?;
    text.extend_from_slice(&members)?;
    Ok(Shown { text, accepted })
}
