//! Making events.

ghost use Rattle.std.specs.Prelude.{◌≡◌, ◌≢◌, ◌⊎◌, ◌++◌, IfOk, List, OnOk, length, map};
ghost use Rattle.std.specs.Str.{IsUtf8};
ghost use Rattle.json.specs.Print.{print};
ghost use Rattle.sentry_framing.specs.declared.error.EnvelopeError.{EnvelopeError as Refusal};
ghost use Rattle.sentry_framing.specs.declared.error.EnvelopeError.TheVariants as refusals;
ghost use Rattle.sentry_making.specs.Texts.{event_tokens};
ghost use Rattle.sentry_making.specs.declared.texts.TextMember.{TextMember as Member};
ghost use Rattle.sentry_moments.specs.Rfc3339.{IsMomentTime};
ghost use Rattle.sentry_tables.specs.Cell.{moment};
ghost use Rattle.sentry_c.specs.Events.{IsEvent, IsRefusedEvent};
ghost use Rattle.sentry_c.specs.Making.{HasNoTexts, event_envelope, event_members, pair_of, total, unless_empty};
ghost use Rattle.sentry_c.specs.Output.{IsTooLong, Puts};
ghost use Rattle.sentry_c.specs.Statuses.{refusal_status};

use crate::envelope::deliver_normal_form;
use crate::pairs::{CurdmesaPair, items_of, members_of};
use crate::status::{
    INVALID_ARGUMENT, NO_MOMENT, NO_ROOM, NOT_UTF8, OK, OUT_OF_MEMORY, status_of_envelope_error,
};
use sentry_types::protocol::v7::{Moment, TextMember, event_payload};
use std::alloc::{AllocError, Global};
use std::str;

// Appends a member, unless its text is empty.
fn push_unless_empty<'a>(
    members: &mut Vec<TextMember<'a>>,
    key: &'a str,
    value: &'a str,
) -> Result<(), AllocError>
    ensures { OnOk result (map pair_of members.new.items
        ≡ map pair_of members.old.items ++ unless_empty key.now value.now) }
{
    if value.len() != 0 {
        members.push(TextMember { key, value })?;
    }
    Ok(())
}

// Returns the members of an event that aren't empty.
fn members_of_event<'a>(
    alloc: Global,
    level: &'a str,
    message: &'a str,
    release: &'a str,
    environment: &'a str,
) -> Result<Vec<TextMember<'a>>, AllocError>
    ensures { IfOk result (λ members. map pair_of members.items
        ≡ event_members level.now message.now release.now environment.now) }
{
    let mut members = Vec::new(alloc);
    push_unless_empty(&mut members, "level", level)?;
    push_unless_empty(&mut members, "message", message)?;
    push_unless_empty(&mut members, "release", release)?;
    push_unless_empty(&mut members, "environment", environment)?;
    Ok(members)
}

// Returns an envelope of one event of members and tags.
fn event_of(
    alloc: Global,
    members: &[TextMember<'_>],
    tags: &[TextMember<'_>],
) -> Result<Vec<u8>, AllocError>
    ensures { IfOk result (λ bytes.
        bytes.items ≡ event_envelope (print (event_tokens members.now tags.now))) }
{
    let payload = event_payload(alloc, members, tags)?;
    let mut bytes = Vec::from_slice(alloc, b"{}\n{\"type\":\"event\"}\n")?;
    bytes.extend_from_slice(&payload)?;
    Ok(bytes)
}

/// Makes an event, in an envelope of its own whose normal form is written to `out`.
///
/// `level` is the word of a level, and the event's other texts are as they are given; an empty one
/// is left out. The key and the value of each tag stand one after the other in `tags`, and
/// `tag_lengths` has the lengths of both. The event has the timestamp `now`, and an id that is drawn
/// from a generator seeded with `seed`.
///
/// # Returns
///
/// - `OK` if the envelope was written; `needed` is its length.
/// - `NO_ROOM` if the envelope is longer than `out`; `needed` is its length.
/// - `NO_MOMENT` if the seconds and nanoseconds are no moment.
/// - `NOT_UTF8` if a text isn't UTF-8.
/// - `INVALID_ARGUMENT` if the lengths don't add up to that of `tags`.
/// - The status of `InvalidItemPayload` if the level is unknown.
/// - `OUT_OF_MEMORY` if an allocation fails.
#[unsafe(no_mangle)]
pub extern "C" fn curdmesa_event_make(
    alloc: Global,
    level: &[u8],
    message: &[u8],
    release: &[u8],
    environment: &[u8],
    tags: &[u8],
    tag_lengths: &[CurdmesaPair],
    now_secs: u64,
    now_nanos: u32,
    seed: u64,
    out: &mut [u8],
    needed: &mut u64,
) -> i32
    ensures written { result ≡ OK →
        Puts (IsEvent level.now message.now release.now environment.now tags.now tag_lengths.now
        (moment now_secs now_nanos)) out.old out.new needed.new }
    ensures no_room { result ≡ NO_ROOM →
        IsTooLong (IsEvent level.now message.now release.now environment.now tags.now
        tag_lengths.now (moment now_secs now_nanos)) out.old needed.new }
    ensures no_moment { result ≡ NO_MOMENT → ¬ IsMomentTime now_secs now_nanos }
    ensures not_utf8 { result ≡ NOT_UTF8 → (¬ IsUtf8 level.now) ⊎ ((¬ IsUtf8 message.now) ⊎
        ((¬ IsUtf8 release.now) ⊎ ((¬ IsUtf8 environment.now) ⊎
        HasNoTexts tags.now tag_lengths.now))) }
    ensures argument { result ≡ INVALID_ARGUMENT → length tags.now ≢ total tag_lengths.now }
    ensures fault { (x : Refusal) → result ≡ refusal_status x → x ≢ refusals.OutOfMemory →
        IsRefusedEvent level.now message.now release.now environment.now tags.now
        tag_lengths.now x }
    ensures unchanged { result ≢ OK → out.new ≡ out.old }
    ensures no_text { result ≢ OK → result ≢ NO_ROOM → needed.new ≡ 0 }
    ensures answers { (result ≡ OK) ⊎ ((result ≡ NO_ROOM) ⊎ ((result ≡ NO_MOMENT) ⊎
        ((result ≡ NOT_UTF8) ⊎ ((result ≡ INVALID_ARGUMENT) ⊎
        ((x : Refusal) × (result ≡ refusal_status x)))))) }
{
    *needed = 0;
    let Some(now) = Moment::new(now_secs, now_nanos) else {
        return NO_MOMENT;
    };
    let Ok(level) = str::from_utf8(level) else {
        return NOT_UTF8;
    };
    let Ok(message) = str::from_utf8(message) else {
        return NOT_UTF8;
    };
    let Ok(release) = str::from_utf8(release) else {
        return NOT_UTF8;
    };
    let Ok(environment) = str::from_utf8(environment) else {
        return NOT_UTF8;
    };
    let pairs = match items_of(alloc, tags, tag_lengths) {
        Ok(Some(pairs)) => pairs,
        Ok(None) => return INVALID_ARGUMENT,
        Err(_) => return OUT_OF_MEMORY,
    };
    let tags = match members_of(alloc, &pairs) {
        Ok(Some(tags)) => tags,
        Ok(None) => return NOT_UTF8,
        Err(_) => return OUT_OF_MEMORY,
    };
    let Ok(members) = members_of_event(alloc, level, message, release, environment) else {
        return OUT_OF_MEMORY;
    };
    let Ok(bytes) = event_of(alloc, &members, &tags) else {
        return OUT_OF_MEMORY;
    };
    match deliver_normal_form(alloc, &bytes, now, seed, out, needed) {
        Ok(true) => OK,
        Ok(false) => NO_ROOM,
        Err(error) => status_of_envelope_error(&error),
    }
}
