//! Envelopes without the items that a filter refuses: those of some kinds, or by a list of answers.

use crate::asked::taken;
use crate::built::begun;
use crate::bytes::said_bytes;
use crate::envelopes::{read, said_envelope, said_loss, said_losses};
use crate::form::are_alike;
use crate::said::{as_tree, list, refused, text};
use rand_pcg::Pcg32;
use sentry_types::protocol::v7::filtered::{AllBut, FilteredText, filtered_text};
use sentry_types::protocol::v7::{
    Envelope, EnvelopeFilter, EnvelopeItem, ItemKind, LossSlice, LossSource, Moment, Value,
};
use std::alloc::{AllocError, Global};

// Refuses items whose types are among some words, and notes what is lost with the items that go.
#[derive(Drop)]
struct ByKinds<'a> {
    alloc: Global,
    words: &'a str,
    losses: Vec<Value>,
    failed: bool,
}

/// The word of an item's type.
pub fn word_of(item: &EnvelopeItem) -> &'static str {
    match item.kind() {
        Some(kind) => kind.as_str(),
        None => "raw",
    }
}

/// Whether the word of an item's type is none of some words.
pub fn is_kept(words: &str, item: &EnvelopeItem) -> bool {
    let kind = word_of(item);
    !words.split(' ').any(|word| word == kind)
}

impl<'a> ByKinds<'a> {
    fn new(alloc: Global, words: &'a str) -> ByKinds<'a> {
        ByKinds {
            alloc,
            words,
            losses: Vec::new(alloc),
            failed: false,
        }
    }

    // The losses that were noted, if each could be.
    fn told(self) -> Result<Value, AllocError> {
        if self.failed {
            return Err(AllocError);
        }
        as_tree(self.losses)
    }

    fn note(&mut self, item: &EnvelopeItem) -> Result<(), AllocError> {
        for loss in item.losses() {
            self.losses.push(said_loss(self.alloc, &loss)?)?;
        }
        Ok(())
    }
}

impl EnvelopeFilter for ByKinds<'_> {
    ghost use Rattle.std.specs.Prelude.{⊤};

    ghost can_filter = { λ first. ⊤ };

    ghost ask = { λ first item answer next. ⊤ };

    ghost hand = { λ first item next. ⊤ };

    ghost ask_keeps = { λ first item answer next ready asked. tt };

    ghost hand_keeps = { λ first item next ready given. tt };

    fn filter(&mut self, item: &EnvelopeItem) -> bool {
        is_kept(self.words, item)
    }

    fn on_filtered(&mut self, item: EnvelopeItem) {
        if self.note(&item).is_err() {
            self.failed = true;
        }
        drop(item);
    }
}

/// The text of what is left, or null.
pub fn said_left(alloc: Global, left: Option<Envelope>) -> Result<Value, AllocError> {
    match left {
        Some(left) => {
            let told = said_envelope(alloc, &left);
            drop(left);
            told
        }
        None => Ok(Value::Null),
    }
}

// The text of what a filter left, or null.
fn said_filtered(
    alloc: Global,
    left: Result<Option<Envelope>, Envelope>,
) -> Result<Value, AllocError> {
    match left {
        Ok(left) => said_left(alloc, left),
        Err(envelope) => {
            drop(envelope);
            Err(AllocError)
        }
    }
}

// What is left of an envelope, or null, and the losses of what went, in order.
fn left_by(
    alloc: Global,
    envelope: Envelope,
    keep_headers: bool,
    words: &str,
) -> Result<Value, AllocError> {
    let mut filter = ByKinds::new(alloc, words);
    let left = if keep_headers {
        envelope.filter_keep_headers(alloc, &mut filter)
    } else {
        envelope.filter_by(alloc, &mut filter)
    };
    let left = said_filtered(alloc, left);
    list(alloc, [left, filter.told()])
}

// What is left of an envelope, or null, by a filter that is handed over.
fn left_by_value(alloc: Global, envelope: Envelope, words: &str) -> Result<Value, AllocError> {
    match envelope.filter(alloc, |item: &EnvelopeItem| { is_kept(words, item) }) {
        Ok(left) => said_left(alloc, left),
        Err((envelope, filter)) => {
            drop(envelope);
            drop(filter);
            Err(AllocError)
        }
    }
}

// The types that are named among some words.
fn kinds_of(alloc: Global, words: &str) -> Result<Vec<ItemKind>, AllocError> {
    let mut kinds = Vec::new(alloc);
    for word in words.split(' ') {
        if let Some(kind) = ItemKind::from_word(word) {
            kinds.push(kind)?;
        }
    }
    Ok(kinds)
}

// The text of what is left, or null, and the losses in order.
fn said_text(alloc: Global, left: FilteredText<'_>) -> Result<Value, AllocError> {
    let FilteredText { text, losses } = left;
    let losses = said_losses(alloc, &LossSlice(&losses));
    let text = match text {
        Some(text) => said_bytes(alloc, &text.into_vec()?),
        None => Ok(Value::Null),
    };
    list(alloc, [text, losses])
}

// What is left of the envelope that bytes spell, which is written while they are read.
fn left_of_text(
    alloc: Global,
    bytes: &[u8],
    keep_headers: bool,
    words: &str,
) -> Result<Value, AllocError> {
    let now = Moment::new(0, 0).unwrap();
    let kinds = kinds_of(alloc, words)?;
    let choice = AllBut { kinds: &kinds };
    match filtered_text(
        alloc,
        bytes,
        now,
        &mut Pcg32::new(42, 54),
        &choice,
        keep_headers,
    ) {
        Ok(left) => said_text(alloc, left),
        Err(error) => refused(alloc, &error),
    }
}

fn count_of(alloc: Global, values: &[Value], value: &Value) -> Result<usize, AllocError> {
    let mut count: usize = 0;
    for other in values {
        if are_alike(alloc, value, other)? {
            count = count.saturating_add(1);
        }
    }
    Ok(count)
}

// Whether two lists have the same values, in any order.
fn have_same(alloc: Global, ones: &[Value], others: &[Value]) -> Result<bool, AllocError> {
    for one in ones {
        if count_of(alloc, ones, one)? != count_of(alloc, others, one)? {
            return Ok(false);
        }
    }
    Ok(ones.len() == others.len())
}

// Whether two answers have the same text and the same losses, in any order: a filter is handed
// attachments without an event last.
fn are_same(alloc: Global, one: &Value, other: &Value) -> Result<bool, AllocError> {
    if let (Some(ones), Some(others)) = (one.as_array(), other.as_array())
        && let ([left, losses], [text, lost]) = (ones.as_slice(), others.as_slice())
        && let (Some(losses), Some(lost)) = (losses.as_array(), lost.as_array())
    {
        return Ok(are_alike(alloc, left, text)? && have_same(alloc, losses, lost)?);
    }
    are_alike(alloc, one, other)
}

// What is told by values, if the text that is written without values tells the same.
fn beside_text(alloc: Global, told: Value, other: Value) -> Result<Value, AllocError> {
    if are_same(alloc, &told, &other)? {
        drop(other);
        Ok(told)
    } else {
        list(alloc, [text(alloc, "otherwise"), Ok(other), Ok(told)])
    }
}

/// What is left of the envelope that bytes spell without the items of some kinds, by its values and
/// while it is read. The fields of its header stay if the first word is `-k`; the filter is handed
/// over if it is `-v`.
pub fn of_filter(alloc: Global, words: &str, bytes: &[u8]) -> Result<Value, AllocError> {
    if let Some(words) = words.strip_prefix("-v ") {
        return taken(
            alloc,
            read(alloc, bytes),
            |alloc: Global, envelope: Envelope| { left_by_value(alloc, envelope, words) },
        );
    }
    let (keep_headers, words) = match words.strip_prefix("-k ") {
        Some(words) => (true, words),
        None => (false, words),
    };
    let told = taken(
        alloc,
        read(alloc, bytes),
        |alloc: Global, envelope: Envelope| { left_by(alloc, envelope, keep_headers, words) },
    )?;
    let other = left_of_text(alloc, bytes, keep_headers, words)?;
    beside_text(alloc, told, other)
}

/// Answers by a list of `y` and `n`, and notes each call.
#[derive(Drop)]
struct Scribe<'a> {
    alloc: Global,
    answers: &'a [u8],
    calls: Vec<Value>,
    failed: bool,
}

// The name of an attachment, or the word of an item's type.
fn name_of(item: &EnvelopeItem) -> &str {
    match item {
        EnvelopeItem::Attachment(attachment) => attachment.filename.as_str(),
        _ => word_of(item),
    }
}

impl Scribe<'_> {
    fn try_note(&mut self, call: &str, item: &EnvelopeItem) -> Result<(), AllocError> {
        let name = name_of(item);
        let told = format!(in self.alloc; "{call} {name}")?;
        self.calls.push(Value::from(told))?;
        Ok(())
    }

    fn note(&mut self, call: &str, item: &EnvelopeItem) {
        if self.try_note(call, item).is_err() {
            self.failed = true;
        }
    }

    // The calls that were noted, if each could be.
    fn told(self) -> Result<Value, AllocError> {
        if self.failed {
            return Err(AllocError);
        }
        as_tree(self.calls)
    }
}

impl EnvelopeFilter for Scribe<'_> {
    ghost use Rattle.std.specs.Prelude.{⊤};

    ghost can_filter = { λ scribe. ⊤ };

    ghost ask = { λ scribe item answer next. ⊤ };

    ghost hand = { λ scribe item next. ⊤ };

    ghost ask_keeps = { λ scribe item answer next ready asked. tt };

    ghost hand_keeps = { λ scribe item next ready given. tt };

    fn filter(&mut self, item: &EnvelopeItem) -> bool {
        self.note("ask", item);
        match self.answers.split_first() {
            Some((answer, rest)) => {
                self.answers = rest;
                *answer == b'y'
            }
            None => false,
        }
    }

    fn on_filtered(&mut self, item: EnvelopeItem) {
        self.note("hand", &item);
        drop(item);
    }
}

// What is left of an envelope by these answers, or null, and the calls in order.
fn answered_by(
    alloc: Global,
    envelope: Envelope,
    keep_headers: bool,
    answers: &str,
) -> Result<Value, AllocError> {
    let mut filter = Scribe {
        alloc,
        answers: answers.as_bytes(),
        calls: Vec::new(alloc),
        failed: false,
    };
    let left = said_filtered(
        alloc,
        envelope.filter_with(alloc, &mut filter, keep_headers),
    );
    list(alloc, [left, filter.told()])
}

/// What is left by some answers of the envelope that bytes spell, or of the raw envelope of bytes
/// if the first word is `raw`, and the calls. The fields of its header stay if the first word is
/// `-k`.
pub fn of_answers(alloc: Global, words: &str, bytes: &[u8]) -> Result<Value, AllocError> {
    let (first, answers) = words.split_once(' ').unwrap_or(("", words));
    taken(
        alloc,
        begun(alloc, first, bytes),
        |alloc: Global, envelope: Envelope| {
            answered_by(alloc, envelope, first == "-k", answers)
        },
    )
}
