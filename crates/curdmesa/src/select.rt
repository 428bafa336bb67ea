//! The command `select`.

ghost use Rattle.std.specs.Prelude.{◌≡◌, ◌≢◌, IfOk, Err, string_bytes};
ghost use Rattle.sentry_forward.specs.View.{IsRefused};
ghost use Rattle.sentry_framing.specs.declared.error.EnvelopeError.{EnvelopeError as Refusal};
ghost use Rattle.sentry_framing.specs.declared.error.EnvelopeError.TheVariants as refusals;
ghost use Rattle.sentry_forward.specs.declared.error.ForwardError.TheVariants as failures;
ghost use Rattle.curdmesa.specs.Losing.{IsLossTable};
ghost use Rattle.curdmesa.specs.Selecting.{IsSelected, is_listed, is_within};

use sentry_forward::{AnyFrame, ForwardError, ForwardRules, Forwarded, forward_by};
use sentry_ledger::losses_of_frames;
use sentry_program::losses::table_of;
use std::alloc::{AllocError, Global};

/// Which items are kept.
#[derive(Drop)]
pub struct Selection<'a> {
    /// Item types that are kept; all if there are none.
    pub keep: Vec<&'a str>,
    /// Item types that are dropped.
    pub drop: Vec<&'a str>,
    /// Most bytes of a payload that is kept.
    pub max_bytes: Option<usize>,
}

// Whether a word is one of these.
fn is_listed(words: &[&str], word: &str) -> bool
    ensures { result ≡ is_listed words.now word.now }
{
    words.iter().any(|listed| *listed == word)
}

// Whether a length is not above the limit, if there is one.
fn is_within(most: Option<usize>, len: usize) -> bool
    ensures { result ≡ is_within most len }
{
    match most {
        Some(most) => len <= most,
        None => true,
    }
}

impl<'a> Selection<'a> {
    ghost use Rattle.std.specs.Prelude.{◌≡◌, [], None};
    ghost use Rattle.curdmesa.specs.Selecting.{keeps};

    /// Creates a selection that keeps all items.
    pub fn new(alloc: Global) -> Selection<'a>
        ensures keep { result.keep.items ≡ [] }
        ensures drop { result.drop.items ≡ [] }
        ensures max_bytes { result.max_bytes ≡ None }
    {
        Selection {
            keep: Vec::new(alloc),
            drop: Vec::new(alloc),
            max_bytes: None,
        }
    }

    /// Returns whether the item of a frame is kept.
    pub fn keeps(&self, frame: &AnyFrame<'_>) -> bool
        ensures { result ≡ keeps self.now frame.now }
    {
        let word = frame.word.as_str();
        let named = self.keep.is_empty() || is_listed(&self.keep, word);
        named && !is_listed(&self.drop, word) && is_within(self.max_bytes, frame.payload.len())
    }
}

/// Returns what is left of an envelope, byte for byte, and the frames that were dropped.
///
/// # Errors
///
/// Those of [`forward_by`].
pub fn select<'a>(
    alloc: Global,
    bytes: &'a [u8],
    selection: &Selection<'_>,
) -> Result<Forwarded<'a>, ForwardError>
    ensures selected { IfOk result (IsSelected selection.now bytes.now) }
    ensures refused { (e : Refusal) → result ≡ Err (failures.Envelope e) → e ≢ refusals.OutOfMemory
        → IsRefused bytes.now e }
{
    let mut filter = |frame: &AnyFrame<'_>| selection.keeps(frame);
    let forwarded = forward_by(alloc, bytes, ForwardRules::new(), &mut filter)?;
    Ok(forwarded)
}

/// Returns the table of the losses of the dropped frames.
///
/// # Errors
///
/// `AllocError` if an allocation fails, or if a URL would take 4 GB.
pub fn table_of_losses(alloc: Global, selected: &Forwarded<'_>) -> Result<String, AllocError>
    ensures { IfOk result (λ table. IsLossTable selected.now.dropped.items (string_bytes table)) }
{
    let losses = losses_of_frames(alloc, &selected.dropped)?;
    let table = table_of(alloc, &losses)?;
    Ok(table)
}
