//! The measure of an envelope: how many items it has, and how long they are, by their types.

ghost use Rattle.std.specs.Prelude.{◌≡◌, ◌≢◌, ◌<◌, ◌^◌, ◌++◌, ◌∷◌, [], List, IfErr, IfOk};
ghost use Rattle.sentry_forward.specs.View.{IsRefused};
ghost use Rattle.sentry_forward.specs.declared.frames.AnyFrame.{AnyFrame as Items};
ghost use Rattle.sentry_limits.specs.Measured.{AreCounted, IsMeasured, kind_of, bytes_at, items_at, place};

use sentry_forward::{AnyFrame, AnyFrames};
use sentry_framing::{EnvelopeError, ItemKind};
use std::alloc::Global;

/// Number of counts: one for each item type, and one for unknown types.
pub const KINDS: usize = 12;

/// Counts and sizes of the items of an envelope, by their types.
#[derive(Clone, Copy, Debug, PartialEq, Eq)]
pub struct Measured {
    items: [u64; KINDS],
    bytes: [u64; KINDS],
    longest: u64,
}

// Returns the index of a type's counts.
fn place(kind: Option<ItemKind>) -> usize
    ensures same { result ≡ place kind }
    ensures within { result < KINDS }
{
    match kind {
        Some(kind) => kind as usize,
        None => KINDS - 1,
    }
}

impl Measured {
    /// Returns how many items of a type the envelope has; `None` stands for unknown types.
    pub fn items(&self, kind: Option<ItemKind>) -> u64
        ensures { result ≡ items_at self.now kind }
    {
        self.items[place(kind)]
    }

    /// Returns the size of the payloads of these items in bytes.
    pub fn bytes(&self, kind: Option<ItemKind>) -> u64
        ensures { result ≡ bytes_at self.now kind }
    {
        self.bytes[place(kind)]
    }

    /// Returns the size of the longest payload in bytes; 0 if there is none.
    pub fn longest(&self) -> u64
        ensures { result ≡ self.now.longest }
    {
        self.longest
    }

    /// Returns how many items of each type the envelope has, in the order of [`ItemKind::ALL`], and
    /// of unknown types.
    pub fn all_items(&self) -> &[u64]
        ensures { result.now ≡ self.now.items }
    {
        &self.items
    }

    /// Returns the size of the payloads of these items in bytes, in the same order.
    pub fn all_bytes(&self) -> &[u64]
        ensures { result.now ≡ self.now.bytes }
    {
        &self.bytes
    }

    // Counts an item.
    fn add(&mut self, item: &AnyFrame<'_>)
        requires items_room { items_at self.old (kind_of item.now) < 2 ^ 63 }
        requires bytes_room { bytes_at self.old (kind_of item.now) < 2 ^ 63 }
        ensures { (items : List Items) → AreCounted items self.old →
            AreCounted (items ++ item.now ∷ []) self.new }
    {
        let place = place(item.kind());
        let len = item.payload.len() as u64;
        self.items[place] += 1;
        self.bytes[place] += len;
        self.longest = self.longest.max(len);
    }
}

/// Measures an envelope. Only the header line and item headers are read, and nothing is copied.
///
/// # Errors
///
/// - `InvalidHeader` if the header line isn't one JSON object.
/// - The error of [`AnyFrames::next_frame`] for the first frame that has one.
/// - `OutOfMemory` if an allocation fails.
pub fn measure(alloc: Global, bytes: &[u8]) -> Result<Measured, EnvelopeError>
    ensures measured { IfOk result (IsMeasured bytes.now) }
    ensures refused { IfErr result (λ e. e ≢ EnvelopeError.OutOfMemory → IsRefused bytes.now e) }
{
    let mut reader = AnyFrames::new(alloc, bytes)?;
    let mut measured = Measured {
        items: [0; KINDS],
        bytes: [0; KINDS],
        longest: 0,
    };
    while let Some(next) = reader.next_frame(alloc) {
        let item = next?;
        measured.add(&item);
    }
    Ok(measured)
}
