//! Envelopes.
use crate::error::EnvelopeWriteError;
use crate::file::read_file;
use crate::filtering::{first_event, first_id, id_of};
use crate::headers::{EnvelopeHeaders, read_header_line};
use crate::items::{EnvelopeItemIter, IntoItems};
use crate::plain::items_are_plain;
use crate::read::read_items;
use crate::write::write_envelope;
use bumpalo::Bump;
use rand_core::Rng;
use sentry_event::Event;
use sentry_framing::{EnvelopeError, Frames};
use sentry_items::EnvelopeItem;
use sentry_items::counted::CountedWriter;
use sentry_items::text::Text;
use sentry_moments::Moment;
use sentry_tables::{LineReader, Member};
use std::alloc::{AllocError, AllocFailed, Global};
use std::io::Write;
use std::rt::Files;
use thiserror::Error;
use uuid::Uuid;

/// An envelope: envelope headers, and items.
///
/// <https://develop.sentry.dev/sdk/data-model/envelopes/>
///
/// An envelope is structured, with its items in order, or raw, with bytes that are kept unread.
#[derive(Debug, Drop, PartialEq)]
pub struct Envelope {
    pub(crate) headers: EnvelopeHeaders,
    pub(crate) contents: Contents,
}

// The items of a structured envelope, or the bytes of a raw one.
#[derive(Debug, Drop, PartialEq)]
pub(crate) enum Contents {
    Items(Vec<EnvelopeItem>),
    Raw(Vec<u8>),
}

/// The error of [`Envelope::add_item`], with the item.
#[derive(Debug, Drop, Error)]
pub enum AddRefused {
    /// The envelope is raw, and its items are unknown.
    #[error("RawEnvelope")]
    RawEnvelope(EnvelopeItem),
    /// An allocation failed.
    #[error("out of memory")]
    Memory(EnvelopeItem),
}

impl Envelope {
    ghost use Rattle.std.specs.Prelude.{false, ◌≡◌, ◌≢◌, ◌↔◌, ◌⊎◌, List, [], ◌∷◌, ◌++◌, ℕ, ◌+◌, ◌-◌, ◌^◌, ◌<◌, Some, IfOk, IfErr, IsOkAnd, OnErr, OnOk, IsSome, IsSomeAnd, IfSome, IsTrue, option_map};
    ghost use Rattle.std.specs.Io.KnownBytes.{Appends, Keeps};
    ghost use Rattle.sentry_framing.specs.Sending.{AppendsFront};
    ghost use Rattle.sentry_items.specs.Counted.{writer_inside, writer_failures};
    ghost use Rattle.sentry_envelope.specs.Envelope.{Envelope as Model, IsEnvelopePlain, IsEnvelopeSized, IsEnvelopeStored, Spells, envelope_text, envelope_norm};
    ghost use Rattle.sentry_envelope.specs.EnvelopeFault.{Fault};
    ghost use Rattle.sentry_moments.specs.Moments.{moment_cell};
    ghost use Rattle.sentry_envelope.specs.EnvelopeView.{held, header_of, event_id_of, structured, raw_bytes, IsSame, item_view, items_of, first_event, with_item, empty, no_fields, refused_item, text_of, PartsAreStoredAndPlain, IsUnwritable};
    ghost use Rattle.sentry_envelope.specs.HeaderFields.{headers_cell};
    ghost use Rattle.sentry_envelope.specs.ItemsLeft.{items_left, owned_items_left};
    ghost use Rattle.sentry_envelope.specs.SentryProfile.{profile};
    ghost use Rattle.sentry_items.specs.Texts.{bytes_of};

    /// Creates a structured envelope without header fields and items.
    pub fn new(alloc: Global) -> Envelope
        ensures fresh { structured result ≡ Some empty }
        ensures no_items { items_of result ≡ [] }
    {
        Envelope {
            headers: EnvelopeHeaders::new(),
            contents: Contents::Items(Vec::new(alloc)),
        }
    }

    /// Creates a structured envelope without header fields and items.
    pub fn default_in(alloc: Global) -> Envelope
        ensures fresh { structured result ≡ Some empty }
        ensures no_items { items_of result ≡ [] }
    {
        Envelope::new(alloc)
    }

    /// Creates a structured envelope of one item. The id of an event or transaction becomes the
    /// event id of the envelope.
    ///
    /// # Errors
    ///
    /// `Memory` with the item if an allocation fails.
    pub fn from_item(alloc: Global, item: EnvelopeItem) -> Result<Envelope, AddRefused>
        ensures ok { IfOk result (λ e. structured e ≡ Some (with_item empty (item_view item))) }
        ensures one { IfOk result (λ e. items_of e ≡ item ∷ []) }
        ensures memory { IfErr result (λ refused. refused ≡ AddRefused.Memory item) }
    {
        let mut envelope = Envelope::new(alloc);
        match envelope.add_item(item) {
            Ok(()) => Ok(envelope),
            Err(refused) => Err(refused),
        }
    }

    /// Creates a raw envelope, with bytes that are kept unread. The result is always `Ok`.
    pub fn from_bytes_raw(bytes: Vec<u8>) -> Result<Envelope, EnvelopeError>
        ensures kept { IsOkAnd result (λ e. raw_bytes e ≡ Some bytes.items) }
        ensures header { IsOkAnd result (λ e. header_of e ≡ no_fields) }
    {
        Ok(Envelope {
            headers: EnvelopeHeaders::new(),
            contents: Contents::Raw(bytes),
        })
    }

    /// Parses an envelope.
    ///
    /// The envelope is structured and plain ([`Envelope::is_plain`]), and is written as its normal
    /// form is. The moment `now` fills absent timestamps, and `ids` absent ids. An absent event id
    /// of the envelope is that of the first event or transaction.
    ///
    /// # Errors
    ///
    /// The first check of the bytes that fails, in this order:
    ///
    /// - `InvalidHeader` if the first line isn't one JSON object without floats with these members,
    ///   all optional: `event_id`, null or a UUID in any of its forms; `dsn`, null or a DSN;
    ///   `sent_at`, an RFC 3339 string and not null; `sdk`, null or an object with strings `name`
    ///   and `version` and, optionally, an array of strings `integrations` and an array `packages`
    ///   of objects with strings `name` and `version`; `trace`, null or an object that
    ///   `DynamicSamplingContext` reads. Other members are ignored.
    /// - `UnexpectedEof`, `InvalidItemHeader` and `MissingNewline` by the framing of an item, as
    ///   [`sentry_framing::Frames::next_frame`] says.
    /// - `InvalidItemPayload` if a payload isn't read as its item type.
    ///
    /// `OutOfMemory` if an allocation fails, or if a URL would take 4 GB.
    #[inline(never)]
    pub fn from_slice<R: Rng>(
        alloc: Global,
        bytes: &[u8],
        now: Moment,
        ids: &mut R,
    ) -> Result<Envelope, EnvelopeError>
        ensures spelled { IfOk result (λ e.
            IsSomeAnd (structured e) (Spells profile bytes.now (moment_cell now))) }
        ensures stored { IfOk result (λ e. IsSomeAnd (structured e) (λ m.
            IsEnvelopeStored profile m × IsEnvelopePlain profile m)) }
        ensures rewritten { IfOk result (λ e. IsSomeAnd (structured e) (λ m.
            envelope_text profile m ≡ envelope_text profile (envelope_norm profile m))) }
        ensures fault { IfErr result (λ x. x ≢ EnvelopeError.OutOfMemory →
            Fault profile bytes.now x) }
    {
        let texts = Bump::new(alloc);
        let mut lines = LineReader::new(alloc, &texts);
        let mut frames = Frames::new(bytes);
        let mut headers = EnvelopeHeaders::new();
        let line = frames.header_line();
        read_header_line(&mut lines, line, &mut headers)?;
        let items = read_items(&mut lines, &mut frames, now, ids)?;
        headers.fill(first_id(&items));
        Ok(Envelope {
            headers,
            contents: Contents::Items(items),
        })
    }

    /// Reads a file, and parses the envelope in the file as [`Envelope::from_slice`] does.
    ///
    /// # Errors
    ///
    /// - `UnexpectedEof` if the file can't be read, or as `from_slice` says.
    /// - `OutOfMemory` if an allocation fails, or as `from_slice` says.
    /// - Any other error as `from_slice` says.
    pub fn from_path<F: Files + AllocGlobal, R: Rng>(
        rt: &F,
        path: &str,
        now: Moment,
        ids: &mut R,
    ) -> Result<Envelope, EnvelopeError>
        ensures spelled { IfOk result (λ e. (bytes : List ℕ) ×
            IsSomeAnd (structured e) (Spells profile bytes (moment_cell now))) }
        ensures stored { IfOk result (λ e. IsSomeAnd (structured e) (λ m.
            IsEnvelopeStored profile m × IsEnvelopePlain profile m)) }
        ensures rewritten { IfOk result (λ e. IsSomeAnd (structured e) (λ m.
            envelope_text profile m ≡ envelope_text profile (envelope_norm profile m))) }
        ensures err { IfErr result (λ x. (x ≡ EnvelopeError.UnexpectedEof) ⊎
            ((x ≡ EnvelopeError.OutOfMemory) ⊎ ((bytes : List ℕ) × Fault profile bytes x))) }
    {
        let bytes = read_file(rt, path)?;
        Envelope::from_slice(rt.alloc(), &bytes, now, ids)
    }

    /// Reads a file into a raw envelope, which keeps the bytes unread.
    ///
    /// # Errors
    ///
    /// - `UnexpectedEof` if the file can't be read.
    /// - `OutOfMemory` if an allocation fails.
    pub fn from_path_raw<F: Files + AllocGlobal>(
        rt: &F,
        path: &str,
    ) -> Result<Envelope, EnvelopeError>
        ensures raw { IfOk result (λ e. IsSome (raw_bytes e)) }
        ensures header { IfOk result (λ e. header_of e ≡ no_fields) }
        ensures err { IfErr result (λ x. (x ≡ EnvelopeError.UnexpectedEof) ⊎
            (x ≡ EnvelopeError.OutOfMemory)) }
    {
        let bytes = read_file(rt, path)?;
        Envelope::from_bytes_raw(bytes)
    }

    /// Appends an item.
    ///
    /// If the envelope has no event id, the id of an event or transaction becomes its event id. A
    /// raw envelope accepts only `EnvelopeItem::Raw`, which adds nothing.
    ///
    /// # Errors
    ///
    /// The error contains the item, and `self` is unchanged:
    ///
    /// - `RawEnvelope` if the envelope is raw and the item isn't `EnvelopeItem::Raw`.
    /// - `Memory` if an allocation fails.
    pub fn add_item(&mut self, item: EnvelopeItem) -> Result<(), AddRefused>
        ensures added { (old : Model) → structured self.old ≡ Some old →
            OnOk result (structured self.new ≡ Some (with_item old (item_view item))) }
        ensures behind { IsSome (structured self.old) →
            OnOk result (items_of self.new ≡ items_of self.old ++ item ∷ []) }
        ensures raw_envelope { (result ≡ Err (AddRefused.RawEnvelope item)) ↔
            (IsSome (raw_bytes self.old) × (item ≢ EnvelopeItem.Raw)) }
        ensures raw_taken { IsSome (raw_bytes self.old) → item ≡ EnvelopeItem.Raw → result ≡ Ok tt }
        ensures raw_same { IsSome (raw_bytes self.old) → IsSame self.new self.old }
        ensures refused { OnErr result (IsSame self.new self.old) }
        ensures same_items { OnErr result (items_of self.new ≡ items_of self.old) }
        ensures handed_back { IfErr result (λ refused. refused_item refused ≡ item) }
    {
        match &mut self.contents {
            Contents::Items(items) => {
                let id = id_of(&item);
                match items.push(item) {
                    Ok(()) => {
                        self.headers.fill(id);
                        Ok(())
                    }
                    Err(AllocFailed { value }) => Err(AddRefused::Memory(value)),
                }
            }
            Contents::Raw(_) => match item {
                EnvelopeItem::Raw => Ok(()),
                item => Err(AddRefused::RawEnvelope(item)),
            },
        }
    }

    /// Returns the envelope headers.
    pub fn headers(&self) -> &EnvelopeHeaders
        ensures { headers_cell result.now ≡ header_of self.now }
    {
        &self.headers
    }

    /// Replaces the envelope headers. A raw envelope stays raw.
    pub fn with_headers(self, headers: EnvelopeHeaders) -> Envelope
        ensures header { header_of result ≡ headers_cell headers }
        ensures same { held result ≡ held self }
        ensures same_items { items_of result ≡ items_of self }
    {
        let Envelope {
            headers: _,
            contents,
        } = self;
        Envelope { headers, contents }
    }

    /// Returns the event id in the envelope headers.
    pub fn uuid(&self) -> Option<&Uuid>
        ensures { option_map (λ id. id.now) result ≡ event_id_of self.now }
    {
        self.headers.event_id()
    }

    /// Returns the first event; `None` for a raw envelope.
    pub fn event(&self) -> Option<&Event<'static>>
        ensures { option_map (λ event. event.now) result ≡ first_event (items_of self.now) }
    {
        first_event(self.item_slice())
    }

    /// Returns an iterator over the items, in order; a raw envelope has none.
    pub fn items(&self) -> EnvelopeItemIter<'_>
        ensures { items_left result ≡ items_of self.now }
    {
        EnvelopeItemIter::new(self.item_slice())
    }

    // Returns the items, in order; a raw envelope has none.
    pub(crate) fn item_slice(&self) -> &[EnvelopeItem]
        ensures { result.now ≡ items_of self.now }
    {
        match &self.contents {
            Contents::Items(items) => items,
            Contents::Raw(_) => &[],
        }
    }

    /// Returns an iterator over the items by value, in order; a raw envelope has none.
    pub fn into_items(self) -> IntoItems
        ensures { owned_items_left result ≡ items_of self }
    {
        let Envelope {
            headers: _,
            contents,
        } = self;
        match contents {
            Contents::Items(items) => IntoItems::new(items),
            Contents::Raw(bytes) => IntoItems::new(Vec::new(*bytes.allocator())),
        }
    }

    /// Returns whether the envelope is structured and plain: no JSON value in the envelope holds a
    /// float, and no additional member has the key of a field or, in a context, `type`.
    ///
    /// A structured envelope can be written exactly if the envelope is plain. That the written text
    /// reads back takes more: see [`crate::laws::back`]. `EnvelopeItem::Raw` isn't written, and
    /// counts as plain.
    pub fn is_plain(&self) -> bool
        ensures plain { IsTrue result ↔ IsSomeAnd (structured self.now) (IsEnvelopePlain profile) }
        ensures stored { IsTrue result →
            IsSomeAnd (structured self.now) (IsEnvelopeStored profile) }
    {
        match &self.contents {
            Contents::Items(items) => self.headers.is_plain() && items_are_plain(items),
            Contents::Raw(_) => false,
        }
    }

    // Returns the text of the envelope: the header line and the items, or the bytes of a raw
    // envelope.
    fn build_text(&self, alloc: Global) -> Result<Text<'_>, AllocError>
        ensures { IfOk result (λ text.
            PartsAreStoredAndPlain self.now → bytes_of text ≡ text_of self.now) }
    {
        match &self.contents {
            Contents::Items(items) => write_envelope(alloc, &self.headers, items),
            Contents::Raw(bytes) => Text::lent(alloc, bytes),
        }
    }

    // A raw envelope can always be written.
    #[tactic(auto, using(crate::proofs::Demands::stored_and_plain_parts, crate::proofs::Demands::plain_where_structured, crate::proofs::Demands::stored_where_structured))]
    fn is_unwritable(&self) -> bool
        ensures exactly { IsTrue result ↔ IsUnwritable self.now }
        ensures stored_and_plain { result ≡ false → PartsAreStoredAndPlain self.now }
        ensures plain { result ≡ false → IfSome (structured self.now) (IsEnvelopePlain profile) }
        ensures stored { result ≡ false → IfSome (structured self.now) (IsEnvelopeStored profile) }
    {
        match &self.contents {
            Contents::Items(_) => !self.is_plain(),
            Contents::Raw(_) => false,
        }
    }

    /// Returns the text that [`Envelope::to_writer`] writes, before any write. Large payloads in the
    /// text are lent, not copied.
    ///
    /// # Errors
    ///
    /// - `NotPlain` if the envelope is structured and isn't plain.
    /// - `Memory` if an allocation fails.
    pub fn text(&self, alloc: Global) -> Result<Text<'_>, EnvelopeWriteError>
        ensures ok { IfOk result (λ text. bytes_of text ≡ text_of self.now) }
        ensures plain { OnOk result (IfSome (structured self.now) (IsEnvelopePlain profile)) }
        ensures stored { OnOk result (IfSome (structured self.now) (IsEnvelopeStored profile)) }
        ensures sized { OnOk result (IfSome (structured self.now) (IsEnvelopeSized profile)) }
        ensures not_plain { (result ≡ Err EnvelopeWriteError.NotPlain) ↔ IsUnwritable self.now }
        ensures no_io { IfErr result (λ e. e ≢ EnvelopeWriteError.Io) }
    {
        if self.is_unwritable() {
            return Err(EnvelopeWriteError::NotPlain);
        }
        let Ok(text) = self.build_text(alloc) else {
            return Err(EnvelopeWriteError::Memory);
        };
        // Parts that lie in memory have fewer than 2^64 bytes together: that is counted here, for
        // `sized`.
        match text.len() {
            Some(_) => Ok(text),
            None => Err(EnvelopeWriteError::Memory),
        }
    }

    /// Writes the envelope: the header line, and the header and payload of each item; or the bytes
    /// of a raw envelope.
    ///
    /// # Errors
    ///
    /// - `NotPlain` if the envelope is structured and isn't plain; nothing was written.
    /// - `Memory` if an allocation fails; nothing was written.
    /// - `Io` if a write fails, is interrupted, or accepts 0 bytes; only a proper prefix of the
    ///   text was written, possibly none of it.
    pub fn to_writer<W: Write>(
        &self,
        alloc: Global,
        writer: &mut W,
    ) -> Result<(), EnvelopeWriteError>
        ensures whole { OnOk result (Appends (W.contents writer.old) (W.contents writer.new)
            (text_of self.now)) }
        ensures plain { OnOk result (IfSome (structured self.now) (IsEnvelopePlain profile)) }
        ensures stored { OnOk result (IfSome (structured self.now) (IsEnvelopeStored profile)) }
        ensures sized { OnOk result (IfSome (structured self.now) (IsEnvelopeSized profile)) }
        ensures not_plain { (result ≡ Err EnvelopeWriteError.NotPlain) ↔ IsUnwritable self.now }
        ensures nothing { IfErr result (λ e. e ≢ EnvelopeWriteError.Io →
            Keeps (W.contents writer.old) (W.contents writer.new)) }
        ensures front { result ≡ Err EnvelopeWriteError.Io →
            AppendsFront (W.contents writer.old) (W.contents writer.new) (text_of self.now) }
    {
        let text = self.text(alloc)?;
        text.send_plain(writer).map_err(|_| EnvelopeWriteError::Io)
    }

    /// Returns the text that [`Envelope::to_writer`] writes.
    ///
    /// # Errors
    ///
    /// - `NotPlain` if the envelope is structured and isn't plain.
    /// - `Memory` if an allocation fails.
    pub fn to_vec(&self, alloc: Global) -> Result<Vec<u8>, EnvelopeWriteError>
        ensures whole { IfOk result (λ text. text.items ≡ text_of self.now) }
        ensures plain { OnOk result (IfSome (structured self.now) (IsEnvelopePlain profile)) }
        ensures stored { OnOk result (IfSome (structured self.now) (IsEnvelopeStored profile)) }
        ensures sized { OnOk result (IfSome (structured self.now) (IsEnvelopeSized profile)) }
        ensures not_plain { (result ≡ Err EnvelopeWriteError.NotPlain) ↔ IsUnwritable self.now }
        ensures no_io { IfErr result (λ e. e ≢ EnvelopeWriteError.Io) }
    {
        let text = self.text(alloc)?;
        text.into_vec().map_err(|_| EnvelopeWriteError::Memory)
    }

    /// Writes the envelope as [`Envelope::to_writer`] does, to a writer that counts its failures.
    /// The count before has to be below 2^64-1.
    ///
    /// # Errors
    ///
    /// - `NotPlain` if the envelope is structured and isn't plain; nothing was written.
    /// - `Memory` if an allocation fails; nothing was written.
    /// - `Io` if a write fails, is interrupted, or accepts 0 bytes, which is counted; only a proper
    ///   prefix of the text was written, possibly none of it.
    pub fn write_counted<W: Write>(
        &self,
        alloc: Global,
        writer: &mut CountedWriter<W>,
    ) -> Result<(), EnvelopeWriteError>
        requires { writer_failures writer.old < 2 ^ 64 - 1 }
        ensures whole { OnOk result (Appends (W.contents (writer_inside writer.old))
            (W.contents (writer_inside writer.new)) (text_of self.now)) }
        ensures plain { OnOk result (IfSome (structured self.now) (IsEnvelopePlain profile)) }
        ensures stored { OnOk result (IfSome (structured self.now) (IsEnvelopeStored profile)) }
        ensures sized { OnOk result (IfSome (structured self.now) (IsEnvelopeSized profile)) }
        ensures not_plain { (result ≡ Err EnvelopeWriteError.NotPlain) ↔ IsUnwritable self.now }
        ensures nothing { IfErr result (λ e. e ≢ EnvelopeWriteError.Io →
            Keeps (W.contents (writer_inside writer.old)) (W.contents (writer_inside writer.new))) }
        ensures front { result ≡ Err EnvelopeWriteError.Io →
            AppendsFront (W.contents (writer_inside writer.old))
            (W.contents (writer_inside writer.new)) (text_of self.now) }
        ensures one_failure { result ≡ Err EnvelopeWriteError.Io →
            writer_failures writer.new ≡ writer_failures writer.old + 1 }
        ensures no_failure { result ≢ Err EnvelopeWriteError.Io →
            writer_failures writer.new ≡ writer_failures writer.old }
    {
        let text = self.text(alloc)?;
        text.send(writer).map_err(|_| EnvelopeWriteError::Io)
    }
}
