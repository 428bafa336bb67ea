//! Clones and normal forms of envelopes.

ghost use Rattle.std.specs.Prelude.{◌≡◌, IfOk, map};
ghost use Rattle.sentry_envelope.specs.EnvelopeMade.{stands, items_made, header_made};
ghost use Rattle.sentry_envelope.specs.EnvelopeView.{item_view};
ghost use Rattle.sentry_envelope.specs.HeaderFields.{headers_cell};

use crate::envelope::{Contents, Envelope};
use crate::filtering::first_id;
use crate::headers::EnvelopeHeaders;
use sentry_items::EnvelopeItem;
use sentry_tables::{Member, Way};
use std::alloc::{AllocError, Global};

impl Envelope {
    ghost use Rattle.std.specs.Prelude.{IfSome, IsSome, IsSomeAnd};
    ghost use Rattle.sentry_envelope.specs.Envelope.{IsEnvelopePlain, IsEnvelopeReadable, IsEnvelopeSized, envelope_norm, envelope_text};
    ghost use Rattle.sentry_envelope.specs.EnvelopeMade.{IsMade, IsNormalForm, SpellsAlone};
    ghost use Rattle.sentry_envelope.specs.EnvelopeView.{IsSame, raw_bytes, structured};
    ghost use Rattle.sentry_envelope.specs.SentryProfile.{profile};

    // Clones the envelope, or makes its normal form. A raw envelope has no other form.
    fn remake(&self, way: Way) -> Result<Envelope, AllocError>
        ensures { IfOk result (IsMade way self.now) }
    {
        match &self.contents {
            Contents::Items(items) => Ok(Envelope {
                headers: remake_headers(&self.headers, items, way)?,
                contents: Contents::Items(remake_items(*items.allocator(), items, way)?),
            }),
            Contents::Raw(bytes) => Ok(Envelope {
                headers: self.headers.clone()?,
                contents: Contents::Raw(bytes.clone()?),
            }),
        }
    }

    /// Clones the envelope. `AllocError` if an allocation fails.
    #[tactic(auto, using(crate::proofs::EnvelopeMade::same_made))]
    pub fn clone(&self) -> Result<Envelope, AllocError>
        ensures { IfOk result (λ e. IsSame e self.now) }
    {
        self.remake(Way::Same)
    }

    /// Returns the normal form: the envelope that is read back from the text of this one, whether
    /// or not the envelope can be written and read. `AllocError` if an allocation fails.
    ///
    /// The normal form has the normal form of each field and no `EnvelopeItem::Raw`; an absent
    /// event id becomes that of the first event or transaction. For a raw envelope the result is a
    /// clone.
    ///
    /// The normal form of a plain envelope is plain and its own normal form. If the envelope is
    /// also readable, so is the form; if it is sized too, as whatever `to_writer` has written is,
    /// the envelope's text reads back as this form and as nothing else.
    #[tactic(auto, using(crate::proofs::EnvelopeMade::answers_raw))]
    pub fn normalized(&self) -> Result<Envelope, AllocError>
        ensures normal { IfOk result (λ n. IfSome (structured self.now) (λ m.
            structured n ≡ Some (envelope_norm profile m))) }
        ensures raw { IfOk result (λ n. IsSome (raw_bytes self.now) → IsSame n self.now) }
        ensures own { IfOk result (λ n. IfSome (structured self.now) (λ m. IsEnvelopePlain profile m
            → IsSomeAnd (structured n) (IsNormalForm profile))) }
        ensures readable { IfOk result (λ n. IfSome (structured self.now) (λ m.
            IsEnvelopePlain profile m
            → IsEnvelopeReadable profile m →
            IsSomeAnd (structured n) (IsEnvelopeReadable profile))) }
        ensures read_back { IfOk result (λ n. IfSome (structured self.now) (λ m.
            IsEnvelopePlain profile m
            → IsEnvelopeReadable profile m → IsEnvelopeSized profile m →
            IsSomeAnd (structured n) (SpellsAlone profile (envelope_text profile m)))) }
    {
        // Called for its contract: a plain envelope is stored, as the laws demand.
        let _is_plain = self.is_plain();
        let alloc = match &self.contents {
            Contents::Items(items) => *items.allocator(),
            Contents::Raw(bytes) => *bytes.allocator(),
        };
        self.remake(Way::Normal(alloc))
    }
}

// The normal form takes the first id of the items for an absent event id.
#[tactic(auto, using(crate::proofs::EnvelopeMade::header_same, crate::proofs::EnvelopeMade::header_normal))]
fn remake_headers(
    headers: &EnvelopeHeaders,
    items: &[EnvelopeItem],
    way: Way,
) -> Result<EnvelopeHeaders, AllocError>
    ensures { IfOk result (λ made.
        headers_cell made ≡ header_made way (headers_cell headers.now) (map item_view items.now)) }
{
    let mut made = headers.remake(way)?;
    match way {
        Way::Same => {}
        Way::Normal(_) => made.fill(first_id(items)),
    }
    Ok(made)
}

fn remake_items(
    alloc: Global,
    items: &[EnvelopeItem],
    way: Way,
) -> Result<Vec<EnvelopeItem>, AllocError>
    ensures { IfOk result (λ made.
        map item_view made.items ≡ items_made way (map item_view items.now)) }
{
    let mut made = Vec::with_capacity(alloc, items.len())?;
    for item in items {
        if stands(item, way) {
            made.push(item.remake(way)?)?;
        }
    }
    Ok(made)
}

// A normal form has no `Raw`, which is never written.
#[tactic(auto, unfolding(crate::specs::EnvelopeMade::stands))]
fn stands(item: &EnvelopeItem, way: Way) -> bool
    ensures { result ≡ stands way (item_view item.now) }
{
    match way {
        Way::Same => true,
        Way::Normal(_) => !matches!(item, EnvelopeItem::Raw),
    }
}
