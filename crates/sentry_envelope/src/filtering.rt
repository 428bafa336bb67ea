//! Filtering of envelopes.

ghost use Rattle.std.specs.Prelude.{◌≡◌, ◌≤◌, not, map, option_map, filter as filter_list, vec_len, vec_capacity, []};
ghost use Rattle.std.specs.List.{list_any};
ghost use Rattle.sentry_envelope.specs.EnvelopeView.{first_event};
ghost use Rattle.sentry_envelope.specs.HeaderFields.{headers_cell, put_id};
ghost use Rattle.sentry_envelope.specs.Filter.{Asks, Run, Hand, Filters, header_left, is_main, is_orphan, id_of, first_id_of};

use crate::envelope::{Contents, Envelope};
use crate::filter::EnvelopeFilter;
use crate::headers::EnvelopeHeaders;
use sentry_event::Event;
use sentry_items::EnvelopeItem;
use std::alloc::Global;
use uuid::Uuid;

impl Envelope {
    ghost use Rattle.std.specs.Prelude.{IfOk, IfErr};
    ghost use Rattle.sentry_envelope.specs.EnvelopeView.{header_of, no_fields};
    ghost use Rattle.sentry_envelope.specs.Filter.{FiltersEnvelope};

    /// Removes the items that a filter rejects.
    ///
    /// The filter decides about each item once, in order, and receives a rejected item at once. If
    /// then no event and no transaction is kept, the attachments that the filter wanted to keep are
    /// removed, too, and handed over in order. Returns `None` if no item is left, and otherwise an
    /// envelope of the items that are left, in order, whose only header is the id of the first
    /// event or transaction among them.
    ///
    /// A raw envelope is filtered as one item, `EnvelopeItem::Raw`: the whole envelope is kept, or
    /// the filter receives `EnvelopeItem::Raw` and `None` is returned.
    ///
    /// The filter is dropped afterwards. [`Envelope::filter_by`] borrows the filter, to know its
    /// last state, and accepts closures that borrow, too.
    ///
    /// The method `filter` of Sentry's own crate `sentry-types` is described at
    /// <https://docs.rs/sentry-types/latest/sentry_types/protocol/v7/struct.Envelope.html>.
    ///
    /// # Errors
    ///
    /// The envelope and the filter, both unchanged, if an allocation fails; the filter was not
    /// called.
    pub fn filter<F: EnvelopeFilter>(
        self,
        alloc: Global,
        mut filter: F,
    ) -> Result<Option<Envelope>, (Envelope, F)>
        requires { F.can_filter filter }
        ensures filtered { IfOk result (λ left. (last : F) ×
            FiltersEnvelope no_fields F.ask F.hand self filter last left) }
        ensures refused { IfErr result (λ given. (given.0 ≡ self) × (given.1 ≡ filter)) }
    {
        match self.filter_by(alloc, &mut filter) {
            Ok(left) => Ok(left),
            Err(envelope) => Err((envelope, filter)),
        }
    }

    /// Removes items as [`Envelope::filter`] does, with a borrowed filter.
    ///
    /// # Errors
    ///
    /// The envelope, unchanged, if an allocation fails; the filter was not called.
    pub fn filter_by<F: EnvelopeFilter>(
        self,
        alloc: Global,
        filter: &mut F,
    ) -> Result<Option<Envelope>, Envelope>
        requires { F.can_filter filter.old }
        ensures filtered { IfOk result
            (FiltersEnvelope no_fields F.ask F.hand self filter.old filter.new) }
        ensures refused { IfErr result (λ envelope. (envelope ≡ self) × (filter.new ≡ filter.old)) }
        ensures callable { F.can_filter filter.new }
    {
        self.filter_with(alloc, filter, false)
    }

    /// Removes items as [`Envelope::filter_by`] does, and keeps all headers but the event id, which
    /// becomes that of the first event or transaction that is left.
    ///
    /// # Errors
    ///
    /// The envelope, unchanged, if an allocation fails; the filter was not called.
    pub fn filter_keep_headers<F: EnvelopeFilter>(
        self,
        alloc: Global,
        filter: &mut F,
    ) -> Result<Option<Envelope>, Envelope>
        requires { F.can_filter filter.old }
        ensures filtered { IfOk result
            (FiltersEnvelope (header_of self) F.ask F.hand self filter.old filter.new) }
        ensures refused { IfErr result (λ envelope. (envelope ≡ self) × (filter.new ≡ filter.old)) }
        ensures callable { F.can_filter filter.new }
    {
        self.filter_with(alloc, filter, true)
    }

    /// Removes items as [`Envelope::filter_by`] does; `keep_headers` tells whether the headers
    /// other than the event id stay, as by [`Envelope::filter_keep_headers`].
    ///
    /// # Errors
    ///
    /// The envelope, unchanged, if an allocation fails; the filter was not called.
    pub fn filter_with<F: EnvelopeFilter>(
        self,
        alloc: Global,
        filter: &mut F,
        keep_headers: bool,
    ) -> Result<Option<Envelope>, Envelope>
        requires { F.can_filter filter.old }
        ensures filtered { IfOk result
            (FiltersEnvelope (header_left keep_headers (header_of self))
            F.ask F.hand self filter.old filter.new) }
        ensures refused { IfErr result (λ envelope. (envelope ≡ self) × (filter.new ≡ filter.old)) }
        ensures callable { F.can_filter filter.new }
    {
        let Envelope { headers, contents } = self;
        let items = match contents {
            Contents::Items(items) => items,
            Contents::Raw(bytes) => {
                if filter.filter(&EnvelopeItem::Raw) {
                    let contents = Contents::Raw(bytes);
                    return Ok(Some(Envelope { headers, contents }));
                }
                filter.on_filtered(EnvelopeItem::Raw);
                return Ok(None);
            }
        };
        let count = items.len();
        let (Ok(chosen), Ok(others)) = (
            Vec::with_capacity(alloc, count),
            Vec::with_capacity(alloc, count),
        ) else {
            let contents = Contents::Items(items);
            return Err(Envelope { headers, contents });
        };
        let kept = filter_items(items, filter, chosen, others);
        if kept.is_empty() {
            return Ok(None);
        }
        let headers = headers_of_rest(headers, keep_headers, first_id(&kept));
        let contents = Contents::Items(kept);
        Ok(Some(Envelope { headers, contents }))
    }
}

// Returns the items that are left. `chosen` and `others` are empty, with capacity for all items: no
// allocation comes after the first call of the filter.
fn filter_items<F: EnvelopeFilter>(
    items: Vec<EnvelopeItem>,
    filter: &mut F,
    chosen: Vec<EnvelopeItem>,
    others: Vec<EnvelopeItem>,
) -> Vec<EnvelopeItem>
    requires callable { F.can_filter filter.old }
    requires no_chosen { (chosen.items ≡ []) × (vec_len chosen ≡ 0) }
    requires no_others { (others.items ≡ []) × (vec_len others ≡ 0) }
    requires room { (vec_len items ≤ vec_capacity chosen) × (vec_len items ≤ vec_capacity others) }
    ensures filters { Filters F.ask F.hand items.items filter.old filter.new result.items }
    ensures callable { F.can_filter filter.new }
{
    let chosen = ask_each(items, filter, chosen);
    if has_main(&chosen) {
        return chosen;
    }
    hand_orphans(chosen, filter, others)
}

// Returns the items that the filter wants to keep; each other item is handed over at once.
fn ask_each<F: EnvelopeFilter>(
    items: Vec<EnvelopeItem>,
    filter: &mut F,
    mut chosen: Vec<EnvelopeItem>,
) -> Vec<EnvelopeItem>
    requires callable { F.can_filter filter.old }
    requires empty { chosen.items ≡ [] }
    requires unused { vec_len chosen ≡ 0 }
    requires room { vec_len items ≤ vec_capacity chosen }
    ensures fewer { vec_len result ≤ vec_len items }
    ensures asks { Asks F.ask F.hand items.items filter.old filter.new result.items }
    ensures callable { F.can_filter filter.new }
{
    for item in items {
        if filter.filter(&item) {
            chosen.push(item).unwrap();
        } else {
            filter.on_filtered(item);
        }
    }
    chosen
}

// Hands over the orphans, in order, and returns the other items.
fn hand_orphans<F: EnvelopeFilter>(
    chosen: Vec<EnvelopeItem>,
    filter: &mut F,
    mut others: Vec<EnvelopeItem>,
) -> Vec<EnvelopeItem>
    requires callable { F.can_filter filter.old }
    requires empty { others.items ≡ [] }
    requires unused { vec_len others ≡ 0 }
    requires room { vec_len chosen ≤ vec_capacity others }
    ensures hands { Run F.ask F.hand filter.old
        (map Hand (filter_list is_orphan chosen.items)) filter.new }
    ensures others { result.items ≡ filter_list (λ item. not (is_orphan item)) chosen.items }
    ensures callable { F.can_filter filter.new }
{
    for item in chosen {
        if is_orphan(&item) {
            filter.on_filtered(item);
        } else {
            others.push(item).unwrap();
        }
    }
    others
}

fn has_main(items: &[EnvelopeItem]) -> bool
    ensures { result ≡ list_any is_main items.now }
{
    items.iter().any(is_main)
}

// Replaces the event id; `keep_headers` tells whether the other headers stay.
pub(crate) fn headers_of_rest(
    headers: EnvelopeHeaders,
    keep_headers: bool,
    event_id: Option<Uuid>,
) -> EnvelopeHeaders
    ensures { headers_cell result ≡
        put_id event_id (header_left keep_headers (headers_cell headers)) }
{
    if keep_headers {
        headers.with_id(event_id)
    } else {
        EnvelopeHeaders::new().with_id(event_id)
    }
}

// The id of the first event or transaction.
pub(crate) fn first_id(items: &[EnvelopeItem]) -> Option<Uuid>
    ensures { result ≡ first_id_of items.now }
{
    for item in items {
        if let Some(id) = id_of(item) {
            return Some(id);
        }
    }
    None
}

pub(crate) fn first_event(items: &[EnvelopeItem]) -> Option<&Event<'static>>
    ensures { option_map (λ event. event.now) result ≡ first_event items.now }
{
    for item in items {
        if let EnvelopeItem::Event(event) = item {
            return Some(event.as_ref());
        }
    }
    None
}

// Whether the item is an event or a transaction.
fn is_main(item: &EnvelopeItem) -> bool
    ensures { result ≡ is_main item.now }
{
    id_of(item).is_some()
}

// The id that an event or a transaction gives its envelope.
#[tactic(auto, unfolding(crate::specs::Filter::id_of, sentry_event::specs::Events::event_fields, sentry_event::specs::Transactions::transaction_fields))]
pub(crate) fn id_of(item: &EnvelopeItem) -> Option<Uuid>
    ensures { result ≡ id_of item.now }
{
    match item {
        EnvelopeItem::Event(event) => Some(event.event_id),
        EnvelopeItem::Transaction(transaction) => Some(transaction.event_id),
        _ => None,
    }
}

// Whether the item is an attachment: removed if no event and no transaction is kept.
#[tactic(auto, unfolding(crate::specs::Filter::is_orphan))]
fn is_orphan(item: &EnvelopeItem) -> bool
    ensures { result ≡ is_orphan item.now }
{
    matches!(item, EnvelopeItem::Attachment(_))
}
