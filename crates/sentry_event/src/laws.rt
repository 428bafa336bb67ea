//! Laws of events, spans, transactions and fingerprints: a written value reads back as its normal
//! form, which is its own normal form, and as nothing else.

ghost use Rattle.sentry_tables.specs.Laws.{HasLaws};
ghost use Rattle.sentry_event.specs.Events.{event_kind};
ghost use Rattle.sentry_event.specs.Fingerprints.{fingerprint_kind};
ghost use Rattle.sentry_event.specs.Spans.{span_kind};
ghost use Rattle.sentry_event.specs.Transactions.{transaction_kind};

/// Spans, transactions, events and fingerprints have the laws of JSON forms (`HasLaws`): a stored,
/// plain and readable value round-trips to its normal form, the normal form is its own normal form,
/// and a value that was read is written as its normal form is.
#[tactic(auto, using(crate::proofs::EventLaws::span_laws, crate::proofs::EventLaws::transaction_laws, crate::proofs::EventLaws::event_laws, crate::proofs::EventLaws::fingerprint_laws))]
pub fn tables()
    ensures spans { HasLaws span_kind }
    ensures transactions { HasLaws transaction_kind }
    ensures events { HasLaws event_kind }
    ensures fingerprints { HasLaws fingerprint_kind }
{}
