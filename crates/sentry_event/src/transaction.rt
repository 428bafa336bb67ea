//! Transactions: traced operations with their spans.
#![tactic(auto, unfolding(crate::specs::Transactions::transaction_fields))]

ghost use Rattle.std.specs.Prelude.{◌≡◌, codes, false, map};
ghost use Rattle.sentry_json.specs.Keys.{is_among};
ghost use Rattle.sentry_tables.specs.Fields.{rows_of};
ghost use Rattle.sentry_tables.specs.Reading.{keys_but};
ghost use Rattle.sentry_event.specs.Transactions.{transaction_fields, transaction_in_order};

use crate::apart::ReadApart;
use crate::owned::{owned_option, owned_text};
use crate::span::Span;
use rand_core::Rng;
use sentry_contexts::Context;
use sentry_identifiers::{Simple, random_uuid};
use sentry_moments::{Moment, Rfc3339, Seconds};
use sentry_parts::{ClientSdkInfo, Request, User};
use sentry_rows::{AsCaseMap, AsTable, Copier, CopyTable, ReadTableAt, Sink, Source, Table};
use sentry_tables::{Formed, Member};
use serde_json::{Map, Value};
use std::alloc::{AllocError, Global};
use std::borrow::CowStr;
use std::fmt;
use uuid::Uuid;

/// A transaction: a traced operation with its spans.
///
/// On reading, an absent `event_id` is drawn from the generator, and an absent `start_timestamp` is
/// the moment of reading.
///
/// <https://develop.sentry.dev/sdk/data-model/event-payloads/transaction/>
#[derive(Debug, Drop, PartialEq)]
pub struct Transaction<'a> {
    /// Event id of the transaction: a UUID, written as 32 hex digits.
    pub event_id: Uuid,
    /// Transaction name (member `transaction`).
    pub name: Option<String>,
    /// Release of the application.
    pub release: Option<CowStr<'a>>,
    /// Environment, such as `production`.
    pub environment: Option<CowStr<'a>>,
    /// The user for whom the transaction ran.
    pub user: Option<User>,
    /// Searchable tags, by name.
    pub tags: Map<String, String>,
    /// Additional data, by name.
    pub extra: Map<String, Value>,
    /// The SDK that sends the transaction.
    pub sdk: Option<ClientSdkInfo>,
    /// Platform of the application; defaults to `other`.
    pub platform: CowStr<'a>,
    /// End time: RFC 3339; null is rejected.
    pub timestamp: Option<Moment>,
    /// Start time: RFC 3339 or whole seconds.
    pub start_timestamp: Moment,
    /// Spans of the transaction; required.
    pub spans: Vec<Span>,
    /// Contexts, by name.
    pub contexts: Map<String, Context>,
    /// The HTTP request that the transaction handled.
    pub request: Option<Request>,
    /// Name of the server or device.
    pub server_name: Option<CowStr<'a>>,
}

impl<'a> Transaction<'a> {
    ghost use Rattle.std.specs.Prelude.{IfErr, IfOk};
    ghost use Rattle.rand_core.specs.Stream.{fill_bytes};
    ghost use Rattle.uuid.specs.Parts.{v4_of_fill};
    ghost use Rattle.sentry_tables.specs.Defaults.{IsDefaultAt};
    ghost use Rattle.sentry_moments.specs.Moments.{moment_cell};
    ghost use Rattle.sentry_event.specs.Transactions.{EndsAt, transaction_cell};

    /// Creates a transaction that starts at `now`, of platform `other`, with no other fields set.
    ///
    /// The event id is a random UUID (version 4) drawn from `ids`.
    pub fn new<R: Rng>(alloc: Global, now: Moment, ids: &mut R) -> Transaction<'a>
        ensures rows { IsDefaultAt (moment_cell now) transaction_fields result }
        ensures id { (result.event_id, R.stream ids.new) ≡
            v4_of_fill (fill_bytes 16 (R.stream ids.old)) }
    {
        let event_id = random_uuid(ids);
        Transaction {
            event_id,
            name: None,
            release: None,
            environment: None,
            user: None,
            tags: Map::new(alloc),
            extra: Map::new(alloc),
            sdk: None,
            platform: CowStr::Borrowed("other"),
            timestamp: None,
            start_timestamp: now,
            spans: Vec::new(alloc),
            contexts: Map::new(alloc),
            request: None,
            server_name: None,
        }
    }

    /// Converts the transaction into one that borrows nothing; returns the transaction unchanged if
    /// an allocation fails.
    pub fn into_owned(self, alloc: Global) -> Result<Transaction<'static>, Transaction<'a>>
        ensures owned { IfOk result (λ t. transaction_cell t ≡ transaction_cell self.entry) }
        ensures handed_back { IfErr result (λ back. back ≡ self.entry) }
    {
        let Ok(platform_owned) = owned_text(alloc, &self.platform) else {
            return Err(self);
        };
        let Ok(release_owned) = owned_option(alloc, &self.release) else {
            return Err(self);
        };
        let Ok(environment_owned) = owned_option(alloc, &self.environment) else {
            return Err(self);
        };
        let Ok(server_name_owned) = owned_option(alloc, &self.server_name) else {
            return Err(self);
        };
        Ok(Transaction {
            event_id: self.event_id,
            name: self.name,
            release: release_owned,
            environment: environment_owned,
            user: self.user,
            tags: self.tags,
            extra: self.extra,
            sdk: self.sdk,
            platform: platform_owned,
            timestamp: self.timestamp,
            start_timestamp: self.start_timestamp,
            spans: self.spans,
            contexts: self.contexts,
            request: self.request,
            server_name: server_name_owned,
        })
    }

    /// Finishes the transaction at the current time: sets `timestamp` to `now`.
    pub fn finish(&mut self, now: Moment)
        ensures { EndsAt now self.old self.new }
    {
        self.timestamp = Some(now);
    }

    /// Finishes the transaction at a given time: sets `timestamp`.
    pub fn finish_with_timestamp(&mut self, timestamp: Moment)
        ensures { EndsAt timestamp self.old self.new }
    {
        self.timestamp = Some(timestamp);
    }

    /// Clones the transaction. `AllocError` if an allocation fails.
    pub fn clone(&self) -> Result<Transaction<'a>, AllocError>
        ensures { IfOk result (λ copy. transaction_cell copy ≡ transaction_cell self.now) }
    {
        self.copy()
    }
}

/// Formats the event id, with hyphens, and the start time:
/// `Transaction(id: d43e86c9-6e42-4a93-a4fb-da156dd17341, ts: 2017-12-24T08:12:00Z)`.
impl fmt::Display for Transaction<'_> {
    ghost use Rattle.std.specs.Prelude.{Some};
    ghost use Rattle.sentry_event.specs.Transactions.{transaction_text};

    ghost output = { λ t. Some (transaction_text t) };

    fn fmt<W: fmt::Write>(&self, f: &mut fmt::Formatter<W>) -> fmt::Result {
        let id = self.event_id.hyphenated();
        write!(f, "Transaction(id: {}, ts: {})", id, self.start_timestamp)
    }
}

impl<'a> Formed for Transaction<'a> {
    type Form = AsTable;
}

impl<'a> Table for Transaction<'a> {
    ghost lines = { transaction_fields };

    fn rows<S: Sink>(&self, to: &mut S) {
        to.unless_usual_as::<AsCaseMap, Map<String, Context>>("contexts", &self.contexts);
        to.optional("environment", &self.environment);
        to.drawn_as::<Simple, Uuid>("event_id", &self.event_id);
        to.map("extra", &self.extra);
        to.text_unless("platform", &self.platform, "other");
        to.optional("release", &self.release);
        to.optional("request", &self.request);
        to.optional("sdk", &self.sdk);
        to.optional("server_name", &self.server_name);
        to.required("spans", &self.spans);
        to.at_once_as::<Seconds, Moment>("start_timestamp", &self.start_timestamp);
        to.map("tags", &self.tags);
        to.optional_strict_as::<Rfc3339, Moment>("timestamp", &self.timestamp);
        to.optional("transaction", &self.name);
        to.optional("user", &self.user);
    }

    ghost ordered = { transaction_in_order };
}

impl<'a> ReadTableAt for Transaction<'a> {
    fn read<S: Source, R: Rng>(from: &mut S, now: Moment, ids: &mut R) -> Transaction<'a> {
        Transaction {
            contexts: from.or_as_at::<AsCaseMap, Map<String, Context>, R>(
                "contexts",
                Map::new(from.alloc()),
                now,
                ids,
            ),
            environment: from.optional("environment"),
            event_id: from.drawn_as::<Simple, Uuid, R>("event_id", ids),
            extra: from.map("extra"),
            platform: from.cow_or("platform", "other"),
            release: from.optional("release"),
            request: from.optional("request"),
            sdk: from.optional("sdk"),
            server_name: from.optional("server_name"),
            spans: from.required_list_at("spans", now, ids),
            start_timestamp: from.at_once_as::<Seconds>("start_timestamp", now),
            tags: from.map("tags"),
            timestamp: from.optional_strict_as::<Rfc3339, Moment>("timestamp"),
            name: from.optional("transaction"),
            user: from.optional("user"),
        }
    }
}

impl<'a> CopyTable for Transaction<'a> {
    fn copy_rows(&self, copies: &mut Copier) -> Result<Transaction<'a>, AllocError> {
        Ok(Transaction {
            contexts: copies.of_as::<AsCaseMap, Map<String, Context>>(&self.contexts)?,
            environment: copies.optional(&self.environment),
            event_id: copies.plain_as::<Simple, Uuid>(&self.event_id),
            extra: copies.map(&self.extra)?,
            platform: copies.cow(&self.platform),
            release: copies.optional(&self.release),
            request: copies.optional(&self.request),
            sdk: copies.optional(&self.sdk),
            server_name: copies.optional(&self.server_name),
            spans: copies.list(&self.spans),
            start_timestamp: copies.plain_as::<Seconds, Moment>(&self.start_timestamp),
            tags: copies.map(&self.tags)?,
            timestamp: copies.optional_strict_as::<Rfc3339, Moment>(&self.timestamp),
            name: copies.optional(&self.name),
            user: copies.optional(&self.user),
        })
    }
}

impl<'a> ReadApart for Box<Transaction<'a>> {
    ghost keys_beside = { keys_but (codes "extra") (rows_of transaction_fields) };

    fn keys() -> &'static [&'static str]
        ensures keys { map (λ key. key.now) result.now
            ≡ keys_but (codes "extra") (rows_of transaction_fields) }
        ensures apart { is_among (codes "extra")
            (keys_but (codes "extra") (rows_of transaction_fields)) ≡ false }
    {
        &[
            "contexts",
            "environment",
            "event_id",
            "platform",
            "release",
            "request",
            "sdk",
            "server_name",
            "spans",
            "start_timestamp",
            "tags",
            "timestamp",
            "transaction",
            "user",
        ]
    }

    fn with_extra(self, extra: Option<Map<String, Value>>) -> Box<Transaction<'a>> {
        let mut transaction = self;
        if let Some(extra) = extra {
            transaction.extra = extra;
        }
        transaction
    }
}
