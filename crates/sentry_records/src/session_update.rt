//! Session updates.
#![tactic(auto, unfolding(crate::specs::Sessions::session_fields))]

ghost use Rattle.sentry_records.specs.Sessions.{session_fields, session_in_order};

use crate::session_attributes::SessionAttributes;
use rand_core::Rng;
use sentry_identifiers::Hyphenated;
use sentry_moments::{Moment, Rfc3339};
use sentry_rows::{AsTable, Copier, CopyTable, ReadTableAt, Sink, Source, Table};
use sentry_tables::{Formed, Member};
use sentry_words::SessionStatus;
use std::alloc::AllocError;
use uuid::Uuid;

/// A session update: the state of a running session, or how the session ended.
///
/// When an update is read, an absent `sid` is a random UUID from the caller's generator, and an
/// absent `started` is the caller's `now`.
///
/// <https://develop.sentry.dev/sdk/telemetry/sessions/>
#[derive(Debug, Drop, PartialEq)]
pub struct SessionUpdate<'a> {
    /// Session id (`sid`).
    pub session_id: Uuid,
    /// Distinct id of the user or device (`did`); `None` is written as null.
    pub distinct_id: Option<String>,
    /// Sequence number, which grows with each update (`seq`).
    pub sequence: Option<u64>,
    /// Time of the update: RFC 3339.
    pub timestamp: Option<Moment>,
    /// Start of the session: RFC 3339.
    pub started: Moment,
    /// Whether this is the first update of the session; defaults to `false`.
    pub init: bool,
    /// Duration of the session so far, in seconds.
    pub duration: Option<u64>,
    /// Session status; defaults to `ok`.
    pub status: SessionStatus,
    /// Number of errors in the session; defaults to 0.
    pub errors: u64,
    /// Session attributes (`attrs`); required.
    pub attributes: SessionAttributes<'a>,
}

impl<'a> SessionUpdate<'a> {
    ghost use Rattle.std.specs.Prelude.{◌≡◌, IfOk};
    ghost use Rattle.sentry_records.specs.Sessions.{session_cell};

    /// Clones the update. `AllocError` if an allocation fails.
    pub fn clone(&self) -> Result<SessionUpdate<'a>, AllocError>
        ensures { IfOk result (λ copy. session_cell copy ≡ session_cell self.now) }
    {
        self.copy()
    }
}

impl<'a> Formed for SessionUpdate<'a> {
    type Form = AsTable;
}

impl<'a> Table for SessionUpdate<'a> {
    ghost lines = { session_fields };

    fn rows<S: Sink>(&self, to: &mut S) {
        to.required("attrs", &self.attributes);
        to.optional_or_null("did", &self.distinct_id);
        to.optional("duration", &self.duration);
        to.always("errors", &self.errors);
        to.unless("init", &self.init, &false);
        to.optional("seq", &self.sequence);
        to.drawn_as::<Hyphenated, Uuid>("sid", &self.session_id);
        to.at_once_as::<Rfc3339, Moment>("started", &self.started);
        to.always("status", &self.status);
        to.optional_strict_as::<Rfc3339, Moment>("timestamp", &self.timestamp);
    }

    ghost ordered = { session_in_order };
}

impl<'a> ReadTableAt for SessionUpdate<'a> {
    fn read<S: Source, R: Rng>(from: &mut S, now: Moment, ids: &mut R) -> SessionUpdate<'a> {
        SessionUpdate {
            attributes: from.required("attrs", SessionAttributes::blank()),
            distinct_id: from.optional_or_null("did"),
            duration: from.optional("duration"),
            errors: from.written_or("errors", 0),
            init: from.or("init", false),
            sequence: from.optional("seq"),
            session_id: from.drawn_as::<Hyphenated, Uuid, R>("sid", ids),
            started: from.at_once_as::<Rfc3339>("started", now),
            status: from.written_or("status", SessionStatus::Ok),
            timestamp: from.optional_strict_as::<Rfc3339, Moment>("timestamp"),
        }
    }
}

impl<'a> CopyTable for SessionUpdate<'a> {
    fn copy_rows(&self, copies: &mut Copier) -> Result<SessionUpdate<'a>, AllocError> {
        Ok(SessionUpdate {
            attributes: copies.of(&self.attributes)?,
            distinct_id: copies.optional(&self.distinct_id),
            duration: copies.optional(&self.duration),
            errors: copies.plain(&self.errors),
            init: copies.plain(&self.init),
            sequence: copies.optional(&self.sequence),
            session_id: copies.plain_as::<Hyphenated, Uuid>(&self.session_id),
            started: copies.plain_as::<Rfc3339, Moment>(&self.started),
            status: copies.plain(&self.status),
            timestamp: copies.optional_strict_as::<Rfc3339, Moment>(&self.timestamp),
        })
    }
}
