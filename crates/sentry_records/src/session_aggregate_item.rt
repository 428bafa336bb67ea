//! Groups of sessions in session aggregates.
#![tactic(auto, unfolding(crate::specs::Sessions::group_fields))]

ghost use Rattle.sentry_records.specs.Sessions.{group_fields, group_in_order};

use crate::stand_in::epoch;
use sentry_moments::{Moment, Rfc3339};
use sentry_rows::{AsTable, Copier, CopyTable, ReadTable, Sink, Source, Table};
use sentry_tables::{Formed, Member};
use std::alloc::AllocError;

/// A group in session aggregates: the sessions of one user that started in one minute, counted by
/// how they ended.
///
/// <https://develop.sentry.dev/sdk/telemetry/sessions/>
#[derive(Debug, Drop, PartialEq)]
pub struct SessionAggregateItem {
    /// Start of the sessions: RFC 3339; required.
    pub started: Moment,
    /// Distinct id of the user or device (`did`).
    pub distinct_id: Option<String>,
    /// Number of sessions that exited without errors; defaults to 0.
    pub exited: u32,
    /// Number of sessions that exited with errors; defaults to 0.
    pub errored: u32,
    /// Number of sessions that ended abnormally; defaults to 0.
    pub abnormal: u32,
    /// Number of sessions that crashed; defaults to 0.
    pub crashed: u32,
}

impl SessionAggregateItem {
    ghost use Rattle.std.specs.Prelude.{◌≡◌, IfOk};
    ghost use Rattle.sentry_records.specs.Sessions.{group_cell};

    /// Clones the item. `AllocError` if an allocation fails.
    pub fn clone(&self) -> Result<SessionAggregateItem, AllocError>
        ensures { IfOk result (λ copy. group_cell copy ≡ group_cell self.now) }
    {
        self.copy()
    }
}

impl Formed for SessionAggregateItem {
    type Form = AsTable;
}

impl Table for SessionAggregateItem {
    ghost lines = { group_fields };

    fn rows<S: Sink>(&self, to: &mut S) {
        to.unless("abnormal", &self.abnormal, &0);
        to.unless("crashed", &self.crashed, &0);
        to.optional("did", &self.distinct_id);
        to.unless("errored", &self.errored, &0);
        to.unless("exited", &self.exited, &0);
        to.required_as::<Rfc3339, Moment>("started", &self.started);
    }

    ghost ordered = { group_in_order };
}

impl ReadTable for SessionAggregateItem {
    fn read<S: Source>(from: &mut S) -> SessionAggregateItem {
        SessionAggregateItem {
            abnormal: from.or("abnormal", 0),
            crashed: from.or("crashed", 0),
            distinct_id: from.optional("did"),
            errored: from.or("errored", 0),
            exited: from.or("exited", 0),
            started: from.required_as::<Rfc3339, Moment>("started", epoch()),
        }
    }
}

impl CopyTable for SessionAggregateItem {
    fn copy_rows(&self, copies: &mut Copier) -> Result<SessionAggregateItem, AllocError> {
        Ok(SessionAggregateItem {
            abnormal: copies.plain(&self.abnormal),
            crashed: copies.plain(&self.crashed),
            distinct_id: copies.optional(&self.distinct_id),
            errored: copies.plain(&self.errored),
            exited: copies.plain(&self.exited),
            started: copies.plain_as::<Rfc3339, Moment>(&self.started),
        })
    }
}
