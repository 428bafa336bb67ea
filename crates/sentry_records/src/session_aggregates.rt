//! Session aggregates.
#![tactic(auto, unfolding(crate::specs::Sessions::groups_fields))]

ghost use Rattle.sentry_records.specs.Sessions.{groups_fields, groups_in_order};

use crate::session_aggregate_item::SessionAggregateItem;
use crate::session_attributes::SessionAttributes;
use sentry_rows::{AsTable, Copier, CopyTable, ReadTable, Sink, Source, Table};
use sentry_tables::{Formed, Member};
use std::alloc::AllocError;

/// Session aggregates: counts of sessions, in place of an update for each session.
///
/// <https://develop.sentry.dev/sdk/telemetry/sessions/>
#[derive(Debug, Drop, PartialEq)]
pub struct SessionAggregates<'a> {
    /// Groups of sessions; empty by default.
    pub aggregates: Vec<SessionAggregateItem>,
    /// Attributes shared by the sessions (`attrs`); required.
    pub attributes: SessionAttributes<'a>,
}

impl<'a> SessionAggregates<'a> {
    ghost use Rattle.std.specs.Prelude.{◌≡◌, IfOk};
    ghost use Rattle.sentry_records.specs.Sessions.{groups_cell};

    /// Clones the aggregates. `AllocError` if an allocation fails.
    pub fn clone(&self) -> Result<SessionAggregates<'a>, AllocError>
        ensures { IfOk result (λ copy. groups_cell copy ≡ groups_cell self.now) }
    {
        self.copy()
    }
}

impl<'a> Formed for SessionAggregates<'a> {
    type Form = AsTable;
}

impl<'a> Table for SessionAggregates<'a> {
    ghost lines = { groups_fields };

    fn rows<S: Sink>(&self, to: &mut S) {
        to.written_list("aggregates", &self.aggregates);
        to.required("attrs", &self.attributes);
    }

    ghost ordered = { groups_in_order };
}

impl<'a> ReadTable for SessionAggregates<'a> {
    fn read<S: Source>(from: &mut S) -> SessionAggregates<'a> {
        SessionAggregates {
            aggregates: from.written_list("aggregates"),
            attributes: from.required("attrs", SessionAttributes::blank()),
        }
    }
}

impl<'a> CopyTable for SessionAggregates<'a> {
    fn copy_rows(&self, copies: &mut Copier) -> Result<SessionAggregates<'a>, AllocError> {
        Ok(SessionAggregates {
            aggregates: copies.list(&self.aggregates),
            attributes: copies.of(&self.attributes)?,
        })
    }
}
