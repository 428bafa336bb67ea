//! User reports.
#![tactic(auto, unfolding(crate::specs::UserReports::user_report_fields))]

ghost use Rattle.sentry_records.specs.UserReports.{user_report_fields, user_report_in_order};

use sentry_identifiers::Simple;
use sentry_rows::{AsTable, Copier, CopyTable, ReadTable, Sink, Source, Table};
use sentry_tables::{Formed, Member};
use std::alloc::AllocError;
use uuid::Uuid;

/// A user report: the comments of a user on an event.
///
/// <https://develop.sentry.dev/sdk/data-model/envelope-items/#user-report>
#[derive(Debug, Drop, PartialEq)]
pub struct UserReport {
    /// Id of the event that the report is about; required.
    pub event_id: Uuid,
    /// Name of the user.
    pub name: Option<String>,
    /// Email address of the user.
    pub email: Option<String>,
    /// Comments of the user; required.
    pub comments: String,
}

impl UserReport {
    ghost use Rattle.std.specs.Prelude.{◌≡◌, IfOk};
    ghost use Rattle.sentry_records.specs.UserReports.{user_report_cell};

    /// Clones the report. `AllocError` if an allocation fails.
    pub fn clone(&self) -> Result<UserReport, AllocError>
        ensures { IfOk result (λ copy. user_report_cell copy ≡ user_report_cell self.now) }
    {
        self.copy()
    }
}

impl Formed for UserReport {
    type Form = AsTable;
}

impl Table for UserReport {
    ghost lines = { user_report_fields };

    fn rows<S: Sink>(&self, to: &mut S) {
        to.required("comments", &self.comments);
        to.optional("email", &self.email);
        to.required_as::<Simple, Uuid>("event_id", &self.event_id);
        to.optional("name", &self.name);
    }

    ghost ordered = { user_report_in_order };
}

impl ReadTable for UserReport {
    fn read<S: Source>(from: &mut S) -> UserReport {
        UserReport {
            comments: from.text("comments"),
            email: from.optional("email"),
            event_id: from.required_as::<Simple, Uuid>("event_id", Uuid::nil()),
            name: from.optional("name"),
        }
    }
}

impl CopyTable for UserReport {
    fn copy_rows(&self, copies: &mut Copier) -> Result<UserReport, AllocError> {
        Ok(UserReport {
            comments: copies.text(&self.comments),
            email: copies.optional(&self.email),
            event_id: copies.plain_as::<Simple, Uuid>(&self.event_id),
            name: copies.optional(&self.name),
        })
    }
}
