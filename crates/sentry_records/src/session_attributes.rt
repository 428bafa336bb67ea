//! Session attributes.
#![tactic(auto, unfolding(crate::specs::Sessions::attributes_fields))]

ghost use Rattle.sentry_records.specs.Sessions.{attributes_fields, attributes_in_order};

use sentry_rows::{AsTable, Copier, CopyTable, ReadTable, Sink, Source, Table};
use sentry_tables::{Formed, Member};
use sentry_text::IpText;
use std::alloc::AllocError;
use std::borrow::CowStr;
use std::net::IpAddr;

/// Session attributes: what the sessions of an update or of aggregates share.
///
/// <https://develop.sentry.dev/sdk/telemetry/sessions/>
#[derive(Debug, Drop, PartialEq)]
pub struct SessionAttributes<'a> {
    /// Release of the application; required.
    pub release: CowStr<'a>,
    /// Environment, such as `production`.
    pub environment: Option<CowStr<'a>>,
    /// IP address of the user, used to filter sessions.
    pub ip_address: Option<IpAddr>,
    /// User agent of the user, used to filter sessions.
    pub user_agent: Option<String>,
}

impl<'a> SessionAttributes<'a> {
    ghost use Rattle.std.specs.Prelude.{◌≡◌, IfOk, None};
    ghost use Rattle.sentry_records.specs.Sessions.{attributes_cell};

    // Placeholder for attributes that could not be read.
    pub(crate) fn blank() -> SessionAttributes<'a>
        ensures { result.user_agent ≡ None }
    {
        SessionAttributes {
            release: CowStr::Borrowed(""),
            environment: None,
            ip_address: None,
            user_agent: None,
        }
    }

    /// Clones the attributes. `AllocError` if an allocation fails.
    pub fn clone(&self) -> Result<SessionAttributes<'a>, AllocError>
        ensures { IfOk result (λ copy. attributes_cell copy ≡ attributes_cell self.now) }
    {
        self.copy()
    }
}

impl<'a> Formed for SessionAttributes<'a> {
    type Form = AsTable;
}

impl<'a> Table for SessionAttributes<'a> {
    ghost lines = { attributes_fields };

    fn rows<S: Sink>(&self, to: &mut S) {
        to.optional("environment", &self.environment);
        to.optional_as::<IpText, IpAddr>("ip_address", &self.ip_address);
        to.required("release", &self.release);
        to.optional("user_agent", &self.user_agent);
    }

    ghost ordered = { attributes_in_order };
}

impl<'a> ReadTable for SessionAttributes<'a> {
    fn read<S: Source>(from: &mut S) -> SessionAttributes<'a> {
        SessionAttributes {
            environment: from.optional("environment"),
            ip_address: from.optional_as::<IpText, IpAddr>("ip_address"),
            release: from.cow("release"),
            user_agent: from.optional("user_agent"),
        }
    }
}

impl<'a> CopyTable for SessionAttributes<'a> {
    fn copy_rows(&self, copies: &mut Copier) -> Result<SessionAttributes<'a>, AllocError> {
        Ok(SessionAttributes {
            environment: copies.optional(&self.environment),
            ip_address: copies.optional_as::<IpText, IpAddr>(&self.ip_address),
            release: copies.cow(&self.release),
            user_agent: copies.optional(&self.user_agent),
        })
    }
}
