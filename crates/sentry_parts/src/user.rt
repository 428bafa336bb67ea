//! Users affected by events.
#![tactic(auto, unfolding(crate::specs::Users::user_fields))]

ghost use Rattle.std.specs.Prelude.{[]};
ghost use Rattle.serde_json.specs.View.{members_view};
ghost use Rattle.sentry_parts.specs.Users.{user_fields, user_in_order};

use sentry_rows::{AsKept, Copier, KeptTable, Sink, Source, Table};
use sentry_tables::{Formed, Member};
use sentry_text::IpAddress;
use serde_json::{Map, Value};
use std::alloc::{AllocError, Global};

/// The user affected by an event.
///
/// <https://develop.sentry.dev/sdk/data-model/event-payloads/user/>
#[derive(Debug, Drop, PartialEq)]
pub struct User {
    /// User id in the application.
    pub id: Option<String>,
    /// Email address.
    pub email: Option<String>,
    /// IP address; `{{auto}}` stands for the address of the connection.
    pub ip_address: Option<IpAddress>,
    /// Username, human-readable.
    pub username: Option<String>,
    /// Additional members. The key of a field above makes the user unwritable (`NotPlain`).
    pub other: Map<String, Value>,
}

impl User {
    ghost use Rattle.std.specs.Prelude.{◌≡◌, IfOk};
    ghost use Rattle.serde_json.specs.Data.{no_members};
    ghost use Rattle.sentry_tables.specs.Defaults.{IsDefault};
    ghost use Rattle.sentry_parts.specs.Users.{user_cell};

    /// Creates a user with no fields set.
    pub fn default_in(alloc: Global) -> User
        ensures rows { IsDefault user_fields result }
        ensures other { members_view result.other.entries ≡ no_members }
    {
        User {
            id: None,
            email: None,
            ip_address: None,
            username: None,
            other: Map::new(alloc),
        }
    }

    /// Clones the user. `AllocError` if an allocation fails.
    pub fn clone(&self) -> Result<User, AllocError>
        ensures { IfOk result (λ copy. user_cell copy ≡ user_cell self.now) }
    {
        self.copy()
    }
}

impl Formed for User {
    type Form = AsKept;
}

impl Table for User {
    ghost lines = { user_fields };

    fn rows<S: Sink>(&self, to: &mut S) {
        to.optional("email", &self.email);
        to.optional("id", &self.id);
        to.optional("ip_address", &self.ip_address);
        to.optional("username", &self.username);
    }

    ghost ordered = { user_in_order };
}

impl KeptTable for User {
    ghost reserved = { [] };

    ghost others_of = { λ u. members_view u.other.entries };

    fn others(&self) -> &Map<String, Value> {
        &self.other
    }

    fn names() -> &'static [&'static str] {
        &["email", "id", "ip_address", "username"]
    }

    fn read<S: Source>(from: &mut S) -> User {
        User {
            email: from.optional("email"),
            id: from.optional("id"),
            ip_address: from.optional("ip_address"),
            username: from.optional("username"),
            other: from.others(User::names()),
        }
    }

    fn copy_rows(&self, copies: &mut Copier) -> Result<User, AllocError> {
        Ok(User {
            email: copies.optional(&self.email),
            id: copies.optional(&self.id),
            ip_address: copies.optional(&self.ip_address),
            username: copies.optional(&self.username),
            other: copies.others(&self.other)?,
        })
    }
}
