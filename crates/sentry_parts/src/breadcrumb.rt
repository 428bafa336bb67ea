//! Breadcrumbs: what happened before an event.
#![tactic(auto, unfolding(crate::specs::Breadcrumbs::breadcrumb_fields))]

ghost use Rattle.sentry_parts.specs.Breadcrumbs.{breadcrumb_fields, breadcrumb_in_order};

use rand_core::Rng;
use sentry_moments::{Moment, Seconds};
use sentry_rows::{AsTable, Copier, CopyTable, ReadTableAt, Sink, Source, Table};
use sentry_tables::{Formed, Member};
use sentry_words::Level;
use serde_json::{Map, Value};
use std::alloc::{AllocError, Global};

/// A breadcrumb: something that happened before an event.
///
/// On reading, an absent `timestamp` becomes the moment of reading.
///
/// <https://develop.sentry.dev/sdk/data-model/event-payloads/breadcrumbs/>
#[derive(Debug, Drop, PartialEq)]
pub struct Breadcrumb {
    /// Time: RFC 3339 or whole seconds since 1970; defaults to the moment of reading.
    pub timestamp: Moment,
    /// Type, which decides how the breadcrumb is shown; defaults to `default` (member `type`).
    pub ty: String,
    /// Category, such as a module or the name of an event.
    pub category: Option<String>,
    /// Severity; defaults to `info`.
    pub level: Level,
    /// Message, human-readable.
    pub message: Option<String>,
    /// Additional data, by name (member `data`).
    pub data_: Map<String, Value>,
}

impl Breadcrumb {
    ghost use Rattle.std.specs.Prelude.{◌≡◌, IfOk};
    ghost use Rattle.sentry_tables.specs.Defaults.{IsDefaultAt};
    ghost use Rattle.sentry_moments.specs.Moments.{moment_cell};
    ghost use Rattle.sentry_parts.specs.Breadcrumbs.{breadcrumb_cell};

    /// Creates a breadcrumb at `now` with type `default`, level `info` and no other fields set.
    ///
    /// # Errors
    ///
    /// `AllocError` if an allocation fails.
    pub fn new(alloc: Global, now: Moment) -> Result<Breadcrumb, AllocError>
        ensures { IfOk result (λ b. IsDefaultAt (moment_cell now) breadcrumb_fields b) }
    {
        Ok(Breadcrumb {
            timestamp: now,
            ty: String::from_str(alloc, "default")?,
            category: None,
            level: Level::Info,
            message: None,
            data_: Map::new(alloc),
        })
    }

    /// Clones the breadcrumb. `AllocError` if an allocation fails.
    pub fn clone(&self) -> Result<Breadcrumb, AllocError>
        ensures { IfOk result (λ copy. breadcrumb_cell copy ≡ breadcrumb_cell self.now) }
    {
        self.copy()
    }
}

impl Formed for Breadcrumb {
    type Form = AsTable;
}

impl Table for Breadcrumb {
    ghost lines = { breadcrumb_fields };

    fn rows<S: Sink>(&self, to: &mut S) {
        to.optional("category", &self.category);
        to.map("data", &self.data_);
        to.unless("level", &self.level, &Level::Info);
        to.optional("message", &self.message);
        to.at_once_as::<Seconds, Moment>("timestamp", &self.timestamp);
        to.text_unless("type", &self.ty, "default");
    }

    ghost ordered = { breadcrumb_in_order };
}

impl ReadTableAt for Breadcrumb {
    fn read<S: Source, R: Rng>(from: &mut S, now: Moment, _ids: &mut R) -> Breadcrumb {
        Breadcrumb {
            category: from.optional("category"),
            data_: from.map("data"),
            level: from.or("level", Level::Info),
            message: from.optional("message"),
            timestamp: from.at_once_as::<Seconds>("timestamp", now),
            ty: from.text_or("type", "default"),
        }
    }
}

impl CopyTable for Breadcrumb {
    fn copy_rows(&self, copies: &mut Copier) -> Result<Breadcrumb, AllocError> {
        Ok(Breadcrumb {
            category: copies.optional(&self.category),
            data_: copies.map(&self.data_)?,
            level: copies.plain(&self.level),
            message: copies.optional(&self.message),
            timestamp: copies.plain_as::<Seconds, Moment>(&self.timestamp),
            ty: copies.text(&self.ty),
        })
    }
}
