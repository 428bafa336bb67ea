//! Exception mechanisms.
#![tactic(auto, unfolding(crate::specs::Mechanisms::mechanism_fields))]

ghost use Rattle.sentry_frames.specs.Mechanisms.{mechanism_fields, mechanism_in_order};

use crate::mechanism_meta::MechanismMeta;
use sentry_rows::{AsTable, Copier, CopyTable, ReadTable, Sink, Source, Table};
use sentry_tables::{Formed, Member};
use sentry_text::UrlText;
use serde_json::{Map, Value};
use std::alloc::{AllocError, Global};
use url::Url;

/// The mechanism of an exception: how the exception was created and captured.
///
/// <https://develop.sentry.dev/sdk/data-model/event-payloads/exception/#exception-mechanism>
#[derive(Debug, Drop, PartialEq)]
pub struct Mechanism {
    /// Mechanism type, such as `generic` (member `type`); required.
    pub ty: String,
    /// Description of the error, human-readable.
    pub description: Option<String>,
    /// URL of online help for the error.
    pub help_link: Option<Url>,
    /// Whether the program handled the exception.
    pub handled: Option<bool>,
    /// Whether the exception is synthetic: created only for its stack trace.
    pub synthetic: Option<bool>,
    /// Additional data, by name; depends on the mechanism type (member `data`).
    pub data_: Map<String, Value>,
    /// Operating system or runtime information; omitted if no field is set.
    pub meta: MechanismMeta,
}

impl Mechanism {
    ghost use Rattle.std.specs.Prelude.{◌≡◌, IfOk};
    ghost use Rattle.sentry_tables.specs.Defaults.{IsDefault};
    ghost use Rattle.sentry_frames.specs.Mechanisms.{mechanism_cell};

    /// Creates a mechanism with an empty type and no other fields set.
    #[tactic(auto, unfolding(crate::specs::Mechanisms::mechanism_fields))]
    pub fn default_in(alloc: Global) -> Mechanism
        ensures { IsDefault mechanism_fields result }
    {
        Mechanism {
            ty: String::new(alloc),
            description: None,
            help_link: None,
            handled: None,
            synthetic: None,
            data_: Map::new(alloc),
            meta: MechanismMeta::default_in(alloc),
        }
    }

    /// Clones the mechanism. `AllocError` if an allocation fails.
    pub fn clone(&self) -> Result<Mechanism, AllocError>
        ensures { IfOk result (λ copy. mechanism_cell copy ≡ mechanism_cell self.now) }
    {
        self.copy()
    }
}

impl Formed for Mechanism {
    type Form = AsTable;
}

impl Table for Mechanism {
    ghost lines = { mechanism_fields };

    fn rows<S: Sink>(&self, to: &mut S) {
        to.map("data", &self.data_);
        to.optional("description", &self.description);
        to.optional("handled", &self.handled);
        to.optional_as::<UrlText, Url>("help_link", &self.help_link);
        to.unless_usual_as::<AsTable, MechanismMeta>("meta", &self.meta);
        to.optional("synthetic", &self.synthetic);
        to.required("type", &self.ty);
    }

    ghost ordered = { mechanism_in_order };
}

impl ReadTable for Mechanism {
    fn read<S: Source>(from: &mut S) -> Mechanism {
        Mechanism {
            data_: from.map("data"),
            description: from.optional("description"),
            handled: from.optional("handled"),
            help_link: from.optional_as::<UrlText, Url>("help_link"),
            meta: from.or_as::<AsTable, MechanismMeta>(
                "meta",
                MechanismMeta::default_in(from.alloc()),
            ),
            synthetic: from.optional("synthetic"),
            ty: from.text("type"),
        }
    }
}

impl CopyTable for Mechanism {
    fn copy_rows(&self, copies: &mut Copier) -> Result<Mechanism, AllocError> {
        Ok(Mechanism {
            data_: copies.map(&self.data_)?,
            description: copies.optional(&self.description),
            handled: copies.optional(&self.handled),
            help_link: copies.optional_as::<UrlText, Url>(&self.help_link),
            meta: copies.of(&self.meta)?,
            synthetic: copies.optional(&self.synthetic),
            ty: copies.text(&self.ty),
        })
    }
}
