//! Debug meta information: debug images and SDK information for symbolication.
#![tactic(auto, unfolding(crate::specs::Debugging::debug_meta_fields))]

ghost use Rattle.sentry_parts.specs.Debugging.{empty_meta, debug_meta_fields, debug_meta_in_order};

use crate::debug_image::DebugImage;
use crate::system_sdk_info::SystemSdkInfo;
use sentry_rows::{AsTable, Copier, CopyTable, DefaultedTable, ReadTable, Sink, Source, Table};
use sentry_tables::{Formed, Member};
use std::alloc::{AllocError, Global};

/// Debug images and SDK information for symbolication.
///
/// <https://develop.sentry.dev/sdk/data-model/event-payloads/debugmeta/>
#[derive(Debug, Drop, PartialEq)]
pub struct DebugMeta {
    /// Information about the system SDK.
    pub sdk_info: Option<SystemSdkInfo>,
    /// Loaded debug images.
    pub images: Vec<DebugImage>,
}

impl DebugMeta {
    ghost use Rattle.std.specs.Prelude.{◌≡◌, ◌↔◌, [], None, IfOk, IsTrue};
    ghost use Rattle.sentry_tables.specs.Defaults.{IsDefault};
    ghost use Rattle.sentry_parts.specs.Debugging.{debug_meta_cell};

    /// Creates debug meta information without images or SDK information.
    pub fn default_in(alloc: Global) -> DebugMeta
        ensures rows { IsDefault debug_meta_fields result }
        ensures empty { debug_meta_cell result ≡ empty_meta }
    {
        DebugMeta {
            sdk_info: None,
            images: Vec::new(alloc),
        }
    }

    /// Returns whether there are no images and no SDK information.
    pub fn is_empty(&self) -> bool
        ensures { IsTrue result ↔ ((self.now.sdk_info ≡ None) × (self.now.images.items ≡ [])) }
    {
        self.sdk_info.is_none() && self.images.is_empty()
    }

    /// Clones the debug meta information. `AllocError` if an allocation fails.
    pub fn clone(&self) -> Result<DebugMeta, AllocError>
        ensures { IfOk result (λ copy. debug_meta_cell copy ≡ debug_meta_cell self.now) }
    {
        self.copy()
    }
}

impl Formed for DebugMeta {
    type Form = AsTable;
}

impl Table for DebugMeta {
    ghost lines = { debug_meta_fields };

    fn rows<S: Sink>(&self, to: &mut S) {
        to.list("images", &self.images);
        to.optional("sdk_info", &self.sdk_info);
    }

    ghost ordered = { debug_meta_in_order };
}

impl ReadTable for DebugMeta {
    fn read<S: Source>(from: &mut S) -> DebugMeta {
        DebugMeta {
            images: from.list("images"),
            sdk_info: from.optional("sdk_info"),
        }
    }
}

impl CopyTable for DebugMeta {
    fn copy_rows(&self, copies: &mut Copier) -> Result<DebugMeta, AllocError> {
        Ok(DebugMeta {
            images: copies.list(&self.images),
            sdk_info: copies.optional(&self.sdk_info),
        })
    }
}

// An event omits the member `debug_meta` if it is empty.
impl DefaultedTable for DebugMeta {
    ghost usual = { empty_meta };

    fn is_usual(&self) -> bool {
        self.is_empty()
    }
}
