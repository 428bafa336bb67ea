//! Debug images of native code.
#![tactic(auto, unfolding(crate::specs::DebugImages::apple_fields, crate::specs::DebugImages::symbolic_fields))]

ghost use Rattle.sentry_parts.specs.DebugImages.{apple_fields, apple_in_order, symbolic_fields, symbolic_in_order};

use sentry_identifiers::{CodeId, DebugId, Hyphenated};
use sentry_rows::{AsTable, Copier, CopyTable, ReadTable, Sink, Source, Table};
use sentry_tables::{Formed, Member};
use sentry_text::Addr;
use std::alloc::AllocError;
use uuid::Uuid;

/// A debug image of an Apple platform, or of a platform that identifies images in the same way.
///
/// <https://develop.sentry.dev/sdk/data-model/event-payloads/debugmeta/>
#[derive(Debug, Drop, PartialEq)]
pub struct AppleDebugImage {
    /// Name of the image, usually the file name; required.
    pub name: String,
    /// CPU architecture, such as `arm64`; `None` is written as null.
    pub arch: Option<String>,
    /// CPU type, as in Mach-O; `None` is written as null.
    pub cpu_type: Option<u32>,
    /// CPU subtype, as in Mach-O; `None` is written as null.
    pub cpu_subtype: Option<u32>,
    /// Start address in memory; required.
    pub image_addr: Addr,
    /// Size in bytes; required.
    pub image_size: u64,
    /// Preferred load address; defaults to 0.
    pub image_vmaddr: Addr,
    /// UUID of the image; required.
    pub uuid: Uuid,
}

impl AppleDebugImage {
    ghost use Rattle.std.specs.Prelude.{◌≡◌, IfOk};
    ghost use Rattle.sentry_parts.specs.DebugImages.{apple_cell};

    /// Clones the debug image. `AllocError` if an allocation fails.
    pub fn clone(&self) -> Result<AppleDebugImage, AllocError>
        ensures { IfOk result (λ copy. apple_cell copy ≡ apple_cell self.now) }
    {
        self.copy()
    }
}

impl Formed for AppleDebugImage {
    type Form = AsTable;
}

impl Table for AppleDebugImage {
    ghost lines = { apple_fields };

    fn rows<S: Sink>(&self, to: &mut S) {
        to.optional_or_null("arch", &self.arch);
        to.optional_or_null("cpu_subtype", &self.cpu_subtype);
        to.optional_or_null("cpu_type", &self.cpu_type);
        to.required("image_addr", &self.image_addr);
        to.required("image_size", &self.image_size);
        to.unless("image_vmaddr", &self.image_vmaddr, &Addr(0));
        to.required("name", &self.name);
        to.required_as::<Hyphenated, Uuid>("uuid", &self.uuid);
    }

    ghost ordered = { apple_in_order };
}

impl ReadTable for AppleDebugImage {
    fn read<S: Source>(from: &mut S) -> AppleDebugImage {
        AppleDebugImage {
            arch: from.optional_or_null("arch"),
            cpu_subtype: from.optional_or_null("cpu_subtype"),
            cpu_type: from.optional_or_null("cpu_type"),
            image_addr: from.required("image_addr", Addr(0)),
            image_size: from.required("image_size", 0),
            image_vmaddr: from.or("image_vmaddr", Addr(0)),
            name: from.text("name"),
            uuid: from.required_as::<Hyphenated, Uuid>("uuid", Uuid::nil()),
        }
    }
}

impl CopyTable for AppleDebugImage {
    fn copy_rows(&self, copies: &mut Copier) -> Result<AppleDebugImage, AllocError> {
        Ok(AppleDebugImage {
            arch: copies.optional(&self.arch),
            cpu_subtype: copies.optional(&self.cpu_subtype),
            cpu_type: copies.optional(&self.cpu_type),
            image_addr: copies.plain(&self.image_addr),
            image_size: copies.plain(&self.image_size),
            image_vmaddr: copies.plain(&self.image_vmaddr),
            name: copies.text(&self.name),
            uuid: copies.plain_as::<Hyphenated, Uuid>(&self.uuid),
        })
    }
}

/// A debug image of any native platform, with the identifiers for symbolication.
///
/// <https://develop.sentry.dev/sdk/data-model/event-payloads/debugmeta/>
#[derive(Debug, Drop, PartialEq)]
pub struct SymbolicDebugImage {
    /// Path and name of the image file; required.
    pub name: String,
    /// CPU architecture, such as `x86_64`; `None` is written as null.
    pub arch: Option<String>,
    /// Start address in memory; required.
    pub image_addr: Addr,
    /// Size in bytes; required.
    pub image_size: u64,
    /// Preferred load address; defaults to 0.
    pub image_vmaddr: Addr,
    /// Debug identifier of the image; required.
    pub id: DebugId,
    /// Identifier of the code file.
    pub code_id: Option<CodeId>,
    /// Path and name of the debug information file.
    pub debug_file: Option<String>,
}

impl SymbolicDebugImage {
    ghost use Rattle.std.specs.Prelude.{◌≡◌, IfOk};
    ghost use Rattle.sentry_parts.specs.DebugImages.{symbolic_cell};

    /// Clones the debug image. `AllocError` if an allocation fails.
    pub fn clone(&self) -> Result<SymbolicDebugImage, AllocError>
        ensures { IfOk result (λ copy. symbolic_cell copy ≡ symbolic_cell self.now) }
    {
        self.copy()
    }
}

impl Formed for SymbolicDebugImage {
    type Form = AsTable;
}

impl Table for SymbolicDebugImage {
    ghost lines = { symbolic_fields };

    fn rows<S: Sink>(&self, to: &mut S) {
        to.optional_or_null("arch", &self.arch);
        to.optional("code_id", &self.code_id);
        to.optional("debug_file", &self.debug_file);
        to.required("id", &self.id);
        to.required("image_addr", &self.image_addr);
        to.required("image_size", &self.image_size);
        to.unless("image_vmaddr", &self.image_vmaddr, &Addr(0));
        to.required("name", &self.name);
    }

    ghost ordered = { symbolic_in_order };
}

impl ReadTable for SymbolicDebugImage {
    fn read<S: Source>(from: &mut S) -> SymbolicDebugImage {
        SymbolicDebugImage {
            arch: from.optional_or_null("arch"),
            code_id: from.optional("code_id"),
            debug_file: from.optional("debug_file"),
            id: from.required("id", DebugId::from_parts(Uuid::nil(), 0)),
            image_addr: from.required("image_addr", Addr(0)),
            image_size: from.required("image_size", 0),
            image_vmaddr: from.or("image_vmaddr", Addr(0)),
            name: from.text("name"),
        }
    }
}

impl CopyTable for SymbolicDebugImage {
    fn copy_rows(&self, copies: &mut Copier) -> Result<SymbolicDebugImage, AllocError> {
        Ok(SymbolicDebugImage {
            arch: copies.optional(&self.arch),
            code_id: copies.optional(&self.code_id),
            debug_file: copies.optional(&self.debug_file),
            id: copies.plain(&self.id),
            image_addr: copies.plain(&self.image_addr),
            image_size: copies.plain(&self.image_size),
            image_vmaddr: copies.plain(&self.image_vmaddr),
            name: copies.text(&self.name),
        })
    }
}
