//! Debug images of code that is not native: ProGuard and WebAssembly.
#![tactic(auto, unfolding(crate::specs::DebugImages::proguard_fields, crate::specs::DebugImages::wasm_fields))]

ghost use Rattle.sentry_parts.specs.DebugImages.{proguard_fields, proguard_in_order, wasm_fields, wasm_in_order};

use sentry_identifiers::Hyphenated;
use sentry_rows::{AsTable, Copier, CopyTable, ReadTable, Sink, Source, Table};
use sentry_tables::{Formed, Member};
use std::alloc::AllocError;
use uuid::Uuid;

/// A reference to a ProGuard mapping file, by which obfuscated names are restored.
///
/// <https://develop.sentry.dev/sdk/data-model/event-payloads/debugmeta/>
#[derive(Debug, Drop, PartialEq)]
pub struct ProguardDebugImage {
    /// UUID of the mapping file; required.
    pub uuid: Uuid,
}

impl ProguardDebugImage {
    ghost use Rattle.std.specs.Prelude.{◌≡◌, IfOk};
    ghost use Rattle.sentry_parts.specs.DebugImages.{proguard_cell};

    /// Clones the debug image. `AllocError` if an allocation fails.
    pub fn clone(&self) -> Result<ProguardDebugImage, AllocError>
        ensures { IfOk result (λ copy. proguard_cell copy ≡ proguard_cell self.now) }
    {
        self.copy()
    }
}

impl Formed for ProguardDebugImage {
    type Form = AsTable;
}

impl Table for ProguardDebugImage {
    ghost lines = { proguard_fields };

    fn rows<S: Sink>(&self, to: &mut S) {
        to.required_as::<Hyphenated, Uuid>("uuid", &self.uuid);
    }

    ghost ordered = { proguard_in_order };
}

impl ReadTable for ProguardDebugImage {
    fn read<S: Source>(from: &mut S) -> ProguardDebugImage {
        ProguardDebugImage {
            uuid: from.required_as::<Hyphenated, Uuid>("uuid", Uuid::nil()),
        }
    }
}

impl CopyTable for ProguardDebugImage {
    fn copy_rows(&self, copies: &mut Copier) -> Result<ProguardDebugImage, AllocError> {
        Ok(ProguardDebugImage {
            uuid: copies.plain_as::<Hyphenated, Uuid>(&self.uuid),
        })
    }
}

/// A WebAssembly debug image.
///
/// <https://develop.sentry.dev/sdk/data-model/event-payloads/debugmeta/>
#[derive(Debug, Drop, PartialEq)]
pub struct WasmDebugImage {
    /// Name of the image, usually the file name; required.
    pub name: String,
    /// Debug identifier of the image: a UUID; required.
    pub debug_id: Uuid,
    /// Name or URL of the debug information file.
    pub debug_file: Option<String>,
    /// Identifier of the code file: the build id in hex digits.
    pub code_id: Option<String>,
    /// URL of the code file; required.
    pub code_file: String,
}

impl WasmDebugImage {
    ghost use Rattle.std.specs.Prelude.{◌≡◌, IfOk};
    ghost use Rattle.sentry_parts.specs.DebugImages.{wasm_cell};

    /// Clones the debug image. `AllocError` if an allocation fails.
    pub fn clone(&self) -> Result<WasmDebugImage, AllocError>
        ensures { IfOk result (λ copy. wasm_cell copy ≡ wasm_cell self.now) }
    {
        self.copy()
    }
}

impl Formed for WasmDebugImage {
    type Form = AsTable;
}

impl Table for WasmDebugImage {
    ghost lines = { wasm_fields };

    fn rows<S: Sink>(&self, to: &mut S) {
        to.required("code_file", &self.code_file);
        to.optional("code_id", &self.code_id);
        to.optional("debug_file", &self.debug_file);
        to.required_as::<Hyphenated, Uuid>("debug_id", &self.debug_id);
        to.required("name", &self.name);
    }

    ghost ordered = { wasm_in_order };
}

impl ReadTable for WasmDebugImage {
    fn read<S: Source>(from: &mut S) -> WasmDebugImage {
        WasmDebugImage {
            code_file: from.text("code_file"),
            code_id: from.optional("code_id"),
            debug_file: from.optional("debug_file"),
            debug_id: from.required_as::<Hyphenated, Uuid>("debug_id", Uuid::nil()),
            name: from.text("name"),
        }
    }
}

impl CopyTable for WasmDebugImage {
    fn copy_rows(&self, copies: &mut Copier) -> Result<WasmDebugImage, AllocError> {
        Ok(WasmDebugImage {
            code_file: copies.text(&self.code_file),
            code_id: copies.optional(&self.code_id),
            debug_file: copies.optional(&self.debug_file),
            debug_id: copies.plain_as::<Hyphenated, Uuid>(&self.debug_id),
            name: copies.text(&self.name),
        })
    }
}
