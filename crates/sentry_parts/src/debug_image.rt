//! `DebugImage`: one of the debug image types, selected by the member `type`.

ghost use Rattle.std.specs.Prelude.{◌≡◌, IfOk, refl};
ghost use Rattle.sentry_parts.specs.DebugImages.{image_cases, image_cell, image_word};
ghost use Rattle.sentry_parts.specs.declared.debug_image.DebugImage.TheVariants as Image;

use crate::native_images::{AppleDebugImage, SymbolicDebugImage};
use crate::other_images::{ProguardDebugImage, WasmDebugImage};
use sentry_json::Node;
use sentry_rows::{AsCase, CaseSink, Cased, ReadCased};
use sentry_tables::{Formed, FromTree, Member, TreeError, Way};
use std::alloc::{AllocError, Global};

/// A debug image: a loaded file or a file for symbolication, selected by the member `type`.
///
/// An object without `type`, or with a `type` that no variant has, is a `TreeError::Misfit`.
///
/// <https://develop.sentry.dev/sdk/data-model/event-payloads/debugmeta/>
#[derive(Debug, Drop, PartialEq)]
pub enum DebugImage {
    /// Apple debug image (`apple`).
    Apple(AppleDebugImage),
    /// Debug image of any native platform (`symbolic`).
    Symbolic(SymbolicDebugImage),
    /// ProGuard mapping file (`proguard`).
    Proguard(ProguardDebugImage),
    /// WebAssembly debug image (`wasm`).
    Wasm(WasmDebugImage),
}

impl DebugImage {
    /// Returns the value of the member `type`: `apple`, `symbolic`, `proguard` or `wasm`.
    pub fn type_name(&self) -> &'static str
        ensures { result.now ≡ image_word self.now }
    {
        match self {
            DebugImage::Apple(_) => "apple",
            DebugImage::Symbolic(_) => "symbolic",
            DebugImage::Proguard(_) => "proguard",
            DebugImage::Wasm(_) => "wasm",
        }
    }

    /// Clones the debug image. `AllocError` if an allocation fails.
    pub fn clone(&self) -> Result<DebugImage, AllocError>
        ensures { IfOk result (λ copy. image_cell copy ≡ image_cell self.now) }
    {
        self.copy()
    }
}

impl From<AppleDebugImage> for DebugImage {
    ghost from_gives = { λ image given. given ≡ Image.Apple image };

    fn from(image: AppleDebugImage) -> DebugImage {
        DebugImage::Apple(image)
    }
}

impl From<SymbolicDebugImage> for DebugImage {
    ghost from_gives = { λ image given. given ≡ Image.Symbolic image };

    fn from(image: SymbolicDebugImage) -> DebugImage {
        DebugImage::Symbolic(image)
    }
}

impl From<ProguardDebugImage> for DebugImage {
    ghost from_gives = { λ image given. given ≡ Image.Proguard image };

    fn from(image: ProguardDebugImage) -> DebugImage {
        DebugImage::Proguard(image)
    }
}

impl From<WasmDebugImage> for DebugImage {
    ghost from_gives = { λ image given. given ≡ Image.Wasm image };

    fn from(image: WasmDebugImage) -> DebugImage {
        DebugImage::Wasm(image)
    }
}

impl Formed for DebugImage {
    type Form = AsCase;
}

impl Cased for DebugImage {
    ghost cases = { image_cases };

    ghost choice_of = { image_cell };

    fn words() -> &'static [&'static str] {
        &["apple", "symbolic", "proguard", "wasm"]
    }

    fn give<S: CaseSink>(&self, to: &mut S) {
        match self {
            DebugImage::Apple(image) => to.table("apple", image),
            DebugImage::Symbolic(image) => to.table("symbolic", image),
            DebugImage::Proguard(image) => to.table("proguard", image),
            DebugImage::Wasm(image) => to.table("wasm", image),
        }
    }

    fn remake_case(&self, way: Way) -> Result<DebugImage, AllocError> {
        Ok(match self {
            DebugImage::Apple(image) => DebugImage::Apple(image.remake(way)?),
            DebugImage::Symbolic(image) => DebugImage::Symbolic(image.remake(way)?),
            DebugImage::Proguard(image) => DebugImage::Proguard(image.remake(way)?),
            DebugImage::Wasm(image) => DebugImage::Wasm(image.remake(way)?),
        })
    }

    ghost distinct = { refl };
}

impl ReadCased for DebugImage {
    #[tactic(auto, using(sentry_rows::proofs::CasesRead::case_shown, sentry_rows::proofs::CasesRead::case_refused, sentry_rows::proofs::CasesRead::past_cases))]
    fn read<N: Node>(alloc: Global, node: &N, case: usize) -> Result<DebugImage, TreeError> {
        match case {
            0 => Ok(DebugImage::Apple(AppleDebugImage::from_node(alloc, node)?)),
            1 => Ok(DebugImage::Symbolic(SymbolicDebugImage::from_node(alloc, node)?)),
            2 => Ok(DebugImage::Proguard(ProguardDebugImage::from_node(alloc, node)?)),
            3 => Ok(DebugImage::Wasm(WasmDebugImage::from_node(alloc, node)?)),
            _ => Err(TreeError::Misfit),
        }
    }
}
