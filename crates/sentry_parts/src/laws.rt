//! Laws of the definitions: a written value reads back as its normal form only; the normal form is
//! its own normal form, and two values share one exactly if their normal forms are written alike.

ghost use Rattle.std.specs.Prelude.{◌≡◌, ◌↔◌, true, IfSome};
ghost use Rattle.sentry_tables.specs.Kind.{default, values};
ghost use Rattle.sentry_tables.specs.Laws.{HasLaws};
ghost use Rattle.sentry_tables.specs.Lawful.{RuleLaws};
ghost use Rattle.sentry_text.specs.UrlTree.{UrlReadsBack};
ghost use Rattle.sentry_parts.specs.Breadcrumbs.{breadcrumb_kind};
ghost use Rattle.sentry_parts.specs.ClientSdk.{package_cell, package_kind, sdk_cell, sdk_kind};
ghost use Rattle.sentry_parts.specs.DebugImages.{apple_cell, apple_kind, image_cell, image_kind, proguard_cell, proguard_kind, symbolic_cell, symbolic_kind, wasm_cell, wasm_kind};
ghost use Rattle.sentry_parts.specs.Debugging.{empty_meta, debug_meta_cell, debug_meta_kind, system_cell, system_kind};
ghost use Rattle.sentry_parts.specs.Requests.{request_cell, request_kind};
ghost use Rattle.sentry_parts.specs.Users.{user_kind};
ghost use Rattle.sentry_parts.specs.declared.client_sdk_info.ClientSdkInfo.{ClientSdkInfo as Software};
ghost use Rattle.sentry_parts.specs.declared.client_sdk_package.ClientSdkPackage.{ClientSdkPackage as Packages};
ghost use Rattle.sentry_parts.specs.declared.debug_image.DebugImage.{DebugImage as Images};
ghost use Rattle.sentry_parts.specs.declared.debug_meta.DebugMeta.{DebugMeta as Metas};
ghost use Rattle.sentry_parts.specs.declared.native_images.AppleDebugImage.{AppleDebugImage as Apples};
ghost use Rattle.sentry_parts.specs.declared.native_images.SymbolicDebugImage.{SymbolicDebugImage as Symbolics};
ghost use Rattle.sentry_parts.specs.declared.other_images.ProguardDebugImage.{ProguardDebugImage as Proguards};
ghost use Rattle.sentry_parts.specs.declared.other_images.WasmDebugImage.{WasmDebugImage as Wasms};
ghost use Rattle.sentry_parts.specs.declared.request.Request.{Request as Requests};
ghost use Rattle.sentry_parts.specs.declared.system_sdk_info.SystemSdkInfo.{SystemSdkInfo as Systems};

use crate::{
    AppleDebugImage, ClientSdkInfo, ClientSdkPackage, DebugImage, DebugMeta, ProguardDebugImage,
    Request, SymbolicDebugImage, SystemSdkInfo, WasmDebugImage,
};

/// The laws of JSON forms (`HasLaws`) hold of each type that is a JSON object, and of debug images,
/// which are selected by the member `type`.
#[tactic(auto, using(crate::proofs::ClientSdkLaws::package_laws, crate::proofs::ClientSdkLaws::sdk_laws, crate::proofs::TableLaws::breadcrumb_laws, crate::proofs::TableLaws::user_laws, crate::proofs::TableLaws::request_laws, crate::proofs::DebugLaws::system_laws, crate::proofs::DebugLaws::apple_laws, crate::proofs::DebugLaws::symbolic_laws, crate::proofs::DebugLaws::proguard_laws, crate::proofs::DebugLaws::wasm_laws, crate::proofs::DebugLaws::image_laws, crate::proofs::DebugLaws::debug_meta_laws))]
pub fn tables()
    ensures packages { HasLaws package_kind }
    ensures software { HasLaws sdk_kind }
    ensures breadcrumbs { HasLaws breadcrumb_kind }
    ensures users { HasLaws user_kind }
    ensures requests { HasLaws request_kind }
    ensures systems { HasLaws system_kind }
    ensures apple_images { HasLaws apple_kind }
    ensures symbolic_images { HasLaws symbolic_kind }
    ensures proguard_images { HasLaws proguard_kind }
    ensures wasm_images { HasLaws wasm_kind }
    ensures images { HasLaws image_kind }
    ensures metas { HasLaws debug_meta_kind }
{}

/// The laws of JSON forms hold of lists of breadcrumbs under the key `values`.
#[tactic(auto, using(crate::proofs::TableLaws::breadcrumb_lists))]
pub fn lists()
    ensures breadcrumbs { HasLaws (values breadcrumb_kind) }
{}

/// Empty debug meta information may be the default of a member: null is rejected, and the empty
/// value is its own normal form.
#[tactic(auto, using(crate::proofs::DebugLaws::debug_meta_stands))]
pub fn empty_debug_meta()
    ensures { RuleLaws (default empty_meta) debug_meta_kind }
{}

/// `==` compares contents: two values of a type below are equal exactly if all fields are the same.
///
/// The law of requests assumes that the URLs of both read back from their texts.
#[tactic(auto, using(crate::proofs::Equal::packages_decide, crate::proofs::Equal::software_decides, crate::proofs::EqualParts::requests_decide, crate::proofs::EqualImages::systems_decide, crate::proofs::EqualImages::apples_decide, crate::proofs::EqualImages::symbolics_decide, crate::proofs::EqualImages::proguards_decide, crate::proofs::EqualImages::wasms_decide, crate::proofs::EqualImages::images_decide, crate::proofs::EqualImages::metas_decide))]
pub fn equal_tables()
    ensures packages { (a b : Packages) → ⟦<ClientSdkPackage as PartialEq>⟧.eq a b ≡ true ↔
        (package_cell a ≡ package_cell b) }
    ensures software { (a b : Software) → ⟦<ClientSdkInfo as PartialEq>⟧.eq a b ≡ true ↔
        (sdk_cell a ≡ sdk_cell b) }
    ensures requests { (a b : Requests) → IfSome a.url UrlReadsBack → IfSome b.url UrlReadsBack →
        ⟦<Request as PartialEq>⟧.eq a b ≡ true ↔ (request_cell a ≡ request_cell b) }
    ensures systems { (a b : Systems) → ⟦<SystemSdkInfo as PartialEq>⟧.eq a b ≡ true ↔
        (system_cell a ≡ system_cell b) }
    ensures apple_images { (a b : Apples) → ⟦<AppleDebugImage as PartialEq>⟧.eq a b ≡ true ↔
        (apple_cell a ≡ apple_cell b) }
    ensures symbolic_images { (a b : Symbolics) →
        ⟦<SymbolicDebugImage as PartialEq>⟧.eq a b ≡ true ↔ (symbolic_cell a ≡ symbolic_cell b) }
    ensures proguard_images { (a b : Proguards) →
        ⟦<ProguardDebugImage as PartialEq>⟧.eq a b ≡ true ↔ (proguard_cell a ≡ proguard_cell b) }
    ensures wasm_images { (a b : Wasms) → ⟦<WasmDebugImage as PartialEq>⟧.eq a b ≡ true ↔
        (wasm_cell a ≡ wasm_cell b) }
    ensures images { (a b : Images) → ⟦<DebugImage as PartialEq>⟧.eq a b ≡ true ↔
        (image_cell a ≡ image_cell b) }
    ensures metas { (a b : Metas) → ⟦<DebugMeta as PartialEq>⟧.eq a b ≡ true ↔
        (debug_meta_cell a ≡ debug_meta_cell b) }
{}
