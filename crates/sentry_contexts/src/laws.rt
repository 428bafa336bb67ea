//! Laws of the context types: a written context reads back as its normal form, which is its own
//! normal form, and as nothing else.

ghost use Rattle.std.specs.Prelude.{◌≡◌};
ghost use Rattle.serde_json.specs.Data.{null};
ghost use Rattle.sentry_tables.specs.Cell.{Cell, absent, any, present};
ghost use Rattle.sentry_tables.specs.Laws.{HasLaws};
ghost use Rattle.sentry_tables.specs.Norm.{norm};
ghost use Rattle.sentry_contexts.specs.Contexts.{context_kind, contexts_kind};
ghost use Rattle.sentry_contexts.specs.Devices.{device_kind, gpu_kind};
ghost use Rattle.sentry_contexts.specs.Programs.{app_kind, browser_kind};
ghost use Rattle.sentry_contexts.specs.Responses.{response_kind, response_with};
ghost use Rattle.sentry_contexts.specs.Systems.{os_kind, runtime_kind};
ghost use Rattle.sentry_contexts.specs.Telemetry.{otel_kind, trace_context_kind};

/// Each context type, `Context` and maps of contexts have the laws of JSON forms (`HasLaws`): a
/// stored, plain and readable value round-trips to its normal form, the normal form is its own
/// normal form, and a value that was read is written as its normal form is.
#[tactic(auto, using(crate::proofs::ContextLaws::device_laws, crate::proofs::ContextLaws::os_laws, crate::proofs::ContextLaws::runtime_laws, crate::proofs::ContextLaws::app_laws, crate::proofs::ContextLaws::browser_laws, crate::proofs::ContextLaws::trace_context_laws, crate::proofs::ContextLaws::gpu_laws, crate::proofs::ContextLaws::otel_laws, crate::proofs::ContextLaws::response_laws, crate::proofs::ContextLaws::context_laws, crate::proofs::ContextLaws::contexts_laws))]
pub fn tables()
    ensures devices { HasLaws device_kind }
    ensures systems { HasLaws os_kind }
    ensures runtimes { HasLaws runtime_kind }
    ensures applications { HasLaws app_kind }
    ensures browsers { HasLaws browser_kind }
    ensures places_in_traces { HasLaws trace_context_kind }
    ensures graphics_processors { HasLaws gpu_kind }
    ensures telemetry { HasLaws otel_kind }
    ensures responses { HasLaws response_kind }
    ensures contexts { HasLaws context_kind }
    ensures maps_of_contexts { HasLaws contexts_kind }
{}

/// A response whose body is the JSON value null has the normal form of a response without a body.
#[tactic(auto, using(crate::proofs::ContextLaws::null_is_no_body))]
pub fn null_bodies()
    ensures { (size cookies headers status : Cell)
        → norm response_kind (response_with size cookies (present (any null)) headers status)
        ≡ norm response_kind (response_with size cookies absent headers status) }
{}
