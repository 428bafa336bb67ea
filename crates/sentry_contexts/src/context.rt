//! `Context`: one of the context types, selected by the member `type`.

ghost use Rattle.std.specs.Prelude.{◌≡◌, IfErr, IfOk, codes, refl};
ghost use Rattle.sentry_contexts.specs.Contexts.{context_cases, context_cell, context_word, IsBoxed};

use crate::app::AppContext;
use crate::browser::BrowserContext;
use crate::device::DeviceContext;
use crate::gpu::GpuContext;
use crate::os::OsContext;
use crate::otel::OtelContext;
use crate::response::ResponseContext;
use crate::runtime::RuntimeContext;
use crate::trace::TraceContext;
use rand_core::Rng;
use sentry_json::Node;
use sentry_moments::Moment;
use sentry_rows::cased::{made_members, read_members};
use sentry_rows::{AsCase, CaseSink, Cased, CasedByKey, FromTreeAt, ReadCasedAt};
use sentry_tables::{Formed, FromTree, Member, TreeError, Way};
use serde_json::{Map, Value};
use std::alloc::{AllocError, Global};

/// A context: data about the environment in which an event occurred, selected by the member `type`.
///
/// An object without `type`, or with a `type` that no variant has, is a `TreeError::Misfit`. In a
/// map of contexts, an object without `type` takes its key as the type if the key is the type of a
/// variant, and `unknown` otherwise. A `Context` is always written with its `type`; the structs on
/// their own ignore `type` on reading and omit `type` on writing.
///
/// <https://develop.sentry.dev/sdk/data-model/event-payloads/contexts/>
#[derive(Debug, Drop, PartialEq)]
pub enum Context {
    /// Device context (`device`).
    Device(Box<DeviceContext>),
    /// Operating system context (`os`).
    Os(Box<OsContext>),
    /// Runtime context (`runtime`).
    Runtime(Box<RuntimeContext>),
    /// App context (`app`).
    App(Box<AppContext>),
    /// Browser context (`browser`).
    Browser(Box<BrowserContext>),
    /// Trace context (`trace`).
    Trace(Box<TraceContext>),
    /// GPU context (`gpu`).
    Gpu(Box<GpuContext>),
    /// OpenTelemetry context (`otel`).
    Otel(Box<OtelContext>),
    /// HTTP response context (`response`).
    Response(Box<ResponseContext>),
    /// Any other context (`unknown`). The key `type` makes the context unwritable (`NotPlain`).
    Other(Map<String, Value>),
}

// Boxes a value; returns it unchanged if the allocation fails.
fn boxed<T>(alloc: Global, value: T) -> Result<Box<T>, T>
    ensures boxed { IfOk result (λ it. it.value ≡ value) }
    ensures handed_back { IfErr result (λ back. back ≡ value) }
{
    Box::new(alloc, value).map_err(|refused| refused.value)
}

impl Context {
    /// Boxes a device context; returns it unchanged if the allocation fails.
    pub fn device(alloc: Global, device: DeviceContext) -> Result<Context, DeviceContext>
        ensures boxed { IfOk result (IsBoxed Context.Device device) }
        ensures handed_back { IfErr result (λ back. back ≡ device) }
    {
        Ok(Context::Device(boxed(alloc, device)?))
    }

    /// Boxes an operating system context; returns it unchanged if the allocation fails.
    pub fn os(alloc: Global, os: OsContext) -> Result<Context, OsContext>
        ensures boxed { IfOk result (IsBoxed Context.Os os) }
        ensures handed_back { IfErr result (λ back. back ≡ os) }
    {
        Ok(Context::Os(boxed(alloc, os)?))
    }

    /// Boxes a runtime context; returns it unchanged if the allocation fails.
    pub fn runtime(alloc: Global, runtime: RuntimeContext) -> Result<Context, RuntimeContext>
        ensures boxed { IfOk result (IsBoxed Context.Runtime runtime) }
        ensures handed_back { IfErr result (λ back. back ≡ runtime) }
    {
        Ok(Context::Runtime(boxed(alloc, runtime)?))
    }

    /// Boxes an app context; returns it unchanged if the allocation fails.
    pub fn app(alloc: Global, app: AppContext) -> Result<Context, AppContext>
        ensures boxed { IfOk result (IsBoxed Context.App app) }
        ensures handed_back { IfErr result (λ back. back ≡ app) }
    {
        Ok(Context::App(boxed(alloc, app)?))
    }

    /// Boxes a browser context; returns it unchanged if the allocation fails.
    pub fn browser(alloc: Global, browser: BrowserContext) -> Result<Context, BrowserContext>
        ensures boxed { IfOk result (IsBoxed Context.Browser browser) }
        ensures handed_back { IfErr result (λ back. back ≡ browser) }
    {
        Ok(Context::Browser(boxed(alloc, browser)?))
    }

    /// Boxes a trace context; returns it unchanged if the allocation fails.
    pub fn trace(alloc: Global, trace: TraceContext) -> Result<Context, TraceContext>
        ensures boxed { IfOk result (IsBoxed Context.Trace trace) }
        ensures handed_back { IfErr result (λ back. back ≡ trace) }
    {
        Ok(Context::Trace(boxed(alloc, trace)?))
    }

    /// Boxes a GPU context; returns it unchanged if the allocation fails.
    pub fn gpu(alloc: Global, gpu: GpuContext) -> Result<Context, GpuContext>
        ensures boxed { IfOk result (IsBoxed Context.Gpu gpu) }
        ensures handed_back { IfErr result (λ back. back ≡ gpu) }
    {
        Ok(Context::Gpu(boxed(alloc, gpu)?))
    }

    /// Boxes an OpenTelemetry context; returns it unchanged if the allocation fails.
    pub fn otel(alloc: Global, otel: OtelContext) -> Result<Context, OtelContext>
        ensures boxed { IfOk result (IsBoxed Context.Otel otel) }
        ensures handed_back { IfErr result (λ back. back ≡ otel) }
    {
        Ok(Context::Otel(boxed(alloc, otel)?))
    }

    /// Boxes a response context; returns it unchanged if the allocation fails.
    pub fn response(alloc: Global, response: ResponseContext) -> Result<Context, ResponseContext>
        ensures boxed { IfOk result (IsBoxed Context.Response response) }
        ensures handed_back { IfErr result (λ back. back ≡ response) }
    {
        Ok(Context::Response(boxed(alloc, response)?))
    }

    /// Returns the value of the member `type`; `unknown` for `Other`.
    pub fn type_name(&self) -> &'static str
        ensures { result.now ≡ context_word self.now }
    {
        match self {
            Context::Device(_) => "device",
            Context::Os(_) => "os",
            Context::Runtime(_) => "runtime",
            Context::App(_) => "app",
            Context::Browser(_) => "browser",
            Context::Trace(_) => "trace",
            Context::Gpu(_) => "gpu",
            Context::Otel(_) => "otel",
            Context::Response(_) => "response",
            Context::Other(_) => "unknown",
        }
    }

    /// Clones the context. `AllocError` if an allocation fails.
    pub fn clone(&self) -> Result<Context, AllocError>
        ensures { IfOk result (λ copy. context_cell copy ≡ context_cell self.now) }
    {
        self.copy()
    }
}

impl Formed for Context {
    type Form = AsCase;
}

impl Cased for Context {
    ghost cases = { context_cases };

    ghost choice_of = { context_cell };

    fn words() -> &'static [&'static str] {
        &[
            "device", "os", "runtime", "app", "browser", "trace", "gpu", "otel", "response",
            "unknown",
        ]
    }

    fn give<S: CaseSink>(&self, to: &mut S) {
        match self {
            Context::Device(boxed) => to.keep("device", boxed.as_ref()),
            Context::Os(boxed) => to.keep("os", boxed.as_ref()),
            Context::Runtime(boxed) => to.keep("runtime", boxed.as_ref()),
            Context::App(boxed) => to.keep("app", boxed.as_ref()),
            Context::Browser(boxed) => to.keep("browser", boxed.as_ref()),
            Context::Trace(boxed) => to.table("trace", boxed.as_ref()),
            Context::Gpu(boxed) => to.keep("gpu", boxed.as_ref()),
            Context::Otel(boxed) => to.keep("otel", boxed.as_ref()),
            Context::Response(boxed) => to.table("response", boxed.as_ref()),
            Context::Other(members) => to.members("unknown", members),
        }
    }

    fn remake_case(&self, way: Way) -> Result<Context, AllocError> {
        Ok(match self {
            Context::Device(boxed) => Context::Device(boxed.remake(way)?),
            Context::Os(boxed) => Context::Os(boxed.remake(way)?),
            Context::Runtime(boxed) => Context::Runtime(boxed.remake(way)?),
            Context::App(boxed) => Context::App(boxed.remake(way)?),
            Context::Browser(boxed) => Context::Browser(boxed.remake(way)?),
            Context::Trace(boxed) => Context::Trace(boxed.remake(way)?),
            Context::Gpu(boxed) => Context::Gpu(boxed.remake(way)?),
            Context::Otel(boxed) => Context::Otel(boxed.remake(way)?),
            Context::Response(boxed) => Context::Response(boxed.remake(way)?),
            Context::Other(members) => Context::Other(made_members(members, way)?),
        })
    }

    ghost distinct = { refl };
}

impl ReadCasedAt for Context {
    #[tactic(auto, using(sentry_rows::proofs::CasesRead::case_shown_at, sentry_rows::proofs::CasesRead::case_refused_at, sentry_rows::proofs::CasesRead::case_shown_now, sentry_rows::proofs::CasesRead::case_refused_now, sentry_rows::proofs::CasesRead::past_cases_at))]
    fn read<N: Node, R: Rng>(
        alloc: Global,
        node: &N,
        case: usize,
        now: Moment,
        ids: &mut R,
    ) -> Result<Context, TreeError> {
        match case {
            0 => Ok(Context::Device(FromTree::from_node(alloc, node)?)),
            1 => Ok(Context::Os(FromTree::from_node(alloc, node)?)),
            2 => Ok(Context::Runtime(FromTree::from_node(alloc, node)?)),
            3 => Ok(Context::App(FromTree::from_node(alloc, node)?)),
            4 => Ok(Context::Browser(FromTree::from_node(alloc, node)?)),
            5 => Ok(Context::Trace(FromTreeAt::from_node(alloc, node, now, ids)?)),
            6 => Ok(Context::Gpu(FromTree::from_node(alloc, node)?)),
            7 => Ok(Context::Otel(FromTree::from_node(alloc, node)?)),
            8 => Ok(Context::Response(FromTree::from_node(alloc, node)?)),
            9 => Ok(Context::Other(read_members(alloc, node)?)),
            _ => Err(TreeError::Misfit),
        }
    }
}

impl CasedByKey for Context {
    ghost fallback_word = { codes "unknown" };

    fn fallback() -> &'static str {
        "unknown"
    }
}
