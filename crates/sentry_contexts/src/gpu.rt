//! GPU contexts: graphics processors.
#![tactic(auto, unfolding(crate::specs::Devices::gpu_fields))]

ghost use Rattle.std.specs.Prelude.{[], ◌∷◌};
ghost use Rattle.serde_json.specs.View.{members_view};
ghost use Rattle.sentry_tables.specs.Kind.{tag};
ghost use Rattle.sentry_contexts.specs.Devices.{gpu_fields, gpu_in_order};

use sentry_rows::{AsKept, Copier, KeptTable, Sink, Source, Table};
use sentry_tables::{Formed, Member};
use serde_json::{Map, Value};
use std::alloc::{AllocError, Global};

/// The graphics processor (GPU) of the device on which an event occurred.
///
/// <https://develop.sentry.dev/sdk/data-model/event-payloads/contexts/#gpu-context>
#[derive(Debug, Drop, PartialEq)]
pub struct GpuContext {
    /// Name of the graphics device; required.
    pub name: String,
    /// Version of the graphics device.
    pub version: Option<String>,
    /// Version of the graphics driver.
    pub driver_version: Option<String>,
    /// PCI identifier of the graphics device.
    pub id: Option<String>,
    /// PCI vendor identifier of the graphics device.
    pub vendor_id: Option<String>,
    /// Vendor name, as reported by the graphics device.
    pub vendor_name: Option<String>,
    /// Total GPU memory in megabytes.
    pub memory_size: Option<u32>,
    /// Low-level API type, such as `Direct3D11`.
    pub api_type: Option<String>,
    /// Whether multi-threaded rendering is supported.
    pub multi_threaded_rendering: Option<bool>,
    /// Whether textures may have sides that are not powers of two (NPOT).
    pub npot_support: Option<bool>,
    /// Longest supported side of a texture, in pixels.
    pub max_texture_size: Option<u32>,
    /// Approximate shader capability level, by name.
    pub graphics_shader_level: Option<String>,
    /// Whether draw call instancing is supported.
    pub supports_draw_call_instancing: Option<bool>,
    /// Whether ray tracing is supported.
    pub supports_ray_tracing: Option<bool>,
    /// Whether compute shaders are supported.
    pub supports_compute_shaders: Option<bool>,
    /// Whether geometry shaders are supported.
    pub supports_geometry_shaders: Option<bool>,
    /// Additional members. The key of a field above, or `type`, makes the context unwritable
    /// (`NotPlain`).
    pub other: Map<String, Value>,
}

impl GpuContext {
    ghost use Rattle.std.specs.Prelude.{◌≡◌, IfOk};
    ghost use Rattle.serde_json.specs.Data.{no_members};
    ghost use Rattle.sentry_tables.specs.Defaults.{IsDefault};
    ghost use Rattle.sentry_contexts.specs.Devices.{gpu_cell};

    /// Creates a GPU context with an empty `name` and no other fields set.
    pub fn default_in(alloc: Global) -> GpuContext
        ensures rows { IsDefault gpu_fields result }
        ensures other { members_view result.other.entries ≡ no_members }
    {
        GpuContext {
            name: String::new(alloc),
            version: None,
            driver_version: None,
            id: None,
            vendor_id: None,
            vendor_name: None,
            memory_size: None,
            api_type: None,
            multi_threaded_rendering: None,
            npot_support: None,
            max_texture_size: None,
            graphics_shader_level: None,
            supports_draw_call_instancing: None,
            supports_ray_tracing: None,
            supports_compute_shaders: None,
            supports_geometry_shaders: None,
            other: Map::new(alloc),
        }
    }

    /// Clones the GPU context. `AllocError` if an allocation fails.
    pub fn clone(&self) -> Result<GpuContext, AllocError>
        ensures { IfOk result (λ copy. gpu_cell copy ≡ gpu_cell self.now) }
    {
        self.copy()
    }
}

impl Formed for GpuContext {
    type Form = AsKept;
}

impl Table for GpuContext {
    ghost lines = { gpu_fields };

    fn rows<S: Sink>(&self, to: &mut S) {
        to.optional("api_type", &self.api_type);
        to.optional("driver_version", &self.driver_version);
        to.optional("graphics_shader_level", &self.graphics_shader_level);
        to.optional("id", &self.id);
        to.optional("max_texture_size", &self.max_texture_size);
        to.optional("memory_size", &self.memory_size);
        to.optional("multi_threaded_rendering", &self.multi_threaded_rendering);
        to.required("name", &self.name);
        to.optional("npot_support", &self.npot_support);
        to.optional("supports_compute_shaders", &self.supports_compute_shaders);
        to.optional(
            "supports_draw_call_instancing",
            &self.supports_draw_call_instancing,
        );
        to.optional("supports_geometry_shaders", &self.supports_geometry_shaders);
        to.optional("supports_ray_tracing", &self.supports_ray_tracing);
        to.optional("vendor_id", &self.vendor_id);
        to.optional("vendor_name", &self.vendor_name);
        to.optional("version", &self.version);
    }

    ghost ordered = { gpu_in_order };
}

impl KeptTable for GpuContext {
    ghost reserved = { tag ∷ [] };

    ghost others_of = { λ g. members_view g.other.entries };

    fn others(&self) -> &Map<String, Value> {
        &self.other
    }

    fn names() -> &'static [&'static str] {
        &[
            "type",
            "api_type",
            "driver_version",
            "graphics_shader_level",
            "id",
            "max_texture_size",
            "memory_size",
            "multi_threaded_rendering",
            "name",
            "npot_support",
            "supports_compute_shaders",
            "supports_draw_call_instancing",
            "supports_geometry_shaders",
            "supports_ray_tracing",
            "vendor_id",
            "vendor_name",
            "version",
        ]
    }

    fn read<S: Source>(from: &mut S) -> GpuContext {
        GpuContext {
            api_type: from.optional("api_type"),
            driver_version: from.optional("driver_version"),
            graphics_shader_level: from.optional("graphics_shader_level"),
            id: from.optional("id"),
            max_texture_size: from.optional("max_texture_size"),
            memory_size: from.optional("memory_size"),
            multi_threaded_rendering: from.optional("multi_threaded_rendering"),
            name: from.text("name"),
            npot_support: from.optional("npot_support"),
            supports_compute_shaders: from.optional("supports_compute_shaders"),
            supports_draw_call_instancing: from.optional("supports_draw_call_instancing"),
            supports_geometry_shaders: from.optional("supports_geometry_shaders"),
            supports_ray_tracing: from.optional("supports_ray_tracing"),
            vendor_id: from.optional("vendor_id"),
            vendor_name: from.optional("vendor_name"),
            version: from.optional("version"),
            other: from.others(GpuContext::names()),
        }
    }

    fn copy_rows(&self, copies: &mut Copier) -> Result<GpuContext, AllocError> {
        Ok(GpuContext {
            api_type: copies.optional(&self.api_type),
            driver_version: copies.optional(&self.driver_version),
            graphics_shader_level: copies.optional(&self.graphics_shader_level),
            id: copies.optional(&self.id),
            max_texture_size: copies.optional(&self.max_texture_size),
            memory_size: copies.optional(&self.memory_size),
            multi_threaded_rendering: copies.optional(&self.multi_threaded_rendering),
            name: copies.text(&self.name),
            npot_support: copies.optional(&self.npot_support),
            supports_compute_shaders: copies.optional(&self.supports_compute_shaders),
            supports_draw_call_instancing: copies.optional(&self.supports_draw_call_instancing),
            supports_geometry_shaders: copies.optional(&self.supports_geometry_shaders),
            supports_ray_tracing: copies.optional(&self.supports_ray_tracing),
            vendor_id: copies.optional(&self.vendor_id),
            vendor_name: copies.optional(&self.vendor_name),
            version: copies.optional(&self.version),
            other: copies.others(&self.other)?,
        })
    }
}
