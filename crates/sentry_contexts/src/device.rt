//! Device contexts: the device on which an event occurred.
#![tactic(auto, unfolding(crate::specs::Devices::device_fields))]

ghost use Rattle.std.specs.Prelude.{[], ◌∷◌};
ghost use Rattle.serde_json.specs.View.{members_view};
ghost use Rattle.sentry_tables.specs.Kind.{tag};
ghost use Rattle.sentry_contexts.specs.Devices.{device_fields, device_in_order};

use sentry_moments::{Moment, Rfc3339};
use sentry_rows::{AsKept, Copier, KeptTable, Sink, Source, Table};
use sentry_tables::{Formed, Member};
use sentry_words::Orientation;
use serde_json::{Map, Value};
use std::alloc::{AllocError, Global};

/// The device on which an event occurred.
///
/// <https://develop.sentry.dev/sdk/data-model/event-payloads/contexts/#device-context>
#[derive(Debug, Drop, PartialEq)]
pub struct DeviceContext {
    /// Device name, usually the host name.
    pub name: Option<String>,
    /// Device family: the common part of model names, such as `iPhone`.
    pub family: Option<String>,
    /// Model name, human-readable.
    pub model: Option<String>,
    /// Model identifier, internal to the manufacturer.
    pub model_id: Option<String>,
    /// CPU architecture.
    pub arch: Option<String>,
    /// Battery level in whole percent.
    pub battery_level: Option<u32>,
    /// Screen orientation: `portrait` or `landscape`.
    pub orientation: Option<Orientation>,
    /// Whether the device is a simulator.
    pub simulator: Option<bool>,
    /// Total memory in bytes.
    pub memory_size: Option<u64>,
    /// Free memory in bytes.
    pub free_memory: Option<u64>,
    /// Memory usable by the application, in bytes.
    pub usable_memory: Option<u64>,
    /// Total storage in bytes.
    pub storage_size: Option<u64>,
    /// Free storage in bytes.
    pub free_storage: Option<u64>,
    /// Total attached external storage in bytes.
    pub external_storage_size: Option<u64>,
    /// Free attached external storage in bytes.
    pub external_free_storage: Option<u64>,
    /// Boot time: RFC 3339; null is rejected.
    pub boot_time: Option<Moment>,
    /// Time zone, such as `Europe/Vienna`.
    pub timezone: Option<String>,
    /// Additional members. The key of a field above, or `type`, makes the context unwritable
    /// (`NotPlain`).
    pub other: Map<String, Value>,
}

impl DeviceContext {
    ghost use Rattle.std.specs.Prelude.{◌≡◌, IfOk};
    ghost use Rattle.serde_json.specs.Data.{no_members};
    ghost use Rattle.sentry_tables.specs.Defaults.{IsDefault};
    ghost use Rattle.sentry_contexts.specs.Devices.{device_cell};

    /// Creates a device context with no fields set.
    pub fn default_in(alloc: Global) -> DeviceContext
        ensures rows { IsDefault device_fields result }
        ensures other { members_view result.other.entries ≡ no_members }
    {
        DeviceContext {
            name: None,
            family: None,
            model: None,
            model_id: None,
            arch: None,
            battery_level: None,
            orientation: None,
            simulator: None,
            memory_size: None,
            free_memory: None,
            usable_memory: None,
            storage_size: None,
            free_storage: None,
            external_storage_size: None,
            external_free_storage: None,
            boot_time: None,
            timezone: None,
            other: Map::new(alloc),
        }
    }

    /// Clones the device context. `AllocError` if an allocation fails.
    pub fn clone(&self) -> Result<DeviceContext, AllocError>
        ensures { IfOk result (λ copy. device_cell copy ≡ device_cell self.now) }
    {
        self.copy()
    }
}

impl Formed for DeviceContext {
    type Form = AsKept;
}

impl Table for DeviceContext {
    ghost lines = { device_fields };

    fn rows<S: Sink>(&self, to: &mut S) {
        to.optional("arch", &self.arch);
        to.optional("battery_level", &self.battery_level);
        to.optional_strict_as::<Rfc3339, Moment>("boot_time", &self.boot_time);
        to.optional("external_free_storage", &self.external_free_storage);
        to.optional("external_storage_size", &self.external_storage_size);
        to.optional("family", &self.family);
        to.optional("free_memory", &self.free_memory);
        to.optional("free_storage", &self.free_storage);
        to.optional("memory_size", &self.memory_size);
        to.optional("model", &self.model);
        to.optional("model_id", &self.model_id);
        to.optional("name", &self.name);
        to.optional("orientation", &self.orientation);
        to.optional("simulator", &self.simulator);
        to.optional("storage_size", &self.storage_size);
        to.optional("timezone", &self.timezone);
        to.optional("usable_memory", &self.usable_memory);
    }

    ghost ordered = { device_in_order };
}

impl KeptTable for DeviceContext {
    ghost reserved = { tag ∷ [] };

    ghost others_of = { λ d. members_view d.other.entries };

    fn others(&self) -> &Map<String, Value> {
        &self.other
    }

    fn names() -> &'static [&'static str] {
        &[
            "type",
            "arch",
            "battery_level",
            "boot_time",
            "external_free_storage",
            "external_storage_size",
            "family",
            "free_memory",
            "free_storage",
            "memory_size",
            "model",
            "model_id",
            "name",
            "orientation",
            "simulator",
            "storage_size",
            "timezone",
            "usable_memory",
        ]
    }

    fn read<S: Source>(from: &mut S) -> DeviceContext {
        DeviceContext {
            arch: from.optional("arch"),
            battery_level: from.optional("battery_level"),
            boot_time: from.optional_strict_as::<Rfc3339, Moment>("boot_time"),
            external_free_storage: from.optional("external_free_storage"),
            external_storage_size: from.optional("external_storage_size"),
            family: from.optional("family"),
            free_memory: from.optional("free_memory"),
            free_storage: from.optional("free_storage"),
            memory_size: from.optional("memory_size"),
            model: from.optional("model"),
            model_id: from.optional("model_id"),
            name: from.optional("name"),
            orientation: from.optional("orientation"),
            simulator: from.optional("simulator"),
            storage_size: from.optional("storage_size"),
            timezone: from.optional("timezone"),
            usable_memory: from.optional("usable_memory"),
            other: from.others(DeviceContext::names()),
        }
    }

    fn copy_rows(&self, copies: &mut Copier) -> Result<DeviceContext, AllocError> {
        Ok(DeviceContext {
            arch: copies.optional(&self.arch),
            battery_level: copies.optional(&self.battery_level),
            boot_time: copies.optional_strict_as::<Rfc3339, Moment>(&self.boot_time),
            external_free_storage: copies.optional(&self.external_free_storage),
            external_storage_size: copies.optional(&self.external_storage_size),
            family: copies.optional(&self.family),
            free_memory: copies.optional(&self.free_memory),
            free_storage: copies.optional(&self.free_storage),
            memory_size: copies.optional(&self.memory_size),
            model: copies.optional(&self.model),
            model_id: copies.optional(&self.model_id),
            name: copies.optional(&self.name),
            orientation: copies.optional(&self.orientation),
            simulator: copies.optional(&self.simulator),
            storage_size: copies.optional(&self.storage_size),
            timezone: copies.optional(&self.timezone),
            usable_memory: copies.optional(&self.usable_memory),
            other: copies.others(&self.other)?,
        })
    }
}
