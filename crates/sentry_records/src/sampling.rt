//! The dynamic sampling context.
#![tactic(auto, unfolding(crate::specs::Sampling::sampling_fields))]

ghost use Rattle.sentry_records.specs.Sampling.{sampling_fields, sampling_in_order};

use sentry_identifiers::TraceId;
use sentry_moments::{SampleRand, SampleRate};
use sentry_rows::{AsTable, Copier, CopyTable, ReadTable, Sink, Source, Table};
use sentry_tables::{Formed, Member};
use sentry_text::{OrganizationId, OrganizationText};
use sentry_words::Sampled;
use std::alloc::{AllocError, Global};

/// The dynamic sampling context: the data by which a trace is sampled, the same for all events of
/// the trace. The member `trace` of an envelope header.
///
/// <https://develop.sentry.dev/sdk/telemetry/traces/dynamic-sampling-context/>
#[derive(Debug, Drop, PartialEq)]
pub struct DynamicSamplingContext {
    trace_id: Option<TraceId>,
    public_key: Option<String>,
    sample_rate: Option<SampleRate>,
    sample_rand: Option<SampleRand>,
    sampled: Option<bool>,
    release: Option<String>,
    environment: Option<String>,
    transaction: Option<String>,
    org_id: Option<OrganizationId>,
}

impl DynamicSamplingContext {
    ghost use Rattle.std.specs.Prelude.{◌≡◌, IfOk, codes};
    ghost use Rattle.sentry_tables.specs.Defaults.{IsDefault};
    ghost use Rattle.sentry_tables.specs.Cell.{text};
    ghost use Rattle.sentry_tables.specs.Cells.{text_cell, natural_cell, option_cell};
    ghost use Rattle.sentry_rows.specs.Parts.{part_at};
    ghost use Rattle.sentry_identifiers.specs.HexIdTree.{trace_id_cell};
    ghost use Rattle.sentry_moments.specs.SamplingTexts.{sample_rand_cell};
    ghost use Rattle.sentry_text.specs.ProjectTree.{organization_cell};
    ghost use Rattle.sentry_words.specs.Sampled.{sampled_cell};
    ghost use Rattle.sentry_records.specs.Sampling.{sampling_cell, with_row};

    /// Creates a context with no fields set.
    pub fn new() -> DynamicSamplingContext
        ensures { IsDefault sampling_fields result }
    {
        DynamicSamplingContext {
            trace_id: None,
            public_key: None,
            sample_rate: None,
            sample_rand: None,
            sampled: None,
            release: None,
            environment: None,
            transaction: None,
            org_id: None,
        }
    }

    /// Creates a context with no fields set, without allocating.
    pub fn default_in(_alloc: Global) -> DynamicSamplingContext
        ensures { IsDefault sampling_fields result }
    {
        DynamicSamplingContext::new()
    }

    /// Sets the trace id.
    pub fn with_trace_id(self, trace_id: TraceId) -> DynamicSamplingContext
        ensures { sampling_cell result ≡ with_row (codes "trace_id") (trace_id_cell trace_id) self }
    {
        DynamicSamplingContext {
            trace_id: Some(trace_id),
            ..self
        }
    }

    /// Sets the public key of the DSN that the trace is sent to.
    pub fn with_public_key(self, public_key: String) -> DynamicSamplingContext
        ensures { sampling_cell result ≡ with_row (codes "public_key") (text_cell public_key) self }
    {
        DynamicSamplingContext {
            public_key: Some(public_key),
            ..self
        }
    }

    /// Sets the sample rate in billionths: 10^9 is a rate of 1.
    pub fn with_sample_rate(self, billionths: u64) -> DynamicSamplingContext
        ensures { sampling_cell result ≡
            with_row (codes "sample_rate") (natural_cell billionths) self }
    {
        DynamicSamplingContext {
            sample_rate: Some(SampleRate(billionths)),
            ..self
        }
    }

    /// Sets the random value that the sample rate is compared with.
    pub fn with_sample_rand(self, sample_rand: SampleRand) -> DynamicSamplingContext
        ensures { sampling_cell result ≡
            with_row (codes "sample_rand") (sample_rand_cell sample_rand) self }
    {
        DynamicSamplingContext {
            sample_rand: Some(sample_rand),
            ..self
        }
    }

    /// Sets whether the trace was sampled.
    pub fn with_sampled(self, sampled: bool) -> DynamicSamplingContext
        ensures { sampling_cell result ≡ with_row (codes "sampled") (sampled_cell sampled) self }
    {
        DynamicSamplingContext {
            sampled: Some(sampled),
            ..self
        }
    }

    /// Sets the release.
    pub fn with_release(self, release: String) -> DynamicSamplingContext
        ensures { sampling_cell result ≡ with_row (codes "release") (text_cell release) self }
    {
        DynamicSamplingContext {
            release: Some(release),
            ..self
        }
    }

    /// Sets the environment.
    pub fn with_environment(self, environment: String) -> DynamicSamplingContext
        ensures { sampling_cell result ≡
            with_row (codes "environment") (text_cell environment) self }
    {
        DynamicSamplingContext {
            environment: Some(environment),
            ..self
        }
    }

    /// Sets the transaction name.
    pub fn with_transaction(self, transaction: String) -> DynamicSamplingContext
        ensures { sampling_cell result ≡
            with_row (codes "transaction") (text_cell transaction) self }
    {
        DynamicSamplingContext {
            transaction: Some(transaction),
            ..self
        }
    }

    /// Sets the organization id.
    pub fn with_org_id(self, org_id: OrganizationId) -> DynamicSamplingContext
        ensures { sampling_cell result ≡ with_row (codes "org_id") (organization_cell org_id) self }
    {
        DynamicSamplingContext {
            org_id: Some(org_id),
            ..self
        }
    }

    /// Returns the trace id.
    pub fn trace_id(&self) -> Option<TraceId>
        ensures { option_cell trace_id_cell result ≡
            part_at (codes "trace_id") sampling_fields self.now }
    {
        self.trace_id
    }

    /// Returns the public key of the DSN that the trace is sent to.
    pub fn public_key(&self) -> Option<&str>
        ensures { option_cell (λ key.
            text key.now) result ≡ part_at (codes "public_key") sampling_fields self.now }
    {
        self.public_key.as_deref()
    }

    /// Returns the sample rate in billionths: 10^9 is a rate of 1.
    pub fn sample_rate(&self) -> Option<u64>
        ensures { option_cell natural_cell result ≡
            part_at (codes "sample_rate") sampling_fields self.now }
    {
        self.sample_rate.map(|rate| rate.0)
    }

    /// Returns the random value that the sample rate is compared with.
    pub fn sample_rand(&self) -> Option<SampleRand>
        ensures { option_cell sample_rand_cell result ≡
            part_at (codes "sample_rand") sampling_fields self.now }
    {
        self.sample_rand
    }

    /// Returns whether the trace was sampled.
    pub fn sampled(&self) -> Option<bool>
        ensures { option_cell sampled_cell result ≡
            part_at (codes "sampled") sampling_fields self.now }
    {
        self.sampled
    }

    /// Returns the release.
    pub fn release(&self) -> Option<&str>
        ensures { option_cell (λ release.
            text release.now) result ≡ part_at (codes "release") sampling_fields self.now }
    {
        self.release.as_deref()
    }

    /// Returns the environment.
    pub fn environment(&self) -> Option<&str>
        ensures { option_cell (λ name.
            text name.now) result ≡ part_at (codes "environment") sampling_fields self.now }
    {
        self.environment.as_deref()
    }

    /// Returns the transaction name.
    pub fn transaction(&self) -> Option<&str>
        ensures { option_cell (λ name.
            text name.now) result ≡ part_at (codes "transaction") sampling_fields self.now }
    {
        self.transaction.as_deref()
    }

    /// Returns the organization id.
    pub fn org_id(&self) -> Option<OrganizationId>
        ensures { option_cell organization_cell result ≡
            part_at (codes "org_id") sampling_fields self.now }
    {
        self.org_id
    }

    /// Clones the context. `AllocError` if an allocation fails.
    pub fn clone(&self) -> Result<DynamicSamplingContext, AllocError>
        ensures { IfOk result (λ copy. sampling_cell copy ≡ sampling_cell self.now) }
    {
        self.copy()
    }
}

impl Formed for DynamicSamplingContext {
    type Form = AsTable;
}

impl Table for DynamicSamplingContext {
    ghost lines = { sampling_fields };

    fn rows<S: Sink>(&self, to: &mut S) {
        to.optional("environment", &self.environment);
        to.optional_as::<OrganizationText, OrganizationId>("org_id", &self.org_id);
        to.optional("public_key", &self.public_key);
        to.optional("release", &self.release);
        to.optional("sample_rand", &self.sample_rand);
        to.optional("sample_rate", &self.sample_rate);
        to.optional_as::<Sampled, bool>("sampled", &self.sampled);
        to.optional("trace_id", &self.trace_id);
        to.optional("transaction", &self.transaction);
    }

    ghost ordered = { sampling_in_order };
}

impl ReadTable for DynamicSamplingContext {
    fn read<S: Source>(from: &mut S) -> DynamicSamplingContext {
        DynamicSamplingContext {
            environment: from.optional("environment"),
            org_id: from.optional_as::<OrganizationText, OrganizationId>("org_id"),
            public_key: from.optional("public_key"),
            release: from.optional("release"),
            sample_rand: from.optional("sample_rand"),
            sample_rate: from.optional("sample_rate"),
            sampled: from.optional_as::<Sampled, bool>("sampled"),
            trace_id: from.optional("trace_id"),
            transaction: from.optional("transaction"),
        }
    }
}

impl CopyTable for DynamicSamplingContext {
    fn copy_rows(&self, copies: &mut Copier) -> Result<DynamicSamplingContext, AllocError> {
        Ok(DynamicSamplingContext {
            environment: copies.optional(&self.environment),
            org_id: copies.optional_as::<OrganizationText, OrganizationId>(&self.org_id),
            public_key: copies.optional(&self.public_key),
            release: copies.optional(&self.release),
            sample_rand: copies.optional(&self.sample_rand),
            sample_rate: copies.optional(&self.sample_rate),
            sampled: copies.optional_as::<Sampled, bool>(&self.sampled),
            trace_id: copies.optional(&self.trace_id),
            transaction: copies.optional(&self.transaction),
        })
    }
}
