//! Events: errors and messages with their data.
#![tactic(auto, unfolding(crate::specs::Events::event_fields))]

ghost use Rattle.std.specs.Prelude.{◌≡◌, codes, false, map};
ghost use Rattle.sentry_json.specs.Keys.{is_among};
ghost use Rattle.sentry_tables.specs.Fields.{rows_of};
ghost use Rattle.sentry_tables.specs.Reading.{keys_but};
ghost use Rattle.sentry_event.specs.Events.{event_fields, event_in_order};

use crate::apart::ReadApart;
use crate::fingerprint::{AsFingerprint, owned_texts};
use crate::owned::{owned_option, owned_text};
use rand_core::Rng;
use sentry_contexts::Context;
use sentry_frames::{Exception, LogEntry, Stacktrace, TemplateInfo, Thread};
use sentry_identifiers::{Simple, random_uuid};
use sentry_moments::{Moment, Seconds};
use sentry_parts::{Breadcrumb, ClientSdkInfo, DebugMeta, Request, User};
use sentry_rows::{
    AsCaseMap, AsTable, Copier, CopyTable, MadeCodec, ReadTableAt, Sink, Source, Table, Values,
};
use sentry_tables::{Formed, Member};
use sentry_words::Level;
use serde_json::{Map, Value};
use std::alloc::{AllocError, Global};
use std::borrow::CowStr;
use std::fmt;
use uuid::Uuid;

/// An event: something that happened in a program, such as an error.
///
/// On reading, an absent `event_id` is drawn from the generator, and an absent `timestamp` is the
/// moment of reading.
///
/// <https://develop.sentry.dev/sdk/data-model/event-payloads/>
#[derive(Debug, Drop, PartialEq)]
pub struct Event<'a> {
    /// Event id: a UUID, written as 32 hex digits.
    pub event_id: Uuid,
    /// Severity; defaults to `error`.
    pub level: Level,
    /// Fingerprint for grouping; defaults to `["{{ default }}"]`.
    ///
    /// `["{{default}}"]` is another spelling of the default.
    pub fingerprint: Vec<CowStr<'a>>,
    /// The culprit: the function or transaction that the event is attributed to (deprecated by
    /// Sentry).
    pub culprit: Option<String>,
    /// Name of the transaction in which the event occurred.
    pub transaction: Option<String>,
    /// Message, human-readable.
    pub message: Option<String>,
    /// Log entry: a message with parameters.
    pub logentry: Option<LogEntry>,
    /// Name of the logger that created the event.
    pub logger: Option<String>,
    /// Versions of the modules, by module name.
    pub modules: Map<String, String>,
    /// Platform of the application; defaults to `other`.
    pub platform: CowStr<'a>,
    /// Creation time: RFC 3339 or whole seconds.
    pub timestamp: Moment,
    /// Name of the server or device.
    pub server_name: Option<CowStr<'a>>,
    /// Release of the application.
    pub release: Option<CowStr<'a>>,
    /// Distribution (`dist`) of the release.
    pub dist: Option<CowStr<'a>>,
    /// Environment, such as `production`.
    pub environment: Option<CowStr<'a>>,
    /// The affected user.
    pub user: Option<User>,
    /// The HTTP request that the program was handling.
    pub request: Option<Request>,
    /// Contexts, by name.
    pub contexts: Map<String, Context>,
    /// Breadcrumbs: what happened before the event, oldest first.
    pub breadcrumbs: Values<Breadcrumb>,
    /// Exceptions, each before the exception that it caused.
    pub exception: Values<Exception>,
    /// Stack trace that belongs to no thread or exception (deprecated by Sentry).
    pub stacktrace: Option<Stacktrace>,
    /// Location in a template where the error occurred.
    pub template: Option<TemplateInfo>,
    /// Threads of the program.
    pub threads: Values<Thread>,
    /// Searchable tags, by name.
    pub tags: Map<String, String>,
    /// Additional data, by name.
    pub extra: Map<String, Value>,
    /// Debug images and SDK information for symbolication.
    pub debug_meta: DebugMeta,
    /// The SDK that sends the event.
    pub sdk: Option<ClientSdkInfo>,
}

impl<'a> Event<'a> {
    ghost use Rattle.std.specs.Prelude.{IfErr, IfOk};
    ghost use Rattle.rand_core.specs.Stream.{fill_bytes};
    ghost use Rattle.uuid.specs.Parts.{v4_of_fill};
    ghost use Rattle.sentry_tables.specs.Defaults.{IsDefaultAt};
    ghost use Rattle.sentry_moments.specs.Moments.{moment_cell};
    ghost use Rattle.sentry_event.specs.Events.{event_cell};

    /// Creates an event at `now`, of level `error`, platform `other` and the default fingerprint,
    /// with no other fields set.
    ///
    /// The event id is a random UUID (version 4) drawn from `ids`.
    ///
    /// # Errors
    ///
    /// `AllocError` if an allocation fails; nothing is drawn from `ids`.
    pub fn new<R: Rng>(alloc: Global, now: Moment, ids: &mut R) -> Result<Event<'a>, AllocError>
        ensures rows { IfOk result (λ e. IsDefaultAt (moment_cell now) event_fields e) }
        ensures id { IfOk result (λ e.
            (e.event_id, R.stream ids.new) ≡ v4_of_fill (fill_bytes 16 (R.stream ids.old))) }
        ensures refused { IfErr result (λ e. R.stream ids.new ≡ R.stream ids.old) }
    {
        let fingerprint = AsFingerprint::make(alloc)?;
        let event_id = random_uuid(ids);
        Ok(Event {
            event_id,
            level: Level::Error,
            fingerprint,
            culprit: None,
            transaction: None,
            message: None,
            logentry: None,
            logger: None,
            modules: Map::new(alloc),
            platform: CowStr::Borrowed("other"),
            timestamp: now,
            server_name: None,
            release: None,
            dist: None,
            environment: None,
            user: None,
            request: None,
            contexts: Map::new(alloc),
            breadcrumbs: Values {
                values: Vec::new(alloc),
            },
            exception: Values {
                values: Vec::new(alloc),
            },
            stacktrace: None,
            template: None,
            threads: Values {
                values: Vec::new(alloc),
            },
            tags: Map::new(alloc),
            extra: Map::new(alloc),
            debug_meta: DebugMeta::default_in(alloc),
            sdk: None,
        })
    }

    /// Converts the event into one that borrows nothing; returns the event unchanged if an
    /// allocation fails.
    pub fn into_owned(self, alloc: Global) -> Result<Event<'static>, Event<'a>>
        ensures owned { IfOk result (λ e. event_cell e ≡ event_cell self.entry) }
        ensures handed_back { IfErr result (λ back. back ≡ self.entry) }
    {
        let Ok(fingerprint_owned) = owned_texts(alloc, &self.fingerprint) else {
            return Err(self);
        };
        let Ok(platform_owned) = owned_text(alloc, &self.platform) else {
            return Err(self);
        };
        let Ok(server_name_owned) = owned_option(alloc, &self.server_name) else {
            return Err(self);
        };
        let Ok(release_owned) = owned_option(alloc, &self.release) else {
            return Err(self);
        };
        let Ok(dist_owned) = owned_option(alloc, &self.dist) else {
            return Err(self);
        };
        let Ok(environment_owned) = owned_option(alloc, &self.environment) else {
            return Err(self);
        };
        Ok(Event {
            event_id: self.event_id,
            level: self.level,
            fingerprint: fingerprint_owned,
            culprit: self.culprit,
            transaction: self.transaction,
            message: self.message,
            logentry: self.logentry,
            logger: self.logger,
            modules: self.modules,
            platform: platform_owned,
            timestamp: self.timestamp,
            server_name: server_name_owned,
            release: release_owned,
            dist: dist_owned,
            environment: environment_owned,
            user: self.user,
            request: self.request,
            contexts: self.contexts,
            breadcrumbs: self.breadcrumbs,
            exception: self.exception,
            stacktrace: self.stacktrace,
            template: self.template,
            threads: self.threads,
            tags: self.tags,
            extra: self.extra,
            debug_meta: self.debug_meta,
            sdk: self.sdk,
        })
    }

    /// Clones the event. `AllocError` if an allocation fails.
    pub fn clone(&self) -> Result<Event<'a>, AllocError>
        ensures { IfOk result (λ copy. event_cell copy ≡ event_cell self.now) }
    {
        self.copy()
    }
}

/// Formats the event id, with hyphens, and the timestamp:
/// `Event(id: d43e86c9-6e42-4a93-a4fb-da156dd17341, ts: 2017-12-24T08:12:00Z)`.
impl fmt::Display for Event<'_> {
    ghost use Rattle.std.specs.Prelude.{Some};
    ghost use Rattle.sentry_event.specs.Events.{event_text};

    ghost output = { λ e. Some (event_text e) };

    fn fmt<W: fmt::Write>(&self, f: &mut fmt::Formatter<W>) -> fmt::Result {
        let id = self.event_id.hyphenated();
        write!(f, "Event(id: {}, ts: {})", id, self.timestamp)
    }
}

impl<'a> Formed for Event<'a> {
    type Form = AsTable;
}

impl<'a> Table for Event<'a> {
    ghost lines = { event_fields };

    fn rows<S: Sink>(&self, to: &mut S) {
        to.values("breadcrumbs", &self.breadcrumbs);
        to.unless_usual_as::<AsCaseMap, Map<String, Context>>("contexts", &self.contexts);
        to.optional("culprit", &self.culprit);
        to.unless_usual_as::<AsTable, DebugMeta>("debug_meta", &self.debug_meta);
        to.optional("dist", &self.dist);
        to.optional("environment", &self.environment);
        to.drawn_as::<Simple, Uuid>("event_id", &self.event_id);
        to.values("exception", &self.exception);
        to.map("extra", &self.extra);
        to.unless_usual_as::<AsFingerprint, Vec<CowStr<'a>>>("fingerprint", &self.fingerprint);
        to.unless("level", &self.level, &Level::Error);
        to.optional("logentry", &self.logentry);
        to.optional("logger", &self.logger);
        to.optional("message", &self.message);
        to.map("modules", &self.modules);
        to.text_unless("platform", &self.platform, "other");
        to.optional("release", &self.release);
        to.optional("request", &self.request);
        to.optional("sdk", &self.sdk);
        to.optional("server_name", &self.server_name);
        to.optional("stacktrace", &self.stacktrace);
        to.map("tags", &self.tags);
        to.optional("template", &self.template);
        to.values("threads", &self.threads);
        to.at_once_as::<Seconds, Moment>("timestamp", &self.timestamp);
        to.optional("transaction", &self.transaction);
        to.optional("user", &self.user);
    }

    ghost ordered = { event_in_order };
}

impl<'a> ReadTableAt for Event<'a> {
    fn read<S: Source, R: Rng>(from: &mut S, now: Moment, ids: &mut R) -> Event<'a> {
        Event {
            breadcrumbs: from.values_at("breadcrumbs", now, ids),
            contexts: from.or_as_at::<AsCaseMap, Map<String, Context>, R>(
                "contexts",
                Map::new(from.alloc()),
                now,
                ids,
            ),
            culprit: from.optional("culprit"),
            debug_meta: from.or_as::<AsTable, DebugMeta>(
                "debug_meta",
                DebugMeta::default_in(from.alloc()),
            ),
            dist: from.optional("dist"),
            environment: from.optional("environment"),
            event_id: from.drawn_as::<Simple, Uuid, R>("event_id", ids),
            exception: from.values("exception"),
            extra: from.map("extra"),
            fingerprint: from.made_as::<AsFingerprint, Vec<CowStr<'a>>>(
                "fingerprint",
                Vec::new(from.alloc()),
            ),
            level: from.or("level", Level::Error),
            logentry: from.optional("logentry"),
            logger: from.optional("logger"),
            message: from.optional("message"),
            modules: from.map("modules"),
            platform: from.cow_or("platform", "other"),
            release: from.optional("release"),
            request: from.optional("request"),
            sdk: from.optional("sdk"),
            server_name: from.optional("server_name"),
            stacktrace: from.optional("stacktrace"),
            tags: from.map("tags"),
            template: from.optional("template"),
            threads: from.values("threads"),
            timestamp: from.at_once_as::<Seconds>("timestamp", now),
            transaction: from.optional("transaction"),
            user: from.optional("user"),
        }
    }
}

impl<'a> CopyTable for Event<'a> {
    fn copy_rows(&self, copies: &mut Copier) -> Result<Event<'a>, AllocError> {
        Ok(Event {
            breadcrumbs: copies.values(&self.breadcrumbs),
            contexts: copies.of_as::<AsCaseMap, Map<String, Context>>(&self.contexts)?,
            culprit: copies.optional(&self.culprit),
            debug_meta: copies.of(&self.debug_meta)?,
            dist: copies.optional(&self.dist),
            environment: copies.optional(&self.environment),
            event_id: copies.plain_as::<Simple, Uuid>(&self.event_id),
            exception: copies.values(&self.exception),
            extra: copies.map(&self.extra)?,
            fingerprint: copies.of_as::<AsFingerprint, Vec<CowStr<'a>>>(&self.fingerprint)?,
            level: copies.plain(&self.level),
            logentry: copies.optional(&self.logentry),
            logger: copies.optional(&self.logger),
            message: copies.optional(&self.message),
            modules: copies.map(&self.modules)?,
            platform: copies.cow(&self.platform),
            release: copies.optional(&self.release),
            request: copies.optional(&self.request),
            sdk: copies.optional(&self.sdk),
            server_name: copies.optional(&self.server_name),
            stacktrace: copies.optional(&self.stacktrace),
            tags: copies.map(&self.tags)?,
            template: copies.optional(&self.template),
            threads: copies.values(&self.threads),
            timestamp: copies.plain_as::<Seconds, Moment>(&self.timestamp),
            transaction: copies.optional(&self.transaction),
            user: copies.optional(&self.user),
        })
    }
}

impl<'a> ReadApart for Box<Event<'a>> {
    ghost keys_beside = { keys_but (codes "extra") (rows_of event_fields) };

    fn keys() -> &'static [&'static str]
        ensures keys { map (λ key. key.now) result.now
            ≡ keys_but (codes "extra") (rows_of event_fields) }
        ensures apart { is_among (codes "extra")
            (keys_but (codes "extra") (rows_of event_fields)) ≡ false }
    {
        &[
            "breadcrumbs",
            "contexts",
            "culprit",
            "debug_meta",
            "dist",
            "environment",
            "event_id",
            "exception",
            "fingerprint",
            "level",
            "logentry",
            "logger",
            "message",
            "modules",
            "platform",
            "release",
            "request",
            "sdk",
            "server_name",
            "stacktrace",
            "tags",
            "template",
            "threads",
            "timestamp",
            "transaction",
            "user",
        ]
    }

    fn with_extra(self, extra: Option<Map<String, Value>>) -> Box<Event<'a>> {
        let mut event = self;
        if let Some(extra) = extra {
            event.extra = extra;
        }
        event
    }
}
