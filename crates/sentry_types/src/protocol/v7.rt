//! Version 7 of the Sentry protocol: envelopes and their items, and the small texts in them.

// Envelopes, what they hold, and their filters.
pub use sentry_contexts::{
    AppContext, BrowserContext, Context, DeviceContext, GpuContext, OsContext, OtelContext,
    ResponseContext, RuntimeContext, TraceContext,
};
pub use sentry_envelope::called::{Asked, Given};
pub use sentry_envelope::timed::read_line_at;
pub use sentry_envelope::{
    AddRefused, CountedReader, CountedWriter, Envelope, EnvelopeError, EnvelopeFilter,
    EnvelopeFilterCallbacks, EnvelopeHeaders, EnvelopeItemIter, EnvelopeWriteError, Frames,
    IntoItems, ItemFrame, filtered, laws, normal_text, read_item,
};
pub use sentry_event::{AsFingerprint, Event, Span, Transaction};
pub use sentry_forward::{
    AnyFrame, AnyFrames, ForwardError, ForwardRules, Forwarded, forward, forward_by,
};
pub use sentry_framing::{ItemHeader, ItemKind, read_item_header};
pub use sentry_items::text::Text;
pub use sentry_items::{
    Attachment, AttachmentType, AttachmentWriteError, EnvelopeItem, ItemContainer, ItemLossIter,
    LossSlice, LossSource, ReplayRecording,
};
pub use sentry_parts::{
    AppleDebugImage, Breadcrumb, CError, ClientSdkInfo, ClientSdkPackage, DebugImage, DebugMeta,
    Exception, Frame, LogEntry, MachException, Mechanism, MechanismMeta, PosixSignal,
    ProguardDebugImage, Request, Stacktrace, SymbolicDebugImage, SystemSdkInfo, TemplateInfo,
    Thread, ThreadId, TreeMember, User, WasmDebugImage,
};
pub use sentry_records::{
    DynamicSamplingContext, Log, LogAttribute, Metric, MonitorCheckIn, MonitorConfig,
    MonitorSchedule, ScheduleError, SessionAggregateItem, SessionAggregates, SessionAttributes,
    SessionUpdate, UserReport,
};
pub use sentry_reports::{Category, Item, ItemLoss, Reason, Report, Report as ClientReport};
pub use sentry_rows::Values;

// Why an envelope doesn't read, and what reads of it once some places are repaired.
pub use sentry_mending::{
    Break, Cause, Expected, Explanation, Fault, Found, MendRules, Mended, MendedItem, Note, Place,
    Refusal, Repair, Repairs, Wanted, explain, mend,
};

// Envelopes and events that are made of texts, rate limits, and the measure of an envelope.
pub use sentry_limits::{Measured, RateLimits, measure};
pub use sentry_making::{TextMember, append_item, event_payload, json_text, make_envelope};

// Small texts.
pub use sentry_identifiers::{FromHexError, SpanId, TraceId};
pub use sentry_moments::{
    Decimal, DecimalError, InvalidSampleRandError, Moment, SampleRand, SampleRate,
};
pub use sentry_text::{
    Addr, CrontabParseError, IpAddress, LogSeverityNumber, OrganizationId, ParseIpError,
    ParseNumberError, RegVal, SeverityOutOfRange, validate,
};
pub use sentry_words::{
    Level, LogLevel, MetricType, MonitorCheckInStatus, MonitorIntervalUnit, Orientation,
    ParseLevelError, ParseSessionStatusError, ParseStatusError, ParseWordError, Sealed,
    SessionStatus, SpanStatus, Unit,
};
pub use url::Url;
pub use uuid::Uuid;

// Types as trees of JSON: the traits of their calls, and the forms that types have.
pub use sentry_identifiers::{Hyphenated, Simple};
pub use sentry_json::{Named, Node};
pub use sentry_moments::{Rfc3339, Seconds};
pub use sentry_rows::values::AsValues;
pub use sentry_rows::{AsCase, AsCaseMap, AsKept, AsTable, FromTreeAt, ReadCodecAt};
pub use sentry_tables::{
    AsBoxed, AsText, AsUnsigned, AsWord, Codec, Drawn, Formed, FromTree, Member, Own, ReadCodec,
    TreeError, Unsigned, Way, Word, read_line, read_tree, text_of, whole,
};
pub use sentry_text::{IpText, OrganizationText, UrlText};
pub use sentry_words::Sampled;

// Trees of JSON, and maps.
pub use self::map::Map;
pub use self::value::Value;

/// Losses, client reports, and the ledger that holds losses until they are reported.
pub mod client_report {
    pub use sentry_items::{ItemLossIter, LossSlice, LossSource};
    pub use sentry_ledger::{
        ForwardFailed, Ledger, LedgerFull, Step, StepAnswer, category_of_type, filter_recorded,
        forward_recorded, frame_losses, run_steps,
    };
    pub use sentry_reports::{Category, Item, ItemLoss, Reason, Report};
}

/// JSON values: those of `serde_json`, and the writer of their text.
pub mod value {
    pub use sentry_json::Writer;
    pub use serde_json::{Map, Number, Value};
}

/// `Map`, the ordered map that fields of the protocol's types have.
pub mod map {
    pub use std::collections::BTreeMap as Map;
}

/// Ids of debug files (`DebugId`) and of code files (`CodeId`), and the error of their texts.
pub mod debugid {
    pub use sentry_identifiers::{CodeId, DebugId, ParseDebugIdError};
}
