//! Values that read where a table, a list or a scalar of some kind stands.

use crate::note::Wanted;

/// The smallest string attribute.
pub(crate) const STRING_ATTRIBUTE: &str = r#"{"type":"string","value":""}"#;

/// The same of no type that attributes have.
pub(crate) const UNTYPED: &str = r#"{"type":"?","value":""}"#;

/// The smallest objects that tables with required members read.
pub(crate) const DONORS: [&str; 30] = [
    "{}",
    r#"{"type":""}"#,
    r#"{"values":[]}"#,
    r#"{"spans":[]}"#,
    r#"{"message":""}"#,
    r#"{"name":""}"#,
    r#"{"name":"","version":""}"#,
    r#"{"discarded_events":[]}"#,
    r#"{"items":[]}"#,
    r#"{"attrs":{"release":""}}"#,
    r#"{"release":""}"#,
    r#"{"started":"1970-01-01T00:00:00Z"}"#,
    r#"{"number":0}"#,
    r#"{"exception":0,"code":0,"subcode":0}"#,
    r#"{"type":"string","value":""}"#,
    r#"{"type":"integer","value":0}"#,
    r#"{"type":"boolean","value":false}"#,
    r#"{"category":"error","reason":"send_error","quantity":0}"#,
    r#"{"level":"info","body":"","timestamp":0}"#,
    r#"{"type":"counter","name":"","value":0,"timestamp":0,"trace_id":"00000000000000000000000000000000"}"#,
    r#"{"check_in_id":"00000000000000000000000000000000","monitor_slug":"","status":"ok"}"#,
    r#"{"event_id":"00000000000000000000000000000000","comments":""}"#,
    r#"{"schedule":{"type":"crontab","value":""}}"#,
    r#"{"type":"crontab","value":""}"#,
    r#"{"type":"interval","value":0,"unit":"day"}"#,
    r#"{"type":"apple","name":"","image_addr":0,"image_size":0,"uuid":"00000000000000000000000000000000"}"#,
    r#"{"type":"symbolic","name":"","image_addr":0,"image_size":0,"id":"00000000000000000000000000000000"}"#,
    r#"{"type":"proguard","uuid":"00000000000000000000000000000000"}"#,
    r#"{"type":"wasm","name":"","code_file":"","debug_id":"00000000000000000000000000000000"}"#,
    r#"{"sdk_name":"","version_major":0,"version_minor":0,"version_patchlevel":0}"#,
];

/// Values by which a place of a kind is known; the first that reads decides.
pub(crate) const PROBES: [(&str, Wanted); 18] = [
    (r#""?""#, Wanted::Text),
    ("true", Wanted::Boolean),
    ("[]", Wanted::List),
    (r#""1970-01-01T00:00:00Z""#, Wanted::Rfc3339),
    ("0", Wanted::Integer),
    ("1", Wanted::Integer),
    (r#""0""#, Wanted::NumberText),
    (r#""00000000000000000000000000000000""#, Wanted::Uuid),
    (r#""0000000000000000""#, Wanted::SpanId),
    (r#""http://a/""#, Wanted::Url),
    (r#""error""#, Wanted::Word),
    (r#""ok""#, Wanted::Word),
    (r#""info""#, Wanted::Word),
    (r#""counter""#, Wanted::Word),
    (r#""day""#, Wanted::Word),
    (r#""portrait""#, Wanted::Word),
    (r#""send_error""#, Wanted::Word),
    (r#""string""#, Wanted::Word),
];
