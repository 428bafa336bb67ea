//! Places of an item that don't fit, and the repairs of them.

ghost use Rattle.std.specs.Prelude.{◌≡◌};
ghost use Rattle.sentry_places.specs.Words.{found_word, repair_word, wanted_word};

/// What stands at a place.
#[derive(Clone, Copy, Debug, PartialEq, Eq)]
pub enum Found {
    /// No member of the key.
    Absent,
    /// Null.
    Null,
    /// A boolean.
    Boolean,
    /// A number without a fraction or an exponent.
    Integer,
    /// Any other number.
    Decimal,
    /// A string.
    Text,
    /// An array.
    Array,
    /// An object.
    Object,
}

impl Found {
    /// Returns the name of the JSON type, or `absent`.
    pub fn as_str(&self) -> &'static str
        ensures { result.now ≡ found_word self.now }
    {
        match self {
            Found::Absent => "absent",
            Found::Null => "null",
            Found::Boolean => "boolean",
            Found::Integer => "integer",
            Found::Decimal => "decimal",
            Found::Text => "string",
            Found::Array => "array",
            Found::Object => "object",
        }
    }
}

/// What reads at a place.
#[derive(Clone, Copy, Debug, PartialEq, Eq)]
pub enum Wanted {
    /// Any JSON without floats.
    Any,
    /// Any string.
    Text,
    /// A whole number or a string.
    IntegerOrText,
    /// A whole number.
    Integer,
    /// A boolean.
    Boolean,
    /// Whole seconds or an RFC 3339 string.
    Moment,
    /// An RFC 3339 string.
    Rfc3339,
    /// An array.
    List,
    /// An object.
    Object,
    /// A UUID.
    Uuid,
    /// 16 hexadecimal digits.
    SpanId,
    /// A number as a string.
    NumberText,
    /// A URL.
    Url,
    /// One of some words.
    Word,
    /// None of these.
    Other,
}

impl Wanted {
    /// Returns what is wanted, in words.
    pub fn as_str(&self) -> &'static str
        ensures { result.now ≡ wanted_word self.now }
    {
        match self {
            Wanted::Any => "any value without floats",
            Wanted::Text => "a string",
            Wanted::IntegerOrText => "a whole number or a string",
            Wanted::Integer => "a whole number",
            Wanted::Boolean => "a boolean",
            Wanted::Moment => "whole seconds or an RFC 3339 string",
            Wanted::Rfc3339 => "an RFC 3339 string",
            Wanted::List => "an array",
            Wanted::Object => "an object",
            Wanted::Uuid => "a UUID",
            Wanted::SpanId => "16 hexadecimal digits",
            Wanted::NumberText => "a number as a string",
            Wanted::Url => "a URL",
            Wanted::Word => "one of the known words",
            Wanted::Other => "another value",
        }
    }
}

/// What was done at a place.
#[derive(Clone, Copy, Debug, PartialEq, Eq)]
pub enum Repair {
    /// A number of seconds became an RFC 3339 string, cut to nanoseconds.
    AsMoment,
    /// A value became a string of its own characters.
    AsText,
    /// The type of an attribute, which no type of its value fits, became `string`.
    AsStringType,
    /// An empty array was put where a required array is absent or doesn't fit.
    AsEmptyList,
    /// A member or an item of an array was taken out.
    TakenOut,
    /// An event or a transaction without an id got that of the envelope's header.
    HeaderId,
    /// `length` in the item header became the size of the repaired payload.
    Length,
    /// An item that can't be repaired was left out of the envelope.
    Left,
}

impl Repair {
    /// Returns what was done, in words.
    pub fn as_str(&self) -> &'static str
        ensures { result.now ≡ repair_word self.now }
    {
        match self {
            Repair::AsMoment => "as an RFC 3339 string",
            Repair::AsText => "as a string",
            Repair::AsStringType => "as the type `string`",
            Repair::AsEmptyList => "as an empty array",
            Repair::TakenOut => "taken out",
            Repair::HeaderId => "the header's event id",
            Repair::Length => "length",
            Repair::Left => "left",
        }
    }
}

/// Which repairs are allowed.
#[derive(Clone, Copy, Debug, PartialEq, Eq)]
pub enum Repairs {
    /// None: items that don't read are left.
    Strict,
    /// Those that lose nothing but form: values become strings, an absent or null array becomes an
    /// empty one, null members are taken out.
    Form,
    /// All: what still doesn't fit is taken out, the smallest such part.
    All,
}

/// A place of an item, with what stands and what reads there.
#[derive(Debug, Drop)]
pub struct Place {
    /// Keys and indices that lead to the place, as `exception.values[0].type`.
    pub path: Vec<u8>,
    /// What stands there.
    pub found: Found,
    /// What reads there.
    pub wanted: Wanted,
    /// The number or boolean that stands there, its first 40 characters; of other values nothing.
    pub value: Vec<u8>,
    /// First byte of the value in the envelope; of an absent one, the bracket that ends its object.
    pub start: usize,
    /// Byte behind the value.
    pub end: usize,
}

/// A change of an envelope: some bytes, and what stands there instead.
#[derive(Debug, Drop)]
pub struct Note {
    /// The place that was repaired.
    pub place: Place,
    /// What was done.
    pub repair: Repair,
    /// The place inside that can't be repaired, for which the whole was taken out.
    pub because: Option<Place>,
    /// First byte that is replaced.
    pub start: usize,
    /// Byte behind the last that is replaced.
    pub end: usize,
    /// Bytes that stand there instead.
    pub instead: Vec<u8>,
}
