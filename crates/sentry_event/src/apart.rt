//! Values whose additional data is read apart from their other members.

ghost use Rattle.std.specs.Prelude.{◌≡◌, ℕ, List, codes, false, map, option_map};
ghost use Rattle.serde_json.specs.Data.{object};
ghost use Rattle.serde_json.specs.View.{members_view};
ghost use Rattle.sentry_json.specs.Keys.{is_among};
ghost use Rattle.sentry_tables.specs.Reading.{IsShownWith};

use sentry_rows::FromTreeAt;
use serde_json::{Map, Value};

/// The key of additional data.
pub const EXTRA: &str = "extra";

/// A type of values whose additional data ([`EXTRA`]) may be read apart from their other members.
pub trait ReadApart: FromTreeAt {
    // the keys of the other members
    ghost keys_beside: { List (List ℕ) };

    /// Returns the keys of the other members. Members of more keys are ignored on reading.
    fn keys() -> &'static [&'static str]
        ensures keys { map (λ key. key.now) result.now ≡ keys_beside }
        ensures apart { is_among (codes "extra") keys_beside ≡ false };

    /// Returns the value of a whole object, of which this one was read from the other members and
    /// `extra` is the object at [`EXTRA`], if there is one.
    fn with_extra(self, extra: Option<Map<String, Value>>) -> Self
        ensures { IsShownWith (codes "extra")
            (option_map (λ m. object (members_view m.entries)) extra) keys_beside
            Self.kind (Self.cell_of self) (Self.cell_of result) };
}
