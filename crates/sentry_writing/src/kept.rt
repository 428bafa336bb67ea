//! Additional members of an object, whose keys no row has.

ghost use Rattle.std.specs.Prelude.{◌≡◌, ◌↔◌, IfOk, IsTrue, false, map as map_list};
ghost use Rattle.serde_json.specs.Data.{object};
ghost use Rattle.serde_json.specs.View.{members_view};
ghost use Rattle.serde_json.specs.Written.{members_have_float};
ghost use Rattle.sentry_json.specs.Sound.{IsRegular, HasTexts};
ghost use Rattle.sentry_tables.specs.Meets.{IsClear};

use sentry_json::is_among;
use sentry_tables::Member;
use sentry_tables::tree::has_float;
use serde_json::{Map, Value};
use std::alloc::AllocError;

/// Returns whether additional members are plain: no key is one of `names`, and no number in the
/// members is held as a float.
///
/// `names` are the keys that the members may not have: those of the table's rows, and `type` in a
/// type with a tag.
pub fn others_are_plain(others: &Map<String, Value>, names: &[&str]) -> bool
    ensures plain { IsTrue result
        ↔ (IsClear (map_list (λ name. name.now) names.now) (members_view others.now.entries)
        × (members_have_float (members_view others.now.entries) ≡ false)) }
    ensures stored { IsTrue result → IsRegular (object (members_view others.now.entries))
        × HasTexts (object (members_view others.now.entries)) }
{
    for (key, member) in others.iter() {
        if is_among(names, key.as_str()) {
            return false;
        }
        if has_float(member) {
            return false;
        }
    }
    true
}

/// Clones additional members. `AllocError` if an allocation fails.
pub fn copy_others(others: &Map<String, Value>) -> Result<Map<String, Value>, AllocError>
    ensures { IfOk result (λ m. members_view m.entries ≡ members_view others.now.entries) }
{
    others.copy()
}
