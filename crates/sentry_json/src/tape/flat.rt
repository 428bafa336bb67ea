//! Lines that are a flat object, as most item headers are: keys are looked up without a tape.

ghost use Rattle.std.specs.Prelude.{◌≡◌, ◌<◌, [], ◌∷◌, true, None, IfSome, List, Some, length, map, option_map, false};
ghost use Rattle.serde_json.specs.Data.{Data, Members, no_members, put};
ghost use Rattle.serde_json.specs.Find as find;
ghost use Rattle.sentry_json.specs.Keys.{are_distinct};
ghost use Rattle.sentry_json.specs.Line.{tree_of};
ghost use Rattle.sentry_json.specs.Scalars.{scalar_data, token_of};
ghost use Rattle.sentry_json.specs.Spelled.{Spells};
ghost use Rattle.sentry_json.specs.Tokens.{members_of};
ghost use Rattle.sentry_json.specs.declared.tape.token.Token.{Token};
ghost use Rattle.sentry_json.specs.declared.tape.token.Token.TheVariants as token;

use crate::Node;
use crate::keys::place;
use crate::object::Named;
use crate::tape::after_value;
use crate::tape::number::split_whole;
use crate::tape::rest::Rest;
use serde_json::Value;
use std::alloc::{AllocError, Global};

/// A string without escapes, or a whole number, that stands in a line.
#[derive(Clone, Copy)]
pub enum Scalar<'a> {
    /// A string.
    Text(&'a str),
    /// A whole number.
    Whole(u64),
}

impl<'a> Node for Scalar<'a> {
    ghost data_of = { scalar_data };

    fn is_null(&self) -> bool {
        false
    }

    fn is_object(&self) -> bool {
        false
    }

    fn is_array(&self) -> bool {
        false
    }

    fn as_bool(&self) -> Option<bool> {
        None
    }

    fn as_u64(&self) -> Option<u64> {
        match self {
            Scalar::Text(_) => None,
            Scalar::Whole(number) => Some(*number),
        }
    }

    fn as_i64(&self) -> Option<i64> {
        match self {
            Scalar::Text(_) => None,
            Scalar::Whole(number) => i64::try_from(*number).ok(),
        }
    }

    fn as_str(&self) -> Option<&str> {
        match self {
            Scalar::Text(text) => Some(text),
            Scalar::Whole(_) => None,
        }
    }

    fn get(&self, _key: &str) -> Option<Scalar<'a>> {
        None
    }

    fn get_each(&self, _keys: &[&str], _places: &mut [Option<Scalar<'a>>]) {}

    fn text_at(&self, _key: &str) -> Option<&str> {
        None
    }

    fn items(&self, _alloc: Global) -> Result<Option<Vec<Scalar<'a>>>, AllocError> {
        Ok(None)
    }

    fn members(&self, _alloc: Global) -> Result<Option<Vec<Named<'_, Scalar<'a>>>>, AllocError> {
        Ok(None)
    }

    fn to_value(&self, alloc: Global) -> Result<Value, AllocError> {
        match self {
            Scalar::Text(text) => Value::try_from_str(alloc, text),
            Scalar::Whole(number) => Ok(Value::from(*number)),
        }
    }
}

// A longer line is hardly the header of an item, and is asked only once whether it is a text.
const LONGEST: usize = 1024;

// Splits off a scalar.
#[inline(always)]
fn split_scalar<'a>(text: Rest<'a>) -> Option<(Scalar<'a>, Rest<'a>)>
    ensures spelled { IfSome result (λ x.
        Spells false text.entry.text.now x.1.text.now (token_of x.0) [] 0) }
    ensures shorter { IfSome result (λ x. length x.1.text.now < length text.entry.text.now) }
{
    if let Some((string, rest)) = text.split_plain() {
        return Some((Scalar::Text(string), rest));
    }
    let (number, rest) = split_whole(text)?;
    Some((Scalar::Whole(number), rest))
}

// Puts a scalar into the place of its key, if that is one of `keys`.
#[inline(always)]
fn put_in_place<'a>(keys: &[&str], key: &str, scalar: Scalar<'a>, places: &mut [Option<Scalar<'a>>])
    requires distinct { are_distinct (map (λ k. k.now) keys.now) ≡ true }
    requires as_many { length places.old ≡ length keys.now }
    ensures { (before : Members) → map (option_map scalar_data) places.old
        ≡ map (λ k. find.get_member k.now before) keys.now → map (option_map scalar_data) places.new
        ≡ map (λ k. find.get_member k.now (put key.now (scalar_data scalar.entry) before)) keys.now }
{
    if let Some(i) = place(keys, key) {
        places[i] = Some(scalar);
    }
}

// Looks up several keys in an object of scalars, behind its brace, and returns what follows it.
#[inline(always)]
fn look_up_inside<'a>(
    inside: Rest<'a>,
    keys: &[&str],
    places: &mut [Option<Scalar<'a>>],
) -> Option<Rest<'a>>
    requires distinct { are_distinct (map (λ key. key.now) keys.now) ≡ true }
    requires empty { map (option_map scalar_data) places.old ≡ map (λ key. None) keys.now }
    ensures { IfSome result (λ rest. (all : List Token)
        × Spells false (123 ∷ inside.entry.text.now) rest.text.now (token.Object (length all)) all 127
        × (map (option_map scalar_data) places.new
        ≡ map (λ key. find.get_member key.now (members_of all no_members)) keys.now)) }
{
    let mut left = inside.skip_space();
    loop {
        let (key, behind) = left.split_plain()?;
        let value = behind.after_spaced(b':')?.skip_space();
        let (scalar, rest) = split_scalar(value)?;
        put_in_place(keys, key, scalar, places);
        let (comma, next) = after_value(rest, b'}')?;
        if !comma {
            return Some(next);
        }
        left = next.skip_space();
    }
}

/// Looks up several keys in a line that is an object of scalars: `places[i]` becomes the scalar at
/// `keys[i]`, if present.
///
/// The keys are distinct; `places` has as many elements, each `None` before the call. Answers
/// `None` if the line is no such object, one without members, or a long one; some places may be
/// filled then.
#[inline(always)]
pub fn look_up<'a>(line: &'a [u8], keys: &[&str], places: &mut [Option<Scalar<'a>>]) -> Option<()>
    requires distinct { are_distinct (map (λ key. key.now) keys.now) ≡ true }
    requires empty { map (option_map scalar_data) places.old ≡ map (λ key. None) keys.now }
    ensures { IfSome result (λ _. (d : Data) × (tree_of line.now ≡ Some d)
        × (map (option_map scalar_data) places.new ≡ map (λ key. find.get key.now d) keys.now)) }
{
    if line.len() > LONGEST {
        return None;
    }
    let text = Rest::new(line)?;
    let inside = text.after(b'{')?;
    let rest = look_up_inside(inside, keys, places)?;
    if !rest.text.is_empty() {
        return None;
    }
    Some(())
}
