//! Values that are read into trees, without tokens.

ghost use Rattle.std.specs.Prelude.{◌<◌, ◌∷◌, ◌≡◌, [], IfSome, length, string_bytes};
ghost use Rattle.serde_json.specs.Data.{array, object};
ghost use Rattle.serde_json.specs.View.{view, items_view, members_view};
ghost use Rattle.sentry_json.specs.Spelled.{BeginsString, SpellsTree};
ghost use Rattle.sentry_json.specs.Tokens.{value_of};

use crate::tape::after_value;
use crate::tape::escape::split_escaped;
use crate::tape::node::FEW;
use crate::tape::number::split_whole;
use crate::tape::requests::Requests;
use crate::tape::rest::Rest;
use crate::tape::scalar::split_rare_scalar;
use crate::tape::token::Token;
use serde_json::{Map, Value};

// Returns the value of a token that is a word or an integer; `None` for others.
#[inline(always)]
#[tactic(auto, using(crate::proofs::TokenLists::value_is))]
fn scalar_value(token: Token<'_>) -> Option<Value>
    ensures { IfSome result (λ v. view v ≡ value_of token.entry []) }
{
    match token {
        Token::Null => Some(Value::Null),
        Token::Bool(truth) => Some(Value::from(truth)),
        Token::Whole(number) => Some(Value::from(number)),
        Token::Negative(number) => Some(Value::from(number)),
        Token::Float(_) | Token::Text(_) | Token::Array(_) | Token::Object(_) => None,
    }
}

// Splits off the value at the front, of brackets nested at most `depth` deep; `None` if no value
// stands there that a tape takes, or if an allocation fails.
#[cycle(split_tree)]
#[inline(always)]
fn split_tree<'a>(requests: &mut Requests, text: Rest<'a>, depth: u8) -> Option<(Value, Rest<'a>)>
    ensures spelled { IfSome result (λ x.
        SpellsTree text.entry.text.now x.1.text.now (view x.0) depth) }
    ensures shorter { IfSome result (λ x. length x.1.text.now < length text.entry.text.now) }
{
    if let Some((string, rest)) = text.split_plain() {
        let Ok(value) = Value::try_from_str(requests.alloc, string) else {
            return requests.refuse();
        };
        return Some((value, rest));
    }
    if let Some((number, rest)) = split_whole(text) {
        return Some((Value::from(number), rest));
    }
    match text.bytes().first()? {
        b'{' => {
            let (members, rest) = split_members(requests, text.after(b'{')?, depth)?;
            Some((Value::Object(members), rest))
        }
        b'[' => {
            let (items, rest) = split_items(requests, text.after(b'[')?, depth)?;
            Some((Value::Array(items), rest))
        }
        _ => split_rare(requests, text),
    }
}

// Splits off a string with escapes, a word or a rarer number; `None` if none of them stands there,
// or if an allocation fails.
#[inline(never)]
fn split_rare<'a>(requests: &mut Requests, text: Rest<'a>) -> Option<(Value, Rest<'a>)>
    ensures spelled { IfSome result (λ x.
        SpellsTree text.entry.text.now x.1.text.now (view x.0) 0) }
    ensures shorter { IfSome result (λ x. length x.1.text.now < length text.entry.text.now) }
{
    if let Some(inside) = text.after(b'"') {
        let (string, rest) = split_escaped(requests, inside)?;
        let Ok(value) = Value::try_from_str(requests.alloc, &string) else {
            return requests.refuse();
        };
        return Some((value, rest));
    }
    let (token, rest) = split_rare_scalar(text)?;
    Some((scalar_value(token)?, rest))
}

// Makes room for the first item of an array: for a few, if more follow it. `None` if the allocation
// fails.
#[inline(always)]
fn make_room(requests: &mut Requests, items: &mut Vec<Value>, more: bool) -> Option<()>
    ensures { IfSome result (λ _. items.new.items ≡ items.old.items) }
{
    if items.is_empty() {
        let Ok(room) = Vec::with_capacity(requests.alloc, if more { FEW } else { 1 }) else {
            return requests.refuse();
        };
        *items = room;
    }
    Some(())
}

// Splits off the items of an array, behind its opening bracket; `None` as of `split_tree`.
#[cycle(split_tree)]
#[inline(never)]
fn split_items<'a>(
    requests: &mut Requests,
    inside: Rest<'a>,
    depth: u8,
) -> Option<(Vec<Value>, Rest<'a>)>
    ensures spelled { IfSome result (λ x.
        SpellsTree (91 ∷ inside.entry.text.now) x.1.text.now (array (items_view x.0.items)) depth) }
    ensures shorter { IfSome result (λ x. length x.1.text.now < length inside.entry.text.now) }
{
    let depth = depth.checked_sub(1)?;
    let mut items = Vec::new(requests.alloc);
    if let Some(rest) = inside.after_spaced(b']') {
        return Some((items, rest));
    }
    let mut left = inside.skip_space();
    loop {
        let (item, rest) = split_tree(requests, left, depth)?;
        let (comma, next) = after_value(rest, b']')?;
        make_room(requests, &mut items, comma)?;
        let Ok(()) = items.push(item) else {
            return requests.refuse();
        };
        if !comma {
            return Some((items, next));
        }
        left = next.skip_space();
    }
}

// Splits off a key; `None` if no string stands there, or if an allocation fails.
#[inline(always)]
fn split_key<'a>(requests: &mut Requests, text: Rest<'a>) -> Option<(String, Rest<'a>)>
    ensures spelled { IfSome result (λ x.
        BeginsString text.entry.text.now x.1.text.now (string_bytes x.0)) }
    ensures shorter { IfSome result (λ x. length x.1.text.now < length text.entry.text.now) }
{
    if let Some((string, rest)) = text.split_plain() {
        let Ok(key) = String::from_str(requests.alloc, string) else {
            return requests.refuse();
        };
        return Some((key, rest));
    }
    let (string, rest) = split_escaped(requests, text.after(b'"')?)?;
    let Ok(key) = String::from_str(requests.alloc, &string) else {
        return requests.refuse();
    };
    Some((key, rest))
}

// Splits off the members of an object, behind its opening brace: of members of one key the last
// one stays. `None` as of `split_tree`.
#[cycle(split_tree)]
#[inline(never)]
pub(crate) fn split_members<'a>(
    requests: &mut Requests,
    inside: Rest<'a>,
    depth: u8,
) -> Option<(Map<String, Value>, Rest<'a>)>
    ensures spelled { IfSome result (λ x. SpellsTree (123 ∷ inside.entry.text.now) x.1.text.now
        (object (members_view x.0.entries)) depth) }
    ensures shorter { IfSome result (λ x. length x.1.text.now < length inside.entry.text.now) }
{
    let depth = depth.checked_sub(1)?;
    let mut members = Map::new(requests.alloc);
    if let Some(rest) = inside.after_spaced(b'}') {
        return Some((members, rest));
    }
    let mut left = inside.skip_space();
    loop {
        let (key, behind) = split_key(requests, left)?;
        let value = behind.after_spaced(b':')?.skip_space();
        let (member, rest) = split_tree(requests, value, depth)?;
        let Ok(_) = members.insert(key, member) else {
            return requests.refuse();
        };
        let (comma, next) = after_value(rest, b'}')?;
        if !comma {
            return Some((members, next));
        }
        left = next.skip_space();
    }
}
