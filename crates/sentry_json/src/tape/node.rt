//! Nodes of tapes.

ghost use Rattle.std.specs.Prelude.{◌≡◌, ◌<◌, ◌≤◌, ◌+◌, ◌∷◌, ℕ, List, None, Some, MatchOption, IfOk, IfSome, drop, length};
ghost use Rattle.serde_json.specs.Data.{Members, item, no_items, no_members, put};
ghost use Rattle.serde_json.specs.Find.{as_array, as_object};
ghost use Rattle.serde_json.specs.View.{view, items_view, members_view};
ghost use Rattle.sentry_json.specs.Tokens.{items_of, members_of, text_of};
ghost use Rattle.sentry_json.specs.TapeView.{node_data};
ghost use Rattle.sentry_json.specs.declared.tape.token.Token.{Token};

use crate::Node;
use crate::keys::place;
use crate::object::Named;
use crate::tape::token::Token;
use serde_json::{Map, Value};
use std::alloc::{AllocError, Global};

/// A node of a [`Tape`](crate::Tape): a value, with what is inside it.
#[derive(Clone, Copy)]
pub struct TapeNode<'t, 'a> {
    pub(crate) tokens: &'t [Token<'a>],
}

impl<'t, 'a> TapeNode<'t, 'a> {
    pub(crate) fn new(tokens: &'t [Token<'a>]) -> TapeNode<'t, 'a>
        ensures { result.tokens ≡ tokens.entry }
    {
        TapeNode { tokens }
    }

    // Returns the tokens inside an array; `None` for other nodes.
    #[inline]
    fn inside_array(&self) -> Option<&'t [Token<'a>]>
        ensures { MatchOption result (as_array (node_data self.now) ≡ None)
            (λ inside. as_array (node_data self.now) ≡ Some (items_of inside.now)) }
    {
        let (first, inside) = self.tokens.split_first()?;
        if first.is_array() { Some(inside) } else { None }
    }

    // Returns the tokens inside an object; `None` for other nodes.
    #[inline]
    fn inside_object(&self) -> Option<&'t [Token<'a>]>
        ensures { MatchOption result (as_object (node_data self.now) ≡ None)
            (λ inside. as_object (node_data self.now) ≡ Some (members_of inside.now no_members)) }
    {
        let (first, inside) = self.tokens.split_first()?;
        if first.is_object() {
            Some(inside)
        } else {
            None
        }
    }
}

// Splits off the first value.
#[inline]
pub(crate) fn split_item<'t, 'a>(
    tokens: &'t [Token<'a>],
) -> Option<(TapeNode<'t, 'a>, &'t [Token<'a>])>
    ensures item { MatchOption result (items_of tokens.now ≡ no_items)
        (λ x. items_of tokens.now ≡ item (node_data x.0) (items_of x.1.now)) }
    ensures member { MatchOption result
        ((k : Token) (before : Members) → members_of (k ∷ tokens.now) before ≡ before)
        (λ x. (k : Token) (s : List ℕ) (before : Members) → text_of k ≡ Some s
        → members_of (k ∷ tokens.now) before ≡ members_of x.1.now (put s (node_data x.0) before)) }
    ensures lengths { IfSome result (λ x. (0 < length x.0.tokens.now)
        × (length x.0.tokens.now + length x.1.now ≡ length tokens.now)) }
{
    let (first, behind) = tokens.split_first()?;
    let width = first.width().min(behind.len());
    Some((
        TapeNode {
            tokens: &tokens[..width + 1],
        },
        &behind[width..],
    ))
}

// Splits off the first member.
#[inline]
pub(crate) fn split_member<'t, 'a>(
    tokens: &'t [Token<'a>],
) -> Option<(&'t str, TapeNode<'t, 'a>, &'t [Token<'a>])>
    ensures { MatchOption result ((before : Members) → members_of tokens.now before ≡ before)
        (λ x. ((before : Members) → members_of tokens.now before
        ≡ members_of x.2.now (put x.0.now (node_data x.1) before))
        × (length x.1.tokens.now + length x.2.now < length tokens.now)) }
{
    let (first, behind) = tokens.split_first()?;
    let key = first.text()?;
    let (node, rest) = split_item(behind)?;
    Some((key, node, rest))
}

impl<'t, 'a> Node for TapeNode<'t, 'a> {
    ghost data_of = { node_data };

    fn is_null(&self) -> bool {
        self.tokens.first().is_none_or(|token| token.is_null())
    }

    fn is_object(&self) -> bool {
        self.tokens.first().is_some_and(|token| token.is_object())
    }

    fn is_array(&self) -> bool {
        self.tokens.first().is_some_and(|token| token.is_array())
    }

    fn as_bool(&self) -> Option<bool> {
        self.tokens.first()?.as_bool()
    }

    fn as_u64(&self) -> Option<u64> {
        self.tokens.first()?.as_u64()
    }

    fn as_i64(&self) -> Option<i64> {
        self.tokens.first()?.as_i64()
    }

    fn as_str(&self) -> Option<&str> {
        self.tokens.first()?.text()
    }

    fn get(&self, key: &str) -> Option<TapeNode<'t, 'a>> {
        let mut places = [None];
        self.get_each(&[key], &mut places);
        places[0]
    }

    fn get_each(&self, keys: &[&str], places: &mut [Option<TapeNode<'t, 'a>>]) {
        let Some(inside) = self.inside_object() else {
            return;
        };
        let mut rest = inside;
        while let Some((key, node, after)) = split_member(rest) {
            if let Some(i) = place(keys, key) {
                places[i] = Some(node);
            }
            rest = after;
        }
    }

    fn text_at(&self, key: &str) -> Option<&str> {
        self.get(key)?.tokens.first()?.text()
    }

    fn items(&self, alloc: Global) -> Result<Option<Vec<TapeNode<'t, 'a>>>, AllocError> {
        let Some(inside) = self.inside_array() else {
            return Ok(None);
        };
        let mut nodes = Vec::with_capacity(alloc, inside.len().min(USUAL))?;
        let mut rest = inside;
        while let Some((node, after)) = split_item(rest) {
            nodes.push(node)?;
            rest = after;
        }
        Ok(Some(nodes))
    }

    fn members(
        &self,
        alloc: Global,
    ) -> Result<Option<Vec<Named<'_, TapeNode<'t, 'a>>>>, AllocError> {
        let Some(inside) = self.inside_object() else {
            return Ok(None);
        };
        let mut named = Vec::with_capacity(alloc, inside.len().min(USUAL))?;
        let mut rest = inside;
        while let Some((key, node, after)) = split_member(rest) {
            named.push(Named { key, node })?;
            rest = after;
        }
        Ok(Some(named))
    }

    fn to_value(&self, alloc: Global) -> Result<Value, AllocError> {
        grow(*self, alloc)
    }
}

// The most room that is made at once for items or members.
const USUAL: usize = 32;

// Copies the tree at a node. Lists and maps are grown in functions that aren't inlined: a scalar
// enters no frame that holds one.
#[cycle(grow)]
#[inline(always)]
#[tactic(auto, using(crate::proofs::TokenLists::value_is))]
fn grow(node: TapeNode<'_, '_>, alloc: Global) -> Result<Value, AllocError>
    ensures { IfOk result (λ v. view v ≡ node_data node.entry) }
{
    let Some(first) = node.tokens.first() else {
        return Ok(Value::Null);
    };
    match first {
        Token::Null => Ok(Value::Null),
        Token::Bool(truth) => Ok(Value::from(*truth)),
        Token::Whole(number) => Ok(Value::from(*number)),
        Token::Negative(number) => Ok(Value::from(*number)),
        Token::Float(float) => Ok(float.to_value()),
        Token::Text(text) => Value::try_from_str(alloc, text),
        Token::Array(_) => Ok(Value::Array(grow_items(node, alloc)?)),
        Token::Object(_) => Ok(Value::Object(grow_members(node, alloc)?)),
    }
}

// Room is made for so many items at first; a shorter list gets room for its items alone.
pub(crate) const FEW: usize = 4;

// Returns how many items an array has, or `FEW` if it has more.
fn few_items(inside: &[Token<'_>]) -> usize
    ensures { result ≤ 4 }
{
    let mut place = 0_usize;
    for count in 0..FEW {
        let Some(token) = inside.get(place) else {
            return count;
        };
        place = place.saturating_add(token.width()).saturating_add(1);
    }
    FEW
}

// Copies the items of an array.
#[cycle(grow)]
#[inline(never)]
fn grow_items(node: TapeNode<'_, '_>, alloc: Global) -> Result<Vec<Value>, AllocError>
    ensures { IfOk result (λ v. items_view v.items ≡ items_of (drop 1 node.entry.tokens.now)) }
{
    let Some((_, inside)) = node.tokens.split_first() else {
        return Ok(Vec::new(alloc));
    };
    let mut values = Vec::with_capacity(alloc, few_items(inside))?;
    let mut rest = inside;
    while let Some((item, after)) = split_item(rest) {
        values.push(grow(item, alloc)?)?;
        rest = after;
    }
    Ok(values)
}

// Copies the members of an object: of members with equal keys, the last stays.
#[cycle(grow)]
#[inline(never)]
fn grow_members(node: TapeNode<'_, '_>, alloc: Global) -> Result<Map<String, Value>, AllocError>
    ensures { IfOk result (λ m. members_view m.entries
        ≡ members_of (drop 1 node.entry.tokens.now) no_members) }
{
    let mut values = Map::new(alloc);
    let Some((_, inside)) = node.tokens.split_first() else {
        return Ok(values);
    };
    let mut rest = inside;
    while let Some((key, member, after)) = split_member(rest) {
        let name = String::from_str(alloc, key)?;
        drop(values.insert(name, grow(member, alloc)?)?);
        rest = after;
    }
    Ok(values)
}
