//! Floats in trees on a tape.

ghost use Rattle.std.specs.Prelude.{◌≡◌, IfSome, drop, false, true};
ghost use Rattle.serde_json.specs.Data.{Data, Members, no_members, put};
ghost use Rattle.serde_json.specs.Find.{get_member};
ghost use Rattle.serde_json.specs.Written.{has_float, items_have_float, members_have_float};
ghost use Rattle.sentry_json.specs.TapeView.{node_data};
ghost use Rattle.sentry_json.specs.Tokens.{items_of, members_of};

use crate::keys::is_same;
use crate::tape::node::{TapeNode, split_item, split_member};
use crate::tape::token::Token;

// Returns whether a member of this key stands in the tokens; `None` if that takes more than `steps`,
// which are counted down.
fn stands_in<'t, 'a>(key: &str, tokens: &'t [Token<'a>], steps: &mut usize) -> Option<bool>
    ensures found { IfSome result (λ found. found ≡ true → (d : Data) (before : Members)
        → members_of tokens.now (put key.now d before) ≡ members_of tokens.now before) }
    ensures absent { IfSome result (λ found. found ≡ false → (before : Members)
        → get_member key.now (members_of tokens.now before) ≡ get_member key.now before) }
{
    // A loop that takes the parameter itself apart is not covered by the prover.
    let (_, all) = tokens.split_at(0);
    let mut rest = all;
    while let Some((name, _, after)) = split_member(rest) {
        *steps = steps.checked_sub(1)?;
        if is_same(key, name) {
            return Some(true);
        }
        rest = after;
    }
    Some(false)
}

/// Returns whether the tree at a node has a float: of members with equal keys, the last counts.
/// `None` if more than `steps` members would have to be looked at, to see which are replaced.
#[cycle(has_float)]
pub(crate) fn has_float(node: TapeNode<'_, '_>, steps: &mut usize) -> Option<bool>
    ensures { IfSome result (λ found. found ≡ has_float (node_data node.entry)) }
{
    let Some(first) = node.tokens.first() else {
        return Some(false);
    };
    match first {
        Token::Float(_) => Some(true),
        Token::Array(_) => items_have_float(node, steps),
        Token::Object(_) => members_have_float(node, steps),
        Token::Null => Some(false),
        Token::Bool(_) => Some(false),
        Token::Whole(_) => Some(false),
        Token::Negative(_) => Some(false),
        Token::Text(_) => Some(false),
    }
}

// As `has_float`, of an array.
#[cycle(has_float)]
fn items_have_float(node: TapeNode<'_, '_>, steps: &mut usize) -> Option<bool>
    ensures { IfSome result (λ found.
        found ≡ items_have_float (items_of (drop 1 node.entry.tokens.now))) }
{
    let (_, inside) = node.tokens.split_first()?;
    let mut rest = inside;
    while let Some((item, after)) = split_item(rest) {
        if has_float(item, steps)? {
            return Some(true);
        }
        rest = after;
    }
    Some(false)
}

// As `has_float`, of an object.
#[cycle(has_float)]
fn members_have_float(node: TapeNode<'_, '_>, steps: &mut usize) -> Option<bool>
    ensures { IfSome result (λ found.
        found ≡ members_have_float (members_of (drop 1 node.entry.tokens.now) no_members)) }
{
    let (_, inside) = node.tokens.split_first()?;
    let mut rest = inside;
    while let Some((key, member, after)) = split_member(rest) {
        if has_float(member, steps)? {
            let replaced = stands_in(key, after, steps)?;
            if !replaced {
                return Some(true);
            }
        }
        rest = after;
    }
    Some(false)
}
