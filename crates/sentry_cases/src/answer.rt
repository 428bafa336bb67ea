//! The answer to what is asked.

use crate::asked::said_of;
use crate::auths::said_auth;
use crate::bytes::{decoded, of_bytes};
use crate::dsns::{said_default_port, said_dsn};
use crate::envelopes::rewritten_in_turn;
use crate::equal::of_two_trees;
use crate::ledger::of_history;
use crate::made::{of_custom, of_new, of_other_unit, of_parts};
use crate::numbers::of_numbers;
use crate::said::{known, text};
use crate::texts::of_text;
use sentry_types::protocol::v7::{Value, read_tree};
use sentry_types::{Auth, Dsn};
use std::alloc::{AllocError, Global};

// The pairs of a list of lists of two texts; others are left out.
fn pairs_of<'a>(alloc: Global, items: &'a [Value]) -> Result<Vec<(&'a str, &'a str)>, AllocError> {
    let mut pairs = Vec::new(alloc);
    for item in items {
        if let Some(parts) = item.as_array()
            && let [key, value] = parts.as_slice()
            && let (Some(key), Some(value)) = (key.as_str(), value.as_str())
        {
            pairs.push((key, value))?;
        }
    }
    Ok(pairs)
}

fn of_list(alloc: Global, name: &str, items: &[Value]) -> Result<Value, AllocError> {
    if let Some(name) = name.strip_prefix("equal ")
        && let [one, other] = items
    {
        return of_two_trees(alloc, name, one, other);
    }
    if let Some(answer) = of_parts(alloc, name, items) {
        return answer;
    }
    match name {
        "Auth::from_pairs" => {
            let pairs = pairs_of(alloc, items)?;
            said_of(alloc, Auth::from_pairs(alloc, pairs.as_slice()), said_auth)
        }
        "rewritten in turn" => rewritten_in_turn(alloc, items),
        _ => of_numbers(alloc, name, items),
    }
}

fn of_string(alloc: Global, name: &str, given: &str) -> Result<Value, AllocError> {
    if let Some(answer) = of_bytes(alloc, name, given.as_bytes()) {
        return answer;
    }
    match name {
        "AttachmentType::Custom" => of_custom(alloc, given),
        "Unit::Other" => of_other_unit(alloc, given),
        "new" => of_new(alloc, given),
        "Dsn" => said_of(alloc, Dsn::from_str(alloc, given), said_dsn),
        "default port" => said_of(alloc, Dsn::from_str(alloc, given), said_default_port),
        "Auth" => said_of(alloc, Auth::from_str(alloc, given), said_auth),
        "Auth::from_querystring" => said_of(
            alloc,
            Auth::from_querystring(alloc, given.as_bytes()),
            said_auth,
        ),
        "ledger" => of_history(alloc, given),
        _ => known(alloc, of_text(alloc, name, given)),
    }
}

fn of_value(alloc: Global, name: &str, given: &Value) -> Result<Value, AllocError> {
    match given {
        Value::Array(items) => of_list(alloc, name, items.as_slice()),
        Value::String(given) => of_string(alloc, name, given.as_str()),
        _ => text(alloc, "neither a text nor a list"),
    }
}

fn of_json(alloc: Global, name: &str, given: &str) -> Result<Value, AllocError> {
    said_of(
        alloc,
        read_tree(alloc, given.as_bytes()),
        |alloc: Global, tree: &Value| { of_value(alloc, name, tree) },
    )
}

// The answer for bytes that are given in hex.
fn of_hex(alloc: Global, name: &str, given: &str) -> Result<Value, AllocError> {
    let Some(bytes) = decoded(alloc, given)? else {
        return text(alloc, "no bytes in hex");
    };
    if name == "Auth::from_querystring" {
        return said_of(
            alloc,
            Auth::from_querystring(alloc, bytes.as_slice()),
            said_auth,
        );
    }
    known(alloc, of_bytes(alloc, name, bytes.as_slice()))
}

/// The answer to a name and what is given: a line of JSON itself after `tree`, `tape`, `flat` and
/// `apart`, bytes in hex after `hex`, else JSON whose texts and numbers are handed over.
pub fn answer(alloc: Global, name: &str, given: &str) -> Result<Value, AllocError> {
    if let Some(name) = name.strip_prefix("hex ") {
        return of_hex(alloc, name, given);
    }
    if name.starts_with("tree ") || matches!(name, "tape" | "flat" | "apart") {
        return known(alloc, of_bytes(alloc, name, given.as_bytes()));
    }
    of_json(alloc, name, given)
}
