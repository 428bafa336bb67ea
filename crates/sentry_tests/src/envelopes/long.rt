//! Long events and transactions, whose members of unknown keys are left out, and whose `extra` is
//! read apart: they are read as short ones are.

use super::read;
use crate::wanted::wanted;
use sentry_types::protocol::v7::{Envelope, EnvelopeItem};
use serde_json::{Map, Value};
use std::alloc::{AllocError, Global};
use std::test::Fail;

// The answer where an envelope is refused.
const REFUSED: &str = "refused";

// The lengths of an unknown member in a short payload and in long ones.
const LENGTHS: [usize; 4] = [0, 16_000, 17_000, 100_000];

/// The envelope of an item of this type with these members behind an unknown one of so many bytes,
/// and the list that a transaction must have.
fn envelope(alloc: Global, word: &str, members: &str, bytes: usize) -> Result<String, AllocError> {
    let unknown = "u".repeat(alloc, bytes)?;
    format!(in alloc;
        "{{}}\n{{\"type\":\"{word}\"}}\n{{\"unknown\":\"{unknown}\",\"spans\":[],{members}}}\n"
    )
}

/// The message of an envelope's event.
fn message(envelope: &Envelope) -> &str {
    let Some(event) = envelope.event() else {
        return "no event";
    };
    match &event.message {
        Some(text) => text.as_str(),
        None => "",
    }
}

/// Whether this is the message of the event in an envelope.
fn is_said(alloc: Global, text: &str, said: &str) -> bool {
    match read(alloc, text.as_bytes()) {
        Ok(envelope) => {
            let is_said = message(&envelope) == said;
            drop(envelope);
            is_said
        }
        Err(_) => said == REFUSED,
    }
}

/// Whether it is the message of a short event with these members, and of long ones.
fn are_said(alloc: Global, members: &str, said: &str) -> Result<bool, AllocError> {
    for bytes in LENGTHS {
        if !is_said(alloc, &envelope(alloc, "event", members, bytes)?, said) {
            return Ok(false);
        }
    }
    Ok(true)
}

#[test]
fn unknown_members(rt: HostRuntime) -> Result<(), Fail> {
    for (members, said) in [
        ("\"a\":{\"message\":1,\"b\":{}},\"message\":\"x\"", "x"),
        ("\"a\":[null,true,false,-1,[],{}],\"message\":\"x\"", "x"),
        ("\"a\":\"\\n\\\"\\u0041\\ud83d\\ude00\"", ""),
        ("\"me\\u0073sage\":\"x\"", "x"),
        ("\"message\":\"x\",\"me\\u0073sag\":1", "x"),
        ("\"a\":1,\"message\":\"x\",\"a\":[]", "x"),
        ("\"message\":\"x\",\"a\":1,\"message\":\"y\"", "y"),
        ("\"message\":1,\"a\":1,\"message\":\"y\"", "y"),
        ("\"message\":\"x\",\"a\":1,\"message\":1", REFUSED),
        (" \"a\" : [ 1 , { \"b\" : 2 } ] , \"message\" : \"x\" ", "x"),
        ("\"a\":[ ],\"b\":{ },\"message\":\"x\"", "x"),
        ("\"a\":1.5", REFUSED),
        ("\"a\":{\"b\":[-0]}", REFUSED),
        ("\"a\":1.5,\"message\":\"x\",\"a\":1", "x"),
        ("\"a\":18446744073709551615", ""),
        ("\"a\":18446744073709551616", REFUSED),
        ("\"a\":01", REFUSED),
        ("\"a\":\"\\ud83d\"", REFUSED),
        ("\"a\":[1,]", REFUSED),
        ("\"a\":{\"b\"}", REFUSED),
        ("\"a\":[1}", REFUSED),
        ("\"a\":1}", REFUSED),
    ] {
        wanted(are_said(rt.alloc(), members, said)?)?;
    }
    Ok(())
}

/// A member that nests so deep.
fn nested(alloc: Global, depth: usize) -> Result<String, AllocError> {
    let (opened, closed) = ("[".repeat(alloc, depth)?, "]".repeat(alloc, depth)?);
    format!(in alloc; "\"a\":{opened}{closed},\"message\":\"x\"")
}

/// As deep as an object may nest in a line, and deeper.
#[test]
fn deep_members(rt: HostRuntime) -> Result<(), Fail> {
    for (depth, said) in [(125, "x"), (126, "x"), (127, REFUSED), (128, REFUSED)] {
        wanted(are_said(rt.alloc(), &nested(rt.alloc(), depth)?, said)?)?;
    }
    Ok(())
}

/// The `extra` of an envelope's event or transaction.
fn extra(envelope: &Envelope) -> Option<&Map<String, Value>> {
    match envelope.items().next()? {
        EnvelopeItem::Event(event) => Some(&event.extra),
        EnvelopeItem::Transaction(transaction) => Some(&transaction.extra),
        _ => None,
    }
}

/// Whether an envelope's `extra` is this object, or the envelope is refused.
fn has_extra(alloc: Global, text: &str, tree: &str) -> bool {
    match read(alloc, text.as_bytes()) {
        Ok(envelope) => {
            let has_extra = match (extra(&envelope), Value::from_slice(alloc, tree.as_bytes())) {
                (Some(extra), Ok(Value::Object(members))) => *extra == members,
                _ => false,
            };
            drop(envelope);
            has_extra
        }
        Err(_) => tree == REFUSED,
    }
}

/// Whether it is the `extra` of a short event and a short transaction with these members, and of
/// long ones.
fn have_extra(alloc: Global, members: &str, tree: &str) -> Result<bool, AllocError> {
    for word in ["event", "transaction"] {
        for bytes in LENGTHS {
            if !has_extra(alloc, &envelope(alloc, word, members, bytes)?, tree) {
                return Ok(false);
            }
        }
    }
    Ok(true)
}

#[test]
fn extra_of_any_trees(rt: HostRuntime) -> Result<(), Fail> {
    for (members, tree) in [
        ("\"tags\":{\"extra\":\"x\"}", "{}"),
        ("\"extra\":{}", "{}"),
        (
            "\"extra\":{\"a\":[1,-2,true,false,null,\"x\",[],{},{\"b\":[\"y\"]}]}",
            "{\"a\":[1,-2,true,false,null,\"x\",[],{},{\"b\":[\"y\"]}]}",
        ),
        (
            "\"extra\":{\"b\":1,\"a\":2},\"tags\":{}",
            "{\"a\":2,\"b\":1}",
        ),
        (
            "\"extra\":{\"a\":1,\"b\":2,\"a\":[3]}",
            "{\"a\":[3],\"b\":2}",
        ),
        ("\"extra\":{\"a\":1},\"extra\":{\"b\":2}", "{\"b\":2}"),
        ("\"extra\":{\"a\":1},\"other\":{},\"extra\":{}", "{}"),
        ("\"extra\":1,\"extra\":{\"b\":2}", "{\"b\":2}"),
        ("\"extra\":{\"b\":2},\"extra\":1", REFUSED),
        ("\"extra\":null", REFUSED),
        ("\"extra\":[]", REFUSED),
        ("\"extra\":\"x\"", REFUSED),
        ("\"ext\\u0072a\":{\"a\":1}", "{\"a\":1}"),
        (
            "\"extra\":{\"\\n\\u0041\":\"\\\"\\ud83d\\ude00\"}",
            "{\"\\nA\":\"\\\"😀\"}",
        ),
        (
            " \"extra\" : { \"a\" : [ 1 , { \"b\" : 2 } ] , \"c\" : \"x\" } ",
            "{\"a\":[1,{\"b\":2}],\"c\":\"x\"}",
        ),
        ("\"extra\":{ }", "{}"),
        ("\"extra\":{\"a\":[ ],\"b\":{ }}", "{\"a\":[],\"b\":{}}"),
        (
            "\"extra\":{\"a\":18446744073709551615,\"b\":-9223372036854775808}",
            "{\"a\":18446744073709551615,\"b\":-9223372036854775808}",
        ),
        ("\"extra\":{\"a\":18446744073709551616}", REFUSED),
        ("\"extra\":{\"a\":-9223372036854775809}", REFUSED),
        ("\"extra\":{\"a\":1.5}", REFUSED),
        ("\"extra\":{\"a\":[-0]}", REFUSED),
        ("\"extra\":{\"a\":1.5},\"extra\":{\"a\":1}", "{\"a\":1}"),
        ("\"extra\":{\"a\":01}", REFUSED),
        ("\"extra\":{\"a\":\"\\ud83d\"}", REFUSED),
        ("\"extra\":{\"a\":nul}", REFUSED),
        ("\"extra\":{\"a\":[1,]}", REFUSED),
        ("\"extra\":{\"a\":[1}", REFUSED),
        ("\"extra\":{\"a\":1,}", REFUSED),
        ("\"extra\":{,}", REFUSED),
        ("\"extra\":{\"a\"}", REFUSED),
        ("\"extra\":{1:2}", REFUSED),
        ("\"extra\":{\"a\":1]", REFUSED),
        ("\"extra\":{\"a\":1", REFUSED),
    ] {
        wanted(have_extra(rt.alloc(), members, tree)?)?;
    }
    Ok(())
}

/// As deep as a tree may nest in `extra`, and deeper.
#[test]
fn deep_extra(rt: HostRuntime) -> Result<(), Fail> {
    let alloc = rt.alloc();
    for (depth, accepted) in [(124, true), (125, true), (126, false), (127, false)] {
        let (opened, closed) = ("[".repeat(alloc, depth)?, "]".repeat(alloc, depth)?);
        let tree = format!(in alloc; "{{\"a\":{opened}{closed}}}")?;
        let members = format!(in alloc; "\"extra\":{tree}")?;
        let answer = if accepted { tree.as_str() } else { REFUSED };
        wanted(have_extra(alloc, &members, answer)?)?;
    }
    Ok(())
}
