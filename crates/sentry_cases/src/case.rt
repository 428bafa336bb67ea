//! A case, and what is wrong with it.

use crate::answer::answer;
use std::alloc::{AllocError, Global};

/// What is asked, of what, and the wanted answer.
#[derive(Drop)]
pub struct Case<'a> {
    pub name: &'a str,
    pub given: &'a str,
    pub wanted: &'a str,
}

impl<'a> Case<'a> {
    /// The case of a line. What follows no tab is empty.
    pub fn new(line: &'a str) -> Case<'a> {
        let (name, rest) = line.split_once('\t').unwrap_or((line, ""));
        let (given, wanted) = rest.split_once('\t').unwrap_or((rest, ""));
        Case {
            name,
            given,
            wanted,
        }
    }
}

/// The answer to a case, if it isn't the wanted one.
pub fn fault(alloc: Global, case: &Case<'_>) -> Result<Option<String>, AllocError> {
    let answer = answer(alloc, case.name, case.given)?.to_string(alloc)?;
    Ok(if answer.as_str() == case.wanted {
        None
    } else {
        Some(answer)
    })
}
