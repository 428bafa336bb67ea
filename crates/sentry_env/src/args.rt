//! The command line.

ghost use Rattle.std.specs.Prelude.{◌≡◌, ◌↔◌, ℕ, Bool, false, List, Option, Some, None, IfOk, IfSome, IfNone, MatchOption, option_map, map, string_bytes};
ghost use Rattle.sentry_framing.specs.declared.kind.ItemKind.{ItemKind as Kind};
ghost use Rattle.sentry_env.specs.Args.{IsCall, NameKinds};

use crate::Kind;
use std::alloc::{AllocError, Global};
use std::env;
use std::env::Env;
use std::io::ErrorKind;

/// Parsed arguments of the program.
#[derive(Drop)]
pub struct Args {
    /// Input file; standard input if `None`.
    pub path: Option<String>,
    /// Item types to remove.
    pub kinds: Vec<Kind>,
    /// Whether the envelope header is kept when items are removed.
    pub keep: bool,
}

// Splits off a leading `-k`.
fn split_keep<'a, 'b>(words: &'a [&'b str]) -> (bool, &'a [&'b str])
    ensures { (keep_headers : Bool) (path : Option (List ℕ)) (kinds : List Kind)
        → IsCall (map (λ word. word.now) words.now) keep_headers path kinds
        ↔ ((keep_headers ≡ result.0) ×
        IsCall (map (λ word. word.now) result.1.now) false path kinds) }
{
    let Some((first, rest)) = words.split_first() else {
        return (false, words);
    };
    if *first == "-k" {
        (true, rest)
    } else {
        (false, words)
    }
}

// Splits off a leading `-f PATH`; `None` if no path follows `-f`.
fn split_path<'a, 'b>(words: &'a [&'b str]) -> Option<(Option<&'b str>, &'a [&'b str])>
    ensures found { IfSome result (λ found. (path : Option (List ℕ)) (kinds : List Kind)
        → IsCall (map (λ word. word.now) words.now) false path kinds
        ↔ ((path ≡ option_map (λ text. text.now) found.0) ×
        NameKinds (map (λ word. word.now) found.1.now) kinds)) }
    ensures none { IfNone result ((path : Option (List ℕ)) (kinds : List Kind)
        → ¬ IsCall (map (λ word. word.now) words.now) false path kinds) }
{
    let Some((first, rest)) = words.split_first() else {
        return Some((None, words));
    };
    if *first == "-f" {
        let (path, rest) = rest.split_first()?;
        Some((Some(*path), rest))
    } else {
        Some((None, words))
    }
}

// Parses item types; `None` if a word names none.
fn read_kinds(alloc: Global, words: &[&str]) -> Result<Option<Vec<Kind>>, AllocError>
    ensures { IfOk result (λ answer. MatchOption answer
        ((kinds : List Kind) → ¬ NameKinds (map (λ word. word.now) words.now) kinds)
        (λ kinds. NameKinds (map (λ word. word.now) words.now) kinds.items)) }
{
    let mut kinds = Vec::with_capacity(alloc, words.len())?;
    for word in words {
        let Some(kind) = Kind::from_word(word) else {
            return Ok(None);
        };
        kinds.push(kind)?;
    }
    Ok(Some(kinds))
}

/// Parses the arguments after the program's name: optionally `-k`, then optionally `-f` and a path,
/// then item types. Returns `None` for a usage error.
///
/// # Errors
///
/// `AllocError` if an allocation fails.
pub fn read_args(alloc: Global, words: &[&str]) -> Result<Option<Args>, AllocError>
    ensures call { IfOk result (λ answer. IfSome answer (λ args.
        IsCall (map (λ word. word.now) words.now) args.keep
        (option_map string_bytes args.path) args.kinds.items)) }
    ensures no_call { result ≡ Ok None →
        (keep_headers : Bool) (path : Option (List ℕ)) (kinds : List Kind)
        → ¬ IsCall (map (λ word. word.now) words.now) keep_headers path kinds }
{
    let (keep_headers, words) = split_keep(words);
    let Some((path, words)) = split_path(words) else {
        return Ok(None);
    };
    let Some(kinds) = read_kinds(alloc, words)? else {
        return Ok(None);
    };
    let path = match path {
        Some(text) => Some(String::from_str(alloc, text)?),
        None => None,
    };
    Ok(Some(Args {
        path,
        kinds,
        keep: keep_headers,
    }))
}

/// Parses the arguments that the program was started with, as [`read_args`] does. Returns `None`
/// for a usage error, or if an argument isn't UTF-8.
///
/// # Errors
///
/// `AllocError` if an allocation fails.
pub fn program_args(rt: &(impl Env + AllocGlobal)) -> Result<Option<Args>, AllocError> {
    let given = match env::args(rt) {
        Ok(given) => given,
        Err(error) if error.kind() == ErrorKind::InvalidData => return Ok(None),
        Err(_) => return Err(AllocError),
    };
    // Not collected: `collect` asks again for less where its first request is refused.
    let mut words = Vec::new(rt.alloc());
    for word in given.skip(1) {
        words.push(word)?;
    }
    let mut texts = Vec::with_capacity(rt.alloc(), words.len())?;
    for word in &words {
        texts.push(word.as_str())?;
    }
    read_args(rt.alloc(), &texts)
}
