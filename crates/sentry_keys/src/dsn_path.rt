//! The path of a DSN's URL: the part before the project id, and the project id.

ghost use Rattle.std.specs.Prelude.{◌≡◌, ◌++◌, ◌∷◌, MatchOption, IfOk, string_bytes};
ghost use Rattle.url.specs.Ascii.{slash};
ghost use Rattle.sentry_keys.specs.DsnPath.{cut_front, cut_end, inner, IsSegment, IsSplit};

use std::alloc::{AllocError, Global};

// Strips all leading slashes.
fn without_front(text: &str) -> &str
    ensures { result.now ≡ cut_front text.now }
{
    let mut rest = text;
    while let Some(next) = rest.strip_prefix('/') {
        rest = next;
    }
    rest
}

// Strips all trailing slashes.
fn without_end(text: &str) -> &str
    ensures { result.now ≡ cut_end text.now }
{
    let mut rest = text;
    while let Some(next) = rest.strip_suffix('/') {
        rest = next;
    }
    rest
}

// Splits a text at its last slash.
fn last_cut(text: &str) -> Option<(&str, &str)>
    ensures { MatchOption result (IsSegment text.now)
        (λ x. (text.now ≡ x.0.now ++ slash ∷ x.1.now) × IsSegment x.1.now) }
{
    text.rsplit_once('/')
}

// Splits a path into the part before the project id, with a slash at both ends, and the project id.
pub(crate) fn split_path(alloc: Global, path: &str) -> Result<(String, &str), AllocError>
    ensures { IfOk result (λ x. IsSplit (inner path.now) (string_bytes x.0) x.1.now) }
{
    let segments = without_end(without_front(path));
    match last_cut(segments) {
        Some((front, project)) => Ok((format!(in alloc; "/{front}/")?, project)),
        None => Ok((String::from_str(alloc, "/")?, segments)),
    }
}
