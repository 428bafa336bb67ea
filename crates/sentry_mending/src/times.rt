//! Numbers of seconds as RFC 3339 strings.

ghost use Rattle.std.specs.Prelude.{◌≡◌, ◌∷◌, ◌++◌, [], IfOk};
ghost use Rattle.sentry_moments.specs.MomentTexts.{rfc3339_text};
ghost use Rattle.sentry_mending.specs.Times.{IsTimeOf};

use sentry_moments::Moment;
use sentry_places::Times;
use std::alloc::{AllocError, Global};
use std::str;

/// RFC 3339 strings of decimal numbers of seconds.
pub struct Rfc3339Times;

// Returns the RFC 3339 text of a moment, as a JSON string.
fn quoted_time(alloc: Global, moment: Moment) -> Result<Vec<u8>, AllocError>
    ensures { IfOk result (λ text.
        text.items ≡ 34 ∷ (rfc3339_text moment.secs moment.nanos ++ 34 ∷ [])) }
{
    let time = moment.to_rfc3339(alloc)?;
    let mut quoted = Vec::with_capacity(alloc, 32)?;
    quoted.push(b'"')?;
    quoted.extend_from_slice(time.as_str().as_bytes())?;
    quoted.push(b'"')?;
    Ok(quoted)
}

impl Times for Rfc3339Times {
    ghost is_time = { IsTimeOf };

    #[tactic(auto, using(crate::proofs::Timed::time_made))]
    fn time_of(alloc: Global, number: &[u8]) -> Result<Option<Vec<u8>>, AllocError> {
        let Ok(text) = str::from_utf8(number) else {
            return Ok(None);
        };
        let Some(moment) = Moment::from_decimal(text) else {
            return Ok(None);
        };
        Ok(Some(quoted_time(alloc, moment)?))
    }
}
