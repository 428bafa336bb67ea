//! Words and rarer integers, at the front of a text.

ghost use Rattle.std.specs.Prelude.{◌<◌, [], IfSome, length, false};
ghost use Rattle.sentry_json.specs.Spelled.{Spells};

use crate::tape::number::{split_many, split_negative};
use crate::tape::rest::Rest;
use crate::tape::token::Token;

// Splits off a word, an integer with a minus or one of many digits.
#[inline(always)]
pub(crate) fn split_rare_scalar<'a>(text: Rest<'a>) -> Option<(Token<'a>, Rest<'a>)>
    ensures spelled { IfSome result (λ x. Spells false text.entry.text.now x.1.text.now x.0 [] 0) }
    ensures shorter { IfSome result (λ x. length x.1.text.now < length text.entry.text.now) }
{
    match text.bytes().first()? {
        b'n' => Some((Token::Null, text.after_word("null")?)),
        b't' => Some((Token::Bool(true), text.after_word("true")?)),
        b'f' => Some((Token::Bool(false), text.after_word("false")?)),
        b'-' => split_negative(text),
        _ => {
            let (number, rest) = split_many(text)?;
            Some((Token::Whole(number), rest))
        }
    }
}
