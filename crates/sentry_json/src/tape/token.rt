//! The tokens of a tape.

ghost use Rattle.std.specs.Prelude.{◌≡◌, List, IfSome, is_some, option_and_then, option_map};
ghost use Rattle.serde_json.specs.Find as find;
ghost use Rattle.sentry_json.specs.Sound.{IsRanged};
ghost use Rattle.sentry_json.specs.Tokens.{text_of, value_of, width};

use crate::tape::float::Float;

/// A token: a value, or the key of a member.
///
/// What is inside an array or an object comes behind it; its number tells how many tokens that are.
#[derive(Clone, Copy)]
pub enum Token<'a> {
    /// Null.
    Null,
    /// A boolean.
    Bool(bool),
    /// An integer without a sign.
    Whole(u64),
    /// An integer with a minus.
    Negative(i64),
    /// A float.
    Float(Float),
    /// A string or a key, which stands in the line; one with escapes there, elsewhere, unescaped.
    Text(&'a str),
    /// An array.
    Array(usize),
    /// An object.
    Object(usize),
}

impl<'a> Token<'a> {
    /// Returns how many of the tokens behind it are inside it.
    #[inline]
    pub fn width(&self) -> usize
        ensures { result ≡ width self.now }
    {
        match self {
            Token::Array(width) => *width,
            Token::Object(width) => *width,
            _ => 0,
        }
    }

    /// Returns the text of a string or a key; `None` for others.
    #[inline]
    #[tactic(auto, using(crate::proofs::TokenLists::value_is))]
    pub fn text(&self) -> Option<&str>
        ensures text { option_map (λ s. s.now) result ≡ text_of self.now }
        ensures value { (inside : List Token)
            → option_map (λ s. s.now) result ≡ find.as_str (value_of self.now inside) }
    {
        match self {
            Token::Text(text) => Some(text),
            _ => None,
        }
    }

    /// Returns whether it is null.
    #[inline]
    #[tactic(auto, using(crate::proofs::TokenLists::value_is))]
    pub fn is_null(&self) -> bool
        ensures { (inside : List Token)
            → result ≡ is_some (find.as_null (value_of self.now inside)) }
    {
        matches!(self, Token::Null)
    }

    /// Returns whether it is an object.
    #[inline]
    #[tactic(auto, using(crate::proofs::TokenLists::value_is))]
    pub fn is_object(&self) -> bool
        ensures { (inside : List Token)
            → result ≡ is_some (find.as_object (value_of self.now inside)) }
    {
        matches!(self, Token::Object(_))
    }

    /// Returns whether it is an array.
    #[inline]
    #[tactic(auto, using(crate::proofs::TokenLists::value_is))]
    pub fn is_array(&self) -> bool
        ensures { (inside : List Token)
            → result ≡ is_some (find.as_array (value_of self.now inside)) }
    {
        matches!(self, Token::Array(_))
    }

    /// Returns the boolean; `None` for others.
    #[inline]
    #[tactic(auto, using(crate::proofs::TokenLists::value_is))]
    pub fn as_bool(&self) -> Option<bool>
        ensures { (inside : List Token) → result ≡ find.as_bool (value_of self.now inside) }
    {
        match self {
            Token::Bool(truth) => Some(*truth),
            _ => None,
        }
    }

    /// Returns the number if it is an integer in the range of `u64`; `None` for others.
    #[inline]
    #[tactic(auto, using(crate::proofs::TokenLists::value_is))]
    pub fn as_u64(&self) -> Option<u64>
        ensures { (inside : List Token) → result
            ≡ option_and_then find.as_u64 (find.as_number (value_of self.now inside)) }
    {
        match self {
            Token::Whole(number) => Some(*number),
            Token::Negative(number) => u64::try_from(*number).ok(),
            _ => None,
        }
    }

    /// Returns the number if it is an integer in the range of `i64`; `None` for others.
    #[inline]
    #[tactic(auto, using(crate::proofs::TokenLists::value_is))]
    pub fn as_i64(&self) -> Option<i64>
        ensures value { (inside : List Token) → result
            ≡ option_and_then find.as_i64 (find.as_number (value_of self.now inside)) }
        ensures ranged { (inside : List Token)
            → IfSome (find.as_number (value_of self.now inside)) IsRanged }
    {
        match self {
            Token::Whole(number) => i64::try_from(*number).ok(),
            Token::Negative(number) => Some(*number),
            _ => None,
        }
    }
}
