//! A tape of a line of JSON: one pass over the text, a token for each value and each key.

mod escape;
mod flat;
mod float;
mod judge;
mod list;
mod members;
mod node;
mod number;
mod requests;
mod rest;
mod run;
mod scalar;
mod token;
mod tree;

ghost use Rattle.std.specs.Prelude.{◌≡◌, ◌++◌, ◌∷◌, ◌<◌, [], ℕ, IfOk, IfSome, IsUtf8, List, None, Some, false, if◌then◌else◌, length, true};
ghost use Rattle.sentry_json.specs.Line.{tree_of};
ghost use Rattle.sentry_json.specs.Spelled.{IsBehind, IsQuoted};
ghost use Rattle.sentry_json.specs.Taken.{TakesLeaf, TakesLine, TakesString, TakesValue};
ghost use Rattle.sentry_json.specs.Tokens.{kept, text_of, tokens_value};
ghost use Rattle.sentry_json.specs.TapeView.{IsParsed};
ghost use Rattle.sentry_json.specs.declared.tape.token.Token.{Token};
ghost use Rattle.sentry_json.specs.declared.tape.token.Token.TheVariants as token;

use crate::tape::escape::split_escaped;
use crate::tape::judge::has_float;
use crate::tape::number::{split_float, split_whole};
use crate::tape::requests::Requests;
use crate::tape::rest::Rest;
use crate::tape::scalar::split_rare_scalar;
use crate::tape::token::Token;
use bumpalo::Bump;
pub use flat::{Scalar, look_up};
pub use list::Visitor;
pub use node::TapeNode;
pub use number::leading_integer;
pub use run::run_len;
use std::alloc::{AllocError, Global};

// As deep as a line may nest.
const DEEPEST: u8 = 127;

// Room is made for a token in so many bytes, which is what payloads mostly have.
const BYTES: usize = 8;

// The least room: a tape serves line after line, and the lines of a small envelope fit at once.
const LEAST: usize = 40;

// As many members are looked at, for each token, to see which members with a float are replaced.
const STEPS: usize = 16;

/// What a [`Tape`] answers of a line.
#[derive(Clone, Copy)]
pub enum Parsed<'t, 'a> {
    /// The root node of the line's tree: the line is JSON by RFC 8259, nested at most 127 deep, and
    /// its tree has no float.
    Root(TapeNode<'t, 'a>),
    /// The line is such JSON, but its tree has a float.
    Float,
    /// Another line, or one of which many members with floats are replaced by later ones.
    Other,
}

/// The tokens of a line of JSON, in the order of the line; its memory serves line after line.
///
/// What strings with escapes stand for is kept in an arena, beside the lines.
#[derive(Drop)]
pub struct Tape<'a> {
    requests: Requests,
    texts: &'a Bump,
    tokens: Vec<Token<'a>>,
}

impl<'a> Tape<'a> {
    /// Creates an empty tape, without allocating yet.
    pub fn new(alloc: Global, texts: &'a Bump) -> Tape<'a> {
        Tape {
            requests: Requests {
                alloc,
                refused: false,
            },
            texts,
            tokens: Vec::new(alloc),
        }
    }

    // Clears the tape, makes room for the tokens of a line, and returns the line as a text.
    #[inline(always)]
    fn start(&mut self, line: &'a [u8]) -> Option<Rest<'a>>
        ensures text { IfSome result (λ rest. rest.text.now ≡ line.now) }
        ensures utf8 { IfSome result (λ rest. IsUtf8 line.now) }
        ensures empty { IfSome result (λ rest. self.new.tokens.items ≡ []) }
    {
        self.requests.refused = false;
        self.tokens.clear();
        let text = Rest::new(line)?;
        let room = (line.len() / BYTES).max(LEAST);
        let Ok(()) = self.tokens.reserve(room) else {
            return self.requests.refuse();
        };
        Some(text)
    }

    // Takes the tokens of a line, in place of those of the line before.
    #[inline(always)]
    fn take_line<const FLOATS: bool>(&mut self, line: &'a [u8]) -> Option<()>
        ensures { IfSome result (λ _. TakesLine FLOATS line.now self.new.tokens.items) }
    {
        let text = self.start(line)?;
        let front = text.skip_space();
        let rest = self.take_value::<true, FLOATS>(front, false, DEEPEST)?;
        let end = rest.skip_space();
        if !end.text.is_empty() {
            return None;
        }
        Some(())
    }

    // Takes the tokens of a line that may have floats, and returns whether its tree has one. Few lines
    // come here: those that aren't taken without floats.
    #[cold]
    #[inline(never)]
    fn take_floats(&mut self, line: &'a [u8]) -> Option<bool>
        ensures none { IfSome result (λ float. float ≡ true → tree_of line.now ≡ None) }
        ensures some { IfSome result (λ float. float ≡ false
            → tree_of line.now ≡ Some (tokens_value self.new.tokens.items)) }
    {
        self.take_line::<true>(line)?;
        let mut steps = self.tokens.len().saturating_mul(STEPS);
        has_float(TapeNode::new(&self.tokens), &mut steps)
    }

    /// Reads a line, in place of the one before.
    ///
    /// # Errors
    ///
    /// `AllocError` if an allocation fails.
    pub fn parse(&mut self, line: &'a [u8]) -> Result<Parsed<'_, 'a>, AllocError>
        ensures { IfOk result (λ read. IsParsed read line.now) }
    {
        if let Some(()) = self.take_line::<false>(line) {
            return Ok(Parsed::Root(TapeNode::new(&self.tokens)));
        }
        self.requests.granted()?;
        match self.take_floats(line) {
            Some(true) => Ok(Parsed::Float),
            Some(false) => Ok(Parsed::Root(TapeNode::new(&self.tokens))),
            None => {
                self.requests.granted()?;
                Ok(Parsed::Other)
            }
        }
    }

    // Appends a token, if the tokens of a value are kept.
    #[inline(always)]
    fn keep<const KEPT: bool>(&mut self, token: Token<'a>) -> Option<()>
        ensures { IfSome result (λ _.
            self.new.tokens.items ≡ self.old.tokens.items ++ kept KEPT (token.entry ∷ [])) }
    {
        if KEPT {
            let Ok(()) = self.tokens.push(token) else {
                return self.requests.refuse();
            };
        }
        Some(())
    }

    // Appends the token of a string with escapes, behind its opening quote; returns what follows it.
    #[inline(always)]
    fn take_escaped<const KEPT: bool>(&mut self, inside: Rest<'a>) -> Option<Rest<'a>>
        ensures spelled { IfSome result (λ rest. (token : Token) × (s : List ℕ)
            × (text_of token ≡ Some s)
            × (self.new.tokens.items ≡ self.old.tokens.items ++ kept KEPT (token ∷ []))
            × IsQuoted inside.entry.text.now s rest.text.now) }
        ensures shorter { IfSome result (λ rest. length rest.text.now < length inside.entry.text.now) }
    {
        let (text, rest) = split_escaped(&mut self.requests, inside)?;
        if !KEPT {
            return Some(rest);
        }
        let Ok(kept) = self.texts.try_alloc_str(&text) else {
            return self.requests.refuse();
        };
        self.keep::<KEPT>(Token::Text(kept))?;
        Some(rest)
    }

    // Appends the token of a word, an integer with a minus or one of many digits, and returns what
    // follows it.
    #[inline(always)]
    fn take_scalar<const KEPT: bool>(&mut self, text: Rest<'a>) -> Option<Rest<'a>>
        ensures spelled { IfSome result (λ rest.
            TakesLeaf KEPT false self.old.tokens.items self.new.tokens.items
            text.entry.text.now rest.text.now) }
        ensures shorter { IfSome result (λ rest. length rest.text.now < length text.entry.text.now) }
    {
        let (token, rest) = split_rare_scalar(text)?;
        self.keep::<KEPT>(token)?;
        Some(rest)
    }

    // Appends the token of a string, a word or a number at the front, and returns what follows it; a
    // key is a string. Not inlined: most are strings without escapes, which `take_value` takes itself.
    #[inline(never)]
    fn take_leaf<const KEPT: bool, const FLOATS: bool>(
        &mut self,
        text: Rest<'a>,
        key: bool,
    ) -> Option<Rest<'a>>
        ensures spelled { IfSome result (λ rest.
            TakesLeaf KEPT FLOATS self.old.tokens.items self.new.tokens.items
            text.entry.text.now rest.text.now) }
        ensures string { IfSome result (λ rest. key ≡ true
            → TakesString KEPT self.old.tokens.items self.new.tokens.items
            text.entry.text.now rest.text.now) }
        ensures shorter { IfSome result (λ rest. length rest.text.now < length text.entry.text.now) }
    {
        if let Some(inside) = text.after(b'"') {
            return self.take_escaped::<KEPT>(inside);
        }
        if key {
            return None;
        }
        if FLOATS {
            if let Some((float, rest)) = split_float(text) {
                self.keep::<KEPT>(Token::Float(float))?;
                return Some(rest);
            }
        }
        if let Some((number, rest)) = split_whole(text) {
            self.keep::<KEPT>(Token::Whole(number))?;
            return Some(rest);
        }
        self.take_scalar::<KEPT>(text)
    }

    // As `take_leaf`, inlined, so that the call's answer is cleared on this way alone: a place is
    // cleared where the function begins that has it.
    #[inline(always)]
    fn take_rare<const KEPT: bool, const FLOATS: bool>(
        &mut self,
        text: Rest<'a>,
        key: bool,
    ) -> Option<Rest<'a>>
        ensures spelled { IfSome result (λ rest.
            TakesLeaf KEPT FLOATS self.old.tokens.items self.new.tokens.items
            text.entry.text.now rest.text.now) }
        ensures string { IfSome result (λ rest. key ≡ true
            → TakesString KEPT self.old.tokens.items self.new.tokens.items
            text.entry.text.now rest.text.now) }
        ensures shorter { IfSome result (λ rest. length rest.text.now < length text.entry.text.now) }
    {
        let rest = self.take_leaf::<KEPT, FLOATS>(text, key)?;
        Some(rest)
    }

    // Appends the tokens of the value at the front, and returns what follows it; a key is a string.
    #[cycle(take)]
    #[inline(always)]
    fn take_value<const KEPT: bool, const FLOATS: bool>(
        &mut self,
        text: Rest<'a>,
        key: bool,
        depth: u8,
    ) -> Option<Rest<'a>>
        ensures spelled { IfSome result (λ rest.
            TakesValue KEPT FLOATS self.old.tokens.items self.new.tokens.items
            text.entry.text.now rest.text.now depth) }
        ensures string { IfSome result (λ rest. key ≡ true
            → TakesString KEPT self.old.tokens.items self.new.tokens.items
            text.entry.text.now rest.text.now) }
        ensures shorter { IfSome result (λ rest. length rest.text.now < length text.entry.text.now) }
    {
        // Each call's answer is taken apart before the ways join, so that the place in the line stays
        // in registers.
        if let Some((string, rest)) = text.split_plain() {
            self.keep::<KEPT>(Token::Text(string))?;
            return Some(rest);
        }
        let byte = *text.bytes().first()?;
        if !key && (byte == b'{' || byte == b'[') {
            return self.take_nested::<KEPT, FLOATS>(text.after(byte)?, byte == b'{', depth);
        }
        self.take_rare::<KEPT, FLOATS>(text, key)
    }

    // As `take_value`, of an object or an array, behind its opening bracket; inlined as `take_rare`.
    #[cycle(take)]
    #[inline(always)]
    fn take_nested<const KEPT: bool, const FLOATS: bool>(
        &mut self,
        text: Rest<'a>,
        object: bool,
        depth: u8,
    ) -> Option<Rest<'a>>
        ensures spelled { IfSome result (λ rest.
            TakesValue KEPT FLOATS self.old.tokens.items self.new.tokens.items
            ((if object then 123 else 91) ∷ text.entry.text.now) rest.text.now depth) }
        ensures shorter { IfSome result (λ rest. length rest.text.now < length text.entry.text.now) }
    {
        let rest = self.take_inside::<KEPT, FLOATS>(text, object, depth)?;
        Some(rest)
    }

    // As `take_nested`, not inlined. A key and its value are one turn of the loop each, so that what
    // takes a string stands in it once.
    #[cycle(take)]
    #[inline(never)]
    fn take_inside<const KEPT: bool, const FLOATS: bool>(
        &mut self,
        text: Rest<'a>,
        object: bool,
        depth: u8,
    ) -> Option<Rest<'a>>
        ensures spelled { IfSome result (λ rest.
            TakesValue KEPT FLOATS self.old.tokens.items self.new.tokens.items
            ((if object then 123 else 91) ∷ text.entry.text.now) rest.text.now depth) }
        ensures shorter { IfSome result (λ rest. length rest.text.now < length text.entry.text.now) }
    {
        let depth = depth.checked_sub(1)?;
        let place = self.tokens.len();
        self.keep::<KEPT>(bracket(object, 0))?;
        let close = closing(object);
        if let Some(rest) = text.after_spaced(close) {
            return Some(rest);
        }
        let mut left = text;
        let mut key = object;
        loop {
            if let Some(next) = left.after_space() {
                left = next.skip_space();
                continue;
            }
            let rest = self.take_value::<KEPT, FLOATS>(left, key, depth)?;
            if key {
                left = rest.after_spaced(b':')?;
                key = false;
                continue;
            }
            let (comma, next) = after_value(rest, close)?;
            if comma {
                left = next;
                key = object;
                continue;
            }
            self.tell_width::<KEPT>(place, object);
            return Some(next);
        }
    }

    // Tells the bracket at `place` how many tokens stand behind it, if they are kept.
    #[inline(always)]
    fn tell_width<const KEPT: bool>(&mut self, place: usize, object: bool)
        requires { KEPT ≡ true → place < length self.old.tokens.items }
        ensures { (old done : List Token) (first : Token) → place ≡ length old
            → self.old.tokens.items ≡ old ++ kept KEPT (first ∷ done)
            → self.new.tokens.items ≡ old ++ kept KEPT
            ((if object then token.Object (length done) else token.Array (length done)) ∷ done) }
    {
        if KEPT {
            self.tokens[place] = bracket(object, self.tokens.len() - place - 1);
        }
    }
}

// Returns whether a comma follows a value, else it is the closing bracket; and what follows that.
#[inline(always)]
fn after_value<'a>(rest: Rest<'a>, close: u8) -> Option<(bool, Rest<'a>)>
    ensures follows { IfSome result (λ x.
        IsBehind (if x.0 then 44 else close) rest.entry.text.now x.1.text.now) }
    ensures shorter { IfSome result (λ x. length x.1.text.now < length rest.entry.text.now) }
{
    if let Some(next) = rest.after(b',') {
        return Some((true, next));
    }
    if let Some(next) = rest.after(close) {
        return Some((false, next));
    }
    let front = rest.skip_space();
    if let Some(next) = front.after(b',') {
        return Some((true, next));
    }
    Some((false, front.after(close)?))
}

// The token of an object or an array.
#[inline(always)]
fn bracket<'a>(object: bool, width: usize) -> Token<'a>
    ensures { result ≡ (if object then token.Object width else token.Array width) }
{
    if object {
        Token::Object(width)
    } else {
        Token::Array(width)
    }
}

// The byte that ends an object or an array.
#[inline(always)]
fn closing(object: bool) -> u8
    ensures { result ≡ (if object then 125 else 93) }
{
    if object { b'}' } else { b']' }
}
