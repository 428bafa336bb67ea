//! Lines that are an object of which the members of some keys alone are wanted.

ghost use Rattle.std.specs.Prelude.{◌≡◌, ◌<◌, ◌++◌, ◌∷◌, [], IfOk, IfSome, List, Some, false, if◌then◌else◌, length, map, option_map};
ghost use Rattle.std.specs.Str.{bytes_eq};
ghost use Rattle.serde_json.specs.Data.{Data, no_members, object};
ghost use Rattle.serde_json.specs.Find.{get, get_member};
ghost use Rattle.serde_json.specs.View.{members_view};
ghost use Rattle.sentry_json.specs.Keys.{among, at_keys, is_among as is_one};
ghost use Rattle.sentry_json.specs.Line.{tree_of};
ghost use Rattle.sentry_json.specs.Spelled.{Spells, SpellsString};
ghost use Rattle.sentry_json.specs.TapeView.{node_data};
ghost use Rattle.sentry_json.specs.Tokens.{kept, members_of, tokens_value, value_of};
ghost use Rattle.sentry_json.specs.declared.tape.token.Token.{Token};
ghost use Rattle.sentry_json.specs.declared.tape.token.Token.TheVariants as token;

use crate::keys::is_among;
use crate::tape::escape::split_escaped;
use crate::tape::rest::Rest;
use crate::tape::token::Token;
use crate::tape::tree::split_members;
use crate::tape::{DEEPEST, Tape, TapeNode, after_value};
use serde_json::{Map, Value};
use std::alloc::AllocError;

// As deep as the value of a member may nest, which stands in an object.
const MEMBER_DEEPEST: u8 = DEEPEST - 1;

impl<'a> Tape<'a> {
    /// Reads a line that is an object, in place of the one before; returns the root node of what
    /// the members of `keys` leave of it, and the members of the object at `apart`, if one stands
    /// there. Neither that object nor members of other keys leave tokens.
    ///
    /// `None` if it isn't such a line, or none that [`Tape::parse`] takes, or if another value than
    /// an object stands at `apart`, never because an allocation fails.
    ///
    /// # Errors
    ///
    /// `AllocError` if an allocation fails.
    pub fn parse_at(
        &mut self,
        line: &'a [u8],
        keys: &[&str],
        apart: &str,
    ) -> Result<Option<(TapeNode<'_, 'a>, Option<Map<String, Value>>)>, AllocError>
        requires { is_one apart.now (map (λ key. key.now) keys.now) ≡ false }
        ensures { IfOk result (λ read. IfSome read (λ x. (d : Data)
            × (tree_of line.now ≡ Some d)
            × (node_data x.0 ≡ at_keys (map (λ key. key.now) keys.now) d)
            × (option_map (λ m. object (members_view m.entries)) x.1 ≡ get apart.now d))) }
    {
        let Some(members) = self.take_object(line, keys, apart) else {
            self.requests.granted()?;
            return Ok(None);
        };
        Ok(Some((TapeNode::new(&self.tokens), members)))
    }

    // Takes the tokens of the members of `keys` of a line that is an object, in place of those of
    // the line before, and returns the members of the object at `apart`, if one stands there.
    fn take_object(
        &mut self,
        line: &'a [u8],
        keys: &[&str],
        apart: &str,
    ) -> Option<Option<Map<String, Value>>>
        requires { is_one apart.now (map (λ key. key.now) keys.now) ≡ false }
        ensures { IfSome result (λ found. (d : Data) × (tree_of line.now ≡ Some d)
            × (tokens_value self.new.tokens.items ≡ at_keys (map (λ key. key.now) keys.now) d)
            × (option_map (λ m. object (members_view m.entries)) found ≡ get apart.now d)) }
    {
        let text = self.start(line)?;
        let inside = text.skip_space().after(b'{')?;
        let (members, rest) = self.take_members(inside, keys, apart)?;
        let end = rest.skip_space();
        if !end.text.is_empty() {
            return None;
        }
        Some(members)
    }

    // Splits off a string.
    #[inline(always)]
    fn split_string(&mut self, text: Rest<'a>) -> Option<(&'a str, Rest<'a>)>
        ensures spelled { IfSome result (λ x.
            SpellsString text.entry.text.now x.1.text.now (token.Text x.0)) }
        ensures tokens { self.new.tokens.items ≡ self.old.tokens.items }
        ensures shorter { IfSome result (λ x. length x.1.text.now < length text.entry.text.now) }
    {
        if let Some((string, rest)) = text.split_plain() {
            return Some((string, rest));
        }
        let (string, rest) = split_escaped(&mut self.requests, text.after(b'"')?)?;
        let Ok(kept) = self.texts.try_alloc_str(&string) else {
            return self.requests.refuse();
        };
        Some((kept, rest))
    }

    // Appends the tokens of a member whose value stands at the front, if its key is one of `keys`, and
    // returns what follows it.
    #[inline(never)]
    fn take_member(&mut self, key: &'a str, value: Rest<'a>, keys: &[&str]) -> Option<Rest<'a>>
        ensures spelled { IfSome result (λ rest. (first : Token) × (inside : List Token)
            × (self.new.tokens.items ≡ self.old.tokens.items ++ kept
            (is_one key.entry.now (map (λ k. k.now) keys.now)) (token.Text key.entry ∷ first ∷ inside))
            × Spells false value.entry.text.now rest.text.now first inside 126) }
        ensures shorter { IfSome result (λ rest. length rest.text.now < length value.entry.text.now) }
    {
        if !is_among(keys, key) {
            return self.take_value::<false, false>(value, false, MEMBER_DEEPEST);
        }
        self.keep::<true>(Token::Text(key))?;
        self.take_value::<true, false>(value, false, MEMBER_DEEPEST)
    }

    // As `take_member`, of a member that may stand at `apart`: there its value has to be an object,
    // which leaves no tokens, and whose members take the place of those found before; `None` for
    // another value.
    #[inline(always)]
    fn take_or_split(
        &mut self,
        key: &'a str,
        value: Rest<'a>,
        keys: &[&str],
        apart: &str,
        found: &mut Option<Map<String, Value>>,
    ) -> Option<Rest<'a>>
        requires { is_one apart.now (map (λ k. k.now) keys.now) ≡ false }
        ensures spelled { IfSome result (λ rest. (first : Token) × (inside : List Token)
            × (self.new.tokens.items ≡ self.old.tokens.items ++ kept
            (is_one key.entry.now (map (λ k. k.now) keys.now)) (token.Text key.entry ∷ first ∷ inside))
            × Spells false value.entry.text.now rest.text.now first inside 126
            × (option_map (λ m. object (members_view m.entries)) found.new
            ≡ (if bytes_eq key.entry.now apart.now then Some (value_of first inside)
            else option_map (λ m. object (members_view m.entries)) found.old))) }
        ensures shorter { IfSome result (λ rest. length rest.text.now < length value.entry.text.now) }
    {
        if key == apart {
            let (members, rest) = split_members(
                &mut self.requests,
                value.after(b'{')?,
                MEMBER_DEEPEST,
            )?;
            *found = Some(members);
            return Some(rest);
        }
        self.take_member(key, value, keys)
    }

    // Appends the tokens of an object of the members of `keys`, behind its brace, and returns what
    // follows it and the members of the last object at `apart`, if one stands there. `None` if no such
    // object stands there, or if an allocation fails.
    #[inline(never)]
    fn take_members(
        &mut self,
        inside: Rest<'a>,
        keys: &[&str],
        apart: &str,
    ) -> Option<(Option<Map<String, Value>>, Rest<'a>)>
        requires empty { self.old.tokens.items ≡ [] }
        requires beside { is_one apart.now (map (λ k. k.now) keys.now) ≡ false }
        ensures { IfSome result (λ x. (all : List Token) × (left : List Token)
            × Spells false (123 ∷ inside.entry.text.now) x.1.text.now (token.Object (length all)) all 127
            × (self.new.tokens.items ≡ token.Object (length left) ∷ left)
            × (members_of left no_members
            ≡ among (map (λ k. k.now) keys.now) (members_of all no_members))
            × (option_map (λ m. object (members_view m.entries)) x.0
            ≡ get_member apart.now (members_of all no_members))) }
    {
        self.keep::<true>(Token::Object(0))?;
        if let Some(rest) = inside.after_spaced(b'}') {
            return Some((None, rest));
        }
        let mut found = None;
        let mut left = inside.skip_space();
        loop {
            let (key, behind) = self.split_string(left)?;
            let value = behind.after_spaced(b':')?.skip_space();
            let rest = self.take_or_split(key, value, keys, apart, &mut found)?;
            let (comma, next) = after_value(rest, b'}')?;
            if !comma {
                self.tell_width::<true>(0, true);
                return Some((found, next));
            }
            left = next.skip_space();
        }
    }
}
