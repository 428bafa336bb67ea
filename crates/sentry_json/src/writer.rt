//! Writing JSON a token at a time.

ghost use Rattle.std.specs.Prelude.{◌≡◌, ◌-◌, ◌≤◌, ◌++◌, ℕ, List, [], vec_len, vec_capacity, IsTrue, Some, decimal, IsUtf8};
ghost use Rattle.std.specs.Float.{binary64, float_is_finite};
ghost use Rattle.std.specs.Fmt.{signed_decimal};
ghost use Rattle.fast_float.specs.Parse.{parse_float};
ghost use Rattle.ryu.specs.Plain.{IsPlusNumber};
ghost use Rattle.json.specs.Lex.{tokens};
ghost use Rattle.json.specs.Print.{print, ends, IsNumber, IsPrintable};
ghost use Rattle.json.specs.Reads.{token_of};
ghost use Rattle.json.specs.Token.{begin_object, end_object, begin_array, end_array, key, string, number, boolean, null};
ghost use Rattle.json.specs.Written.{Writes};

mod buffer;
mod copy;
mod place;
mod plain;
mod put;

use crate::writer::buffer::Buffer;
use crate::writer::put::{put, put_integer};
use itoa::Integer;
use json::Token;
use std::alloc::AllocError;
use std::marker::Model;

/// A writer that appends JSON to a buffer, without white space and with the shortest escapes.
///
/// It places commas and colons; that objects and lists are closed is the caller's part. A write
/// can't fail where the buffer has room for its text and a comma.
///
/// <https://www.rfc-editor.org/rfc/rfc8259>
#[derive(Drop)]
pub struct Writer {
    out: Buffer,
    start: usize,
    after_value: bool,
}

impl Model for Writer {
    ghost use Rattle.json.specs.Written.{Written, written_code};
    ghost use Rattle.sentry_json.specs.Writer.{writer_view, IsWriter};

    ghost Value = { Written };

    ghost coded = { written_code };

    ghost view = { writer_view };

    ghost invariant = { IsWriter };
}

impl Writer {
    /// Creates a writer that writes behind what `out` holds.
    pub fn new(out: Vec<u8>) -> Writer
        ensures before { result.before ≡ out.items }
        ensures tokens { result.tokens ≡ [] }
        ensures spare { result.spare ≡ vec_capacity out - vec_len out }
    {
        let out = Buffer::new(out);
        let start = out.len();
        Writer {
            out,
            start,
            after_value: false,
        }
    }

    /// Returns the buffer.
    pub fn into_inner(self) -> Vec<u8>
        ensures items { result.items ≡ self.before ++ print self.tokens }
        ensures reads_back { tokens (print self.tokens) ≡ self.tokens }
        ensures utf8 { IsUtf8 (print self.tokens) }
    {
        let Writer { out, .. } = self;
        out.into_vec()
    }

    #[inline(always)]
    fn token(&mut self, token: Token<'_>) -> Result<(), AllocError>
        requires { IsPrintable (token_of token) }
        ensures { Writes result self.old self.new (token_of token.entry) }
    {
        put(&mut self.out, self.after_value, token)?;
        self.after_value = ends_value(token);
        Ok(())
    }

    /// Writes the brace that begins an object.
    ///
    /// # Errors
    ///
    /// `AllocError` if an allocation fails; nothing is written then, by this call or the others.
    #[inline]
    pub fn begin_object(&mut self) -> Result<(), AllocError>
        ensures { Writes result self.old self.new begin_object }
    {
        self.token(Token::BeginObject)
    }

    /// Writes the brace that ends an object.
    ///
    /// # Errors
    ///
    /// `AllocError` if an allocation fails.
    #[inline]
    pub fn end_object(&mut self) -> Result<(), AllocError>
        ensures { Writes result self.old self.new end_object }
    {
        self.token(Token::EndObject)
    }

    /// Writes the bracket that begins a list.
    ///
    /// # Errors
    ///
    /// `AllocError` if an allocation fails.
    #[inline]
    pub fn begin_array(&mut self) -> Result<(), AllocError>
        ensures { Writes result self.old self.new begin_array }
    {
        self.token(Token::BeginArray)
    }

    /// Writes the bracket that ends a list.
    ///
    /// # Errors
    ///
    /// `AllocError` if an allocation fails.
    #[inline]
    pub fn end_array(&mut self) -> Result<(), AllocError>
        ensures { Writes result self.old self.new end_array }
    {
        self.token(Token::EndArray)
    }

    /// Writes the key of a member. Inlined, so that the test for escapes of a literal is decided,
    /// and its text stored, at compile time.
    ///
    /// # Errors
    ///
    /// `AllocError` if an allocation fails.
    #[inline(always)]
    pub fn key(&mut self, name: &str) -> Result<(), AllocError>
        ensures { Writes result self.old self.new (key name.now) }
    {
        self.token(Token::Key(name))
    }

    /// Writes a string.
    ///
    /// # Errors
    ///
    /// `AllocError` if an allocation fails.
    #[inline]
    pub fn string(&mut self, text: &str) -> Result<(), AllocError>
        ensures { Writes result self.old self.new (string text.now) }
    {
        self.token(Token::String(text))
    }

    /// Writes a number as it is given, such as `-1.5e3`. The text has to be a number of JSON.
    ///
    /// # Errors
    ///
    /// `AllocError` if an allocation fails.
    #[inline(always)]
    pub fn number(&mut self, text: &str) -> Result<(), AllocError>
        requires { IsNumber text.now }
        ensures { Writes result self.old self.new (number text.now) }
    {
        self.token(Token::Number(text))
    }

    // Writes an integer of 64 bits or fewer. One that has no room yet is left to a call that ends
    // this one.
    #[inline(always)]
    fn integer<I: Integer>(&mut self, n: I) -> Result<(), AllocError>
        requires number { IsNumber (I.text n) }
        requires short { I.MAX_STR_LEN ≤ 32 }
        ensures { Writes result self.old self.new (number (I.text n)) }
    {
        if self.out.ready() < 33 {
            return self.integer_growing(n);
        }
        put_integer(&mut self.out, self.after_value, n);
        self.after_value = true;
        Ok(())
    }

    #[cold]
    #[inline(never)]
    fn integer_growing<I: Integer>(&mut self, n: I) -> Result<(), AllocError>
        requires { IsNumber (I.text n) }
        ensures { Writes result self.old self.new (number (I.text n)) }
    {
        let mut digits = itoa::Buffer::new();
        self.number(digits.format(n))
    }

    /// Writes a whole number.
    ///
    /// # Errors
    ///
    /// `AllocError` if an allocation fails.
    #[inline]
    pub fn u64(&mut self, n: u64) -> Result<(), AllocError>
        ensures { Writes result self.old self.new (number (decimal n)) }
    {
        self.integer(n)
    }

    /// Writes a whole number that may be negative.
    ///
    /// # Errors
    ///
    /// `AllocError` if an allocation fails.
    #[inline]
    pub fn i64(&mut self, n: i64) -> Result<(), AllocError>
        ensures { Writes result self.old self.new (number (signed_decimal n)) }
    {
        self.integer(n)
    }

    /// Writes a float, which has to be finite, as a text that reads back as this float; an exponent
    /// has a sign, as in `1e+30`.
    ///
    /// # Errors
    ///
    /// `AllocError` if an allocation fails.
    #[inline(never)]
    pub fn float(&mut self, x: f64) -> Result<(), AllocError>
        requires { IsTrue (float_is_finite x) }
        ensures { (s : List ℕ) × Writes result self.old self.new (number s)
            × IsPlusNumber 16 4 s × (parse_float binary64 s ≡ Some x) }
    {
        let mut digits = ryu::Buffer::new();
        self.number(digits.format_finite_with_plus(x))
    }

    /// Writes a boolean.
    ///
    /// # Errors
    ///
    /// `AllocError` if an allocation fails.
    #[inline]
    pub fn boolean(&mut self, b: bool) -> Result<(), AllocError>
        ensures { Writes result self.old self.new (boolean b) }
    {
        self.token(Token::Bool(b))
    }

    /// Writes `null`.
    ///
    /// # Errors
    ///
    /// `AllocError` if an allocation fails.
    #[inline]
    pub fn null(&mut self) -> Result<(), AllocError>
        ensures { Writes result self.old self.new null }
    {
        self.token(Token::Null)
    }
}

// Whether a value ends with the token.
#[inline(always)]
fn ends_value(token: Token<'_>) -> bool
    ensures { result ≡ ends (token_of token.entry) }
{
    match token {
        Token::BeginObject | Token::BeginArray | Token::Key(_) => false,
        _ => true,
    }
}
