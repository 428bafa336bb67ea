//! The text of a token, behind a comma where one is wanted.

ghost use Rattle.std.specs.Prelude.{◌≡◌, ◌+◌, ◌<◌, ◌≤◌, [], ◌∷◌, ◌++◌, length, take, cond, OnOk, OnErr};
ghost use Rattle.std.specs.Str.{IsUtf8};
ghost use Rattle.json.specs.Print.{escape_byte, escape, separator, token_text, IsPrintable};
ghost use Rattle.json.specs.Reads.{token_of};
ghost use Rattle.json.specs.Token.{number};
ghost use Rattle.sentry_json.specs.Filled.{Appends, Puts};

use crate::escape::{long_escape, short_escape};
use crate::tape::run_len;
use crate::writer::buffer::Buffer;
use crate::writer::plain::is_plain;
use itoa::{Buffer as Digits, Integer};
use json::Token;
use std::alloc::AllocError;

// Appends a token. A key is tested and stored where it stands, since most keys are literals.
#[inline(always)]
pub(super) fn put(out: &mut Buffer, after_value: bool, token: Token<'_>) -> Result<(), AllocError>
    requires { IsPrintable (token_of token) }
    ensures puts { Puts result out.old out.new
        (separator after_value (token_of token.entry) ++ token_text (token_of token.entry))
        (length (token_text (token_of token.entry)) + 1) }
    ensures utf8 { IsUtf8 (token_text (token_of token.entry)) }
{
    match token {
        Token::BeginObject => put_known(out, after_value, b"{"),
        Token::EndObject => put_known(out, false, b"}"),
        Token::BeginArray => put_known(out, after_value, b"["),
        Token::EndArray => put_known(out, false, b"]"),
        Token::Key(name) => put_quoted(out, after_value, name.as_bytes(), b"\":"),
        Token::String(text) => put_string(out, after_value, text.as_bytes()),
        Token::Number(text) => put_number(out, after_value, text.as_bytes()),
        Token::Bool(true) => put_known(out, after_value, b"true"),
        Token::Bool(false) => put_known(out, after_value, b"false"),
        Token::Null => put_known(out, after_value, b"null"),
        Token::Bad => unreachable!(),
    }
}

#[inline(always)]
fn put_known(out: &mut Buffer, comma: bool, text: &[u8]) -> Result<(), AllocError>
    ensures { Puts result out.old out.new (cond comma (44 ∷ []) [] ++ text.now)
        (length text.now + 1) }
{
    out.reserve(text.len() + 1)?;
    out.put_known(comma, text);
    Ok(())
}

#[inline(always)]
fn put_number(out: &mut Buffer, comma: bool, text: &[u8]) -> Result<(), AllocError>
    ensures { Puts result out.old out.new (cond comma (44 ∷ []) [] ++ text.now)
        (length text.now + 1) }
{
    out.reserve(text.len() + 1)?;
    out.put_text(comma, text);
    Ok(())
}

// Appends an integer of 64 bits or fewer.
#[inline(always)]
pub(super) fn put_integer<I: Integer>(out: &mut Buffer, after_value: bool, n: I)
    requires short { I.MAX_STR_LEN ≤ 32 }
    requires room { 33 ≤ out.old.ready }
    ensures appended { Appends out.old out.new
        (separator after_value (number (I.text n)) ++ I.text n) }
    ensures utf8 { IsUtf8 (I.text n) }
{
    let mut digits = Digits::new();
    out.put_short(after_value, digits.format(n).as_bytes());
}

// Not inlined: strings are seldom literals.
#[inline(never)]
fn put_string(out: &mut Buffer, comma: bool, text: &[u8]) -> Result<(), AllocError>
    ensures { Puts result out.old out.new
        (cond comma (44 ∷ []) [] ++ 34 ∷ (escape text.now ++ 34 ∷ []))
        (length (escape text.now) + 3) }
{
    put_quoted(out, comma, text, b"\"")
}

// Appends a text between a quote and `close`. What has escapes, or no room yet, is left to calls
// that end this one: so a string that is stored at once needs no frame.
#[inline(always)]
fn put_quoted(out: &mut Buffer, comma: bool, text: &[u8], close: &[u8]) -> Result<(), AllocError>
    requires { length close.now ≤ 2 }
    ensures { Puts result out.old out.new
        (cond comma (44 ∷ []) [] ++ 34 ∷ (escape text.now ++ close.now))
        (length (escape text.now) + length close.now + 2) }
{
    if !is_plain(text) {
        return put_escaped(out, comma, text, close);
    }
    if text.len() + close.len() + 2 > out.ready() {
        return put_growing(out, comma, text, close);
    }
    out.quote(comma, text, close);
    Ok(())
}

// As `put_quoted`, of a text without escapes that has no room yet.
#[cold]
#[inline(never)]
fn put_growing(out: &mut Buffer, comma: bool, text: &[u8], close: &[u8]) -> Result<(), AllocError>
    requires plain { escape text.now ≡ text.now }
    requires short { length close.now ≤ 2 }
    ensures { Puts result out.old out.new
        (cond comma (44 ∷ []) [] ++ 34 ∷ (escape text.now ++ close.now))
        (length (escape text.now) + length close.now + 2) }
{
    out.reserve(text.len() + close.len() + 2)?;
    out.quote(comma, text, close);
    Ok(())
}

// As `put_quoted`, of a text with escapes. A failure cuts off what was appended.
#[inline(never)]
fn put_escaped(out: &mut Buffer, comma: bool, text: &[u8], close: &[u8]) -> Result<(), AllocError>
    requires { length close.now ≤ 2 }
    ensures { Puts result out.old out.new
        (cond comma (44 ∷ []) [] ++ 34 ∷ (escape text.now ++ close.now))
        (length (escape text.now) + length close.now + 2) }
{
    let len = out.len();
    let done = append_escaped(out, comma, text, close);
    if done.is_err() {
        out.truncate(len);
    }
    done
}

fn append_escaped(
    out: &mut Buffer,
    comma: bool,
    text: &[u8],
    close: &[u8],
) -> Result<(), AllocError>
    ensures ok { OnOk result (out.new.items
        ≡ out.old.items ++ (cond comma (44 ∷ []) [] ++ 34 ∷ (escape text.now ++ close.now))) }
    ensures front { take (length out.old.items) out.new.items ≡ out.old.items }
    ensures room { length out.old.items + out.old.spare ≤ length out.new.items + out.new.spare }
    ensures missing { OnErr result
        (out.old.spare < length (escape text.now) + length close.now + 2) }
{
    put_known(out, comma, b"\"")?;
    let mut at = 0;
    loop {
        let stop = at + run_len(&text[at..]);
        let run = &text[at..stop];
        if stop == text.len() {
            out.reserve(run.len() + close.len())?;
            out.push(run);
            out.push(close);
            return Ok(());
        }
        reserve_escape(out, run, text[stop])?;
        out.push(run);
        append_escape(out, text[stop]);
        at = stop + 1;
    }
}

// Bytes of the longest escape, such as `\u001f`.
const LONGEST_ESCAPE: usize = 6;

// Makes room for a run and what stands for the byte behind it.
#[inline(always)]
fn reserve_escape(out: &mut Buffer, run: &[u8], byte: u8) -> Result<(), AllocError>
    ensures items { out.new.items ≡ out.old.items }
    ensures kept { out.old.spare ≤ out.new.spare }
    ensures ready { OnOk result (length run.now + length (escape_byte byte) ≤ out.new.ready) }
    ensures missing { OnErr result
        (out.old.spare < length run.now + length (escape_byte byte)) }
{
    if run.len() + LONGEST_ESCAPE <= out.ready() {
        return Ok(());
    }
    out.reserve(run.len() + escape_len(byte))
}

// Returns how many bytes stand for a byte in a string.
#[tactic(auto, unfolding(json::specs::Print::escape_byte))]
fn escape_len(byte: u8) -> usize
    ensures value { result ≡ length (escape_byte byte) }
    ensures bound { result ≤ 6 }
{
    if short_escape(byte) > 0 {
        2
    } else if byte < 0x20 {
        LONGEST_ESCAPE
    } else {
        1
    }
}

// Appends what stands for a byte in a string.
#[inline(always)]
#[tactic(auto, unfolding(json::specs::Print::escape_byte))]
fn append_escape(out: &mut Buffer, byte: u8)
    requires { length (escape_byte byte) ≤ out.old.ready }
    ensures { Appends out.old out.new (escape_byte byte) }
{
    let letter = short_escape(byte);
    if letter > 0 {
        out.push(&[b'\\', letter]);
    } else if byte < 0x20 {
        out.push(&long_escape(byte));
    } else {
        out.push(&[byte]);
    }
}
