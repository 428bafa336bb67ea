//! Escapes of bytes in strings.

ghost use Rattle.std.specs.Prelude.{◌≡◌, ◌<◌, ◌/◌, ◌%◌, [], ◌∷◌};
ghost use Rattle.std.specs.Char.{digit_char};
ghost use Rattle.json.specs.Print.{escape_letter};

/// Returns the letter of a byte's short escape, as the `n` of `\n`; 0 if it has none.
#[inline(always)]
pub fn short_escape(byte: u8) -> u8
    ensures { result ≡ escape_letter byte }
{
    match byte {
        b'"' | b'\\' => byte,
        8 => b'b',
        b'\t' => b't',
        b'\n' => b'n',
        12 => b'f',
        b'\r' => b'r',
        _ => 0,
    }
}

/// Returns the escape of a control byte by its number, as `\u001f`.
#[inline(always)]
pub fn long_escape(byte: u8) -> [u8; 6]
    ensures { result
        ≡ 92 ∷ 117 ∷ 48 ∷ 48 ∷ digit_char (byte / 16) ∷ digit_char (byte % 16) ∷ [] }
{
    [b'\\', b'u', b'0', b'0', hex(byte / 16), hex(byte % 16)]
}

#[inline(always)]
fn hex(digit: u8) -> u8
    requires { digit < 16 }
    ensures { result ≡ digit_char digit }
{
    if digit < 10 {
        b'0' + digit
    } else {
        b'a' - 10 + digit
    }
}
