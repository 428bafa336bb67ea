//! ASCII digits: a number's last digit, and the digits that a text begins with.

ghost use Rattle.std.specs.Prelude.{◌≡◌, ◌≤◌, ◌<◌, ◌+◌, ◌/◌, ◌%◌, length};
ghost use Rattle.std.specs.Char.{is_ascii_digit};
ghost use Rattle.std.specs.List.{prefix_len};
ghost use Rattle.std.specs.Str.Parse.{AllDigits};
ghost use Rattle.sentry_moments.specs.Characters.{zero_digit};
ghost use Rattle.sentry_moments.specs.Digits.{front_digits, after_digits};

// Returns how many ASCII digits a text begins with.
pub(crate) fn digits_len(text: &[u8]) -> usize
    ensures len { result ≡ prefix_len is_ascii_digit text.now }
    ensures within { result ≤ length text.now }
{
    text.iter().take_while(|b| b.is_ascii_digit()).count()
}

// Splits a text into its leading ASCII digits and the rest.
pub(crate) fn split_digits(text: &[u8]) -> (&[u8], &[u8])
    ensures front { result.0.now ≡ front_digits text.now }
    ensures rest { result.1.now ≡ after_digits text.now }
    ensures are_digits { AllDigits 10 result.0.now }
{
    text.split_at(digits_len(text))
}

// Returns the last digit of a number.
#[inline(always)]
pub(crate) fn last_digit(number: u32) -> u8
    ensures { result ≡ zero_digit + number % 10 }
{
    b'0' + (number % 10) as u8
}

// The two digits of each number below 100, one number after the other.
static TWO_DIGITS: [u8; 200] = *b"\
    0001020304050607080910111213141516171819\
    2021222324252627282930313233343536373839\
    4041424344454647484950515253545556575859\
    6061626364656667686970717273747576777879\
    8081828384858687888990919293949596979899";

// Returns the two digits of a number below 100.
#[inline(always)]
pub(crate) fn two_digits(number: u32) -> (u8, u8)
    requires { number < 100 }
    ensures tens { result.0 ≡ zero_digit + number / 10 % 10 }
    ensures ones { result.1 ≡ zero_digit + number % 10 }
{
    let place = 2 * number as usize;
    (TWO_DIGITS[place], TWO_DIGITS[place + 1])
}
