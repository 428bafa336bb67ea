//! Floats.

ghost use Rattle.std.specs.Prelude.{◌≡◌, ◌==◌, ◌<◌, IfSome, IsTrue, Some, false, length, slice_index, true};
ghost use Rattle.std.specs.Float.{float_is_finite};
ghost use Rattle.serde_json.specs.Data.{float, number};
ghost use Rattle.serde_json.specs.Read.{float_of, number_from, number_of};
ghost use Rattle.serde_json.specs.View.{view};

use fast_float::Numeral;
use serde_json::{Number, Value};

/// A number of a line that is read as a float: one with a point or an exponent, `-0`, or an integer
/// that 64 bits don't hold.
#[derive(Clone, Copy)]
pub(crate) struct Float {
    value: f64,
    ghost finite: { float_is_finite value ≡ true },
}

impl Float {
    /// Returns the float as a tree.
    pub fn to_value(&self) -> Value
        ensures { view result ≡ number (float self.now.value) }
    {
        match Number::from_f64(self.value) {
            Some(number) => Value::Number(number),
            None => Value::Null,
        }
    }
}

// Returns whether a number has a minus.
#[inline(always)]
fn has_minus(bytes: &[u8]) -> bool
    ensures value { result ≡ (slice_index bytes.now 0 == 45) }
    ensures some { IsTrue result → 0 < length bytes.now }
{
    !bytes.is_empty() && bytes[0] == b'-'
}

// Returns the float nearest to a numeral; `None` if it is past the range of floats.
#[inline(always)]
fn nearest(minus: bool, numeral: &Numeral<'_>) -> Option<Float>
    ensures { IfSome result (λ f. float_of minus numeral.now ≡ Some (float f.value)) }
{
    let value = numeral.to_float::<f64>(minus);
    if !value.is_finite() {
        return None;
    }
    Some(Float { value })
}

// Returns the float that a numeral is; `None` as of `nearest`, and if it is an integer of 64 bits.
#[inline(always)]
fn unsigned(numeral: &Numeral<'_>) -> Option<Float>
    ensures { IfSome result (λ f. number_from false numeral.now ≡ Some (float f.value)) }
{
    match numeral.to_u64() {
        Some(_) => None,
        None => nearest(false, numeral),
    }
}

// Returns the float that a numeral with a minus is; `None` as of `unsigned`.
#[inline(always)]
fn negative(numeral: &Numeral<'_>) -> Option<Float>
    ensures { IfSome result (λ f. number_from true numeral.now ≡ Some (float f.value)) }
{
    match numeral.to_i64(true) {
        Some(whole) if whole < 0 => None,
        _ => nearest(true, numeral),
    }
}

// Returns the float that a text of JSON is; `None` if it is another number.
#[inline(always)]
pub(crate) fn parse_float(text: &str) -> Option<Float>
    ensures { IfSome result (λ f. number_of text.now ≡ Some (float f.value)) }
{
    let bytes = text.as_bytes();
    if has_minus(bytes) {
        negative(&Numeral::scan(&bytes[1..]))
    } else {
        unsigned(&Numeral::scan(bytes))
    }
}
