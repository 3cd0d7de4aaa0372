//! The numbers of JSON.
ghost use Rattle.std.specs.Prelude.{◌≡◌, ◌==◌, ◌<◌, length, slice_index, option_map, true, false, IsTrue};
ghost use Rattle.serde_json.specs.Find.{as_u64 as num_as_u64};
ghost use Rattle.serde_json.specs.Read.{number_of, number_from, float_of};
ghost use Rattle.line_values.specs.View.{number_view};

use fast_float::Numeral;

/// A whole number of 64 bits, or else the nearest float.
#[derive(Clone, Copy, Drop)]
pub enum Number {
    /// A whole number from 0 to 2^64 - 1.
    Unsigned(u64),
    /// A whole number from -2^63 to -1.
    Negative(i64),
    /// Any other number whose nearest float is finite.
    Float(f64),
}

impl Number {
    /// The number that a token of JSON writes. One that is too large for a float is `None`.
    #[inline(always)]
    pub fn parse(text: &str) -> Option<Number>
        ensures { option_map number_view result ≡ number_of text.now }
    {
        let bytes = text.as_bytes();
        if has_minus(bytes) {
            negative(&Numeral::scan(&bytes[1..]))
        } else {
            unsigned(&Numeral::scan(bytes))
        }
    }

    /// The number where it is whole and fits a `u64`.
    pub fn as_u64(&self) -> Option<u64>
        ensures { result ≡ num_as_u64 (number_view self.now) }
    {
        match self {
            Number::Unsigned(number) => Some(*number),
            _ => None,
        }
    }
}

#[inline(always)]
fn has_minus(bytes: &[u8]) -> bool
    ensures value { result ≡ (slice_index bytes.now 0 == 45) }
    ensures some { IsTrue result → 0 < length bytes.now }
{
    !bytes.is_empty() && bytes[0] == b'-'
}

#[inline(always)]
fn unsigned(numeral: &Numeral<'_>) -> Option<Number>
    ensures { option_map number_view result ≡ number_from false numeral.now }
{
    match numeral.to_u64() {
        Some(number) => Some(Number::Unsigned(number)),
        None => nearest(false, numeral),
    }
}

#[inline(always)]
fn negative(numeral: &Numeral<'_>) -> Option<Number>
    ensures { option_map number_view result ≡ number_from true numeral.now }
{
    if let Some(number) = numeral.to_i64(true) {
        if number < 0 {
            return Some(Number::Negative(number));
        }
    }
    nearest(true, numeral)
}

#[inline(always)]
fn nearest(is_negative: bool, numeral: &Numeral<'_>) -> Option<Number>
    ensures { option_map number_view result ≡ float_of is_negative numeral.now }
{
    let float = numeral.to_float::<f64>(is_negative);
    if float.is_finite() {
        Some(Number::Float(float))
    } else {
        None
    }
}
