//! The texts of numbered variables.
ghost use Rattle.std.specs.Prelude.{◌≡◌, ℕ, ◌^◌, ◌<◌, ◌∷◌, IfSome, IfNone};
ghost use Rattle.std.specs.Fmt.{decimal};
ghost use Rattle.fol.specs.Numbered.{digits_after, number_of_digits as number_of, number_of_text};

/// The number of the numbered variable that has this text: `V` and the decimal digits of a number below 2^64, without leading zeros.
#[tactic(auto, using(crate::proofs::NumberedTexts::some_numbered, crate::proofs::NumberedTexts::none_numbered))]
pub fn numbered(text: &[u8]) -> Option<u64>
    ensures value { result ≡ number_of_text text.now }
    ensures text { IfSome result (λ n. text.now ≡ 86 ∷ decimal n) }
    ensures no_text { IfNone result ((n : ℕ) → n < 2 ^ 64 → ¬ (text.now ≡ 86 ∷ decimal n)) }
{
    read_text(text)
}

fn read_text(text: &[u8]) -> Option<u64>
    ensures { result ≡ number_of_text text.now }
{
    match text {
        [b'V', digits @ ..] => number_of_digits(digits),
        _ => None,
    }
}

fn number_of_digits(digits: &[u8]) -> Option<u64>
    ensures { result ≡ number_of digits.now }
{
    match digits {
        [] => None,
        [b'0', _, ..] => None,
        _ => read_digits(digits),
    }
}

fn read_digits(digits: &[u8]) -> Option<u64>
    ensures { result ≡ digits_after 0 digits.now }
{
    let mut number: u64 = 0;
    for digit in digits {
        if !digit.is_ascii_digit() {
            return None;
        }
        number = number
            .checked_mul(10)?
            .checked_add(u64::from(*digit - b'0'))?;
    }
    Some(number)
}
