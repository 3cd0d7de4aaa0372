//! The numbers of the command line.
ghost use Rattle.std.specs.Prelude.{◌≡◌};
ghost use Rattle.command_words.specs.Numbers.{has_leading_digit, number_up_to as number_in};

/// Whether the text begins with a digit other than zero.
fn is_led(text: &str) -> bool
    ensures { result ≡ has_leading_digit text.now }
{
    matches!(text.as_bytes().first(), Some(b'1'..=b'9'))
}

/// The number from 1 to `most` that the text writes, if it writes one: decimal digits without a sign or a leading zero.
pub(crate) fn number_up_to(most: u64, text: &str) -> Option<u64>
    ensures { result ≡ number_in most text.now }
{
    if !is_led(text) {
        return None;
    }
    let Ok(number) = text.parse::<u64>() else {
        return None;
    };
    if number <= most { Some(number) } else { None }
}
