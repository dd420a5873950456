//! Numbers that are written in decimal digits, as far as a greatest one.
ghost use Rattle.std.specs.Prelude.{◌≡◌, IsTrue, min};
ghost use Rattle.std.specs.List.{list_all};
ghost use Rattle.std.specs.Str.Parse.{digits_value};
ghost use Rattle.decimal_rank.specs.Decimals.DecimalText.{are_digits, is_digit};

/// Whether each byte is a decimal digit.
pub fn are_all_digits(text: &[u8]) -> bool
    ensures { result ≡ list_all is_digit text.now }
{
    text.iter().all(|byte| b'0' <= *byte && *byte <= b'9')
}

/// Whether one or more decimal digits stand there, and nothing else.
pub fn is_number(text: &[u8]) -> bool
    ensures { result ≡ are_digits text.now }
{
    0 < text.len() && are_all_digits(text)
}

/// The number that decimal digits write, or `cap` where it is greater. Nothing written is 0.
#[tactic(auto, using(crate::proofs::DecimalText::Digits::capped_more))]
pub fn capped_number(digits: &[u8], cap: u64) -> u64
    requires { IsTrue (list_all is_digit digits.now) }
    ensures { result ≡ min (digits_value 10 digits.now) cap }
{
    let mut value: u64 = 0;
    for digit in digits {
        let digit = u64::from(digit.saturating_sub(b'0'));
        value = value.saturating_mul(10).saturating_add(digit).min(cap);
    }
    value
}
