//! What the answers to a message tell, from their bytes.
ghost use Rattle.std.specs.Prelude.{◌≡◌, ◌-◌, option_map};
ghost use Rattle.decimal_rank.specs.Bytes.{zero_digit};
ghost use Rattle.drill.specs.Answers.{are_met, behind_part, four_digit_number, leased_doc};

use decimal_rank::are_all_digits;

/// Whether no answer has the status of a fault of the disk or of want of memory.
pub(crate) fn are_met(answers: &[u8]) -> bool
    ensures { result ≡ are_met answers.now }
{
    behind(answers, b"HTTP/1.1 503 ").is_none() && behind(answers, b"HTTP/1.1 507 ").is_none()
}

/// The number of the document that the answers to a lease tell, where it was accepted.
pub(crate) fn leased_doc(answers: &[u8]) -> Option<u32>
    ensures { result ≡ leased_doc answers.now }
{
    if !answers.starts_with(b"HTTP/1.1 201 ") {
        return None;
    }
    let doc = behind(answers, b"{\"doc\":\"D")?;
    four_digit_number(doc)
}

/// The number that the first four bytes write, where they are digits.
fn four_digit_number(text: &[u8]) -> Option<u32>
    ensures { result ≡ four_digit_number text.now }
{
    if text.len() < 4 {
        return None;
    }
    let are_digits = are_all_digits(&text[..4]);
    if !are_digits {
        return None;
    }
    Some(1_000 * digit(text[0]) + 100 * digit(text[1]) + 10 * digit(text[2]) + digit(text[3]))
}

fn digit(byte: u8) -> u32
    ensures { result ≡ byte - zero_digit }
{
    u32::from(byte.saturating_sub(b'0'))
}

/// What stands behind the first place of a part.
fn behind<'a>(text: &'a [u8], part: &[u8]) -> Option<&'a [u8]>
    ensures { option_map (λ rest. rest.now) result ≡ behind_part part.now text.now }
{
    let mut left = text;
    while let [_, rest @ ..] = left {
        if left.starts_with(part) {
            return Some(&left[part.len()..]);
        }
        left = rest;
    }
    None
}
