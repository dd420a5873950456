//! A number that a word writes.
ghost use Rattle.std.specs.Prelude.{◌≡◌, ◌≤◌, IfSome};
ghost use Rattle.command_words.specs.Numbers.{is_short_number, number_in_word};

use decimal_rank::{capped_number, is_number};

const MOST_DIGITS: usize = 10;

/// The number from `low` to `high` that a word writes in 1 to 10 decimal digits; zeros may lead.
pub fn number_in(low: u32, high: u32, word: &str) -> Option<u32>
    ensures number { result ≡ number_in_word low high word.now }
    ensures bounds { IfSome result (λ number. (low ≤ number) × (number ≤ high)) }
{
    let digits = word.as_bytes();
    if !is_short_number(digits) {
        return None;
    }
    let number = capped_number(digits, u64::from(high) + 1);
    if u64::from(low) <= number && number <= u64::from(high) {
        Some(number as u32)
    } else {
        None
    }
}

fn is_short_number(digits: &[u8]) -> bool
    ensures { result ≡ is_short_number digits.now }
{
    digits.len() <= MOST_DIGITS && is_number(digits)
}
