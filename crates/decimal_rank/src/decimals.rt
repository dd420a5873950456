//! The exact values of scores, read from their texts, compared, and written as canonical texts.
ghost use Rattle.std.specs.Prelude.{IfOk, ◌≡◌, ◌≢◌, ◌+◌, ◌-◌, ◌*◌, ◌/◌, ◌%◌, ◌^◌, ◌<◌, ◌≤◌, pos, negsuc, ◌≤ℤ◌, ◌+ℤ◌, ◌-ℤ◌};
ghost use Rattle.std.specs.Int.{int_gap};
ghost use Rattle.decimal_rank.specs.Decimals.DecimalText.{canonical, decimal_of, scaled_value};
ghost use Rattle.decimal_rank.specs.Decimals.AlignedDigits.{aligned_value, size_key, IsAligned, IsKeyed};
ghost use Rattle.decimal_rank.specs.Decimals.Decimal.{DecimalValue, decimal_cmp, magnitude_of, signed_number};

pub(crate) mod decimal_laws;
mod score_parts;
mod significands;

use crate::decimals::score_parts::{exponent_of, parts_of};
use crate::decimals::significands::{MOST_DIGITS, significand_of};
use crate::storage::Memory;
use crate::texts::Text;
use std::alloc::Global;
use std::cmp::Ordering;
use std::marker::Model;

/// The powers of ten with exponents from 0 to 38.
const POWERS: [u128; 39] = [
    1,
    10,
    100,
    1_000,
    10_000,
    100_000,
    1_000_000,
    10_000_000,
    100_000_000,
    1_000_000_000,
    10_000_000_000,
    100_000_000_000,
    1_000_000_000_000,
    10_000_000_000_000,
    100_000_000_000_000,
    1_000_000_000_000_000,
    10_000_000_000_000_000,
    100_000_000_000_000_000,
    1_000_000_000_000_000_000,
    10_000_000_000_000_000_000,
    100_000_000_000_000_000_000,
    1_000_000_000_000_000_000_000,
    10_000_000_000_000_000_000_000,
    100_000_000_000_000_000_000_000,
    1_000_000_000_000_000_000_000_000,
    10_000_000_000_000_000_000_000_000,
    100_000_000_000_000_000_000_000_000,
    1_000_000_000_000_000_000_000_000_000,
    10_000_000_000_000_000_000_000_000_000,
    100_000_000_000_000_000_000_000_000_000,
    1_000_000_000_000_000_000_000_000_000_000,
    10_000_000_000_000_000_000_000_000_000_000,
    100_000_000_000_000_000_000_000_000_000_000,
    1_000_000_000_000_000_000_000_000_000_000_000,
    10_000_000_000_000_000_000_000_000_000_000_000,
    100_000_000_000_000_000_000_000_000_000_000_000,
    1_000_000_000_000_000_000_000_000_000_000_000_000,
    10_000_000_000_000_000_000_000_000_000_000_000_000,
    100_000_000_000_000_000_000_000_000_000_000_000_000,
];

/// What one more of the exponent adds to a key: more than the digits do.
const EXPONENT_STEP: u64 = 2_251_799_813_685_248;

/// The 38 digits are divided by this in a key, which leaves the first 15 or 16.
const KEYED_DIGITS: u128 = 75_557_863_725_914_323_419_136;

/// Why a text is no score.
#[derive(Clone, Copy, Debug, PartialEq, Eq)]
pub enum DecimalFault {
    /// The text isn't a sign, digits with at most one point, and an exponent, in at most 400 bytes.
    Shape,
    /// There are more than 38 digits from the first to the last that isn't 0.
    Digits,
    /// The exponent that is written isn't -400 to 400.
    Exponent,
}

/// The exact value of a score. The digits are kept left-aligned, so that comparing multiplies
/// nothing, beside a key that mostly tells the order alone. Contracts see the sign, the whole
/// number without zeros at its end, and the exponent.
#[derive(Debug, Drop)]
pub struct Decimal {
    // 38 digits, or 0
    leading: u128,
    // orders as the values do, where keys differ
    key: i64,
    // the exponent of the last of the 38
    last: i16,
    // how many of the 38 are zeros that fill up the end
    padding: u8,
    negative: bool,
}

impl Model for Decimal {
    ghost use Rattle.decimal_rank.specs.Decimals.Decimal.{DecimalValue};
    ghost use Rattle.decimal_rank.specs.Decimals.AlignedDigits.{aligned_value, IsAligned, IsKeyed};

    ghost Value = { DecimalValue };

    ghost view = { λ d. aligned_value d.negative d.leading d.padding d.last };

    ghost invariant = { λ d. IsAligned d.negative d.leading d.padding d.last
        × IsKeyed d.negative d.leading d.last d.key };
}

impl Decimal {
    /// The value of a score's text.
    pub fn read(text: &[u8]) -> Result<Decimal, DecimalFault>
        ensures { result ≡ decimal_of text.now }
    {
        let parts = match parts_of(text) {
            Some(parts) => parts,
            None => return Err(DecimalFault::Shape),
        };
        let significand = significand_of(parts.whole, parts.fraction);
        if significand.count - significand.zeros > MOST_DIGITS {
            return Err(DecimalFault::Digits);
        }
        let exponent = match exponent_of(parts.exponent) {
            Some(exponent) => exponent,
            None => return Err(DecimalFault::Exponent),
        };
        Ok(scaled(
            parts.negative,
            significand.number,
            significand.kept(),
            significand.kept_zeros(),
            last_exponent(exponent, significand.zeros, parts.fraction.len()),
        ))
    }

    /// The canonical text: no zeros in front of the digits or behind them, no point, and an
    /// exponent only where it isn't 0.
    pub fn write(&self, alloc: Global) -> Result<Text, Memory>
        ensures text { IfOk result (λ text. text ≡ canonical self.now) }
        ensures read_back { negsuc 399 ≤ℤ self.now.exponent → self.now.exponent ≤ℤ pos 400
            → IfOk result (λ text. decimal_of text ≡ Ok self.now) }
    {
        let digits = self.leading / power(self.padding);
        let exponent = self.last + i16::from(self.padding);
        write_parts(alloc, self.negative, digits, exponent)
    }

    /// The same value.
    pub fn copy(&self) -> Decimal
        ensures { result ≡ self.now }
    {
        Decimal {
            leading: self.leading,
            key: self.key,
            last: self.last,
            padding: self.padding,
            negative: self.negative,
        }
    }

    /// The order of the values.
    pub fn compare(&self, other: &Decimal) -> Ordering
        ensures { result ≡ decimal_cmp self.now other.now }
    {
        match self.key.cmp(&other.key) {
            Ordering::Equal => self.compare_whole(other),
            unequal => unequal,
        }
    }

    /// The order of the values, by all their digits.
    #[inline(never)]
    fn compare_whole(&self, other: &Decimal) -> Ordering
        ensures { result ≡ decimal_cmp self.now other.now }
    {
        match (self.negative, other.negative) {
            (false, false) => self.compare_size(other),
            (false, true) => Ordering::Greater,
            (true, false) => Ordering::Less,
            (true, true) => other.compare_size(self),
        }
    }

    /// The order of the values without their signs.
    fn compare_size(&self, other: &Decimal) -> Ordering
        ensures { result ≡ decimal_cmp (magnitude_of self.now) (magnitude_of other.now) }
    {
        if self.leading == 0 || other.leading == 0 {
            return self.leading.cmp(&other.leading);
        }
        self.last
            .cmp(&other.last)
            .then(self.leading.cmp(&other.leading))
    }
}

/// The canonical text of a sign, digits and an exponent.
fn write_parts(alloc: Global, negative: bool, digits: u128, exponent: i16) -> Result<Text, Memory>
    ensures { IfOk result (λ text. text
        ≡ canonical (record { negative = negative; digits = digits; exponent = exponent })) }
{
    let sign = if negative { "-" } else { "" };
    if exponent == 0 {
        let text = format!(in alloc; "{sign}{digits}")?;
        return Ok(Text::new(text.into_bytes()));
    }
    let text = format!(in alloc; "{sign}{digits}e{exponent}")?;
    Ok(Text::new(text.into_bytes()))
}

/// Ten to so many.
fn power(exponent: u8) -> u128
    requires { exponent ≤ 38 }
    ensures { result ≡ 10 ^ exponent }
{
    POWERS[exponent as usize]
}

/// The exponent of the last digit that isn't 0, of the exponent that is written, the zeros behind
/// this digit and the digits behind the point.
fn last_exponent(written: i16, zeros: u16, fraction: usize) -> i16
    requires low { negsuc 399 ≤ℤ written }
    requires high { written ≤ℤ pos 400 }
    requires zeros { zeros ≤ 400 }
    requires fraction { fraction ≤ 400 }
    ensures value { result ≡ (written +ℤ pos zeros) -ℤ pos fraction }
    ensures low { negsuc 999 ≤ℤ result }
    ensures high { result ≤ℤ pos 1000 }
{
    written + zeros as i16 - fraction as i16
}

/// The decimal of a sign, so many digits with so many zeros at their end, and the exponent of the
/// last digit before these.
fn scaled(negative: bool, digits: u128, count: u8, zeros: u8, exponent: i16) -> Decimal
    requires few { count ≤ 38 }
    requires below { digits < 10 ^ count }
    requires full { 0 < count → 10 ^ (count - 1) ≤ digits }
    requires zeros { digits / 10 ^ zeros * 10 ^ zeros ≡ digits }
    requires trimmed { digits ≢ 0 → digits / 10 ^ zeros % 10 ≢ 0 }
    requires low { negsuc 999 ≤ℤ exponent }
    requires high { exponent ≤ℤ pos 1000 }
    ensures { result ≡ scaled_value negative (digits / 10 ^ zeros) exponent }
{
    if digits == 0 {
        return Decimal {
            leading: 0,
            key: 0,
            last: 0,
            padding: 0,
            negative: false,
        };
    }
    let short = 38 - count;
    let padding = zeros + short;
    let leading = digits * power(short);
    let last = exponent - i16::from(padding);
    keyed(negative, leading, padding, last)
}

/// The decimal of a sign, 38 digits with this padding, and the exponent of the last.
fn keyed(negative: bool, leading: u128, padding: u8, last: i16) -> Decimal
    requires some { leading ≢ 0 }
    requires aligned { IsAligned negative leading padding last }
    ensures { result ≡ aligned_value negative leading padding last }
{
    Decimal {
        leading,
        key: key(negative, leading, last),
        last,
        padding,
        negative,
    }
}

/// The key of a sign, 38 digits and the exponent of the last.
fn key(negative: bool, leading: u128, last: i16) -> i64
    requires some { leading ≢ 0 }
    requires below { leading < 10 ^ 38 }
    requires low { negsuc 1999 ≤ℤ last }
    requires high { last ≤ℤ pos 1999 }
    ensures { IsKeyed negative leading last result }
{
    signed(negative, size_key(leading, last))
}

/// A number with a sign.
fn signed(negative: bool, size: u64) -> i64
    requires { size < 2 ^ 63 }
    ensures { result ≡ signed_number negative size }
{
    if negative {
        -(size as i64)
    } else {
        size as i64
    }
}

/// The key without a sign: the exponent, and behind it the first digits.
fn size_key(leading: u128, last: i16) -> u64
    requires some { leading ≢ 0 }
    requires below { leading < 10 ^ 38 }
    requires low { negsuc 1999 ≤ℤ last }
    requires high { last ≤ℤ pos 1999 }
    ensures key { result ≡ size_key leading last }
    ensures within { result < 2 ^ 63 }
{
    raised(last) * EXPONENT_STEP + (leading / KEYED_DIGITS) as u64
}

/// An exponent, from -2000.
fn raised(exponent: i16) -> u64
    requires low { negsuc 1999 ≤ℤ exponent }
    requires high { exponent ≤ℤ pos 1999 }
    ensures value { result ≡ int_gap (negsuc 1999) exponent }
    ensures few { result < 4000 }
{
    (exponent + 2000) as u64
}
