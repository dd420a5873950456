//! The digits of a score as one number, without the zeros in front and with those at its end
//! counted.
ghost use Rattle.std.specs.Prelude.{◌≡◌, ◌≤◌, ◌<◌, ◌+◌, ◌-◌, ◌*◌, ◌^◌, ◌++◌, ◌∷◌, [], ℕ, List, length, min, IsTrue};
ghost use Rattle.std.specs.List.{list_all};
ghost use Rattle.decimal_rank.specs.Decimals.DecimalText.{is_digit};
ghost use Rattle.decimal_rank.specs.Decimals.Significands.{IsSignificand};

/// The most digits that a number keeps.
pub(crate) const MOST_DIGITS: u16 = 38;

/// The digits of a score from the first that isn't 0.
#[derive(Clone, Copy)]
pub(crate) struct Significand {
    /// The number that the first 38 of them write.
    pub(crate) number: u128,
    /// How many there are.
    pub(crate) count: u16,
    /// How many zeros stand at their end.
    pub(crate) zeros: u16,
}

impl Significand {
    /// One more digit.
    fn with(self, byte: u8) -> Significand
        requires digit { IsTrue (is_digit byte) }
        requires few { self.count < 400 }
        requires zeros { self.zeros ≤ self.count }
        requires below { self.number < 10 ^ min self.count 38 }
        ensures { (digits : List ℕ) → IsSignificand digits self
            → IsSignificand (digits ++ byte ∷ []) result }
    {
        if self.count == 0 && byte == b'0' {
            return self;
        }
        Significand {
            number: self.number_with(byte),
            count: self.count + 1,
            zeros: if byte == b'0' { self.zeros + 1 } else { 0 },
        }
    }

    /// The number with one more digit, which isn't kept behind 38.
    fn number_with(self, byte: u8) -> u128
        requires digit { IsTrue (is_digit byte) }
        requires below { self.number < 10 ^ min self.count 38 }
        ensures kept { self.count < 38 → result ≡ self.number * 10 + (byte - 48) }
        ensures full { 38 ≤ self.count → result ≡ self.number }
    {
        if self.count < MOST_DIGITS {
            self.number * 10 + u128::from(byte - b'0')
        } else {
            self.number
        }
    }

    /// How many digits the number has.
    pub(crate) fn kept(&self) -> u8
        ensures { result ≡ min self.now.count 38 }
    {
        self.count.min(MOST_DIGITS) as u8
    }

    /// How many zeros stand at the end of the number.
    pub(crate) fn kept_zeros(&self) -> u8
        requires zeros { self.now.zeros ≤ self.now.count }
        requires few { self.now.count - self.now.zeros ≤ 38 }
        ensures { result + (self.now.count - self.now.zeros) ≡ min self.now.count 38 }
    {
        if self.count < MOST_DIGITS {
            self.zeros as u8
        } else {
            (MOST_DIGITS - (self.count - self.zeros)) as u8
        }
    }
}

/// The digits around the point.
pub(crate) fn significand_of(whole: &[u8], fraction: &[u8]) -> Significand
    requires whole { IsTrue (list_all is_digit whole.now) }
    requires fraction { IsTrue (list_all is_digit fraction.now) }
    requires few { length whole.now + length fraction.now ≤ 400 }
    ensures { IsSignificand (whole.now ++ fraction.now) result }
{
    let mut significand = Significand {
        number: 0,
        count: 0,
        zeros: 0,
    };
    for byte in whole {
        significand = significand.with(*byte);
    }
    for byte in fraction {
        significand = significand.with(*byte);
    }
    significand
}
