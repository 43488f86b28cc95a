//! The calls of Whole.
ghost use Rattle.std.specs.Prelude.{◌≡◌, neg_ℤ, pos};
ghost use Rattle.turk_base.specs.Whole.{whole_or_none, IsWhole};

use crate::Whole;

const GREATEST: i64 = 9_007_199_254_740_992;

impl Whole {
    /// The number, or None exactly where it is below `-2^53` or above `2^53`.
    pub fn new(number: i64) -> Option<Whole>
        ensures { result ≡ whole_or_none number }
    {
        if number < -GREATEST || number > GREATEST {
            None
        } else {
            Some(Whole { number })
        }
    }

    /// The number.
    pub fn get(self) -> i64
        ensures value { result ≡ self }
        ensures range { IsWhole result }
    {
        self.number
    }

    /// The number with its sign turned; 0 stays 0.
    pub fn negated(self) -> Whole
        ensures { result ≡ neg_ℤ self }
    {
        let number = self.number;
        Whole { number: -number }
    }

    /// A number that is known to be in range.
    pub fn make(number: i64) -> Whole
        requires { IsWhole number }
        ensures { result ≡ number }
    {
        Whole { number }
    }

    /// A number of 32 bits without sign.
    pub fn from_u32(number: u32) -> Whole
        ensures { result ≡ pos number }
    {
        Whole {
            number: number as i64,
        }
    }
}
