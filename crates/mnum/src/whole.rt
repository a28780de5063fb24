// SPDX-License-Identifier: Apache-2.0
// Numbers and whole numbers, and the truth of a number.
ghost use Rattle.std.specs.Prelude.{◌≡◌, ◌/◌, ◌%◌, ◌^◌, ◌<◌, ◌*ℤ◌, pos, unsigned_abs};
ghost use Rattle.mspec.specs.Interpretations.{whole_part, is_true};
ghost use Rattle.mnum.specs.Num.{units};

use crate::num::Num;
use crate::powers::power;

impl Num {
    /// The number of a whole number below 10^18 in size.
    #[inline]
    pub fn from_whole(whole: i64) -> Num
        requires { unsigned_abs whole < 10 ^ 18 }
        ensures { units result ≡ whole *ℤ pos (10 ^ 18) }
    {
        Num {
            digits: whole.unsigned_abs(),
            places: 0,
            negative: whole < 0,
        }
    }

    // The digits before the point, and those after it. Most numbers are whole, and a division takes as long as all the rest of their
    // texts.
    #[inline]
    #[tactic(auto, using(crate::proofs::WholeParts::all_whole, crate::proofs::WholeParts::no_fraction, std::proofs::lemmas::Nat::mod_below, mspec::proofs::Powers::ten_pos))]
    pub(crate) fn parts(self) -> (u64, u64)
        ensures whole { result.0 ≡ self.digits / 10 ^ self.places }
        ensures fraction { result.1 ≡ self.digits % 10 ^ self.places }
        ensures few_whole { result.0 < 10 ^ 18 }
        ensures few_places { result.1 < 10 ^ self.places }
    {
        if self.places == 0 {
            return (self.digits, 0);
        }
        let unit = power(self.places) as u64;
        (self.digits / unit, self.digits % unit)
    }

    /// The number without its fraction, which is below 10^18 in size.
    #[inline]
    pub fn to_whole(self) -> i64
        ensures value { result ≡ whole_part (units self) }
        ensures below { unsigned_abs result < 10 ^ 18 }
    {
        let (whole, _) = self.parts();
        let size = whole as i64;
        if self.negative { -size } else { size }
    }

    /// Whether the number is true: whether it is not 0.
    #[inline]
    #[tactic(auto, using(crate::proofs::WholeParts::truth_is))]
    pub fn is_true(self) -> bool
        ensures { result ≡ is_true (units self) }
    {
        self.digits != 0
    }
}
