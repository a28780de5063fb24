// SPDX-License-Identifier: Apache-2.0
// Numbers rounded to places after the point, and written with all of these.
ghost use Rattle.std.specs.Prelude.{◌≡◌, ◌<◌, ◌≤◌, ◌/◌, ◌%◌, ◌^◌, ◌++◌, All, decimal, length, replicate, unsigned_abs};
ghost use Rattle.mspec.specs.Number.{is_below_zero};
ghost use Rattle.mspec.specs.NumberFormats.{rounded_to, fixed_number, digits_of, places_text};
ghost use Rattle.mspec.specs.NumberText.{point_text};
ghost use Rattle.mnum.specs.Num.{units};

use crate::num::Num;
use crate::powers::power;
use crate::writing::{push_decimal, push_fraction, push_sign};
use arrayvec::ArrayVec;

impl Num {
    /// The nearest number with at most `places` places after the point; of two, the one farther from 0. Takes no memory.
    pub fn to_places(self, places: usize) -> Num
        ensures { units result ≡ rounded_to places (units self) }
    {
        if places >= self.places as usize {
            return self;
        }
        let left = places as u32;
        let ten = power(self.places - left) as u64;
        Num {
            digits: (self.digits + ten / 2) / ten,
            places: left,
            negative: self.negative,
        }
    }

    /// Whether the number is below 0. Takes no memory.
    pub fn is_below_zero(self) -> bool
        ensures { result ≡ is_below_zero (units self) }
    {
        self.negative && self.digits > 0
    }

    /// The text of a number of at most `places` places with all of them, a digit before the point, and no point if `places` is 0. It
    /// is what is on the stack, with this many zeros after it. Takes no memory.
    pub fn fixed(self, places: usize) -> (ArrayVec<u8, 40>, usize)
        ensures text { result.0.items ++ replicate result.1 48 ≡ fixed_number places (units self) }
        ensures ascii { All (λ c. c < 128) result.0.items }
        ensures few { result.1 ≤ places }
    {
        let mut out = ArrayVec::new();
        push_sign(&mut out, self.is_below_zero());
        let (whole, fraction) = self.parts();
        push_decimal(&mut out, whole);
        if places == 0 {
            return (out, 0);
        }
        out.push(b'.');
        let before = out.len();
        push_fraction(&mut out, self.places, fraction);
        let digits = out.len() - before;
        (out, places.saturating_sub(digits))
    }

    /// The digits before the point of the canonical text: no zero before a fraction. Takes no memory.
    pub fn canonical_digits(self) -> ArrayVec<u8, 40>
        ensures digits { result.items ≡ digits_of (unsigned_abs (units self)) }
        ensures ascii { All (λ c. c < 128) result.items }
        ensures few { length result.items ≤ 18 }
    {
        let (whole, fraction) = self.parts();
        let mut out = ArrayVec::new();
        if whole > 0 || fraction == 0 {
            push_decimal(&mut out, whole);
        }
        out
    }

    /// The canonical text from its point on. Takes no memory.
    pub fn canonical_rest(self) -> ArrayVec<u8, 40>
        ensures rest { result.items ≡ point_text (unsigned_abs (units self) % 10 ^ 18) }
        ensures ascii { All (λ c. c < 128) result.items }
        ensures few { length result.items ≤ 19 }
    {
        let (_, fraction) = self.parts();
        let mut out = ArrayVec::new();
        if fraction > 0 {
            out.push(b'.');
            push_fraction(&mut out, self.places, fraction);
        }
        out
    }

    /// The digits before the point, which is a zero before a fraction. Takes no memory.
    pub fn fixed_digits(self) -> ArrayVec<u8, 40>
        ensures digits { result.items ≡ decimal (unsigned_abs (units self) / 10 ^ 18) }
        ensures ascii { All (λ c. c < 128) result.items }
        ensures few { length result.items ≤ 18 }
    {
        let (whole, _) = self.parts();
        let mut out = ArrayVec::new();
        push_decimal(&mut out, whole);
        out
    }

    /// The point of a number of at most `places` places with all of them, and nothing if `places` is 0: what is on the stack, with this many
    /// zeros after it. Takes no memory.
    pub fn fixed_rest(self, places: usize) -> (ArrayVec<u8, 40>, usize)
        ensures rest { result.0.items ++ replicate result.1 48 ≡ places_text places (unsigned_abs (units self) % 10 ^ 18) }
        ensures ascii { All (λ c. c < 128) result.0.items }
        ensures few { length result.0.items ≤ 19 }
        ensures missing { result.1 ≤ places }
    {
        let (_, fraction) = self.parts();
        let mut out = ArrayVec::new();
        if places == 0 {
            return (out, 0);
        }
        out.push(b'.');
        push_fraction(&mut out, self.places, fraction);
        let written = out.len() - 1;
        (out, places.saturating_sub(written))
    }
}
