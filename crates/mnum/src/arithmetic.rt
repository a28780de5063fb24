// SPDX-License-Identifier: Apache-2.0
// The operations on numbers.
ghost use Rattle.std.specs.Prelude.{◌≡◌, ℕ, ◌*◌, ◌^◌, ◌<◌, ◌≤◌, ◌≢◌, ◌-◌, ◌+◌, ◌/◌, ◌⊎◌, ◌+ℤ◌, neg_ℤ, Some, None, MatchResult, pos, unsigned_abs, IfErr};
ghost use Rattle.std.specs.Prelude.{IfSome, Option, ℤ};
ghost use Rattle.std.specs.Ordering.{int_cmp};
ghost use Rattle.mnum.specs.Division.{IsOutcome, Leaves};
ghost use Rattle.mnum.specs.Floor.{floor_left};
ghost use Rattle.mnum.specs.Num.{units};
ghost use Rattle.mspec.specs.Number.{significant_digits, IsNumber, signed, sum_of, difference_of, product_of, quotient_of, whole_quotient_of, remainder_of};

use crate::num::{ArithFault, Num, Over};
use crate::numbered::{divided, numbered};
use crate::powers::power;
use crate::rounding::rounded;
use std::cmp::Ordering;

// 10 ^ 18: the digits of a number, counted in its own places, are below this.
const DIGITS_END: u64 = 1_000_000_000_000_000_000;

// Below this, four zeros after the digits leave them below 10 ^ 18.
const SPREAD_END: u64 = 100_000_000_000_000;

// `digits` with zeros after it: as many as are wanted, or until it has 38 digits.
fn raised(digits: u64, want: u32) -> (u128, u32)
    requires digits_below { digits < 10 ^ 18 }
    requires want_at_most { want ≤ 37 }
    ensures value { result.0 ≡ digits * 10 ^ result.1 }
    ensures below { result.0 < 10 ^ 38 }
    ensures at_most { result.1 ≤ want }
    ensures reached { (result.1 ≡ want) ⊎ (10 ^ 37 ≤ result.0) }
{
    if want <= 20 {
        return (digits as u128 * power(want), want);
    }
    let mut value = digits as u128 * power(20);
    let mut zeros = 20;
    while zeros < want && value < 10_000_000_000_000_000_000_000_000_000_000_000_000 {
        value *= 10;
        zeros += 1;
    }
    (value, zeros)
}

// `digits` with four zeros after it, if it is below 10 ^ 18 then, and how many there are.
fn spread(digits: u64) -> (u64, u32)
    requires { digits < 10 ^ 18 }
    ensures value { result.0 ≡ digits * 10 ^ result.1 }
    ensures below { result.0 < 10 ^ 18 }
    ensures few { result.1 ≤ 4 }
{
    if digits < SPREAD_END {
        (digits * 10_000, 4)
    } else {
        (digits, 0)
    }
}

// The number of these digits, without zeros at the end of its fraction.
#[tactic(auto, using(crate::proofs::UnitDigits::stripped))]
fn shortened(digits: u64, places: u32, negative: bool) -> Num
    requires digits_below { digits < 10 ^ 18 }
    requires places_at_most { places ≤ 18 }
    ensures { units result ≡ signed negative (digits * 10 ^ (18 - places)) }
{
    let mut digits = digits;
    let mut places = places;
    while places > 0 && digits % 10 == 0 {
        digits /= 10;
        places -= 1;
    }
    Num {
        digits,
        places,
        negative,
    }
}

// The size of the remainder of a division with floor, from the remainder of a division of the sizes.
fn floored(left: u128, divisor: u128, same_sign: bool) -> u128
    requires { left < divisor }
    ensures value { result ≡ floor_left same_sign left divisor }
    ensures below { result < divisor }
{
    if left == 0 {
        0
    } else if same_sign {
        left
    } else {
        divisor - left
    }
}

// A sum of two numbers of one scale, as a sign and a size.
fn signed_sum(a_negative: bool, a: u128, b_negative: bool, b: u128) -> (bool, u128)
    requires a_below { a < 10 ^ 37 }
    requires b_below { b < 10 ^ 37 }
    ensures value { signed result.0 result.1 ≡ signed a_negative a +ℤ signed b_negative b }
    ensures size { result.1 ≤ a + b }
{
    if a_negative == b_negative {
        (a_negative, a + b)
    } else if a < b {
        (b_negative, b - a)
    } else {
        (a_negative, a - b)
    }
}

// Puts what was computed in the place of a number.
fn put(place: &mut Num, outcome: Result<Num, Over>) -> Result<(), Over>
    ensures { (x : Option ℤ) → MatchResult outcome (λ r. x ≡ Some (units r)) (λ _. x ≡ None) → MatchResult result (λ _. x ≡ Some (units place.new)) (λ _. x
        ≡ None) }
{
    *place = outcome?;
    Ok(())
}

// The same for a division.
fn put_quotient(place: &mut Num, outcome: Result<Num, ArithFault>) -> Result<(), ArithFault>
    ensures value { (divisor : ℤ) (x : Option ℤ) → IsOutcome divisor x outcome → Leaves divisor x place.new result }
    ensures never_over { IfErr outcome (λ e. e ≡ ArithFault.Zero) → IfErr result (λ e. e ≡ ArithFault.Zero) }
{
    *place = outcome?;
    Ok(())
}

// The digits with their sign, as a machine number.
fn signed_digits(n: &Num) -> i64
    ensures value { result ≡ signed n.now.negative n.now.digits }
    ensures below { unsigned_abs result < 10 ^ 18 }
{
    let digits = n.digits as i64;
    if n.negative { -digits } else { digits }
}

// The same two numbers, both with the same number of places: None if one of them cannot have that many. Nothing is divided or
// rounded.
#[inline]
fn at_common_places(first: &Num, second: &Num) -> Option<(Num, Num)>
    ensures { IfSome result (λ r. (r.0.places ≡ r.1.places) × (units r.0 ≡ units first.now) × (units r.1 ≡ units second.now) × (0 < second.now.digits
        → 0 < r.1.digits)) }
{
    if first.places == second.places {
        Some((*first, *second))
    } else if first.places < second.places {
        Some((first.widened(second.places)?, *second))
    } else {
        Some((*first, second.widened(first.places)?))
    }
}

// The number as one of its methods leaves it; the method changes it in place.
macro_rules! changed {
    ($number:expr, $method:ident, $other:expr) => {{
        let mut number = $number;
        number.$method(&$other)?;
        Ok(number)
    }};
}

impl Num {
    fn common_places(self, other: Num) -> u32
        ensures first { self.places ≤ result }
        ensures second { other.places ≤ result }
        ensures at_most { result ≤ 18 }
    {
        if self.places < other.places {
            other.places
        } else {
            self.places
        }
    }

    // The digits when `places` places are counted.
    #[tactic(auto, using(crate::proofs::Sums::places_value, crate::proofs::Sums::places_below))]
    fn at_places(self, places: u32) -> u128
        requires near { self.places ≤ places }
        requires at_most { places ≤ 18 }
        ensures value { result * 10 ^ (18 - places) ≡ self.digits * 10 ^ (18 - self.places) }
        ensures below { result < 10 ^ 36 }
        ensures some { 0 < self.digits → 0 < result }
    {
        self.digits as u128 * power(places - self.places)
    }

    // The same number with `places` places, if its digits stay below 10 ^ 18.
    #[inline]
    #[tactic(auto, using(crate::proofs::Sums::places_value))]
    fn widened(&self, places: u32) -> Option<Num>
        requires near { self.now.places ≤ places }
        requires at_most { places ≤ 18 }
        ensures { IfSome result (λ r. (r.places ≡ places) × (units r ≡ units self.now) × (0 < self.now.digits → 0 < r.digits)) }
    {
        let unit = power(places - self.places) as u64;
        let digits = self.digits as u128 * unit as u128;
        if digits < DIGITS_END as u128 {
            Some(Num {
                digits: digits as u64,
                places,
                negative: self.negative,
            })
        } else {
            None
        }
    }

    /// The number in units of 10^-18, below 10^36 in size and of at most eighteen significant digits.
    #[inline]
    pub fn to_units(self) -> i128
        ensures value { result ≡ units self }
        ensures number { IsNumber significant_digits (units self) }
    {
        let size = (self.digits as u128 * power(18 - self.places)) as i128;
        if self.negative { -size } else { size }
    }

    /// The order of two numbers by value.
    #[inline]
    #[tactic(auto, using(crate::proofs::MachineNumbers::cmp_is))]
    pub fn cmp(self, other: Num) -> Ordering
        ensures { result ≡ int_cmp (units self) (units other) }
    {
        match at_common_places(&self, &other) {
            Some((first, second)) => signed_digits(&first).cmp(&signed_digits(&second)),
            None => self.to_units().cmp(&other.to_units()),
        }
    }

    // `add` for places that differ, or beyond the short way.
    #[inline(never)]
    fn add_at_places(self, other: Num) -> Result<Num, Over>
        ensures { MatchResult result (λ r. sum_of (units self) (units other) ≡ Some (units r)) (λ _. sum_of (units self) (units other) ≡ None) }
    {
        let places = self.common_places(other);
        let (negative, sum) = signed_sum(
            self.negative,
            self.at_places(places),
            other.negative,
            other.at_places(places),
        );
        numbered(rounded(sum, places, 18), negative)
    }

    /// Adds a number, and rounds once. A number that is changed in place need not be moved. What it is after an error is left open.
    ///
    /// # Errors
    ///
    /// `Over` exactly if the sum reaches 10^18 in size, before or after rounding.
    pub fn add_assign(&mut self, other: &Num) -> Result<(), Over>
        ensures { MatchResult result (λ _. sum_of (units self.old) (units other.now) ≡ Some (units self.new)) (λ _. sum_of (units self.old) (units other.now)
            ≡ None) }
    {
        if let Some((first, second)) = at_common_places(self, other) {
            let sum = signed_digits(&first) + signed_digits(&second);
            let digits = sum.unsigned_abs();
            if digits < DIGITS_END {
                self.digits = digits;
                self.places = first.places;
                self.negative = sum < 0;
                return Ok(());
            }
        }
        put(self, self.add_at_places(*other))
    }

    /// The sum, rounded once.
    ///
    /// # Errors
    ///
    /// `Over` exactly if it reaches 10^18 in size, before or after rounding.
    pub fn add(self, other: Num) -> Result<Num, Over>
        ensures { MatchResult result (λ r. sum_of (units self) (units other) ≡ Some (units r)) (λ _. sum_of (units self) (units other) ≡ None) }
    {
        changed!(self, add_assign, other)
    }

    /// The difference, rounded once.
    ///
    /// # Errors
    ///
    /// `Over` exactly if it reaches 10^18 in size, before or after rounding.
    pub fn sub(self, other: Num) -> Result<Num, Over>
        ensures { MatchResult result (λ r. difference_of (units self) (units other) ≡ Some (units r)) (λ _. difference_of (units self) (units other) ≡ None) }
    {
        self.add(other.neg())
    }

    /// Subtracts a number, and rounds once. What the number is after an error is left open.
    ///
    /// # Errors
    ///
    /// `Over` exactly if the difference reaches 10^18 in size, before or after rounding.
    pub fn sub_assign(&mut self, other: &Num) -> Result<(), Over>
        ensures { MatchResult result (λ _. difference_of (units self.old) (units other.now) ≡ Some (units self.new)) (λ _. difference_of (units self.old)
            (units other.now) ≡ None) }
    {
        self.add_assign(&other.neg())
    }

    // `quot` for places that differ; the divisor is not zero.
    #[inline(never)]
    fn quot_at_places(self, other: Num) -> Result<Num, ArithFault>
        requires { 0 < other.digits }
        ensures { IsOutcome (units other) (whole_quotient_of (units self) (units other)) result }
    {
        let places = self.common_places(other);
        let quotient = self.at_places(places) / other.at_places(places);
        divided(rounded(quotient, 0, 18), self.negative != other.negative)
    }

    /// Divides by a number, the operator `\`: the quotient without its fraction is left, rounded once. What the number is after an
    /// error is left open.
    ///
    /// # Errors
    ///
    /// `Zero` exactly for a zero divisor; otherwise `Over` exactly if the quotient reaches 10^18 in size.
    pub fn quot_assign(&mut self, other: &Num) -> Result<(), ArithFault>
        ensures { Leaves (units other.now) (whole_quotient_of (units self.old) (units other.now)) self.new result }
    {
        if other.digits == 0 {
            return Err(ArithFault::Zero);
        }
        if let Some((first, second)) = at_common_places(self, other) {
            self.digits = first.digits / second.digits;
            self.places = 0;
            self.negative = first.negative != second.negative;
            return Ok(());
        }
        put_quotient(self, self.quot_at_places(*other))
    }

    /// The quotient without its fraction, the operator `\`, rounded once.
    ///
    /// # Errors
    ///
    /// `Zero` exactly for a zero divisor; otherwise `Over` exactly if the quotient reaches 10^18 in size.
    pub fn quot(self, other: Num) -> Result<Num, ArithFault>
        ensures { IsOutcome (units other) (whole_quotient_of (units self) (units other)) result }
    {
        changed!(self, quot_assign, other)
    }

    // `rem` for places that differ; the divisor is not zero.
    #[inline(never)]
    fn rem_at_places(self, other: Num) -> Result<Num, ArithFault>
        requires { 0 < other.digits }
        ensures value { IsOutcome (units other) (remainder_of (units self) (units other)) result }
        ensures never_over { IfErr result (λ e. e ≡ ArithFault.Zero) }
    {
        let places = self.common_places(other);
        let divisor = other.at_places(places);
        let size = self.at_places(places) % divisor;
        let left = floored(size, divisor, self.negative == other.negative);
        divided(rounded(left, places, 18), other.negative)
    }

    /// Divides by a number with floor, the operator `#`: the remainder is left, rounded once. It has the sign of the divisor, and if it
    /// is rounded it can equal the divisor. What the number is after an error is left open.
    ///
    /// # Errors
    ///
    /// `Zero` exactly for a zero divisor, and never `Over`.
    pub fn rem_assign(&mut self, other: &Num) -> Result<(), ArithFault>
        ensures value { Leaves (units other.now) (remainder_of (units self.old) (units other.now)) self.new result }
        ensures never_over { IfErr result (λ e. e ≡ ArithFault.Zero) }
    {
        if other.digits == 0 {
            return Err(ArithFault::Zero);
        }
        if let Some((first, second)) = at_common_places(self, other) {
            let left = floored(
                (first.digits % second.digits) as u128,
                second.digits as u128,
                first.negative == second.negative,
            );
            self.digits = left as u64;
            self.places = first.places;
            self.negative = second.negative;
            return Ok(());
        }
        put_quotient(self, self.rem_at_places(*other))
    }

    /// The remainder of a division with floor, the operator `#`, rounded once: it has the sign of the divisor, and if it is
    /// rounded it can equal the divisor.
    ///
    /// # Errors
    ///
    /// `Zero` exactly for a zero divisor, and never `Over`.
    pub fn rem(self, other: Num) -> Result<Num, ArithFault>
        ensures value { IsOutcome (units other) (remainder_of (units self) (units other)) result }
        ensures never_over { IfErr result (λ e. e ≡ ArithFault.Zero) }
    {
        changed!(self, rem_assign, other)
    }

    /// The number with its sign turned; zero stays zero.
    #[inline]
    pub fn neg(self) -> Num
        ensures { units result ≡ neg_ℤ (units self) }
    {
        Num {
            digits: self.digits,
            places: self.places,
            negative: !self.negative,
        }
    }

    // `mul` beyond the short way.
    #[inline(never)]
    fn mul_rounded(self, other: Num) -> Result<Num, Over>
        ensures { MatchResult result (λ r. product_of (units self) (units other) ≡ Some (units r)) (λ _. product_of (units self) (units other) ≡ None) }
    {
        let product = self.digits as u128 * other.digits as u128;
        numbered(
            rounded(product, self.places + other.places, 18),
            self.negative != other.negative,
        )
    }

    /// Multiplies by a number, and rounds once. What the number is after an error is left open.
    ///
    /// # Errors
    ///
    /// `Over` exactly if the product reaches 10^18 in size, before or after rounding.
    pub fn mul_assign(&mut self, other: &Num) -> Result<(), Over>
        ensures { MatchResult result (λ _. product_of (units self.old) (units other.now) ≡ Some (units self.new)) (λ _. product_of (units self.old)
            (units other.now) ≡ None) }
    {
        let product = self.digits as u128 * other.digits as u128;
        let places = self.places + other.places;
        if product < DIGITS_END as u128 && places <= 18 {
            self.digits = product as u64;
            self.places = places;
            self.negative = self.negative != other.negative;
            return Ok(());
        }
        put(self, self.mul_rounded(*other))
    }

    /// The product, rounded once.
    ///
    /// # Errors
    ///
    /// `Over` exactly if it reaches 10^18 in size, before or after rounding.
    pub fn mul(self, other: Num) -> Result<Num, Over>
        ensures { MatchResult result (λ r. product_of (units self) (units other) ≡ Some (units r)) (λ _. product_of (units self) (units other) ≡ None) }
    {
        changed!(self, mul_assign, other)
    }

    // `div` for digits that leave a remainder, even with zeros after them; the divisor is not zero.
    #[inline(never)]
    fn div_rounded(self, other: Num) -> Result<Num, ArithFault>
        requires { 0 < other.digits }
        ensures { IsOutcome (units other) (quotient_of (units self) (units other)) result }
    {
        let (numerator, zeros) = raised(self.digits, 19 + other.places - self.places);
        let quotient = numerator / other.digits as u128;
        if zeros + self.places < other.places {
            return Err(ArithFault::Over);
        }
        let size = rounded(quotient, zeros + self.places - other.places, 18);
        divided(size, self.negative != other.negative)
    }

    /// Divides by a number, the operator `/`, and rounds once. What the number is after an error is left open.
    ///
    /// # Errors
    ///
    /// `Zero` exactly for a zero divisor; otherwise `Over` exactly if the quotient reaches 10^18 in size, before or after
    /// rounding.
    #[tactic(auto, using(crate::proofs::Quotients::quotient_rounded, crate::proofs::Quotients::some_digits, crate::proofs::Quotients::some_units, crate::proofs::Quotients::exact_quotient))]
    pub fn div_assign(&mut self, other: &Num) -> Result<(), ArithFault>
        ensures { Leaves (units other.now) (quotient_of (units self.old) (units other.now)) self.new result }
    {
        if other.digits == 0 {
            return Err(ArithFault::Zero);
        }
        let (digits, zeros) = spread(self.digits);
        let places = self.places + zeros;
        if other.places <= places && places - other.places <= 18 && digits % other.digits == 0 {
            *self = shortened(
                digits / other.digits,
                places - other.places,
                self.negative != other.negative,
            );
            return Ok(());
        }
        put_quotient(self, self.div_rounded(*other))
    }

    /// The quotient, the operator `/`, rounded once.
    ///
    /// # Errors
    ///
    /// `Zero` exactly for a zero divisor; otherwise `Over` exactly if the quotient reaches 10^18 in size, before or after
    /// rounding.
    pub fn div(self, other: Num) -> Result<Num, ArithFault>
        ensures { IsOutcome (units other) (quotient_of (units self) (units other)) result }
    {
        changed!(self, div_assign, other)
    }
}
