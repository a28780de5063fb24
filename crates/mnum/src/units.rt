// SPDX-License-Identifier: Apache-2.0
// Numbers made of their units.
ghost use Rattle.std.specs.Prelude.{◌≡◌, MatchOption};
ghost use Rattle.mnum.specs.Num.{units};
ghost use Rattle.mspec.specs.Number.{significant_digits, IsNumber};

use crate::num::Num;

// The units of 1, and the end of the digits of a number.
const UNIT: u128 = 1_000_000_000_000_000_000;

// Its twos, and its fives.
const TWOS: u128 = 1 << 18;

const FIVES: u64 = 3_814_697_265_625;

// The fives times this are 1 in numbers of 64 bits.
const INVERSE: u64 = 13_940_676_669_711_910_505;

// This many numbers have 64 bits.
const WORD: u128 = 1 << 64;

const _: () = prove!(TWOS * FIVES as u128 == UNIT);

const _: () = prove!(FIVES.wrapping_mul(INVERSE) == 1);

impl Num {
    /// The number of `count` units of 10^-18, or None exactly if there is none: if the count is 10^36 or more in size, or has
    /// more than eighteen significant digits. Takes no memory.
    pub fn from_units(count: i128) -> Option<Num>
        ensures { MatchOption result (IsNumber significant_digits count → ⊥) (λ n. units n ≡ count) }
    {
        let negative = count < 0;
        let size = count.unsigned_abs();
        let mut digits = size;
        let mut places: u32 = 18;
        // For a whole number this is the quotient: a division takes tens of nanoseconds at this length. For any other it is just some
        // number, which the product shows.
        let whole = (size / TWOS % WORD) as u64;
        let whole = whole.wrapping_mul(INVERSE) as u128;
        if whole * UNIT == size {
            digits = whole;
            places = 0;
        }
        while digits >= UNIT && places > 0 && digits % 10 == 0 {
            digits /= 10;
            places -= 1;
        }
        if digits >= UNIT {
            return None;
        }
        Some(Num {
            digits: digits as u64,
            places,
            negative,
        })
    }
}
