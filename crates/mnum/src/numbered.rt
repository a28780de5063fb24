// SPDX-License-Identifier: Apache-2.0
// What an operation gives: a rounded size with its sign, or that there is none.
ghost use Rattle.std.specs.Prelude.{◌≡◌, Some, None, MatchResult, option_map};
ghost use Rattle.mnum.specs.Num.{units};
ghost use Rattle.mnum.specs.Size.{size_units};
ghost use Rattle.mspec.specs.Number.{signed};

use crate::num::{ArithFault, Num, Over};
use crate::size::Size;

// The number of that size, negated if `negative` says so, or Over if there is no size.
pub fn numbered(size: Option<Size>, negative: bool) -> Result<Num, Over>
    ensures { let number = option_map (signed negative) (option_map size_units size) in
        MatchResult result (λ n. number ≡ Some (units n)) (λ _. number ≡ None) }
{
    match size {
        Some(size) => Ok(Num {
            digits: size.digits,
            places: size.places,
            negative,
        }),
        None => Err(Over),
    }
}

// The same for a division whose divisor is not zero.
pub fn divided(size: Option<Size>, negative: bool) -> Result<Num, ArithFault>
    ensures { let number = option_map (signed negative) (option_map size_units size) in
        MatchResult result (λ n. number ≡ Some (units n)) (λ e. (e ≡ ArithFault.Over) × (number ≡ None)) }
{
    match numbered(size, negative) {
        Ok(number) => Ok(number),
        Err(Over) => Err(ArithFault::Over),
    }
}
