// SPDX-License-Identifier: Apache-2.0
// Rounding of exact fractions.
ghost use Rattle.std.specs.Prelude.{◌≡◌, ℕ, ◌+◌, ◌-◌, ◌*◌, ◌⊎◌, ◌^◌, ◌<◌, ◌≤◌, option_map, MatchOption};
ghost use Rattle.mnum.specs.Floor.{IsFloor, IsFine};
ghost use Rattle.mnum.specs.Size.{size_units};
ghost use Rattle.mspec.specs.Number.{round_size};

use crate::powers::power;
use crate::size::Size;

// How many of the last digits of n to drop, so that `kept` digits stay, and at most 18 places.
fn excess(n: u128, places: u32, kept: u32) -> u32
    requires some_kept { 0 < kept }
    requires kept_at_most { kept ≤ 18 }
    requires n_below { n < 10 ^ 38 }
    requires places_at_most { places ≤ 38 }
    ensures near { places ≤ result + 18 }
    ensures high { n < 10 ^ (kept + result) }
    ensures room { kept + result ≤ 38 }
    ensures low { (result ≡ places - 18) ⊎ ((places < result + 18) × (0 < result) × (10 ^ (kept + result - 1) ≤ n)) }
{
    let mut dropped = if places > 18 { places - 18 } else { 0 };
    while kept + dropped < 38 && n >= power(kept + dropped) {
        dropped += 1;
    }
    dropped
}

// Digits with `zeros` zeros after them, if they are below 10^18 then.
fn with_zeros(digits: u128, zeros: u32) -> Option<Size>
    requires few { zeros ≤ 18 }
    requires near { digits * 10 ^ zeros ≤ 10 ^ 18 }
    ensures { MatchOption result (10 ^ 18 ≤ digits * 10 ^ zeros) (λ size. (digits * 10 ^ zeros < 10 ^ 18) × (size_units size ≡ digits * 10 ^ zeros * 10 ^ 18)) }
{
    let all = digits * power(zeros);
    if all < 1_000_000_000_000_000_000 {
        Some(Size {
            digits: all as u64,
            places: 0,
        })
    } else {
        None
    }
}

// A fraction whose first digits are n, of which `places` come after the point, rounded to `kept` digits.
pub fn rounded(n: u128, places: u32, kept: u32) -> Option<Size>
    requires some_kept { 0 < kept }
    requires kept_at_most { kept ≤ 18 }
    requires n_below { n < 10 ^ 38 }
    requires places_at_most { places ≤ 38 }
    ensures { (p q : ℕ) → 0 < q → IsFloor n places p q → IsFine kept n places p q →
        option_map size_units result ≡ round_size kept p q }
{
    let dropped = excess(n, places, kept);
    if dropped == 0 {
        return Some(Size {
            digits: n as u64,
            places,
        });
    }
    let ten = power(dropped);
    let digits = (n + ten / 2) / ten;
    if dropped <= places {
        let left = places - dropped;
        if digits < 1_000_000_000_000_000_000 {
            Some(Size {
                digits: digits as u64,
                places: left,
            })
        } else if left == 0 {
            None
        } else {
            Some(Size {
                digits: 100_000_000_000_000_000,
                places: left - 1,
            })
        }
    } else {
        let zeros = dropped - places;
        if kept + zeros > 18 {
            return None;
        }
        with_zeros(digits, zeros)
    }
}
