// SPDX-License-Identifier: Apache-2.0
// Numbers, and why an operation on them has no result.
ghost use Rattle.std.specs.Prelude.{◌^◌, ◌<◌, ◌≤◌};

/// A number of the language: a whole count of units of 10^-18, below 10^18 in size, with at most eighteen significant
/// digits. Contracts see it as that count, `units`. Numbers are compared by `cmp`; there is no `==`, since one number has
/// several representations.
#[derive(Clone, Copy)]
pub struct Num {
    // `digits` units of 10 ^ -places, negated if `negative` says so
    pub(crate) digits: u64,
    pub(crate) places: u32,
    pub(crate) negative: bool,
    ghost digits_below: { digits < 10 ^ 18 },
    ghost places_at_most: { places ≤ 18 },
}

/// The result would be 10^18 or more in size.
#[derive(Clone, Copy, PartialEq, Eq)]
pub struct Over;

/// Why a division has no result.
#[derive(Clone, Copy, PartialEq, Eq)]
pub enum ArithFault {
    /// The divisor is zero.
    Zero,
    /// The result would be 10^18 or more in size.
    Over,
}
