// SPDX-License-Identifier: Apache-2.0
// Counts of patterns as they are written.
ghost use Rattle.std.specs.Prelude.{◌≡◌, ◌+◌, ◌-◌, ◌*◌, ◌<◌, ◌≤◌, nat_lt, take, length, option_map};
ghost use Rattle.mspec.specs.Literal.{digits_after};
ghost use Rattle.mgrammar.specs.Matching.{bound_of, most_of, count_of as plain_count};
ghost use Rattle.mspec.specs.PatternTests.{is_reversed};
ghost use Rattle.mtext.specs.PatternPlaces.{count_of};
ghost use Rattle.mtree.specs.CappedCounts.{capped, capped_count};

use mnum::Bytes7;
use std::marker::Model;

// A number that is this far below another stays so, whatever digits follow: nine times this is the most that a byte can stand for
// as a digit.
const EVEN: usize = 23;

/// How often an atom of a pattern repeats, as it is written: digits, and a point with the digits after it. Its numbers are read
/// once, however often a text is matched. Contracts see it as its digits.
#[derive(Drop)]
pub struct Count {
    front: Bytes7,
    behind: Option<Bytes7>,
    number: mtext::Count,
    reversed: bool,
}

impl Model for Count {
    ghost use Rattle.mgrammar.specs.Grammar.{CountTree};
    ghost use Rattle.mtree.specs.CappedCounts.{IsRead};

    ghost Value = { CountTree };

    ghost view = { λ count. record { front = count.front; behind = count.behind } };

    ghost invariant = { λ count. IsRead (record { front = count.front; behind = count.behind }) count.number count.reversed };
}

// The number that digits write, or the machine's greatest if it has none so large. The count of a text has four digits at most;
// a tree may have more.
fn number(digits: &[u8]) -> usize
    ensures { result ≡ capped (digits_after 0 digits.now) }
{
    let mut number: usize = 0;
    for digit in digits {
        let value = digit.saturating_sub(b'0') as usize;
        number = number.saturating_mul(10).saturating_add(value);
    }
    number
}

// The number that digits write, if there are any.
fn bound(digits: &[u8]) -> Option<usize>
    ensures { result ≡ option_map capped (bound_of digits.now) }
{
    if digits.is_empty() {
        return None;
    }
    Some(number(digits))
}

// The greatest number, if there is one.
fn most(front: &[u8], behind: &Option<Bytes7>) -> Option<usize>
    ensures { result ≡ option_map capped (most_of front.now behind.now) }
{
    match behind {
        None => bound(front),
        Some(behind) => bound(behind.as_bytes()),
    }
}

// The value of the digit at a place, of digits with `before` places in front of them, in which each digit is 0.
fn digit_at(digits: &[u8], before: usize, place: usize) -> usize
    requires { place < before + length digits.now }
    ensures value { digits_after 0 (take (place + 1 - before) digits.now) ≡ digits_after 0 (take (place - before) digits.now) * 10 + result }
    ensures small { result ≤ 207 }
{
    if place < before {
        return 0;
    }
    digits[place - before].saturating_sub(b'0') as usize
}

// Whether the number that digits write is below that of others, however large the two are.
fn is_below(digits: &[u8], others: &[u8]) -> bool
    ensures { result ≡ nat_lt (digits_after 0 digits.now) (digits_after 0 others.now) }
{
    let width = digits.len().max(others.len());
    let before = width - digits.len();
    let others_before = width - others.len();
    // how much the number of the digits so far is above that of the others, counted from EVEN and kept from 0 to twice EVEN
    let mut lead = EVEN;
    for place in 0..width {
        let digit = digit_at(digits, before, place);
        let other = digit_at(others, others_before, place);
        lead = (lead * 10 + digit)
            .saturating_sub(9 * EVEN + other)
            .min(2 * EVEN);
    }
    lead < EVEN
}

// Whether the greatest number is below the least.
fn is_reversed(front: &[u8], behind: &Option<Bytes7>) -> bool
    ensures { result ≡ is_reversed (plain_count (record { front = front.now; behind = behind.now })) }
{
    match behind {
        None => false,
        Some(most) => !most.as_bytes().is_empty() && is_below(most.as_bytes(), front),
    }
}

impl Count {
    /// The count that is written so. Takes no memory.
    pub fn new(front: Bytes7, behind: Option<Bytes7>) -> Count
        ensures { result ≡ record { front = front; behind = behind } }
    {
        let number = mtext::Count {
            least: number(front.as_bytes()),
            most: most(front.as_bytes(), &behind),
        };
        let reversed = is_reversed(front.as_bytes(), &behind);
        Count {
            front,
            behind,
            number,
            reversed,
        }
    }

    /// The digits in front of the point. Takes no memory.
    pub fn as_front(&self) -> &Bytes7
        ensures { result.now ≡ self.now.front }
    {
        &self.front
    }

    /// The digits after the point, if there is one. Takes no memory.
    pub fn as_behind(&self) -> &Option<Bytes7>
        ensures { result.now ≡ self.now.behind }
    {
        &self.behind
    }

    /// The numbers; for one past the machine's greatest number, that greatest number. Takes no memory.
    #[inline]
    pub fn number(&self) -> mtext::Count
        ensures { count_of result ≡ capped_count (plain_count self.now) }
    {
        self.number
    }

    /// Whether the greatest number is below the least, however large the two are. Takes no memory.
    #[inline]
    pub fn is_reversed(&self) -> bool
        ensures { result ≡ is_reversed (plain_count self.now) }
    {
        self.reversed
    }
}
