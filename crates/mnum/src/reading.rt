// SPDX-License-Identifier: Apache-2.0
// Numbers read from texts.
ghost use Rattle.std.specs.Prelude.{◌≡◌, ℕ, ◌+◌, ◌-◌, ◌*◌, ◌/◌, ◌^◌, ◌<◌, ◌≤◌, ◌⊎◌, length, take_while, option_map, cond, drop, Some, None, IfSome, IfNone};
ghost use Rattle.std.specs.Prelude.{OnSome, MatchResult, All, true};
ghost use Rattle.std.specs.List.{prefix_len};
ghost use Rattle.mnum.specs.Head.{IsHead, IsCapped};
ghost use Rattle.mnum.specs.Num.{units};
ghost use Rattle.mnum.specs.Size.{size_units};
ghost use Rattle.mspec.specs.Literal.{is_digit, digits_after};
ghost use Rattle.mspec.specs.Number.{round_size, significant_digits};
ghost use Rattle.mspec.specs.NumberText.{front_digits, fraction_digits, after_fraction, front_exponent, is_sign, is_negated, literal_size, numeric_value};

use crate::num::{Num, Over};
use crate::numbered::numbered;
use crate::powers::power;
use crate::rounding::rounded;
use crate::size::Size;

// The first digits of a number, without leading zeros, and how many digits follow them.
#[derive(Clone, Copy)]
pub struct Head {
    pub digits: u64,
    pub dropped: usize,
}

fn is_decimal(c: u8) -> bool
    ensures { result ≡ is_digit c }
{
    c.is_ascii_digit()
}

// Goes on with the digits that the text begins with, and says how many there are.
pub fn read_digits(head: Head, text: &[u8]) -> (Head, usize)
    requires few { head.digits < 10 ^ 19 }
    requires room { head.dropped + length text.now < 2 ^ 64 }
    ensures count { result.1 ≡ prefix_len is_digit text.now }
    ensures room { result.1 ≤ length text.now }
    ensures few { result.0.digits < 10 ^ 19 }
    ensures dropped { result.0.dropped ≤ head.dropped + result.1 }
    ensures value { (number : ℕ) → IsHead head.digits head.dropped number → IsHead result.0.digits result.0.dropped (digits_after number
        (front_digits text.now)) }
{
    let mut head = head;
    for (i, c) in text.iter().enumerate() {
        if !is_decimal(*c) {
            return (head, i);
        }
        if head.digits < 1_000_000_000_000_000_000 {
            head.digits = head.digits * 10 + (*c - 48) as u64;
        } else {
            head.dropped += 1;
        }
    }
    (head, text.len())
}

// The number that the text's first digits write, or some number from 10 ^ 20 on if that one is so large too.
#[tactic(auto, using(crate::proofs::Scans::front_is))]
fn read_capped(text: &[u8]) -> u128
    ensures below { result < 10 ^ 21 }
    ensures value { IsCapped result (digits_after 0 (front_digits text.now)) }
{
    let mut number: u128 = 0;
    for c in text {
        if !is_decimal(*c) {
            return number;
        }
        if number < 100_000_000_000_000_000_000 {
            number = number * 10 + (*c - 48) as u128;
        }
    }
    number
}

// The exponent that the text begins with after its mark: whether it is negative, and its size.
fn read_exponent(text: &[u8]) -> (bool, u128)
    ensures below { result.1 < 10 ^ 21 }
    ensures sign { result.0 ≡ (front_exponent text.now).0 }
    ensures value { IsCapped result.1 (front_exponent text.now).1 }
{
    if text.len() == 0 || text[0] != b'E' {
        return (false, 0);
    }
    let after = &text[1..];
    if after.len() == 0 {
        return (false, 0);
    }
    if after[0] == b'-' {
        return (true, read_capped(&after[1..]));
    }
    if after[0] == b'+' {
        return (false, read_capped(&after[1..]));
    }
    (false, read_capped(after))
}

// The size of a number, `raise` powers of ten up and `lower` down, rounded to `kept` digits.
fn scaled(head: Head, raise: u128, lower: u128, kept: u32) -> Option<Size>
    requires some_kept { 0 < kept }
    requires kept_at_most { kept ≤ 18 }
    requires few { head.digits < 10 ^ 19 }
    requires short { head.dropped < 2 ^ 64 }
    requires raise_below { raise < 10 ^ 21 }
    requires one_way { (raise ≡ 0) ⊎ (lower < 2 ^ 64) }
    ensures { (number a down : ℕ) → IsHead head.digits head.dropped number → IsCapped raise a → IsCapped lower down →
        option_map size_units result ≡ round_size kept (number * 10 ^ a) (10 ^ down) }
{
    if head.digits == 0 {
        return Some(Size {
            digits: 0,
            places: 0,
        });
    }
    let up = head.dropped as u128 + raise;
    if up > lower {
        let more = up - lower;
        if head.dropped > 0 || more > 18 {
            return None;
        }
        rounded(head.digits as u128 * power(more as u32), 0, kept)
    } else {
        let places = lower - up;
        if places > 38 {
            return Some(Size {
                digits: 0,
                places: 0,
            });
        }
        rounded(head.digits as u128, places as u32, kept)
    }
}

// Goes on with the digits of a fraction, if the text begins with a point.
fn read_fraction(head: Head, text: &[u8]) -> (Head, usize)
    requires few { head.digits < 10 ^ 19 }
    requires room { head.dropped + length text.now < 2 ^ 64 }
    ensures count { result.1 ≡ length (fraction_digits text.now) }
    ensures few { result.0.digits < 10 ^ 19 }
    ensures dropped { result.0.dropped ≤ head.dropped + result.1 }
    ensures room { result.1 ≤ length text.now }
    ensures value { (number : ℕ) → IsHead head.digits head.dropped number → IsHead result.0.digits result.0.dropped (digits_after number
        (fraction_digits text.now)) }
{
    if text.len() == 0 || text[0] != b'.' {
        return (head, 0);
    }
    read_digits(head, &text[1..])
}

// What follows a fraction of `fraction` digits.
fn tail_of(text: &[u8], fraction: usize) -> &[u8]
    requires { fraction ≡ length (fraction_digits text.now) }
    ensures { result.now ≡ after_fraction text.now }
{
    if fraction == 0 {
        text
    } else {
        &text[1 + fraction..]
    }
}

// What follows the first `count` bytes.
fn rest_of(text: &[u8], count: usize) -> &[u8]
    requires { count ≤ length text.now }
    ensures { result.now ≡ drop count text.now }
{
    &text[count..]
}

// The size of the number that the text begins with.
fn read_literal(text: &[u8], kept: u32) -> Option<Size>
    requires some_kept { 0 < kept }
    requires kept_at_most { kept ≤ 18 }
    ensures { option_map size_units result ≡ literal_size kept text.now }
{
    let (front, count) = read_digits(
        Head {
            digits: 0,
            dropped: 0,
        },
        text,
    );
    let rest = rest_of(text, count);
    let (head, fraction) = read_fraction(front, rest);
    let (down, size) = read_exponent(tail_of(rest, fraction));
    if down {
        scaled(head, 0, fraction as u128 + size, kept)
    } else {
        scaled(head, size, fraction as u128, kept)
    }
}

// How many signs the text begins with, and whether they negate.
#[tactic(auto, using(crate::proofs::LiteralLaws::signs_is, crate::proofs::LiteralLaws::signs_stop))]
fn read_signs(text: &[u8]) -> (bool, usize)
    ensures negated { result.0 ≡ is_negated text.now }
    ensures count { result.1 ≡ prefix_len is_sign text.now }
    ensures room { result.1 ≤ length text.now }
{
    let mut negated = false;
    for (i, c) in text.iter().enumerate() {
        if *c == b'-' {
            negated = !negated;
        } else if *c != b'+' {
            return (negated, i);
        }
    }
    (negated, text.len())
}

/// The number that the text writes, or None exactly if it is not at most eighteen digits and nothing else: the short way for
/// small whole numbers. Takes no memory.
pub fn short_whole(text: &[u8]) -> Option<u64>
    ensures some { IfSome result (λ n. (n < 10 ^ 18) × (n ≡ digits_after 0 text.now) × All (λ c. is_digit c ≡ true) text.now) }
    ensures short { OnSome result (length text.now ≤ 18) }
    ensures none { IfNone result (All (λ c. is_digit c ≡ true) text.now → 18 < length text.now) }
{
    if text.len() > 18 {
        return None;
    }
    let mut number: u64 = 0;
    for c in text {
        if !is_decimal(*c) {
            return None;
        }
        number = number * 10 + (*c - b'0') as u64;
    }
    Some(number)
}

// The numeric value of a text, rounded to `kept` digits.
#[tactic(auto, using(crate::proofs::LiteralLaws::value_is, crate::proofs::Outcomes::same_number))]
pub fn value_of(text: &[u8], kept: u32) -> Result<Num, Over>
    requires some_kept { 0 < kept }
    requires kept_at_most { kept ≤ 18 }
    ensures { MatchResult result (λ n. numeric_value kept text.now ≡ Some (units n)) (λ _. numeric_value kept text.now ≡ None) }
{
    let (negative, signs) = read_signs(text);
    numbered(read_literal(rest_of(text, signs), kept), negative)
}

impl Num {
    /// The numeric value of a text of any bytes: its signs are taken off, each `-` negating, and the longest numeric
    /// literal that it then begins with is rounded; 0 if it begins with none. Time is linear in its length.
    ///
    /// # Errors
    ///
    /// `Over` exactly if the value reaches 10^18 in size, before or after rounding.
    #[tactic(auto, using(mspec::proofs::WholeTexts::value_of_digits))]
    pub fn from_text(text: &[u8]) -> Result<Num, Over>
        ensures { MatchResult result (λ n. numeric_value significant_digits text.now ≡ Some (units n)) (λ _. numeric_value significant_digits text.now ≡ None) }
    {
        match short_whole(text) {
            Some(digits) => Ok(Num {
                digits,
                places: 0,
                negative: false,
            }),
            None => value_of(text, 18),
        }
    }
}
