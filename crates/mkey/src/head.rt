// SPDX-License-Identifier: Apache-2.0
// The first bytes of a key as a number, by which most keys are distinguished.
ghost use Rattle.std.specs.Prelude.{◌≡◌, ◌<◌, ◌^◌, drop};
ghost use Rattle.std.specs.Ordering.{nat_cmp};
ghost use Rattle.mkey.specs.Head.{head_number};

use crate::decoding::behind;
use crate::order::{WORD_BYTES, first_word};
use std::cmp::Ordering;
use std::marker::Model;

// The bytes of half a head.
const HALF_BYTES: usize = 16;

// The first thirty-two bytes, followed by zeros if there are fewer: all that two subscripts that are numbers have, except for the
// last digits of the second. Contracts see the number that they are.
#[derive(Drop)]
pub struct Head {
    front: Half,
    back: Half,
}

impl Model for Head {
    ghost use Rattle.std.specs.Prelude.{ℕ, ◌+◌, ◌*◌, ◌^◌, ◌<◌};

    ghost Value = { ℕ };

    ghost view = { λ head. head.front * 256 ^ 16 + head.back };

    ghost invariant = { λ head. head.back < 256 ^ 16 };
}

impl Head {
    // The head of these bytes.
    pub fn of(bytes: &[u8]) -> Head
        ensures { result ≡ head_number 32 bytes.now }
    {
        Head {
            front: Half::of(bytes),
            back: back_half(bytes),
        }
    }

    // The order of the two numbers.
    pub fn order(&self, other: &Head) -> Ordering
        ensures { result ≡ nat_cmp self.now other.now }
    {
        let order = self.front.order(&other.front);
        if order.is_ne() {
            return order;
        }
        self.back.order(&other.back)
    }
}

// Sixteen bytes as a number. It is held as two words, since a number of sixteen bytes would be placed at a multiple of sixteen,
// which leaves a gap in each key.
#[derive(Drop)]
struct Half {
    high: u64,
    low: u64,
}

impl Model for Half {
    ghost use Rattle.std.specs.Prelude.{ℕ, ◌+◌, ◌*◌, ◌^◌, ◌<◌};

    ghost Value = { ℕ };

    ghost view = { λ half. half.high * 256 ^ 8 + half.low };

    ghost invariant = { λ half. half.low < 256 ^ 8 };
}

impl Half {
    // The number that the first sixteen of these bytes are.
    fn of(bytes: &[u8]) -> Half
        ensures { result ≡ head_number 16 bytes.now }
    {
        Half {
            high: word(bytes),
            low: second_word(bytes),
        }
    }

    // The order of the two numbers.
    fn order(&self, other: &Half) -> Ordering
        ensures { result ≡ nat_cmp self.now other.now }
    {
        let order = self.high.cmp(&other.high);
        if order.is_ne() {
            return order;
        }
        self.low.cmp(&other.low)
    }
}

// The number that the first eight bytes are, followed by zeros if there are fewer.
#[tactic(auto, using(std::proofs::lemmas::List::nil_from_length, crate::proofs::Heads::head_nil))]
fn word(bytes: &[u8]) -> u64
    ensures { result ≡ head_number 8 bytes.now }
{
    if bytes.is_empty() {
        return 0;
    }
    if bytes.len() >= WORD_BYTES {
        return first_word(bytes);
    }
    short_word(bytes)
}

// The same, a byte at a time, for fewer than eight.
#[tactic(auto, using(crate::proofs::Heads::head_none, crate::proofs::Heads::head_more))]
fn short_word(bytes: &[u8]) -> u64
    ensures { result ≡ head_number 8 bytes.now }
{
    let mut number = 0;
    for place in 0..WORD_BYTES {
        number = number * 256 + bytes.get(place).copied().unwrap_or(0) as u64;
    }
    number
}

// The same number for the bytes after the first eight.
fn second_word(bytes: &[u8]) -> u64
    ensures { result ≡ head_number 8 (drop 8 bytes.now) }
{
    if bytes.len() <= WORD_BYTES {
        return 0;
    }
    word(behind(bytes, WORD_BYTES))
}

// The half for the bytes after the first sixteen.
fn back_half(bytes: &[u8]) -> Half
    ensures { result ≡ head_number 16 (drop 16 bytes.now) }
{
    if bytes.len() <= HALF_BYTES {
        return Half { high: 0, low: 0 };
    }
    Half::of(behind(bytes, HALF_BYTES))
}
