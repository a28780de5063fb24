// SPDX-License-Identifier: Apache-2.0
// Numbers.
ghost use Rattle.std.specs.Prelude.{◌≡◌, ◌<◌, All};
ghost use Rattle.mgrammar.specs.ReadingWords.{one_sign, after_sign, with_point, with_exponent, number_at};
ghost use Rattle.mscan.specs.Gives.{Gives};

use crate::fault::ParseFault;
use crate::runs::{Class, run};
use mnum::Bytes7;
use std::alloc::Global;

// Adds the point and the digits after it that the text begins with, if it does, and gives what follows.
#[tactic(auto, unfolding(mgrammar::specs::ReadingWords::point_at))]
fn fraction<'a>(bytes: &'a [u8], number: &mut Bytes7) -> Result<&'a [u8], ParseFault>
    ensures { Gives (λ rest. (number.new, rest.now)) result (with_point number.old bytes.now) }
{
    let Some((b'.', behind)) = bytes.split_first() else {
        return Ok(bytes);
    };
    let (digits, rest) = run(Class::Digit, behind);
    if digits.is_empty() {
        return Ok(bytes);
    }
    number.push(b'.')?;
    number.append(digits)?;
    Ok(rest)
}

// A sign or nothing, and what follows it.
fn sign(bytes: &[u8]) -> (&[u8], &[u8])
    ensures sign { result.0.now ≡ one_sign bytes.now }
    ensures rest { result.1.now ≡ after_sign bytes.now }
    ensures seven_bits { All (λ c. c < 128) result.0.now }
{
    match bytes.first() {
        Some(b'+' | b'-') => bytes.split_at(1),
        _ => (&[], bytes),
    }
}

// Adds the exponent that the text begins with, if it does, and gives what follows.
#[tactic(auto, unfolding(mgrammar::specs::ReadingWords::exponent_at))]
fn exponent<'a>(bytes: &'a [u8], number: &mut Bytes7) -> Result<&'a [u8], ParseFault>
    ensures { Gives (λ rest. (number.new, rest.now)) result (with_exponent number.old bytes.now) }
{
    let Some((b'E', behind)) = bytes.split_first() else {
        return Ok(bytes);
    };
    let (sign, behind) = sign(behind);
    let (power, rest) = run(Class::Digit, behind);
    if power.is_empty() {
        return Ok(bytes);
    }
    number.push(b'E')?;
    number.append(sign)?;
    number.append(power)?;
    Ok(rest)
}

/// The longest number that the text begins with, and what follows it. `Syntax` if it begins with none, `Memory` if it runs out of memory.
#[tactic(auto, unfolding(mgrammar::specs::ReadingWords::number_at))]
pub fn number(alloc: Global, bytes: &[u8]) -> Result<(Bytes7, &[u8]), ParseFault>
    ensures { Gives (λ x. (x.0, x.1.now)) result (number_at bytes.now) }
{
    let (digits, rest) = run(Class::Digit, bytes);
    let mut number = Bytes7::from_slice(alloc, digits)?;
    let rest = fraction(rest, &mut number)?;
    if number.as_bytes().is_empty() {
        return Err(ParseFault::Syntax);
    }
    let rest = exponent(rest, &mut number)?;
    Ok((number, rest))
}
