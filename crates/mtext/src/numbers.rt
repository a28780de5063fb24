// SPDX-License-Identifier: Apache-2.0
// The texts that functions make of numbers, each of at most 4,095 characters.
ghost use Rattle.std.specs.Prelude.{◌≡◌, ◌<◌, ◌≤◌, ◌∷◌, ◌++◌, ◌^◌, All, length, replicate, IfOk, OnOk};
ghost use Rattle.mspec.specs.NumberFormats.{justify_number, format_number, formatted, grouped, before_digits, behind_digits, whole_digits};
ghost use Rattle.mspec.specs.TextFunctions.{made};
ghost use Rattle.mnum.specs.Num.{units};
ghost use Rattle.mtext.specs.Made.{Answers, comma_before};

use crate::fault::{TextFault, check_length};
use crate::formats::{before_digits, behind_digits, has_commas, is_conflict, is_format};
use crate::making::spaces;
use crate::places::end_at;
use mnum::{Bytes7, Num};
use std::alloc::{AllocError, Global};

/// Appends this many zeros.
fn push_zeros(out: &mut Bytes7, count: usize) -> Result<(), AllocError>
    ensures { OnOk result (out.new ≡ out.old ++ replicate count 48) }
{
    for _ in 0..count {
        out.push(b'0')?;
    }
    Ok(())
}

/// $JUSTIFY with three arguments: the number rounded to `places` after the point, with all of these and a digit before the point, and
/// with spaces before it, up to `width` characters.
///
/// # Errors
///
/// `Arg` exactly if `places` is below 0; otherwise `TooLong` exactly if the result would have more than 4,095 characters; otherwise
/// `Memory`, if there is none.
pub fn justify_number(
    alloc: Global,
    number: Num,
    width: i64,
    places: i64,
) -> Result<Bytes7, TextFault>
    ensures { Answers (justify_number (units number) width places) result }
{
    if places < 0 {
        return Err(TextFault::Arg);
    }
    let (front, zeros) = number.to_places(places as usize).fixed(places as usize);
    let length = front.len() + zeros;
    let width = end_at(width);
    check_length(width.max(length))?;
    let mut out = spaces(alloc, width.saturating_sub(length))?;
    out.append(front.as_slice())?;
    push_zeros(&mut out, zeros)?;
    Ok(out)
}

/// Appends a digit, and a comma if the digits left after it are whole threes.
fn push_digit(out: &mut Bytes7, digit: u8, left: usize) -> Result<(), AllocError>
    requires { digit < 128 }
    ensures { OnOk result (out.new ≡ out.old ++ digit ∷ comma_before left) }
{
    out.push(digit)?;
    if left > 0 && left % 3 == 0 {
        return out.push(b',');
    }
    Ok(())
}

/// Appends digits with a comma before each third one from the right, but none in front.
fn push_grouped(out: &mut Bytes7, digits: &[u8]) -> Result<(), AllocError>
    requires { All (λ c. c < 128) digits.now }
    ensures { OnOk result (out.new ≡ out.old ++ grouped digits.now) }
{
    for (i, digit) in digits.iter().enumerate() {
        push_digit(out, *digit, digits.len() - i - 1)?;
    }
    Ok(())
}

/// Appends digits as a format has them.
fn push_digits(out: &mut Bytes7, format: &[u8], digits: &[u8]) -> Result<(), AllocError>
    requires { All (λ c. c < 128) digits.now }
    ensures { OnOk result (out.new ≡ out.old ++ whole_digits format.now digits.now) }
{
    if has_commas(format) {
        push_grouped(out, digits)
    } else {
        out.append(digits)
    }
}

/// How many characters digits have as a format has them.
#[tactic(auto, using(crate::proofs::FormatMarks::grouped_length))]
fn digits_length(format: &[u8], digits: &[u8]) -> usize
    requires { length digits.now ≤ 40 }
    ensures length { result ≡ length (whole_digits format.now digits.now) }
    ensures few { result ≤ 53 }
{
    if has_commas(format) {
        digits.len() + digits.len().saturating_sub(1) / 3
    } else {
        digits.len()
    }
}

/// The text of a number in a format, of the digits before its point, what follows, and this many zeros, as long as memory suffices.
fn written(
    alloc: Global,
    format: &[u8],
    number: Num,
    digits: &[u8],
    rest: &[u8],
    zeros: usize,
) -> Result<Bytes7, AllocError>
    requires digits { All (λ c. c < 128) digits.now }
    requires rest { All (λ c. c < 128) rest.now }
    ensures { IfOk result (λ text. text ≡ before_digits format.now (units number) ++ (whole_digits format.now digits.now ++
        ((rest.now ++ replicate zeros 48) ++ behind_digits format.now (units number)))) }
{
    let mut out = Bytes7::from_slice(alloc, before_digits(format, number))?;
    push_digits(&mut out, format, digits)?;
    out.append(rest)?;
    push_zeros(&mut out, zeros)?;
    out.append(behind_digits(format, number))?;
    Ok(out)
}

/// The same, unless the text is too long.
fn put_together(
    alloc: Global,
    format: &[u8],
    number: Num,
    digits: &[u8],
    rest: &[u8],
    zeros: usize,
) -> Result<Bytes7, TextFault>
    requires digits { All (λ c. c < 128) digits.now }
    requires rest { All (λ c. c < 128) rest.now }
    requires few_digits { length digits.now ≤ 40 }
    requires few { length rest.now ≤ 40 }
    requires room { zeros < 2 ^ 63 }
    ensures { Answers (made (before_digits format.now (units number) ++ (whole_digits format.now digits.now ++
        ((rest.now ++ replicate zeros 48) ++ behind_digits format.now (units number))))) result }
{
    let around = before_digits(format, number).len() + behind_digits(format, number).len();
    check_length(around + digits_length(format, digits) + rest.len() + zeros)?;
    Ok(written(alloc, format, number, digits, rest, zeros)?)
}

/// The same, unless the format is refused.
fn formatted(
    alloc: Global,
    format: &[u8],
    number: Num,
    digits: &[u8],
    rest: &[u8],
    zeros: usize,
) -> Result<Bytes7, TextFault>
    requires digits { All (λ c. c < 128) digits.now }
    requires rest { All (λ c. c < 128) rest.now }
    requires few_digits { length digits.now ≤ 40 }
    requires few { length rest.now ≤ 40 }
    requires room { zeros < 2 ^ 63 }
    ensures { Answers (formatted format.now (units number) digits.now (rest.now ++ replicate zeros 48)) result }
{
    if !is_format(format) {
        return Err(TextFault::Arg);
    }
    if is_conflict(format) {
        return Err(TextFault::Format);
    }
    put_together(alloc, format, number, digits, rest, zeros)
}

/// $FNUMBER: the canonical text of a number in a format, or the text with `places` digits after the point.
///
/// # Errors
///
/// `Arg` exactly if `places` is below 0, or the format has another character than `,`, `+`, `-`, `T` and `P`; otherwise `Format` exactly
/// if it has a `P` beside a `+`, `-` or `T`; otherwise `TooLong` exactly if the result would have more than 4,095 characters; otherwise
/// `Memory`, if there is none.
pub fn format_number(
    alloc: Global,
    number: Num,
    format: &Bytes7,
    places: Option<i64>,
) -> Result<Bytes7, TextFault>
    ensures { Answers (format_number (units number) format.now places) result }
{
    let letters = format.as_bytes();
    match places {
        None => {
            let digits = number.canonical_digits();
            let rest = number.canonical_rest();
            formatted(
                alloc,
                letters,
                number,
                digits.as_slice(),
                rest.as_slice(),
                0,
            )
        }
        Some(places) => {
            if places < 0 {
                return Err(TextFault::Arg);
            }
            let number = number.to_places(places as usize);
            let digits = number.fixed_digits();
            let (rest, zeros) = number.fixed_rest(places as usize);
            formatted(
                alloc,
                letters,
                number,
                digits.as_slice(),
                rest.as_slice(),
                zeros,
            )
        }
    }
}
