// SPDX-License-Identifier: Apache-2.0
// Subscripts read back as values: a number is read as it is, and no text of it is made.
ghost use Rattle.std.specs.Prelude.{◌∷◌, IfOk, MatchOption};
ghost use Rattle.mkey.specs.Front.{IsFront, IsFirst, BeginsWithNo, IsSub};
ghost use Rattle.mspec.specs.KeyBytes.{subscript_bytes};
ghost use Rattle.mspec.specs.Number.{significant_digits};

use crate::decoding::{DIGITS, front_number, read_letters};
use crate::encoding::NUMBER_ROOM;
use mvalue::Value;
use std::alloc::{AllocError, Global};

// The subscript that bytes with the tag 1 in front begin with, and how many of them are its own.
#[inline]
#[tactic(auto, using(crate::proofs::NumericValues::number_front, crate::proofs::NumericValues::number_is_sub))]
fn numeric_value(bytes: &[u8]) -> Option<(Value, usize)>
    ensures { MatchOption result
        (BeginsWithNo IsSub (subscript_bytes significant_digits) (1 ∷ bytes.now))
        (λ part. IsFront (1 ∷ bytes.now) (subscript_bytes significant_digits part.0) part.1 × IsSub part.0) }
{
    match front_number(bytes) {
        None => None,
        Some(number) => Some((Value::of_number(number), NUMBER_ROOM)),
    }
}

// The same with the tag 2 in front.
fn letters_value(alloc: Global, bytes: &[u8]) -> Result<Option<(Value, usize)>, AllocError>
    ensures { IfOk result (λ found. MatchOption found
        (BeginsWithNo IsSub (subscript_bytes significant_digits) (2 ∷ bytes.now))
        (λ part. IsFront (2 ∷ bytes.now) (subscript_bytes significant_digits part.0) part.1 × IsSub part.0)) }
{
    match read_letters(alloc, bytes, DIGITS)? {
        None => Ok(None),
        Some((text, count)) => Ok(Some((Value::of_text(text), count))),
    }
}

// The subscript that the bytes begin with, and how many of them are its own.
#[inline]
pub fn read_value(alloc: Global, bytes: &[u8]) -> Result<Option<(Value, usize)>, AllocError>
    ensures { IfOk result (λ found. MatchOption found
        (BeginsWithNo IsSub (subscript_bytes significant_digits) bytes.now)
        (λ part. IsFront bytes.now (subscript_bytes significant_digits part.0) part.1 × IsSub part.0)) }
{
    match bytes {
        [1, rest @ ..] => Ok(numeric_value(rest)),
        [2, rest @ ..] => letters_value(alloc, rest),
        _ => Ok(None),
    }
}

// The subscript that the bytes begin with, if they begin with one.
#[inline]
pub fn first_value(alloc: Global, bytes: &[u8]) -> Result<Option<Value>, AllocError>
    ensures { IfOk result (λ found. MatchOption found
        (BeginsWithNo IsSub (subscript_bytes significant_digits) bytes.now)
        (IsFirst bytes.now)) }
{
    match read_value(alloc, bytes)? {
        None => Ok(None),
        Some((value, _)) => Ok(Some(value)),
    }
}
