// SPDX-License-Identifier: Apache-2.0
// Characters and their codes.
ghost use Rattle.std.specs.Prelude.{◌≡◌, ◌^◌, ◌<◌, unsigned_abs, length, IfErr, OnOk};
ghost use Rattle.moperator.specs.Codes.{fault_of};
ghost use Rattle.moperator.specs.Outcomes.{IsDone};
ghost use Rattle.mspec.specs.CharacterFunctions.{ascii_of, char_of, character_of, is_over_ascii};
ghost use Rattle.mspec.specs.Code as spec;
ghost use Rattle.mgrammar.specs.Functions.{char_function};
ghost use Rattle.mmeaning.specs.Functions.{function_value};
ghost use Rattle.mmeaning.specs.Operators.{outcome};
ghost use Rattle.mmeaning.specs.Yields.{Yields, YieldsFault};

use crate::code::Code;
use crate::conversions::whole_of;
use mnum::Bytes7;
use mspec::limits::MAX_TEXT;
use mvalue::Value;
use std::alloc::Global;

// The code of the character at a place, which is 1 if it is left out; -1 if there is none.
pub(crate) fn code_at(text: &[u8], place: Option<i64>) -> i64
    ensures code { result ≡ ascii_of text.now place }
    ensures below { unsigned_abs result < 10 ^ 18 }
{
    let place = place.unwrap_or(1);
    if place < 1 {
        return -1;
    }
    match text.get((place - 1) as usize) {
        None => -1,
        Some(byte) => *byte as i64,
    }
}

// Whether a code is above those of characters.
fn is_over_ascii(code: i64) -> bool
    ensures { result ≡ is_over_ascii code }
{
    code > 127
}

// How many characters a code gives: none if it is below 0.
fn character_count(code: i64) -> usize
    ensures { result ≡ length (character_of code) }
{
    if code < 0 { 0 } else { 1 }
}

// Finds what $CHAR is refused for, before memory is asked for: an argument that is too large a number, a code over 127, or more
// characters than a text has.
pub(crate) fn refuse_characters(arguments: &[Value]) -> Result<(), Code>
    ensures refused { IfErr result (λ code. YieldsFault (function_value char_function arguments.now) (fault_of code)) }
    ensures allowed { OnOk result (IsDone (function_value char_function arguments.now)) }
    ensures own { IfErr result (λ code. (own : spec.Code) × (fault_of code ≡ spec.Own own)) }
{
    let mut is_over = false;
    let mut count = 0;
    for argument in arguments {
        let code = whole_of(argument)?;
        is_over = is_over | is_over_ascii(code);
        count += character_count(code);
    }
    if is_over {
        return Err(Code::Zchar);
    }
    if count > MAX_TEXT {
        return Err(Code::Zlong);
    }
    Ok(())
}

// The characters of some codes; a code below 0 gives none.
pub(crate) fn characters(alloc: Global, codes: &[i64]) -> Result<Value, Code>
    ensures { Yields fault_of (outcome (char_of codes.now)) (λ value. value) result }
{
    let mut text = Bytes7::empty(alloc);
    for code in codes {
        if *code > 127 {
            return Err(Code::Zchar);
        }
        if *code >= 0 {
            text.push(*code as u8)?;
        }
    }
    if text.as_bytes().len() > MAX_TEXT {
        return Err(Code::Zlong);
    }
    Ok(Value::of_text(text))
}
