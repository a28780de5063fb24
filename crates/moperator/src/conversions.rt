// SPDX-License-Identifier: Apache-2.0
// Values as numbers, truths and whole numbers, with the code if the number is too large.
ghost use Rattle.std.specs.Prelude.{◌≡◌, ◌^◌, ◌<◌, ℕ, List, Result, Err, unsigned_abs, IsErrAnd, IfOk, IfErr};
ghost use Rattle.mspec.specs.Code as spec;
ghost use Rattle.mmeaning.specs.Operators.{as_number, as_truth, outcome};
ghost use Rattle.mmeaning.specs.Functions.{as_whole};
ghost use Rattle.mmeaning.specs.Yields.{Yields};
ghost use Rattle.mnum.specs.Num.{units};
ghost use Rattle.mtext.specs.Made.{Answers};
ghost use Rattle.moperator.specs.Codes.{fault_of};
ghost use Rattle.moperator.specs.declared.code.Code.TheVariants.{Zover};

use crate::code::Code;
use mnum::{Bytes7, Num};
use mtext::TextFault;
use mvalue::{Kind, Value};

/// The number that a value stands for. Takes no memory.
///
/// # Errors
///
/// `Zover` if the number is too large.
#[inline(always)]
pub fn number_of(value: &Value) -> Result<Num, Code>
    ensures number { Yields fault_of (as_number value.now) units result }
    ensures over { IfErr result (λ code. code ≡ Zover) }
{
    match value.kind() {
        Kind::Number(number) => Ok(*number),
        Kind::Text(text) => text_number(text),
    }
}

// The number that a text stands for. It is kept out of line, since most values are numbers already.
#[inline(never)]
fn text_number(text: &Bytes7) -> Result<Num, Code>
    ensures number { Yields fault_of (as_number text.now) units result }
    ensures over { IfErr result (λ code. code ≡ Zover) }
{
    let number = Num::from_text(text.as_bytes())?;
    Ok(number)
}

/// Whether a value is true. Takes no memory.
///
/// # Errors
///
/// `Zover` if the value's number is too large.
pub fn truth_of(value: &Value) -> Result<bool, Code>
    ensures truth { Yields fault_of (as_truth value.now) (λ is_true. is_true) result }
    ensures over { IfErr result (λ code. code ≡ Zover) }
{
    let number = number_of(value)?;
    Ok(number.is_true())
}

/// The number that a value stands for, without its fraction. Takes no memory.
///
/// # Errors
///
/// `Zover` if the value's number is too large.
pub fn whole_of(value: &Value) -> Result<i64, Code>
    ensures whole { Yields fault_of (as_whole value.now) (λ whole. whole) result }
    ensures below { IfOk result (λ whole. unsigned_abs whole < 10 ^ 18) }
    ensures over { IfErr result (λ code. code ≡ Zover) }
{
    let number = number_of(value)?;
    Ok(number.to_whole())
}

// The value of a text that was to be made, or the code of its refusal.
pub(crate) fn answered(answer: Result<Bytes7, TextFault>) -> Result<Value, Code>
    ensures value { (wanted : Result (List ℕ) spec.Code) → Answers wanted answer → Yields fault_of (outcome wanted) (λ value. value) result }
    ensures refused { (code : spec.Code) → Answers (Err code) answer → IsErrAnd result (λ given. fault_of given ≡ spec.Own code) }
{
    match answer {
        Ok(text) => Ok(Value::of_text(text)),
        Err(fault) => Err(Code::from(fault)),
    }
}
