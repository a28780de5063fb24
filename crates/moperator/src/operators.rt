// SPDX-License-Identifier: Apache-2.0
// What the operators of expressions give for operands that are values already.
ghost use Rattle.std.specs.Prelude.{◌≡◌, ◌||◌, ◌<◌, map, length, ◌++◌, Err, IfErr};
ghost use Rattle.mmeaning.specs.Operators as meaning;
ghost use Rattle.mmeaning.specs.Variables as variables;
ghost use Rattle.mnum.specs.Num.{units};
ghost use Rattle.mspec.specs.Act.{Text, Act};
ghost use Rattle.mspec.specs.Interpretations.{is_true, is_whole};
ghost use Rattle.mspec.specs.TextFunctions.{max_text, made};
ghost use Rattle.mtree.specs.Tree.{sign_tree, binary_tree};
ghost use Rattle.mmeaning.specs.Yields.{Yields};
ghost use Rattle.moperator.specs.Codes.{fault_of};
ghost use Rattle.moperator.specs.Calculations.{calculated_texts};
ghost use Rattle.moperator.specs.Outcomes.{outcome_units};
ghost use Rattle.moperator.specs.declared.code.Code.{Code};
ghost use Rattle.moperator.specs.declared.code.Code.TheVariants.{Zlong, Zover};
ghost use Rattle.mtree.specs.declared.tree.Binary.TheVariants.{Join};

use crate::arithmetic::{Arithmetic, calculate};
use crate::code::Code;
use crate::conversions::{number_of, truth_of};
use crate::relations::relation;
use mnum::{Num, Over};
use mspec::limits::MAX_TEXT;
use mtree::{Binary, Sign};
use mvalue::Value;
use std::alloc::Global;
use std::mem;

/// The value of a number that was read or computed.
///
/// # Errors
///
/// `Zover` if the number is too large.
#[inline]
pub fn computed(outcome: Result<Num, Over>) -> Result<Value, Code>
    ensures value { Yields fault_of (meaning.as_text (outcome_units outcome)) (λ value. value) result }
    ensures over { IfErr result (λ code. code ≡ Zover) }
{
    match outcome {
        Ok(number) => Ok(Value::of_number(number)),
        Err(_) => Err(Code::Zover),
    }
}

/// A value as a number, with another one added.
///
/// # Errors
///
/// `Zover` if the number of the value is too large, or the sum.
pub fn increased(value: &Value, by: Num) -> Result<Value, Code>
    ensures { Yields fault_of (variables.increased value.now (units by)) (λ value. value) result }
{
    let number = number_of(value)?;
    computed(number.add(by))
}

// A sign makes a number of its operand, `-` reverses that number's sign, and `'` negates it as a truth.
#[tactic(auto, using(mmeaning::proofs::Yieldings::yields_then, mmeaning::proofs::Yieldings::yields_stopped, mmeaning::proofs::Yieldings::yields_gives))]
fn unary(sign: Sign, value: &Value) -> Result<Value, Code>
    ensures value { Yields fault_of (meaning.unary (sign_tree sign) value.now) (λ value. value) result }
    ensures over { IfErr result (λ code. code ≡ Zover) }
{
    match sign {
        Sign::Plus => {
            let number = number_of(value)?;
            Ok(Value::of_number(number))
        }
        Sign::Minus => {
            let number = number_of(value)?;
            Ok(Value::of_number(number.neg()))
        }
        Sign::Not => {
            let is_true = truth_of(value)?;
            Ok(Value::of_truth(!is_true))
        }
    }
}

/// What the signs in front of an operand make of it, the nearest first.
///
/// # Errors
///
/// `Zover` if a sign needs a number and the operand's is too large.
pub fn unaries(signs: &[Sign], value: Value) -> Result<Value, Code>
    ensures value { Yields fault_of (meaning.unaries (map sign_tree signs.now) value) (λ value. value) result }
    ensures over { IfErr result (λ code. code ≡ Zover) }
{
    let mut value = value;
    let mut left = signs.len();
    while left > 0 {
        left -= 1;
        value = unary(signs[left], &value)?;
    }
    Ok(value)
}

// Both operands as numbers, the left one first.
#[inline(always)]
#[tactic(auto, using(mmeaning::proofs::Yieldings::yields_then, mmeaning::proofs::Yieldings::yields_stopped, mmeaning::proofs::Yieldings::yields_gives))]
pub(crate) fn numbers(left: &Value, right: &Value) -> Result<(Num, Num), Code>
    ensures { Yields fault_of (meaning.both_numbers left.now right.now) (λ pair. (units pair.0, units pair.1)) result }
{
    let a = number_of(left)?;
    let b = number_of(right)?;
    Ok((a, b))
}

// Whether a number has no fraction.
#[tactic(auto, using(crate::proofs::Numbers::whole_fits))]
fn is_whole(number: Num) -> bool
    ensures { result ≡ is_whole (units number) }
{
    number.cmp(Num::from_whole(number.to_whole())).is_eq()
}

// Whether one of two numbers is not 0.
fn is_one_true(one: Num, other: Num) -> bool
    ensures { result ≡ (is_true (units one) || is_true (units other)) }
{
    one.is_true() || other.is_true()
}

/// The number that `**` raises, and the exponent. Takes no memory.
///
/// # Errors
///
/// `Zover` if a number is too large; `M28` if the exponent has a fraction; `M94` if both are 0.
#[tactic(auto, using(mmeaning::proofs::Yieldings::yields_then, mmeaning::proofs::Yieldings::yields_stopped, mmeaning::proofs::Yieldings::yields_gives))]
pub fn base_and_exponent(left: &Value, right: &Value) -> Result<(Num, Num), Code>
    ensures { Yields fault_of (meaning.base_and_exponent left.now right.now) (λ pair. (units pair.0, units pair.1)) result }
{
    let (base, exponent) = numbers(left, right)?;
    if !is_whole(exponent) {
        return Err(Code::M28);
    }
    if !is_one_true(base, exponent) {
        return Err(Code::M94);
    }
    Ok((base, exponent))
}

// Turns the left value into what an operator of arithmetic gives for the two as numbers.
#[inline(never)]
#[tactic(auto, using(mmeaning::proofs::Yieldings::yields_then, mmeaning::proofs::Yieldings::yields_stopped))]
fn calculate_values(operator: Arithmetic, left: &mut Value, right: &Value) -> Result<(), Code>
    ensures { Yields fault_of (calculated_texts operator left.old right.now) (λ _. left.new) result }
{
    let (mut number, other) = numbers(left, right)?;
    let outcome = calculate(operator, &mut number, &other);
    *left = Value::of_number(number);
    outcome
}

// The left text with the right one after it.
fn joined(alloc: Global, left: Value, right: &Value) -> Result<Value, Code>
    ensures value { Yields fault_of (meaning.outcome (made (left ++ right.now))) (λ value. value) result }
    ensures long { max_text < length (left ++ right.now) → result ≡ Err Zlong }
{
    // a text that is too long is refused before memory is asked for
    let length = left.text_length();
    if length > MAX_TEXT || right.text_length() > MAX_TEXT - length {
        return Err(Code::Zlong);
    }
    let mut text = left.into_text(alloc)?;
    right.append_to(&mut text)?;
    Ok(Value::of_text(text))
}

// Puts what was computed in the place of a value.
#[inline(always)]
fn put(place: &mut Value, outcome: Result<Value, Code>) -> Result<(), Code>
    ensures value { (p : Act Text) → Yields fault_of p (λ value. value) outcome → Yields fault_of p (λ _. place.new) result }
    ensures refused { (code : Code) → outcome ≡ Err code → result ≡ Err code }
{
    *place = outcome?;
    Ok(())
}

/// Turns the left operand into what an operator gives for the two.
///
/// # Errors
///
/// `Zover` if the number of an operand that has to be one, or of the result, is too large; `M9` for a divisor of 0; `Zlong` if joined
/// texts have more than 4,095 characters, which needs no memory; `Zmem` if out of memory. What the left operand is then is left open.
#[tactic(auto, using(mmeaning::proofs::Yieldings::yields_stopped))]
pub fn binary(alloc: Global, operator: Binary, left: &mut Value, right: &Value) -> Result<(), Code>
    ensures value { Yields fault_of (meaning.binary (binary_tree operator) left.old right.now) (λ _. left.new) result }
    ensures long { operator ≡ Join → max_text < length (left.old ++ right.now) → result ≡ Err Zlong }
{
    match operator {
        Binary::Join => {
            let front = mem::replace(left, Value::of_truth(false));
            put(left, joined(alloc, front, right))
        }
        Binary::Is(truth) => {
            let holds = relation(alloc, truth, left, right)?;
            put(left, Ok(Value::of_truth(holds)))
        }
        Binary::IsNot(truth) => {
            let holds = relation(alloc, truth, left, right)?;
            put(left, Ok(Value::of_truth(!holds)))
        }
        Binary::Add => calculate_values(Arithmetic::Add, left, right),
        Binary::Subtract => calculate_values(Arithmetic::Subtract, left, right),
        Binary::Multiply => calculate_values(Arithmetic::Multiply, left, right),
        Binary::Divide => calculate_values(Arithmetic::Divide, left, right),
        Binary::DivideWhole => calculate_values(Arithmetic::DivideWhole, left, right),
        Binary::Remainder => calculate_values(Arithmetic::Remainder, left, right),
    }
}
