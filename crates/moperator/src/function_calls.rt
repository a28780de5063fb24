// SPDX-License-Identifier: Apache-2.0
// The functions, of arguments that are values already.
ghost use Rattle.std.specs.Prelude.{◌≡◌, ◌<◌, ◌^◌, map, unsigned_abs, IsErrAnd, None, Some};
ghost use Rattle.mgrammar.specs.Functions as grammar;
ghost use Rattle.mspec.specs.Act.{State, give_some};
ghost use Rattle.mspec.specs.Code as spec;
ghost use Rattle.mspec.specs.Code.{Zarg};
ghost use Rattle.mmeaning.specs.Functions as meaning;
ghost use Rattle.mtree.specs.Functions.{IsValueWord, value_function_tree};
ghost use Rattle.mmeaning.specs.Yields.{Yields};
ghost use Rattle.mscan.specs.NameParts.{name_view};
ghost use Rattle.moperator.specs.Codes.{fault_of};
ghost use Rattle.moperator.specs.Outcomes.{FailsBy};

use crate::arguments::{number_at, text_at, whole_at, wholes};
use crate::characters::{characters, code_at, refuse_characters};
use crate::code::Code;
use crate::conversions::{answered, whole_of};
use mscan::{NameValue, ParseFault, name_value};
use mtext::{extract, find, format_number, justify, justify_number, piece, pieces, translate};
use mtree::{ValueFunction, ValueWord};
use mvalue::Value;
use std::alloc::Global;

// ---- functions, by their names

#[tactic(auto, using(mmeaning::proofs::Yieldings::yields_then, mmeaning::proofs::Yieldings::yields_stopped, mmeaning::proofs::Yieldings::yields_gives, crate::proofs::Numbers::whole_fits))]
fn ascii(alloc: Global, arguments: &[Value]) -> Result<Value, Code>
    ensures { Yields fault_of (meaning.function_value grammar.ascii_function arguments.now) (λ value. value) result }
{
    let place = whole_at(arguments, 1)?;
    let text = text_at(alloc, arguments, 0)?;
    Ok(Value::of_whole(code_at(text.as_text().as_bytes(), place)))
}

#[tactic(auto, using(mmeaning::proofs::Yieldings::yields_then, mmeaning::proofs::Yieldings::yields_stopped))]
fn char(alloc: Global, arguments: &[Value]) -> Result<Value, Code>
    ensures value { Yields fault_of (meaning.function_value grammar.char_function arguments.now) (λ value. value) result }
    ensures refused { (code : spec.Code) → (s : State) → FailsBy (meaning.function_value grammar.char_function arguments.now) code s → IsErrAnd result
        (λ given. fault_of given ≡ spec.Own code) }
{
    refuse_characters(arguments)?;
    let codes = wholes(alloc, arguments)?;
    characters(alloc, &codes)
}

#[tactic(auto, using(mmeaning::proofs::Yieldings::yields_then, mmeaning::proofs::Yieldings::yields_stopped, mmeaning::proofs::Yieldings::yields_gives))]
fn extracted(alloc: Global, arguments: &[Value]) -> Result<Value, Code>
    ensures { Yields fault_of (meaning.function_value grammar.extract_function arguments.now) (λ value. value) result }
{
    let from = whole_at(arguments, 1)?;
    let to = whole_at(arguments, 2)?;
    let text = text_at(alloc, arguments, 0)?;
    let part = extract(text.as_text().as_bytes(), from, to);
    Ok(Value::of_bytes(alloc, part)?)
}

#[tactic(auto, using(mmeaning::proofs::Yieldings::yields_then, mmeaning::proofs::Yieldings::yields_stopped, mmeaning::proofs::Yieldings::yields_gives))]
fn found(alloc: Global, arguments: &[Value]) -> Result<Value, Code>
    ensures { Yields fault_of (meaning.function_value grammar.find_function arguments.now) (λ value. value) result }
{
    let from = whole_at(arguments, 2)?;
    let text = text_at(alloc, arguments, 0)?;
    let what = text_at(alloc, arguments, 1)?;
    let place = find(text.as_text().as_bytes(), what.as_text().as_bytes(), from);
    Ok(Value::of_count(alloc, place)?)
}

fn formatted(alloc: Global, arguments: &[Value]) -> Result<Value, Code>
    ensures { Yields fault_of (meaning.function_value grammar.format_number_function arguments.now) (λ value. value) result }
{
    match arguments.get(2) {
        None => formatted_canonical(alloc, arguments),
        Some(places) => formatted_to(alloc, arguments, places),
    }
}

// With two arguments.
#[tactic(auto, using(mmeaning::proofs::Yieldings::yields_stopped))]
fn formatted_canonical(alloc: Global, arguments: &[Value]) -> Result<Value, Code>
    ensures { Yields fault_of (meaning.number_formatted arguments.now None) (λ value. value) result }
{
    let number = number_at(arguments, 0)?;
    let format = text_at(alloc, arguments, 1)?;
    answered(format_number(alloc, number, format.as_text(), None))
}

// With a third one, the places after the point.
#[tactic(auto, using(mmeaning::proofs::Yieldings::yields_stopped))]
fn formatted_to(alloc: Global, arguments: &[Value], places: &Value) -> Result<Value, Code>
    ensures { Yields fault_of (meaning.number_formatted arguments.now (Some places.now)) (λ value. value) result }
{
    let number = number_at(arguments, 0)?;
    let places = whole_of(places)?;
    let format = text_at(alloc, arguments, 1)?;
    answered(format_number(alloc, number, format.as_text(), Some(places)))
}

fn justified(alloc: Global, arguments: &[Value]) -> Result<Value, Code>
    ensures { Yields fault_of (meaning.function_value grammar.justify_function arguments.now) (λ value. value) result }
{
    match arguments.get(2) {
        None => justified_text(alloc, arguments),
        Some(places) => justified_number(alloc, arguments, places),
    }
}

// With two arguments.
#[tactic(auto, using(mmeaning::proofs::Yieldings::yields_stopped))]
fn justified_text(alloc: Global, arguments: &[Value]) -> Result<Value, Code>
    ensures { Yields fault_of (meaning.justified arguments.now None) (λ value. value) result }
{
    let width = whole_at(arguments, 1)?;
    let text = text_at(alloc, arguments, 0)?;
    answered(justify(alloc, text.as_text(), width.unwrap_or(0)))
}

// With a third one, the places after the point.
#[tactic(auto, using(mmeaning::proofs::Yieldings::yields_stopped))]
fn justified_number(alloc: Global, arguments: &[Value], places: &Value) -> Result<Value, Code>
    ensures { Yields fault_of (meaning.justified arguments.now (Some places.now)) (λ value. value) result }
{
    let number = number_at(arguments, 0)?;
    let width = whole_at(arguments, 1)?;
    let places = whole_of(places)?;
    answered(justify_number(alloc, number, width.unwrap_or(0), places))
}

// Of characters, and of pieces if there is a delimiter.
#[tactic(auto, using(mmeaning::proofs::Yieldings::yields_gives, crate::proofs::GivenArguments::argument_is))]
fn length(alloc: Global, arguments: &[Value]) -> Result<Value, Code>
    ensures { Yields fault_of (meaning.function_value grammar.length_function arguments.now) (λ value. value) result }
{
    let text = text_at(alloc, arguments, 0)?;
    let bytes = text.as_text().as_bytes();
    match arguments.get(1) {
        None => Ok(Value::of_count(alloc, bytes.len() as u64)?),
        Some(value) => {
            let delimiter = value.shown(alloc)?;
            let count = pieces(bytes, delimiter.as_text().as_bytes());
            Ok(Value::of_count(alloc, count as u64)?)
        }
    }
}

// The parts of the name that an argument is.
fn name_at(alloc: Global, arguments: &[Value], place: usize) -> Result<NameValue, Code>
    ensures { Yields fault_of (meaning.name_parts (meaning.text_at place arguments.now)) name_view result }
{
    let text = text_at(alloc, arguments, place)?;
    match name_value(alloc, text.as_text().as_bytes()) {
        Ok(parts) => Ok(parts),
        Err(ParseFault::Syntax) => Err(Code::M90),
        Err(ParseFault::Memory) => Err(Code::Zmem),
    }
}

#[tactic(auto, using(mmeaning::proofs::Yieldings::yields_then, mmeaning::proofs::Yieldings::yields_stopped, mmeaning::proofs::Yieldings::yields_gives))]
fn name_length(alloc: Global, arguments: &[Value]) -> Result<Value, Code>
    ensures { Yields fault_of (meaning.function_value grammar.name_length_function arguments.now) (λ value. value) result }
{
    let parts = name_at(alloc, arguments, 0)?;
    Ok(Value::of_count(alloc, parts.subscripts.len() as u64)?)
}

// Which part of a name is meant.
fn part_place(number: i64) -> Result<usize, Code>
    requires { unsigned_abs number < 10 ^ 18 }
    ensures { Yields fault_of (give_some Zarg (meaning.part_place number)) (λ place. place) result }
{
    if number < -1 {
        return Err(Code::Zarg);
    }
    Ok((number + 1) as usize)
}

#[tactic(auto, using(mmeaning::proofs::Yieldings::yields_then, mmeaning::proofs::Yieldings::yields_stopped, mmeaning::proofs::Yieldings::yields_gives))]
fn name_part(alloc: Global, arguments: &[Value], number: i64) -> Result<Value, Code>
    requires { unsigned_abs number < 10 ^ 18 }
    ensures { Yields fault_of (meaning.name_part (meaning.text_at 0 arguments.now) number) (λ value. value) result }
{
    let place = part_place(number)?;
    let parts = name_at(alloc, arguments, 0)?;
    Ok(Value::of_bytes(alloc, parts.part(place))?)
}

#[tactic(auto, using(mmeaning::proofs::Yieldings::yields_stopped))]
fn name_subscript(alloc: Global, arguments: &[Value]) -> Result<Value, Code>
    ensures { Yields fault_of (meaning.function_value grammar.name_subscript_function arguments.now) (λ value. value) result }
{
    let number = whole_at(arguments, 1)?;
    name_part(alloc, arguments, number.unwrap_or(0))
}

#[tactic(auto, using(mmeaning::proofs::Yieldings::yields_then, mmeaning::proofs::Yieldings::yields_stopped, mmeaning::proofs::Yieldings::yields_gives))]
fn pieces_from_to(alloc: Global, arguments: &[Value]) -> Result<Value, Code>
    ensures { Yields fault_of (meaning.function_value grammar.piece_function arguments.now) (λ value. value) result }
{
    let from = whole_at(arguments, 2)?;
    let to = whole_at(arguments, 3)?;
    let text = text_at(alloc, arguments, 0)?;
    let delimiter = text_at(alloc, arguments, 1)?;
    let part = piece(
        text.as_text().as_bytes(),
        delimiter.as_text().as_bytes(),
        from,
        to,
    );
    Ok(Value::of_bytes(alloc, part)?)
}

#[tactic(auto, using(mmeaning::proofs::Yieldings::yields_gives))]
fn reversed(alloc: Global, arguments: &[Value]) -> Result<Value, Code>
    ensures { Yields fault_of (meaning.function_value grammar.reverse_function arguments.now) (λ value. value) result }
{
    let text = text_at(alloc, arguments, 0)?;
    Ok(Value::of_text(text.as_text().reversed()?))
}

fn translated(alloc: Global, arguments: &[Value]) -> Result<Value, Code>
    ensures { Yields fault_of (meaning.function_value grammar.translate_function arguments.now) (λ value. value) result }
{
    let text = text_at(alloc, arguments, 0)?;
    let from = text_at(alloc, arguments, 1)?;
    let to = text_at(alloc, arguments, 2)?;
    answered(translate(alloc, text.as_text(), from.as_text(), to.as_text()))
}

// What a function gives for its arguments.
fn function(alloc: Global, function: ValueFunction, arguments: &[Value]) -> Result<Value, Code>
    ensures value { Yields fault_of (meaning.function_value (value_function_tree function) arguments.now) (λ value. value) result }
    ensures characters { value_function_tree function ≡ grammar.char_function
        → (code : spec.Code) → (s : State) → FailsBy (meaning.function_value grammar.char_function arguments.now) code s → IsErrAnd result
        (λ given. fault_of given ≡ spec.Own code) }
{
    match function {
        ValueFunction::Ascii => ascii(alloc, arguments),
        ValueFunction::Char => char(alloc, arguments),
        ValueFunction::Extract => extracted(alloc, arguments),
        ValueFunction::Find => found(alloc, arguments),
        ValueFunction::FormatNumber => formatted(alloc, arguments),
        ValueFunction::Justify => justified(alloc, arguments),
        ValueFunction::Length => length(alloc, arguments),
        ValueFunction::NameLength => name_length(alloc, arguments),
        ValueFunction::NameSubscript => name_subscript(alloc, arguments),
        ValueFunction::Piece => pieces_from_to(alloc, arguments),
        ValueFunction::Reverse => reversed(alloc, arguments),
        ValueFunction::Translate => translated(alloc, arguments),
    }
}

/// What the function of a word gives for its arguments.
///
/// # Errors
///
/// The function's code in place of its value; $CHAR is refused with it before memory is asked for. `Zmem` if out of memory.
pub fn call(alloc: Global, word: &ValueWord, arguments: &[Value]) -> Result<Value, Code>
    ensures value { Yields fault_of (meaning.call_value word.now arguments.now) (λ value. value) result }
    ensures characters { IsValueWord word.now grammar.char_function
        → (code : spec.Code) → (s : State) → FailsBy (meaning.function_value grammar.char_function arguments.now) code s → IsErrAnd result
        (λ given. fault_of given ≡ spec.Own code) }
{
    function(alloc, word.function(), arguments)
}
