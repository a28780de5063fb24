// SPDX-License-Identifier: Apache-2.0
// The arguments of functions.
ghost use Rattle.std.specs.Prelude.{◌≡◌, [], ◌^◌, ◌<◌, map, unsigned_abs, IfErr, IfOk, IfSome};
ghost use Rattle.mmeaning.specs.Functions as meaning;
ghost use Rattle.mmeaning.specs.Operators.{as_number};
ghost use Rattle.mmeaning.specs.Yields.{Yields};
ghost use Rattle.mnum.specs.Num.{units};
ghost use Rattle.moperator.specs.Codes.{fault_of};
ghost use Rattle.moperator.specs.declared.code.Code.TheVariants.{Zover};

use crate::code::Code;
use crate::conversions::{number_of, whole_of};
use mnum::{Bytes7, Num};
use mvalue::{Shown, Value};
use std::alloc::{AllocError, Global};

/// The text of the argument at a place, or the empty one if it is left out.
///
/// # Errors
///
/// `AllocError` if it runs out of memory.
pub fn text_at(alloc: Global, arguments: &[Value], place: usize) -> Result<Shown<'_>, AllocError>
    ensures { IfOk result (λ shown. shown ≡ meaning.text_at place arguments.now) }
{
    match arguments.get(place) {
        None => Ok(Shown::printed(Bytes7::empty(alloc))),
        Some(value) => value.shown(alloc),
    }
}

// The number of the argument at a place, which is that of the empty text if it is left out.
pub(crate) fn number_at(arguments: &[Value], place: usize) -> Result<Num, Code>
    ensures { Yields fault_of (as_number (meaning.text_at place arguments.now)) units result }
{
    match arguments.get(place) {
        None => Ok(Num::from_whole(0)),
        Some(value) => number_of(value),
    }
}

/// The whole number of the argument at a place, if it has one. Takes no memory.
///
/// # Errors
///
/// `Zover` if the argument's number is too large.
pub fn whole_at(arguments: &[Value], place: usize) -> Result<Option<i64>, Code>
    ensures whole { Yields fault_of (meaning.whole_at place arguments.now) (λ whole. whole) result }
    ensures below { IfOk result (λ whole. IfSome whole (λ n. unsigned_abs n < 10 ^ 18)) }
    ensures over { IfErr result (λ code. code ≡ Zover) }
{
    match arguments.get(place) {
        None => Ok(None),
        Some(value) => {
            let whole = whole_of(value)?;
            Ok(Some(whole))
        }
    }
}

// The whole numbers of all arguments.
pub(crate) fn wholes(alloc: Global, arguments: &[Value]) -> Result<Vec<i64>, Code>
    ensures { Yields fault_of (meaning.wholes [] arguments.now) (λ wholes. wholes.items) result }
{
    let mut wholes = Vec::with_capacity(alloc, arguments.len())?;
    for argument in arguments {
        let whole = whole_of(argument)?;
        wholes.push(whole)?;
    }
    Ok(wholes)
}
