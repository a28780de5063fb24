// SPDX-License-Identifier: Apache-2.0
// Values as texts, as $DATA's number and as the direction of $ORDER and $QUERY.
ghost use Rattle.std.specs.Prelude.{◌≡◌, [], pos, slice_get, unwrap_or};
ghost use Rattle.mmeaning.specs.Functions.{whole_text};
ghost use Rattle.mmeaning.specs.Variables.{data_number, direction_of};
ghost use Rattle.mmeaning.specs.Yields.{Yields};
ghost use Rattle.mkey.specs.Way.{way};
ghost use Rattle.moperator.specs.Codes.{fault_of};

use crate::value_list::Values;
use mkey::{Data, Direction};
use mnum::Bytes7;
use moperator::{Code, whole_of};
use mvalue::Value;
use std::alloc::Global;

// The number of $DATA: 1 if the node has a text, and 10 more if a node below it has one.
pub fn data_value(found: Data) -> Value
    ensures { result ≡ whole_text (pos (data_number (found.value, found.descendants))) }
{
    match (found.value, found.descendants) {
        (false, false) => Value::of_whole(0),
        (true, false) => Value::of_whole(1),
        (false, true) => Value::of_whole(10),
        (true, true) => Value::of_whole(11),
    }
}

// The direction of $ORDER or $QUERY, by the first of its arguments after the variable, if it has one.
pub fn direction(more: &[Value]) -> Result<Direction, Code>
    ensures { Yields fault_of (direction_of (slice_get more.now 0)) way result }
{
    match more.get(0) {
        None => Ok(Direction::Forward),
        Some(value) => match whole_of(value)? {
            1 => Ok(Direction::Forward),
            -1 => Ok(Direction::Backward),
            _ => Err(Code::Zarg),
        },
    }
}

// The first of these values, or the empty text.
pub fn first_or_empty(alloc: Global, values: Values) -> Value
    ensures { result ≡ unwrap_or (slice_get values 0) [] }
{
    match values.into_first() {
        Some(value) => value,
        None => Value::of_text(Bytes7::empty(alloc)),
    }
}

// What $ORDER gives: the subscript that was found, or the empty text. $QUERY gives that too if it finds nothing.
pub fn next_value(alloc: Global, next: Option<Value>) -> Value
    ensures { result ≡ unwrap_or next [] }
{
    match next {
        Some(value) => value,
        None => Value::of_text(Bytes7::empty(alloc)),
    }
}
