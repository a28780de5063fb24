// SPDX-License-Identifier: Apache-2.0
// How a line goes on.
ghost use Rattle.std.specs.Prelude.{◌≡◌};
ghost use Rattle.mmeaning.specs.LineMeaning as meaning;
ghost use Rattle.mexec.specs.Frames.{completion_of, went};
ghost use Rattle.mexec.specs.Progress.{ends};

use mcommand::Target;
use moperator::Code;
use mvalue::Value;

// How a line goes on: with what is next, after the rest of the line, out of its turn or its level, with another line, or out of its
// level with a value.
#[derive(Drop)]
pub(crate) enum Completion {
    GoOn,
    Skips,
    Quits,
    Goes(Target),
    // in a box, since it is rare and every completion is as large as the largest
    Returns(Box<Value>),
}

// How far something is done: to its end, with its completion, or up to where it stops.
#[derive(Drop)]
pub(crate) enum Progress<T> {
    Over(Completion),
    Stops(T),
}

// What gave its completion.
pub(crate) fn over<T>(completion: Result<Completion, Code>) -> Result<Progress<T>, Code>
    ensures { result ≡ ends completion }
{
    match completion {
        Ok(completion) => Ok(Progress::Over(completion)),
        Err(code) => Err(code),
    }
}

// What is next if this is true, and otherwise what comes after the rest of the line.
pub(crate) fn where_true(is_true: bool) -> Completion
    ensures { completion_of result ≡ meaning.where_true is_true }
{
    if is_true {
        Completion::GoOn
    } else {
        Completion::Skips
    }
}

// What is next, once this is done.
pub(crate) fn went_on(done: Result<(), Code>) -> Result<Completion, Code>
    ensures { result ≡ went done }
{
    match done {
        Ok(()) => Ok(Completion::GoOn),
        Err(code) => Err(code),
    }
}
