// SPDX-License-Identifier: Apache-2.0
// A line, from its first command to its end.
ghost use Rattle.std.specs.Prelude.{◌≡◌, ◌≤◌, ◌+◌, ◌*◌, [], ◌∷◌, true, IfOk, OnOk};
ghost use Rattle.mexec.specs.Words.{DoesAt, Levels, commands_of, frame, line_tree, stays};
ghost use Rattle.mmeaning.specs.LineMeaning as meaning;
ghost use Rattle.mexec.specs.Falls.{is_rare, size, weight};
ghost use Rattle.mexec.specs.Uncalled.{IsPlayed};
ghost use Rattle.mmeaning.specs.Frames.{Fits};
ghost use Rattle.mexec.specs.Frames.{RunsIf, view, stack, completion_of, position_of};

use crate::arguments::arguments;
use crate::completion::Completion;
use crate::continuation::{held, next_command};
use crate::frames::{Closing, Continuation, Frame};
use crate::levels::after_level;
use crate::programs::after_call;
use crate::scratch::Scratch;
use crate::source::Source;
use crate::turns::after_turn;
use mcommand::Parts;
use mnodes::NodeStore;
use moperator::Code;
use mtree::Line;
use std::alloc::{AllocError, Global};
use std::rc::Rc;

// What the top frame does with a completion, if it is of a kind that few lines need. Kept out of line, so that the others need no room for
// what these give.
#[inline(never)]
fn run_rare_frame<S: NodeStore>(
    alloc: Global,
    parts: &mut Parts<S>,
    top: Frame,
    completion: Completion,
    scratch: &mut Scratch,
) -> Result<Completion, Code>
    requires { is_rare top ≡ true }
    ensures falls { IfOk result (λ _. 6 * parts.new.eval.steps + size scratch.new.frames.items + 1
        ≤ 6 * parts.old.eval.steps + size scratch.old.frames.items + weight top) }
    ensures does { RunsIf (Fits (view top)) S.NodeStore (λ a n. frame a n (view top) (completion_of completion))
        (stack scratch.old.frames.items) parts.old result (stack scratch.new.frames.items) parts.new }
{
    match top {
        Frame::PendingArguments(list) => match completion {
            Completion::GoOn => {
                let source = Source::Line(&list.behind);
                arguments(alloc, parts, source, list.argument, scratch)
            }
            other => Ok(other),
        },
        Frame::IndirectArguments(given, argument) => match completion {
            Completion::GoOn => arguments(alloc, parts, Source::Text(&given), argument, scratch),
            other => Ok(other),
        },
        Frame::Program(suspended) => after_call(alloc, parts, suspended, completion, scratch),
        Frame::Condition(behind) => match completion {
            Completion::GoOn => held(alloc, parts, &behind, scratch),
            _ => Ok(Completion::GoOn),
        },
        Frame::Continuation(_) => unreachable!(),
        Frame::ForLoop(_) => unreachable!(),
        Frame::Level(_, _) => unreachable!(),
    }
}

// What the top frame does with a completion.
fn run_frame<S: NodeStore>(
    alloc: Global,
    parts: &mut Parts<S>,
    top: Frame,
    completion: Completion,
    scratch: &mut Scratch,
) -> Result<Completion, Code>
    ensures falls { IfOk result (λ _. 6 * parts.new.eval.steps + size scratch.new.frames.items + 1
        ≤ 6 * parts.old.eval.steps + size scratch.old.frames.items + weight top) }
    ensures does { RunsIf (Fits (view top)) S.NodeStore (λ a n. frame a n (view top) (completion_of completion))
        (stack scratch.old.frames.items) parts.old result (stack scratch.new.frames.items) parts.new }
{
    match top {
        Frame::Continuation(rest) => match completion {
            Completion::GoOn => next_command(alloc, parts, rest, scratch),
            other => Ok(other),
        },
        Frame::ForLoop(turns) => after_turn(alloc, parts, turns, completion, scratch),
        Frame::Level(position, closing) => {
            let done = after_level(alloc, parts, &position, closing, completion, scratch);
            scratch.keep(position);
            done
        }
        rare => run_rare_frame(alloc, parts, rare, completion, scratch),
    }
}

// Begins a line: nothing but its level is put on the frames, and all its commands are still left.
fn begin(line: Rc<Line>, scratch: &mut Scratch) -> Result<Continuation, AllocError>
    requires { IsPlayed line.value }
    ensures frames { OnOk result (stack scratch.new.frames.items ≡ Levels meaning.top_level stays ∷ []) }
    ensures position { IfOk result (λ rest. position_of rest.position.value ≡ meaning.top_level) }
    ensures line { IfOk result (λ rest. rest.line.value ≡ line.value) }
    ensures at { IfOk result (λ rest. rest.at ≡ 0) }
{
    scratch.frames.clear();
    let position = scratch.top_level.position()?;
    let level = Frame::Level(position.clone()?, Closing::Stays);
    scratch.frames.push(level)?;
    Ok(Continuation {
        position,
        line,
        at: 0,
    })
}

// A line of a language that there is, from its first command to its end.
pub(crate) fn run_line<S: NodeStore>(
    alloc: Global,
    parts: &mut Parts<S>,
    line: Rc<Line>,
    scratch: &mut Scratch,
) -> Result<Completion, Code>
    requires { IsPlayed line.value }
    ensures { DoesAt S.NodeStore (λ a n. meaning.run_within a n (commands_of (line_tree line.value))) completion_of parts.old result parts.new }
{
    let first = begin(line, scratch)?;
    let mut completion = next_command(alloc, parts, first, scratch)?;
    while let Some(frame) = scratch.frames.pop() {
        completion = run_frame(alloc, parts, frame, completion, scratch)?;
    }
    Ok(completion)
}
