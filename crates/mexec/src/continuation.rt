// SPDX-License-Identifier: Apache-2.0
// The rest of a line, and where it stops.
ghost use Rattle.std.specs.Prelude.{◌≡◌, ◌≤◌, ◌+◌, ◌*◌, [], Some, option_map, true, length, IfOk, OnOk};
ghost use Rattle.mgrammar.specs.CallsIn.{has_call_optional};
ghost use Rattle.mgrammar.specs.ProgramsIn.{in_steps_optional};
ghost use Rattle.mmeaning.specs.LineMeaning as meaning;
ghost use Rattle.mmeaning.specs.LineMeaning.{context};
ghost use Rattle.mexec.specs.Falls.{size, Falls, FallsBy};
ghost use Rattle.mexec.specs.Frames.{Runs, RunsIf, RunsWithin, args_before, command_in, rest_tree, resting, spaced_before, stack, position_of};
ghost use Rattle.mexec.specs.Fronts.{StopsBefore, StopsIn, resumed, stop_left, stop_of, stop_ahead, StopFits};

use crate::arguments::{enter_argument, one_spent};
use crate::completion::{Completion, Progress};
use crate::entering::doing_block;
use crate::frames::{Continuation, ForLoop, Frame};
use crate::front::{Stop, effect, front};
use crate::programs::{Pause, first_begun, resume};
use crate::scratch::Scratch;
use crate::source::{Place, Source};
use crate::turns::{begin_turn, next_parameter};
use mcommand::{Course, Parts};
use mnodes::NodeStore;
use moperator::Code;
use mtree::Command;
use std::alloc::{AllocError, Global};

// Turns of the rest of a line, without an index and without an end.
fn forever<S: NodeStore>(
    alloc: Global,
    parts: &mut Parts<S>,
    behind: &Continuation,
    scratch: &mut Scratch,
) -> Result<Completion, Code>
    requires { args_before behind.now.line.value behind.now.at ≡ [] }
    ensures falls { Falls parts.old scratch.old result parts.new scratch.new }
    ensures does { RunsWithin S.NodeStore (λ a n. meaning.turns_forever (context a n (position_of behind.now.position.value)) (rest_tree behind.now))
        (stack scratch.old.frames.items) parts.old result (stack scratch.new.frames.items) parts.new }
{
    let turns = ForLoop {
        body: behind.copy()?,
        parameter: 0,
        course: Course::Forever,
    };
    begin_turn(parts, Box::new(alloc, turns)?, scratch)
}

// Leaves the rest of a line on the frames, unless it is empty.
fn leave(rest: &Continuation, scratch: &mut Scratch) -> Result<(), AllocError>
    ensures frames { OnOk result (stack scratch.new.frames.items ≡ resting (position_of rest.now.position.value) (rest_tree rest.now) (stack scratch.old.frames.items)) }
    ensures most { OnOk result (size scratch.new.frames.items ≤ size scratch.old.frames.items + 1) }
{
    if rest.at >= rest.line.commands.len() {
        return Ok(());
    }
    let rest = rest.copy()?;
    scratch.frames.push(Frame::Continuation(rest))?;
    Ok(())
}

// Goes on at a condition in which functions are called: the command stays on the frames until it is known whether its condition holds.
#[inline(never)]
fn conditioned<S: NodeStore>(
    alloc: Global,
    parts: &mut Parts<S>,
    behind: &Continuation,
    scratch: &mut Scratch,
) -> Result<Completion, Code>
    requires calls { has_call_optional (command_in (spaced_before behind.now.line.value behind.now.at)).condition ≡ true }
    requires stepped { in_steps_optional (command_in (spaced_before behind.now.line.value behind.now.at)).condition ≡ true }
    ensures falls { IfOk result (λ _. 6 * parts.new.eval.steps + size scratch.new.frames.items ≤ 6 * parts.old.eval.steps + size scratch.old.frames.items + 3) }
    ensures does { RunsWithin S.NodeStore (λ a n. meaning.conditional (context a n (position_of behind.now.position.value)) (command_in (spaced_before behind.now.line.value behind.now.at)) (rest_tree behind.now))
        (stack scratch.old.frames.items) parts.old result (stack scratch.new.frames.items) parts.new }
{
    scratch.frames.push(Frame::Condition(behind.copy()?))?;
    let place = Place::Condition(behind);
    let before = parts.eval.steps;
    let pause = first_begun(alloc, parts, place)?;
    match pause {
        Pause::Over(completion) => Ok(completion),
        other => {
            one_spent(parts.eval.steps, before)?;
            resume(alloc, parts, place, other, scratch)
        }
    }
}

// Goes on where a command stops. What comes after it is on the frames.
#[inline(always)]
fn stopped_at<S: NodeStore>(
    alloc: Global,
    parts: &mut Parts<S>,
    stop: Stop,
    behind: &Continuation,
    scratch: &mut Scratch,
) -> Result<Completion, Code>
    requires { StopsBefore (spaced_before behind.now.line.value behind.now.at) stop }
    ensures falls { IfOk result (λ _. 6 * parts.new.eval.steps + size scratch.new.frames.items ≤ 6 * parts.old.eval.steps + size scratch.old.frames.items + 3) }
    ensures within { StopsIn (args_before behind.now.line.value behind.now.at) stop.entry → FallsBy (3 * stop_ahead stop.entry) parts.old scratch.old result parts.new scratch.new }
    ensures does { RunsIf (StopFits stop.entry) S.NodeStore (λ a n. stop_left (context a n (position_of behind.now.position.value)) (rest_tree behind.now) (stop_of (args_before behind.now.line.value behind.now.at) stop.entry))
        (stack scratch.old.frames.items) parts.old result (stack scratch.new.frames.items) parts.new }
{
    match stop {
        Stop::Argument(entrance, argument) => {
            let source = Source::Line(behind);
            enter_argument(alloc, parts, entrance, source, argument, scratch)
        }
        Stop::Loop(index, parameters) => {
            next_parameter(alloc, parts, index, parameters, behind, 0, scratch)
        }
        Stop::Turns => forever(alloc, parts, behind, scratch),
        Stop::Block => doing_block(alloc, parts, &behind.position, scratch),
        Stop::Condition(_) => conditioned(alloc, parts, behind, scratch),
    }
}

// Goes on where a line stops: the rest stays on the frames.
pub(crate) fn go_on<S: NodeStore>(
    alloc: Global,
    parts: &mut Parts<S>,
    stop: Stop,
    behind: &Continuation,
    scratch: &mut Scratch,
) -> Result<Completion, Code>
    requires { StopsBefore (spaced_before behind.now.line.value behind.now.at) stop }
    ensures falls { IfOk result (λ _. 6 * parts.new.eval.steps + size scratch.new.frames.items ≤ 6 * parts.old.eval.steps + size scratch.old.frames.items + 4) }
    ensures does { RunsIf (StopFits stop.entry) S.NodeStore (λ a n. resumed (context a n (position_of behind.now.position.value)) (stop_of (args_before behind.now.line.value behind.now.at) stop.entry) (rest_tree behind.now))
        (stack scratch.old.frames.items) parts.old result (stack scratch.new.frames.items) parts.new }
{
    leave(behind, scratch)?;
    stopped_at(alloc, parts, stop, behind, scratch)
}

// What the command before the rest of a line does, once its condition holds.
fn effected<S: NodeStore>(
    alloc: Global,
    parts: &mut Parts<S>,
    command: &Command,
    behind: &Continuation,
    scratch: &mut Scratch,
) -> Result<Completion, Code>
    requires { option_map (λ s. s.command) (spaced_before behind.now.line.value behind.now.at) ≡ Some command.now }
    ensures falls { Falls parts.old scratch.old result parts.new scratch.new }
    ensures does { RunsWithin S.NodeStore (λ a n. meaning.effect (context a n (position_of behind.now.position.value)) (command_in (spaced_before behind.now.line.value behind.now.at)).keyword (command_in (spaced_before behind.now.line.value behind.now.at)).args (rest_tree behind.now))
        (stack scratch.old.frames.items) parts.old result (stack scratch.new.frames.items) parts.new }
{
    let outcome = effect(
        alloc,
        parts,
        &behind.position,
        command.keyword,
        &command.args,
        true,
    )?;
    match outcome {
        Progress::Over(completion) => Ok(completion),
        Progress::Stops(stop) => stopped_at(alloc, parts, stop, behind, scratch),
    }
}

// What a command does whose condition, in which functions were called, holds.
#[inline(never)]
pub(crate) fn held<S: NodeStore>(
    alloc: Global,
    parts: &mut Parts<S>,
    behind: &Continuation,
    scratch: &mut Scratch,
) -> Result<Completion, Code>
    ensures falls { Falls parts.old scratch.old result parts.new scratch.new }
    ensures does { RunsWithin S.NodeStore (λ a n. meaning.effect (context a n (position_of behind.now.position.value)) (command_in (spaced_before behind.now.line.value behind.now.at)).keyword (command_in (spaced_before behind.now.line.value behind.now.at)).args (rest_tree behind.now))
        (stack scratch.old.frames.items) parts.old result (stack scratch.new.frames.items) parts.new }
{
    match behind.line.commands.get(behind.at.saturating_sub(1)) {
        None => Ok(Completion::Quits),
        Some(spaced) => effected(alloc, parts, &spaced.command, behind, scratch),
    }
}

// The commands of the rest of a line, up to where one needs frames: what is then left of the line stays on them.
#[inline(always)]
pub(crate) fn next_command<S: NodeStore>(
    alloc: Global,
    parts: &mut Parts<S>,
    rest: Continuation,
    scratch: &mut Scratch,
) -> Result<Completion, Code>
    ensures falls { Falls parts.old scratch.old result parts.new scratch.new }
    ensures does { Runs S.NodeStore (λ a n. meaning.commands (context a n (position_of rest.position.value)) (rest_tree rest))
        (stack scratch.old.frames.items) parts.old result (stack scratch.new.frames.items) parts.new }
{
    let (outcome, at) = front(alloc, parts, &rest.position, &rest.line, rest.at)?;
    match outcome {
        Progress::Over(completion) => Ok(completion),
        Progress::Stops(stop) => {
            let behind = rest.copy_from(at)?;
            go_on(alloc, parts, stop, &behind, scratch)
        }
    }
}
