// SPDX-License-Identifier: Apache-2.0
// The turns of a FOR, frame by frame: a frame of turns means that the body of one is under way.
ghost use Rattle.std.specs.Prelude.{◌≡◌, ◌≤◌, ◌+◌, ◌∷◌, suc, List, Some, drop, length, map, option_map, true, false, OnOk};
ghost use Rattle.mmeaning.specs.LineMeaning as meaning;
ghost use Rattle.mmeaning.specs.LineMeaning.{context};
ghost use Rattle.mtree.specs.Tree.{parameter_tree};
ghost use Rattle.mcommand.specs.Does.{DoesAt};
ghost use Rattle.mcommand.specs.ForParameters.{course_view, advanced};
ghost use Rattle.mmeaning.specs.Frames.{Turns};
ghost use Rattle.mmeaning.specs.Yields.{Yields};
ghost use Rattle.moperator.specs.Codes.{fault_of};
ghost use Rattle.mexec.specs.Fronts as fronts;
ghost use Rattle.mexec.specs.Falls.{size, Falls};
ghost use Rattle.mexec.specs.Frames.{RunsWithin, commands_from, rest_tree, turning, turning_at, stack, completion_of, position_of};
ghost use Rattle.mexec.specs.Loops.{has_index, loop_before as the_loop_before};
ghost use Rattle.mexec.specs.Programs.{parameter_started, pause_of};
ghost use Rattle.mexec.specs.Wholes.{parameter_of};
ghost use Rattle.mgrammar.specs.CallsIn.{has_call_parameter as the_has_call_parameter};
ghost use Rattle.mgrammar.specs.Grammar.{ParameterTree};
ghost use Rattle.mmeaning.specs.Programs as programs;
ghost use Rattle.mprogram.specs.Wholes.{WholeTree, of_parameter, ending_of};

use crate::arguments::one_spent;
use crate::completion::{Completion, Progress};
use crate::continuation::go_on;
use crate::frames::{Continuation, ForLoop, Frame};
use crate::front::front;
use crate::programs::{Pause, calling, first_begun};
use crate::scratch::Scratch;
use crate::source::{Place, loop_before};
use mcommand::{Course, Parts};
use mnodes::NodeStore;
use mnum::Name;
use moperator::Code;
use mtree::{Parameter, has_call_parameter};
use std::alloc::{AllocError, Global};

// A turn, which costs a step.
pub(crate) fn begin_turn<S: NodeStore>(
    parts: &mut Parts<S>,
    turns: Box<ForLoop>,
    scratch: &mut Scratch,
) -> Result<Completion, Code>
    ensures falls { Falls parts.old scratch.old result parts.new scratch.new }
    ensures does { RunsWithin S.NodeStore (λ a n. meaning.begin_turn (context a n (position_of turns.value.body.position.value)) (turning turns.value))
        (stack scratch.old.frames.items) parts.old result (stack scratch.new.frames.items) parts.new }
{
    parts.eval.charge()?;
    let body = turns.body.copy()?;
    scratch.frames.push(Frame::ForLoop(turns))?;
    scratch.frames.push(Frame::Continuation(body))?;
    Ok(Completion::GoOn)
}

// The first turn of this course of a parameter.
fn first_turn<S: NodeStore>(
    alloc: Global,
    parts: &mut Parts<S>,
    body: &Continuation,
    parameter: usize,
    course: Course,
    scratch: &mut Scratch,
) -> Result<Completion, Code>
    requires { has_index body.now.line.value body.now.at ≡ true }
    ensures falls { Falls parts.old scratch.old result parts.new scratch.new }
    ensures does { RunsWithin S.NodeStore (λ a n. meaning.begin_turn (context a n (position_of body.now.position.value)) (turning_at body.now parameter course))
        (stack scratch.old.frames.items) parts.old result (stack scratch.new.frames.items) parts.new }
{
    let turns = ForLoop {
        body: body.copy()?,
        parameter,
        course,
    };
    let turns = Box::new(alloc, turns)?;
    begin_turn(parts, turns, scratch)
}

// Whether a function is called in a parameter, where one may be.
#[inline(always)]
fn calls_in_parameter(parameter: &Parameter, may_call: bool) -> bool
    requires { may_call ≡ false → the_has_call_parameter (parameter_tree parameter.now) ≡ false }
    ensures { result ≡ the_has_call_parameter (parameter_tree parameter.now) }
{
    if may_call {
        has_call_parameter(parameter)
    } else {
        false
    }
}

// How far a parameter comes by itself: to how its turns go on, or to the call of a function.
fn parameter_begun<'t, S: NodeStore>(
    alloc: Global,
    parts: &mut Parts<S>,
    index: &Name,
    parameter: &Parameter,
    body: &'t Continuation,
    at: usize,
    may_call: bool,
) -> Result<Pause<'t>, Code>
    requires { may_call ≡ false → the_has_call_parameter (parameter_tree parameter.now) ≡ false }
    ensures { (rest : List ParameterTree) → parameter_of body.now.line.value body.now.at at ≡ Some (of_parameter index.now (parameter_tree parameter.now) rest (rest_tree body.now)) → DoesAt S.NodeStore (λ a n. parameter_started (context a (suc n) (position_of body.now.position.value)) index.now (parameter_tree parameter.now) rest (rest_tree body.now))
        (pause_of (of_parameter index.now (parameter_tree parameter.now) rest (rest_tree body.now))) parts.old result parts.new }
{
    if calls_in_parameter(parameter, may_call) {
        return first_begun(alloc, parts, Place::Parameter(body, at));
    }
    parts.eval.depth = body.position.depth;
    let course = parts.start_parameter(alloc, index, parameter)?;
    Ok(Pause::Turns(course))
}

// The turns of the parameters from one on. The index and the parameters are those of the FOR before its body.
pub(crate) fn next_parameter<S: NodeStore>(
    alloc: Global,
    parts: &mut Parts<S>,
    index: &Name,
    parameters: &[Parameter],
    body: &Continuation,
    from: usize,
    scratch: &mut Scratch,
) -> Result<Completion, Code>
    requires found { the_loop_before body.now.line.value body.now.at ≡ (index.now, parameters.now) }
    requires indexed { has_index body.now.line.value body.now.at ≡ true }
    ensures falls { Falls parts.old scratch.old result parts.new scratch.new }
    ensures does { RunsWithin S.NodeStore (λ a n. meaning.next_parameter (context a n (position_of body.now.position.value)) index.now (commands_from body.now.line.value body.now.at) (map parameter_tree (drop from parameters.now)))
        (stack scratch.old.frames.items) parts.old result (stack scratch.new.frames.items) parts.new }
{
    let may_call = body.line.since > 0;
    let mut next = from;
    while next < parameters.len() {
        let before = parts.eval.steps;
        let parameter = &parameters[next];
        let pause = parameter_begun(alloc, parts, index, parameter, body, next, may_call)?;
        match pause {
            Pause::Turns(course) => match course {
                None => next += 1,
                Some(course) => {
                    return first_turn(alloc, parts, body, next + 1, course, scratch);
                }
            },
            Pause::Calls(call) => {
                one_spent(parts.eval.steps, before)?;
                let place = Place::Parameter(body, next);
                return calling(alloc, parts, place, call, scratch);
            }
            _ => return Err(Code::Zmem),
        }
    }
    Ok(Completion::Skips)
}

// What a parameter whose program is at its end leads to: the turns of this course, or those of the parameters after it.
pub(crate) fn turned<S: NodeStore>(
    alloc: Global,
    parts: &mut Parts<S>,
    body: &Continuation,
    at: usize,
    course: Option<Course>,
    scratch: &mut Scratch,
) -> Result<Completion, Code>
    ensures falls { Falls parts.old scratch.old result parts.new scratch.new }
    ensures does { (w : WholeTree) → parameter_of body.now.line.value body.now.at at ≡ Some w
        → RunsWithin S.NodeStore (λ a n. programs.turned (context a n (position_of body.now.position.value)) (ending_of w) (option_map course_view course))
        (stack scratch.old.frames.items) parts.old result (stack scratch.new.frames.items) parts.new }
{
    let Some((index, parameters)) = loop_before(&body.line, body.at) else {
        return Err(Code::Zmem);
    };
    let Some(next) = at.checked_add(1) else {
        return Err(Code::Zmem);
    };
    match course {
        None => next_parameter(alloc, parts, index, parameters, body, next, scratch),
        Some(course) => first_turn(alloc, parts, body, next, course, scratch),
    }
}

// The turns of the parameters that are left. Without an index there are none.
fn further<S: NodeStore>(
    alloc: Global,
    parts: &mut Parts<S>,
    turns: ForLoop,
    scratch: &mut Scratch,
) -> Result<Completion, Code>
    ensures falls { Falls parts.old scratch.old result parts.new scratch.new }
    ensures does { RunsWithin S.NodeStore (λ a n. meaning.next_parameter (context a n (position_of turns.body.position.value)) (turning turns).index (turning turns).body (turning turns).parameters)
        (stack scratch.old.frames.items) parts.old result (stack scratch.new.frames.items) parts.new }
{
    let body = &turns.body;
    match loop_before(&body.line, body.at) {
        None => Ok(Completion::Skips),
        Some((index, parameters)) => {
            let from = turns.parameter;
            next_parameter(alloc, parts, index, parameters, body, from, scratch)
        }
    }
}

// Whether there is one more turn of this course of these turns. Without an index they have no end.
fn goes_on<S: NodeStore>(parts: &mut Parts<S>, turns: &ForLoop) -> Result<bool, Code>
    ensures { DoesAt S.NodeStore (λ a n. advanced (turning turns.now).index (course_view turns.now.course)) (λ goes_on. goes_on) parts.old result parts.new }
{
    match loop_before(&turns.body.line, turns.body.at) {
        None => Ok(true),
        Some((index, _)) => parts.advance_parameter(index, turns.course),
    }
}

// What a turn ends its FOR with, unless the FOR goes on with its course: QUIT ends it, and the rest of its line was its body. No value is
// wanted of a turn.
fn turn_ends(completion: Completion) -> Result<Option<Completion>, Code>
    ensures { Yields fault_of (fronts.turn_ends (completion_of completion)) (option_map completion_of) result }
{
    match completion {
        Completion::GoOn => Ok(None),
        Completion::Skips => Ok(None),
        Completion::Quits => Ok(Some(Completion::Skips)),
        Completion::Goes(target) => Ok(Some(Completion::Goes(target))),
        Completion::Returns(_) => Err(Code::M16),
    }
}

// Leaves the turns of a FOR on the frames.
#[inline(always)]
fn leave_turns(turns: Box<ForLoop>, scratch: &mut Scratch) -> Result<(), AllocError>
    ensures frames { OnOk result (stack scratch.new.frames.items ≡ Turns (position_of turns.value.body.position.value) (turning turns.value) ∷ stack scratch.old.frames.items) }
    ensures most { OnOk result (size scratch.new.frames.items ≤ size scratch.old.frames.items + 1) }
{
    scratch.frames.push(Frame::ForLoop(turns))?;
    Ok(())
}

// What follows a turn: turn after turn, as far as the body needs no frames, and then the parameters that are left.
fn after_course<S: NodeStore>(
    alloc: Global,
    parts: &mut Parts<S>,
    turns: Box<ForLoop>,
    scratch: &mut Scratch,
) -> Result<Completion, Code>
    ensures falls { Falls parts.old scratch.old result parts.new scratch.new }
    ensures does { RunsWithin S.NodeStore (λ a n. meaning.after_course (context a n (position_of turns.value.body.position.value)) (turning turns.value) (course_view turns.value.course))
        (stack scratch.old.frames.items) parts.old result (stack scratch.new.frames.items) parts.new }
{
    let body = turns.body.copy()?;
    'turns: loop {
        let goes_on = goes_on(parts, &turns)?;
        if !goes_on {
            return further(alloc, parts, Box::into_inner(turns), scratch);
        }
        parts.eval.charge()?;
        let (outcome, at) = front(alloc, parts, &body.position, &body.line, body.at)?;
        match outcome {
            Progress::Over(completion) => match turn_ends(completion)? {
                None => {}
                Some(completion) => return Ok(completion),
            },
            Progress::Stops(stop) => {
                let behind = body.copy_from(at)?;
                leave_turns(turns, scratch)?;
                return go_on(alloc, parts, stop, &behind, scratch);
            }
        }
    }
}

// What follows a turn that went on in this way.
pub(crate) fn after_turn<S: NodeStore>(
    alloc: Global,
    parts: &mut Parts<S>,
    turns: Box<ForLoop>,
    completion: Completion,
    scratch: &mut Scratch,
) -> Result<Completion, Code>
    ensures falls { Falls parts.old scratch.old result parts.new scratch.new }
    ensures does { RunsWithin S.NodeStore (λ a n. meaning.after_turn (context a n (position_of turns.value.body.position.value)) (turning turns.value) (completion_of completion))
        (stack scratch.old.frames.items) parts.old result (stack scratch.new.frames.items) parts.new }
{
    match turn_ends(completion)? {
        None => after_course(alloc, parts, turns, scratch),
        Some(completion) => Ok(completion),
    }
}
