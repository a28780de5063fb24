// SPDX-License-Identifier: Apache-2.0
// The commands of a line, one after another, as far as they need no frame.
ghost use Rattle.std.specs.Prelude.{◌≡◌, ◌≤◌, ◌<◌, ◌+◌, suc, [], false, true, map, IfOk};
ghost use Rattle.std.specs.List.{list_all, list_any};
ghost use Rattle.mgrammar.specs.CallsIn.{has_call_arg, has_call_optional as the_has_call_optional};
ghost use Rattle.mgrammar.specs.ProgramsIn.{in_steps_arg};
ghost use Rattle.mmeaning.specs.LineMeaning as meaning;
ghost use Rattle.mexec.specs.Words.{DoesAt, arg_tree, command_tree, condition_tree, context, keyword_tree};
ghost use Rattle.mexec.specs.Frames.{commands_from, position_of};
ghost use Rattle.mexec.specs.Loops.{spaced_before};
ghost use Rattle.mexec.specs.Uncalled.{IsPlayed, has_call_command, in_steps_command};
ghost use Rattle.mexec.specs.Fronts as fronts;
ghost use Rattle.mexec.specs.Progress.{IfStops};
ghost use Rattle.mexec.specs.Fronts.{StopsAt, StopsBefore, StopsIn, command_started, effect_started, front_of, outcome_of, stop_ahead, stops_at, word_started};

use crate::arguments::{Entrance, arguments_begun};
use crate::completion::{Completion, Progress, over, went_on, where_true};
use crate::frames::Position;
use mcommand::Parts;
use mnodes::NodeStore;
use mnum::Name;
use moperator::Code;
use mtree::{Arg, Command, Expr, Keyword, Line, Parameter, has_call_optional};
use std::alloc::Global;

// Where a command needs a frame: at what an argument enters, before the arguments from one on; at a FOR with its index and its
// parameters; at one without an index; at the block of a DO; or at a condition in which functions are called.
#[derive(Drop)]
pub(crate) enum Stop<'t> {
    Argument(Entrance<'t>, usize),
    Loop(&'t Name, &'t [Parameter]),
    Turns,
    Block,
    Condition(&'t Command),
}

// A command whose arguments have begun.
#[inline(always)]
fn stopped<'t>(
    begun: Result<(Progress<Entrance<'t>>, usize), Code>,
) -> Result<Progress<Stop<'t>>, Code>
    ensures { result ≡ stops_at begun.entry }
{
    match begun {
        Ok((begun, at)) => match begun {
            Progress::Over(completion) => Ok(Progress::Over(completion)),
            Progress::Stops(entrance) => Ok(Progress::Stops(Stop::Argument(entrance, at))),
        },
        Err(code) => Err(code),
    }
}

// What a command without arguments does.
#[inline(always)]
fn bare<'t, S: NodeStore>(
    alloc: Global,
    parts: &mut Parts<S>,
    keyword: Keyword,
) -> Result<Progress<Stop<'t>>, Code>
    ensures turns { IfOk result (λ outcome. IfStops outcome (StopsIn [])) }
    ensures ahead { IfOk result (λ outcome. IfStops outcome (λ st. stop_ahead st ≡ 0)) }
    ensures does { (p : meaning.Position) → DoesAt S.NodeStore (λ a n. word_started (context a n p) (keyword_tree keyword)) (outcome_of []) parts.old result parts.new }
{
    match keyword {
        Keyword::For => Ok(Progress::Stops(Stop::Turns)),
        Keyword::Do => Ok(Progress::Stops(Stop::Block)),
        Keyword::Set => over(Ok(Completion::GoOn)),
        Keyword::Kill => {
            parts.eval.kill_others(&[]);
            over(Ok(Completion::GoOn))
        }
        Keyword::New => over(went_on(parts.eval.hide_others(alloc, &[]))),
        Keyword::If => over(Ok(where_true(parts.eval.test()))),
        Keyword::Else => over(Ok(where_true(!parts.eval.test()))),
        Keyword::Quit => over(Ok(Completion::Quits)),
        Keyword::Write => over(Ok(Completion::GoOn)),
        Keyword::Goto => over(Ok(Completion::GoOn)),
        Keyword::Execute => over(Ok(Completion::GoOn)),
        Keyword::Lock => {
            parts.release();
            over(Ok(Completion::GoOn))
        }
        Keyword::Merge => over(Ok(Completion::GoOn)),
        Keyword::Halt => Err(Code::Halting),
        Keyword::Hang => over(Ok(Completion::GoOn)),
        Keyword::HaltOrHang => Err(Code::Halting),
    }
}

// What a command with this word and these arguments does, if its condition holds. Functions may be called in them, or not. The command's
// own step is spent, so one text more may be entered than there are steps.
#[inline(always)]
pub(crate) fn effect<'t, S: NodeStore>(
    alloc: Global,
    parts: &mut Parts<S>,
    position: &Position,
    keyword: Keyword,
    args: &'t [Arg],
    may_call: bool,
) -> Result<Progress<Stop<'t>>, Code>
    requires plain { may_call ≡ false → list_any has_call_arg (map arg_tree args.now) ≡ false }
    requires stepped { list_all in_steps_arg (map arg_tree args.now) ≡ true }
    ensures ahead { IfOk result (λ outcome. IfStops outcome (λ st. parts.new.eval.steps + stop_ahead st ≤ parts.old.eval.steps)) }
    ensures stops { IfOk result (λ outcome. IfStops outcome (StopsIn args.now)) }
    ensures does { DoesAt S.NodeStore (λ a n. effect_started (context a (suc n) (position_of position.now)) (keyword_tree keyword) (map arg_tree args.now)) (outcome_of args.now) parts.old result parts.new }
{
    match args.first() {
        None => bare(alloc, parts, keyword),
        Some(first) => match first {
            Arg::Loop(index, parameters) => {
                Ok(Progress::Stops(Stop::Loop(index, parameters.as_slice())))
            }
            _ => stopped(arguments_begun(alloc, parts, position, args, 0, may_call)),
        },
    }
}

// Whether a function is called in a condition, where one may be.
#[inline(always)]
fn calls_in_condition(condition: &Option<Box<Expr>>, may_call: bool) -> bool
    requires { may_call ≡ false → the_has_call_optional (condition_tree condition.now) ≡ false }
    ensures { result ≡ the_has_call_optional (condition_tree condition.now) }
{
    if may_call {
        has_call_optional(condition)
    } else {
        false
    }
}

// What a command does. Functions may be called in it, or not.
#[inline(always)]
fn command<'t, S: NodeStore>(
    alloc: Global,
    parts: &mut Parts<S>,
    position: &Position,
    command: &'t Command,
    may_call: bool,
) -> Result<Progress<Stop<'t>>, Code>
    requires plain { may_call ≡ false → has_call_command (command_tree command.now) ≡ false }
    requires stepped { in_steps_command (command_tree command.now) ≡ true }
    ensures ahead { IfOk result (λ outcome. IfStops outcome (λ st. parts.new.eval.steps + stop_ahead st ≤ parts.old.eval.steps)) }
    ensures stops { IfOk result (λ outcome. IfStops outcome (StopsAt command.now)) }
    ensures does { DoesAt S.NodeStore (λ a n. command_started (context a (suc n) (position_of position.now)) (command_tree command.now)) (outcome_of command.now.args.items) parts.old result parts.new }
{
    if calls_in_condition(&command.condition, may_call) {
        return Ok(Progress::Stops(Stop::Condition(command)));
    }
    parts.eval.depth = position.depth;
    let applies = parts.holds(alloc, &command.condition)?;
    if applies {
        effect(
            alloc,
            parts,
            position,
            command.keyword,
            &command.args,
            may_call,
        )
    } else {
        Ok(Progress::Over(Completion::GoOn))
    }
}

// The commands of a line from one on, as long as each goes on with the next: where the last of them stops, and the place after it. Functions
// may be called in them, or not: each caller says which, so that a compiled loop has no test of it.
#[inline(always)]
fn commands_in_turn<'t, S: NodeStore>(
    alloc: Global,
    parts: &mut Parts<S>,
    position: &Position,
    line: &'t Line,
    from: usize,
    may_call: bool,
) -> Result<(Progress<Stop<'t>>, usize), Code>
    requires played { IsPlayed line.now }
    requires plain { may_call ≡ false → line.now.since ≡ 0 }
    ensures spent { IfOk result (λ x. IfStops x.0 (λ st. parts.new.eval.steps + stop_ahead st < parts.old.eval.steps)) }
    ensures stops { IfOk result (λ x. IfStops x.0 (StopsBefore (spaced_before line.now x.1))) }
    ensures does { DoesAt S.NodeStore (λ a n. fronts.front (context a n (position_of position.now)) (commands_from line.now from))
        (front_of line.now) parts.old result parts.new }
{
    let mut at = from;
    while at < line.commands.len() {
        parts.eval.charge()?;
        match command(alloc, parts, position, &line.commands[at].command, may_call)? {
            Progress::Over(completion) => match completion {
                Completion::GoOn => at += 1,
                other => return Ok((Progress::Over(other), at + 1)),
            },
            Progress::Stops(stop) => return Ok((Progress::Stops(stop), at + 1)),
        }
    }
    Ok((Progress::Over(Completion::GoOn), at))
}

// The same, where functions may be called. Kept out of line, since it is rare.
#[inline(never)]
fn commands_calling<'t, S: NodeStore>(
    alloc: Global,
    parts: &mut Parts<S>,
    position: &Position,
    line: &'t Line,
    from: usize,
) -> Result<(Progress<Stop<'t>>, usize), Code>
    requires { IsPlayed line.now }
    ensures spent { IfOk result (λ x. IfStops x.0 (λ st. parts.new.eval.steps + stop_ahead st < parts.old.eval.steps)) }
    ensures stops { IfOk result (λ x. IfStops x.0 (StopsBefore (spaced_before line.now x.1))) }
    ensures does { DoesAt S.NodeStore (λ a n. fronts.front (context a n (position_of position.now)) (commands_from line.now from))
        (front_of line.now) parts.old result parts.new }
{
    commands_in_turn(alloc, parts, position, line, from, true)
}

// The commands of a line from one on, as long as each goes on with the next: where the last of them stops, and the place after it.
pub(crate) fn front<'t, S: NodeStore>(
    alloc: Global,
    parts: &mut Parts<S>,
    position: &Position,
    line: &'t Line,
    from: usize,
) -> Result<(Progress<Stop<'t>>, usize), Code>
    requires { IsPlayed line.now }
    ensures spent { IfOk result (λ x. IfStops x.0 (λ st. parts.new.eval.steps + stop_ahead st < parts.old.eval.steps)) }
    ensures stops { IfOk result (λ x. IfStops x.0 (StopsBefore (spaced_before line.now x.1))) }
    ensures does { DoesAt S.NodeStore (λ a n. fronts.front (context a n (position_of position.now)) (commands_from line.now from))
        (front_of line.now) parts.old result parts.new }
{
    let may_call = line.since > 0;
    if may_call {
        commands_calling(alloc, parts, position, line, from)
    } else {
        commands_in_turn(alloc, parts, position, line, from, false)
    }
}
