// SPDX-License-Identifier: Apache-2.0
// The arguments of a command, one after another.
ghost use Rattle.std.specs.Prelude.{◌≡◌, ◌≤◌, ◌<◌, ◌+◌, ◌*◌, ◌-◌, ℕ, suc, List, Some, false, true, map, drop, slice_get, IfErr, IfOk};
ghost use Rattle.std.specs.List.{list_all, list_any};
ghost use Rattle.mgrammar.specs.CallsIn.{has_call, has_call_arg as the_has_call_arg, has_call_optional};
ghost use Rattle.mgrammar.specs.ProgramsIn.{in_steps_arg};
ghost use Rattle.mmeaning.specs.LineMeaning as meaning;
ghost use Rattle.mexec.specs.Words.{DoesAt, arg_tree, condition_tree, context, depth_of, entry_tree, expr_tree, inside};
ghost use Rattle.mexec.specs.Falls.{Falls, FallsBy, FallsByTwo};
ghost use Rattle.mexec.specs.Frames.{RunsFurther, RunsIf, RunsWithin, completion_of, went, source_args, source_position, position_of, stack};
ghost use Rattle.mexec.specs.Progress.{IfStops, ends};
ghost use Rattle.mexec.specs.Fronts.{args_started, begun_of};
ghost use Rattle.mexec.specs.Arguments.{Enters, IsReady, ahead, started, started_plainly, start_of, where_applies, entrance_of, entered, entered_then};
ghost use Rattle.moperator.specs.declared.code.Code.TheVariants.{Zmem};

use crate::completion::{Completion, Progress, over, went_on, where_true};
use crate::entering::{doing, executing};
use crate::frames::Position;
use crate::indirection::giving;
use crate::programs::{Pause, begun, resume};
use crate::scratch::Scratch;
use crate::source::{Place, Source};
use mcommand::Parts;
use mnodes::NodeStore;
use moperator::Code;
use mprogram::Whole;
use mtree::{Arg, Called, Entry, Expr, Keyword, Primary, has_call_arg};
use std::alloc::Global;

// What an argument enters: the lines from the one that is called on; a text; the arguments that the value of an operand gives; or what its
// own program, in which functions are called, has come to. That is boxed, so that the others stay small: each command hands one on.
#[derive(Drop)]
pub(crate) enum Entrance<'t> {
    Lines(&'t Called),
    Text(&'t Expr),
    Indirect(Keyword, &'t Primary),
    Paused(Box<Paused<'t>>),
}

// An argument in which functions are called, and what its program has come to.
#[derive(Drop)]
pub(crate) struct Paused<'t> {
    pub(crate) arg: &'t Arg,
    pub(crate) pause: Pause<'t>,
}

// An argument that goes on with the next, once it is done.
fn done<'t>(done: Result<(), Code>) -> Result<Progress<Entrance<'t>>, Code>
    ensures { result ≡ ends (went done) }
{
    over(went_on(done))
}

// One that enters lines or a text if its condition holds.
fn enters<'t>(
    applies: Result<bool, Code>,
    entrance: Entrance<'t>,
) -> Result<Progress<Entrance<'t>>, Code>
    ensures { result ≡ where_applies applies entrance.entry }
{
    match applies {
        Ok(true) => Ok(Progress::Stops(entrance)),
        Ok(false) => Ok(Progress::Over(Completion::GoOn)),
        Err(code) => Err(code),
    }
}

// GOTO: the line that it leads to.
pub(crate) fn leads_to<S: NodeStore>(
    alloc: Global,
    parts: &mut Parts<S>,
    position: &Position,
    entry: &Entry,
) -> Result<Completion, Code>
    ensures { DoesAt S.NodeStore (λ a n. meaning.going (context a n (position_of position.now)) (entry_tree entry.now)) completion_of parts.old result parts.new }
{
    let target = parts.target(alloc, &position.level.copy, position.level.dots, entry)?;
    Ok(Completion::Goes(target))
}

// GOTO, if its condition holds.
fn going<S: NodeStore>(
    alloc: Global,
    parts: &mut Parts<S>,
    position: &Position,
    entry: &Entry,
    condition: &Option<Box<Expr>>,
) -> Result<Completion, Code>
    requires { has_call_optional (condition_tree condition.now) ≡ false }
    ensures { DoesAt S.NodeStore (λ a n. meaning.where_holds (context a n (position_of position.now)) (condition_tree condition.now) (meaning.going (context a n (position_of position.now)) (entry_tree entry.now))) completion_of parts.old result parts.new }
{
    parts.eval.depth = position.depth;
    let applies = parts.holds(alloc, condition)?;
    if applies {
        leads_to(alloc, parts, position, entry)
    } else {
        Ok(Completion::GoOn)
    }
}

// IF, whose argument is a condition.
fn tested<S: NodeStore>(
    alloc: Global,
    parts: &mut Parts<S>,
    position: &Position,
    e: &Expr,
) -> Result<Completion, Code>
    requires { has_call (expr_tree e.now) ≡ false }
    ensures { DoesAt S.NodeStore (λ a n. meaning.testing (inside a n (depth_of position.now.depth)) (expr_tree e.now)) completion_of parts.old result parts.new }
{
    parts.eval.depth = position.depth;
    let is_true = parts.testing(alloc, e)?;
    Ok(where_true(is_true))
}

// QUIT with a value, which goes on until somebody takes it. Kept out of line, since it is rare.
#[inline(never)]
fn returning<S: NodeStore>(
    alloc: Global,
    parts: &mut Parts<S>,
    position: &Position,
    e: &Expr,
) -> Result<Completion, Code>
    requires { has_call (expr_tree e.now) ≡ false }
    ensures { DoesAt S.NodeStore (λ a n. meaning.returning (inside a n (depth_of position.now.depth)) (expr_tree e.now)) completion_of parts.old result parts.new }
{
    parts.eval.depth = position.depth;
    let value = parts.eval.eval(alloc, e)?;
    let value = Box::new(alloc, value)?;
    Ok(Completion::Returns(value))
}

// What an argument of any command but FOR does, up to where it enters something. No function is called in it.
fn argument<'t, S: NodeStore>(
    alloc: Global,
    parts: &mut Parts<S>,
    position: &Position,
    arg: &'t Arg,
) -> Result<Progress<Entrance<'t>>, Code>
    requires { the_has_call_arg (arg_tree arg.now) ≡ false }
    ensures enters { (all : List Arg) (at : ℕ) → IfOk result (λ progress. IfStops progress (IsReady all at)) }
    ensures does { DoesAt S.NodeStore (λ a n. started_plainly (context a n (position_of position.now)) (arg_tree arg.now)) start_of parts.old result parts.new }
{
    parts.eval.depth = position.depth;
    match arg {
        Arg::Assign(destination, e) => done(parts.setting(alloc, destination, e)),
        Arg::Formats(run, tab) => done(parts.formats(alloc, run.as_bytes(), tab)),
        Arg::Coded(e) => done(parts.coding(alloc, e)),
        Arg::Value(e) => done(parts.showing(alloc, e)),
        Arg::KillOne(reference) => done(parts.killing(alloc, reference)),
        Arg::KillOthers(names) => {
            parts.eval.kill_others(names);
            done(Ok(()))
        }
        Arg::NewOne(name) => done(parts.eval.hide_one(name)),
        Arg::NewOthers(names) => done(parts.eval.hide_others(alloc, names)),
        Arg::Tested(e) => over(tested(alloc, parts, position, e)),
        Arg::Loop(_, _) => done(Ok(())),
        Arg::DoOne(called, condition) => {
            enters(parts.holds(alloc, condition), Entrance::Lines(called))
        }
        Arg::GoTo(entry, condition) => over(going(alloc, parts, position, entry, condition)),
        Arg::Executed(e, condition) => enters(parts.holds(alloc, condition), Entrance::Text(e)),
        Arg::Lock(kind, names, timeout) => done(parts.locking(alloc, *kind, names, timeout)),
        Arg::HangFor(seconds) => done(parts.hanging(alloc, seconds)),
        Arg::Returned(e) => over(returning(alloc, parts, position, e)),
        Arg::MergeOne(target, source) => done(parts.merging(alloc, target, source)),
        Arg::Indirect(keyword, operand) => {
            Ok(Progress::Stops(Entrance::Indirect(*keyword, operand)))
        }
    }
}

// Whether a function is called in an argument, where one may be.
#[inline(always)]
fn calls_in_argument(arg: &Arg, may_call: bool) -> bool
    requires { may_call ≡ false → the_has_call_arg (arg_tree arg.now) ≡ false }
    ensures { result ≡ the_has_call_arg (arg_tree arg.now) }
{
    if may_call { has_call_arg(arg) } else { false }
}

// That a step was spent: these are left of as many as there were. Else it is out of memory, which no line is: a call costs a step, and so
// does the $SELECT that passes one by.
pub(crate) fn one_spent(left: u32, before: u32) -> Result<(), Code>
    ensures spent { IfOk result (λ _. left < before) }
    ensures wants { IfErr result (λ code. code ≡ Zmem) }
{
    if left < before {
        Ok(())
    } else {
        Err(Code::Zmem)
    }
}

// What an argument in which functions are called does, up to where its program opens a level. One text more may be entered in it, and in
// each argument, than there are steps: the command's own is spent. Kept out of line, since it is rare.
#[inline(never)]
fn program_begun<'t, S: NodeStore>(
    alloc: Global,
    parts: &mut Parts<S>,
    position: &Position,
    arg: &'t Arg,
) -> Result<Progress<Entrance<'t>>, Code>
    requires calls { the_has_call_arg (arg_tree arg.now) ≡ true }
    requires stepped { in_steps_arg (arg_tree arg.now) ≡ true }
    ensures spent { IfOk result (λ progress. IfStops progress (λ _. parts.new.eval.steps < parts.old.eval.steps)) }
    ensures enters { (args : List Arg) (at : ℕ) → slice_get args (at - 1) ≡ Some arg.now → IfOk result (λ progress. IfStops progress (IsReady args at)) }
    ensures does { DoesAt S.NodeStore (λ a n. started (context a (suc n) (position_of position.now)) (arg_tree arg.now)) start_of parts.old result parts.new }
{
    let before = parts.eval.steps;
    let whole = Whole::Argument(arg);
    let depth = position.depth;
    let pause = begun(alloc, parts, position, whole, depth, 0, Vec::new(alloc))?;
    match pause {
        Pause::Over(completion) => Ok(Progress::Over(completion)),
        other => {
            one_spent(parts.eval.steps, before)?;
            let boxed = Box::new(alloc, Paused { arg, pause: other })?;
            Ok(Progress::Stops(Entrance::Paused(boxed)))
        }
    }
}

// What an argument does, up to where it enters something.
#[inline(always)]
fn argument_begun<'t, S: NodeStore>(
    alloc: Global,
    parts: &mut Parts<S>,
    position: &Position,
    arg: &'t Arg,
    may_call: bool,
) -> Result<Progress<Entrance<'t>>, Code>
    requires plain { may_call ≡ false → the_has_call_arg (arg_tree arg.now) ≡ false }
    requires stepped { in_steps_arg (arg_tree arg.now) ≡ true }
    ensures ahead { IfOk result (λ progress. IfStops progress (λ e. parts.new.eval.steps + ahead e ≤ parts.old.eval.steps)) }
    ensures enters { (args : List Arg) (at : ℕ) → slice_get args (at - 1) ≡ Some arg.now → IfOk result (λ progress. IfStops progress (IsReady args at)) }
    ensures does { DoesAt S.NodeStore (λ a n. started (context a (suc n) (position_of position.now)) (arg_tree arg.now)) start_of parts.old result parts.new }
{
    if calls_in_argument(arg, may_call) {
        program_begun(alloc, parts, position, arg)
    } else {
        argument(alloc, parts, position, arg)
    }
}

// The arguments from one on, as long as each goes on with the next: what the last of them left, and the place after it. Functions may be
// called in them, or not: each caller says which, so that a compiled loop has no test of it.
#[inline(always)]
fn arguments_in_turn<'t, S: NodeStore>(
    alloc: Global,
    parts: &mut Parts<S>,
    position: &Position,
    args: &'t [Arg],
    from: usize,
    may_call: bool,
) -> Result<(Progress<Entrance<'t>>, usize), Code>
    requires plain { may_call ≡ false → list_any the_has_call_arg (map arg_tree args.now) ≡ false }
    requires stepped { list_all in_steps_arg (map arg_tree args.now) ≡ true }
    ensures ahead { IfOk result (λ begun. IfStops begun.0 (λ e. parts.new.eval.steps + ahead e ≤ parts.old.eval.steps)) }
    ensures enters { IfOk result (λ begun. IfStops begun.0 (IsReady args.now begun.1)) }
    ensures does { DoesAt S.NodeStore (λ a n. args_started (context a (suc n) (position_of position.now)) (map arg_tree (drop from args.now)))
        (begun_of args.now) parts.old result parts.new }
{
    let mut at = from;
    while at < args.len() {
        match argument_begun(alloc, parts, position, &args[at], may_call)? {
            Progress::Over(completion) => match completion {
                Completion::GoOn => at += 1,
                other => return Ok((Progress::Over(other), at + 1)),
            },
            Progress::Stops(entrance) => return Ok((Progress::Stops(entrance), at + 1)),
        }
    }
    Ok((Progress::Over(Completion::GoOn), at))
}

// The same, where functions may be called. Kept out of line, since it is rare.
#[inline(never)]
fn arguments_calling<'t, S: NodeStore>(
    alloc: Global,
    parts: &mut Parts<S>,
    position: &Position,
    args: &'t [Arg],
    from: usize,
) -> Result<(Progress<Entrance<'t>>, usize), Code>
    requires stepped { list_all in_steps_arg (map arg_tree args.now) ≡ true }
    ensures ahead { IfOk result (λ begun. IfStops begun.0 (λ e. parts.new.eval.steps + ahead e ≤ parts.old.eval.steps)) }
    ensures enters { IfOk result (λ begun. IfStops begun.0 (IsReady args.now begun.1)) }
    ensures does { DoesAt S.NodeStore (λ a n. args_started (context a (suc n) (position_of position.now)) (map arg_tree (drop from args.now)))
        (begun_of args.now) parts.old result parts.new }
{
    arguments_in_turn(alloc, parts, position, args, from, true)
}

// The arguments from one on, as long as each goes on with the next: what the last of them left, and the place after it. Functions may be
// called in them, or not.
#[inline(always)]
pub(crate) fn arguments_begun<'t, S: NodeStore>(
    alloc: Global,
    parts: &mut Parts<S>,
    position: &Position,
    args: &'t [Arg],
    from: usize,
    may_call: bool,
) -> Result<(Progress<Entrance<'t>>, usize), Code>
    requires plain { may_call ≡ false → list_any the_has_call_arg (map arg_tree args.now) ≡ false }
    requires stepped { list_all in_steps_arg (map arg_tree args.now) ≡ true }
    ensures ahead { IfOk result (λ begun. IfStops begun.0 (λ e. parts.new.eval.steps + ahead e ≤ parts.old.eval.steps)) }
    ensures enters { IfOk result (λ begun. IfStops begun.0 (IsReady args.now begun.1)) }
    ensures does { DoesAt S.NodeStore (λ a n. args_started (context a (suc n) (position_of position.now)) (map arg_tree (drop from args.now)))
        (begun_of args.now) parts.old result parts.new }
{
    if may_call {
        arguments_calling(alloc, parts, position, args, from)
    } else {
        arguments_in_turn(alloc, parts, position, args, from, false)
    }
}

// What the program of the argument before one leads to. Kept out of line, so that a DO needs no room for what it has come to.
#[inline(never)]
fn resuming<S: NodeStore>(
    alloc: Global,
    parts: &mut Parts<S>,
    paused: Box<Paused>,
    source: Source,
    argument: usize,
    scratch: &mut Scratch,
) -> Result<Completion, Code>
    requires { slice_get (source_args source) (argument - 1) ≡ Some paused.value.arg.now }
    ensures falls { FallsByTwo parts.old scratch.old result parts.new scratch.new }
    ensures does { RunsFurther S.NodeStore
        (λ a n. entered (context a n (position_of (source_position source.entry))) (entrance_of (Entrance.Paused paused.entry)))
        (stack scratch.old.frames.items) parts.old result (stack scratch.new.frames.items) parts.new }
{
    let place = Place::Argument(source, argument.saturating_sub(1));
    let Paused { arg: _, pause } = Box::into_inner(paused);
    resume(alloc, parts, place, pause, scratch)
}

// What an argument enters, before the arguments from one on: these stay on the frames.
pub(crate) fn enter_argument<S: NodeStore>(
    alloc: Global,
    parts: &mut Parts<S>,
    entrance: Entrance,
    source: Source,
    argument: usize,
    scratch: &mut Scratch,
) -> Result<Completion, Code>
    requires { IsReady (source_args source) argument entrance }
    ensures falls { FallsBy (3 * ahead entrance.entry) parts.old scratch.old result parts.new scratch.new }
    ensures does { RunsIf (Enters entrance.entry) S.NodeStore (λ a n. entered_then (context a n (position_of (source_position source.entry))) (entrance_of entrance.entry) (map arg_tree (drop argument (source_args source.entry))))
        (stack scratch.old.frames.items) parts.old result (stack scratch.new.frames.items) parts.new }
{
    source.leave(argument, scratch)?;
    let position = source.position();
    match entrance {
        Entrance::Lines(called) => doing(alloc, parts, position, called, scratch),
        Entrance::Text(e) => executing(alloc, parts, position, e, scratch),
        Entrance::Indirect(keyword, operand) => {
            giving(alloc, parts, position, keyword, operand, scratch)
        }
        Entrance::Paused(paused) => resuming(alloc, parts, paused, source, argument, scratch),
    }
}

// What the arguments from one on do.
pub(crate) fn arguments<S: NodeStore>(
    alloc: Global,
    parts: &mut Parts<S>,
    source: Source,
    from: usize,
    scratch: &mut Scratch,
) -> Result<Completion, Code>
    ensures falls { Falls parts.old scratch.old result parts.new scratch.new }
    ensures does { RunsWithin S.NodeStore (λ a n. meaning.arguments (context a n (position_of (source_position source.entry))) (map arg_tree (drop from (source_args source.entry))))
        (stack scratch.old.frames.items) parts.old result (stack scratch.new.frames.items) parts.new }
{
    let may_call = source.since() > 0;
    let (begun, argument) = arguments_begun(
        alloc,
        parts,
        source.position(),
        source.all(),
        from,
        may_call,
    )?;
    match begun {
        Progress::Over(completion) => Ok(completion),
        Progress::Stops(entrance) => {
            enter_argument(alloc, parts, entrance, source, argument, scratch)
        }
    }
}
