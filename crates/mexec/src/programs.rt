// SPDX-License-Identifier: Apache-2.0
// Programs: an argument, or a condition, in which functions are called, a step at a time. Where a function's level opens, what is left of
// the program stays on the frames.
ghost use Rattle.std.specs.Prelude.{◌≡◌, ◌≤◌, ◌+◌, suc, List, [], Some, IfErr, IfOk, is_some, length, map, option_map, drop, true, false};
ghost use Rattle.mcommand.specs.ForParameters.{course_view};
ghost use Rattle.mmeaning.specs.Frames.{frame, Programs, resumed};
ghost use Rattle.mmeaning.specs.LineMeaning as meaning;
ghost use Rattle.mmeaning.specs.LineMeaning.{context};
ghost use Rattle.mmeaning.specs.Levels.{leaves};
ghost use Rattle.mmeaning.specs.Programs as programs;
ghost use Rattle.mgrammar.specs.Grammar.{choices_of, CommandTree, ParameterTree};
ghost use Rattle.mmeaning.specs.Programs.{listed, of_choices, of_value};
ghost use Rattle.mlocal.specs.Bindings.{binding_of};
ghost use Rattle.mmeaning.specs.Yields.{Yields};
ghost use Rattle.moperator.specs.Codes.{fault_of};
ghost use Rattle.moperator.specs.declared.code.Code.TheVariants.{Zmem};
ghost use Rattle.mtree.specs.Tree.{choice_tree, entry_tree, expr_tree, kind_tree};
ghost use Rattle.mprogram.specs.Wholes.{WholeTree, steps_of, ending_of as the_ending_of};
ghost use Rattle.mprogram.specs.Views.{ending_view, whole_view};
ghost use Rattle.meval.specs.Evaluates.{depth_of};
ghost use Rattle.mcommand.specs.Does.{DoesAt};
ghost use Rattle.mcommand.specs.Steps.{items_view};
ghost use Rattle.mexec.specs.Falls.{Falls, FallsByTwo, FallsFurther};
ghost use Rattle.mexec.specs.Frames.{RunsFurther, RunsWithin, completion_of, holder_position, position_of, stack, view};
ghost use Rattle.mexec.specs.Places.{place_position, whole_at};
ghost use Rattle.mexec.specs.Programs.{call_of, calls_with, chosen_from, ends, ends_with, pause_of, pauses, IsNumber};
ghost use Rattle.mexec.specs.Wholes.{ending_within, steps_within, whole_of};

use crate::arguments::leads_to;
use crate::completion::{Completion, went_on, where_true};
use crate::entering::{Opening, entering, executing_value};
use crate::frames::{Closing, Position};
use crate::indirection::giving_value;
use crate::scratch::Scratch;
use crate::source::Place;
use crate::suspended::Suspended;
use crate::turns::turned;
use mcommand::{
    Course, Item, Parts, attach_step, take_found, take_handing, take_item, take_names,
    take_targets, take_value,
};
use meval::Depth;
use mlocal::Binding;
use mnodes::NodeStore;
use mnum::Name;
use moperator::{Code, truth_of};
use mprogram::{Ending, Op, Whole, ending_of, op_at, steps_in_choices, steps_in_value};
use mtree::{Choice, Entry, Expr, Keyword, LockKind};
use mvalue::Value;
use std::alloc::Global;

// The call of a function: how deep it is, where the function stands, what `$TEST` was before its actuals, what these hand over, and what is
// then left of the program: its steps from one on, and its stack.
#[derive(Drop)]
pub(crate) struct Call<'t> {
    pub(crate) depth: Depth,
    pub(crate) entry: &'t Entry,
    pub(crate) test: bool,
    pub(crate) bindings: Vec<Binding>,
    pub(crate) at: usize,
    pub(crate) items: Vec<Item>,
}

// How far a program comes by itself: to its end; to the call of a function; to the lines that a DO calls, whether a list of actuals is
// written, and what they hand over; to a text of XECUTE; to one that gives arguments of a command with this word; or to the turns of a
// parameter of FOR, if there is one.
#[derive(Drop)]
pub(crate) enum Pause<'t> {
    Over(Completion),
    Calls(Call<'t>),
    Enters(&'t Entry, bool, Vec<Binding>),
    Executes(Value),
    Lists(Keyword, Value),
    Turns(Option<Course>),
}

// What gave its completion.
fn paused<'t>(completion: Result<Completion, Code>) -> Result<Pause<'t>, Code>
    ensures { result ≡ pauses completion }
{
    match completion {
        Ok(completion) => Ok(Pause::Over(completion)),
        Err(code) => Err(code),
    }
}

// At the call of a function that is so deep, after which the steps from one on are left.
fn called<'t>(
    depth: Depth,
    entry: &'t Entry,
    at: usize,
    items: Vec<Item>,
) -> Result<Pause<'t>, Code>
    ensures { (w : WholeTree) → Yields fault_of (calls_with w (depth_of depth) (entry_tree entry.now) at (items_view items.items)) (pause_of w) result }
{
    let mut items = items;
    let (test, bindings) = take_handing(&mut items)?;
    Ok(Pause::Calls(Call {
        depth,
        entry,
        test,
        bindings,
        at,
        items,
    }))
}

// SET, in the end.
fn assigned<'t, S: NodeStore>(
    alloc: Global,
    parts: &mut Parts<S>,
    items: Vec<Item>,
) -> Result<Pause<'t>, Code>
    ensures { (x : meaning.Context) (w : WholeTree) → DoesAt S.NodeStore (λ a n. ends x programs.Assign (items_view items.items))
        (pause_of w) parts.old result parts.new }
{
    let mut items = items;
    let value = take_value(&mut items)?;
    let all = take_targets(&mut items)?;
    paused(went_on(parts.assign_all(alloc, &value, all)))
}

// KILL, in the end.
fn killed<'t, S: NodeStore>(
    alloc: Global,
    parts: &mut Parts<S>,
    items: Vec<Item>,
) -> Result<Pause<'t>, Code>
    ensures { (x : meaning.Context) (w : WholeTree) → DoesAt S.NodeStore (λ a n. ends x programs.Kill (items_view items.items))
        (pause_of w) parts.old result parts.new }
{
    let mut items = items;
    let pending = take_found(&mut items)?;
    paused(went_on(parts.kill_found(alloc, pending)))
}

// MERGE, in the end.
fn merged<'t, S: NodeStore>(
    alloc: Global,
    parts: &mut Parts<S>,
    items: Vec<Item>,
) -> Result<Pause<'t>, Code>
    ensures { (x : meaning.Context) (w : WholeTree) → DoesAt S.NodeStore (λ a n. ends x programs.Merge (items_view items.items))
        (pause_of w) parts.old result parts.new }
{
    let mut items = items;
    let source = take_found(&mut items)?;
    let target = take_found(&mut items)?;
    paused(went_on(parts.merge_found(alloc, target, source)))
}

// LOCK with a timeout, in the end.
fn locked_timed<'t, S: NodeStore>(
    alloc: Global,
    parts: &mut Parts<S>,
    kind: LockKind,
    items: Vec<Item>,
) -> Result<Pause<'t>, Code>
    ensures { (x : meaning.Context) (w : WholeTree) → DoesAt S.NodeStore (λ a n. ends x (programs.Lock (kind_tree kind) true) (items_view items.items))
        (pause_of w) parts.old result parts.new }
{
    let mut items = items;
    let timeout = take_value(&mut items)?;
    let names = take_names(&mut items)?;
    paused(went_on(parts.lock_done(alloc, kind, &names, &Some(timeout))))
}

// LOCK without one.
fn locked_plainly<'t, S: NodeStore>(
    alloc: Global,
    parts: &mut Parts<S>,
    kind: LockKind,
    items: Vec<Item>,
) -> Result<Pause<'t>, Code>
    ensures { (x : meaning.Context) (w : WholeTree) → DoesAt S.NodeStore (λ a n. ends x (programs.Lock (kind_tree kind) false) (items_view items.items))
        (pause_of w) parts.old result parts.new }
{
    let mut items = items;
    let names = take_names(&mut items)?;
    paused(went_on(parts.lock_done(alloc, kind, &names, &None)))
}

// LOCK, in the end: whether there is a timeout.
fn locked<'t, S: NodeStore>(
    alloc: Global,
    parts: &mut Parts<S>,
    kind: LockKind,
    is_timed: bool,
    items: Vec<Item>,
) -> Result<Pause<'t>, Code>
    ensures { (x : meaning.Context) (w : WholeTree) → DoesAt S.NodeStore (λ a n. ends x (programs.Lock (kind_tree kind) is_timed) (items_view items.items))
        (pause_of w) parts.old result parts.new }
{
    if is_timed {
        locked_timed(alloc, parts, kind, items)
    } else {
        locked_plainly(alloc, parts, kind, items)
    }
}

// A parameter of FOR, in the end.
fn looped<'t, S: NodeStore>(
    parts: &mut Parts<S>,
    index: &Name,
    items: Vec<Item>,
) -> Result<Pause<'t>, Code>
    ensures { (x : meaning.Context) (rest : List ParameterTree) (body : List CommandTree) (w : WholeTree) → DoesAt S.NodeStore (λ a n. ends x (programs.Loop index.now rest body) (items_view items.items))
        (pause_of w) parts.old result parts.new }
{
    let mut items = items;
    let left = take_item(&mut items)?;
    let course = parts.begin_course(index, left)?;
    Ok(Pause::Turns(course))
}

// DO, in the end.
fn entered<'t>(entry: &'t Entry, is_listed: bool, items: Vec<Item>) -> Result<Pause<'t>, Code>
    ensures { (x : meaning.Context) (w : WholeTree) → Yields fault_of (ends x (programs.Enter (entry_tree entry.now) is_listed) (items_view items.items))
        (pause_of w) result }
{
    let mut items = items;
    let (_, bindings) = take_handing(&mut items)?;
    Ok(Pause::Enters(entry, is_listed, bindings))
}

// A command that does something with one value, in the end.
fn ended_with<'t, S: NodeStore>(
    alloc: Global,
    parts: &mut Parts<S>,
    ending: Ending,
    value: Value,
) -> Result<Pause<'t>, Code>
    ensures { (w : WholeTree) → DoesAt S.NodeStore (λ a n. ends_with (ending_view ending.entry) value) (pause_of w) parts.old result parts.new }
{
    match ending {
        Ending::Show => paused(went_on(parts.write_value(&value))),
        Ending::Tab => paused(went_on(parts.spaced_to(&value))),
        Ending::Character => paused(went_on(parts.character_written(&value))),
        Ending::Test => {
            let is_true = parts.truth_tested(&value)?;
            Ok(Pause::Over(where_true(is_true)))
        }
        Ending::Hold => {
            let is_true = truth_of(&value)?;
            Ok(Pause::Over(where_true(is_true)))
        }
        Ending::Wait => paused(went_on(parts.hang(&value))),
        Ending::Return => {
            let value = Box::new(alloc, value)?;
            Ok(Pause::Over(Completion::Returns(value)))
        }
        Ending::Run => Ok(Pause::Executes(value)),
        Ending::Indirect(keyword) => Ok(Pause::Lists(keyword, value)),
        _ => Ok(Pause::Executes(value)),
    }
}

// What a command does in the end.
fn ended<'t, S: NodeStore>(
    alloc: Global,
    parts: &mut Parts<S>,
    position: &Position,
    ending: Ending<'t>,
    items: Vec<Item>,
) -> Result<Pause<'t>, Code>
    ensures { (w : WholeTree) → DoesAt S.NodeStore (λ a n. ends (context a n (position_of position.now)) (ending_view ending.entry) (items_view items.items))
        (pause_of w) parts.old result parts.new }
{
    match ending {
        Ending::Assign => assigned(alloc, parts, items),
        Ending::Enter(entry, is_listed) => entered(entry, is_listed, items),
        Ending::Go(entry) => paused(leads_to(alloc, parts, position, entry)),
        Ending::Kill => killed(alloc, parts, items),
        Ending::Merge => merged(alloc, parts, items),
        Ending::Lock(kind, is_timed) => locked(alloc, parts, kind, is_timed, items),
        Ending::Nothing => Ok(Pause::Over(Completion::GoOn)),
        Ending::Loop(index, _, _) => looped(parts, index, items),
        _ => {
            let mut items = items;
            let value = take_value(&mut items)?;
            ended_with(alloc, parts, ending, value)
        }
    }
}

// The number of the step after this one; `Zmem` if the machine's numbers do not go so far, as they do for each tree.
#[inline(always)]
fn after_step(at: usize) -> Result<usize, Code>
    ensures next { IsNumber result (at + 1) }
    ensures wants { IfErr result (λ code. code ≡ Zmem) }
{
    match at.checked_add(1) {
        Some(next) => Ok(next),
        None => Err(Code::Zmem),
    }
}

// The number of the step that comes after those of a value of $SELECT and one more; `Zmem` as above.
fn past_value(at: usize, value: &Expr) -> Result<usize, Code>
    ensures past { IsNumber result (at + suc (length (of_value (expr_tree value.now) []))) }
    ensures wants { IfErr result (λ code. code ≡ Zmem) }
{
    let Some(count) = steps_in_value(value) else {
        return Err(Code::Zmem);
    };
    match at.checked_add(count) {
        Some(last) => after_step(last),
        None => Err(Code::Zmem),
    }
}

// The number of the step that comes after those of choices of $SELECT; `Zmem` as above.
fn past_choices(at: usize, choices: &[Choice]) -> Result<usize, Code>
    ensures past { IsNumber result (at + length (of_choices (choices_of (map choice_tree choices.now)) [])) }
    ensures wants { IfErr result (λ code. code ≡ Zmem) }
{
    let Some(count) = steps_in_choices(choices) else {
        return Err(Code::Zmem);
    };
    match at.checked_add(count) {
        Some(past) => Ok(past),
        None => Err(Code::Zmem),
    }
}

// The number of the step that comes after the condition of a choice, which is on top: the first of the choice's value, or one past that if the
// condition is false.
fn chosen(at: usize, value: &Expr, items: &mut Vec<Item>) -> Result<usize, Code>
    ensures on { IfOk result (λ next. at ≤ next) }
    ensures does { Yields fault_of (chosen_from at (suc (length (of_value (expr_tree value.now) []))) (items_view items.old.items)) (λ next. (next, items_view items.new.items)) result }
{
    let condition = take_value(items)?;
    let is_true = truth_of(&condition)?;
    if is_true {
        return Ok(at);
    }
    past_value(at, value)
}

// A program from one of its steps on, which is so deep, with this stack, as far as it comes by itself. A text may be entered in it, as within
// a command.
pub(crate) fn begun<'t, S: NodeStore>(
    alloc: Global,
    parts: &mut Parts<S>,
    position: &Position,
    whole: Whole<'t>,
    depth: Depth,
    from: usize,
    items: Vec<Item>,
) -> Result<Pause<'t>, Code>
    ensures { DoesAt S.NodeStore (λ a n. programs.begun (context a (suc n) (position_of position.now)) (depth_of depth) (drop from (steps_of (whole_view whole.entry))) (the_ending_of (whole_view whole.entry)) (items_view items.items))
        (pause_of (whole_view whole.entry)) parts.old result parts.new }
{
    parts.eval.depth = depth;
    let mut stack = items;
    let mut at = from;
    while let Some(op) = op_at(whole, at) {
        let next = after_step(at)?;
        match op {
            Op::Call(entry) => return called(parts.eval.depth, entry, next, stack),
            Op::Unless(value) => at = chosen(next, value, &mut stack)?,
            Op::Pass(choices) => at = past_choices(next, choices)?,
            Op::Deeper => {
                let deeper = parts.deeper_step(alloc, &mut stack)?;
                parts.eval.depth = deeper;
                at = next;
            }
            Op::Attach => {
                let outer = attach_step(alloc, &mut stack)?;
                parts.eval.depth = outer;
                at = next;
            }
            other => {
                let goes_on = parts.step(alloc, other, &mut stack)?;
                if !goes_on {
                    return Ok(Pause::Over(Completion::GoOn));
                }
                at = next;
            }
        }
    }
    ended(alloc, parts, position, ending_of(whole), stack)
}

// The function that a program calls, on top of what is then left of the program.
pub(crate) fn calling<S: NodeStore>(
    alloc: Global,
    parts: &mut Parts<S>,
    place: Place,
    call: Call,
    scratch: &mut Scratch,
) -> Result<Completion, Code>
    requires { is_some (whole_at place) ≡ true }
    ensures falls { FallsFurther parts.old scratch.old result parts.new scratch.new }
    ensures does { (w : WholeTree) → whole_at place.entry ≡ Some w
        → RunsFurther S.NodeStore (λ a n. resumed a n (position_of (place_position place.entry)) (the_ending_of w) (call_of w call.entry))
        (stack scratch.old.frames.items) parts.old result (stack scratch.new.frames.items) parts.new }
{
    let Call {
        depth,
        entry,
        test,
        bindings,
        at,
        items,
    } = call;
    place.leave(alloc, depth, at, items, scratch)?;
    let opening = Opening {
        depth,
        entry,
        is_listed: true,
        bindings,
        closing: Closing::Answers(test),
    };
    entering(alloc, parts, place.position(), opening, scratch)
}

// The lines that a DO enters.
fn entering_lines<S: NodeStore>(
    alloc: Global,
    parts: &mut Parts<S>,
    position: &Position,
    entry: &Entry,
    is_listed: bool,
    bindings: Vec<Binding>,
    scratch: &mut Scratch,
) -> Result<Completion, Code>
    ensures falls { FallsFurther parts.old scratch.old result parts.new scratch.new }
    ensures does { RunsWithin S.NodeStore (λ a n. meaning.entering (context a n (position_of position.now)) (entry_tree entry.now) (listed is_listed) (map binding_of bindings.items) leaves)
        (stack scratch.old.frames.items) parts.old result (stack scratch.new.frames.items) parts.new }
{
    let opening = Opening {
        depth: position.depth,
        entry,
        is_listed,
        bindings,
        closing: Closing::Leaves,
    };
    entering(alloc, parts, position, opening, scratch)
}

// The turns of a parameter of FOR, at which a program stands.
fn turning<S: NodeStore>(
    alloc: Global,
    parts: &mut Parts<S>,
    place: Place,
    course: Option<Course>,
    scratch: &mut Scratch,
) -> Result<Completion, Code>
    ensures falls { Falls parts.old scratch.old result parts.new scratch.new }
    ensures does { (w : WholeTree) → whole_at place.entry ≡ Some w
        → RunsWithin S.NodeStore (λ a n. programs.turned (context a n (position_of (place_position place.entry))) (the_ending_of w) (option_map course_view course))
        (stack scratch.old.frames.items) parts.old result (stack scratch.new.frames.items) parts.new }
{
    match place {
        // neither has turns
        Place::Argument(_, _) => Err(Code::Zmem),
        Place::Condition(_) => Err(Code::Zmem),
        Place::Parameter(body, at) => turned(alloc, parts, body, at, course, scratch),
    }
}

// What a program leads to where it comes to a level, or to its end. A text takes two frames.
#[inline(never)]
pub(crate) fn resume<S: NodeStore>(
    alloc: Global,
    parts: &mut Parts<S>,
    place: Place,
    pause: Pause,
    scratch: &mut Scratch,
) -> Result<Completion, Code>
    requires { is_some (whole_at place) ≡ true }
    ensures falls { FallsByTwo parts.old scratch.old result parts.new scratch.new }
    ensures does { (w : WholeTree) → whole_at place.entry ≡ Some w
        → RunsFurther S.NodeStore (λ a n. resumed a n (position_of (place_position place.entry)) (the_ending_of w) (pause_of w pause.entry))
        (stack scratch.old.frames.items) parts.old result (stack scratch.new.frames.items) parts.new }
{
    match pause {
        Pause::Over(completion) => Ok(completion),
        Pause::Calls(call) => calling(alloc, parts, place, call, scratch),
        Pause::Enters(entry, is_listed, bindings) => entering_lines(
            alloc,
            parts,
            place.position(),
            entry,
            is_listed,
            bindings,
            scratch,
        ),
        Pause::Executes(value) => {
            executing_value(alloc, parts, place.position(), value, scratch)
        }
        Pause::Lists(keyword, value) => {
            giving_value(alloc, parts, place.position(), keyword, value, scratch)
        }
        Pause::Turns(course) => turning(alloc, parts, place, course, scratch),
    }
}

// A program from its first step on, as far as it comes by itself. Kept out of line, since it is rare.
#[inline(never)]
pub(crate) fn first_begun<'t, S: NodeStore>(
    alloc: Global,
    parts: &mut Parts<S>,
    place: Place<'t>,
) -> Result<Pause<'t>, Code>
    ensures { (w : WholeTree) → whole_at place.entry ≡ Some w
        → DoesAt S.NodeStore (λ a n. programs.begun (context a (suc n) (position_of (place_position place.entry))) (depth_of (place_position place.entry).depth) (steps_of w) (the_ending_of w) [])
        (pause_of w) parts.old result parts.new }
{
    let Some(whole) = place.whole() else {
        return Err(Code::Zmem);
    };
    let position = place.position();
    let depth = position.depth;
    begun(alloc, parts, position, whole, depth, 0, Vec::new(alloc))
}

// A program from one of its steps on, which is so deep, with this stack.
fn carried<S: NodeStore>(
    alloc: Global,
    parts: &mut Parts<S>,
    place: Place,
    depth: Depth,
    from: usize,
    items: Vec<Item>,
    scratch: &mut Scratch,
) -> Result<Completion, Code>
    requires { is_some (whole_at place) ≡ true }
    ensures falls { FallsByTwo parts.old scratch.old result parts.new scratch.new }
    ensures does { RunsFurther S.NodeStore (λ a n. programs.carried (context a n (position_of (place_position place.entry))) (depth_of depth) (drop from (steps_within (whole_at place.entry))) (ending_within (whole_at place.entry)) (items_view items.items))
        (stack scratch.old.frames.items) parts.old result (stack scratch.new.frames.items) parts.new }
{
    let Some(whole) = place.whole() else {
        return Err(Code::Zsyntax);
    };
    let pause = begun(alloc, parts, place.position(), whole, depth, from, items)?;
    resume(alloc, parts, place, pause, scratch)
}

// What is left of a program, with the value that a function gave.
#[inline(never)]
pub(crate) fn after_call<S: NodeStore>(
    alloc: Global,
    parts: &mut Parts<S>,
    suspended: Box<Suspended>,
    completion: Completion,
    scratch: &mut Scratch,
) -> Result<Completion, Code>
    ensures falls { FallsByTwo parts.old scratch.old result parts.new scratch.new }
    ensures does { RunsFurther S.NodeStore (λ a n. frame a n (Programs (position_of (holder_position suspended.value.holder)) (depth_of suspended.value.depth) (drop suspended.value.at (steps_within (whole_of suspended.value.holder))) (ending_within (whole_of suspended.value.holder)) (items_view suspended.value.items.items)) (completion_of completion))
        (stack scratch.old.frames.items) parts.old result (stack scratch.new.frames.items) parts.new }
{
    let Completion::Returns(value) = completion else {
        return Err(Code::M17);
    };
    let Suspended {
        holder,
        depth,
        at,
        mut items,
    } = Box::into_inner(suspended);
    items.push(Item::Value(Box::into_inner(value)))?;
    carried(alloc, parts, holder.place(), depth, at, items, scratch)
}
