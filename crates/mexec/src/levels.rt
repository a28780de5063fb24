// SPDX-License-Identifier: Apache-2.0
// The lines of a level, one after another, until it closes.
ghost use Rattle.std.specs.Prelude.{◌≡◌, ◌≤◌, ◌<◌, ◌+◌, ◌*◌, suc, cond, Ok, Some, None, [], ◌∷◌, get_or, drop, length, IfOk, IfSome, OnOk};
ghost use Rattle.mmeaning.specs.Levels as levels;
ghost use Rattle.mmeaning.specs.LineMeaning as meaning;
ghost use Rattle.mmeaning.specs.Frames.{frame, Levels, Rests};
ghost use Rattle.mmeaning.specs.LineMeaning.{context, Go_on};
ghost use Rattle.mtree.specs.Tree.{body_tree};
ghost use Rattle.meval.specs.Evaluates.{standing_of};
ghost use Rattle.mcommand.specs.Targets.{target_view};
ghost use Rattle.mcommand.specs.Does.{DoesAt};
ghost use Rattle.mexec.specs.Falls.{size, Falls, FallsByEntry, FallsFurther};
ghost use Rattle.mexec.specs.Frames.{Runs, stack, completion_of, position_of, closing_of, commands_from};
ghost use Rattle.mexec.specs.Entering.{reached as first_reached, next_reached, line_then, entering, reaching, at_next, at_target, on_body};
ghost use Rattle.mexec.specs.Uncalled.{IsBodyPlayed, IsPlayed};

use crate::completion::Completion;
use crate::frames::{Closing, Continuation, Frame, Level, Position};
use crate::reading_trees::read_routine_line;
use crate::scratch::Scratch;
use mcommand::{Parts, Target};
use mnodes::NodeStore;
use mnum::Bytes7;
use moperator::Code;
use mparse::{dots_of, has_formal_list};
use mtree::{Body, Line};
use std::alloc::{AllocError, Global};
use std::rc::Rc;

// Whether a value is wanted of a level that closes so.
pub(crate) fn wants_value(closing: Closing) -> bool
    ensures { result ≡ levels.wants (closing_of closing) }
{
    match closing {
        Closing::Answers(_) => true,
        _ => false,
    }
}

// Closes a level.
fn close<S: NodeStore>(parts: &mut Parts<S>, closing: Closing)
    ensures { DoesAt S.NodeStore (λ a n. levels.closing (closing_of closing)) (λ u. u) parts.old (Ok tt) parts.new }
{
    match closing {
        Closing::Stays => {}
        Closing::Leaves => parts.eval.close_level(),
        Closing::Restores(test) | Closing::Answers(test) => {
            parts.eval.close_level();
            parts.eval.set_test(test);
        }
    }
}

// Closes a level that is done; what is below goes on with this completion. A value is wanted of a function's level alone, which cannot
// do without.
fn closed<S: NodeStore>(
    parts: &mut Parts<S>,
    closing: Closing,
    completion: Completion,
) -> Result<Completion, Code>
    ensures { DoesAt S.NodeStore (λ a n. meaning.closed (closing_of closing) (completion_of completion)) completion_of parts.old result parts.new }
{
    match completion {
        Completion::Returns(value) => if wants_value(closing) {
            close(parts, closing);
            Ok(Completion::Returns(value))
        } else {
            Err(Code::M16)
        },
        other => if wants_value(closing) {
            Err(Code::M17)
        } else {
            close(parts, closing);
            Ok(other)
        },
    }
}

// A place, if this is so.
fn place_where(is_entered: bool, at: usize) -> Option<usize>
    ensures { result ≡ cond is_entered (Some at) None }
{
    if is_entered { Some(at) } else { None }
}

// The place of the line that is entered among these, from one on; none if a level with this many dots ends. A line that is passed
// over costs a step.
fn reached<S: NodeStore>(
    parts: &mut Parts<S>,
    lines: &[Bytes7],
    dots: usize,
    from: usize,
) -> Result<Option<usize>, Code>
    ensures within { IfOk result (λ found. IfSome found (λ at. at < length lines.now)) }
    ensures does { DoesAt S.NodeStore (λ a n. first_reached dots from (drop from lines.now)) (λ found. found) parts.old result parts.new }
{
    let language = parts.eval.language();
    let mut at = from;
    while at < lines.len() {
        let line_dots = dots_of(language, lines[at].as_bytes());
        if line_dots <= dots {
            return Ok(place_where(line_dots == dots, at));
        }
        parts.eval.charge()?;
        at += 1;
    }
    Ok(None)
}

// The place of the line that is entered next; none if the level ends.
fn next_line<S: NodeStore>(parts: &mut Parts<S>, level: &Level) -> Result<Option<usize>, Code>
    ensures within { IfOk result (λ found. IfSome found (λ at. at < length level.now.copy.value.items)) }
    ensures does { DoesAt S.NodeStore (λ a n. next_reached level.now.dots level.now.copy.value.items level.now.next) (λ found. found) parts.old result parts.new }
{
    match level.next {
        None => Ok(None),
        Some(from) => reached(parts, &level.copy, level.dots, from),
    }
}

// The same position, of one's own.
fn same_position(position: &Position) -> Result<Position, AllocError>
    ensures { IfOk result (λ there. position_of there ≡ position_of position.now) }
{
    Ok(Position {
        depth: position.depth,
        level: Level {
            copy: position.level.copy.clone()?,
            next: position.level.next,
            dots: position.level.dots,
        },
    })
}

// Leaves the commands of a line on the frames, on top of its level.
pub(crate) fn leave_commands(
    position: Rc<Position>,
    closing: Closing,
    line: Rc<Line>,
    scratch: &mut Scratch,
) -> Result<(), AllocError>
    requires { IsPlayed line.value }
    ensures frames { OnOk result (stack scratch.new.frames.items ≡ Rests (position_of position.value) (commands_from line.value 0) ∷ Levels (position_of position.value) (closing_of closing) ∷ stack scratch.old.frames.items) }
    ensures most { OnOk result (size scratch.new.frames.items ≤ size scratch.old.frames.items + 2) }
{
    let level = Frame::Level(position.clone()?, closing);
    scratch.frames.push(level)?;
    scratch.frames.push(Frame::Continuation(Continuation {
        position,
        line,
        at: 0,
    }))?;
    Ok(())
}

// Leaves what comes after a label on the frames, on top of its level, with another line coming next.
#[inline(always)]
fn enter_body(
    alloc: Global,
    position: Position,
    next: usize,
    closing: Closing,
    body: &Body,
    scratch: &mut Scratch,
) -> Result<(), AllocError>
    requires { IsBodyPlayed body.now }
    ensures frames { OnOk result (stack scratch.new.frames.items ≡ on_body (at_next (position_of position) next) (closing_of closing) (body_tree body.now) (stack scratch.old.frames.items)) }
    ensures most { OnOk result (size scratch.new.frames.items ≤ size scratch.old.frames.items + 2) }
{
    let mut there = position;
    there.level.next = Some(next);
    let there = scratch.shared(alloc, there)?;
    match body {
        Body::Short(_) => {
            scratch.frames.push(Frame::Level(there, closing))?;
            Ok(())
        }
        Body::Spaced(_, line) => {
            let line = line.clone()?;
            leave_commands(there, closing, line, scratch)
        }
    }
}

// Enters a line of a level, whose step is spent, in the account's language. It is read when it is reached.
fn read_and_enter<S: NodeStore>(
    alloc: Global,
    parts: &mut Parts<S>,
    position: Position,
    closing: Closing,
    at: usize,
    language: u32,
    scratch: &mut Scratch,
) -> Result<Completion, Code>
    requires within { at < length position.level.copy.value.items }
    requires language { language ≡ (standing_of parts.old.eval).given.language }
    requires known { language ≤ 1 }
    ensures falls { IfOk result (λ _. 6 * parts.new.eval.steps + size scratch.new.frames.items ≤ 6 * parts.old.eval.steps + size scratch.old.frames.items + 2) }
    ensures does { Runs S.NodeStore (λ a n. line_then (context a (suc n) (position_of position)) (closing_of closing) at (get_or position.level.copy.value.items at []))
        (stack scratch.old.frames.items) parts.old result (stack scratch.new.frames.items) parts.new }
{
    let text = position.level.copy[at].as_bytes();
    let line = read_routine_line(alloc, &mut scratch.trees, language, text)?;
    enter_body(alloc, position, at + 1, closing, &line.body, scratch)?;
    Ok(Completion::GoOn)
}

// Enters the line that a DO names, which costs a step.
#[inline(always)]
pub(crate) fn enter_line<S: NodeStore>(
    alloc: Global,
    parts: &mut Parts<S>,
    position: Position,
    closing: Closing,
    at: usize,
    scratch: &mut Scratch,
) -> Result<Completion, Code>
    requires { at < length position.level.copy.value.items }
    ensures falls { FallsByEntry parts.old scratch.old result parts.new scratch.new }
    ensures does { Runs S.NodeStore (λ a n. entering (context a n (position_of position)) (closing_of closing) at (get_or position.level.copy.value.items at []))
        (stack scratch.old.frames.items) parts.old result (stack scratch.new.frames.items) parts.new }
{
    parts.eval.charge()?;
    let language = parts.eval.language();
    read_and_enter(alloc, parts, position, closing, at, language, scratch)
}

// Enters a line that no DO names, which costs a step. It has no formal list.
fn reach_line<S: NodeStore>(
    alloc: Global,
    parts: &mut Parts<S>,
    position: &Position,
    closing: Closing,
    at: usize,
    scratch: &mut Scratch,
) -> Result<Completion, Code>
    requires { at < length position.now.level.copy.value.items }
    ensures falls { FallsByEntry parts.old scratch.old result parts.new scratch.new }
    ensures does { Runs S.NodeStore (λ a n. reaching (context a n (position_of position.now)) (closing_of closing) at (get_or position.now.level.copy.value.items at []))
        (stack scratch.old.frames.items) parts.old result (stack scratch.new.frames.items) parts.new }
{
    parts.eval.charge()?;
    let language = parts.eval.language();
    if has_formal_list(language, position.level.copy[at].as_bytes()) {
        return Err(Code::M11);
    }
    let there = same_position(position)?;
    read_and_enter(alloc, parts, there, closing, at, language, scratch)
}

// Goes to the line that comes next in a level, or closes it.
pub(crate) fn lines_next<S: NodeStore>(
    alloc: Global,
    parts: &mut Parts<S>,
    position: &Position,
    closing: Closing,
    scratch: &mut Scratch,
) -> Result<Completion, Code>
    ensures falls { Falls parts.old scratch.old result parts.new scratch.new }
    ensures does { Runs S.NodeStore (λ a n. frame a n (Levels (position_of position.now) (closing_of closing)) Go_on)
        (stack scratch.old.frames.items) parts.old result (stack scratch.new.frames.items) parts.new }
{
    match next_line(parts, &position.level)? {
        None => closed(parts, closing, Completion::GoOn),
        Some(at) => reach_line(alloc, parts, position, closing, at, scratch),
    }
}

// What follows a GOTO: the line that it names, in the same level.
fn go_to<S: NodeStore>(
    alloc: Global,
    parts: &mut Parts<S>,
    position: &Position,
    closing: Closing,
    target: Target,
    scratch: &mut Scratch,
) -> Result<Completion, Code>
    ensures falls { Falls parts.old scratch.old result parts.new scratch.new }
    ensures does { Runs S.NodeStore (λ a n. frame a n (Levels (at_target (position_of position.now) (target_view target)) (closing_of closing)) Go_on)
        (stack scratch.old.frames.items) parts.old result (stack scratch.new.frames.items) parts.new }
{
    let there = Position {
        depth: position.depth,
        level: Level {
            copy: target.copy,
            next: Some(target.line),
            dots: position.level.dots,
        },
    };
    lines_next(alloc, parts, &there, closing, scratch)
}

// What follows a line of a level that went on in this way.
pub(crate) fn after_level<S: NodeStore>(
    alloc: Global,
    parts: &mut Parts<S>,
    position: &Position,
    closing: Closing,
    completion: Completion,
    scratch: &mut Scratch,
) -> Result<Completion, Code>
    ensures falls { Falls parts.old scratch.old result parts.new scratch.new }
    ensures does { Runs S.NodeStore (λ a n. frame a n (Levels (position_of position.now) (closing_of closing)) (completion_of completion))
        (stack scratch.old.frames.items) parts.old result (stack scratch.new.frames.items) parts.new }
{
    match completion {
        Completion::GoOn => lines_next(alloc, parts, position, closing, scratch),
        Completion::Skips => lines_next(alloc, parts, position, closing, scratch),
        Completion::Quits => closed(parts, closing, Completion::GoOn),
        Completion::Goes(target) => go_to(alloc, parts, position, closing, target, scratch),
        Completion::Returns(value) => closed(parts, closing, Completion::Returns(value)),
    }
}
