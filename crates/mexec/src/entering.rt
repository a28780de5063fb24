// SPDX-License-Identifier: Apache-2.0
// What opens a level: DO with an argument and without one, and XECUTE.
ghost use Rattle.std.specs.Prelude.{◌≡◌, ◌≤◌, ◌<◌, ◌+◌, ◌*◌, suc, false, ◌∷◌, length, map, option_map, IfOk, OnOk};
ghost use Rattle.mspec.specs.Act.{with_locals};
ghost use Rattle.mgrammar.specs.CallsIn.{has_call, has_call_actuals};
ghost use Rattle.mgrammar.specs.RoutineLine.{formals_of};
ghost use Rattle.mmeaning.specs.Levels.{a_level_free, leaves};
ghost use Rattle.mmeaning.specs.Parameters.{formals_for as meant_formals_for, with_formals};
ghost use Rattle.mmeaning.specs.LineMeaning as meaning;
ghost use Rattle.mmeaning.specs.LineMeaning.{at_depth, context};
ghost use Rattle.mmeaning.specs.Frames.{Rests, Levels};
ghost use Rattle.mlocal.specs.Bindings.{binding_of, bindings_of};
ghost use Rattle.mmeaning.specs.Programs.{listed};
ghost use Rattle.mmeaning.specs.Yields.{Yields};
ghost use Rattle.moperator.specs.Codes.{fault_of};
ghost use Rattle.mtree.specs.Tree.{called_tree, entry_tree, expr_tree};
ghost use Rattle.meval.specs.Evaluates.{depth_of};
ghost use Rattle.mcommand.specs.Does.{DoesAt};
ghost use Rattle.mcommand.specs.Targets.{target_view};
ghost use Rattle.mexec.specs.Falls.{size, Falls, FallsByEntry, FallsFurther};
ghost use Rattle.mexec.specs.Uncalled.{IsPlayed};
ghost use Rattle.mexec.specs.Frames.{Runs, stack, position_of, closing_of, commands_from};
ghost use Rattle.mexec.specs.Entering.{formals_handed, level_deeper, one_level_deeper, text_entered, text_position};

use crate::completion::Completion;
use crate::frames::{Closing, Level, Position};
use crate::levels::{enter_line, leave_commands, lines_next, wants_value};
use crate::reading_trees::read_line;
use crate::scratch::Scratch;
use mcache::Trees;
use mcommand::{Parts, Target, formals_for, formals_lent};
use meval::Depth;
use mlocal::Binding;
use mnodes::NodeStore;
use mnum::{Bytes7, Name};
use moperator::Code;
use mscan::may_have_formal_list;
use mtree::{Called, Entry, Expr, Line};
use mvalue::Value;
use std::alloc::{AllocError, Global};
use std::rc::Rc;

// One more level, of which a value is wanted or not, if one is free.
fn one_deeper<S: NodeStore>(
    parts: &mut Parts<S>,
    depth: Depth,
    wants_value: bool,
) -> Result<Depth, Code>
    ensures deeper { IfOk result (λ there. depth_of there ≡ one_level_deeper wants_value (depth_of depth)) }
    ensures does { DoesAt S.NodeStore (λ a n. a_level_free (depth_of depth)) (λ there. tt) parts.old result parts.new }
{
    parts.eval.depth = depth;
    parts.eval.a_level_free()?;
    Ok(Depth {
        levels: depth.levels + 1,
        indirections: depth.indirections,
        wants_value,
    })
}

// Opens a level with the formal parameters of a line, if it has a formal list.
#[inline(always)]
fn open_with<S: NodeStore>(
    parts: &mut Parts<S>,
    formals: Option<Vec<(Name, Binding)>>,
) -> Result<(), Code>
    ensures { DoesAt S.NodeStore (λ a n. with_locals (with_formals (option_map (λ formals. bindings_of formals.items) formals))) (λ u. u) parts.old result parts.new }
{
    match formals {
        None => parts.eval.open_level(),
        Some(formals) => parts.eval.open_bound_level(formals),
    }
}

// What opens a level of a routine: how deep that is, the entry, whether a list of actuals is written, what they hand over, and how the level
// closes.
pub(crate) struct Opening<'t> {
    pub(crate) depth: Depth,
    pub(crate) entry: &'t Entry,
    pub(crate) is_listed: bool,
    pub(crate) bindings: Vec<Binding>,
    pub(crate) closing: Closing,
}

// The same as `formals_of_line`, for a line that may have a formal list. Kept out of line, so that a line without one is entered at once.
#[inline(never)]
fn formals_listed(
    alloc: Global,
    trees: &mut Trees,
    language: u32,
    is_listed: bool,
    line: &[u8],
    bindings: Vec<Binding>,
) -> Result<Option<Vec<(Name, Binding)>>, Code>
    requires { 1 ≤ language }
    ensures { Yields fault_of (meant_formals_for (listed is_listed) (formals_of language line.now) (map binding_of bindings.items))
        (option_map (λ formals. bindings_of formals.items)) result }
{
    match trees.kept_routine_line(line) {
        None => formals_for(alloc, language, is_listed, line, bindings),
        Some(tree) => formals_lent(alloc, is_listed, &tree.formals, bindings),
    }
}

// The formal parameters of a line, each with what its actual hands over, as `formals_for` gives them: a tree that is kept has the formal list.
#[inline(always)]
fn formals_of_line(
    alloc: Global,
    trees: &mut Trees,
    language: u32,
    is_listed: bool,
    line: &[u8],
    bindings: Vec<Binding>,
) -> Result<Option<Vec<(Name, Binding)>>, Code>
    ensures { Yields fault_of (meant_formals_for (listed is_listed) (formals_of language line.now) (map binding_of bindings.items))
        (option_map (λ formals. bindings_of formals.items)) result }
{
    if may_have_formal_list(language, line) {
        formals_listed(alloc, trees, language, is_listed, line, bindings)
    } else if is_listed {
        Err(Code::M20)
    } else {
        Ok(None)
    }
}

// The formal parameters of the line that a DO or a function names, for what its actuals hand over.
#[inline(always)]
fn formals_of_target<S: NodeStore>(
    alloc: Global,
    parts: &mut Parts<S>,
    trees: &mut Trees,
    is_listed: bool,
    target: &Target,
    bindings: Vec<Binding>,
) -> Result<Option<Vec<(Name, Binding)>>, Code>
    requires { target.now.line < length target.now.copy.value.items }
    ensures { DoesAt S.NodeStore (λ a n. formals_handed (target_view target.now) (listed is_listed) (map binding_of bindings.items)) (option_map (λ formals. bindings_of formals.items)) parts.old result parts.new }
{
    let language = parts.eval.language();
    let line = target.copy[target.line].as_bytes();
    formals_of_line(alloc, trees, language, is_listed, line, bindings)
}

// The lines from the one that an entry names on, in a level of their own. The first of them is entered, which costs a step.
#[inline(always)]
pub(crate) fn entering<S: NodeStore>(
    alloc: Global,
    parts: &mut Parts<S>,
    position: &Position,
    opening: Opening,
    scratch: &mut Scratch,
) -> Result<Completion, Code>
    ensures falls { FallsByEntry parts.old scratch.old result parts.new scratch.new }
    ensures does { Runs S.NodeStore (λ a n. meaning.entering (at_depth (context a n (position_of position.now)) (depth_of opening.entry.depth)) (entry_tree opening.entry.entry.now) (listed opening.entry.is_listed) (map binding_of opening.entry.bindings.items) (closing_of opening.entry.closing))
        (stack scratch.old.frames.items) parts.old result (stack scratch.new.frames.items) parts.new }
{
    let Opening {
        depth: outer,
        entry,
        is_listed,
        bindings,
        closing,
    } = opening;
    let depth = one_deeper(parts, outer, wants_value(closing))?;
    let target = parts.target(alloc, &position.level.copy, 0, entry)?;
    let trees = &mut scratch.trees;
    let formals = formals_of_target(alloc, parts, trees, is_listed, &target, bindings)?;
    open_with(parts, formals)?;
    let line = target.line;
    let level = Level {
        copy: target.copy,
        next: Some(line),
        dots: 0,
    };
    let inner = Position { depth, level };
    enter_line(alloc, parts, inner, closing, line, scratch)
}

// DO with an argument: what its actuals hand over, and then the lines from the one that it names on.
pub(crate) fn doing<S: NodeStore>(
    alloc: Global,
    parts: &mut Parts<S>,
    position: &Position,
    called: &Called,
    scratch: &mut Scratch,
) -> Result<Completion, Code>
    requires { has_call_actuals (called_tree called.now).1 ≡ false }
    ensures falls { FallsFurther parts.old scratch.old result parts.new scratch.new }
    ensures does { Runs S.NodeStore (λ a n. meaning.doing (context a n (position_of position.now)) (called_tree called.now).0 (called_tree called.now).1)
        (stack scratch.old.frames.items) parts.old result (stack scratch.new.frames.items) parts.new }
{
    parts.eval.depth = position.depth;
    let bindings = parts.handed_over(alloc, &called.actuals)?;
    let opening = Opening {
        depth: position.depth,
        entry: &called.entry,
        is_listed: !called.actuals.is_empty(),
        bindings,
        closing: Closing::Leaves,
    };
    entering(alloc, parts, position, opening, scratch)
}

// DO without arguments: the lines after this one that have one more dot. $TEST is afterwards what it was.
pub(crate) fn doing_block<S: NodeStore>(
    alloc: Global,
    parts: &mut Parts<S>,
    position: &Position,
    scratch: &mut Scratch,
) -> Result<Completion, Code>
    ensures falls { Falls parts.old scratch.old result parts.new scratch.new }
    ensures does { Runs S.NodeStore (λ a n. meaning.doing_block (context a n (position_of position.now)))
        (stack scratch.old.frames.items) parts.old result (stack scratch.new.frames.items) parts.new }
{
    let depth = one_deeper(parts, position.depth, false)?;
    let test = parts.eval.test();
    let copy = position.level.copy.clone()?;
    parts.eval.open_level()?;
    let level = Level {
        copy,
        next: position.level.next,
        dots: position.level.dots + 1,
    };
    let inner = Position { depth, level };
    lines_next(alloc, parts, &inner, Closing::Restores(test), scratch)
}

// Leaves the commands of a text on the frames, on top of their level. Labels are sought where those of its line are.
fn leave_text(
    alloc: Global,
    depth: Depth,
    position: &Position,
    line: Rc<Line>,
    scratch: &mut Scratch,
) -> Result<(), AllocError>
    requires { IsPlayed line.value }
    ensures frames { OnOk result (stack scratch.new.frames.items ≡ Rests (text_position (depth_of depth) (position_of position.now)) (commands_from line.value 0) ∷ Levels (text_position (depth_of depth) (position_of position.now)) leaves ∷ stack scratch.old.frames.items) }
    ensures most { OnOk result (size scratch.new.frames.items ≤ size scratch.old.frames.items + 2) }
{
    let level = Level {
        copy: position.level.copy.clone()?,
        next: None,
        dots: 0,
    };
    let inner = scratch.shared(alloc, Position { depth, level })?;
    leave_commands(inner, Closing::Leaves, line, scratch)
}

// A text, in a level of its own at this depth.
fn enter_text<S: NodeStore>(
    alloc: Global,
    parts: &mut Parts<S>,
    depth: Depth,
    position: &Position,
    text: &Bytes7,
    scratch: &mut Scratch,
) -> Result<Completion, Code>
    requires { depth_of depth ≡ level_deeper (depth_of position.now.depth) }
    ensures falls { IfOk result (λ _. 6 * parts.new.eval.steps + size scratch.new.frames.items ≤ 6 * parts.old.eval.steps + size scratch.old.frames.items + 2) }
    ensures does { Runs S.NodeStore (λ a n. text_entered (context a (suc n) (position_of position.now)) text.now)
        (stack scratch.old.frames.items) parts.old result (stack scratch.new.frames.items) parts.new }
{
    let language = parts.eval.language();
    let line = read_line(alloc, &mut scratch.trees, language, text.as_bytes())?;
    parts.eval.open_level()?;
    leave_text(alloc, depth, position, line, scratch)?;
    Ok(Completion::GoOn)
}

// XECUTE of a value, as a text.
#[inline(always)]
pub(crate) fn executing_value<S: NodeStore>(
    alloc: Global,
    parts: &mut Parts<S>,
    position: &Position,
    value: Value,
    scratch: &mut Scratch,
) -> Result<Completion, Code>
    ensures falls { IfOk result (λ _. 6 * parts.new.eval.steps + size scratch.new.frames.items ≤ 6 * parts.old.eval.steps + size scratch.old.frames.items + 2) }
    ensures does { Runs S.NodeStore (λ a n. meaning.text_executed (context a (suc n) (position_of position.now)) value)
        (stack scratch.old.frames.items) parts.old result (stack scratch.new.frames.items) parts.new }
{
    let depth = one_deeper(parts, position.depth, false)?;
    let text = value.into_text(alloc)?;
    enter_text(alloc, parts, depth, position, &text, scratch)
}

// XECUTE: the value of an expression as a text. Kept out of line, so that a DO needs no room for what this gives.
#[inline(never)]
pub(crate) fn executing<S: NodeStore>(
    alloc: Global,
    parts: &mut Parts<S>,
    position: &Position,
    e: &Expr,
    scratch: &mut Scratch,
) -> Result<Completion, Code>
    requires { has_call (expr_tree e.now) ≡ false }
    ensures falls { FallsFurther parts.old scratch.old result parts.new scratch.new }
    ensures does { Runs S.NodeStore (λ a n. meaning.executing (context a n (position_of position.now)) (expr_tree e.now))
        (stack scratch.old.frames.items) parts.old result (stack scratch.new.frames.items) parts.new }
{
    parts.eval.depth = position.depth;
    let text = parts.eval.eval(alloc, e)?;
    executing_value(alloc, parts, position, text, scratch)
}
