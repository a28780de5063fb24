// SPDX-License-Identifier: Apache-2.0
// Argument indirection: arguments that the text of an operand's value gives.
ghost use Rattle.std.specs.Prelude.{◌≡◌, ◌≤◌, ◌+◌, ◌∷◌, false, true, map, length, IfOk, OnOk};
ghost use Rattle.std.specs.List.{list_all};
ghost use Rattle.mgrammar.specs.CallsIn.{has_call_primary};
ghost use Rattle.mgrammar.specs.ProgramsIn.{in_steps_arg};
ghost use Rattle.mexec.specs.Words.{Lists, Yields, an_indirection_free, arg_tree, context, depth_of, fault_of, form_of, indirected, keyword_tree, primary_tree};
ghost use Rattle.mmeaning.specs.LineMeaning as meaning;
ghost use Rattle.mexec.specs.Falls.{size, FallsByTwo, FallsFurther};
ghost use Rattle.mexec.specs.Uncalled.{ArePlayed};
ghost use Rattle.mexec.specs.Frames.{RunsFurther, RunsWithin, position_of, stack};
ghost use Rattle.mexec.specs.Entering.{so_deep};

use crate::completion::Completion;
use crate::frames::{Frame, IndirectArguments, Level, Position};
use crate::reading_trees::read_arguments;
use crate::scratch::Scratch;
use mcommand::Parts;
use meval::Depth;
use mnodes::NodeStore;
use moperator::Code;
use mtree::{Arg, Keyword, Primary};
use mvalue::Value;
use std::alloc::{AllocError, Global};
use std::rc::Rc;

// One more indirection, if one is free.
fn one_indirection_deeper(depth: Depth) -> Result<Depth, Code>
    ensures deeper { IfOk result (λ there. depth_of there ≡ indirected (depth_of depth)) }
    ensures does { Yields fault_of (an_indirection_free (depth_of depth)) (λ there. tt) result }
{
    match depth.indirected() {
        Some(deeper) => Ok(deeper),
        None => Err(Code::Zdepth),
    }
}

// Leaves arguments that a text gave on the frames, with the first language that has all their forms, at this depth, in the level that the
// indirection is in.
fn leave_given(
    alloc: Global,
    depth: Depth,
    position: &Position,
    args: Vec<Arg>,
    since: u32,
    scratch: &mut Scratch,
) -> Result<(), AllocError>
    requires deep { position.now.level.dots ≤ depth.levels }
    requires played { ArePlayed args.items since }
    requires stepped { list_all in_steps_arg (map arg_tree args.items) ≡ true }
    ensures frames { OnOk result (stack scratch.new.frames.items ≡ Lists (so_deep (depth_of depth) (position_of position.now)) (map arg_tree args.items) ∷ stack scratch.old.frames.items) }
    ensures most { OnOk result (size scratch.new.frames.items ≤ size scratch.old.frames.items + 1) }
{
    let level = Level {
        copy: position.level.copy.clone()?,
        next: position.level.next,
        dots: position.level.dots,
    };
    let position = Position { depth, level };
    let given = Rc::new(
        alloc,
        IndirectArguments {
            position,
            args,
            since,
        },
    )?;
    scratch.frames.push(Frame::IndirectArguments(given, 0))?;
    Ok(())
}

// The arguments that the value of an operand gives, for a command with this word. They are on the frames, and are an indirection
// until the last of them is done. Kept out of line, so that a DO needs no room for what this gives.
#[inline(never)]
pub(crate) fn giving<S: NodeStore>(
    alloc: Global,
    parts: &mut Parts<S>,
    position: &Position,
    keyword: Keyword,
    operand: &Primary,
    scratch: &mut Scratch,
) -> Result<Completion, Code>
    requires { has_call_primary (primary_tree operand.now) ≡ false }
    ensures falls { FallsFurther parts.old scratch.old result parts.new scratch.new }
    ensures does { RunsWithin S.NodeStore (λ a n. meaning.given (context a n (position_of position.now)) (form_of (keyword_tree keyword)) (primary_tree operand.now))
        (stack scratch.old.frames.items) parts.old result (stack scratch.new.frames.items) parts.new }
{
    parts.eval.depth = position.depth;
    let text = parts.eval.primary(alloc, operand)?;
    giving_value(alloc, parts, position, keyword, text, scratch)
}

// The same, once the operand is evaluated.
pub(crate) fn giving_value<S: NodeStore>(
    alloc: Global,
    parts: &mut Parts<S>,
    position: &Position,
    keyword: Keyword,
    value: Value,
    scratch: &mut Scratch,
) -> Result<Completion, Code>
    ensures falls { FallsByTwo parts.old scratch.old result parts.new scratch.new }
    ensures does { RunsFurther S.NodeStore (λ a n. meaning.given_by (context a n (position_of position.now)) (form_of (keyword_tree keyword)) value)
        (stack scratch.old.frames.items) parts.old result (stack scratch.new.frames.items) parts.new }
{
    let depth = one_indirection_deeper(position.depth)?;
    let text = value.into_text(alloc)?;
    let language = parts.eval.language();
    let (args, since) = read_arguments(alloc, language, keyword, text.as_bytes())?;
    leave_given(alloc, depth, position, args, since, scratch)?;
    Ok(Completion::GoOn)
}
