// SPDX-License-Identifier: Apache-2.0
// The arguments of DO, GOTO and XECUTE: what they call, where they lead or a text, each with a postconditional of its own; or an `@` with its
// operand and nothing more.
ghost use Rattle.mgrammar.specs.ReadingExpressions.{shared_at, routine_at};
ghost use Rattle.mgrammar.specs.Reading.{entry_at, do_argument_at, goto_argument_at, xecute_argument_at, settled_with, operand_or};
ghost use Rattle.mgrammar.specs.Grammar.{do_argument, goto_argument, xecute_argument};
ghost use Rattle.mtree.specs.Tree.{routine_tree, entry_tree, arg_tree};
ghost use Rattle.mscan.specs.Gives.{Gives};

use crate::control::behind_colon;
use crate::expr::{below, called, expr};
use mscan::{ParseFault, expect, name, past, text_after};
use mspec::limits::MAX_DEPTH;
use mtree::{Arg, Entry, Keyword, RoutineRef, SharedRoutine};
use std::alloc::Global;

// After a `^|`: a string, the bar that closes, and the routine's name.
#[tactic(auto, unfolding(mgrammar::specs::ReadingExpressions::shared_at))]
fn shared(alloc: Global, bytes: &[u8]) -> Result<(RoutineRef, &[u8]), ParseFault>
    ensures { Gives (λ x. (routine_tree x.0, x.1.now)) result (shared_at bytes.now) }
{
    let inside = expect(b'"', bytes)?;
    let (account, rest) = text_after(alloc, inside)?;
    let behind = expect(b'|', rest)?;
    let (name, rest) = name(alloc, behind)?;
    let routine = Box::new(alloc, SharedRoutine { account, name })?;
    Ok((RoutineRef::Shared(routine), rest))
}

// After a `^`: a name, or one of another account.
#[tactic(auto, unfolding(mgrammar::specs::ReadingExpressions::routine_at))]
fn routine(alloc: Global, bytes: &[u8]) -> Result<(RoutineRef, &[u8]), ParseFault>
    ensures { Gives (λ x. (routine_tree x.0, x.1.now)) result (routine_at bytes.now) }
{
    if let Some(inside) = past(b'|', bytes) {
        return shared(alloc, inside);
    }
    let (name, rest) = name(alloc, bytes)?;
    Ok((RoutineRef::Own(name), rest))
}

// A label, a label and the routine that it belongs to, or a routine alone.
#[tactic(auto, unfolding(mgrammar::specs::Reading::entry_at))]
pub fn entry(alloc: Global, bytes: &[u8]) -> Result<(Entry, &[u8]), ParseFault>
    ensures { Gives (λ x. (entry_tree x.0, x.1.now)) result (entry_at bytes.now) }
{
    if let Some(behind) = past(b'^', bytes) {
        let (routine, rest) = routine(alloc, behind)?;
        return Ok((Entry::Routine(routine), rest));
    }
    let (label, rest) = name(alloc, bytes)?;
    let Some(behind) = past(b'^', rest) else {
        return Ok((Entry::Label(label), rest));
    };
    let (routine, rest) = routine(alloc, behind)?;
    Ok((Entry::LabelIn(label, routine), rest))
}

#[tactic(auto, unfolding(mgrammar::specs::Reading::do_argument_at))]
pub fn do_argument(alloc: Global, bytes: &[u8]) -> Result<(Arg, &[u8]), ParseFault>
    ensures { Gives (λ x. (arg_tree x.0, x.1.now)) result (operand_or do_argument_at do_argument bytes.now) }
{
    if let Some(behind) = past(b'@', bytes) {
        let (operand, rest) = below(alloc, behind, MAX_DEPTH)?;
        return Ok((Arg::Indirect(Keyword::Do, operand), rest));
    }
    let (called, rest) = called(alloc, bytes, MAX_DEPTH)?;
    let (condition, rest) = behind_colon(alloc, rest)?;
    Ok((Arg::DoOne(called, condition), rest))
}

#[tactic(auto, unfolding(mgrammar::specs::Reading::goto_argument_at))]
pub fn goto_argument(alloc: Global, bytes: &[u8]) -> Result<(Arg, &[u8]), ParseFault>
    ensures { Gives (λ x. (arg_tree x.0, x.1.now)) result (operand_or goto_argument_at goto_argument bytes.now) }
{
    if let Some(behind) = past(b'@', bytes) {
        let (operand, rest) = below(alloc, behind, MAX_DEPTH)?;
        return Ok((Arg::Indirect(Keyword::Goto, operand), rest));
    }
    let (entry, rest) = entry(alloc, bytes)?;
    let (condition, rest) = behind_colon(alloc, rest)?;
    Ok((Arg::GoTo(entry, condition), rest))
}

#[tactic(auto, unfolding(mgrammar::specs::Reading::xecute_argument_at))]
pub fn xecute_argument(alloc: Global, bytes: &[u8]) -> Result<(Arg, &[u8]), ParseFault>
    ensures { Gives (λ x. (arg_tree x.0, x.1.now)) result (settled_with xecute_argument_at xecute_argument bytes.now) }
{
    let (text, rest) = expr(alloc, bytes, MAX_DEPTH)?;
    let (condition, rest) = behind_colon(alloc, rest)?;
    if condition.is_some() {
        return Ok((Arg::Executed(text, condition), rest));
    }
    match text.into_operand() {
        Ok(operand) => Ok((Arg::Indirect(Keyword::Execute, operand), rest)),
        Err(text) => Ok((Arg::Executed(text, None), rest)),
    }
}
