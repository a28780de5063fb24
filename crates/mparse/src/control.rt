// SPDX-License-Identifier: Apache-2.0
// The arguments of IF, FOR, HANG and QUIT, and postconditionals.
ghost use Rattle.std.specs.Prelude.{option_map};
ghost use Rattle.mgrammar.specs.Grammar.{ParameterTree, if_argument, hang_argument};
ghost use Rattle.mgrammar.specs.Reading.{if_argument_at, hang_argument_at, quit_argument_at, settled_with, parameter_at, for_argument_at, postcondition_by};
ghost use Rattle.mgrammar.specs.Reading.{postcondition_at};
ghost use Rattle.mgrammar.specs.ReadingWords.{past};
ghost use Rattle.mtree.specs.Tree.{expr_tree, parameter_tree, keyword_tree, arg_tree, condition_tree};
ghost use Rattle.mscan.specs.Gives.{Gives};

use crate::along::beside;
use crate::expr::expr;
use crate::list::{Items, list};
use mforms::takes_condition;
use mscan::{ParseFault, expect, name, past};
use mspec::limits::MAX_DEPTH;
use mtree::{Arg, Expr, Keyword, Parameter};
use std::alloc::Global;

#[tactic(auto, unfolding(mgrammar::specs::Reading::if_argument_at))]
pub fn if_argument(alloc: Global, bytes: &[u8]) -> Result<(Arg, &[u8]), ParseFault>
    ensures { Gives (λ x. (arg_tree x.0, x.1.now)) result (settled_with if_argument_at if_argument bytes.now) }
{
    let (condition, rest) = expr(alloc, bytes, MAX_DEPTH)?;
    match condition.into_operand() {
        Ok(operand) => Ok((Arg::Indirect(Keyword::If, operand), rest)),
        Err(condition) => Ok((Arg::Tested(condition), rest)),
    }
}

// The letter of HANG is that of HALT too; the form of its arguments is the same by either word.
#[tactic(auto, unfolding(mgrammar::specs::Reading::hang_argument_at))]
pub fn hang_argument(alloc: Global, bytes: &[u8]) -> Result<(Arg, &[u8]), ParseFault>
    ensures { Gives (λ x. (arg_tree x.0, x.1.now)) result (settled_with hang_argument_at hang_argument bytes.now) }
{
    let (seconds, rest) = expr(alloc, bytes, MAX_DEPTH)?;
    match seconds.into_operand() {
        Ok(operand) => Ok((Arg::Indirect(Keyword::Hang, operand), rest)),
        Err(seconds) => Ok((Arg::HangFor(seconds), rest)),
    }
}

// A value, which no text gives.
#[tactic(auto, unfolding(mgrammar::specs::Reading::quit_argument_at))]
pub fn quit_argument(alloc: Global, bytes: &[u8]) -> Result<(Arg, &[u8]), ParseFault>
    ensures { Gives (λ x. (arg_tree x.0, x.1.now)) result (quit_argument_at bytes.now) }
{
    let (value, rest) = expr(alloc, bytes, MAX_DEPTH)?;
    Ok((Arg::Returned(value), rest))
}

// A value; or a start and an increment, and a limit if there is one.
#[tactic(auto, unfolding(mgrammar::specs::Reading::parameter_at))]
fn parameter(alloc: Global, bytes: &[u8]) -> Result<(Parameter, &[u8]), ParseFault>
    ensures { Gives (λ x. (parameter_tree x.0, x.1.now)) result (parameter_at bytes.now) }
{
    let (start, rest) = expr(alloc, bytes, MAX_DEPTH)?;
    let Some(behind) = past(b':', rest) else {
        return Ok((Parameter::Once(start), rest));
    };
    let (start, (increment, rest)) = beside(start, expr(alloc, behind, MAX_DEPTH))?;
    let Some(behind) = past(b':', rest) else {
        return Ok((Parameter::Onward(start, increment), rest));
    };
    let ((start, increment), (limit, rest)) = beside(
        (start, increment),
        expr(alloc, behind, MAX_DEPTH),
    )?;
    Ok((Parameter::Until(start, increment, limit), rest))
}

// What the index of FOR takes on.
#[derive(Clone, Copy)]
struct Parameters;

impl Items for Parameters {
    type Item = Parameter;

    ghost Tree = { ParameterTree };

    ghost tree = { parameter_tree };

    ghost read = { λ _. parameter_at };

    fn item(self, alloc: Global, bytes: &[u8]) -> Result<(Parameter, &[u8]), ParseFault> {
        parameter(alloc, bytes)
    }
}

#[tactic(auto, unfolding(mgrammar::specs::Reading::for_argument_at))]
pub fn for_argument(alloc: Global, bytes: &[u8]) -> Result<(Arg, &[u8]), ParseFault>
    ensures { Gives (λ x. (arg_tree x.0, x.1.now)) result (for_argument_at bytes.now) }
{
    let (index, rest) = name(alloc, bytes)?;
    let rest = expect(b'=', rest)?;
    let (parameters, rest) = list(Parameters, alloc, rest)?;
    Ok((Arg::Loop(index, parameters), rest))
}

// The condition after a colon, if one follows.
pub fn behind_colon(alloc: Global, bytes: &[u8]) -> Result<(Option<Box<Expr>>, &[u8]), ParseFault>
    ensures { Gives (λ x. (condition_tree x.0, x.1.now)) result (postcondition_by bytes.now (past 58 bytes.now)) }
{
    let Some(behind) = past(b':', bytes) else {
        return Ok((None, bytes));
    };
    let (condition, rest) = expr(alloc, behind, MAX_DEPTH)?;
    Ok((Some(Box::new(alloc, condition)?), rest))
}

// The condition after a word of this keyword, if a colon follows the word and the command takes a condition.
#[tactic(auto, unfolding(mgrammar::specs::Reading::postcondition_at))]
pub fn postcondition(
    alloc: Global,
    keyword: Keyword,
    bytes: &[u8],
) -> Result<(Option<Box<Expr>>, &[u8]), ParseFault>
    ensures { Gives (λ x. (condition_tree x.0, x.1.now)) result (postcondition_at (keyword_tree keyword) bytes.now) }
{
    if !takes_condition(keyword) {
        return Ok((None, bytes));
    }
    behind_colon(alloc, bytes)
}
