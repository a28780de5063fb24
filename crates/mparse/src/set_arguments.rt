// SPDX-License-Identifier: Apache-2.0
// What SET assigns to.
ghost use Rattle.std.specs.Prelude.{◌-◌};
ghost use Rattle.mgrammar.specs.Functions.{function_of};
ghost use Rattle.mgrammar.specs.ReadingExpressions.{readers_at};
ghost use Rattle.mgrammar.specs.Reading.{part_with, part_by, target_with, destination_at, set_argument_at};
ghost use Rattle.mgrammar.specs.Grammar.{TargetTree};
ghost use Rattle.mgrammar.specs.WellFormed.{max_depth};
ghost use Rattle.mtree.specs.Tree.{target_tree, destination_tree, arg_tree};
ghost use Rattle.mscan.specs.Gives.{Gives};

use crate::expr::{expr, more_exprs, reference, within};
use crate::list::{Items, list};
use crate::operand::destination_operand;
use mforms::takes;
use mnum::Bytes7;
use mscan::{Class, ParseFault, expect, past, run};
use mspec::limits::MAX_DEPTH;
use mtree::{Arg, Destination, FunctionWord, Keyword, PartTarget, Target, ValueWord, is_part};
use std::alloc::Global;

// The rest of a part of a variable, after its bracket, of a function of at least `least` and at most `most` values, the variable among
// them.
#[tactic(auto, unfolding(mgrammar::specs::Reading::part_with))]
fn part(
    alloc: Global,
    word: ValueWord,
    least: usize,
    most: Option<usize>,
    bytes: &[u8],
    depth: u32,
) -> Result<(Target, &[u8]), ParseFault>
    ensures { Gives (λ x. (target_tree x.0, x.1.now)) result (part_with (readers_at depth) least most word bytes.now) }
{
    let (reference, rest) = within(alloc, bytes, depth)?;
    let (more, rest) = more_exprs(alloc, Vec::new(alloc), rest, depth)?;
    let rest = expect(b')', rest)?;
    if !takes(least, most, more.len() + 1) {
        return Err(ParseFault::Syntax);
    }
    let part = PartTarget {
        word,
        reference,
        more,
    };
    Ok((Target::Part(Box::new(alloc, part)?), rest))
}

// The same, if the word is one of a function that has parts.
fn part_of(
    alloc: Global,
    word: Bytes7,
    bytes: &[u8],
    depth: u32,
) -> Result<(Target, &[u8]), ParseFault>
    ensures { Gives (λ x. (target_tree x.0, x.1.now)) result (part_by (readers_at depth) word (function_of word) bytes.now) }
{
    let Some(word) = FunctionWord::new(word) else {
        return Err(ParseFault::Syntax);
    };
    match word {
        FunctionWord::OfValues { word, least, most } => {
            if !is_part(word.function()) {
                return Err(ParseFault::Syntax);
            }
            part(alloc, word, least, most, bytes, depth)
        }
        FunctionWord::OfVariable { word: _, most: _ } => Err(ParseFault::Syntax),
        FunctionWord::OfChoices(_) => Err(ParseFault::Syntax),
    }
}

#[tactic(auto, unfolding(mgrammar::specs::Reading::target_with))]
fn target(alloc: Global, bytes: &[u8], depth: u32) -> Result<(Target, &[u8]), ParseFault>
    ensures { Gives (λ x. (target_tree x.0, x.1.now)) result (target_with (readers_at depth) bytes.now) }
{
    let Some((first, rest)) = bytes.split_first() else {
        return Err(ParseFault::Syntax);
    };
    if *first != b'$' {
        let (reference, rest) = reference(alloc, bytes, depth)?;
        return Ok((Target::Variable(reference), rest));
    }
    let (letters, rest) = run(Class::Letter, rest);
    let rest = expect(b'(', rest)?;
    part_of(alloc, Bytes7::from_slice(alloc, letters)?, rest, depth)
}

// Targets within the brackets of a list.
#[derive(Clone, Copy)]
struct InBrackets;

impl Items for InBrackets {
    type Item = Target;

    ghost Tree = { TargetTree };

    ghost tree = { target_tree };

    ghost read = { λ _. target_with (readers_at (max_depth - 1)) };

    fn item(self, alloc: Global, bytes: &[u8]) -> Result<(Target, &[u8]), ParseFault> {
        target(alloc, bytes, MAX_DEPTH - 1)
    }
}

#[tactic(auto, unfolding(mgrammar::specs::Reading::destination_at))]
fn destination(alloc: Global, bytes: &[u8]) -> Result<(Destination, &[u8]), ParseFault>
    ensures { Gives (λ x. (destination_tree x.0, x.1.now)) result (destination_at bytes.now) }
{
    let Some((first, behind)) = bytes.split_first() else {
        return Err(ParseFault::Syntax);
    };
    if *first == b'(' {
        let (all, rest) = list(InBrackets, alloc, behind)?;
        let rest = expect(b')', rest)?;
        return Ok((Destination::Several(all), rest));
    }
    let (target, rest) = target(alloc, bytes, MAX_DEPTH)?;
    Ok((Destination::One(target), rest))
}

// A destination and its value; or an `@` with its operand and nothing more, after which no `=` comes.
#[tactic(auto, unfolding(mgrammar::specs::Reading::set_argument_at))]
pub fn set_argument(alloc: Global, bytes: &[u8]) -> Result<(Arg, &[u8]), ParseFault>
    ensures { Gives (λ x. (arg_tree x.0, x.1.now)) result (set_argument_at bytes.now) }
{
    let (destination, rest) = destination(alloc, bytes)?;
    let Some(behind) = past(b'=', rest) else {
        let operand = destination_operand(destination).ok_or(ParseFault::Syntax)?;
        return Ok((Arg::Indirect(Keyword::Set, operand), rest));
    };
    let (value, rest) = expr(alloc, behind, MAX_DEPTH)?;
    Ok((Arg::Assign(destination, value), rest))
}
