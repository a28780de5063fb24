// SPDX-License-Identifier: Apache-2.0
// The arguments of KILL and NEW: a variable or a name, or names in brackets; or an `@` with its operand and nothing more.
ghost use Rattle.std.specs.Prelude.{ℕ, List};
ghost use Rattle.mgrammar.specs.ReadingWords.{name_at};
ghost use Rattle.mgrammar.specs.Reading.{names_at, kill_argument_at, new_argument_at, settled_with, operand_or};
ghost use Rattle.mgrammar.specs.Grammar.{kill_argument, new_argument};
ghost use Rattle.mtree.specs.Tree.{arg_tree};
ghost use Rattle.mscan.specs.Gives.{Gives};

use crate::expr::{below, reference};
use crate::list::{Items, list};
use mnum::Name;
use mscan::{ParseFault, expect, name};
use mspec::limits::MAX_DEPTH;
use mtree::{Arg, Keyword};
use std::alloc::Global;

// The names in the brackets.
#[derive(Clone, Copy)]
struct InNames;

impl Items for InNames {
    type Item = Name;

    ghost Tree = { List ℕ };

    ghost tree = { λ name. name };

    ghost read = { λ _. name_at };

    fn item(self, alloc: Global, bytes: &[u8]) -> Result<(Name, &[u8]), ParseFault> {
        name(alloc, bytes)
    }
}

// Names, after the bracket before them.
#[tactic(auto, unfolding(mgrammar::specs::Reading::names_at))]
fn names(alloc: Global, bytes: &[u8]) -> Result<(Vec<Name>, &[u8]), ParseFault>
    ensures { Gives (λ x. (x.0.items, x.1.now)) result (names_at bytes.now) }
{
    let (names, rest) = list(InNames, alloc, bytes)?;
    let rest = expect(b')', rest)?;
    Ok((names, rest))
}

#[tactic(auto, unfolding(mgrammar::specs::Reading::kill_argument_at))]
pub fn kill_argument(alloc: Global, bytes: &[u8]) -> Result<(Arg, &[u8]), ParseFault>
    ensures { Gives (λ x. (arg_tree x.0, x.1.now)) result (settled_with kill_argument_at kill_argument bytes.now) }
{
    let Some((first, behind)) = bytes.split_first() else {
        return Err(ParseFault::Syntax);
    };
    if *first == b'(' {
        let (names, rest) = names(alloc, behind)?;
        return Ok((Arg::KillOthers(names), rest));
    }
    let (reference, rest) = reference(alloc, bytes, MAX_DEPTH)?;
    match reference.into_operand() {
        Ok(operand) => Ok((Arg::Indirect(Keyword::Kill, operand), rest)),
        Err(reference) => Ok((Arg::KillOne(reference), rest)),
    }
}

#[tactic(auto, unfolding(mgrammar::specs::Reading::new_argument_at))]
pub fn new_argument(alloc: Global, bytes: &[u8]) -> Result<(Arg, &[u8]), ParseFault>
    ensures { Gives (λ x. (arg_tree x.0, x.1.now)) result (operand_or new_argument_at new_argument bytes.now) }
{
    let Some((first, behind)) = bytes.split_first() else {
        return Err(ParseFault::Syntax);
    };
    match *first {
        b'@' => {
            let (operand, rest) = below(alloc, behind, MAX_DEPTH)?;
            Ok((Arg::Indirect(Keyword::New, operand), rest))
        }
        b'(' => {
            let (names, rest) = names(alloc, behind)?;
            Ok((Arg::NewOthers(names), rest))
        }
        _ => {
            let (name, rest) = name(alloc, bytes)?;
            Ok((Arg::NewOne(name), rest))
        }
    }
}
