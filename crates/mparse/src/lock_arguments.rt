// SPDX-License-Identifier: Apache-2.0
// The arguments of LOCK: a sign or none, a variable or variables in brackets, and a timeout or none; or an `@` with its operand and
// nothing more.
ghost use Rattle.std.specs.Prelude.{◌≡◌, ◌-◌};
ghost use Rattle.mgrammar.specs.Grammar.{ReferenceTree, lock_argument};
ghost use Rattle.mgrammar.specs.WellFormed.{max_depth, is_named};
ghost use Rattle.mgrammar.specs.ReadingExpressions.{readers_at};
ghost use Rattle.mgrammar.specs.ReadingWords.{after_sign};
ghost use Rattle.mgrammar.specs.Reading.{kind_of, lock_ref_with, locked_at, lock_argument_at, settled_with};
ghost use Rattle.mtree.specs.Tree.{reference_tree, kind_tree, locked_tree, arg_tree};
ghost use Rattle.mscan.specs.Gives.{Gives};

use crate::control::behind_colon;
use crate::expr::reference;
use crate::list::{Items, list};
use crate::operand::locked_operand;
use mscan::{ParseFault, expect};
use mspec::limits::MAX_DEPTH;
use mtree::{Arg, Keyword, LockKind, Locked, Reference};
use std::alloc::Global;

// How the argument begins, and what comes after its sign.
fn kind(bytes: &[u8]) -> (LockKind, &[u8])
    ensures kind { kind_tree result.0 ≡ kind_of bytes.now }
    ensures rest { result.1.now ≡ after_sign bytes.now }
{
    let Some((first, rest)) = bytes.split_first() else {
        return (LockKind::Anew, bytes);
    };
    match *first {
        b'+' => (LockKind::Adding, rest),
        b'-' => (LockKind::GivingBack, rest),
        _ => (LockKind::Anew, bytes),
    }
}

// Whether a variable may be locked: any but a naked reference, which has no name of its own.
fn is_named(reference: &Reference) -> bool
    ensures { result ≡ is_named (reference_tree reference.now) }
{
    match reference {
        Reference::Naked(_) => false,
        Reference::Variable(_)
        | Reference::Node(..)
        | Reference::Local(..)
        | Reference::Global(..)
        | Reference::Indirect(..)
        | Reference::Extended(..) => true,
    }
}

#[tactic(auto, unfolding(mgrammar::specs::Reading::lock_ref_with))]
fn named(alloc: Global, bytes: &[u8], depth: u32) -> Result<(Reference, &[u8]), ParseFault>
    ensures { Gives (λ x. (reference_tree x.0, x.1.now)) result (lock_ref_with (readers_at depth) bytes.now) }
{
    let (reference, rest) = reference(alloc, bytes, depth)?;
    if !is_named(&reference) {
        return Err(ParseFault::Syntax);
    }
    Ok((reference, rest))
}

// The variables in the brackets.
#[derive(Clone, Copy)]
struct InBrackets;

impl Items for InBrackets {
    type Item = Reference;

    ghost Tree = { ReferenceTree };

    ghost tree = { reference_tree };

    ghost read = { λ _. lock_ref_with (readers_at (max_depth - 1)) };

    fn item(self, alloc: Global, bytes: &[u8]) -> Result<(Reference, &[u8]), ParseFault> {
        named(alloc, bytes, MAX_DEPTH - 1)
    }
}

#[tactic(auto, unfolding(mgrammar::specs::Reading::locked_at))]
fn locked(alloc: Global, bytes: &[u8]) -> Result<(Locked, &[u8]), ParseFault>
    ensures { Gives (λ x. (locked_tree x.0, x.1.now)) result (locked_at bytes.now) }
{
    let Some((first, behind)) = bytes.split_first() else {
        return Err(ParseFault::Syntax);
    };
    if *first == b'(' {
        let (all, rest) = list(InBrackets, alloc, behind)?;
        let rest = expect(b')', rest)?;
        return Ok((Locked::Several(all), rest));
    }
    let (reference, rest) = named(alloc, bytes, MAX_DEPTH)?;
    Ok((Locked::One(reference), rest))
}

#[tactic(auto, unfolding(mgrammar::specs::Reading::lock_argument_at))]
pub fn lock_argument(alloc: Global, bytes: &[u8]) -> Result<(Arg, &[u8]), ParseFault>
    ensures { Gives (λ x. (arg_tree x.0, x.1.now)) result (settled_with lock_argument_at lock_argument bytes.now) }
{
    let (kind, rest) = kind(bytes);
    let (names, rest) = locked(alloc, rest)?;
    let (timeout, rest) = behind_colon(alloc, rest)?;
    if kind != LockKind::Anew || timeout.is_some() {
        return Ok((Arg::Lock(kind, names, timeout), rest));
    }
    match locked_operand(names) {
        Ok(operand) => Ok((Arg::Indirect(Keyword::Lock, operand), rest)),
        Err(names) => Ok((Arg::Lock(kind, names, None), rest)),
    }
}
