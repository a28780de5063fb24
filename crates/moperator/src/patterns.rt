// SPDX-License-Identifier: Apache-2.0
// Patterns of the tree, and the operator `?`.
ghost use Rattle.std.specs.Prelude.{◌≡◌, ℕ, ◌-◌, ◌^◌, ◌<◌, true, false, map, drop, length, Decides, IfOk, MatchResult};
ghost use Rattle.std.specs.List.{list_any};
ghost use Rattle.mgrammar.specs.Matching.{atom_of as plain_atom, atom_reversed, turns_of};
ghost use Rattle.mspec.specs.Pattern.{Matches};
ghost use Rattle.mspec.specs.PatternTests.{is_match};
ghost use Rattle.mtext.specs.Endings.{Repeats, IsFirstOf};
ghost use Rattle.mtree.specs.CappedCounts.{capped};
ghost use Rattle.mtree.specs.Tree.{repeated_tree, atom_tree};
ghost use Rattle.moperator.specs.TreePatterns.{kept_repeated, pattern_of};

use crate::code::Code;
use crate::places::ends_of_atoms;
use crate::turns::{has_reversed, is_plain, turns_of};
use mtext::{Ending, LentAtom, LentRepeated, first_marks, segment_end};
use mvalue::{Kind, Value};
use std::alloc::{AllocError, Global};

fn lent_repeated(repeated: &mtree::Repeated) -> LentRepeated<'_>
    ensures { Repeats result (kept_repeated (repeated_tree repeated.now)) }
{
    match repeated {
        mtree::Repeated::Classes(letters) => LentRepeated::Members(letters.classes()),
        mtree::Repeated::Copies(text) => LentRepeated::Copies(text.as_bytes()),
        mtree::Repeated::Group(_) => LentRepeated::Any,
    }
}

// The atom at a place of a pattern, if there is one.
#[tactic(auto, using(crate::proofs::PatternWalk::from_atom))]
fn lent_atom(atoms: &[mtree::Atom], index: usize) -> Option<LentAtom<'_>>
    ensures { IsFirstOf result (drop index (pattern_of atoms.now)) }
{
    let atom = atoms.get(index)?;
    Some(LentAtom {
        count: atom.count.number(),
        repeated: lent_repeated(&atom.repeated),
    })
}

// The match of a pattern in general, which needs memory.
fn general_match(alloc: Global, atoms: &[mtree::Atom], text: &[u8]) -> Result<bool, AllocError>
    ensures { IfOk result (λ answer. Decides answer (Matches (pattern_of atoms.now) text.now)) }
{
    let starts = first_marks(alloc, text)?;
    let ends = ends_of_atoms(alloc, atoms, text, starts.as_slice())?;
    Ok(ends[text.len()])
}

// The match of a pattern: atom after atom, as long as each can end at one place only, and from there on in general.
fn text_matches(alloc: Global, atoms: &[mtree::Atom], text: &[u8]) -> Result<bool, AllocError>
    ensures { IfOk result (λ answer. Decides answer (Matches (pattern_of atoms.now) text.now)) }
{
    let mut at = 0;
    let mut passed = 0;
    let mut next = lent_atom(atoms, 0);
    while let Some(atom) = next {
        next = lent_atom(atoms, passed + 1);
        match segment_end(&text[at..], atom, next) {
            Ending::Behind(length) => at += length,
            Ending::Nowhere => return Ok(false),
            Ending::Open => return general_match(alloc, &atoms[passed..], &text[at..]),
        }
        passed += 1;
    }
    Ok(at == text.len())
}

// The number of characters of a value's text.
fn characters(value: &Value) -> usize
    ensures { result ≡ length value.now }
{
    match value.kind() {
        Kind::Number(number) => number.text().as_slice().len(),
        Kind::Text(text) => text.as_bytes().len(),
    }
}

// The turns that the groups of any pattern take at most. Not inlined, since few patterns have any.
#[inline(never)]
fn counted_turns(atoms: &[mtree::Atom], value: &Value) -> Result<usize, Code>
    ensures { MatchResult result
        (λ turns. (list_any atom_reversed (map atom_tree atoms.now) ≡ false) × (turns ≡ capped (turns_of (length value.now) (map atom_tree atoms.now))))
        (λ code. (list_any atom_reversed (map atom_tree atoms.now) ≡ true) × (code ≡ Code.M10)) }
{
    if has_reversed(atoms) {
        return Err(Code::M10);
    }
    Ok(turns_of(atoms, characters(value)))
}

/// How many turns the groups of a pattern take at most, of a value: the machine's greatest number if there are more.
///
/// # Errors
///
/// `M10` if the least count of any atom is above its greatest, in groups too.
#[inline(always)]
#[tactic(auto, using(crate::proofs::PatternMatches::capped_zero))]
pub fn pattern_turns(atoms: &[mtree::Atom], value: &Value) -> Result<usize, Code>
    ensures { MatchResult result
        (λ turns. (list_any atom_reversed (map atom_tree atoms.now) ≡ false) × (turns ≡ capped (turns_of (length value.now) (map atom_tree atoms.now))))
        (λ code. (list_any atom_reversed (map atom_tree atoms.now) ≡ true) × (code ≡ Code.M10)) }
{
    if is_plain(atoms) {
        return Ok(0);
    }
    counted_turns(atoms, value)
}

// The match of a value's text; that of a number is printed on the stack. Inlined, as `matches` is, since calls are much of what a match costs.
#[inline(always)]
fn value_matches(alloc: Global, atoms: &[mtree::Atom], value: &Value) -> Result<bool, AllocError>
    ensures answer { IfOk result (λ answer. Decides answer (Matches (pattern_of atoms.now) value.now)) }
    ensures short { length value.now < 2 ^ 64 - 1 }
{
    match value.kind() {
        Kind::Number(number) => text_matches(alloc, atoms, number.text().as_slice()),
        Kind::Text(text) => text_matches(alloc, atoms, text.as_bytes()),
    }
}

/// Whether a value matches a pattern none of whose counts is reversed.
///
/// # Errors
///
/// `AllocError` if it runs out of memory.
#[inline(always)]
pub fn matches(alloc: Global, atoms: &[mtree::Atom], value: &Value) -> Result<bool, AllocError>
    requires { list_any atom_reversed (map atom_tree atoms.now) ≡ false }
    ensures { IfOk result (λ answer. answer ≡ is_match (map plain_atom (map atom_tree atoms.now)) value.now) }
{
    let answer = value_matches(alloc, atoms, value)?;
    Ok(answer)
}
