// SPDX-License-Identifier: Apache-2.0
// Patterns.
ghost use Rattle.std.specs.Prelude.{◌≡◌, length, map, option_map};
ghost use Rattle.mgrammar.specs.Grammar.{patterns_of};
ghost use Rattle.mgrammar.specs.ReadingWords.{behind_at, is_count, count_at, repeated_with, atom_with, many, list_at, pattern_with, group_at, pattern_at};
ghost use Rattle.mtree.specs.Tree.{repeated_tree, alternative_trees, atom_tree};
ghost use Rattle.mscan.specs.Gives.{Gives};

use crate::fault::ParseFault;
use crate::runs::{Class, expect, past, run, text_after};
use mnum::Bytes7;
use mtree::{Alternative, Atom, Count, Letters, Repeated};
use std::alloc::Global;

// A bound of a count has at most this many digits.
const MAX_DIGITS: usize = 4;

// The digits after a point, if the text begins with one.
fn behind(alloc: Global, bytes: &[u8]) -> Result<(Option<Bytes7>, &[u8]), ParseFault>
    ensures { Gives (λ x. (x.0, x.1.now)) result (behind_at bytes.now) }
{
    let Some((b'.', behind)) = bytes.split_first() else {
        return Ok((None, bytes));
    };
    let (digits, rest) = run(Class::Digit, behind);
    Ok((Some(Bytes7::from_slice(alloc, digits)?), rest))
}

fn is_count(front: &Bytes7, behind: &Option<Bytes7>) -> bool
    ensures { result ≡ is_count front.now behind.now }
{
    let front = front.as_bytes().len();
    match behind {
        None => 0 < front && front <= MAX_DIGITS,
        Some(behind) => front <= MAX_DIGITS && behind.as_bytes().len() <= MAX_DIGITS,
    }
}

#[tactic(auto, unfolding(mgrammar::specs::ReadingWords::count_at))]
fn count(alloc: Global, bytes: &[u8]) -> Result<(Count, &[u8]), ParseFault>
    ensures { Gives (λ x. (x.0, x.1.now)) result (count_at bytes.now) }
{
    let (digits, rest) = run(Class::Digit, bytes);
    let front = Bytes7::from_slice(alloc, digits)?;
    let (behind, rest) = behind(alloc, rest)?;
    if !is_count(&front, &behind) {
        return Err(ParseFault::Syntax);
    }
    Ok((Count::new(front, behind), rest))
}

// What an atom repeats, within which `depth` brackets may be open.
#[cycle(pattern)]
#[tactic(auto, unfolding(mgrammar::specs::ReadingWords::repeated_with))]
fn repeated(alloc: Global, bytes: &[u8], depth: u32) -> Result<(Repeated, &[u8]), ParseFault>
    ensures { Gives (λ x. (repeated_tree x.0, x.1.now)) result (repeated_with (group_at depth) bytes.now) }
{
    if let Some(behind) = past(b'"', bytes) {
        let (text, rest) = text_after(alloc, behind)?;
        return Ok((Repeated::Copies(text), rest));
    }
    if let Some(behind) = past(b'(', bytes) {
        let (patterns, rest) = group(alloc, behind, depth)?;
        return Ok((Repeated::Group(patterns), rest));
    }
    let (letters, rest) = run(Class::PatternLetter, bytes);
    if letters.is_empty() {
        return Err(ParseFault::Syntax);
    }
    let letters = Letters::new(Bytes7::from_slice(alloc, letters)?);
    Ok((Repeated::Classes(letters), rest))
}

// The rest of a group, after the bracket that opens it, in which one bracket fewer may open.
#[cycle(pattern)]
#[tactic(auto, unfolding(mgrammar::specs::ReadingWords::group_at))]
fn group(alloc: Global, bytes: &[u8], depth: u32) -> Result<(Vec<Alternative>, &[u8]), ParseFault>
    ensures { Gives (λ x. (patterns_of (map alternative_trees x.0.items), x.1.now)) result (group_at depth bytes.now) }
{
    if depth == 0 {
        return Err(ParseFault::Syntax);
    }
    let (patterns, rest) = patterns(alloc, bytes, depth - 1)?;
    let rest = expect(b')', rest)?;
    Ok((patterns, rest))
}

// Patterns with commas between.
#[cycle(pattern)]
fn patterns(
    alloc: Global,
    bytes: &[u8],
    depth: u32,
) -> Result<(Vec<Alternative>, &[u8]), ParseFault>
    ensures { Gives (λ x. (map alternative_trees x.0.items, x.1.now)) result (list_at (pattern_with (group_at depth)) bytes.now) }
{
    let (first, start) = alternative(alloc, bytes, depth)?;
    let mut all = Vec::new(alloc);
    all.push(first)?;
    let mut rest = start;
    for _ in 0..start.len() {
        let Some(behind) = past(b',', rest) else {
            break;
        };
        let (item, after) = alternative(alloc, behind, depth)?;
        all.push(item)?;
        rest = after;
    }
    Ok((all, rest))
}

#[cycle(pattern)]
fn alternative(alloc: Global, bytes: &[u8], depth: u32) -> Result<(Alternative, &[u8]), ParseFault>
    ensures { Gives (λ x. (alternative_trees x.0, x.1.now)) result (pattern_with (group_at depth) bytes.now) }
{
    let (atoms, rest) = some_atoms(alloc, bytes, depth)?;
    Ok((Alternative { atoms }, rest))
}

// One atom or more.
#[cycle(pattern)]
#[tactic(auto, unfolding(mgrammar::specs::ReadingWords::pattern_with))]
fn some_atoms(alloc: Global, bytes: &[u8], depth: u32) -> Result<(Vec<Atom>, &[u8]), ParseFault>
    ensures { Gives (λ x. (map atom_tree x.0.items, x.1.now)) result (pattern_with (group_at depth) bytes.now) }
{
    let (atoms, rest) = atoms(alloc, bytes, depth)?;
    if atoms.is_empty() {
        return Err(ParseFault::Syntax);
    }
    Ok((atoms, rest))
}

#[cycle(pattern)]
fn atoms(alloc: Global, bytes: &[u8], depth: u32) -> Result<(Vec<Atom>, &[u8]), ParseFault>
    ensures { Gives (λ x. (map atom_tree x.0.items, x.1.now)) result (many (atom_with (group_at depth)) (length bytes.now) bytes.now) }
{
    let mut all = Vec::new(alloc);
    let mut rest = bytes;
    for _ in 0..bytes.len() {
        let Some((item, after)) = atom(alloc, rest, depth)? else {
            break;
        };
        all.push(item)?;
        rest = after;
    }
    Ok((all, rest))
}

// The next atom of a pattern, if one begins.
#[cycle(pattern)]
#[tactic(auto, unfolding(mgrammar::specs::ReadingWords::atom_with))]
fn atom(alloc: Global, bytes: &[u8], depth: u32) -> Result<Option<(Atom, &[u8])>, ParseFault>
    ensures { Gives (λ o. option_map (λ x. (atom_tree x.0, x.1.now)) o) result (atom_with (group_at depth) bytes.now) }
{
    let Some((first, _)) = bytes.split_first() else {
        return Ok(None);
    };
    if !Class::DigitOrPoint.has(*first) {
        return Ok(None);
    }
    let (count, rest) = count(alloc, bytes)?;
    let (repeated, rest) = repeated(alloc, rest, depth)?;
    Ok(Some((Atom { count, repeated }, rest)))
}

/// The pattern that the text begins with, one atom or more, and what follows it, if `depth` more brackets may be open. `Syntax` if it
/// begins with none, `Memory` if it runs out of memory.
#[tactic(auto, unfolding(mgrammar::specs::ReadingWords::pattern_at))]
pub fn pattern(alloc: Global, bytes: &[u8], depth: u32) -> Result<(Vec<Atom>, &[u8]), ParseFault>
    ensures { Gives (λ x. (map atom_tree x.0.items, x.1.now)) result (pattern_at depth bytes.now) }
{
    some_atoms(alloc, bytes, depth)
}
