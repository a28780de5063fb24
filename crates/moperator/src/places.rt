// SPDX-License-Identifier: Apache-2.0
// The match of a pattern in general: the places to which its atoms lead, one after another, and those to which a group leads, turn after
// turn.
ghost use Rattle.std.specs.Prelude.{◌≡◌, ℕ, List, Bool, ◌+◌, max, true, map, length, IfOk};
ghost use Rattle.mgrammar.specs.Grammar.{patterns_of};
ghost use Rattle.mspec.specs.Pattern.{Matches, IsJoined};
ghost use Rattle.mspec.specs.PatternTests as tests;
ghost use Rattle.mtext.specs.PatternPlaces.{count_of, AreEnds, AreLed};
ghost use Rattle.mtree.specs.Tree.{repeated_tree, alternative_trees, atom_tree};
ghost use Rattle.moperator.specs.TreePatterns.{IsJoinedWithin, is_any_kept, kept_atom, kept_repeated, pattern_of};

use mtext::{Atom, Count, Repeated, either_marks, ends_of, has_mark};
use mtree::Alternative;
use std::alloc::{AllocError, Global};

// How many turns of a group are enough: those that are wanted, or one for each character, if there are that many.
fn enough_turns(count: Count, characters: usize) -> usize
    ensures { result ≡ tests.at_most count.most (max count.least characters) }
{
    let serving = count.least.max(characters);
    match count.most {
        None => serving,
        Some(most) => most.min(serving),
    }
}

// The places where a group may end before any turn.
fn first_ends(alloc: Global, least: usize, starts: &[bool]) -> Result<Vec<bool>, AllocError>
    ensures { IfOk result (λ ends. (text : List ℕ) (test : List ℕ → Bool) → length starts.now ≡ length text + 1 → AreLed text
        (IsJoinedWithin test least 0) starts.now ends.items) }
{
    if least == 0 {
        return Vec::from_slice(alloc, starts);
    }
    vec![in alloc; false; starts.len()]
}

// Those where it may end after one turn more, which leads to these places.
fn more_ends(
    alloc: Global,
    least: usize,
    turn: usize,
    ends: Vec<bool>,
    places: &[bool],
) -> Result<Vec<bool>, AllocError>
    requires { length ends.items ≡ length places.now }
    ensures { IfOk result (λ more. (text : List ℕ) (test : List ℕ → Bool) (starts : List Bool) (before : ℕ) → turn ≡ before + 1
        → AreLed text (IsJoinedWithin test least before) starts ends.items → AreLed text (IsJoined test turn) starts places.now → AreLed text
        (IsJoinedWithin test least turn) starts more.items) }
{
    if turn < least {
        return Ok(ends);
    }
    either_marks(alloc, ends.as_slice(), places)
}

// The places to which this many of what an atom repeats lead.
#[cycle(ends)]
fn ends_of_repeated(
    alloc: Global,
    repeated: &mtree::Repeated,
    count: Count,
    text: &[u8],
    starts: &[bool],
) -> Result<Vec<bool>, AllocError>
    requires { length starts.now ≡ length text.now + 1 }
    ensures { IfOk result (λ ends. AreEnds text.now (count_of count) (kept_repeated (repeated_tree repeated.now)) starts.now ends.items) }
{
    let patterns = match repeated {
        mtree::Repeated::Classes(letters) => {
            let repeated = Repeated::Members(letters.codes(alloc)?);
            return ends_of(alloc, text, &Atom { count, repeated }, starts);
        }
        mtree::Repeated::Copies(string) => {
            let repeated = Repeated::Copies(string.copy()?);
            return ends_of(alloc, text, &Atom { count, repeated }, starts);
        }
        mtree::Repeated::Group(patterns) => patterns,
    };
    let turns = enough_turns(count, text.len());
    let mut turn = 0;
    let mut places = Vec::from_slice(alloc, starts)?;
    let mut ends = first_ends(alloc, count.least, starts)?;
    while turn < turns && has_mark(places.as_slice()) {
        places = ends_of_any(alloc, patterns, text, places.as_slice())?;
        turn += 1;
        ends = more_ends(alloc, count.least, turn, ends, places.as_slice())?;
    }
    Ok(ends)
}

// Those to which any of some patterns leads.
#[cycle(ends)]
fn ends_of_any(
    alloc: Global,
    patterns: &[Alternative],
    text: &[u8],
    starts: &[bool],
) -> Result<Vec<bool>, AllocError>
    requires { length starts.now ≡ length text.now + 1 }
    ensures { IfOk result (λ ends. AreLed text.now (λ t. is_any_kept (patterns_of (map alternative_trees patterns.now)) t ≡ true) starts.now ends.items) }
{
    let mut all = vec![in alloc; false; starts.len()]?;
    for pattern in patterns {
        let ends = ends_of_atoms(alloc, &pattern.atoms, text, starts)?;
        all = either_marks(alloc, all.as_slice(), ends.as_slice())?;
    }
    Ok(all)
}

// Those to which atoms lead, one after another.
#[cycle(ends)]
pub fn ends_of_atoms(
    alloc: Global,
    atoms: &[mtree::Atom],
    text: &[u8],
    starts: &[bool],
) -> Result<Vec<bool>, AllocError>
    requires { length starts.now ≡ length text.now + 1 }
    ensures { IfOk result (λ ends. AreLed text.now (Matches (pattern_of atoms.now)) starts.now ends.items) }
{
    let mut places = Vec::from_slice(alloc, starts)?;
    for atom in atoms {
        places = ends_of_atom(alloc, atom, text, places.as_slice())?;
    }
    Ok(places)
}

// Those to which one atom leads.
#[cycle(ends)]
fn ends_of_atom(
    alloc: Global,
    atom: &mtree::Atom,
    text: &[u8],
    starts: &[bool],
) -> Result<Vec<bool>, AllocError>
    requires { length starts.now ≡ length text.now + 1 }
    ensures { IfOk result (λ ends. AreEnds text.now (kept_atom (atom_tree atom.now)).count (kept_atom (atom_tree atom.now)).repeated starts.now ends.items) }
{
    ends_of_repeated(alloc, &atom.repeated, atom.count.number(), text, starts)
}
