// SPDX-License-Identifier: Apache-2.0
// What a pattern says before a text is matched: whether any of its counts is reversed, and how many turns its groups take at most.
ghost use Rattle.std.specs.Prelude.{◌≡◌, ℕ, true, false, map};
ghost use Rattle.std.specs.List.{list_any};
ghost use Rattle.mgrammar.specs.Grammar.{patterns_of};
ghost use Rattle.mgrammar.specs.Matching as plain;
ghost use Rattle.mspec.specs.PatternTests as tests;
ghost use Rattle.mtext.specs.PatternPlaces.{count_of};
ghost use Rattle.mtree.specs.CappedCounts.{capped};
ghost use Rattle.mtree.specs.Tree.{repeated_tree, alternative_trees, atom_tree};

use mtext::Count;
use mtree::{Alternative, Atom, Repeated};

// ---- reversed counts

// Whether the count of an atom, or any in what it repeats, is reversed.
#[cycle(reversed)]
fn atom_reversed(atom: &Atom) -> bool
    ensures { result ≡ plain.atom_reversed (atom_tree atom.now) }
{
    atom.count.is_reversed() || repeated_reversed(&atom.repeated)
}

#[cycle(reversed)]
fn repeated_reversed(repeated: &Repeated) -> bool
    ensures { result ≡ plain.has_reversed (repeated_tree repeated.now) }
{
    match repeated {
        Repeated::Classes(_) => false,
        Repeated::Copies(_) => false,
        Repeated::Group(patterns) => patterns_reversed(patterns),
    }
}

#[cycle(reversed)]
fn patterns_reversed(patterns: &[Alternative]) -> bool
    ensures { result ≡ plain.patterns_reversed (patterns_of (map alternative_trees patterns.now)) }
{
    for pattern in patterns {
        if has_reversed(&pattern.atoms) {
            return true;
        }
    }
    false
}

// Whether any count of a pattern is reversed.
#[cycle(reversed)]
pub fn has_reversed(atoms: &[Atom]) -> bool
    ensures { result ≡ list_any plain.atom_reversed (map atom_tree atoms.now) }
{
    for atom in atoms {
        if atom_reversed(atom) {
            return true;
        }
    }
    false
}

// ---- turns

// Whether a pattern has no group, and no count that is reversed. Without a group no turns are taken. Nearly all patterns are plain, and this is
// all that a match of one costs for turns.
#[inline(always)]
pub fn is_plain(atoms: &[Atom]) -> bool
    ensures reversed { result ≡ true → list_any plain.atom_reversed (map atom_tree atoms.now) ≡ false }
    ensures turns { result ≡ true → (n : ℕ) → plain.turns_of n (map atom_tree atoms.now) ≡ 0 }
{
    for atom in atoms {
        if atom.count.is_reversed() {
            return false;
        }
        if let Repeated::Group(_) = &atom.repeated {
            return false;
        }
    }
    true
}

// The turns that a count takes at most, of a text with this many characters.
fn turns(count: Count, characters: usize) -> usize
    ensures { result ≡ capped (tests.turns (count_of count) characters) }
{
    let serving = count.least.saturating_add(characters);
    match count.most {
        None => serving,
        Some(most) => most.min(serving),
    }
}

// Those of an atom, with all in each of them, or the machine's greatest number if there are more.
#[cycle(turns)]
fn turns_of_atom(atom: &Atom, characters: usize) -> usize
    ensures { result ≡ capped (plain.turns_of_atom characters (atom_tree atom.now)) }
{
    match &atom.repeated {
        Repeated::Classes(_) => 0,
        Repeated::Copies(_) => 0,
        Repeated::Group(patterns) => {
            let within = turns_of_patterns(patterns, characters).saturating_add(1);
            turns(atom.count.number(), characters).saturating_mul(within)
        }
    }
}

#[cycle(turns)]
fn turns_of_patterns(patterns: &[Alternative], characters: usize) -> usize
    ensures { result ≡ capped (plain.turns_of_patterns characters (patterns_of (map alternative_trees patterns.now))) }
{
    let mut all = 0usize;
    for pattern in patterns {
        all = all.saturating_add(turns_of(&pattern.atoms, characters));
    }
    all
}

// Those of a pattern.
#[cycle(turns)]
pub fn turns_of(atoms: &[Atom], characters: usize) -> usize
    ensures { result ≡ capped (plain.turns_of characters (map atom_tree atoms.now)) }
{
    let mut all = 0usize;
    for atom in atoms {
        all = all.saturating_add(turns_of_atom(atom, characters));
    }
    all
}
