// SPDX-License-Identifier: Apache-2.0
// The text of a pattern.
ghost use Rattle.std.specs.Prelude.{◌≡◌, ◌++◌, OnOk, map};
ghost use Rattle.mgrammar.specs.Grammar.{group, patterns_of, spell_behind, spell_repeated, spell_atom, spell_atoms};
ghost use Rattle.mtree.specs.Tree.{repeated_tree, alternative_trees, atom_tree};

use crate::pieces::{put_string, put_text};
use crate::tree::{Alternative, Atom, Repeated};
use mnum::Bytes7;
use std::alloc::AllocError;

fn put_behind(out: &mut Bytes7, behind: &Option<Bytes7>) -> Result<(), AllocError>
    ensures { OnOk result (out.new ≡ out.old ++ spell_behind behind.now) }
{
    if let Some(digits) = behind {
        out.push(b'.')?;
        put_text(out, digits)?;
    }
    Ok(())
}

#[cycle(pattern)]
fn put_repeated(out: &mut Bytes7, repeated: &Repeated) -> Result<(), AllocError>
    ensures { OnOk result (out.new ≡ out.old ++ spell_repeated (repeated_tree repeated.now)) }
{
    match repeated {
        Repeated::Classes(letters) => put_text(out, letters.as_text()),
        Repeated::Copies(text) => put_string(out, text),
        Repeated::Group(patterns) => put_group(out, patterns),
    }
}

// Patterns in brackets, with commas between.
#[cycle(pattern)]
fn put_group(out: &mut Bytes7, patterns: &[Alternative]) -> Result<(), AllocError>
    ensures { OnOk result (out.new ≡ out.old ++ spell_repeated (group (patterns_of (map alternative_trees patterns.now)))) }
{
    out.push(b'(')?;
    let mut first = true;
    for pattern in patterns {
        if !first {
            out.push(b',')?;
        }
        put_atoms(out, &pattern.atoms)?;
        first = false;
    }
    out.push(b')')
}

#[cycle(pattern)]
fn put_atom(out: &mut Bytes7, atom: &Atom) -> Result<(), AllocError>
    ensures { OnOk result (out.new ≡ out.old ++ spell_atom (atom_tree atom.now)) }
{
    put_text(out, atom.count.as_front())?;
    put_behind(out, atom.count.as_behind())?;
    put_repeated(out, &atom.repeated)
}

// Atom after atom.
#[cycle(pattern)]
pub fn put_atoms(out: &mut Bytes7, atoms: &[Atom]) -> Result<(), AllocError>
    ensures { OnOk result (out.new ≡ out.old ++ spell_atoms (map atom_tree atoms.now)) }
{
    for atom in atoms {
        put_atom(out, atom)?;
    }
    Ok(())
}
