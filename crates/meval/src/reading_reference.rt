// SPDX-License-Identifier: Apache-2.0
// The text of a name or pattern indirection by its tree.
ghost use Rattle.std.specs.Prelude.{map};
ghost use Rattle.mspec.specs.Code.{Zsyntax};
ghost use Rattle.mspec.specs.Act.{give_some};
ghost use Rattle.mgrammar.specs.IndirectTexts.{pattern_of};
ghost use Rattle.mgrammar.specs.Languages.{ref_in};
ghost use Rattle.mmeaning.specs.Yields.{Yields};
ghost use Rattle.mtree.specs.Tree.{atom_tree, reference_tree};
ghost use Rattle.moperator.specs.Codes.{fault_of};

use mnum::{Bytes7, Name};
use moperator::Code;
use mparse::{ParseFault, parse_pattern, parse_ref};
use mtree::{Atom, Reference, since_reference};
use std::alloc::Global;

// The variable that a text names in a language. A name alone is not parsed: it is a local variable in each.
pub fn read_reference(alloc: Global, language: u32, text: Bytes7) -> Result<Reference, Code>
    ensures { Yields fault_of (give_some Zsyntax (ref_in language text)) reference_tree result }
{
    match Name::new(text) {
        Ok(name) => Ok(Reference::Variable(name)),
        Err(text) => parsed(alloc, language, text.as_bytes()),
    }
}

// The same for any text.
#[tactic(auto, using(mtree::proofs::InLanguages::reference_kept, mtree::proofs::InLanguages::reference_left_out, mtree::proofs::InLanguages::no_reference))]
#[inline(never)]
fn parsed(alloc: Global, language: u32, text: &[u8]) -> Result<Reference, Code>
    ensures { Yields fault_of (give_some Zsyntax (ref_in language text.now)) reference_tree result }
{
    match parse_ref(alloc, text) {
        Ok(reference) => if since_reference(&reference) > language {
            Err(Code::Zsyntax)
        } else {
            Ok(reference)
        },
        Err(ParseFault::Syntax) => Err(Code::Zsyntax),
        Err(ParseFault::Memory) => Err(Code::Zmem),
    }
}

// The pattern that a text is, in each language that has pattern indirection.
pub fn read_pattern(alloc: Global, text: &[u8]) -> Result<Vec<Atom>, Code>
    ensures { Yields fault_of (give_some Zsyntax (pattern_of text.now)) (λ atoms. map atom_tree atoms.items) result }
{
    match parse_pattern(alloc, text) {
        Ok(atoms) => Ok(atoms),
        Err(ParseFault::Syntax) => Err(Code::Zsyntax),
        Err(ParseFault::Memory) => Err(Code::Zmem),
    }
}
