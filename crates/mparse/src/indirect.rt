// SPDX-License-Identifier: Apache-2.0
// The texts of indirection, read whole: a variable, arguments of a command, a pattern, or a name.
ghost use Rattle.std.specs.Prelude.{◌≡◌, true, ℕ, List, map, IfOk, Err};
ghost use Rattle.mgrammar.specs.Grammar.{ReferenceTree, ArgTree, AtomTree, may_be_indirect, spell_reference, spell_list, spell_arg, spell_atoms};
ghost use Rattle.mgrammar.specs.Commands.{form_of};
ghost use Rattle.mgrammar.specs.WellFormed.{max_depth, WellReference, WellList, WellArg, WellAtom};
ghost use Rattle.mgrammar.specs.IndirectTexts.{ref_at, args_of, pattern_of, name_of};
ghost use Rattle.mspec.specs.Names.{IsName};
ghost use Rattle.mtree.specs.Tree.{reference_tree, arg_tree, keyword_tree, atom_tree};
ghost use Rattle.mscan.specs.Gives.{Gives};

use crate::expr::reference;
use crate::list::list;
use mnum::Name;
use mscan::{ParseFault, name, pattern};
use mspec::limits::MAX_DEPTH;
use mtree::{Arg, Atom, Keyword, Reference};
use std::alloc::Global;

#[tactic(auto, unfolding(mgrammar::specs::IndirectTexts::ref_at))]
fn whole_reference(alloc: Global, text: &[u8]) -> Result<Reference, ParseFault>
    ensures { Gives (λ v. reference_tree v) result (ref_at text.now) }
{
    let (reference, rest) = reference(alloc, text, MAX_DEPTH)?;
    if !rest.is_empty() {
        return Err(ParseFault::Syntax);
    }
    Ok(reference)
}

#[tactic(auto, unfolding(mgrammar::specs::IndirectTexts::args_of))]
fn whole_args(alloc: Global, keyword: Keyword, text: &[u8]) -> Result<Vec<Arg>, ParseFault>
    ensures { Gives (λ args. map arg_tree args.items) result (args_of (form_of (keyword_tree keyword)) text.now) }
{
    let (args, rest) = list(keyword, alloc, text)?;
    if !rest.is_empty() {
        return Err(ParseFault::Syntax);
    }
    Ok(args)
}

#[tactic(auto, unfolding(mgrammar::specs::IndirectTexts::pattern_of))]
fn whole_pattern(alloc: Global, text: &[u8]) -> Result<Vec<Atom>, ParseFault>
    ensures { Gives (λ atoms. map atom_tree atoms.items) result (pattern_of text.now) }
{
    let (atoms, rest) = pattern(alloc, text, MAX_DEPTH)?;
    if !rest.is_empty() {
        return Err(ParseFault::Syntax);
    }
    Ok(atoms)
}

#[tactic(auto, unfolding(mgrammar::specs::IndirectTexts::name_of))]
fn whole_name(alloc: Global, text: &[u8]) -> Result<Name, ParseFault>
    ensures { Gives (λ n. n) result (name_of text.now) }
{
    let (name, rest) = name(alloc, text)?;
    if !rest.is_empty() {
        return Err(ParseFault::Syntax);
    }
    Ok(name)
}

/// The variable that a text of any bytes is, as the value of an operand of name indirection: the one tree of the grammar that has this
/// text.
///
/// # Errors
///
/// `Syntax` only if no variable has the text, as when it is empty; `Memory` if it runs out of memory.
#[tactic(auto, using(mgrammar::proofs::ReadingIndirectTexts::reads_its_reference, crate::proofs::WholeTexts::is_tree, crate::proofs::WholeTexts::is_syntax))]
pub fn parse_ref(alloc: Global, text: &[u8]) -> Result<Reference, ParseFault>
    ensures read { Gives (λ v. reference_tree v) result (ref_at text.now) }
    ensures tree { IfOk result (λ v. WellReference max_depth (reference_tree v) × (spell_reference (reference_tree v) ≡ text.now)) }
    ensures syntax { result ≡ Err ParseFault.Syntax → (v : ReferenceTree) → WellReference max_depth v → spell_reference v ≡ text.now → ⊥ }
{
    whole_reference(alloc, text)
}

/// The arguments that a text of any bytes is, as the value of an operand of argument indirection of this command: the one list of
/// trees of the grammar that has this text, with at least one argument. The command is one whose arguments a text may give: any but FOR
/// and QUIT, and those that take none: ELSE and HALT.
///
/// # Errors
///
/// `Syntax` only if no arguments of the command have the text, as when it is empty; `Memory` if it runs out of memory.
#[tactic(auto, using(mgrammar::proofs::ReadingIndirectTexts::reads_its_arguments, crate::proofs::WholeTexts::is_syntax))]
pub fn parse_args(alloc: Global, keyword: Keyword, text: &[u8]) -> Result<Vec<Arg>, ParseFault>
    ensures read { Gives (λ args. map arg_tree args.items) result (args_of (form_of (keyword_tree keyword)) text.now) }
    ensures tree { may_be_indirect (form_of (keyword_tree keyword)) ≡ true → IfOk result (λ args. WellList (WellArg (form_of (keyword_tree keyword)))
        (map arg_tree args.items) × (spell_list spell_arg (map arg_tree args.items) ≡ text.now)) }
    ensures syntax { may_be_indirect (form_of (keyword_tree keyword)) ≡ true → result ≡ Err ParseFault.Syntax → (args : List ArgTree) → WellList (WellArg
        (form_of (keyword_tree keyword))) args → spell_list spell_arg args ≡ text.now → ⊥ }
{
    whole_args(alloc, keyword, text)
}

/// The pattern that a text of any bytes is, as the value of an operand of pattern indirection: the one list of atoms of the grammar that
/// has this text, with at least one atom.
///
/// # Errors
///
/// `Syntax` only if no pattern has the text, as when it is empty; `Memory` if it runs out of memory.
#[tactic(auto, using(mgrammar::proofs::ReadingIndirectTexts::reads_its_pattern, crate::proofs::WholeTexts::is_tree, crate::proofs::WholeTexts::is_syntax))]
pub fn parse_pattern(alloc: Global, text: &[u8]) -> Result<Vec<Atom>, ParseFault>
    ensures read { Gives (λ atoms. map atom_tree atoms.items) result (pattern_of text.now) }
    ensures tree { IfOk result (λ atoms. WellList (WellAtom max_depth) (map atom_tree atoms.items) × (spell_atoms (map atom_tree atoms.items) ≡ text.now)) }
    ensures syntax { result ≡ Err ParseFault.Syntax → (atoms : List AtomTree) → WellList (WellAtom max_depth) atoms → spell_atoms atoms ≡ text.now → ⊥ }
{
    whole_pattern(alloc, text)
}

/// The name that a text of any bytes is, as the value of the operand of an `@` in an actual.
///
/// # Errors
///
/// `Syntax` only if the text is no name, as when it is empty; `Memory` if it runs out of memory.
#[tactic(auto, using(mgrammar::proofs::ReadingIndirectTexts::reads_its_name, crate::proofs::WholeTexts::is_tree, crate::proofs::WholeTexts::is_syntax))]
pub fn parse_name(alloc: Global, text: &[u8]) -> Result<Name, ParseFault>
    ensures read { Gives (λ n. n) result (name_of text.now) }
    ensures tree { IfOk result (λ n. IsName n × (n ≡ text.now)) }
    ensures syntax { result ≡ Err ParseFault.Syntax → (n : List ℕ) → IsName n → n ≡ text.now → ⊥ }
{
    whole_name(alloc, text)
}
