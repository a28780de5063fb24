// SPDX-License-Identifier: Apache-2.0
// The operator `?`: the turns that the groups of a pattern may take are charged before a value is matched.
ghost use Rattle.std.specs.Prelude.{◌≡◌, ℕ, map};
ghost use Rattle.mmeaning.specs.Expression.{matches_text};
ghost use Rattle.mmeaning.specs.Operators as meaning;
ghost use Rattle.mtree.specs.CappedCounts.{capped};
ghost use Rattle.mtree.specs.Tree.{atom_tree};
ghost use Rattle.meval.specs.Evaluates.{Evaluates};

use crate::eval::Eval;
use crate::reading_reference::read_pattern;
use mnodes::NodeStore;
use moperator::{Code, matches, pattern_turns};
use mtree::Atom;
use mvalue::Value;
use std::alloc::Global;

impl<'a, S: NodeStore> Eval<'a, S> {
    // Spends this many steps. If fewer are left, it spends those. The machine's greatest number stands for all that are greater, since no line
    // has that many steps.
    fn charge_each(&mut self, count: usize) -> Result<(), Code>
        ensures { (n : ℕ) → count ≡ capped n → Evaluates S.NodeStore (λ i. meaning.charges n) (λ u. u) self.old result self.new }
    {
        if count > self.steps as usize {
            self.steps = 0;
            return Err(Code::Zsteps);
        }
        self.steps -= count as u32;
        Ok(())
    }

    // Whether a value matches a pattern.
    #[inline(never)]
    pub(crate) fn matching(
        &mut self,
        alloc: Global,
        atoms: &[Atom],
        value: &Value,
    ) -> Result<bool, Code>
        ensures { Evaluates S.NodeStore (λ i. meaning.matching (map atom_tree atoms.now) value.now) (λ matches. matches) self.old result self.new }
    {
        let turns = pattern_turns(atoms, value)?;
        self.charge_each(turns)?;
        let answer = matches(alloc, atoms, value)?;
        Ok(answer)
    }
    /// Whether a value matches the pattern that a text is, which counts as an indirection.
    ///
    /// # Errors
    ///
    /// `Zdepth` if no indirection is free, `Zsyntax` if the text is no pattern, `Zsteps` if its groups may take more turns than steps are
    /// left, and `Zmem` if memory runs out.
    #[inline(never)]
    pub fn matches_text(&mut self, alloc: Global, value: &Value, given: Value) -> Result<bool, Code>
        ensures { Evaluates S.NodeStore (λ i. matches_text i value.now given) (λ matches. matches) self.old result self.new }
    {
        let Some(_) = self.depth.indirected() else {
            return Err(Code::Zdepth);
        };
        let text = given.into_text(alloc)?;
        let atoms = read_pattern(alloc, text.as_bytes())?;
        self.matching(alloc, &atoms, value)
    }
}
