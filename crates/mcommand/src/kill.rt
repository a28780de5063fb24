// SPDX-License-Identifier: Apache-2.0
// KILL of one variable.
ghost use Rattle.std.specs.Prelude.{◌≡◌};
ghost use Rattle.mmeaning.specs.LineMeaning as meaning;
ghost use Rattle.meval.specs.Acts.{kill_act};
ghost use Rattle.meval.specs.Places.{pending_view};
ghost use Rattle.mtree.specs.Tree.{reference_tree};
ghost use Rattle.mcommand.specs.Does.{Does};

use crate::parts::Parts;
use meval::Pending;
use mgrant::Mode;
use mnodes::NodeStore;
use moperator::Code;
use mtree::Reference;
use std::alloc::Global;

impl<'a, S: NodeStore> Parts<'a, S> {
    /// Removes the text of a variable, and of what is below it.
    ///
    /// # Errors
    ///
    /// Those of its subscripts' values; `M1` for a naked reference if the naked indicator is undefined, `Zgrant` if the account may not write the
    /// global; `Zsub` if no node can have the subscripts; `Zmem` if memory runs out, and `Zstore` if the store refuses.
    pub fn killing(&mut self, alloc: Global, reference: &Reference) -> Result<(), Code>
        ensures { Does S.NodeStore (λ i. meaning.killing i (reference_tree reference.now)) (λ u. u) self.old result self.new }
    {
        let pending = self.eval.evaluated(alloc, reference)?;
        self.kill_found(alloc, pending)
    }

    /// The same, once all that its reference has to evaluate is evaluated.
    ///
    /// # Errors
    ///
    /// Those of `killing` that come after the values of the subscripts.
    #[inline]
    pub fn kill_found(&mut self, alloc: Global, pending: Pending) -> Result<(), Code>
        ensures { Does S.NodeStore (λ i. kill_act (pending_view pending.entry)) (λ u. u) self.old result self.new }
    {
        let place = self.eval.resolved(alloc, Mode::Write, pending)?;
        self.eval.kill(&place)
    }
}
