// SPDX-License-Identifier: Apache-2.0
// MERGE of one variable into another.
ghost use Rattle.mmeaning.specs.Merging.{merge_found, merging};
ghost use Rattle.meval.specs.Places.{pending_view};
ghost use Rattle.mtree.specs.Tree.{reference_tree};
ghost use Rattle.mcommand.specs.Does.{Does};

use crate::parts::Parts;
use meval::Pending;
use mnodes::NodeStore;
use moperator::Code;
use mtree::Reference;
use std::alloc::Global;

impl<'a, S: NodeStore> Parts<'a, S> {
    /// Copies what the source has, at and below it, to the target.
    ///
    /// # Errors
    ///
    /// Those of its subscripts' values; `M1` for a naked reference if the naked indicator is undefined, `Zgrant` if the account may not read
    /// the source or write the target; `Zsub` if no node can have the subscripts; `M19` if one is above the other; `Zsteps` if the steps do
    /// not suffice; `Zmem` if memory runs out, and `Zstore` if the store refuses.
    pub fn merging(
        &mut self,
        alloc: Global,
        target: &Reference,
        source: &Reference,
    ) -> Result<(), Code>
        ensures { Does S.NodeStore (λ i. merging i (reference_tree target.now) (reference_tree source.now)) (λ u. u) self.old result self.new }
    {
        self.eval.merging(alloc, target, source)
    }

    /// The same, once all that both references have to evaluate is evaluated.
    ///
    /// # Errors
    ///
    /// Those of `merging` that come after the values of the subscripts.
    pub fn merge_found(
        &mut self,
        alloc: Global,
        target: Pending,
        source: Pending,
    ) -> Result<(), Code>
        ensures { Does S.NodeStore (λ i. merge_found (pending_view target.entry) (pending_view source.entry)) (λ u. u) self.old result self.new }
    {
        self.eval.merge_found(alloc, target, source)
    }
}
