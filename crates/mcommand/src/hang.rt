// SPDX-License-Identifier: Apache-2.0
// HANG.
ghost use Rattle.mmeaning.specs.LineMeaning as meaning;
ghost use Rattle.mtree.specs.Tree.{expr_tree};
ghost use Rattle.mcommand.specs.Does.{Does};
ghost use Rattle.mcommand.specs.Conditions.{hung};

use crate::parts::Parts;
use mnodes::NodeStore;
use moperator::{Code, number_of};
use mtree::Expr;
use mvalue::Value;
use std::alloc::Global;

impl<'a, S: NodeStore> Parts<'a, S> {
    /// What HANG does with a value: it has to be a number, and nothing waits.
    ///
    /// # Errors
    ///
    /// `Zover` if the value's number is too large.
    pub fn hang(&mut self, seconds: &Value) -> Result<(), Code>
        ensures { Does S.NodeStore (λ i. hung seconds.now) (λ u. u) self.old result self.new }
    {
        number_of(seconds)?;
        Ok(())
    }

    /// What an argument of HANG does: it is evaluated, and nothing waits.
    ///
    /// # Errors
    ///
    /// Those of the argument's value; `Zover` if its number is too large; `Zmem` if memory runs out.
    pub fn hanging(&mut self, alloc: Global, e: &Expr) -> Result<(), Code>
        ensures { Does S.NodeStore (λ i. meaning.hanging i (expr_tree e.now)) (λ u. u) self.old result self.new }
    {
        self.eval.number(alloc, e)?;
        Ok(())
    }
}
