// SPDX-License-Identifier: Apache-2.0
// Conditions: those after a command's word, and the arguments of IF.
ghost use Rattle.std.specs.Prelude.{◌≡◌, option_map};
ghost use Rattle.mmeaning.specs.LineMeaning as meaning;
ghost use Rattle.mtree.specs.Tree.{expr_tree, condition_tree};
ghost use Rattle.mcommand.specs.Does.{Does};
ghost use Rattle.mcommand.specs.Conditions.{tested, truth_set};

use crate::parts::Parts;
use mnodes::NodeStore;
use moperator::{Code, truth_of};
use mtree::Expr;
use mvalue::Value;
use std::alloc::Global;

impl<'a, S: NodeStore> Parts<'a, S> {
    /// Whether a condition holds, as it does if there is none.
    ///
    /// # Errors
    ///
    /// Those of the condition's value; `Zover` if its number is too large; `Zmem` if memory runs out.
    #[inline(always)]
    pub fn holds(&mut self, alloc: Global, condition: &Option<Box<Expr>>) -> Result<bool, Code>
        ensures { Does S.NodeStore (λ i. meaning.holds i (condition_tree condition.now)) (λ holds. holds) self.old result self.new }
    {
        match condition {
            None => Ok(true),
            Some(e) => self.eval.truth(alloc, e),
        }
    }

    /// Whether a value is true, which is then the value of `$TEST`.
    ///
    /// # Errors
    ///
    /// `Zover` if the value's number is too large. `$TEST` is then as it was.
    #[inline]
    pub fn truth_tested(&mut self, value: &Value) -> Result<bool, Code>
        ensures { Does S.NodeStore (λ i. truth_set value.now) (λ is_true. is_true) self.old result self.new }
    {
        let is_true = truth_of(value)?;
        self.eval.set_test(is_true);
        Ok(is_true)
    }

    /// Whether a condition of IF is true, which is then the value of `$TEST`.
    ///
    /// # Errors
    ///
    /// Those of the condition's value; `Zover` if its number is too large; `Zmem` if memory runs out. `$TEST` is then as it was.
    pub fn testing(&mut self, alloc: Global, e: &Expr) -> Result<bool, Code>
        ensures { Does S.NodeStore (λ i. tested i (expr_tree e.now)) (λ is_true. is_true) self.old result self.new }
    {
        let value = self.eval.eval(alloc, e)?;
        self.truth_tested(&value)
    }
}
