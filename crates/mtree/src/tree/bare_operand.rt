// SPDX-License-Identifier: Apache-2.0
// An `@` with its operand and nothing more, which is argument indirection.
ghost use Rattle.std.specs.Prelude.{◌≡◌, Some, None, IfOk, IfErr};
ghost use Rattle.mgrammar.specs.WellFormed.{bare_reference, bare_primary, bare_expr};
ghost use Rattle.mtree.specs.Tree.{expr_tree, primary_tree, reference_tree};

use crate::tree::{Expr, Operand, Primary, Reference};
use mnum::Name;

impl Reference {
    /// The operand of an `@` that has nothing more; or the variable again, if it is another.
    #[tactic(auto, using(crate::proofs::Operands::with_subscripts, crate::proofs::Operands::without_subscripts))]
    pub fn into_operand(self) -> Result<Primary, Reference>
        ensures operand { IfOk result (λ p. bare_reference (reference_tree self) ≡ Some (primary_tree p)) }
        ensures more { IfErr result (λ r. (bare_reference (reference_tree self) ≡ None) × (r ≡ self)) }
    {
        let Reference::Indirect(operand, subscripts) = self else {
            return Err(self);
        };
        if !subscripts.is_empty() {
            return Err(Reference::Indirect(operand, subscripts));
        }
        Ok(Box::into_inner(operand))
    }

    /// The name of a local variable without subscripts; or the variable again, if it is another.
    pub fn into_name(self) -> Result<Name, Reference>
        ensures name { IfOk result (λ n. self ≡ Reference.Variable n) }
        ensures more { IfErr result (λ r. ((name : Name) → r ≡ Reference.Variable name → ⊥) × (r ≡ self)) }
    {
        match self {
            Reference::Variable(name) => Ok(name),
            reference => Err(reference),
        }
    }
}

impl Primary {
    // The operand; or the primary again, if it is more than that.
    fn into_operand(self) -> Result<Primary, Primary>
        ensures operand { IfOk result (λ p. bare_primary (primary_tree self) ≡ Some (primary_tree p)) }
        ensures more { IfErr result (λ p. (bare_primary (primary_tree self) ≡ None) × (p ≡ self)) }
    {
        let Primary::Reference(reference) = self else {
            return Err(self);
        };
        match reference.into_operand() {
            Ok(operand) => Ok(operand),
            Err(reference) => Err(Primary::Reference(reference)),
        }
    }
}

impl Expr {
    /// The operand of an `@` that has nothing more; or the expression again, if it is another.
    #[tactic(auto, using(crate::proofs::Operands::with_tails, crate::proofs::Operands::with_signs, crate::proofs::Operands::without_both))]
    pub fn into_operand(self) -> Result<Primary, Expr>
        ensures operand { IfOk result (λ p. bare_expr (expr_tree self) ≡ Some (primary_tree p)) }
        ensures more { IfErr result (λ e. (bare_expr (expr_tree self) ≡ None) × (e ≡ self)) }
    {
        if !self.rest.is_empty() || !self.first.signs.is_empty() {
            return Err(self);
        }
        let Expr {
            first: Operand { signs, primary },
            rest,
        } = self;
        match primary.into_operand() {
            Ok(operand) => Ok(operand),
            Err(primary) => Err(Expr {
                first: Operand { signs, primary },
                rest,
            }),
        }
    }
}
