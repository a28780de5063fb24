// SPDX-License-Identifier: Apache-2.0
// The operators of arithmetic, of operands that are numbers already.
ghost use Rattle.std.specs.Prelude.{◌≡◌, ℤ, Option, None, Some, MatchResult, IfSome};
ghost use Rattle.mmeaning.specs.Operators as meaning;
ghost use Rattle.mmeaning.specs.Yields.{Yields};
ghost use Rattle.mnum.specs.Division.{Leaves};
ghost use Rattle.mnum.specs.Num.{units};
ghost use Rattle.mnum.specs.declared.num.Num.{Num};
ghost use Rattle.mspec.specs.NumberText.{number_text};
ghost use Rattle.mtree.specs.Tree.{binary_tree};
ghost use Rattle.moperator.specs.Calculations.{operator_tree, calculated, division};
ghost use Rattle.moperator.specs.Codes.{fault_of};

use crate::code::Code;
use mnum::{ArithFault, Num, Over};
use mtree::Binary;

/// An operator that makes one number out of two.
#[derive(Clone, Copy, PartialEq, Eq)]
pub enum Arithmetic {
    Add,
    Subtract,
    Multiply,
    /// `/`
    Divide,
    /// `\`, the quotient without its fraction.
    DivideWhole,
    /// `#`, the remainder of division with a floor.
    Remainder,
}

/// The operator of arithmetic that an operator is, if it is one.
#[inline]
pub fn arithmetic_of(operator: Binary) -> Option<Arithmetic>
    ensures { IfSome result (λ own. operator_tree own ≡ binary_tree operator) }
{
    match operator {
        Binary::Add => Some(Arithmetic::Add),
        Binary::Subtract => Some(Arithmetic::Subtract),
        Binary::Multiply => Some(Arithmetic::Multiply),
        Binary::Divide => Some(Arithmetic::Divide),
        Binary::DivideWhole => Some(Arithmetic::DivideWhole),
        Binary::Remainder => Some(Arithmetic::Remainder),
        Binary::Join => None,
        Binary::Is(_) => None,
        Binary::IsNot(_) => None,
    }
}

// What was computed in the place of a number, or the code in its place.
#[inline]
#[tactic(auto, using(crate::proofs::Numbers::number_left, crate::proofs::Numbers::no_number_left))]
fn in_range(outcome: Result<(), Over>) -> Result<(), Code>
    ensures { (x : Option ℤ) (left : Num) → MatchResult outcome (λ _. x ≡ Some (units left)) (λ _. x ≡ None) → Yields fault_of (meaning.as_text x)
        (λ _. number_text (units left)) result }
{
    match outcome {
        Ok(()) => Ok(()),
        Err(_) => Err(Code::Zover),
    }
}

// The same for a division.
#[inline]
#[tactic(auto, using(crate::proofs::Numbers::quotient_left, crate::proofs::Numbers::no_quotient))]
fn divided(outcome: Result<(), ArithFault>) -> Result<(), Code>
    ensures { (divisor : ℤ) (x : Option ℤ) (left : Num) → Leaves divisor x left outcome → Yields fault_of (division divisor x) (λ _. number_text
        (units left)) result }
{
    match outcome {
        Ok(()) => Ok(()),
        Err(fault) => Err(Code::from(fault)),
    }
}

/// Turns the left number into what an operator gives for the two, in place: a number that is written and then moved at once has
/// to be had first.
///
/// # Errors
///
/// `M9` for a divisor of 0; `Zover` if the result is too large. What the left number is then is left open.
pub fn calculate(operator: Arithmetic, left: &mut Num, right: &Num) -> Result<(), Code>
    ensures { Yields fault_of (calculated operator (units left.old) (units right.now)) (λ _. number_text (units left.new)) result }
{
    match operator {
        Arithmetic::Add => in_range(left.add_assign(right)),
        Arithmetic::Subtract => in_range(left.sub_assign(right)),
        Arithmetic::Multiply => in_range(left.mul_assign(right)),
        Arithmetic::Divide => divided(left.div_assign(right)),
        Arithmetic::DivideWhole => divided(left.quot_assign(right)),
        Arithmetic::Remainder => divided(left.rem_assign(right)),
    }
}
