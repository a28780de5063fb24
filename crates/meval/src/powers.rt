// SPDX-License-Identifier: Apache-2.0
// Powers: the operator `**`, whose multiplications take steps.
ghost use Rattle.std.specs.Prelude.{◌≡◌, cond, unsigned_abs};
ghost use Rattle.mgrammar.specs.Grammar.{multiply, divide};
ghost use Rattle.mmeaning.specs.Operators as meaning;
ghost use Rattle.mnum.specs.Num.{units};
ghost use Rattle.moperator.specs.Calculations.{operator_tree};
ghost use Rattle.mspec.specs.Interpretations.{whole_part};
ghost use Rattle.mspec.specs.Number.{is_below_zero};
ghost use Rattle.mspec.specs.NumberText.{number_text};
ghost use Rattle.meval.specs.Evaluates.{Evaluates};

use crate::eval::Eval;
use mnodes::NodeStore;
use mnum::Num;
use moperator::{Arithmetic, Code, base_and_exponent, calculate};
use mvalue::Value;

// The operator that a power with this exponent repeats.
fn operator_of(exponent: Num) -> Arithmetic
    ensures { operator_tree result ≡ cond (is_below_zero (units exponent)) divide multiply }
{
    if exponent.is_below_zero() {
        Arithmetic::Divide
    } else {
        Arithmetic::Multiply
    }
}

// How often it does so.
fn times_of(exponent: Num) -> u64
    ensures { result ≡ unsigned_abs (whole_part (units exponent)) }
{
    exponent.to_whole().unsigned_abs()
}

impl<'a, S: NodeStore> Eval<'a, S> {
    // Does an operator so often, with the same number to the right, and turns the left one into what it gives. A step is charged each time,
    // so that a large exponent ends by the steps.
    fn repeat(
        &mut self,
        operator: Arithmetic,
        left: &mut Num,
        right: &Num,
        count: u64,
    ) -> Result<(), Code>
        ensures { Evaluates S.NodeStore (λ i. meaning.repeated (meaning.binary (operator_tree operator)) (number_text (units right.now)) count (number_text
            (units left.old))) (λ _. number_text (units left.new)) self.old result self.new }
    {
        let mut rest = count;
        while rest > 0 {
            self.charge()?;
            calculate(operator, left, right)?;
            rest -= 1;
        }
        Ok(())
    }

    /// Turns the value to the left into its power, by the exponent to the right.
    ///
    /// # Errors
    ///
    /// Those of the two numbers and of the power; `Zsteps` if the steps do not suffice for it. The value to the left is then any.
    #[inline(never)]
    pub fn raise(&mut self, left: &mut Value, right: &Value) -> Result<(), Code>
        ensures { Evaluates S.NodeStore (λ i. meaning.raising left.old right.now) (λ _. left.new) self.old result self.new }
    {
        let (base, exponent) = base_and_exponent(left, right)?;
        let mut power = Num::from_whole(1);
        self.repeat(operator_of(exponent), &mut power, &base, times_of(exponent))?;
        *left = Value::of_number(power);
        Ok(())
    }
}
