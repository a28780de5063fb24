// SPDX-License-Identifier: Apache-2.0
// The relations and logical operators, of operands that are values already.
ghost use Rattle.mmeaning.specs.Operators as meaning;
ghost use Rattle.mtree.specs.Tree.{truth_tree};
ghost use Rattle.mmeaning.specs.Yields.{Yields};
ghost use Rattle.moperator.specs.Codes.{fault_of};

use crate::code::Code;
use crate::operators::numbers;
use mkey::collate;
use mtext::{contains, follows};
use mtree::Truth;
use mvalue::Value;
use std::alloc::Global;

// Whether an operator holds between two values.
pub(crate) fn relation(
    alloc: Global,
    operator: Truth,
    left: &Value,
    right: &Value,
) -> Result<bool, Code>
    ensures { Yields fault_of (meaning.truth (truth_tree operator) left.now right.now) (λ holds. holds) result }
{
    match operator {
        Truth::Equals => Ok(left.equals(right)),
        Truth::Less => {
            let (a, b) = numbers(left, right)?;
            Ok(a.cmp(b).is_lt())
        }
        Truth::Greater => {
            let (a, b) = numbers(left, right)?;
            Ok(a.cmp(b).is_gt())
        }
        Truth::Contains => {
            let text = left.shown(alloc)?;
            let part = right.shown(alloc)?;
            Ok(contains(text.as_text().as_bytes(), part.as_text().as_bytes()))
        }
        Truth::Follows => {
            let text = left.shown(alloc)?;
            let other = right.shown(alloc)?;
            Ok(follows(text.as_text().as_bytes(), other.as_text().as_bytes()))
        }
        Truth::SortsAfter => {
            let text = left.shown(alloc)?;
            let other = right.shown(alloc)?;
            Ok(collate(text.as_text(), other.as_text()).is_gt())
        }
        Truth::Both => {
            let (a, b) = numbers(left, right)?;
            Ok(a.is_true() && b.is_true())
        }
        Truth::Either => {
            let (a, b) = numbers(left, right)?;
            Ok(a.is_true() || b.is_true())
        }
    }
}
