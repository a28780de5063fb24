// SPDX-License-Identifier: Apache-2.0
// How many steps are passed by in $SELECT.
ghost use Rattle.std.specs.Prelude.{[], length, map};
ghost use Rattle.mgrammar.specs.Grammar.{choices_of};
ghost use Rattle.mmeaning.specs.Programs.{of_value, of_choices};
ghost use Rattle.mtree.specs.Tree.{expr_tree, choice_tree};
ghost use Rattle.mprogram.specs.Found.{IsCount};

use crate::op::Found;
use crate::steps::{in_choices, in_value};
use mtree::{Choice, Expr};

/// How many steps a value has; none if they are 2^64 or more, as those of no tree are. Takes no memory.
pub fn steps_in_value(expr: &Expr) -> Option<usize>
    ensures { IsCount result (length (of_value (expr_tree expr.now) [])) }
{
    match in_value(expr, usize::MAX) {
        Found::Op(_) => None,
        Found::Past(left) => Some(usize::MAX - left),
    }
}

/// How many steps choices of $SELECT have, with the one after the last; none if they are 2^64 or more, as those of no tree are.
/// Takes no memory.
pub fn steps_in_choices(choices: &[Choice]) -> Option<usize>
    ensures { IsCount result (length (of_choices (choices_of (map choice_tree choices.now)) [])) }
{
    match in_choices(choices, usize::MAX) {
        Found::Op(_) => None,
        Found::Past(left) => Some(usize::MAX - left),
    }
}
