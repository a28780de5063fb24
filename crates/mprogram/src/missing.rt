// SPDX-License-Identifier: Apache-2.0
// Whether actuals are one that is missing, alone in its brackets, and hands over nothing.
ghost use Rattle.std.specs.Prelude.{◌≡◌, ◌∷◌, [], map};
ghost use Rattle.mgrammar.specs.Grammar.{actuals_of};
ghost use Rattle.mmeaning.specs.Expression.{is_bare};
ghost use Rattle.mtree.specs.Tree.{actual_tree};

use mtree::Actual;

fn is_missing(actual: &Actual) -> bool
    ensures { result ≡ is_bare (actuals_of (actual_tree actual.now ∷ [])) }
{
    match actual {
        Actual::Missing => true,
        Actual::Value(_) => false,
        Actual::Name(_) => false,
        Actual::IndirectName(_) => false,
    }
}

/// Whether actuals are one that is missing, alone in its brackets: it hands over nothing. Takes no memory.
pub fn is_bare(actuals: &[Actual]) -> bool
    ensures { result ≡ is_bare (actuals_of (map actual_tree actuals.now)) }
{
    match actuals {
        [only] => is_missing(only),
        _ => false,
    }
}
