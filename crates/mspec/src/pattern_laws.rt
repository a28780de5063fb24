// SPDX-License-Identifier: Apache-2.0
// The law of pattern match. The function's contract is the law, and its body is empty: the code never calls it.
ghost use Rattle.mspec.specs.PatternLaws.{DecidesMatch};

/// `is_match` is true exactly when a text matches a pattern.
#[tactic(auto, using(crate::proofs::Matchings::decides_match))]
pub fn decides_match()
    ensures { DecidesMatch }
{}
