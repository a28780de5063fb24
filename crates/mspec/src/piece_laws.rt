// SPDX-License-Identifier: Apache-2.0
// The laws of pieces and of places in texts. Each function's contract is the law, and its body is empty: the code never calls
// them.
ghost use Rattle.mspec.specs.PieceLaws.{OneList, FirstPlace};

/// A text has one list of pieces by a delimiter that is not empty, and it is the one that `pieces_of` gives.
pub fn one_list()
    ensures { OneList }
{}

/// `first_place` gives the first place at which a text occurs in another, and none if it does not occur there.
#[tactic(auto, using(crate::proofs::FirstPlaces::first_place_stands))]
pub fn first_place()
    ensures { FirstPlace }
{}
