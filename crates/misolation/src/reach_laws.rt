// SPDX-License-Identifier: Apache-2.0
// The laws of reach. Each function's contract is the law, and its body is empty: the code never calls them.
ghost use Rattle.misolation.specs.ReachLaws.{ReachIsLeastClosed, ReachIsChains, ReachIsKept};

/// The set that `reachers` computes is the least closed set that has the account.
pub fn reach_is_least_closed()
    ensures { ReachIsLeastClosed }
{}

/// A chain of flows leads to the account exactly from the members of that set.
#[tactic(auto, using(crate::proofs::Reaching::reach_is_chains))]
pub fn reach_is_chains()
    ensures { ReachIsChains }
{}

/// Over the cut to a closed set that has the account, the same accounts reach it.
#[tactic(auto, using(crate::proofs::ReachKept::reach_is_kept))]
pub fn reach_is_kept()
    ensures { ReachIsKept }
{}
