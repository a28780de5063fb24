// SPDX-License-Identifier: Apache-2.0
// The laws of runs. Each function's contract is the law, and its body is empty: the code never calls them.
ghost use Rattle.misolation.specs.RunLaws.{NothingIsTold, TellsOn, ToldApart, EquallyTold, ToldTheSame};

/// If nothing was run, nothing is shown, and the run is whole.
#[tactic(auto, using(crate::proofs::RunsTold::nothing_is_told))]
pub fn nothing_is_told()
    ensures { NothingIsTold }
{}

/// A run goes on by one transition: its reply is shown if it is at a terminal of the account, and the run stays whole if the transition did
/// not fail at a terminal of an account that reaches it.
#[tactic(auto, using(crate::proofs::RunsTold::tells_on))]
pub fn tells_on()
    ensures { TellsOn }
{}

/// Told apart: whatever a run tells an account, the members' part of its history tells it alone, over the cuts to any closed set that
/// has the account, whichever of their transitions failed.
#[tactic(auto, using(crate::proofs::RunsTold::told_apart))]
pub fn told_apart()
    ensures { ToldApart }
{}

/// Equally told: a whole run tells the account what the definitional interpreter answers to the lines of the accounts that reach it,
/// over their globals, their sessions and locks, and the grants between them alone.
pub fn equally_told()
    ensures { EquallyTold }
{}

/// Told the same: two whole runs that agree for an account tell it the same.
pub fn told_the_same()
    ensures { ToldTheSame }
{}
