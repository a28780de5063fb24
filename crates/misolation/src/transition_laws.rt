// SPDX-License-Identifier: Apache-2.0
// The laws of transitions. Each function's contract is the law, and its body is empty: the code never calls them.
ghost use Rattle.misolation.specs.TransitionLaws.{InsideTransitions, OutsideTransitions, TransitionsKeepFit, TransitionsWrite, TransitionsAreIsolated};

/// The inside law: a transition at a member's terminal is that transition over the cuts to a closed set, with the same reply. A normal transition
/// gives what it gives there, by the same operations and the same writes, and a failed one is a failed one there.
pub fn inside_transitions()
    ensures { InsideTransitions }
{}

/// The outside law: a transition at any other terminal, normal or failed, leaves the cut as it was.
pub fn outside_transitions()
    ensures { OutsideTransitions }
{}

/// Each transition, normal or failed, keeps every lock on a name that its terminal's account may hold.
#[tactic(auto, using(crate::proofs::Transitions::transitions_keep_fit))]
pub fn transitions_keep_fit()
    ensures { TransitionsKeepFit }
{}

/// Each transition leaves the old globals after a first part of its line's writes: after all of them, if it did not fail.
#[tactic(auto, using(crate::proofs::TransitionsWrite::transitions_write))]
pub fn transitions_write()
    ensures { TransitionsWrite }
{}

/// Both laws in one, for a transition of which all else is known: for every closed set it is a transition over the cuts, with the same writes, or
/// leaves them as they were.
pub fn transitions_are_isolated()
    ensures { TransitionsAreIsolated }
{}
