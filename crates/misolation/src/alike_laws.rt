// SPDX-License-Identifier: Apache-2.0
// The laws of likeness. Each function's contract is the law, and its body is empty: the code never calls them.
ghost use Rattle.misolation.specs.AlikeLaws.{TransitionsByAllowed, TransitionsBySessions, SameEntriesAgree};

/// A normal transition depends on the settings only through their terminals and through what is allowed.
#[tactic(auto, using(crate::proofs::TransitionsAlike::transitions_by_allowed))]
pub fn transitions_by_allowed()
    ensures { TransitionsByAllowed }
{}

/// It depends on sessions as if each terminal without one had a new one.
#[tactic(auto, using(crate::proofs::TransitionsAlike::transitions_by_sessions))]
pub fn transitions_by_sessions()
    ensures { TransitionsBySessions }
{}

/// Runs agree for every account if they have the same lines, worlds alike, and settings of the same entries, however these are listed.
pub fn same_entries_agree()
    ensures { SameEntriesAgree }
{}
