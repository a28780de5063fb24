// SPDX-License-Identifier: Apache-2.0
// The laws of islands. Each function's contract is the law, and its body is empty: the code never calls them.
ghost use Rattle.misolation.specs.IslandLaws.{IslandRunsAlone, MachinesAreIslands, WholeComesApart, MachinesRunTogether, MovedIslandGoesOn};

/// The law of islands, for one island: the replies at its terminals are those of a run of its own lines over its own settings and globals,
/// and its part of the globals at the end is what that run leaves, if none of its lines failed.
#[tactic(auto, using(crate::proofs::IslandsTogether::island_runs_alone))]
pub fn island_runs_alone()
    ensures { IslandRunsAlone }
{}

/// Accounts may be placed on machines, with no tie between two machines, exactly if each machine's accounts are an island.
pub fn machines_are_islands()
    ensures { MachinesAreIslands }
{}

/// A history of the whole is one of each machine, whichever transitions failed, and leaves what the machines are left with, laid together.
pub fn whole_comes_apart()
    ensures { WholeComesApart }
{}

/// Lines in any order are a history of the whole if each machine's lines are a history of that machine, and they leave what the
/// machines are left with, laid together.
pub fn machines_run_together()
    ensures { MachinesRunTogether }
{}

/// An island that has moved to another machine, with its globals and without its sessions and locks, is answered there as on a machine of
/// its own, whatever other accounts the two machines have.
pub fn moved_island_goes_on()
    ensures { MovedIslandGoesOn }
{}
