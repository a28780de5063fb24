// SPDX-License-Identifier: Apache-2.0
// The law of `Routine`. The function's contract is the law, and its body is empty: the code never calls it.
ghost use Rattle.mwalks.specs.RoutineLaw.{RoutineIsAWalk};

/// What the operation `Routine` answers is what a walk by `Neighbour` and `Value` gives, and both leave the world as it is.
#[tactic(auto, using(crate::proofs::Walks::routine_is_a_walk))]
pub fn routine_is_a_walk()
    ensures { RoutineIsAWalk }
{}
