// SPDX-License-Identifier: Apache-2.0
// The laws of locks. Each function's contract is the law, and its body is empty: the code never calls them.
ghost use Rattle.std.specs.Prelude.{ℕ};
ghost use Rattle.mspec.specs.LockConflict.{Locks};
ghost use Rattle.mspec.specs.LockLaws.{CountsGoUp, OthersKeepLocks};

/// Taking a list raises each count by the number of times that its name occurs in the list.
#[tactic(auto, using(crate::proofs::LockFacts::counts_go_up))]
pub fn counts_go_up()
    ensures { CountsGoUp }
{}

/// What is done for one terminal leaves what others hold unchanged.
pub fn others_keep_locks()
    ensures { (locks : Locks) (terminal : ℕ) → OthersKeepLocks locks terminal }
{}
