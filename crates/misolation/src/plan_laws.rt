// SPDX-License-Identifier: Apache-2.0
// The laws of operations and of plans. Each function's contract is the law, and its body is empty: the code never calls them.
ghost use Rattle.misolation.specs.PlanLaws.{InsideOperations, InsidePlans, OutsideOperations, OutsidePlans, PlansKeepFit, CutIsFit};

/// The inside law, operation by operation: for a member's terminal it answers, and leaves, over the cut to a closed set what it
/// answers and leaves over the whole world.
#[tactic(auto, using(crate::proofs::Operations::inside_operations))]
pub fn inside_operations()
    ensures { InsideOperations }
{}

/// The inside law for every plan: what it gives, each operation that it comes to with its answer, and the world that it leaves,
/// even if it is cut short.
pub fn inside_plans()
    ensures { InsidePlans }
{}

/// The outside law, operation by operation: for any other terminal it leaves the cut as it was.
#[tactic(auto, using(crate::proofs::Operations::outside_operations))]
pub fn outside_operations()
    ensures { OutsideOperations }
{}

/// The outside law for every plan, whole or cut short.
pub fn outside_plans()
    ensures { OutsidePlans }
{}

/// Each plan, whole or cut short, keeps every lock on a name that its terminal's account may hold.
pub fn plans_keep_fit()
    ensures { PlansKeepFit }
{}

/// The cut to a closed set is a world of that kind too, under the cut settings.
#[tactic(auto, using(crate::proofs::PlansInside::cut_is_fit))]
pub fn cut_is_fit()
    ensures { CutIsFit }
{}
