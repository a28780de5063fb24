// SPDX-License-Identifier: Apache-2.0
// The laws of transitions. Each function's contract is the law, and its body is empty: the code never calls them.
ghost use Rattle.std.specs.Prelude.{ℕ};
ghost use Rattle.mspec.specs.Plan.{Plan};
ghost use Rattle.mspec.specs.Act.{Text, Outcome};
ghost use Rattle.mmeaning.specs.LineMeaning.{Completion};
ghost use Rattle.mmeaning.specs.Transition.{Settings, Shared};
ghost use Rattle.mmeaning.specs.TransitionLaws.{NormalNeverFails, NoneShowsHalting, PlanKeepsOthersLocks, NormalTransitionsAreHistory, HistoryIsNormal};

/// A normal transition is never answered ZMEM or ZSTORE.
#[tactic(auto, using(crate::proofs::Histories::normal_never_fails))]
pub fn normal_never_fails()
    ensures { NormalNeverFails }
{}

/// No reply shows the code by which HALT ends a line.
#[tactic(auto, using(crate::proofs::Histories::none_shows_halting))]
pub fn none_shows_halting()
    ensures { NoneShowsHalting }
{}

/// What a line does changes no lock of another terminal.
pub fn others_kept()
    ensures { (settings : Settings) (terminal : ℕ) (me : Text) (p : Plan (Outcome Completion)) (w : Shared) → PlanKeepsOthersLocks settings terminal me p w }
{}

/// Normal transitions are a history of any events, so there is one.
#[tactic(auto, using(crate::proofs::Histories::normal_transitions_are_history))]
pub fn normal_transitions_are_history()
    ensures { NormalTransitionsAreHistory }
{}

/// A history in which no transition failed has the replies of the definitional interpreter, and leaves its world.
pub fn history_is_normal()
    ensures { HistoryIsNormal }
{}
