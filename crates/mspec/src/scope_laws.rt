// SPDX-License-Identifier: Apache-2.0
// The laws of scopes. Each function's contract is the law, and its body is empty: the code never calls them.
ghost use Rattle.mspec.specs.ScopeLaws.{LeavingRestores, TopVariablesStandAlone, NewKeepsBelow, NewHides, NewExceptHides, NamesOfOneHome, NamesOfTwoHomes};
ghost use Rattle.mspec.specs.ScopeLaws.{NamesStayJoined, KillExceptSpares, FormalsAreBound, ScopesWithoutLinks, HiddenVariablesStay, HiddenVariablesComeBack};
ghost use Rattle.mspec.specs.ScopeLaws.{NamesAreToldApart};

/// Leaving a level that was just entered gives back what was there.
#[tactic(auto, using(crate::proofs::ScopeFacts::leaving_restores))]
pub fn leaving_restores()
    ensures { LeavingRestores }
{}

/// What is done to a variable of the top scope changes no scope below.
#[tactic(auto, using(crate::proofs::ScopeFacts::top_variables_stand_alone))]
pub fn top_variables_stand_alone()
    ensures { TopVariablesStandAlone }
{}

/// NEW changes no scope below.
#[tactic(auto, using(crate::proofs::ScopeFacts::new_keeps_below))]
pub fn new_keeps_below()
    ensures { NewKeepsBelow }
{}

/// NEW hides the variables of its names, and leaves all others as they are.
#[tactic(auto, using(crate::proofs::ScopeFacts::new_hides))]
pub fn new_hides()
    ensures { NewHides }
{}

/// NEW with names in brackets hides the variables of all others, and leaves those of its names as they are.
#[tactic(auto, using(crate::proofs::ScopeFacts::new_except_hides))]
pub fn new_except_hides()
    ensures { NewExceptHides }
{}

/// What is done to a variable by one of its names is done to it by each.
pub fn names_of_one_home()
    ensures { NamesOfOneHome }
{}

/// Which names are of one variable can be told from the scopes alone.
#[tactic(auto, using(crate::proofs::Homes::names_are_told_apart))]
pub fn names_are_told_apart()
    ensures { NamesAreToldApart }
{}

/// What is done to a variable is done to no other.
#[tactic(auto, using(crate::proofs::Homes::names_of_two_homes))]
pub fn names_of_two_homes()
    ensures { NamesOfTwoHomes }
{}

/// Neither SET nor KILL parts names, or joins them.
#[tactic(auto, using(crate::proofs::Sparing::names_stay_joined))]
pub fn names_stay_joined()
    ensures { NamesStayJoined }
{}

/// KILL with names in brackets empties the variables to which none of these names leads, and leaves the others as they are.
pub fn kill_except_spares()
    ensures { KillExceptSpares }
{}

/// A formal parameter is a new variable with a value, a name of the caller's variable, or a new variable; other names are as they were.
pub fn formals_are_bound()
    ensures { FormalsAreBound }
{}

/// A scope without links knows a name as the scopes below it do.
#[tactic(auto, using(crate::proofs::Homes::scopes_without_links))]
pub fn scopes_without_links()
    ensures { ScopesWithoutLinks }
{}

/// Below scopes without links KILL with names in brackets spares those names, and the variables that the scopes hide.
#[tactic(auto, using(crate::proofs::Sparing::hidden_variables_stay))]
pub fn hidden_variables_stay()
    ensures { HiddenVariablesStay }
{}

/// The variables that a scope hides come back when its level ends, whatever was done on top of it.
#[tactic(auto, using(crate::proofs::Sparing::hidden_variables_come_back))]
pub fn hidden_variables_come_back()
    ensures { HiddenVariablesComeBack }
{}
