// SPDX-License-Identifier: Apache-2.0
// The laws of histories. Each function's contract is the law, and its body is empty: the code never calls them.
ghost use Rattle.misolation.specs.HistoryLaws.{PartIsHistory, HistoryHasTrace, PartIsTrace, PartIsAlone, InterpreterIsolates, OpeningIsFit, HistoriesKeepFit};
ghost use Rattle.misolation.specs.HistoryLaws.{Isolation, OpeningIsCut, AgreeingReplies, PromiseIsKept};

/// The part of every history at the terminals of a closed set, its worlds cut to the set, is a history over the cuts, whichever of
/// its transitions failed.
#[tactic(auto, using(crate::proofs::PartsAlone::part_is_history))]
pub fn part_is_history()
    ensures { PartIsHistory }
{}

/// A history is what a trace says without the worlds between its transitions.
#[tactic(auto, using(crate::proofs::PartsAlone::history_has_trace))]
pub fn history_has_trace()
    ensures { HistoryHasTrace }
{}

/// The members' part of a trace, too, is a trace over the cuts, with each world between its transitions cut to the set.
pub fn part_is_trace()
    ensures { PartIsTrace }
{}

/// If none of the members' own transitions failed, their lines have the replies that they have alone, and leave what they leave alone.
#[tactic(auto, using(crate::proofs::PartsAlone::part_is_alone))]
pub fn part_is_alone()
    ensures { PartIsAlone }
{}

/// The definitional interpreter, whose transitions never fail, gives the members' lines among all others the replies that it gives them
/// alone.
#[tactic(auto, using(crate::proofs::PartsAlone::interpreter_isolates))]
pub fn interpreter_isolates()
    ensures { InterpreterIsolates }
{}

/// The isolation theorem: for all settings, globals and lines, the replies at an account's terminals are those that it gets where
/// there is nothing but the accounts that reach it, if no line of one of these failed.
#[tactic(auto, using(crate::proofs::PartsAlone::isolation))]
pub fn isolation()
    ensures { Isolation }
{}

/// A world before its first line has fitting locks: none is held.
pub fn opening_is_fit()
    ensures { OpeningIsFit }
{}

/// Histories keep every lock on a name that its terminal's account may hold.
#[tactic(auto, using(crate::proofs::PartsAlone::histories_keep_fit))]
pub fn histories_keep_fit()
    ensures { HistoriesKeepFit }
{}

/// What is left of an opening world is the opening world of the members' globals.
#[tactic(auto, using(crate::proofs::PartsAlone::opening_is_cut))]
pub fn opening_is_cut()
    ensures { OpeningIsCut }
{}

/// Two runs that agree on the accounts that reach an account give it the same replies, however long each is and whatever else is in
/// it, if no line of these accounts failed in either; and what they leave agrees as well.
pub fn agreeing_replies()
    ensures { AgreeingReplies }
{}

/// What a host may promise each account: if no line of an account that reaches it failed, its replies are those of the definitional
/// interpreter run on the reaching accounts' lines, globals and grants alone; and two worlds that agree on these give it the same
/// replies, whatever other accounts store, lock, run or exhaust.
#[tactic(auto, using(crate::proofs::PartsAlone::promise_is_kept))]
pub fn promise_is_kept()
    ensures { PromiseIsKept }
{}
