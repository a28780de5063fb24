// SPDX-License-Identifier: Apache-2.0
//! Isolation: what a host may promise each of its customers, as laws over the definitions.
//!
//! # The promise
//!
//! A host keeps the programs and the records of several customers in one server: a clinic, a laboratory, a bank. Each has an
//! account, and terminals that are the account's own. Lines come from all terminals in any order, each is run to its end and
//! answered before the next, and they may take locks, use up their steps, or fail when memory runs out. The host says to the clinic:
//!
//! > Each reply that you get is the one that you would get from a server which has nothing but you and those whom grants tie to
//! > you: their globals, their locks, their lines, the grants among you. Whatever any other customer stores, locks, runs or
//! > exhausts shows in none of your replies, and neither does the fact that there is such a customer at all. This holds while no
//! > line of yours, or of those tied to you, is answered `ZMEM` or `ZSTORE`; and after such a line nothing of others shows either.
//!
//! # Whom grants tie
//!
//! An account *flows* to another if its doings can show there: if it grants that other anything, since what it stores is then
//! read there; and if it is allowed to write there, since what it stores and locks there is seen by the owner. A chain of such
//! steps *reaches*. So if the laboratory lets the clinic read its results, the laboratory reaches the clinic, and the clinic
//! does not reach the laboratory. If the clinic lets the bank write its bills, each of the two reaches the other. Who has
//! no grant, given or taken, is reached by itself alone.
//!
//! `reachers` computes the accounts that reach one. It is the least *closed* set that has that account (`reach_is_least_closed`): a
//! set of accounts is closed if each account that flows to a member is a member. And a chain leads to the account exactly from
//! its members (`reach_is_chains`).
//!
//! # What is left where there is nothing else
//!
//! The *cut* to a set of accounts keeps, of the settings, the members with their steps and terminals, and the grants from members
//! to members; of a world, the members' globals, and the sessions and the locks of their terminals; of lines, those at their
//! terminals. *Alone*, the members' lines get the replies that the definitional interpreter gives over these three cuts.
//!
//! # The laws
//!
//! For every closed set, every settings, and every world on which each lock is on a name that its terminal's account may hold:
//!
//! - **Inside.** What is done for a member's terminal is done as if there were the cut alone, with the same answers.
//! - **Outside.** What is done for any other terminal leaves the cut as it was.
//!
//! | Of | Inside | Outside |
//! |---|---|---|
//! | an operation on globals and locks | `inside_operations` | `outside_operations` |
//! | a plan, which is whatever a line may do, whole or cut short | `inside_plans` | `outside_plans` |
//! | a transition: a line that is run, or one that failed | `inside_transitions` | `outside_transitions` |
//!
//! The outside law asks nothing of the locks. What the inside law asks of them holds before the first line, when none is held
//! (`opening_is_fit`), and everything keeps it true (`plans_keep_fit`, `transitions_keep_fit`, `histories_keep_fit`, `cut_is_fit`).
//!
//! A transition changes globals by its writes alone, a failed one by a first part of them (`transitions_write`); inside, they are the same over
//! the cut. `transitions_are_isolated` says all of this about a transition at once, for calls that make transitions.
//!
//! From the two laws, for histories of any length:
//!
//! - The members' part of a history is a history over the cuts, whichever of its transitions failed (`part_is_history`). The same
//!   holds with the worlds between the transitions written out, each of them cut (`part_is_trace`, `history_has_trace`).
//! - If none of the members' own transitions failed, their lines have the replies that they have alone, and leave what they leave
//!   alone (`part_is_alone`). Others' transitions may have failed. For the definitional interpreter itself this always holds, since its
//!   transitions never fail (`interpreter_isolates`).
//! - **The isolation theorem**: for all settings, globals and lines, the replies at an account's terminals are those that it has
//!   alone with the accounts that reach it, if no line of these failed (`isolation`, with `opening_is_cut`).
//! - Two worlds that agree on all that reaches an account give it the same replies, however they differ otherwise, and
//!   still agree once their lines are run (`agreeing_replies`).
//! - **The promise above, in one law**: both of these, for worlds that begin with globals alone (`promise_is_kept`).
//!
//! To *agree* it is enough that the same accounts have the same terminals and steps, that the same is allowed between them, and
//! that globals, locks and lines are the same, and sessions too, where a new one counts as none. For a normal transition depends on
//! settings only through their terminals and what is allowed (`transitions_by_allowed`), and on a session as if a terminal without one had
//! a new one (`transitions_by_sessions`). So how settings are listed does not matter (`same_entries_agree`).
//!
//! An *island* is a set of accounts that is closed in both directions: no grant ties it to others. Accounts may be kept on several
//! machines if each machine's are an island (`machines_are_islands`), since then:
//!
//! - The replies at an island's terminals are those of a run of its own lines over its own settings and globals, and its globals at
//!   the end are what that run leaves, if none of its lines failed (`island_runs_alone`).
//! - A history of the whole is one of each machine (`whole_comes_apart`). And lines in any order are a history of the whole if each
//!   machine's lines are a history of that machine; this leaves what the machines are left with, laid together
//!   (`machines_run_together`). Both hold whichever transitions failed.
//! - An island that continues on another machine with its globals is answered there as on a machine of its own
//!   (`moved_island_goes_on`).
//!
//! A call that runs lines for an account and hands it its replies says what it did in one word, `Tells`: some history of all these
//! lines leads from the world that it began in to the one that it left, the replies are those at the account's terminals, and it is
//! *whole* exactly if no transition failed at a terminal of an account that reaches it. A run is made step by step (`nothing_is_told`,
//! `tells_on`), and of what it tells:
//!
//! - Whichever transitions failed, the members' part of that history alone tells the account the same, over the cuts to any closed set
//!   that has it (`told_apart`); the same accounts reach it there (`reach_is_kept`).
//! - A whole run tells the account what it is shown alone with the accounts that reach it (`equally_told`).
//! - Two whole runs that agree for the account tell it the same (`told_the_same`).
//!
//! # What is not promised
//!
//! That no line fails: there is one memory and one store for all, so what others use may be missing here. A line that failed says so
//! (`ZMEM`, `ZSTORE`), its terminal's session and locks are gone, a first part of its writes stands, and that is all that it
//! shows. How long a line takes. Anything about accounts that a chain of grants ties to one's own: that is what a grant is for.
//!
//! # How far it goes
//!
//! The laws speak of plans of operations and never of commands, so they hold whatever the language has: a new command changes
//! nothing here, and a new operation is one more case of either law. The definitions that they speak of are in `mspec` (settings,
//! `Flow`, locks, plans) and in `mmeaning` (`Shared`, `Transition`, `History`). The contracts of the program say, over a store in
//! memory, that its transitions are those of the definitions. `proofs/IsolationExamples.antt` has the clinic, the laboratory and the
//! bank as proved equations: apart from them the bank is not seen, even while its lines fail; and with leave to write bills it is no
//! longer an outsider.
//!
//! Each law is the contract of a function with an empty body, which no code calls.
#![tactic(auto)]

pub mod alike_laws;
pub mod history_laws;
pub mod island_laws;
pub mod plan_laws;
pub mod reach_laws;
pub mod run_laws;
pub mod transition_laws;
