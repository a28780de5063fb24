// SPDX-License-Identifier: Apache-2.0
//! Plays the cases of transcripts that call stores: the plain store, the table in memory and in a file,
//! texts of nodes and copies of routines in front of a store, databases that already exist, which calls of the store
//! beneath a table are made, and files that stop while they are opened.
//! `mtranscript` says what a case looks like.
//!
//! No call has a contract: a program's output is the test of it.
#![tactic(auto)]

mod cached;
mod copies;
mod counting;
mod databases;
mod drawn;
mod globals;
mod migration_stops;
mod reached;
mod stores;
mod traced;

pub use cached::play_cached;
pub use copies::play_copies;
pub use databases::play_database;
pub use drawn::play_drawn;
pub use migration_stops::play_migration_stops;
pub use reached::play_reached;
pub use stores::play_stores;
