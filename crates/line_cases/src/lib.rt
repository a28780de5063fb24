// SPDX-License-Identifier: Apache-2.0
//! Plays what lines on standard input do not show, over the plain store and with one tree kept: lines with texts of nodes in front of the store, of
//! which a call fails, also each in turn; what one account is shown, and whether that is whole; connections and devices; references within a line.
//! And lines over a table in two files in memory that stop. All other lines `tests/test_transcripts.py` plays over the built program.
//! `mtranscript` says what a case looks like.
//!
//! No call has a contract: a program's output is the test of it.
#![tactic(auto)]

mod connections;
mod devices;
mod failing;
mod holding;
mod lines;
mod outsiders;
mod references;
mod stops;

pub use connections::play_connections;
pub use devices::play_devices;
pub use failing::play_cached_lines;
pub use lines::{Lines, play_told};
pub use outsiders::play_outsiders;
pub use references::play_references;
pub use stops::play_stops;
