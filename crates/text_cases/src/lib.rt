// SPDX-License-Identifier: Apache-2.0
//! Plays the cases of transcripts that are texts of M by themselves: parsed and written back, and the
//! trees that are kept of them. `mtranscript` says what a case looks like.
//!
//! No call has a contract: a program's output is the test of it.
#![tactic(auto)]

mod texts;
mod trees;

pub use texts::{play_routine_lines, play_texts};
pub use trees::play_trees;
