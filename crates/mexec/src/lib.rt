// SPDX-License-Identifier: Apache-2.0
//! Lines of M, carried out.
#![tactic(auto)]

mod arguments;
mod completion;
mod continuation;
mod entering;
mod frames;
mod front;
mod holder;
mod indirection;
mod levels;
mod line;
mod programs;
mod reading_trees;
mod scratch;
mod source;
mod suspended;
mod text;
mod top_level;
mod turns;

pub use mcommand::{LINE_END, Parts};
pub use scratch::Scratch;
pub use text::{Ended, run_text};
