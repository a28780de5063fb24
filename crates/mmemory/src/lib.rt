// SPDX-License-Identifier: Apache-2.0
//! A store in memory for a connection of `sqlite`.
//!
//! Trees are changed in place, and a log says how to take each change back. It is measured, and not
//! proved, that times hardly grow with the tables.
#![tactic(auto)]

mod alter;
mod change;
mod changing;
mod chunk;
mod cursor;
mod edits;
mod finding;
mod guess;
mod held;
mod lead;
mod making;
mod marks;
pub mod memory;
mod moments;
mod near;
mod packed;
mod place;
mod probe;
mod step;
mod storable;
mod tree;
mod undo;
mod undoing;
mod writing;

pub use memory::Memory;
