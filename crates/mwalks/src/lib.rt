// SPDX-License-Identifier: Apache-2.0
//! The law of the operation that gives the lines of a routine.
#![tactic(auto)]

mod routine_law;

pub use routine_law::routine_is_a_walk;
