// SPDX-License-Identifier: Apache-2.0
//! Terminals with their sessions over a store: one line at a time, from its text to its reply.
#![tactic(auto)]

mod admission;
mod isolated;
mod reply;
mod session_run;
mod terminals;
mod world;

pub use isolated::{Isolated, Told, isolated_replies};
pub use mexec::{Ended, LINE_END};
pub use moperator::Code;
pub use reply::{Event, Reply};
pub use world::World;
