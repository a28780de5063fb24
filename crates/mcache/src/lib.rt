// SPDX-License-Identifier: Apache-2.0
//! What is kept for the next time: trees of texts that were parsed, and texts of nodes that were read.
#![tactic(auto)]

mod cached;
mod doorkeeper;
mod entries;
mod tree_cache;
mod trees;

pub use cached::Cached;
pub use mparse::ParseFault;
pub use trees::Trees;
