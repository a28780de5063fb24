// SPDX-License-Identifier: Apache-2.0
// All trees, with the log of the transaction.
ghost use Rattle.std.specs.Prelude.{ℕ, ◌<◌, ◌≤◌, All, length, slice_index};
ghost use Rattle.mmemory.specs.States.{state_of, AreInOrder};

use crate::tree::Tree;
use crate::undo::Undo;
use std::alloc::Global;

/// The trees by their numbers, SQLite's user version, what takes the transaction's changes back,
/// and the log's length at each savepoint.
#[derive(Drop)]
pub(crate) struct Held {
    pub alloc: Global,
    pub trees: Vec<Tree>,
    pub version: u32,
    pub log: Vec<Undo>,
    pub marks: Vec<usize>,
    pub ghost ordered: { ∥ AreInOrder log.items (state_of trees.items version) ∥₁ },
    pub ghost within: { All (λ m. m ≤ length log.items) marks.items },
    pub ghost rising: { (i j : ℕ) → i ≤ j → j < length marks.items → slice_index marks.items i ≤ slice_index marks.items j },
}
