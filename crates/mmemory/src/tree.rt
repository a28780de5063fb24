// SPDX-License-Identifier: Apache-2.0
// One tree.
ghost use Rattle.std.specs.Prelude.{◌+◌, ◌≤◌, length, vec_capacity};

use crate::chunk::Chunk;
use sqlite_trees::store::Shape;
use sqlite_value::row::Row;

/// The log has `spare` chunks that may come back, and the list has space for them.
#[derive(Drop)]
pub(crate) struct Tree {
    pub shape: Shape,
    pub reals: u64,
    pub described: Row,
    pub chunks: Vec<Chunk>,
    pub spare: usize,
    pub ghost room: { length chunks.items + spare ≤ vec_capacity chunks },
}
