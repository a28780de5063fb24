// SPDX-License-Identifier: Apache-2.0
// What a seek leaves.
use crate::place::Place;
use sqlite_trees::store::Direction;

/// Going forward, it has the rows from its place on left; going backward, those before it.
#[derive(Clone, Copy)]
pub(crate) struct Cursor {
    pub tree: usize,
    pub place: Place,
    pub direction: Direction,
}
