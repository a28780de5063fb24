// SPDX-License-Identifier: Apache-2.0
// What takes back a change of one tree.
use crate::chunk::Bare;
use crate::packed::Packed;
use sqlite_value::row::Row;

/// A place is the number of a chunk, and that of a row in it.
#[derive(Drop)]
pub(crate) enum Step {
    DropRow(usize, usize),
    PutRow(usize, usize, Packed),
    SetRow(usize, usize, Packed),
    DropChunk(usize),
    PutChunk(usize, Bare),
    /// The chunk takes over the rows of the one after it.
    Join(usize),
    /// The REAL columns and the description.
    Label(u64, Row),
}
