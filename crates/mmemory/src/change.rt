// SPDX-License-Identifier: Apache-2.0
// A change of the rows of one tree.
use crate::packed::Packed;
use crate::place::Place;

#[derive(Drop)]
pub(crate) enum Change {
    /// A row goes in at a place of a chunk that is not full.
    Put(Place, Packed),
    /// A row goes in place of another.
    Set(Place, Packed),
    Take(Place),
    /// A row goes in as a chunk of its own.
    Begin(usize, Packed),
    /// One chunk is split in two, of which the first keeps that many rows.
    Split(usize, usize),
}
