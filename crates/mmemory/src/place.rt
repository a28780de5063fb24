// SPDX-License-Identifier: Apache-2.0
// Where a row is.
ghost use Rattle.std.specs.Prelude.{◌^◌, ◌<◌};

/// A row of a chunk. `row` may be the chunk's length: then the place is after its last row.
#[derive(Clone, Copy)]
pub(crate) struct Place {
    pub chunk: usize,
    pub row: usize,
    pub ghost small: { (chunk < 2 ^ 63) × (row < 2 ^ 63) },
}
