// SPDX-License-Identifier: Apache-2.0
// A binary search.
ghost use Rattle.std.specs.Prelude.{◌≡◌, ◌≤◌, [], length, get_or};
ghost use Rattle.mmemory.specs.Plain.{chunk_rows};
ghost use Rattle.mmemory.specs.Probe.{passes, meets, IsEdge};

use crate::chunk::Chunk;
use crate::guess::Guess;
use crate::lead::Lead;
use crate::marks::Marks;
use crate::packed::Packed;
use crate::place::Place;
use sqlite_value::keys::Order;
use sqlite_value::order::compare;
use sqlite_value::row::Row;
use sqlite_value::value::ValueRef;

/// A test that the rows of a tree pass up to some place, and fail from there on.
#[derive(Clone, Copy)]
pub(crate) enum Probe<'a> {
    BelowKey(Order, &'a Row),
    UpToKey(Order, &'a Row),
    BelowRowid(ValueRef<'a>),
    BelowEntry(Order, &'a Row),
}

impl<'a> Probe<'a> {
    // The first column of what is sought.
    fn first(self) -> ValueRef<'a> {
        match self {
            Probe::BelowKey(_, key) | Probe::UpToKey(_, key) | Probe::BelowEntry(_, key) => key.get(
                0,
            ),
            Probe::BelowRowid(id) => id,
        }
    }

    // Whether all rows pass.
    fn takes_all(self) -> bool {
        match self {
            Probe::UpToKey(_, key) => key.is_empty(),
            _ => false,
        }
    }

    // Where chunks cease to be below it, as their leads say.
    pub(crate) fn guess_chunk(self, chunks: &[Chunk], near: Place) -> Guess {
        if self.takes_all() {
            return Guess::all(chunks.len());
        }
        let lead = Lead::of(self.first());
        Guess::of(
            chunks,
            near.chunk,
            |it| it.lead.is_below(lead),
            |it| !lead.is_below(it.lead),
        )
    }

    // Where the rows of a chunk cease to be below it, as their marks say.
    fn guess_row(self, rows: &[Packed], marks: &Marks, near: Place) -> Guess {
        if self.takes_all() {
            return Guess::all(rows.len());
        }
        marks.guess(self.first(), near.row)
    }

    fn passes(self, row: &Packed) -> bool
        ensures { result ≡ passes self.entry row.now }
    {
        match self {
            Probe::BelowKey(order, key) => row.cmp_prefix(order, key).is_lt(),
            Probe::UpToKey(order, key) => !row.cmp_prefix(order, key).is_gt(),
            Probe::BelowRowid(id) => compare(row.get(0), id).is_lt(),
            Probe::BelowEntry(order, entry) => row.cmp_entry(order, entry).is_lt(),
        }
    }

    // Whether the first row of a chunk passes.
    pub(crate) fn passes_first(self, chunk: &Chunk) -> bool
        ensures { result ≡ passes self.entry (get_or (chunk_rows chunk.now) 0 []) }
    {
        self.passes(&chunk.rows[0])
    }

    // Whether the row is what is sought.
    pub(crate) fn meets(self, row: &Packed) -> bool
        ensures { result ≡ meets self.entry row.now }
    {
        match self {
            Probe::BelowKey(..) | Probe::UpToKey(..) => false,
            Probe::BelowRowid(id) => compare(row.get(0), id).is_eq(),
            Probe::BelowEntry(order, entry) => row.cmp_entry(order, entry).is_eq(),
        }
    }
}

// How many chunks the test passes by their first rows, up to one that fails.
pub(crate) fn chunk_edge(chunks: &[Chunk], probe: Probe<'_>, guess: Guess) -> usize
    ensures within { result ≤ length chunks.now }
    ensures edge { IsEdge (λ c. passes probe.entry (get_or (chunk_rows c) 0 [])) chunks.now result }
{
    let mut low = 0;
    let mut high = chunks.len();
    while low < high {
        let middle = guess.next(low, high);
        if probe.passes_first(&chunks[middle]) {
            low = middle + 1;
        } else {
            high = middle;
        }
    }
    low
}

// How many rows the test passes, up to one that fails.
pub(crate) fn row_edge(rows: &[Packed], marks: &Marks, probe: Probe<'_>, near: Place) -> usize
    ensures within { result ≤ length rows.now }
    ensures edge { IsEdge (passes probe.entry) rows.now result }
{
    let guess = probe.guess_row(rows, marks, near);
    let mut low = 0;
    let mut high = rows.len();
    while low < high {
        let middle = guess.next(low, high);
        if probe.passes(&rows[middle]) {
            low = middle + 1;
        } else {
            high = middle;
        }
    }
    low
}
