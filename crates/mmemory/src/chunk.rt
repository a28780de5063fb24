// SPDX-License-Identifier: Apache-2.0
// Some rows that are kept together.
ghost use Rattle.std.specs.Prelude.{◌≡◌, ◌≢◌, ◌+◌, ◌<◌, ◌≤◌, [], ◌∷◌, ◌++◌, length, slice_set, slice_index_or, vec_capacity, IfOk, OnErr};
ghost use Rattle.std.specs.List.{remove};
ghost use Rattle.mmemory.specs.Lists.{put_in, taken};

use crate::lead::Lead;
use crate::marks::Marks;
use crate::packed::Packed;
use sqlite_trees::store::Shape;
use std::alloc::{AllocError, Global};
use std::mem;

pub(crate) const CHUNK_LIMIT: usize = 128;

// This much space is left in a chunk that rows fill from one end.
const ROOM_LEFT: usize = 16;

/// Up to 128 rows, with space for all of them from the start. The beginning of the first row and the
/// marks of all rows lead a search, and nothing that is proved rests on them.
#[derive(Drop)]
pub(crate) struct Chunk {
    pub rows: Vec<Packed>,
    pub lead: Lead,
    pub marks: Marks,
    pub ghost some: { rows.items ≢ [] },
    pub ghost fits: { (length rows.items ≤ 128) × (128 ≤ vec_capacity rows) },
}

/// A chunk as the log keeps it, without what leads a search.
#[derive(Drop)]
pub(crate) struct Bare {
    pub rows: Vec<Packed>,
    pub marks: Vec<u32>,
    pub ghost some: { rows.items ≢ [] },
    pub ghost fits: { (length rows.items ≤ 128) × (128 ≤ vec_capacity rows) },
}

// How many rows a full chunk keeps if a row goes in at a place: half of them, unless rows come in
// order. The numbers of a table's rows rise, and none comes between others.
pub(crate) fn rows_kept(shape: Shape, at: usize) -> usize
    ensures some { 0 < result }
    ensures fewer { result < 128 }
{
    if at == 0 {
        ROOM_LEFT
    } else if at < CHUNK_LIMIT {
        CHUNK_LIMIT / 2
    } else if shape == Shape::Table {
        CHUNK_LIMIT - 1
    } else {
        CHUNK_LIMIT - ROOM_LEFT
    }
}

impl Chunk {
    // A chunk of one row.
    pub(crate) fn of_row(alloc: Global, row: Packed) -> Result<Chunk, AllocError>
        ensures { IfOk result (λ c. c.rows.items ≡ row ∷ []) }
    {
        let mut rows = Vec::with_capacity(alloc, CHUNK_LIMIT)?;
        let marks = Marks::new(alloc, CHUNK_LIMIT)?;
        rows.push(row).unwrap();
        Ok(Chunk::of_rows(rows, marks))
    }

    // A chunk of these rows.
    fn of_rows(rows: Vec<Packed>, mut marks: Marks) -> Chunk
        requires some { rows.items ≢ [] }
        requires fits { (length rows.items ≤ 128) × (128 ≤ vec_capacity rows) }
        ensures { result.rows.items ≡ rows.items }
    {
        marks.make(rows.as_slice());
        let lead = Lead::of(rows[0].get(0));
        Chunk { rows, lead, marks }
    }

    pub(crate) fn into_bare(self) -> Bare
        ensures { result.rows.items ≡ self.rows.items }
    {
        let Chunk { rows, marks, .. } = self;
        Bare {
            rows,
            marks: marks.into_vec(),
        }
    }

    pub(crate) fn of_bare(bare: Bare) -> Chunk
        ensures { result.rows.items ≡ bare.rows.items }
    {
        let Bare { rows, marks } = bare;
        Chunk::of_rows(rows, Marks::of_vec(marks))
    }

    // Puts a row in, unless the chunk is full.
    pub(crate) fn put(&mut self, at: usize, row: Packed)
        ensures { self.new.rows.items ≡ put_in at row self.old.rows.items }
    {
        if at <= self.rows.len() && self.rows.len() < CHUNK_LIMIT {
            self.rows.insert(at, row).unwrap();
            self.marks.put(at, self.rows.as_slice());
            self.led_by(at);
        }
    }

    // After the row at a place became another.
    fn led_by(&mut self, at: usize)
        requires { self.old.rows.items ≢ [] }
        ensures { self.new.rows.items ≡ self.old.rows.items }
    {
        if at == 0 {
            self.lead = Lead::of(self.rows[0].get(0));
        }
    }

    // Takes out a row that is not the only one.
    pub(crate) fn take(&mut self, at: usize) -> Packed
        requires within { at < length self.old.rows.items }
        requires others { 1 < length self.old.rows.items }
        ensures rows { self.new.rows.items ≡ remove self.old.rows.items at }
        ensures row { result ≡ slice_index_or self.old.rows.items at [] }
    {
        let row = self.rows.remove(at);
        self.marks.take(at);
        self.led_by(at);
        row
    }

    // Drops a row that is not the only one.
    pub(crate) fn drop_row(&mut self, at: usize)
        ensures { self.new.rows.items ≡ taken at self.old.rows.items }
    {
        if at < self.rows.len() && 1 < self.rows.len() {
            let _ = self.take(at);
        }
    }

    // Puts a row in place of another, and returns the other.
    pub(crate) fn set(&mut self, at: usize, row: Packed) -> Packed
        requires { at < length self.old.rows.items }
        ensures rows { self.new.rows.items ≡ slice_set self.old.rows.items at row }
        ensures row { result ≡ slice_index_or self.old.rows.items at [] }
    {
        let old = mem::replace(&mut self.rows[at], row);
        self.marks.take(at);
        self.marks.put(at, self.rows.as_slice());
        self.led_by(at);
        old
    }

    // Splits off the rows from a place on.
    pub(crate) fn split(&mut self, alloc: Global, at: usize) -> Result<Chunk, AllocError>
        requires some { 0 < at }
        requires rows { at < length self.old.rows.items }
        ensures rows { IfOk result (λ tail. self.old.rows.items ≡ self.new.rows.items ++ tail.rows.items) }
        ensures err { OnErr result (self.new.rows.items ≡ self.old.rows.items) }
    {
        let mut rows = Vec::with_capacity(alloc, CHUNK_LIMIT)?;
        let marks = Marks::new(alloc, CHUNK_LIMIT)?;
        while self.rows.len() > at {
            rows.push(self.rows.pop().unwrap()).unwrap();
        }
        rows.reverse();
        self.marks.make(self.rows.as_slice());
        Ok(Chunk::of_rows(rows, marks))
    }

    // Takes over the rows of the chunk after it.
    pub(crate) fn join(&mut self, tail: Chunk)
        requires { length self.old.rows.items + length tail.rows.items ≤ 128 }
        ensures { self.new.rows.items ≡ self.old.rows.items ++ tail.rows.items }
    {
        let Chunk { mut rows, .. } = tail;
        self.rows.append(&mut rows).unwrap();
        self.marks.make(self.rows.as_slice());
    }
}
