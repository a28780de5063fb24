// SPDX-License-Identifier: Apache-2.0
// What leads a search within a chunk. Nothing that is proved rests on it.
use crate::guess::Guess;
use crate::lead::{common, mark, share};
use crate::packed::Packed;
use sqlite_value::value::ValueRef;
use std::alloc::{AllocError, Global};

/// For each row of a chunk, four bytes of its first column, after those that all rows begin with.
#[derive(Drop)]
pub(crate) struct Marks {
    skip: usize,
    marks: Vec<u32>,
}

impl Marks {
    // The marks of no row, with space for some.
    pub(crate) fn new(alloc: Global, room: usize) -> Result<Marks, AllocError> {
        Ok(Marks {
            skip: 0,
            marks: Vec::with_capacity(alloc, room)?,
        })
    }

    pub(crate) fn into_vec(self) -> Vec<u32> {
        let Marks { skip: _, marks } = self;
        marks
    }

    // Room for marks that are still to be made.
    pub(crate) fn of_vec(marks: Vec<u32>) -> Marks {
        Marks { skip: 0, marks }
    }

    // The marks of these rows.
    pub(crate) fn make(&mut self, rows: &[Packed]) {
        self.skip = begins_alike(rows);
        self.marks.clear();
        for row in rows {
            let _ = self.marks.push(mark(row.get(0), self.skip));
        }
    }

    // The marks of these rows, one of which is new.
    pub(crate) fn put(&mut self, at: usize, rows: &[Packed]) {
        let is_within = 0 < at && at < rows.len().saturating_sub(1);
        if !is_within && !begin_with(rows, self.skip) {
            self.make(rows);
            return;
        }
        if at < rows.len() && at <= self.marks.len() {
            let _ = self.marks.insert(at, mark(rows[at].get(0), self.skip));
        }
    }

    pub(crate) fn take(&mut self, at: usize) {
        if at < self.marks.len() {
            self.marks.remove(at);
        }
    }

    // Where the rows cease to be below a value, which may be near a place.
    pub(crate) fn guess(&self, value: ValueRef<'_>, near: usize) -> Guess {
        let sought = mark(value, self.skip);
        let marks = self.marks.as_slice();
        Guess::of(marks, near, |it| *it < sought, |it| *it <= sought)
    }
}

// How many bytes all rows begin with, if they are in order.
fn begins_alike(rows: &[Packed]) -> usize {
    match (rows.first(), rows.last()) {
        (Some(first), Some(last)) => common(first.get(0), last.get(0)),
        _ => 0,
    }
}

// Whether the rows begin alike, up to a count of bytes, if they are in order.
fn begin_with(rows: &[Packed], count: usize) -> bool {
    match (rows.first(), rows.last()) {
        (Some(first), Some(last)) => share(first.get(0), last.get(0), count),
        _ => count == 0,
    }
}
