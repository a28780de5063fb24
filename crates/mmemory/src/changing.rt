// SPDX-License-Identifier: Apache-2.0
// Changes of one tree. Each gives what takes it back.
ghost use Rattle.std.specs.Prelude.{◌≡◌, ◌+◌, ◌<◌, ◌≤◌, ◌++◌, [], ◌∷◌, length, take, drop, get_or, IfOk, OnErr};
ghost use Rattle.mmemory.specs.Nest.{rows_at, before, after, after_row};
ghost use Rattle.mmemory.specs.Lists.{joined};
ghost use Rattle.mmemory.specs.Plain.{plain, tree_nest, tree_rows};
ghost use Rattle.mmemory.specs.Changes.{Makes, HalvedAt, Fits, Halves, rows_after};

use crate::change::Change;
use crate::chunk::Chunk;
use crate::packed::Packed;
use crate::place::Place;
use crate::step::Step;
use crate::tree::Tree;
use std::alloc::{AllocError, Global};

impl Tree {
    // Puts a row in at a place of a chunk that is not full.
    fn put_at(&mut self, place: Place, row: Packed) -> Step
        requires chunk { place.chunk < length (tree_nest self.old) }
        requires row { place.row ≤ length (rows_at (tree_nest self.old) place) }
        requires room { length (rows_at (tree_nest self.old) place) < 128 }
        ensures { let n = tree_nest self.old in Makes (plain self.old) (plain self.new) result (before n place ++ row ∷ after n place) }
    {
        self.chunks[place.chunk].put(place.row, row);
        Step::DropRow(place.chunk, place.row)
    }

    // Puts a row in place of another.
    fn set_at(&mut self, place: Place, row: Packed) -> Step
        requires chunk { place.chunk < length (tree_nest self.old) }
        requires row { place.row < length (rows_at (tree_nest self.old) place) }
        ensures { let n = tree_nest self.old in Makes (plain self.old) (plain self.new) result (before n place ++ row ∷ after_row n place (place.row + 1)) }
    {
        let old = self.chunks[place.chunk].set(place.row, row);
        Step::SetRow(place.chunk, place.row, old)
    }

    // Takes a row out.
    fn take_at(&mut self, place: Place) -> Step
        requires chunk { place.chunk < length (tree_nest self.old) }
        requires row { place.row < length (rows_at (tree_nest self.old) place) }
        ensures { let n = tree_nest self.old in Makes (plain self.old) (plain self.new) result (before n place ++ after_row n place (place.row + 1)) }
    {
        if self.chunks[place.chunk].rows.len() == 1 {
            let old = self.chunks.remove(place.chunk);
            self.spare += 1;
            return Step::PutChunk(place.chunk, old.into_bare());
        }
        let old = self.chunks[place.chunk].take(place.row);
        Step::PutRow(place.chunk, place.row, old)
    }

    // Puts a row in as a chunk of its own.
    fn add_chunk(&mut self, alloc: Global, at: usize, row: Packed) -> Result<Step, AllocError>
        requires { at ≤ length (tree_nest self.old) }
        ensures ok { let n = tree_nest self.old in IfOk result (λ step. Makes (plain self.old) (plain self.new) step (joined (take at n) ++ row ∷ joined
            (drop at n))) }
        ensures err { OnErr result (plain self.new ≡ plain self.old) }
    {
        let chunk = Chunk::of_row(alloc, row)?;
        self.chunks.reserve(self.spare + 1)?;
        self.chunks.insert(at, chunk).unwrap();
        Ok(Step::DropChunk(at))
    }

    // Splits one chunk in two, of which the first keeps that many rows.
    fn split(&mut self, alloc: Global, at: usize, head: usize) -> Result<Step, AllocError>
        requires chunk { at < length (tree_nest self.old) }
        requires some { 0 < head }
        requires rows { head < length (get_or (tree_nest self.old) at []) }
        ensures ok { IfOk result (λ step. Makes (plain self.old) (plain self.new) step (tree_rows self.old)) }
        ensures halves { IfOk result (λ _. HalvedAt (tree_nest self.old) (tree_nest self.new) at) }
        ensures err { OnErr result (plain self.new ≡ plain self.old) }
    {
        self.chunks.reserve(self.spare + 1)?;
        let tail = self.chunks[at].split(alloc, head)?;
        self.chunks.insert(at + 1, tail).unwrap();
        Ok(Step::Join(at))
    }

    // Makes a change, and gives what takes it back.
    pub(crate) fn change(&mut self, alloc: Global, change: Change) -> Result<Step, AllocError>
        requires { Fits change (tree_nest self.old) }
        ensures ok { IfOk result (λ step. Makes (plain self.old) (plain self.new) step (rows_after change (tree_nest self.old))) }
        ensures halves { IfOk result (λ _. Halves change (tree_nest self.old) (tree_nest self.new)) }
        ensures err { OnErr result (plain self.new ≡ plain self.old) }
    {
        match change {
            Change::Put(place, row) => Ok(self.put_at(place, row)),
            Change::Set(place, row) => Ok(self.set_at(place, row)),
            Change::Take(place) => Ok(self.take_at(place)),
            Change::Begin(at, row) => self.add_chunk(alloc, at, row),
            Change::Split(at, head) => self.split(alloc, at, head),
        }
    }
}
