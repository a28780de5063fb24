// SPDX-License-Identifier: Apache-2.0
// Changes of the trees, with what takes them back in the log.
ghost use Rattle.std.specs.Prelude.{◌≡◌, ◌⊎◌, ◌+◌, ◌^◌, ◌<◌, ◌≤◌, ◌++◌, [], ◌∷◌, length, IfOk, OnOk, OnErr};
ghost use Rattle.sqlite_trees.specs.View.{IsShaped};
ghost use Rattle.mmemory.specs.Nest.{rows_at, before, after};
ghost use Rattle.mmemory.specs.Changes.{Fits, Halves, IsMoved, rows_after, is_moved};
ghost use Rattle.mmemory.specs.Held.{Keeps, Writes, shape_at, nest_at};

use crate::change::Change;
use crate::chunk::{CHUNK_LIMIT, rows_kept};
use crate::held::Held;
use crate::packed::Packed;
use crate::place::Place;
use crate::undo::Undo;
use std::alloc::AllocError;

// The place of a row, after its chunk was split in two.
fn moved(place: Place, head: usize) -> Place
    requires { place.chunk + 1 < 2 ^ 63 }
    ensures { (result.chunk, result.row) ≡ is_moved place.chunk place.row head }
{
    if place.row <= head {
        return place;
    }
    Place {
        chunk: place.chunk + 1,
        row: place.row - head,
    }
}

impl Held {
    // Makes a change of a tree.
    pub(crate) fn change(&mut self, tree: usize, change: Change) -> Result<(), AllocError>
        requires tree { tree < length self.old.trees.items }
        requires fits { Fits change (nest_at self.old tree) }
        requires shaped { IsShaped (shape_at self.old tree) (rows_after change (nest_at self.old tree)) }
        ensures ok { OnOk result (Writes self.old self.new tree (rows_after change (nest_at self.old tree))) }
        ensures halves { OnOk result (Halves change (nest_at self.old tree) (nest_at self.new tree)) }
        ensures err { OnErr result (Keeps self.old self.new) }
    {
        self.log.reserve(1)?;
        let step = self.trees[tree].change(self.alloc, change)?;
        self.log.push(Undo::Step(tree, step)).unwrap();
        Ok(())
    }

    // Splits a full chunk in two, and gives the place in them.
    fn halve(&mut self, tree: usize, place: Place) -> Result<Place, AllocError>
        requires tree { tree < length self.old.trees.items }
        requires chunk { place.chunk < length (nest_at self.old tree) }
        requires row { place.row ≤ length (rows_at (nest_at self.old tree) place) }
        requires full { length (rows_at (nest_at self.old tree) place) ≡ 128 }
        ensures ok { OnOk result (Keeps self.old self.new) }
        ensures moved { IfOk result (λ at. IsMoved (nest_at self.old tree) (nest_at self.new tree) place.chunk place.row (at.chunk, at.row)) }
        ensures room { IfOk result (λ at. (at.chunk < length (nest_at self.new tree)) × (length (rows_at (nest_at self.new tree) at) < 128)) }
        ensures err { OnErr result (Keeps self.old self.new) }
    {
        let kept = rows_kept(self.trees[tree].shape, place.row);
        self.change(tree, Change::Split(place.chunk, kept))?;
        let head = self.trees[tree].rows_at(place).len();
        Ok(moved(place, head))
    }

    // Puts a row in before a place of a full chunk.
    fn put_apart(&mut self, tree: usize, place: Place, row: Packed) -> Result<(), AllocError>
        requires tree { tree < length self.old.trees.items }
        requires chunk { place.chunk < length (nest_at self.old tree) }
        requires row { place.row ≤ length (rows_at (nest_at self.old tree) place) }
        requires full { length (rows_at (nest_at self.old tree) place) ≡ 128 }
        requires shaped { let n = nest_at self.old tree in IsShaped (shape_at self.old tree) (before n place ++ row ∷ after n place) }
        ensures ok { let n = nest_at self.old tree in OnOk result (Writes self.old self.new tree (before n place ++ row ∷ after n place)) }
        ensures err { OnErr result (Keeps self.old self.new) }
    {
        let place = self.halve(tree, place)?;
        self.change(tree, Change::Put(place, row))
    }

    // Puts a row in before a place.
    pub(crate) fn add(&mut self, tree: usize, place: Place, row: Packed) -> Result<(), AllocError>
        requires tree { tree < length self.old.trees.items }
        requires chunk { (place.chunk < length (nest_at self.old tree)) ⊎ (nest_at self.old tree ≡ []) }
        requires row { place.row ≤ length (rows_at (nest_at self.old tree) place) }
        requires shaped { let n = nest_at self.old tree in IsShaped (shape_at self.old tree) (before n place ++ row ∷ after n place) }
        ensures ok { let n = nest_at self.old tree in OnOk result (Writes self.old self.new tree (before n place ++ row ∷ after n place)) }
        ensures err { OnErr result (Keeps self.old self.new) }
    {
        if self.trees[tree].chunks.is_empty() {
            return self.change(tree, Change::Begin(0, row));
        }
        if self.trees[tree].rows_at(place).len() == CHUNK_LIMIT {
            return self.put_apart(tree, place, row);
        }
        self.change(tree, Change::Put(place, row))
    }
}
