// SPDX-License-Identifier: Apache-2.0
// The store.
ghost use Rattle.std.specs.Prelude.{◌≡◌, ◌≢◌, [], IfOk, OnOk};
ghost use Rattle.sqlite_trees.specs.Tree.{order_of, sought};
ghost use Rattle.sqlite_trees.specs.Listing.{shape_in};
ghost use Rattle.sqlite_trees.specs.Objects.{version_tree, version_rows};
ghost use Rattle.mmemory.specs.States.{headings, rows_of};
ghost use Rattle.mmemory.specs.Memory.{current, left_of, memory_view, SetsCursor, Steps};

use crate::cursor::Cursor;
use crate::held::Held;
use crate::near::Near;
use crate::place::Place;
use crate::probe::Probe;
use crate::storable::is_storable;
use sqlite_trees::error::StoreError;
use sqlite_trees::store::{Direction, Shape, Store};
use sqlite_value::row::Row;
use sqlite_value::value::ValueRef;
use std::alloc::{AllocError, Global};

/// A store in memory.
pub struct Memory {
    pub(crate) held: Held,
    pub(crate) cursors: Vec<Option<Cursor>>,
    pub(crate) near: Near,
}

// Written out, so that dropping it is one call, which is proved once.
impl Drop for Memory {
    fn drop(self) {
        let Memory {
            held: _,
            cursors: _,
            near: _,
        } = self;
    }
}

impl Memory {
    /// An empty store.
    pub fn new(alloc: Global) -> Memory
        ensures trees { (memory_view result).trees version_tree ≡ version_rows 0 }
        ensures empty { (t : _) → t ≢ version_tree → (memory_view result).trees t ≡ [] }
        ensures clean { (memory_view result).trees ≡ (memory_view result).committed }
        ensures unmarked { (memory_view result).marks ≡ [] }
    {
        let held = Held {
            alloc,
            trees: Vec::new(alloc),
            version: 0,
            log: Vec::new(alloc),
            marks: Vec::new(alloc),
        };
        Memory {
            held,
            cursors: Vec::new(alloc),
            near: Near::new(),
        }
    }

    // A cursor at the first row that is not below a key, or after the last that is not above it.
    fn placed(&self, tree: usize, key: &Row, direction: Direction) -> Cursor
        ensures { let now = current self.now in left_of now result ≡ sought (order_of (shape_in (headings now) tree)) direction key.now (rows_of now tree) }
    {
        let Some(found) = self.held.trees.get(tree) else {
            return Cursor {
                tree,
                place: Place { chunk: 0, row: 0 },
                direction,
            };
        };
        let order = found.shape.order();
        let near = self.near.of(tree);
        let place = match direction {
            Direction::Forward => found.find(Probe::BelowKey(order, key), near),
            Direction::Backward => found.find(Probe::UpToKey(order, key), near),
        };
        Cursor {
            tree,
            place,
            direction,
        }
    }

    // The cursor after it has given a row, or `None` at its end.
    fn step(&self, cursor: Cursor, row: &mut Row) -> Result<Option<Cursor>, AllocError>
        ensures { IfOk result (Steps (current self.now) cursor row.new) }
    {
        let Some(tree) = self.held.trees.get(cursor.tree) else {
            return Ok(None);
        };
        match cursor.direction {
            Direction::Forward => {
                let Some((place, found)) = tree.next_row(cursor.place) else {
                    return Ok(None);
                };
                found.copy_to(row)?;
                let place = Place {
                    chunk: place.chunk,
                    row: place.row + 1,
                };
                Ok(Some(Cursor { place, ..cursor }))
            }
            Direction::Backward => {
                let Some((place, found)) = tree.last_row(cursor.place) else {
                    return Ok(None);
                };
                found.copy_to(row)?;
                Ok(Some(Cursor { place, ..cursor }))
            }
        }
    }
}

fn set_cursor(
    cursors: &mut Vec<Option<Cursor>>,
    at: usize,
    cursor: Cursor,
) -> Result<(), AllocError>
    ensures { OnOk result (SetsCursor cursors.old.items cursors.new.items at cursor) }
{
    while cursors.len() <= at {
        cursors.push(None)?;
    }
    cursors[at] = Some(cursor);
    Ok(())
}

impl Store for Memory {
    ghost use Rattle.std.specs.Prelude.{refl};
    ghost use Rattle.std.proofs.Common.{true≢false};
    ghost use Rattle.mmemory.specs.Memory.{memory_view, memory_is_ordered, memory_is_unaltered};

    ghost view = { memory_view };

    ghost faults = { λ _. 0 };

    // The kit asks what an open after a crash may find, and a store in memory is never opened again: after a crash it is gone. This
    // claims that what was committed would be found, as of a disk that loses nothing. No contract of this program uses it.
    ghost recovers = { λ s db. db ≡ (memory_view s).committed };

    ghost is_shielded = { λ _. Unit {0} };

    ghost is_step = { λ _ _ _. Unit {0} };

    ghost ordered = { λ s _. memory_is_ordered s };

    ghost shut_if_dirty = { λ s dirty. absurd (true≢false dirty) };

    ghost empty_if_dirty = { λ s dirty. absurd (true≢false dirty) };

    ghost broken_if_shut = { λ s shut. absurd (true≢false shut) };

    ghost settled = { λ s db _ same. same };

    ghost stays = { λ s _. refl };

    ghost survives = { λ s _. ∣ (_, refl) ∣₁ };

    ghost unaltered = { λ s _. memory_is_unaltered s };

    fn is_broken(&self) -> bool {
        false
    }

    #[tactic(auto, using(crate::proofs::Views::shape_shown, crate::proofs::Views::shape_gone))]
    fn shape(&self, tree: u32) -> Shape {
        match self.held.trees.get(tree as usize) {
            Some(found) => found.shape,
            None => Shape::Absent,
        }
    }

    fn tree_count(&self) -> u64 {
        let mut count = (self.held.trees.len() as u64).min(1 << 32);
        while count > 0 && self.shape((count - 1) as u32) == Shape::Absent {
            count -= 1;
        }
        count
    }

    #[tactic(auto, using(crate::proofs::Views::reals_shown, crate::proofs::Views::reals_gone))]
    fn reals(&self, tree: u32) -> u64 {
        match self.held.trees.get(tree as usize) {
            Some(found) if found.shape != Shape::Absent => found.reals,
            _ => 0,
        }
    }

    fn seek(
        &mut self,
        cursor: u16,
        tree: u32,
        key: &Row,
        direction: Direction,
    ) -> Result<(), StoreError> {
        let placed = self.placed(tree as usize, key, direction);
        self.near.keep(tree as usize, placed.place);
        Ok(set_cursor(&mut self.cursors, usize::from(cursor), placed)?)
    }

    fn next(&mut self, cursor: u16, row: &mut Row) -> Result<bool, StoreError> {
        let at = usize::from(cursor);
        match self.step(self.cursors[at].unwrap(), row)? {
            Some(moved) => {
                self.cursors[at] = Some(moved);
                Ok(true)
            }
            None => Ok(false),
        }
    }

    fn get(&mut self, table: u32, id: i64, row: &mut Row) -> Result<bool, StoreError> {
        let held = &self.held;
        let tree = &held.trees[table as usize];
        let probe = Probe::BelowRowid(ValueRef::Int(id));
        let place = tree.find(probe, self.near.of(table as usize));
        self.near.keep(table as usize, place);
        match tree.next_row(place) {
            Some((_, found)) if probe.meets(found) => {
                found.copy_to(row)?;
                Ok(true)
            }
            _ => Ok(false),
        }
    }

    fn put(&mut self, table: u32, row: &Row) -> Result<(), StoreError> {
        if row.len() < 2 || !is_storable(row, self.reals(table)) {
            return Err(StoreError::Unstorable);
        }
        self.cursors.clear();
        Ok(self.held.put(table as usize, row, &mut self.near)?)
    }

    fn delete(&mut self, table: u32, id: i64) -> Result<(), StoreError> {
        self.cursors.clear();
        Ok(self.held.delete(table as usize, id, &mut self.near)?)
    }

    fn insert(&mut self, index: u32, entry: &Row) -> Result<(), StoreError> {
        if !is_storable(entry, self.reals(index)) {
            return Err(StoreError::Unstorable);
        }
        let order = self.shape(index).order();
        self.cursors.clear();
        Ok(
            self.held
                .insert(index as usize, order, entry, &mut self.near)?,
        )
    }

    fn remove(&mut self, index: u32, entry: &Row) -> Result<(), StoreError> {
        let order = self.shape(index).order();
        self.cursors.clear();
        Ok(
            self.held
                .remove(index as usize, order, entry, &mut self.near)?,
        )
    }

    fn commit(&mut self) -> Result<(), StoreError> {
        self.held.forget();
        Ok(())
    }

    fn rollback(&mut self) {
        self.cursors.clear();
        self.held.marks.clear();
        self.held.undo_to(0);
    }

    fn savepoint(&mut self) -> Result<(), StoreError> {
        let len = self.held.log.len();
        self.held.marks.push(len)?;
        Ok(())
    }

    fn release(&mut self) -> Result<(), StoreError> {
        self.held.marks.pop();
        Ok(())
    }

    fn rollback_to(&mut self) -> Result<(), StoreError> {
        let Some(&len) = self.held.marks.last() else {
            return Ok(());
        };
        self.cursors.clear();
        self.held.undo_to(len);
        Ok(())
    }
}
