// SPDX-License-Identifier: Apache-2.0
// Trees that are made and dropped.

use crate::memory::Memory;
use crate::tree::Tree;
use sqlite_trees::error::StoreError;
use sqlite_trees::schema::Object;
use sqlite_trees::store::{Alter, Shape};
use sqlite_value::row::Row;
use std::alloc::{AllocError, Global};

impl Alter for Memory {
    ghost use Rattle.mmemory.specs.Memory.{memory_is_listed};

    ghost listed = { λ s _. memory_is_listed s };

    fn objects(&self, alloc: Global) -> Result<Vec<Row>, AllocError> {
        let mut rows = Vec::new(alloc);
        let trees = self.held.trees.as_slice();
        for at in 0..trees.len() {
            let tree = &trees[at];
            if tree.shape != Shape::Absent {
                rows.push(tree.listing(alloc, at)?)?;
            }
        }
        Ok(rows)
    }

    fn create(&mut self, tree: u32, object: &Object<'_>) -> Result<(), StoreError> {
        self.cursors.clear();
        let new = Tree::new(self.held.alloc, object)?;
        Ok(self.held.replace(tree, new)?)
    }

    fn destroy(&mut self, tree: u32) -> Result<(), StoreError> {
        self.cursors.clear();
        let absent = Tree::absent(self.held.alloc);
        Ok(self.held.replace(tree, absent)?)
    }

    fn version(&self) -> u32 {
        self.held.version
    }

    fn set_version(&mut self, version: u32) -> Result<(), StoreError> {
        self.cursors.clear();
        Ok(self.held.set_version(version)?)
    }

    fn relist(&mut self, changes: &[(u32, Object<'_>)]) -> Result<(), StoreError> {
        self.cursors.clear();
        let len = self.held.log.len();
        for change in changes {
            if self.held.relabel(change.0 as usize, &change.1).is_err() {
                self.held.undo_to(len);
                return Err(StoreError::OutOfMemory);
            }
        }
        Ok(())
    }
}
