// SPDX-License-Identifier: Apache-2.0
// A store that notes which of its calls were made, in front of any other.
ghost use Rattle.std.specs.Prelude.{◌≡◌};

use sqlite_trees::error::StoreError;
use sqlite_trees::schema::Object;
use sqlite_trees::store::{Alter, Direction, Shape, Store};
use sqlite_value::row::Row;
use std::alloc::{AllocError, Global};
use std::cell::Cell;
use std::rc::Rc;

/// A call that reads rows of a store, or that may change it.
#[derive(Clone, Copy)]
pub(crate) enum Call {
    Seek,
    Next,
    Get,
    Put,
    Delete,
    Insert,
    Remove,
    Commit,
    Rollback,
    Savepoint,
    Release,
    RollbackTo,
    Objects,
    Create,
    Destroy,
    Relist,
    SetVersion,
}

impl Call {
    /// The name of the call in the trait.
    pub(crate) fn name(self) -> &'static str {
        match self {
            Call::Seek => "seek",
            Call::Next => "next",
            Call::Get => "get",
            Call::Put => "put",
            Call::Delete => "delete",
            Call::Insert => "insert",
            Call::Remove => "remove",
            Call::Commit => "commit",
            Call::Rollback => "rollback",
            Call::Savepoint => "savepoint",
            Call::Release => "release",
            Call::RollbackTo => "rollback_to",
            Call::Objects => "objects",
            Call::Create => "create",
            Call::Destroy => "destroy",
            Call::Relist => "relist",
            Call::SetVersion => "set_version",
        }
    }
}

/// The calls that were made, in their order.
pub(crate) type Noted = Cell<Vec<Call>>;

/// A store that notes its calls and hands them on.
#[derive(Drop)]
pub(crate) struct Traced<S> {
    inner: S,
    calls: Rc<Noted>,
    alloc: Global,
}

impl<S> Traced<S> {
    /// The store, whose calls are noted after those noted before.
    pub(crate) fn new(alloc: Global, inner: S, calls: Rc<Noted>) -> Traced<S>
        ensures { result.inner ≡ inner }
    {
        Traced {
            inner,
            calls,
            alloc,
        }
    }

    // If memory runs out, the call is missing from what is printed.
    fn note(&self, call: Call) {
        let mut calls = self.calls.replace(Vec::new(self.alloc));
        let _ = calls.push(call);
        self.calls.set(calls);
    }
}

impl<S: Store> Store for Traced<S> {
    ghost view = { λ t. S.view t.inner };

    ghost faults = { λ t. S.faults t.inner };

    ghost recovers = { λ t. S.recovers t.inner };

    ghost is_shielded = { λ t. S.is_shielded t.inner };

    ghost is_step = { λ old new tree. S.is_step old.inner new.inner tree };

    ghost blamed = { λ t. S.blamed t.inner };

    ghost names = { λ old new fault. S.names old.inner new.inner fault };

    ghost ordered = { λ t. S.ordered t.inner };

    ghost shut_if_dirty = { λ t. S.shut_if_dirty t.inner };

    ghost empty_if_dirty = { λ t. S.empty_if_dirty t.inner };

    ghost broken_if_shut = { λ t. S.broken_if_shut t.inner };

    ghost settled = { λ t. S.settled t.inner };

    ghost stays = { λ t. S.stays t.inner };

    ghost survives = { λ t. S.survives t.inner };

    ghost unaltered = { λ t. S.unaltered t.inner };

    fn is_broken(&self) -> bool {
        self.inner.is_broken()
    }

    fn shape(&self, tree: u32) -> Shape {
        self.inner.shape(tree)
    }

    fn tree_count(&self) -> u64 {
        self.inner.tree_count()
    }

    fn reals(&self, tree: u32) -> u64 {
        self.inner.reals(tree)
    }

    fn seek(
        &mut self,
        cursor: u16,
        tree: u32,
        key: &Row,
        direction: Direction,
    ) -> Result<(), StoreError> {
        self.note(Call::Seek);
        self.inner.seek(cursor, tree, key, direction)
    }

    fn next(&mut self, cursor: u16, row: &mut Row) -> Result<bool, StoreError> {
        self.note(Call::Next);
        self.inner.next(cursor, row)
    }

    fn get(&mut self, table: u32, id: i64, row: &mut Row) -> Result<bool, StoreError> {
        self.note(Call::Get);
        self.inner.get(table, id, row)
    }

    fn put(&mut self, table: u32, row: &Row) -> Result<(), StoreError> {
        self.note(Call::Put);
        self.inner.put(table, row)
    }

    fn delete(&mut self, table: u32, id: i64) -> Result<(), StoreError> {
        self.note(Call::Delete);
        self.inner.delete(table, id)
    }

    fn insert(&mut self, index: u32, entry: &Row) -> Result<(), StoreError> {
        self.note(Call::Insert);
        self.inner.insert(index, entry)
    }

    fn remove(&mut self, index: u32, entry: &Row) -> Result<(), StoreError> {
        self.note(Call::Remove);
        self.inner.remove(index, entry)
    }

    fn commit(&mut self) -> Result<(), StoreError> {
        self.note(Call::Commit);
        self.inner.commit()
    }

    fn rollback(&mut self) {
        self.note(Call::Rollback);
        self.inner.rollback();
    }

    fn savepoint(&mut self) -> Result<(), StoreError> {
        self.note(Call::Savepoint);
        self.inner.savepoint()
    }

    fn release(&mut self) -> Result<(), StoreError> {
        self.note(Call::Release);
        self.inner.release()
    }

    fn rollback_to(&mut self) -> Result<(), StoreError> {
        self.note(Call::RollbackTo);
        self.inner.rollback_to()
    }
}

impl<S: Alter> Alter for Traced<S> {
    ghost listed = { λ t. S.listed t.inner };

    fn objects(&self, alloc: Global) -> Result<Vec<Row>, AllocError> {
        self.note(Call::Objects);
        self.inner.objects(alloc)
    }

    fn create(&mut self, tree: u32, object: &Object<'_>) -> Result<(), StoreError> {
        self.note(Call::Create);
        self.inner.create(tree, object)
    }

    fn destroy(&mut self, tree: u32) -> Result<(), StoreError> {
        self.note(Call::Destroy);
        self.inner.destroy(tree)
    }

    fn relist(&mut self, changes: &[(u32, Object<'_>)]) -> Result<(), StoreError> {
        self.note(Call::Relist);
        self.inner.relist(changes)
    }

    fn version(&self) -> u32 {
        self.inner.version()
    }

    fn set_version(&mut self, version: u32) -> Result<(), StoreError> {
        self.note(Call::SetVersion);
        self.inner.set_version(version)
    }
}
