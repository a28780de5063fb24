// SPDX-License-Identifier: Apache-2.0
//! A store that keeps copies of routines.
ghost use Rattle.std.specs.Prelude.{◌≡◌};

use crate::copies::{RoutineCopy, find, forget, keep};
use mkey::NodeKey;
use mnodes::{NodeStore, StoreFault};
use mnum::Bytes7;
use std::alloc::Global;
use std::marker::Model;
use std::rc::Rc;

/// A store with copies of routines that were read from it, so that a routine is read once and not at each DO. A call that may change a
/// routine drops its copy first. It has what the store has, and is as sound and as steady.
pub struct RoutineCache<S: NodeStore> {
    store: S,
    copies: Vec<RoutineCopy>,
    alloc: Global,
}

// Written out, so that dropping it is one call, which is proved once.
impl<S: NodeStore + Drop> Drop for RoutineCache<S> {
    fn drop(self) {
        let RoutineCache {
            store: _,
            copies: _,
            alloc: _,
        } = self;
    }
}

impl<S: NodeStore> Model for RoutineCache<S> {
    ghost use Rattle.std.specs.Prelude.{◌≡◌};
    ghost use Rattle.mglobal.specs.Copies.{AreCopiesIn};

    ghost Value = { S };

    ghost coded = { S.code };

    ghost view = { λ kept. kept.store };

    ghost invariant = { λ kept. S.doubt kept.store ≡ 0 → AreCopiesIn (S.content kept.store) kept.copies.items };
}

impl<S: NodeStore> RoutineCache<S> {
    /// A store with no copies yet. Takes no memory.
    pub fn new(alloc: Global, store: S) -> RoutineCache<S>
        ensures { result ≡ store }
    {
        RoutineCache {
            store,
            copies: Vec::new(alloc),
            alloc,
        }
    }

    /// The store beneath. Takes no memory.
    pub fn store(&self) -> &S
        ensures { result.now ≡ self.now }
    {
        &self.store
    }

    /// The store, without the copies.
    pub fn into_store(self) -> S
        ensures { result ≡ self }
    {
        let RoutineCache {
            store,
            copies: _,
            alloc: _,
        } = self;
        store
    }
}

impl<S: NodeStore> NodeStore for RoutineCache<S> {
    ghost content = { λ kept. S.content kept };

    ghost doubt = { λ kept. S.doubt kept };

    ghost sound = { S.sound };

    ghost steady = { S.steady };

    ghost has_room = { λ kept. S.has_room kept };

    fn get(&mut self, key: &NodeKey) -> Result<Option<Bytes7>, StoreFault> {
        self.store.get(key)
    }

    fn put(&mut self, key: &NodeKey, text: &Bytes7) -> Result<(), StoreFault> {
        forget(&mut self.copies, key);
        self.store.put(key, text)
    }

    fn kill(&mut self, key: &NodeKey) -> Result<(), StoreFault> {
        forget(&mut self.copies, key);
        self.store.kill(key)
    }

    fn next(&mut self, low: &[u8], high: &[u8]) -> Result<Option<Vec<u8>>, StoreFault> {
        self.store.next(low, high)
    }

    fn prev(&mut self, low: &[u8], high: &[u8]) -> Result<Option<Vec<u8>>, StoreFault> {
        self.store.prev(low, high)
    }

    fn kept_routine(&mut self, account: &Bytes7, name: &Bytes7) -> Option<Rc<Vec<Bytes7>>> {
        find(&self.copies, account, name)
    }

    fn keep_routine(&mut self, account: &Bytes7, name: &Bytes7, lines: &Rc<Vec<Bytes7>>) {
        keep(self.alloc, &mut self.copies, account, name, lines);
    }

    ghost steady_is_sound = { S.steady_is_sound };

    ghost steady_is_told = { S.steady_is_told };
}
