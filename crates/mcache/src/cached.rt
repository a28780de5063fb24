// SPDX-License-Identifier: Apache-2.0
// A store with texts of nodes in front of it.
ghost use Rattle.std.specs.Prelude.{◌≡◌, ◌<◌, ◌≤◌, IfOk, IfErr};
ghost use Rattle.mcache.specs.CachedStore.{cached_store};

use crate::entries::{Entries, find, forget, forget_below, keep, keep_if};
use lru::LruCache;
use mkey::NodeKey;
use mnodes::{NodeStore, StoreFault};
use mnum::Bytes7;
use std::alloc::Global;
use std::marker::Model;
use std::num::NonZeroUsize;
use std::rc::Rc;

/// A store with the texts of a given number of nodes, so that a node that was recently read or set is read without the store beneath.
/// What is not there is not kept. It has what the store beneath has, and is as sound and as steady.
pub struct Cached<S: NodeStore> {
    store: S,
    entries: Entries,
    // Whether the store was read, or took a text. That tells that what the store holds are nodes and texts that a store may hold, and a read
    // that is answered without the store has to tell this too.
    told: bool,
    // How many texts the store was asked for since one that is kept was read.
    missed: usize,
    alloc: Global,
}

// Written out, so that dropping it is one call, which is proved once.
impl<S: NodeStore + Drop> Drop for Cached<S> {
    fn drop(self) {
        let Cached {
            store: _,
            entries: _,
            told: _,
            missed: _,
            alloc: _,
        } = self;
    }
}

impl<S: NodeStore> Model for Cached<S> {
    ghost use Rattle.std.specs.Prelude.{◌≡◌};
    ghost use Rattle.mcache.specs.CachedStore.{CachedStore, cached_store, cached_store_code};
    ghost use Rattle.mcache.specs.NodeTexts.{AreOf};

    ghost Value = { CachedStore S };

    ghost coded = { cached_store_code S.code };

    ghost view = { λ cached. cached_store cached.store cached.entries.cap };

    ghost invariant = { λ cached. S.doubt cached.store ≡ 0 → AreOf (S.content cached.store) cached.told cached.entries.entries };
}

// One in this many texts is kept after as many reads in a row as there are entries, none of a text that is kept.
const ONE_IN: usize = 16;

// Whether a text that the store was asked for is kept, after `missed` in a row. A walk through more nodes than there are entries reads none
// again before its text is gone, so it does not pay for them all. After the first read that finds a text, the next ones are kept again.
fn is_wanted(missed: usize, entries: usize) -> bool {
    missed < entries || missed.is_multiple_of(ONE_IN)
}

impl<S: NodeStore> Cached<S> {
    /// The store, with no text kept yet, and with this many entries.
    ///
    /// # Errors
    ///
    /// The store, if memory runs out.
    pub fn new(alloc: Global, store: S, entries: usize) -> Result<Cached<S>, S>
        requires { 0 < entries }
        ensures cached { IfOk result (λ cached. cached ≡ cached_store store entries) }
        ensures store { IfErr result (λ back. back ≡ store) }
    {
        let Some(cap) = NonZeroUsize::new(entries) else {
            return Err(store);
        };
        match LruCache::new(alloc, cap) {
            Err(_) => Err(store),
            Ok(entries) => Ok(Cached {
                store,
                entries,
                told: false,
                missed: 0,
                alloc,
            }),
        }
    }

    /// How many texts are kept. Takes no memory.
    pub fn len(&self) -> usize
        ensures { result ≤ self.now.entries }
    {
        self.entries.len()
    }

    /// The store beneath. Takes no memory.
    pub fn store(&self) -> &S
        ensures { result.now ≡ self.now.store }
    {
        &self.store
    }

    /// The store, without the texts.
    pub fn into_store(self) -> S
        ensures { result ≡ self.store }
    {
        let Cached {
            store,
            entries: _,
            told: _,
            missed: _,
            alloc: _,
        } = self;
        store
    }
}

impl<S: NodeStore> NodeStore for Cached<S> {
    ghost content = { λ cached. S.content cached.store };

    ghost doubt = { λ cached. S.doubt cached.store };

    ghost sound = { S.sound };

    ghost steady = { S.steady };

    ghost has_room = { λ cached. S.has_room cached.store };

    fn get(&mut self, key: &NodeKey) -> Result<Option<Bytes7>, StoreFault> {
        if let Some(text) = find(&mut self.entries, key.as_bytes()) {
            self.missed = 0;
            return Ok(Some(text));
        }
        let answer = self.store.get(key);
        self.told = true;
        let found = answer?;
        if let Some(text) = &found {
            let wanted = is_wanted(self.missed, self.entries.cap().get());
            self.missed = self.missed.wrapping_add(1);
            keep_if(wanted, self.alloc, &mut self.entries, key.as_bytes(), text);
        }
        Ok(found)
    }

    fn put(&mut self, key: &NodeKey, text: &Bytes7) -> Result<(), StoreFault> {
        self.store.put(key, text)?;
        self.told = true;
        forget(&mut self.entries, key.as_bytes());
        keep(self.alloc, &mut self.entries, key.as_bytes(), text);
        Ok(())
    }

    fn kill(&mut self, key: &NodeKey) -> Result<(), StoreFault> {
        self.store.kill(key)?;
        forget_below(self.alloc, &mut self.entries, key.as_bytes());
        Ok(())
    }

    fn next(&mut self, low: &[u8], high: &[u8]) -> Result<Option<Vec<u8>>, StoreFault> {
        let answer = self.store.next(low, high);
        self.told = true;
        answer
    }

    fn prev(&mut self, low: &[u8], high: &[u8]) -> Result<Option<Vec<u8>>, StoreFault> {
        let answer = self.store.prev(low, high);
        self.told = true;
        answer
    }

    fn kept_routine(&mut self, account: &Bytes7, name: &Bytes7) -> Option<Rc<Vec<Bytes7>>> {
        self.store.kept_routine(account, name)
    }

    fn keep_routine(&mut self, account: &Bytes7, name: &Bytes7, lines: &Rc<Vec<Bytes7>>) {
        self.store.keep_routine(account, name, lines);
    }

    ghost steady_is_sound = { S.steady_is_sound };

    ghost steady_is_told = { λ steady cached. S.steady_is_told steady cached.store };
}
