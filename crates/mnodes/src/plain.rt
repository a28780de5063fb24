// SPDX-License-Identifier: Apache-2.0
// A store in a sorted vector.
ghost use Rattle.std.specs.Prelude.{◌≡◌, ◌≤◌, ◌≢◌, length, option_map, IfOk, IfErr, OnOk, OnErr, refl, true};
ghost use Rattle.std.specs.FinMap.{empty};
ghost use Rattle.std.specs.Option.{option_copied};
ghost use Rattle.mspec.specs.NodeOrder.{node_cmp};
ghost use Rattle.mspec.specs.Number.{significant_digits};
ghost use Rattle.mnodes.specs.Entries.{AreEntries, IsAt, IsGapFor, IsPlaceOf, is_before, key_within};

use crate::store::{NodeStore, StoreFault};
use mkey::{NodeKey, compare};
use mnum::Bytes7;
use std::alloc::{AllocError, Global};
use std::cmp::Ordering;
use std::marker::Model;

// A node and its text.
pub(crate) struct Entry {
    pub key: NodeKey,
    pub text: Bytes7,
}

// Written out, so that dropping it is one call, which is proved once.
impl Drop for Entry {
    fn drop(self) {
        let Entry { key: _, text: _ } = self;
    }
}

/// A store in memory, without a database: a vector of nodes in order. It is sound and steady, its doubt is 0, and it
/// always has room: what is said of its content always holds, and no call answers `Store`.
pub struct Plain {
    entries: Vec<Entry>,
}

// Written out, so that dropping it is one call, which is proved once.
impl Drop for Plain {
    fn drop(self) {
        let Plain { entries: _ } = self;
    }
}

impl Model for Plain {
    ghost use Rattle.std.specs.Coded.{coded_ℕ, coded_list};
    ghost use Rattle.std.specs.FinMap.{code};
    ghost use Rattle.mspec.specs.Globals.{Globals};
    ghost use Rattle.mnodes.specs.Entries.{held, AreEntries, coded_node};

    ghost Value = { Globals };

    ghost coded = { code coded_node (coded_list coded_ℕ) };

    ghost view = { λ plain. held plain.entries.items };

    ghost invariant = { λ plain. AreEntries plain.entries.items };
}

impl Plain {
    /// A store that holds nothing. Takes no memory.
    pub fn new(alloc: Global) -> Plain
        ensures { result ≡ empty }
    {
        Plain {
            entries: Vec::new(alloc),
        }
    }
}

// Where the entry of a node is, or where it would go.
fn search(entries: &[Entry], key: &NodeKey) -> Result<usize, usize>
    requires { AreEntries entries.now }
    ensures found { IfOk result (IsAt entries.now key.now) }
    ensures absent { IfErr result (IsGapFor entries.now key.now) }
    ensures bound { IfErr result (λ place. place ≤ length entries.now) }
{
    entries.binary_search_by(
        |entry: &Entry| -> Ordering
            ensures { result ≡ node_cmp significant_digits entry.now.key key.entry.now }
        { entry.key.cmp(key) },
    )
}

// How many keys come before these bytes.
fn place_of(entries: &[Entry], bytes: &[u8]) -> usize
    requires { AreEntries entries.now }
    ensures bound { result ≤ length entries.now }
    ensures place { IsPlaceOf entries.now bytes.now result }
{
    entries.partition_point(
        |entry: &Entry| -> bool
            ensures { result ≡ is_before bytes.entry.now entry.now }
        { compare(entry.key.as_bytes(), bytes).is_lt() },
    )
}

// The key of an entry, if there is one and its key is within the bounds.
fn key_within(
    alloc: Global,
    entry: Option<&Entry>,
    low: &[u8],
    high: &[u8],
) -> Result<Option<Vec<u8>>, AllocError>
    ensures { IfOk result (λ key. option_map (λ bytes. bytes.items) key ≡ key_within low.now high.now (option_copied entry.entry)) }
{
    match entry {
        None => Ok(None),
        Some(entry) => {
            let key = entry.key.as_bytes();
            if low <= key && key < high {
                Ok(Some(key.to_vec(alloc)?))
            } else {
                Ok(None)
            }
        }
    }
}

impl NodeStore for Plain {
    ghost content = { λ plain. plain };

    ghost doubt = { λ _. 0 };

    ghost sound = { Unit };

    ghost steady = { Unit };

    ghost has_room = { λ _. true };

    fn get(&mut self, key: &NodeKey) -> Result<Option<Bytes7>, StoreFault> {
        match search(&self.entries, key) {
            Ok(at) => Ok(Some(self.entries[at].text.copy()?)),
            Err(_) => Ok(None),
        }
    }

    fn put(&mut self, key: &NodeKey, text: &Bytes7) -> Result<(), StoreFault> {
        let text = text.copy()?;
        match search(&self.entries, key) {
            Ok(at) => self.entries[at].text = text,
            Err(place) => {
                let key = key.copy()?;
                self.entries
                    .insert(place, Entry { key, text })
                    .map_err(AllocError::from)?;
            }
        }
        Ok(())
    }

    fn kill(&mut self, key: &NodeKey) -> Result<(), StoreFault> {
        let end = key.after_subtree(*self.entries.allocator())?;
        let from = place_of(&self.entries, key.as_bytes());
        let to = place_of(&self.entries, &end);
        drop(self.entries.drain(from..to));
        Ok(())
    }

    fn next(&mut self, low: &[u8], high: &[u8]) -> Result<Option<Vec<u8>>, StoreFault> {
        let place = place_of(&self.entries, low);
        let first = self.entries[place..].first();
        Ok(key_within(*self.entries.allocator(), first, low, high)?)
    }

    fn prev(&mut self, low: &[u8], high: &[u8]) -> Result<Option<Vec<u8>>, StoreFault> {
        let place = place_of(&self.entries, high);
        let last = self.entries[..place].last();
        Ok(key_within(*self.entries.allocator(), last, low, high)?)
    }

    ghost steady_is_sound = { λ _. tt };

    ghost steady_is_told = { λ _ _ _. refl };
}
