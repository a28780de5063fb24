// SPDX-License-Identifier: Apache-2.0
// A store that counts its reads.
ghost use Rattle.std.specs.Prelude.{false};

use mkey::NodeKey;
use mnodes::{NodeStore, Plain, StoreFault};
use mnum::Bytes7;

/// The plain store, which counts how often a text is asked of it. Nothing is said of what it holds.
#[derive(Drop)]
pub(crate) struct Counting {
    pub store: Plain,
    pub reads: u64,
}

impl NodeStore for Counting {
    ghost use Rattle.std.specs.FinMap.{empty};

    ghost content = { λ _. empty };

    ghost doubt = { λ _. 2 };

    ghost sound = { ⊥ };

    ghost steady = { ⊥ };

    ghost has_room = { λ _. false };

    fn get(&mut self, key: &NodeKey) -> Result<Option<Bytes7>, StoreFault> {
        self.reads = self.reads.saturating_add(1);
        self.store.get(key)
    }

    fn put(&mut self, key: &NodeKey, text: &Bytes7) -> Result<(), StoreFault> {
        self.store.put(key, text)
    }

    fn kill(&mut self, key: &NodeKey) -> Result<(), StoreFault> {
        self.store.kill(key)
    }

    fn next(&mut self, low: &[u8], high: &[u8]) -> Result<Option<Vec<u8>>, StoreFault> {
        self.store.next(low, high)
    }

    fn prev(&mut self, low: &[u8], high: &[u8]) -> Result<Option<Vec<u8>>, StoreFault> {
        self.store.prev(low, high)
    }

    ghost steady_is_sound = { λ never. absurd never };

    ghost steady_is_told = { λ never. absurd never };
}
