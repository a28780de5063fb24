// SPDX-License-Identifier: Apache-2.0
// Surroundings in memory, which tell all that they hold.
ghost use Rattle.std.specs.Prelude.{◌≡◌, ◌==◌, ◌≤◌, ℕ, List, [], map, take, None, Some, option_map, unwrap_or, string_bytes};
ghost use Rattle.std.specs.FinMap.{empty};
ghost use Rattle.mspec.specs.Trees.{text_eq};
ghost use Rattle.mhost.specs.InMemory.{at_path, at_port, first_left};

use crate::documents::{DocumentFault, Documents};
use crate::ports::Ports;
use crate::store_files::StoreFiles;
use mnodes::{NodeStore, Plain};
use mstore::OpenFault;
use mwire::{Listener, Peers};
use std::alloc::Global;
use std::collections::VecDeque;

/// A document in memory: its path, and what it holds at each reading, one after another. After the last there is no such file.
pub struct MemoryDocument {
    pub path: String,
    pub texts: VecDeque<Vec<u8>>,
}

// Written out, so that dropping it is one call, which is proved once.
impl Drop for MemoryDocument {
    fn drop(self) {
        let MemoryDocument { path: _, texts: _ } = self;
    }
}

impl Documents for MemoryDocument {
    ghost tells = { Unit };

    ghost held = { λ d path. at_path (string_bytes d.path) path (option_map (λ text. text.items) (first_left d.texts.items)) };

    fn first_bytes(
        &mut self,
        _alloc: Global,
        path: &str,
        most: u64,
    ) -> Result<Vec<u8>, DocumentFault> {
        if !is_at(self.path.as_str(), path) {
            return Err(DocumentFault::Unread);
        }
        match self.texts.pop_front() {
            Some(text) => Ok(front(text, most)),
            None => Err(DocumentFault::Unread),
        }
    }
}

// The first of these bytes.
fn front(mut text: Vec<u8>, most: u64) -> Vec<u8>
    ensures { result.items ≡ take most text.items }
{
    if text.len() as u64 > most {
        text.truncate(most as usize);
    }
    text
}

// Whether this is the path.
fn is_at(own: &str, path: &str) -> bool
    ensures { result ≡ text_eq own.now path.now }
{
    own.as_bytes() == path.as_bytes()
}

/// The file of a store, in memory: its path, and the store that it has. It has none if the file does not exist, and while it is lent.
pub struct MemoryFile {
    pub path: String,
    pub store: Option<Plain>,
}

// Written out, so that dropping it is one call, which is proved once.
impl Drop for MemoryFile {
    fn drop(self) {
        let MemoryFile { path: _, store: _ } = self;
    }
}

impl StoreFiles for MemoryFile {
    type Store = Plain;

    ghost tells = { Unit };

    ghost held = { λ f path. at_path (string_bytes f.path) path (Some (unwrap_or (option_map ⟦<Plain as NodeStore>⟧.content f.store) empty)) };

    ghost lent = { λ f path. path ≡ string_bytes f.path };

    ghost finds = { λ _ _. Unit };

    ghost clean = { λ _. Unit };

    ghost leaves = { λ _ _. Unit };

    fn open(&mut self, alloc: Global, path: &str) -> Result<Plain, OpenFault> {
        if !is_at(self.path.as_str(), path) {
            return Err(OpenFault::Store);
        }
        match self.store.take() {
            Some(store) => Ok(store),
            None => Ok(Plain::new(alloc)),
        }
    }

    fn close(&mut self, _path: &str, store: Plain) {
        self.store = Some(store);
    }
}

/// A port in memory: its number, and the peers who wait there. There are none if it is taken, and while it is lent.
pub struct MemoryPort {
    pub number: u16,
    pub peers: Option<Peers>,
}

// Written out, so that dropping it is one call, which is proved once.
impl Drop for MemoryPort {
    fn drop(self) {
        let MemoryPort {
            number: _,
            peers: _,
        } = self;
    }
}

impl Ports for MemoryPort {
    type Port = Peers;

    ghost tells = { Unit };

    ghost waiting = { λ p number. at_port p.number number (option_map ⟦<Peers as Listener>⟧.waiting p.peers) None };

    ghost answered = { λ p number. at_port p.number number (unwrap_or (option_map ⟦<Peers as Listener>⟧.answered p.peers) []) [] };

    ghost lent = { λ p number. number ≡ p.number };

    fn listen(&mut self, number: u16) -> Option<Peers> {
        if number != self.number {
            return None;
        }
        self.peers.take()
    }

    fn close(&mut self, _number: u16, port: Peers) {
        self.peers = Some(port);
    }
}
