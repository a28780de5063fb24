// SPDX-License-Identifier: Apache-2.0
// Worlds over the stores that a command line can name.
ghost use Rattle.std.specs.Prelude.{◌≡◌, ◌≢◌, ◌<◌, Some, IfOk, IfErr, OnOk, IfSome};
ghost use Rattle.std.specs.FinMap.{empty};
ghost use Rattle.mspec.specs.Act.{Text};
ghost use Rattle.mworld.specs.View.{doubt_of};
ghost use Rattle.mhost.specs.Words.{Globals, cached_store, opening, settings_of, world_of};
ghost use Rattle.mhost.specs.Faults.{IsMemoryFault, IsStoreFault};

use crate::fault::RunFault;
use crate::store_files::StoreFiles;
use mcache::Cached;
use mglobal::RoutineCache;
use mgrant::Settings;
use mmemory::Memory;
use mnodes::NodeStore;
use mstore::{OpenFault, Table};
use mworld::World;
use std::alloc::Global;

// How many texts of nodes are kept in front of a table.
const ENTRIES: usize = 1024;

/// A world over a table in memory.
pub type MemoryWorld = World<RoutineCache<Cached<Table<Memory>>>>;

// A store with texts of `entries` nodes and copies of routines in front of it, if there is memory for them.
fn kept_over<S: NodeStore + Drop>(
    alloc: Global,
    store: S,
    entries: usize,
) -> Option<RoutineCache<Cached<S>>>
    requires { 0 < entries }
    ensures { IfSome result (λ kept. kept ≡ cached_store store entries) }
{
    match Cached::new(alloc, store, entries) {
        Ok(cached) => Some(RoutineCache::new(alloc, cached)),
        Err(_) => None,
    }
}

// A world without a session over a store, with texts of nodes and copies of routines in front of it. The fault is `Store(Memory)`.
fn world_over<S: NodeStore + Drop>(
    alloc: Global,
    settings: Settings,
    store: S,
) -> Result<World<RoutineCache<Cached<S>>>, RunFault>
    ensures settings { IfOk result (λ world. settings_of world ≡ settings) }
    ensures world { IfOk result (λ world. world_of ⟦<RoutineCache<Cached<S>> as NodeStore>⟧ world ≡ opening (S.content store)) }
    ensures doubt { IfOk result (λ world. doubt_of ⟦<RoutineCache<Cached<S>> as NodeStore>⟧ world ≡ S.doubt store) }
    ensures early { IfErr result (λ fault. fault ≡ RunFault.Store OpenFault.Memory) }
{
    let Some(kept) = kept_over(alloc, store, ENTRIES) else {
        return Err(RunFault::Store(OpenFault::Memory));
    };
    match World::new(alloc, settings, kept) {
        Ok(world) => Ok(world),
        Err(_) => Err(RunFault::Store(OpenFault::Memory)),
    }
}

/// A world without a session, over a new table in memory.
///
/// # Errors
///
/// `Store`, which is `Memory`, also for the world and for what is kept in front of the table, or `Store`.
pub fn memory_world(alloc: Global, settings: Settings) -> Result<MemoryWorld, RunFault>
    ensures settings { IfOk result (λ world. settings_of world ≡ settings) }
    ensures world { IfOk result (λ world. world_of ⟦<RoutineCache<Cached<Table<Memory>>> as NodeStore>⟧ world ≡ opening empty) }
    ensures sound { IfOk result (λ _. ⟦<RoutineCache<Cached<Table<Memory>>> as NodeStore>⟧.sound) }
    ensures steady { IfOk result (λ _. ⟦<RoutineCache<Cached<Table<Memory>>> as NodeStore>⟧.steady) }
    ensures undoubted { IfOk result (λ world. doubt_of ⟦<RoutineCache<Cached<Table<Memory>>> as NodeStore>⟧ world ≡ 0) }
    ensures early { IfErr result IsMemoryFault }
{
    let table = match Table::open_memory(alloc) {
        Ok(table) => table,
        Err(fault) => return Err(RunFault::Store(fault)),
    };
    match world_over(alloc, settings, table) {
        Ok(world) => Ok(world),
        Err(fault) => Err(fault),
    }
}

/// A world without a session, over the store in a file, which is created if it does not exist.
///
/// # Errors
///
/// `Store`, with the faults of `StoreFiles::open`; `Memory` also for the world and for what is kept in front of the store.
pub fn file_world<F: StoreFiles>(
    alloc: Global,
    files: &mut F,
    path: &str,
    settings: Settings,
) -> Result<World<RoutineCache<Cached<F::Store>>>, RunFault>
    ensures settings { IfOk result (λ world. settings_of world ≡ settings) }
    ensures world { IfOk result (λ world. (globals : Globals) × (world_of ⟦<RoutineCache<Cached<F::Store>> as NodeStore>⟧ world ≡ opening globals)
        × (F.tells → (doubt_of ⟦<RoutineCache<Cached<F::Store>> as NodeStore>⟧ world ≡ 0) × (F.held files.old path.now ≡ Some globals))
        × (doubt_of ⟦<RoutineCache<Cached<F::Store>> as NodeStore>⟧ world ≡ 0 → F.finds files.old globals)) }
    ensures lent { F.tells → OnOk result (F.lent files.new path.now) }
    ensures others { F.tells → (other : Text) → other ≢ path.now → F.held files.new other ≡ F.held files.old other }
    ensures early { IfErr result IsStoreFault }
{
    let store = match files.open(alloc, path) {
        Ok(store) => store,
        Err(fault) => return Err(RunFault::Store(fault)),
    };
    match world_over(alloc, settings, store) {
        Ok(world) => Ok(world),
        Err(fault) => Err(fault),
    }
}

/// The store, without the texts and the copies of routines in front of it. Takes no memory.
pub fn store_of<S: NodeStore + Drop>(kept: RoutineCache<Cached<S>>) -> S
    ensures { result ≡ kept.store }
{
    kept.into_store().into_store()
}
