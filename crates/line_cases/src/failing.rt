// SPDX-License-Identifier: Apache-2.0
// Lines over the plain store, of which a call may fail, with texts of nodes and copies of routines in front of it.
use crate::lines::{Lines, answer_of, line_bytes};
use mcache::Cached;
use mglobal::RoutineCache;
use mgrant::Settings;
use mnodes::{Failing, NodeStore, Plain, StoreCall};
use mtranscript::{play, print_result, print_results, words_of};
use mworld::World;
use std::alloc::Global;

// As many texts as the program keeps.
pub(crate) const ENTRIES: usize = 1024;

// A world whose stores stand one in front of the other as the program's do, over the plain store.
pub(crate) type FailingWorld = World<RoutineCache<Cached<Failing<Plain>>>>;

// A new one over any store, with `entries` texts in front of it.
pub(crate) fn world_over<S: NodeStore + Drop>(
    alloc: Global,
    document: &[u8],
    entries: usize,
    store: S,
) -> anyhow::Result<World<RoutineCache<Cached<S>>>> {
    if entries == 0 {
        anyhow::bail!("entries are counted from 1");
    }
    let settings = Settings::read(alloc, document)?;
    let Ok(cached) = Cached::new(alloc, store, entries) else {
        anyhow::bail!("no memory for texts");
    };
    match World::with_entries(alloc, settings, RoutineCache::new(alloc, cached), 1) {
        Ok(world) => Ok(world),
        Err(_) => anyhow::bail!("no memory for a world"),
    }
}

// A new one over the plain store, of which the nth call of a kind fails.
pub(crate) fn failing_world(
    alloc: Global,
    document: &[u8],
    entries: usize,
    call: StoreCall,
    n: u32,
) -> anyhow::Result<FailingWorld> {
    if n == 0 {
        anyhow::bail!("calls are counted from 1");
    }
    world_over(
        alloc,
        document,
        entries,
        Failing::new(Plain::new(alloc), call, n),
    )
}

// A new one, of which no call fails.
pub(crate) fn ample_world(alloc: Global, document: &[u8]) -> anyhow::Result<FailingWorld> {
    failing_world(alloc, document, ENTRIES, StoreCall::Get, u32::MAX)
}

// A new one by the words of a case: how many texts are kept, and which call fails, if one does.
pub(crate) fn world_of(
    alloc: Global,
    document: &[u8],
    words: &str,
) -> anyhow::Result<FailingWorld> {
    let words = words_of(alloc, words)?;
    match words.as_slice() {
        [entries] => { failing_world(alloc, document, entries.parse()?, StoreCall::Get, u32::MAX) }
        [entries, call, n] => {
            failing_world(
                alloc,
                document,
                entries.parse()?,
                call_of(call)?,
                n.parse()?,
            )
        }
        _ => anyhow::bail!("no store"),
    }
}

fn call_of(word: &str) -> anyhow::Result<StoreCall> {
    match word {
        "get" => Ok(StoreCall::Get),
        "put" => Ok(StoreCall::Put),
        "kill" => Ok(StoreCall::Kill),
        "next" => Ok(StoreCall::Next),
        "prev" => Ok(StoreCall::Prev),
        _ => anyhow::bail!("no call on stores"),
    }
}

// Serves a line, and says whether a call of the store failed in it.
pub(crate) fn served(
    alloc: Global,
    world: &mut FailingWorld,
    line: &[u8],
) -> anyhow::Result<(Vec<u8>, bool)> {
    let before = failures(world);
    let answer = answer_of(alloc, world, line)?;
    Ok((answer, failures(world) != before))
}

fn failures(world: &FailingWorld) -> u32 {
    world.store().store().store().failures()
}

/// Serves each line in the world that the lines before it left, by the settings of the document, and prints the replies below it, and whether a
/// call of the store failed in it. A case `cache N` makes a new world, with texts of N nodes in front of the store; `cache N put 2` one in
/// which the second put of the store fails.
///
/// # Errors
///
/// If the document gives no settings, or if memory runs out.
pub fn play_cached_lines(alloc: Global, block: &Lines, out: &mut Vec<u8>) -> anyhow::Result<()> {
    let mut world = ample_world(alloc, block.document)?;
    play(block.cases, out, |case, out| {
        if let Some(words) = case.strip_prefix("cache ") {
            world = world_of(alloc, block.document, words)?;
            return Ok(());
        }
        let (answer, failed) = served(alloc, &mut world, &line_bytes(alloc, case)?)?;
        print_results(alloc, out, &answer)?;
        if failed {
            print_result(out, b"the store failed")?;
        }
        Ok(())
    })
}
