// SPDX-License-Identifier: Apache-2.0
// Calls on a store with texts of nodes in front of it, over one that counts its reads.
use crate::counting::Counting;
use crate::drawn::draw;
use crate::stores::{call, node, print_answer};
use anyhow::Context;
use mcache::Cached;
use mkey::NodeKey;
use mnodes::{NodeStore, Plain};
use mtranscript::{play, print_result, words_of};
use std::alloc::Global;

type OverPlain = Cached<Counting>;

// The nodes of drawn calls.
const NODES: [&str; 14] = [
    "X", "X 10", "X 9", "X A", "X -1", "X .5", "X 01", "D", "D 1", "D 1 1", "D 2", "K", "K 1",
    "K 1 2",
];

/// Plays calls on stores one after another over the plain store with texts of a number of nodes in front of it. `entries` makes the store, with
/// that number; `read` reads a node a number of times. After each call it prints how many texts are kept, and how many were read from the store
/// beneath. `drawn` makes a number of drawn calls on a new store and on the plain one, and prints how many answers differ.
///
/// # Errors
///
/// If a case is not such a call, if a store fails, or if memory runs out.
pub fn play_cached(alloc: Global, cases: &[&str], out: &mut Vec<u8>) -> anyhow::Result<()> {
    let mut store = over_plain(alloc, 1)?;
    play(cases, out, |case, out| called(&mut store, alloc, case, out))
}

fn called(
    store: &mut OverPlain,
    alloc: Global,
    case: &str,
    out: &mut Vec<u8>,
) -> anyhow::Result<()> {
    let words = words_of(alloc, case)?;
    match words.as_slice() {
        ["entries", entries] => *store = over_plain(alloc, entries.parse()?)?,
        ["read", times, name, subs @ ..] => {
            read(store, &node(alloc, name, subs)?, times.parse()?)?;
        }
        ["drawn", seed, count, entries] => {
            let found = differences(alloc, seed.parse()?, count.parse()?, entries.parse()?)?;
            let told = format!(in alloc; "{found} differences")?;
            return print_result(out, told.as_bytes());
        }
        _ => print_answer(out, &call(store, alloc, case)?)?,
    }
    let (kept, reads) = (store.len(), store.store().reads);
    let told = format!(in alloc; "{kept} kept, {reads} read")?;
    print_result(out, told.as_bytes())
}

fn over_plain(alloc: Global, entries: usize) -> anyhow::Result<OverPlain> {
    if entries == 0 {
        anyhow::bail!("no entries");
    }
    let counting = Counting {
        store: Plain::new(alloc),
        reads: 0,
    };
    match Cached::new(alloc, counting, entries) {
        Ok(store) => Ok(store),
        Err(_) => anyhow::bail!("no memory"),
    }
}

fn read(store: &mut OverPlain, key: &NodeKey, times: u64) -> anyhow::Result<()> {
    for _ in 0..times {
        drop(store.get(key).ok().context("not read")?);
    }
    Ok(())
}

// How many of `count` drawn calls are answered differently by a store with `entries` texts in front of it.
fn differences(alloc: Global, seed: u64, count: u64, entries: usize) -> anyhow::Result<u64> {
    let mut plain = Plain::new(alloc);
    let mut store = over_plain(alloc, entries)?;
    let mut state = seed;
    let mut found = 0u64;
    for _ in 0..count {
        let drawn = NODES[(draw(&mut state) % 14) as usize];
        let number = draw(&mut state) % 9;
        let case = match number {
            0 => format!(in alloc; "kill {drawn}")?,
            1 | 2 | 3 => format!(in alloc; "put {drawn} = {number}")?,
            4 => format!(in alloc; "walk {drawn}")?,
            5 => format!(in alloc; "back {drawn}")?,
            _ => format!(in alloc; "get {drawn}")?,
        };
        let wanted = call(&mut plain, alloc, case.as_str())?;
        if call(&mut store, alloc, case.as_str())?.as_slice() != wanted.as_slice() {
            found = found.saturating_add(1);
        }
    }
    Ok(found)
}
