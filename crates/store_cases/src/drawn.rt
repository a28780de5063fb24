// SPDX-License-Identifier: Apache-2.0
// Drawn nodes in two stores, of which each must answer what the other does.
use crate::stores::{node, put};
use anyhow::Context;
use mfile::{close_table, open_table};
use mkey::NodeKey;
use mnodes::{NodeStore, Plain};
use mstore::Table;
use mtranscript::{play, print_result, remove, text_of, words_of};
use sqlite_disk::Unknown;
use std::alloc::Global;
use std::rt::HostRuntime;

const FILE: &str = "transcripts_drawn.db";

const LOG: &str = "transcripts_drawn.db-wal";

const WORDS: [&str; 10] = ["1", "2", "10", ".5", "-1", "A", "B", "AB", "01", "a"];

/// For each case, a seed and a count, prints how many answers of the plain store and of a table in memory, and of the plain store
/// and of a table in a file, differ: in `count` drawn questions, after `count` drawn puts, and a kill for each sixteen of them; and
/// then in a twentieth as many walks, of up to twenty steps with a question at each, and a put or a kill at each eighth.
///
/// # Errors
///
/// If a case is not such a call, if a store fails, or if memory runs out.
pub fn play_drawn(rt: &HostRuntime, cases: &[&str], out: &mut Vec<u8>) -> anyhow::Result<()> {
    play(cases, out, |case, out| compared(rt, case, out))
}

// The case of a seed and a count.
fn compared(rt: &HostRuntime, case: &str, out: &mut Vec<u8>) -> anyhow::Result<()> {
    let words = words_of(rt.alloc(), case)?;
    let [seed, count] = words.as_slice() else {
        anyhow::bail!("no seed and count");
    };
    compare(rt, seed.parse()?, count.parse()?, out)
}

fn compare(rt: &HostRuntime, seed: u64, count: usize, out: &mut Vec<u8>) -> anyhow::Result<()> {
    let alloc = rt.alloc();
    let mut plain = Plain::new(alloc);
    let mut table = Table::open_memory(alloc)?;
    let found = differences(&mut plain, &mut table, alloc, seed, count)?;
    let told = format!(in alloc; "{found} differences in a table")?;
    print_result(out, told.as_bytes())?;
    remove(rt, FILE, LOG);
    let mut plain = Plain::new(alloc);
    let mut table = open_table(rt, FILE, Unknown)?;
    let found = differences(&mut plain, &mut table, alloc, seed, count);
    let closed = close_table(table);
    remove(rt, FILE, LOG);
    closed?;
    let found = found?;
    let told = format!(in alloc; "{found} differences in a file")?;
    print_result(out, told.as_bytes())
}

// The next of the drawn numbers.
pub(crate) fn draw(state: &mut u64) -> u64 {
    *state = state
        .wrapping_mul(6364136223846793005)
        .wrapping_add(1442695040888963407);
    *state >> 33
}

fn drawn_word(state: &mut u64) -> &'static str {
    WORDS[(draw(state) % 10) as usize]
}

// The key of a drawn node of up to three subscripts.
fn drawn_key(alloc: Global, state: &mut u64) -> anyhow::Result<NodeKey> {
    let words = [drawn_word(state), drawn_word(state), drawn_word(state)];
    let count = (draw(state) % 4) as usize;
    node(alloc, "G", &words[..count])
}

// Fills two empty stores alike, and counts the questions that they answer differently.
fn differences<S: NodeStore, T: NodeStore>(
    first: &mut S,
    second: &mut T,
    alloc: Global,
    seed: u64,
    count: usize,
) -> anyhow::Result<u64> {
    let mut state = seed;
    for _ in 0..count {
        change_both(first, second, alloc, &mut state)?;
    }
    let mut found = 0u64;
    for _ in 0..count {
        if !answers_alike(first, second, alloc, &mut state)? {
            found = found.saturating_add(1);
        }
    }
    for _ in 0..count / 20 {
        if !walks_alike(first, second, alloc, &mut state)? {
            found = found.saturating_add(1);
        }
    }
    Ok(found)
}

// Puts a drawn text at a drawn node, and at times kills a drawn node of two subscripts.
fn change_both<S: NodeStore, T: NodeStore>(
    first: &mut S,
    second: &mut T,
    alloc: Global,
    state: &mut u64,
) -> anyhow::Result<()> {
    let key = drawn_key(alloc, state)?;
    let text = text_of(alloc, drawn_word(state))?;
    put(first, &key, &text)?;
    put(second, &key, &text)?;
    if draw(state) % 16 != 0 {
        return Ok(());
    }
    let gone = node(alloc, "G", &[drawn_word(state), drawn_word(state)])?;
    first.kill(&gone).ok().context("not killed")?;
    second.kill(&gone).ok().context("not killed")
}

// Whether two stores have the same text at a drawn node, and the same neighbours from it to another.
fn answers_alike<S: NodeStore, T: NodeStore>(
    first: &mut S,
    second: &mut T,
    alloc: Global,
    state: &mut u64,
) -> anyhow::Result<bool> {
    let low = drawn_key(alloc, state)?;
    let high = drawn_key(alloc, state)?;
    let text = first.get(&low).ok().context("not read")?;
    let other = second.get(&low).ok().context("not read")?;
    Ok(text == other && same_neighbours(first, second, low.as_bytes(), high.as_bytes())?)
}

fn same_neighbours<S: NodeStore, T: NodeStore>(
    first: &mut S,
    second: &mut T,
    low: &[u8],
    high: &[u8],
) -> anyhow::Result<bool> {
    let after = first.next(low, high).ok().context("not read")?;
    let before = first.prev(low, high).ok().context("not read")?;
    let other_after = second.next(low, high).ok().context("not read")?;
    let other_before = second.prev(low, high).ok().context("not read")?;
    Ok(same(after, other_after) && same(before, other_before))
}

// Whether two stores give the same walk from a drawn node on, while both change alike.
fn walks_alike<S: NodeStore, T: NodeStore>(
    first: &mut S,
    second: &mut T,
    alloc: Global,
    state: &mut u64,
) -> anyhow::Result<bool> {
    let mut low = drawn_key(alloc, state)?.into_bytes();
    for _ in 0..20 {
        let after = first.next(&low, &[255]).ok().context("not read")?;
        let other = second.next(&low, &[255]).ok().context("not read")?;
        let Some(found) = after else {
            return Ok(other.is_none());
        };
        if !is_same(found.as_slice(), &other) || !answers_alike(first, second, alloc, state)? {
            return Ok(false);
        }
        if draw(state) % 8 == 0 {
            change_both(first, second, alloc, state)?;
        }
        low = found;
        low.push(1)?;
    }
    Ok(true)
}

fn is_same(left: &[u8], right: &Option<Vec<u8>>) -> bool {
    match right {
        Some(right) => right.as_slice() == left,
        None => false,
    }
}

fn same(left: Option<Vec<u8>>, right: Option<Vec<u8>>) -> bool {
    match (left, right) {
        (None, None) => true,
        (Some(left), Some(right)) => left.as_slice() == right.as_slice(),
        _ => false,
    }
}
