// SPDX-License-Identifier: Apache-2.0
// Calls on stores, each over the plain store, a table in memory and a table in a file.
use crate::globals::{data, lines, order};
use anyhow::Context;
use mfile::{close_table, open_table};
use mkey::{Direction, NodeKey, read};
use mnodes::{NodeStore, Plain};
use mnum::Bytes7;
use mspec::limits::MAX_TEXT;
use mstore::Table;
use mtranscript::{
    key_of, play, print, print_others, print_result, remove, text_of, texts_of, words_of,
};
use sqlite::Alter;
use sqlite_disk::Unknown;
use std::alloc::Global;
use std::rt::HostRuntime;

const FILE: &str = "transcripts_stores.db";

const LOG: &str = "transcripts_stores.db-wal";

/// Plays calls one after another over the plain store, and prints what they give. Does the same over a table in memory that is
/// opened again before each call, over one that stays, so that it reads ahead, and over one in a file that is closed and opened
/// again; if they give something else, it is printed too.
///
/// # Errors
///
/// If a case is not such a call, if a store fails, or if memory runs out.
pub fn play_stores(rt: &HostRuntime, cases: &[&str], out: &mut Vec<u8>) -> anyhow::Result<()> {
    let alloc = rt.alloc();
    let mut plain = Plain::new(alloc);
    let mut given = Vec::new(alloc);
    play(cases, out, |case, out| {
        let answer = call(&mut plain, alloc, case)?;
        print_answer(out, &answer)?;
        print(&mut given, &answer)
    })?;
    let in_memory = over_table(alloc, Table::open_memory(alloc)?, cases)?;
    print_others(alloc, "in a table:", &in_memory, &given, out)?;
    let in_one = over_one_table(alloc, Table::open_memory(alloc)?, cases)?;
    print_others(alloc, "in a table that reads ahead:", &in_one, &given, out)?;
    remove(rt, FILE, LOG);
    let in_a_file = in_a_file(rt, cases);
    remove(rt, FILE, LOG);
    print_others(alloc, "in a file:", &in_a_file?, &given, out)
}

// Adds what a call answers, if that is something.
pub(crate) fn print_answer(out: &mut Vec<u8>, answer: &[u8]) -> anyhow::Result<()> {
    if answer.is_empty() {
        return Ok(());
    }
    print_result(out, answer)
}

// What the calls give over a table, which is made again from its connection before each.
fn over_table<S: Alter + Drop>(
    alloc: Global,
    mut table: Table<S>,
    cases: &[&str],
) -> anyhow::Result<Vec<u8>> {
    let mut given = Vec::new(alloc);
    for case in cases {
        if !case.starts_with("# ") {
            print(&mut given, &call(&mut table, alloc, case)?)?;
        }
        table = match Table::adopt(alloc, table.into_connection()) {
            Ok(again) => again,
            Err(_) => anyhow::bail!("a table that is not adopted"),
        };
    }
    Ok(given)
}

// What the calls give over a table that stays.
fn over_one_table<S: Alter + Drop>(
    alloc: Global,
    mut table: Table<S>,
    cases: &[&str],
) -> anyhow::Result<Vec<u8>> {
    let mut given = Vec::new(alloc);
    for case in cases {
        if !case.starts_with("# ") {
            print(&mut given, &call(&mut table, alloc, case)?)?;
        }
    }
    Ok(given)
}

// What the calls give over a table in a file, which is opened before each and closed after it.
fn in_a_file(rt: &HostRuntime, cases: &[&str]) -> anyhow::Result<Vec<u8>> {
    let mut given = Vec::new(rt.alloc());
    for case in cases {
        if !case.starts_with("# ") {
            let mut table = open_table(rt, FILE, Unknown)?;
            print(&mut given, &call(&mut table, rt.alloc(), case)?)?;
            close_table(table)?;
        }
    }
    Ok(given)
}

/// The account whose globals are meant if a name has none.
pub const ACCOUNT: &str = "ALICE";

/// The key of a global of ALICE.
pub fn node(alloc: Global, name: &str, subs: &[&str]) -> anyhow::Result<NodeKey> {
    let (account, name) = (text_of(alloc, ACCOUNT)?, text_of(alloc, name)?);
    key_of(alloc, &account, &name, &texts_of(alloc, subs)?)
}

/// Puts a text at a node.
pub fn put<S: NodeStore>(store: &mut S, key: &NodeKey, text: &Bytes7) -> anyhow::Result<()> {
    if text.as_bytes().len() > MAX_TEXT {
        anyhow::bail!("a long text");
    }
    store.put(key, text).ok().context("not put")
}

/// Carries out a call, and gives what it answers: nothing for put and kill.
pub fn call<S: NodeStore>(store: &mut S, alloc: Global, case: &str) -> anyhow::Result<Vec<u8>> {
    let words = words_of(alloc, case)?;
    let mut out = Vec::new(alloc);
    match words.as_slice() {
        ["put", name, subs @ .., "=", text] => {
            put(store, &node(alloc, name, subs)?, &text_of(alloc, text)?)?;
        }
        ["kill", name, subs @ ..] => {
            store
                .kill(&node(alloc, name, subs)?)
                .ok()
                .context("not killed")?;
        }
        ["get", name, subs @ ..] => push_text(store, &node(alloc, name, subs)?, &mut out)?,
        ["walk", name, subs @ ..] => {
            let key = node(alloc, name, subs)?;
            push_walk(store, alloc, &key, Direction::Forward, &mut out)?;
        }
        ["back", name, subs @ ..] => {
            let key = node(alloc, name, subs)?;
            push_walk(store, alloc, &key, Direction::Backward, &mut out)?;
        }
        [what, name, subs @ ..] => return asked(store, alloc, what, name, subs),
        _ => anyhow::bail!("no call on stores"),
    }
    Ok(out)
}

// What the language asks of a global of ALICE.
fn asked<S: NodeStore>(
    store: &mut S,
    alloc: Global,
    what: &str,
    name: &str,
    subs: &[&str],
) -> anyhow::Result<Vec<u8>> {
    let account = text_of(alloc, ACCOUNT)?;
    let mut out = Vec::new(alloc);
    match what {
        "data" => {
            let key = node(alloc, name, subs)?;
            out.extend_from_slice(data(store, alloc, &key)?.as_bytes())?;
        }
        "order" => {
            let next = order(store, alloc, &account, name, subs, Direction::Forward)?;
            out.extend_from_slice(next.as_bytes())?;
        }
        "order-back" => {
            let next = order(store, alloc, &account, name, subs, Direction::Backward)?;
            out.extend_from_slice(next.as_bytes())?;
        }
        "routine" => return lines(store, alloc, &account, name),
        _ => anyhow::bail!("no call on stores"),
    }
    Ok(out)
}

// Adds the text of a node, or `none` if it has none.
fn push_text<S: NodeStore>(store: &mut S, key: &NodeKey, out: &mut Vec<u8>) -> anyhow::Result<()> {
    match store.get(key).ok().context("not read")? {
        None => out.extend_from_slice(b"none")?,
        Some(text) => out.extend_from_slice(text.as_bytes())?,
    }
    Ok(())
}

// Adds the last subscript of a key, and a blank.
fn push_last(alloc: Global, bytes: &[u8], out: &mut Vec<u8>) -> anyhow::Result<()> {
    let (_, _, subs) = read(alloc, bytes)?.context("no key of a node")?;
    let last = subs.as_slice().last().context("a node without subscripts")?;
    out.extend_from_slice(last.as_bytes())?;
    out.push(b' ')?;
    Ok(())
}

// Adds the last subscripts of the nodes below one: forward, passing over what is below each, or backward, with what is below each.
fn push_walk<S: NodeStore>(
    store: &mut S,
    alloc: Global,
    key: &NodeKey,
    direction: Direction,
    out: &mut Vec<u8>,
) -> anyhow::Result<()> {
    let (mut low, mut high) = key.child_bounds(alloc)?;
    for _ in 0..100 {
        let found = match direction {
            Direction::Forward => store.next(&low, &high),
            Direction::Backward => store.prev(&low, &high),
        };
        let Some(found) = found.ok().context("not read")? else {
            return Ok(());
        };
        push_last(alloc, &found, out)?;
        match direction {
            Direction::Forward => {
                low = found;
                low.push(b'\x03')?;
            }
            Direction::Backward => high = found,
        }
    }
    Ok(())
}
