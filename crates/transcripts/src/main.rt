// SPDX-License-Identifier: Apache-2.0
//! Plays the blocks of transcripts of its standard input, and prints them with what their cases give. The settings of lines lie where it runs.
#![tactic(auto)]

use line_cases::Lines;
use mtranscript::{Block, blocks_of, print};
use std::io::Write;
use std::{fs, io};

fn main(rt: HostRuntime) -> anyhow::Result<()> {
    let text = io::read_to_string(rt.alloc(), rt.stdin())?;
    let mut out = Vec::new(rt.alloc());
    for (i, block) in blocks_of(rt.alloc(), text.as_str())?.iter().enumerate() {
        if i > 0 {
            out.push(b'\n')?;
        }
        print(&mut out, block.header.as_bytes())?;
        play(&rt, block, &mut out)?;
    }
    rt.stdout().write_all(&out)?;
    Ok(())
}

// Plays the cases of a block, and adds them with what came.
fn play(rt: &HostRuntime, block: &Block, out: &mut Vec<u8>) -> anyhow::Result<()> {
    let alloc = rt.alloc();
    let cases = block.cases.as_slice();
    match block.kind {
        "numbers" => part_cases::play_numbers(alloc, cases, out),
        "keys" => part_cases::play_keys(alloc, cases, out),
        "locals" => part_cases::play_locals(alloc, cases, out),
        "locks" => part_cases::play_locks(alloc, cases, out),
        "settings" => part_cases::play_settings(alloc, cases, out),
        "texts" => text_cases::play_texts(alloc, cases, out),
        "routine_lines" => text_cases::play_routine_lines(alloc, 0, cases, out),
        "formal_lines" => text_cases::play_routine_lines(alloc, 1, cases, out),
        "trees" => text_cases::play_trees(alloc, cases, out),
        "stores" => store_cases::play_stores(rt, cases, out),
        "cached" => store_cases::play_cached(alloc, cases, out),
        "copies" => store_cases::play_copies(alloc, cases, out),
        "drawn" => store_cases::play_drawn(rt, cases, out),
        "database" => store_cases::play_database(alloc, cases, out),
        "migration_stops" => store_cases::play_migration_stops(alloc, cases, out),
        "reached" => store_cases::play_reached(alloc, cases, out),
        kind => play_lines(rt, kind, cases, out),
    }
}

// Plays lines, by the settings of their kind.
fn play_lines(
    rt: &HostRuntime,
    kind: &str,
    cases: &[&str],
    out: &mut Vec<u8>,
) -> anyhow::Result<()> {
    let (settings, account) = match kind {
        "references" | "devices" => ("one_account.toml", "ALICE"),
        _ => ("three_terminals.toml", "BOB"),
    };
    let document = fs::read(rt, settings)?;
    let alloc = rt.alloc();
    let block = Lines {
        document: document.as_slice(),
        account: account.as_bytes(),
        cases,
    };
    match kind {
        "told" => line_cases::play_told(alloc, &block, out),
        "cached_lines" => line_cases::play_cached_lines(alloc, &block, out),
        "outsiders" => line_cases::play_outsiders(alloc, &block, out),
        "stops" => line_cases::play_stops(alloc, &block, out),
        "connections" => line_cases::play_connections(alloc, &block, out),
        "devices" => line_cases::play_devices(alloc, &block, out),
        "references" => line_cases::play_references(alloc, &block, out),
        _ => anyhow::bail!("no such kind of block"),
    }
}
