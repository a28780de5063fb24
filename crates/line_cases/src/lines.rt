// SPDX-License-Identifier: Apache-2.0
// Lines of the wire, with their replies.
use crate::failing::{FailingWorld, ample_world, world_of};
use anyhow::Context;
use mgrant::{AccountId, Settings};
use mnodes::NodeStore;
use mtranscript::{bytes_of, play, print_result, print_results};
use mwire::{Watched, serve, serve_only};
use mworld::World;
use std::alloc::Global;

/// The cases of a block of lines, and what they are played by.
#[derive(Clone, Copy)]
pub struct Lines<'a> {
    /// The document of the settings.
    pub document: &'a [u8],
    /// The name of the account whose replies are shown, or in whose session references are resolved.
    pub account: &'a [u8],
    /// The cases.
    pub cases: &'a [&'a str],
}

// The bytes of a line: a line feed ends it, unless `{end}` is at its end.
pub(crate) fn line_bytes(alloc: Global, case: &str) -> anyhow::Result<Vec<u8>> {
    match case.strip_suffix("{end}") {
        Some(unfinished) => bytes_of(alloc, unfinished),
        None => {
            let mut line = bytes_of(alloc, case)?;
            line.push(b'\n')?;
            Ok(line)
        }
    }
}

// Lines that are served again and again in new worlds, and the document of the settings.
#[derive(Clone, Copy)]
pub(crate) struct Stream<'a> {
    pub document: &'a [u8],
    pub lines: &'a [Vec<u8>],
}

// The lines of cases, which are printed.
pub(crate) fn lines_of(
    alloc: Global,
    cases: &[&str],
    out: &mut Vec<u8>,
) -> anyhow::Result<Vec<Vec<u8>>> {
    let mut lines = Vec::new(alloc);
    play(cases, out, |case, _| {
        lines.push(line_bytes(alloc, case)?)?;
        Ok(())
    })?;
    Ok(lines)
}

// What a world answers to bytes.
pub(crate) fn answer_of<S: NodeStore>(
    alloc: Global,
    world: &mut World<S>,
    bytes: &[u8],
) -> anyhow::Result<Vec<u8>> {
    let mut answer = Vec::new(alloc);
    let mut writer = Watched::new(&mut answer);
    serve(alloc, world, &mut Watched::new(bytes), &mut writer)?;
    Ok(answer)
}

/// Serves all lines as one stream, by the settings of the document, and prints them, then what the account is shown, and whether
/// no line of an account that reaches it was lost. A case `cache ..` says over which store, as for `play_cached_lines`.
///
/// # Errors
///
/// If the document gives no settings or has no such account, or if memory runs out.
pub fn play_told(alloc: Global, block: &Lines, out: &mut Vec<u8>) -> anyhow::Result<()> {
    let account = account_of(alloc, block)?;
    let mut world = ample_world(alloc, block.document)?;
    told(alloc, block, &mut world, account, out)
}

// The account whose replies are shown.
fn account_of(alloc: Global, block: &Lines) -> anyhow::Result<AccountId> {
    let settings = Settings::read(alloc, block.document)?;
    settings
        .account_named(block.account)
        .context("no such account")
}

// Plays the cases over a world that is lent, so that it is dropped in one place.
fn told(
    alloc: Global,
    block: &Lines,
    world: &mut FailingWorld,
    account: AccountId,
    out: &mut Vec<u8>,
) -> anyhow::Result<()> {
    let mut lines = Vec::new(alloc);
    play(block.cases, out, |case, _| {
        match case.strip_prefix("cache ") {
            Some(words) => *world = world_of(alloc, block.document, words)?,
            None => lines.extend_from_slice(&line_bytes(alloc, case)?)?,
        }
        Ok(())
    })?;
    let stream: &[u8] = &lines;
    let mut answer = Vec::new(alloc);
    let mut writer = Watched::new(&mut answer);
    let whole = serve_only(
        alloc,
        world,
        account,
        &mut Watched::new(stream),
        &mut writer,
    )?;
    print_results(alloc, out, &answer)?;
    print_result(out, if whole { b"whole" } else { b"not whole" })
}
