// SPDX-License-Identifier: Apache-2.0
// Keys of nodes, and the order of subscripts.
use anyhow::Context;
use mkey::{KeyFault, NodeKey, collate, is_account_name, is_name, read, subs_ok};
use mnum::Bytes7;
use mtranscript::{key_of, play_each, text_of, texts_of, words_of};
use std::alloc::Global;
use std::cmp::Ordering;

/// For each case, a call with its arguments, prints what it gives.
///
/// # Errors
///
/// If a case is not such a call, or if memory runs out.
pub fn play_keys(alloc: Global, cases: &[&str], out: &mut Vec<u8>) -> anyhow::Result<()> {
    play_each(cases, out, |case| given(alloc, &words_of(alloc, case)?))
}

fn given(alloc: Global, words: &[&str]) -> anyhow::Result<Vec<u8>> {
    match words {
        ["key", account, name, subs @ ..] => key(alloc, account, name, subs),
        ["bounds", account, name, subs @ ..] => bounds(alloc, account, name, subs),
        ["subscripts", subs @ ..] => subscripts(alloc, subs),
        ["name", word] => names(alloc, word),
        ["order", subs @ ..] => order(alloc, subs),
        ["changed", digits] => changed(alloc, &hex::decode(alloc, *digits)?),
        _ => anyhow::bail!("no call on keys"),
    }
}

fn built(alloc: Global, account: &str, name: &str, subs: &[&str]) -> anyhow::Result<NodeKey> {
    let subs = texts_of(alloc, subs)?;
    key_of(
        alloc,
        &text_of(alloc, account)?,
        &text_of(alloc, name)?,
        &subs,
    )
}

// Whether bytes are read as a node whose key they are.
fn is_read(alloc: Global, bytes: &[u8]) -> anyhow::Result<bool> {
    match read(alloc, bytes)? {
        None => Ok(false),
        Some((account, name, subs)) => {
            let again = key_of(alloc, &account, &name, subs.as_slice())?;
            anyhow::ensure!(again.as_bytes() == bytes, "another key");
            Ok(true)
        }
    }
}

// The bytes of a key, which is read back as its node, and equal to its copy.
fn key(alloc: Global, account: &str, name: &str, subs: &[&str]) -> anyhow::Result<Vec<u8>> {
    let made = built(alloc, account, name, subs)?;
    let (read_account, read_name, read_subs) = read(alloc, made.as_bytes())?.context(
        "a key that is not read",
    )?;
    anyhow::ensure!(read_account == text_of(alloc, account)?, "another account");
    anyhow::ensure!(read_name == text_of(alloc, name)?, "another name");
    let wanted = texts_of(alloc, subs)?;
    anyhow::ensure!(
        read_subs.as_slice() == wanted.as_slice(),
        "other subscripts"
    );
    anyhow::ensure!(made.copy()? == made, "another copy");
    digits_of(alloc, made.as_bytes())
}

// The end of a subtree, and the bounds of what is below.
fn bounds(alloc: Global, account: &str, name: &str, subs: &[&str]) -> anyhow::Result<Vec<u8>> {
    let made = built(alloc, account, name, subs)?;
    let (low, high) = made.child_bounds(alloc)?;
    let mut out = digits_of(alloc, &made.after_subtree(alloc)?)?;
    out.push(b' ')?;
    out.extend_from_slice(&digits_of(alloc, &low)?)?;
    out.push(b' ')?;
    out.extend_from_slice(&digits_of(alloc, &high)?)?;
    Ok(out)
}

fn digits_of(alloc: Global, bytes: &[u8]) -> anyhow::Result<Vec<u8>> {
    Ok(hex::encode(alloc, bytes)?.as_bytes().to_vec(alloc)?)
}

// Whether subscripts are taken, both by the test and for a key.
fn subscripts(alloc: Global, subs: &[&str]) -> anyhow::Result<Vec<u8>> {
    let subs = texts_of(alloc, subs)?;
    let (account, name) = (text_of(alloc, "A")?, text_of(alloc, "B")?);
    if !is_account_name(&account) || !is_name(&name) {
        anyhow::bail!("no names of a node");
    }
    let told: &[u8] = match NodeKey::build(alloc, &account, &name, &subs) {
        Ok(_) if subs_ok(&subs) => b"taken",
        Err(KeyFault::Sub) if !subs_ok(&subs) => b"refused",
        _ => b"told apart",
    };
    Ok(told.to_vec(alloc)?)
}

fn names(alloc: Global, word: &str) -> anyhow::Result<Vec<u8>> {
    let word = text_of(alloc, word)?;
    let told: &[u8] = match (is_account_name(&word), is_name(&word)) {
        (true, true) => b"of an account and of a global",
        (true, false) => b"of an account",
        (false, true) => b"of a global",
        (false, false) => b"no",
    };
    Ok(told.to_vec(alloc)?)
}

// How many pairs of texts, taken from a list, do not compare as their places do.
fn order(alloc: Global, subs: &[&str]) -> anyhow::Result<Vec<u8>> {
    let texts = texts_of(alloc, subs)?;
    let mut wrong: u32 = 0;
    for (i, left) in texts.iter().enumerate() {
        for (j, right) in texts.iter().enumerate() {
            if collate(left, right) != i.cmp(&j) {
                wrong = wrong.saturating_add(1);
            }
        }
    }
    let told = format!(in alloc; "{wrong} pairs out of order")?;
    Ok(told.as_bytes().to_vec(alloc)?)
}

// How many beginnings of bytes are keys, and how many of the results of changing one byte are.
fn changed(alloc: Global, bytes: &[u8]) -> anyhow::Result<Vec<u8>> {
    let mut prefixes: u32 = 0;
    for length in 0..=bytes.len() {
        if is_read(alloc, &bytes[..length])? {
            prefixes = prefixes.saturating_add(1);
        }
    }
    let mut changes: u32 = 0;
    for place in 0..bytes.len() {
        changes = changes.saturating_add(changed_at(alloc, bytes, place)?);
    }
    let told = format!(in alloc; "{prefixes} beginnings, {changes} changes")?;
    Ok(told.as_bytes().to_vec(alloc)?)
}

// How many keys another byte at this place makes.
fn changed_at(alloc: Global, bytes: &[u8], place: usize) -> anyhow::Result<u32> {
    let mut changed = bytes.to_vec(alloc)?;
    let mut found: u32 = 0;
    for code in 0..=255u8 {
        if place < changed.len() && bytes.get(place) != Some(&code) {
            changed[place] = code;
            if is_read(alloc, &changed)? {
                found = found.saturating_add(1);
            }
        }
    }
    Ok(found)
}
