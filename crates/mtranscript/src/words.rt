// SPDX-License-Identifier: Apache-2.0
// The words of a case: texts, names and keys of nodes.
use crate::escapes::bytes_of;
use anyhow::Context;
use mkey::{NodeKey, is_account_name, is_name};
use mnum::{Bytes7, Name};
use std::alloc::Global;

/// The words of a case, between single spaces.
///
/// # Errors
///
/// Out of memory.
pub fn words_of<'a>(alloc: Global, case: &'a str) -> anyhow::Result<Vec<&'a str>> {
    Ok(case.split(' ').collect(alloc)?)
}

/// The text of a word, in which `-` stands for the empty text.
///
/// # Errors
///
/// If the word is not ASCII, or if memory runs out.
pub fn text_of(alloc: Global, word: &str) -> anyhow::Result<Bytes7> {
    let bytes = bytes_of(alloc, if word == "-" { "" } else { word })?;
    Bytes7::new(bytes).ok().context("a word that is not ASCII")
}

/// The texts of words.
///
/// # Errors
///
/// If a word is not ASCII, or if memory runs out.
pub fn texts_of(alloc: Global, words: &[&str]) -> anyhow::Result<Vec<Bytes7>> {
    let mut out = Vec::new(alloc);
    for word in words {
        out.push(text_of(alloc, word)?)?;
    }
    Ok(out)
}

/// The name that a word is.
///
/// # Errors
///
/// If the word is not a name, or if memory runs out.
pub fn name_of(alloc: Global, word: &str) -> anyhow::Result<Name> {
    Name::new(text_of(alloc, word)?)
        .ok()
        .context("a word that is no name")
}

/// The names that words are.
///
/// # Errors
///
/// If a word is not a name, or if memory runs out.
pub fn names_of(alloc: Global, words: &[&str]) -> anyhow::Result<Vec<Name>> {
    let mut out = Vec::new(alloc);
    for word in words {
        out.push(name_of(alloc, word)?)?;
    }
    Ok(out)
}

/// The key of a node.
///
/// # Errors
///
/// If the account, the name or the subscripts are not those of a node, or if memory runs out.
pub fn key_of(
    alloc: Global,
    account: &Bytes7,
    name: &Bytes7,
    subs: &[Bytes7],
) -> anyhow::Result<NodeKey> {
    if !is_account_name(account) || !is_name(name) {
        anyhow::bail!("no names of a node");
    }
    NodeKey::build(alloc, account, name, subs)
        .ok()
        .context("no key")
}

/// What $DATA gives of a node that has descendants, or a value of its own, or both.
pub fn data_word(descendants: bool, value: bool) -> &'static str {
    match (descendants, value) {
        (false, false) => "0",
        (false, true) => "1",
        (true, false) => "10",
        (true, true) => "11",
    }
}

/// Adds a form, in which each `#` is the next of the numbers.
///
/// # Errors
///
/// Out of memory.
pub fn push_numbered(
    alloc: Global,
    out: &mut Vec<u8>,
    form: &[u8],
    numbers: &[usize],
) -> anyhow::Result<()> {
    let mut place = 0;
    for byte in form {
        if *byte != b'#' {
            out.push(*byte)?;
        } else if place < numbers.len() {
            out.extend_from_slice(numbers[place].to_string(alloc)?.as_bytes())?;
            place += 1;
        }
    }
    Ok(())
}

/// The text of such a form.
///
/// # Errors
///
/// If the form is not ASCII, or if memory runs out.
pub fn numbered(alloc: Global, form: &[u8], numbers: &[usize]) -> anyhow::Result<Bytes7> {
    let mut bytes = Vec::new(alloc);
    push_numbered(alloc, &mut bytes, form, numbers)?;
    Bytes7::new(bytes).ok().context("a form that is not ASCII")
}
