// SPDX-License-Identifier: Apache-2.0
// What the language asks of globals, over any store.
use anyhow::Context;
use mglobal::{neighbour, routine, status};
use mkey::{Direction, NodeKey, is_account_name, is_name, order_values_ok};
use mnodes::NodeStore;
use mnum::Bytes7;
use mtranscript::{data_word, text_of};
use mvalue::Value;
use std::alloc::Global;

/// What $DATA gives of a node.
pub fn data<S: NodeStore>(
    store: &mut S,
    alloc: Global,
    key: &NodeKey,
) -> anyhow::Result<&'static str> {
    let found = status(store, alloc, key).ok().context("not read")?;
    Ok(data_word(found.descendants, found.value))
}

// The words as values.
fn values_of(alloc: Global, words: &[&str]) -> anyhow::Result<Vec<Value>> {
    let mut values = Vec::new(alloc);
    for word in words {
        values.push(Value::of_text(text_of(alloc, word)?))?;
    }
    Ok(values)
}

/// What $ORDER finds of a global of an account: `none` if there is nothing more. The last of the subscripts may be empty.
pub fn order<S: NodeStore>(
    store: &mut S,
    alloc: Global,
    account: &Bytes7,
    name: &str,
    subs: &[&str],
    direction: Direction,
) -> anyhow::Result<Bytes7> {
    let name = text_of(alloc, name)?;
    let subs = values_of(alloc, subs)?;
    if !is_account_name(account) || !is_name(&name) || !order_values_ok(&subs) {
        anyhow::bail!("no walk");
    }
    let found = neighbour(store, alloc, account.as_bytes(), &name, &subs, direction);
    match found.ok().context("not read")? {
        Some(next) => Ok(next.into_text(alloc)?),
        None => text_of(alloc, "none"),
    }
}

/// The lines of an account's routine, each in brackets.
pub fn lines<S: NodeStore>(
    store: &mut S,
    alloc: Global,
    account: &Bytes7,
    name: &str,
) -> anyhow::Result<Vec<u8>> {
    let name = text_of(alloc, name)?;
    if !is_account_name(account) || !is_name(&name) {
        anyhow::bail!("no routine");
    }
    let lines = routine(store, alloc, account, &name)
        .ok()
        .context("not read")?;
    let mut out = Vec::new(alloc);
    for line in &lines {
        out.push(b'[')?;
        out.extend_from_slice(line.as_bytes())?;
        out.push(b']')?;
    }
    Ok(out)
}
