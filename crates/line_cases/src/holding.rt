// SPDX-License-Identifier: Apache-2.0
// All that a store holds.
use anyhow::Context;
use mkey::read;
use mnodes::NodeStore;
use mtranscript::{key_of, print};
use std::alloc::Global;

// More nodes than the lines make.
const MOST: usize = 1000;

// The bytes of each key, and its text.
pub(crate) fn held<S: NodeStore>(alloc: Global, store: &mut S) -> anyhow::Result<Vec<u8>> {
    let mut out = Vec::new(alloc);
    let mut low = Vec::new(alloc);
    for _ in 0..MOST {
        let Some(found) = store.next(&low, b"\xff").ok().context("not read")? else {
            return Ok(out);
        };
        print(&mut out, &found)?;
        print(&mut out, &text_at(alloc, store, &found)?)?;
        low = found;
        low.push(0)?;
    }
    anyhow::bail!("nodes without end")
}

// The text at a key.
fn text_at<S: NodeStore>(alloc: Global, store: &mut S, bytes: &[u8]) -> anyhow::Result<Vec<u8>> {
    let (account, name, subs) = read(alloc, bytes)?.context("no key of a node")?;
    let key = key_of(alloc, &account, &name, subs.as_slice())?;
    let text = store.get(&key).ok().context("not read")?;
    let text = text.context("no text")?;
    Ok(text.as_bytes().to_vec(alloc)?)
}
