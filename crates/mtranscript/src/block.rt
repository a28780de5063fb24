// SPDX-License-Identifier: Apache-2.0
// Blocks of cases.
use anyhow::Context;
use std::alloc::Global;

/// A block of cases of one kind.
#[derive(Drop)]
pub struct Block<'a> {
    /// What kind of cases they are.
    pub kind: &'a str,
    /// The first line, which gives the kind and the block's name.
    pub header: &'a str,
    /// The lines after it: cases and comments.
    pub cases: Vec<&'a str>,
}

/// The blocks of a text.
///
/// # Errors
///
/// If a block's first line gives no kind, or if memory runs out.
pub fn blocks_of<'a>(alloc: Global, text: &'a str) -> anyhow::Result<Vec<Block<'a>>> {
    let mut out = Vec::new(alloc);
    for block in text.trim_end().split("\n\n") {
        out.push(block_of(alloc, block)?)?;
    }
    Ok(out)
}

fn block_of<'a>(alloc: Global, text: &'a str) -> anyhow::Result<Block<'a>> {
    let mut cases = Vec::new(alloc);
    let mut lines = text.lines();
    let header = lines.next().context("a block without a line")?;
    for line in lines {
        cases.push(line)?;
    }
    let (first, _) = header.split_once(':').context("a block without a kind")?;
    let kind = first.strip_prefix("== ").context("a block without a kind")?;
    Ok(Block {
        kind,
        header,
        cases,
    })
}
