// SPDX-License-Identifier: Apache-2.0
// The bytes that a case stands for.
use anyhow::Context;
use std::alloc::Global;

/// The bytes of a case, with each escape replaced by what it stands for.
///
/// # Errors
///
/// If an escape is invalid or does not end, or if memory runs out.
pub fn bytes_of(alloc: Global, case: &str) -> anyhow::Result<Vec<u8>> {
    let mut out = Vec::new(alloc);
    for (i, part) in case.split('{').enumerate() {
        let plain = if i == 0 {
            part
        } else {
            let (escape, plain) = part.split_once('}').context("an open escape")?;
            push_escape(&mut out, escape)?;
            plain
        };
        out.extend_from_slice(plain.as_bytes())?;
    }
    Ok(out)
}

fn push_escape(out: &mut Vec<u8>, escape: &str) -> anyhow::Result<()> {
    if let Some((count, text)) = escape.split_once('*') {
        for _ in 0..count.parse::<u32>()? {
            out.extend_from_slice(text.as_bytes())?;
        }
    } else if !escape.is_empty() {
        out.push(u8::from_str_radix(escape, 16)?)?;
    }
    Ok(())
}
