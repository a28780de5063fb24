// SPDX-License-Identifier: Apache-2.0
// What is printed: cases, and below each what it gives.
use std::alloc::Global;

/// Adds a line.
///
/// # Errors
///
/// Out of memory.
pub fn print(out: &mut Vec<u8>, line: &[u8]) -> anyhow::Result<()> {
    out.extend_from_slice(line)?;
    out.push(b'\n')?;
    Ok(())
}

/// Adds a case, and says whether it is one: a comment is only printed.
///
/// # Errors
///
/// Out of memory.
pub fn print_case(out: &mut Vec<u8>, case: &str) -> anyhow::Result<bool> {
    print(out, case.as_bytes())?;
    Ok(!case.starts_with("# "))
}

/// Adds a line of what came.
///
/// # Errors
///
/// Out of memory.
pub fn print_result(out: &mut Vec<u8>, line: &[u8]) -> anyhow::Result<()> {
    out.extend_from_slice(b"    ")?;
    print(out, line)
}

/// Adds each line of what came; a last one that is not ended is marked as such.
///
/// # Errors
///
/// Out of memory.
pub fn print_results(alloc: Global, out: &mut Vec<u8>, lines: &[u8]) -> anyhow::Result<()> {
    let mut line = Vec::new(alloc);
    for byte in lines {
        if *byte == b'\n' {
            print_result(out, &line)?;
            line.clear();
        } else {
            line.push(*byte)?;
        }
    }
    if !line.is_empty() {
        line.extend_from_slice(b" (no end of line)")?;
        print_result(out, &line)?;
    }
    Ok(())
}

/// Adds the lines of what came another way, below what is said of that way, if they are not those that were given.
///
/// # Errors
///
/// Out of memory.
pub fn print_others(
    alloc: Global,
    told: &str,
    others: &[u8],
    given: &[u8],
    out: &mut Vec<u8>,
) -> anyhow::Result<()> {
    if others == given {
        return Ok(());
    }
    print_result(out, told.as_bytes())?;
    print_results(alloc, out, others)
}
