// SPDX-License-Identifier: Apache-2.0
// Texts, runs and strings, appended to the text of a line.
ghost use Rattle.std.specs.Prelude.{◌≡◌, ◌++◌, ◌<◌, OnOk, replicate};
ghost use Rattle.mgrammar.specs.Grammar.{quoted, spell_string};

use mnum::Bytes7;
use std::alloc::AllocError;

/// Appends a text.
///
/// # Errors
///
/// `AllocError` if it runs out of memory.
pub fn put_text(out: &mut Bytes7, text: &Bytes7) -> Result<(), AllocError>
    ensures { OnOk result (out.new ≡ out.old ++ text.now) }
{
    out.append(text.as_bytes())
}

// One byte, `count` times.
pub fn put_run(out: &mut Bytes7, byte: u8, count: usize) -> Result<(), AllocError>
    requires { byte < 128 }
    ensures { OnOk result (out.new ≡ out.old ++ replicate count byte) }
{
    for _ in 0..count {
        out.push(byte)?;
    }
    Ok(())
}

// The characters of a string, with each quote doubled.
fn put_quoted(out: &mut Bytes7, text: &Bytes7) -> Result<(), AllocError>
    ensures { OnOk result (out.new ≡ out.old ++ quoted text.now) }
{
    for byte in text.as_bytes() {
        if *byte == b'"' {
            out.push(b'"')?;
        }
        out.push(*byte)?;
    }
    Ok(())
}

/// Appends a text as a string: in quotes, with each quote doubled.
///
/// # Errors
///
/// `AllocError` if it runs out of memory; a first part of the string may then be there.
pub fn put_string(out: &mut Bytes7, text: &Bytes7) -> Result<(), AllocError>
    ensures { OnOk result (out.new ≡ out.old ++ spell_string text.now) }
{
    out.push(b'"')?;
    put_quoted(out, text)?;
    out.push(b'"')
}
