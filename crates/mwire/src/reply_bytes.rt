// SPDX-License-Identifier: Apache-2.0
// The bytes that show a reply.
ghost use Rattle.std.specs.Prelude.{◌≡◌, ◌+◌, ◌<◌, [], ◌∷◌, ◌++◌, length, drop, not, OnOk, OnErr, IfOk};
ghost use Rattle.std.specs.List.{list_all, position_or_len, slice_split};
ghost use Rattle.mworld.specs.View.{reply_of};
ghost use Rattle.mwire.specs.Wire as wire;
ghost use Rattle.mwire.specs.Wire.{is_escaped, shown_character, shown, output_text, is_line_end, reply_text};

use crate::ending::push_ending;
use itoa::Buffer;
use memchr::memchr;
use mworld::{LINE_END, Reply};
use std::alloc::{AllocError, Global};

// How many characters are looked at together at most, and at least: fewer are done sooner one by one.
const BLOCK: usize = 64;

const FEW: usize = 8;

/// Appends the bytes that show a terminal's reply: its output, line by line, and how it ended.
///
/// If memory runs out, it answers an error, and `out` is as before.
pub fn push_reply(out: &mut Vec<u8>, terminal: u32, reply: &Reply) -> Result<(), AllocError>
    ensures ok { OnOk result (out.new.items ≡ out.old.items ++ reply_text terminal (reply_of reply.now)) }
    ensures err { OnErr result (out.new.items ≡ out.old.items) }
{
    let bytes = reply_bytes(*out.allocator(), terminal, reply)?;
    out.extend_from_slice(&bytes)
}

/// The bytes that show a terminal's reply.
pub fn reply_bytes(alloc: Global, terminal: u32, reply: &Reply) -> Result<Vec<u8>, AllocError>
    ensures { IfOk result (λ bytes. bytes.items ≡ reply_text terminal (reply_of reply.now)) }
{
    let mut bytes = Vec::new(alloc);
    push_bytes(&mut bytes, terminal, reply)?;
    Ok(bytes)
}

// Appends them. If memory runs out, `out` has a front of them too.
pub(crate) fn push_bytes(out: &mut Vec<u8>, terminal: u32, reply: &Reply) -> Result<(), AllocError>
    ensures { OnOk result (out.new.items ≡ out.old.items ++ reply_text terminal (reply_of reply.now)) }
{
    let mut buffer = Buffer::new();
    let digits = buffer.format(terminal).as_bytes();
    push_output(out, digits, &reply.out)?;
    out.extend_from_slice(digits)?;
    push_ending(out, reply.ending)?;
    out.push(b'\n')?;
    Ok(())
}

// Appends the lines of an output, and the rest, which no line end ends, unless it is empty.
fn push_output(out: &mut Vec<u8>, digits: &[u8], output: &[u8]) -> Result<(), AllocError>
    ensures { OnOk result (out.new.items ≡ out.old.items ++ output_text digits.now (slice_split is_line_end output.now)) }
{
    let mut rest = output;
    let mut end = line_length(rest);
    while end < rest.len() {
        push_line(out, digits, b':', &rest[..end])?;
        rest = behind(rest, end);
        end = line_length(rest);
    }
    if rest.is_empty() {
        return Ok(());
    }
    push_line(out, digits, b'-', rest)
}

// What comes after the end of a line.
fn behind(output: &[u8], end: usize) -> &[u8]
    requires { end < length output.now }
    ensures { result.now ≡ drop (end + 1) output.now }
{
    &output[end + 1..]
}

// How many bytes come before the first end of a line.
fn line_length(output: &[u8]) -> usize
    ensures { result ≡ position_or_len is_line_end output.now }
{
    if output.len() >= FEW {
        return match memchr(LINE_END, output) {
            Some(end) => end,
            None => output.len(),
        };
    }
    for (i, b) in output.iter().enumerate() {
        if *b == LINE_END {
            return i;
        }
    }
    output.len()
}

// Appends a line of a reply: the terminal's digits, a mark and the text.
fn push_line(out: &mut Vec<u8>, digits: &[u8], mark: u8, text: &[u8]) -> Result<(), AllocError>
    ensures { OnOk result (out.new.items ≡ out.old.items ++ digits.now ++ mark ∷ shown text.now ++ 10 ∷ []) }
{
    out.extend_from_slice(digits)?;
    out.push(mark)?;
    push_shown(out, text)?;
    out.push(b'\n')?;
    Ok(())
}

// Appends a text as a reply shows it.
fn push_shown(out: &mut Vec<u8>, text: &[u8]) -> Result<(), AllocError>
    ensures { OnOk result (out.new.items ≡ out.old.items ++ shown text.now) }
{
    let mut rest = text;
    while rest.len() > BLOCK {
        let (block, more) = rest.split_at(BLOCK);
        push_block(out, block)?;
        rest = more;
    }
    push_block(out, rest)
}

// Appends a block of a text: at once, unless a character of it is escaped.
fn push_block(out: &mut Vec<u8>, block: &[u8]) -> Result<(), AllocError>
    ensures { OnOk result (out.new.items ≡ out.old.items ++ shown block.now) }
{
    if block.len() >= FEW && is_plain(block) {
        return out.extend_from_slice(block);
    }
    for c in block {
        push_character(out, *c)?;
    }
    Ok(())
}

// Whether no character of a block is escaped. It looks at all of them, so that the compiler compares many together.
fn is_plain(block: &[u8]) -> bool
    ensures { result ≡ list_all (λ c. not (is_escaped c)) block.now }
{
    let mut plain = true;
    for c in block {
        plain &= is_shown(*c);
    }
    plain
}

// Whether a character is shown as it is.
#[inline]
fn is_shown(c: u8) -> bool
    ensures { result ≡ not (is_escaped c) }
{
    c >= 32 && c != 127 && c != b'\\'
}

// Appends a character, or the backslash and the two digits that stand for it.
fn push_character(out: &mut Vec<u8>, c: u8) -> Result<(), AllocError>
    ensures { OnOk result (out.new.items ≡ out.old.items ++ shown_character c) }
{
    if is_shown(c) {
        out.push(c)?;
        return Ok(());
    }
    out.push(b'\\')?;
    out.push(hex_digit(c / 16))?;
    out.push(hex_digit(c % 16))?;
    Ok(())
}

fn hex_digit(n: u8) -> u8
    requires { n < 16 }
    ensures { result ≡ wire.hex_digit n }
{
    if n < 10 { b'0' + n } else { b'A' + (n - 10) }
}
