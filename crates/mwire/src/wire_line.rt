// SPDX-License-Identifier: Apache-2.0
//! What becomes of a line of the wire.
ghost use Rattle.std.specs.Prelude.{◌≡◌};
ghost use Rattle.mwire.specs.Wire.{classify};
ghost use Rattle.mwire.specs.WireLines.{space_read, terminal_read, wire_line_in};

use mspec::limits::MAX_WIRE_LINE;

/// What becomes of a line.
#[derive(Clone, Copy)]
pub enum WireLine<'a> {
    /// It is empty, and nothing answers it.
    Ignored,
    /// It has more than 260 bytes, and is answered `?!ZLINE`.
    TooLong,
    /// It is not a terminal, a space and a text, and is answered `?!ZWIRE`.
    Unreadable,
    /// The terminal, 1 to 9999, and the text that is run for it, of any bytes, which may be empty.
    Runs(u32, &'a [u8]),
}

/// What becomes of a line, which is given without its line feed and the carriage return before that.
pub fn classify(line: &[u8]) -> WireLine<'_>
    ensures { wire_line_in result ≡ classify line.now }
{
    if line.is_empty() {
        return WireLine::Ignored;
    }
    if line.len() > MAX_WIRE_LINE {
        return WireLine::TooLong;
    }
    let Some(space) = first_space(line) else {
        return WireLine::Unreadable;
    };
    match terminal_of(&line[..space]) {
        Some(terminal) => WireLine::Runs(terminal, &line[space + 1..]),
        None => WireLine::Unreadable,
    }
}

// Where the first space is.
fn first_space(line: &[u8]) -> Option<usize>
    ensures { result ≡ space_read line.now }
{
    line.iter().position(|b| *b == b' ')
}

// The terminal that these bytes name, if they name one.
fn terminal_of(digits: &[u8]) -> Option<u32>
    ensures { result ≡ terminal_read digits.now }
{
    if digits.is_empty() || digits.len() > 4 || digits[0] == b'0' {
        return None;
    }
    let mut terminal = 0;
    for c in digits {
        if !c.is_ascii_digit() {
            return None;
        }
        terminal = terminal * 10 + u32::from(*c - b'0');
    }
    Some(terminal)
}
