// SPDX-License-Identifier: Apache-2.0
// Where the output of a terminal is.
ghost use Rattle.std.specs.Prelude.{◌≡◌};
ghost use Rattle.mspec.specs.Cursor.{home, position_after, after_characters, after_format, after_formats};
ghost use Rattle.meval.specs.Sessions.{cursor_of};

use mspec::limits::MAX_POSITION;

/// Where the output of a terminal is. Contracts see it by `cursor_of`, as that of the definitions.
#[derive(Clone, Copy)]
pub struct Cursor {
    /// `$X`: how many characters its line has.
    pub column: u32,
    /// `$Y`: how many lines its page has before that one.
    pub row: u32,
}

// A count that goes on, up to its bound.
fn position_after(count: u32, more: usize) -> u32
    ensures { result ≡ position_after count more }
{
    if more > MAX_POSITION as usize {
        return MAX_POSITION;
    }
    count.saturating_add(more as u32)
}

impl Cursor {
    /// Where a terminal begins, and each page.
    pub fn home() -> Cursor
        ensures { cursor_of result ≡ home }
    {
        Cursor { column: 0, row: 0 }
    }

    /// After this many characters more.
    pub fn after_characters(self, count: usize) -> Cursor
        ensures { cursor_of result ≡ after_characters count (cursor_of self) }
    {
        Cursor {
            column: position_after(self.column, count),
            row: self.row,
        }
    }

    // After a format: `!` ends a line, and `#` begins a page.
    fn after_format(self, format: u8) -> Cursor
        ensures { cursor_of result ≡ after_format format (cursor_of self) }
    {
        if format == b'!' {
            Cursor {
                column: 0,
                row: position_after(self.row, 1),
            }
        } else {
            Cursor::home()
        }
    }

    /// After these formats.
    pub fn after_formats(self, formats: &[u8]) -> Cursor
        ensures { cursor_of result ≡ after_formats formats.now (cursor_of self) }
    {
        let mut cursor = self;
        for format in formats {
            cursor = cursor.after_format(*format);
        }
        cursor
    }
}
