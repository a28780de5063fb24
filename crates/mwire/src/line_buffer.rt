// SPDX-License-Identifier: Apache-2.0
// The line that is being read.
ghost use Rattle.std.specs.Prelude.{◌≡◌, ◌==◌, [], ◌∷◌, ◌++◌, length, take, MatchOption};
ghost use Rattle.std.specs.Str.Lines.{strip_carriage_return};
ghost use Rattle.mwire.specs.Progress.{IsOpen};

use arrayvec::ArrayVec;
use memchr::memchr;
use std::marker::Model;

// A line of the most bytes, a carriage return, and one more byte, which shows that the line is longer.
const KEPT: usize = 262;

/// The front of a line that is not finished: as much of it as decides what becomes of the line. It takes no memory.
pub struct LineBuffer {
    bytes: ArrayVec<u8, KEPT>,
}

// Written out, so that dropping it is one call, which is proved once.
impl Drop for LineBuffer {
    fn drop(self) {
        let LineBuffer { bytes: _ } = self;
    }
}

impl Model for LineBuffer {
    ghost use Rattle.std.specs.Prelude.{List, ℕ};

    ghost Value = { List ℕ };

    ghost view = { λ b. b.bytes.items };
}

impl LineBuffer {
    pub fn new() -> Self
        ensures { result ≡ [] }
    {
        LineBuffer {
            bytes: ArrayVec::new(),
        }
    }

    pub fn clear(&mut self)
        ensures { self.new ≡ [] }
    {
        self.bytes.clear();
    }

    /// Adds bytes, until enough is kept.
    pub fn extend(&mut self, bytes: &[u8])
        ensures { self.new ≡ take 262 (self.old ++ bytes.now) }
    {
        let count = bytes.len().min(KEPT - self.bytes.len());
        for byte in &bytes[..count] {
            self.bytes.push(*byte);
        }
    }

    /// Whether nothing is kept.
    pub fn is_empty(&self) -> bool
        ensures { result ≡ (length self.now == 0) }
    {
        self.bytes.is_empty()
    }

    /// The line as it is, if no line feed ends it.
    pub fn unfinished(&self) -> &[u8]
        ensures { result.now ≡ self.now }
    {
        self.bytes.as_slice()
    }

    /// The line if a line feed ends it: a carriage return just before the line feed goes with it.
    pub fn finished(&self) -> &[u8]
        ensures { result.now ≡ strip_carriage_return self.now }
    {
        without_return(self.bytes.as_slice())
    }
}

/// A line without the carriage return that it ends in, if it does.
pub fn without_return(line: &[u8]) -> &[u8]
    ensures { result.now ≡ strip_carriage_return line.now }
{
    let count = line.len();
    if count > 0 && line[count - 1] == b'\r' {
        return &line[..count - 1];
    }
    line
}

/// The bytes before the first line feed, and those after it; `None` if there is no line feed.
pub fn cut_line(bytes: &[u8]) -> Option<(&[u8], &[u8])>
    ensures { MatchOption result (IsOpen bytes.now) (λ parts. IsOpen parts.0.now × (bytes.now ≡ parts.0.now ++ 10 ∷ parts.1.now)) }
{
    match memchr(b'\n', bytes) {
        Some(end) => Some((&bytes[..end], &bytes[end + 1..])),
        None => None,
    }
}
