// SPDX-License-Identifier: Apache-2.0
// Readers and writers that remember whether a call failed.
ghost use Rattle.std.specs.Prelude.{◌≡◌, ◌||◌, true, false, is_err};
ghost use Rattle.std.specs.Io.{ReadsAtMost, WritesAtMost};
ghost use Rattle.std.specs.Io.KnownBytes.{Keeps, ReadConsumes, WriteAppends};
ghost use Rattle.mwire.specs.Watched.{inner_of, failed_of, calls_of, stalls_of, counted_on, is_stall};

use std::io;
use std::io::{Read, Write};

/// A reader or a writer around another, which remembers whether a call of the inner one failed, and counts the calls of `read`
/// and the calls of `write` that took none of the bytes that they were given.
#[derive(Drop)]
pub struct Watched<T> {
    inner: T,
    failed: bool,
    calls: u64,
    stalls: u64,
}

impl<T> Watched<T> {
    /// A reader or a writer around this one, of which no call has failed yet.
    pub fn new(inner: T) -> Self
        ensures inner { inner_of result ≡ inner }
        ensures failed { failed_of result ≡ false }
        ensures calls { calls_of result ≡ 0 }
        ensures stalls { stalls_of result ≡ 0 }
    {
        Watched {
            inner,
            failed: false,
            calls: 0,
            stalls: 0,
        }
    }

    /// The reader or the writer inside.
    pub fn into_inner(self) -> T
        ensures { result ≡ inner_of self }
    {
        self.inner
    }

    /// Whether a call of the inner one has answered an error.
    pub fn failed(&self) -> bool
        ensures { result ≡ failed_of self.now }
    {
        self.failed
    }
}

impl<R: Read> Read for Watched<R> {
    ghost remaining = { λ s. R.remaining (inner_of s) };

    fn read(&mut self, buf: &mut [u8]) -> io::Result<usize>
        ensures bound { ReadsAtMost result buf.new }
        ensures bytes { ReadConsumes (R.remaining (inner_of self.old)) (R.remaining (inner_of self.new)) result buf.new }
        ensures failed { failed_of self.new ≡ (failed_of self.old || is_err result) }
        ensures calls { calls_of self.new ≡ counted_on (calls_of self.old) 1 }
        ensures stalls { stalls_of self.new ≡ stalls_of self.old }
    {
        self.calls = self.calls.saturating_add(1);
        let result = self.inner.read(buf);
        self.failed = self.failed || result.is_err();
        result
    }
}

impl<W: Write> Write for Watched<W> {
    ghost contents = { λ s. W.contents (inner_of s) };

    fn write(&mut self, buf: &[u8]) -> io::Result<usize>
        ensures bound { WritesAtMost result buf.now }
        ensures bytes { WriteAppends (W.contents (inner_of self.old)) (W.contents (inner_of self.new)) result buf.now }
        ensures failed { failed_of self.new ≡ (failed_of self.old || is_err result) }
        ensures stalled { is_stall buf.now result ≡ true → stalls_of self.new ≡ counted_on (stalls_of self.old) 1 }
        ensures not_stalled { is_stall buf.now result ≡ false → stalls_of self.new ≡ stalls_of self.old }
        ensures calls { calls_of self.new ≡ calls_of self.old }
    {
        let result = self.inner.write(buf);
        self.failed = self.failed || result.is_err();
        if is_stall(buf, &result) {
            self.stalls = self.stalls.saturating_add(1);
        }
        result
    }

    fn flush(&mut self) -> io::Result<()>
        ensures bytes { Keeps (W.contents (inner_of self.old)) (W.contents (inner_of self.new)) }
        ensures failed { failed_of self.new ≡ (failed_of self.old || is_err result) }
        ensures calls { calls_of self.new ≡ calls_of self.old }
        ensures stalls { stalls_of self.new ≡ stalls_of self.old }
    {
        let result = self.inner.flush();
        self.failed = self.failed || result.is_err();
        result
    }
}

// Whether a write took none of these bytes, if there are any.
fn is_stall(bytes: &[u8], answer: &io::Result<usize>) -> bool
    ensures { result ≡ is_stall bytes.now answer.now }
{
    !bytes.is_empty() && matches!(answer, Ok(0))
}
