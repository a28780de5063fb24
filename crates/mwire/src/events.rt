// SPDX-License-Identifier: Apache-2.0
// The events of a stream.
ghost use Rattle.std.specs.Prelude.{◌≡◌, ◌≢◌, ◌+◌, ◌≤◌, ℕ, List, [], ◌∷◌, ◌++◌, false, OnOk, IfErr, Err, map};
ghost use Rattle.mworld.specs.View.{event_of};
ghost use Rattle.mwire.specs.Wire.{events_of};
ghost use Rattle.mwire.specs.Watched.{inner_of, failed_of, calls_of, ReadFailed};
ghost use Rattle.mwire.specs.Serves.{ReadsEvents};
ghost use Rattle.mwire.specs.Progress.{IsOpen, Gathered};

use crate::fault::WireFault;
use crate::line_buffer::{LineBuffer, cut_line};
use crate::watched::Watched;
use crate::wire_line::{WireLine, classify};
use mworld::Event;
use std::alloc::{AllocError, Global};
use std::io::Read;

/// The events of a stream's lines, to its end. Lines that are empty, too long or not readable are left out.
///
/// It answers `Read` if a read failed or there were 1,000,000,000 reads, and `Memory` if it runs out of memory. The events so
/// far are then gone, and the reader is where the last read left it. The condition: no call of the reader has failed yet, as
/// `failed` says. There are never more than 1,000,000,000 reads.
pub fn read_events<R: Read>(alloc: Global, reader: &mut Watched<R>) -> Result<Vec<Event>, WireFault>
    requires { failed_of reader.old ≡ false }
    ensures reads { ReadsEvents (λ events. map event_of events.items) (R.remaining (inner_of reader.old)) (R.remaining (inner_of reader.new)) result }
    ensures most { calls_of reader.new ≤ calls_of reader.old + 1000000000 }
    ensures read { result ≡ Err WireFault.Read → ReadFailed reader.old reader.new }
    ensures reader_works { result ≢ Err WireFault.Read → failed_of reader.new ≡ false }
{
    let mut events = Vec::new(alloc);
    let mut line = LineBuffer::new();
    let mut piece = [0u8; 4096];
    for _turn in 0..1_000_000_000u32 {
        match reader.read(&mut piece) {
            Err(_) => return Err(WireFault::Read),
            Ok(0) => {
                return match gather_line(alloc, &mut events, line.unfinished()) {
                    Ok(()) => Ok(events),
                    Err(_) => Err(WireFault::Memory),
                };
            }
            Ok(n) => {
                if gather_piece(alloc, &mut events, &mut line, &piece[..n]).is_err() {
                    return Err(WireFault::Memory);
                }
            }
        }
    }
    Err(WireFault::Read)
}

// Takes the next bytes of the stream.
fn gather_piece(
    alloc: Global,
    events: &mut Vec<Event>,
    line: &mut LineBuffer,
    piece: &[u8],
) -> Result<(), AllocError>
    ensures { OnOk result ((past : List ℕ) → Gathered past line.old (map event_of events.old.items)
        → Gathered (past ++ piece.now) line.new (map event_of events.new.items)) }
{
    let mut rest = piece;
    while let Some((end, after)) = cut_line(rest) {
        gather_end(alloc, events, line, end)?;
        rest = after;
    }
    line.extend(rest);
    Ok(())
}

// Takes the bytes up to a line feed, which end a line, and the line feed.
fn gather_end(
    alloc: Global,
    events: &mut Vec<Event>,
    line: &mut LineBuffer,
    bytes: &[u8],
) -> Result<(), AllocError>
    requires { IsOpen bytes.now }
    ensures { OnOk result ((past : List ℕ) → Gathered past line.old (map event_of events.old.items)
        → Gathered (past ++ (bytes.now ++ 10 ∷ [])) line.new (map event_of events.new.items)) }
{
    line.extend(bytes);
    gather_line(alloc, events, line.finished())?;
    line.clear();
    Ok(())
}

// Appends the event of a line, if it has one.
fn gather_line(alloc: Global, events: &mut Vec<Event>, line: &[u8]) -> Result<(), AllocError>
    ensures { OnOk result (map event_of events.new.items ≡ map event_of events.old.items ++ events_of (line.now ∷ [])) }
{
    if let WireLine::Runs(terminal, text) = classify(line) {
        let text = Vec::from_slice(alloc, text)?;
        events.push(Event { terminal, text })?;
    }
    Ok(())
}
