// SPDX-License-Identifier: Apache-2.0
// A stream, served: each line is run and answered before the next one.
ghost use Rattle.std.specs.Prelude.{◌≡◌, ◌≢◌, ◌+◌, ◌≤◌, ℕ, List, [], ◌∷◌, ◌++◌, false, OnOk, IfOk, IfErr, is_ok, Ok, Err};
ghost use Rattle.mworld.specs.View.{settings_of, seen_of, reply_of};
ghost use Rattle.mwire.specs.Wire.{reply_text};
ghost use Rattle.mwire.specs.Watched.{inner_of, failed_of, calls_of, stalls_of, ReadFailed, WriteFailed};
ghost use Rattle.mwire.specs.Serves.{Serves};
ghost use Rattle.mwire.specs.Progress.{IsOpen, TakesOn, LineSent, FrontSent};

use crate::fault::WireFault;
use crate::line_buffer::{LineBuffer, cut_line, without_return};
use crate::reply_bytes::push_bytes;
use crate::watched::Watched;
use crate::wire_line::{WireLine, classify};
use mnodes::NodeStore;
use mworld::{Reply, World};
use std::alloc::Global;
use std::io::{Read, Write};

/// Runs the lines of a stream, to its end, and writes their replies: each one whole before the next line is run. If the store is
/// sound, each line is a transition of the definitions, by the world's settings; over a steady store that has room at the end
/// no line is answered ZSTORE.
///
/// The faults:
/// - `Read`: a read failed, or there were 1,000,000,000 reads. The lines that a line feed ended are run and answered, and no other.
/// - `Write`: a write failed, or took nothing. A write that took nothing before this call doesn't count.
/// - `Memory`: out of memory for a reply's bytes.
///
/// After `Write` and `Memory`, the lines up to some last one are run, which a line feed or the stream's end ended. The replies of
/// all but the last are written whole, and a front of the last one's. After each fault the world is the one after the lines that
/// were run. There are never more than 1,000,000,000 reads.
///
/// The condition: no call of the reader or the writer has failed yet, as `failed` says.
pub fn serve<S: NodeStore, R: Read, W: Write>(
    alloc: Global,
    world: &mut World<S>,
    reader: &mut Watched<R>,
    writer: &mut Watched<W>,
) -> Result<(), WireFault>
    requires reader_works { failed_of reader.old ≡ false }
    requires writer_works { failed_of writer.old ≡ false }
    ensures serves { Serves S.NodeStore (settings_of world.old) (seen_of S.NodeStore world.old) (seen_of S.NodeStore world.new)
        (R.remaining (inner_of reader.old)) (R.remaining (inner_of reader.new))
        (W.contents (inner_of writer.old)) (W.contents (inner_of writer.new)) result }
    ensures settings { settings_of world.new ≡ settings_of world.old }
    ensures most { calls_of reader.new ≤ calls_of reader.old + 1000000000 }

    // A fault of a device is answered only if the device failed in this call.
    ensures read { result ≡ Err WireFault.Read → ReadFailed reader.old reader.new }
    ensures write { result ≡ Err WireFault.Write → WriteFailed writer.old writer.new }
    ensures reader_works { result ≢ Err WireFault.Read → failed_of reader.new ≡ false }
    ensures writer_works { result ≢ Err WireFault.Write → failed_of writer.new ≡ false }
    ensures no_stall { result ≢ Err WireFault.Write → stalls_of writer.new ≡ stalls_of writer.old }
{
    let mut line = LineBuffer::new();
    let mut piece = [0u8; 4096];
    let mut room = Vec::new(alloc);
    for _turn in 0..1_000_000_000u32 {
        match reader.read(&mut piece) {
            Err(_) => return Err(WireFault::Read),
            Ok(0) => return answer_line(&mut room, world, line.unfinished(), writer),
            Ok(n) => {
                if let Err(fault) = take_piece(&mut room, world, &mut line, &piece[..n], writer) {
                    return Err(fault);
                }
            }
        }
    }
    Err(WireFault::Read)
}

// Takes the next bytes of the stream.
fn take_piece<S: NodeStore, W: Write>(
    room: &mut Vec<u8>,
    world: &mut World<S>,
    line: &mut LineBuffer,
    piece: &[u8],
    writer: &mut Watched<W>,
) -> Result<(), WireFault>
    ensures passes { TakesOn S.NodeStore (settings_of world.old) (seen_of S.NodeStore world.old) line.old piece.now (seen_of S.NodeStore world.new) line.new
        (W.contents (inner_of writer.old)) (W.contents (inner_of writer.new)) result }
    ensures settings { settings_of world.new ≡ settings_of world.old }
    ensures fault { IfErr result (λ e. (e ≢ WireFault.Read) × (e ≡ WireFault.Write → WriteFailed writer.old writer.new)) }
    ensures works { result ≢ Err WireFault.Write → failed_of writer.new ≡ failed_of writer.old }
    ensures no_stall { result ≢ Err WireFault.Write → stalls_of writer.new ≡ stalls_of writer.old }
{
    let mut rest = piece;
    while let Some((end, after)) = cut_line(rest) {
        take_line(room, world, line, end, writer)?;
        rest = after;
    }
    line.extend(rest);
    Ok(())
}

// Takes the bytes up to a line feed, which end a line, and the line feed. A line that comes whole is not copied.
fn take_line<S: NodeStore, W: Write>(
    room: &mut Vec<u8>,
    world: &mut World<S>,
    line: &mut LineBuffer,
    bytes: &[u8],
    writer: &mut Watched<W>,
) -> Result<(), WireFault>
    requires { IsOpen bytes.now }
    ensures passes { TakesOn S.NodeStore (settings_of world.old) (seen_of S.NodeStore world.old) line.old (bytes.now ++ 10 ∷ [])
        (seen_of S.NodeStore world.new) line.new
        (W.contents (inner_of writer.old)) (W.contents (inner_of writer.new)) result }
    ensures settings { settings_of world.new ≡ settings_of world.old }
    ensures fault { IfErr result (λ e. (e ≢ WireFault.Read) × (e ≡ WireFault.Write → WriteFailed writer.old writer.new)) }
    ensures works { result ≢ Err WireFault.Write → failed_of writer.new ≡ failed_of writer.old }
    ensures no_stall { result ≢ Err WireFault.Write → stalls_of writer.new ≡ stalls_of writer.old }
{
    if line.is_empty() {
        return answer_line(room, world, without_return(bytes), writer);
    }
    line.extend(bytes);
    let result = answer_line(room, world, line.finished(), writer);
    line.clear();
    result
}

// Runs a line and writes its answer. `room` is the buffer for the answer's bytes, and is passed on from line to line.
fn answer_line<S: NodeStore, W: Write>(
    room: &mut Vec<u8>,
    world: &mut World<S>,
    line: &[u8],
    writer: &mut Watched<W>,
) -> Result<(), WireFault>
    ensures sent { LineSent S.NodeStore (settings_of world.old) (seen_of S.NodeStore world.old) line.now (seen_of S.NodeStore world.new)
        (W.contents (inner_of writer.old)) (W.contents (inner_of writer.new)) (is_ok result) }
    ensures settings { settings_of world.new ≡ settings_of world.old }
    ensures fault { IfErr result (λ e. (e ≢ WireFault.Read) × (e ≡ WireFault.Write → WriteFailed writer.old writer.new)) }
    ensures works { result ≢ Err WireFault.Write → failed_of writer.new ≡ failed_of writer.old }
    ensures no_stall { result ≢ Err WireFault.Write → stalls_of writer.new ≡ stalls_of writer.old }
    ensures idle { line.now ≡ [] → result ≡ Ok tt }
{
    match classify(line) {
        WireLine::Ignored => Ok(()),
        WireLine::TooLong => write_whole(writer, b"?!ZLINE\n"),
        WireLine::Unreadable => write_whole(writer, b"?!ZWIRE\n"),
        WireLine::Runs(terminal, text) => {
            let reply = world.line(terminal, text);
            show_reply(room, terminal, &reply)?;
            world.reuse(reply);
            write_whole(writer, room)
        }
    }
}

// Puts the bytes that show a reply into `room`, in place of what it had.
pub(crate) fn show_reply(room: &mut Vec<u8>, terminal: u32, reply: &Reply) -> Result<(), WireFault>
    ensures ok { OnOk result (room.new.items ≡ reply_text terminal (reply_of reply.now)) }
    ensures fault { IfErr result (λ e. e ≡ WireFault.Memory) }
{
    room.clear();
    match push_bytes(room, terminal, reply) {
        Ok(()) => Ok(()),
        Err(_) => Err(WireFault::Memory),
    }
}

/// Writes all of these bytes, or a front of them.
///
/// # Errors
///
/// `Write`: a write failed, or took nothing.
pub fn write_whole<W: Write>(writer: &mut Watched<W>, bytes: &[u8]) -> Result<(), WireFault>
    ensures sent { FrontSent bytes.now (W.contents (inner_of writer.old)) (W.contents (inner_of writer.new)) (is_ok result) }
    ensures fault { IfErr result (λ e. (e ≡ WireFault.Write) × WriteFailed writer.old writer.new) }
    ensures works { OnOk result (failed_of writer.new ≡ failed_of writer.old) }
    ensures no_stall { OnOk result (stalls_of writer.new ≡ stalls_of writer.old) }
{
    let mut rest = bytes;
    while !rest.is_empty() {
        match writer.write(rest) {
            Ok(0) => return Err(WireFault::Write),
            Ok(n) => rest = &rest[n..],
            Err(_) => return Err(WireFault::Write),
        }
    }
    Ok(())
}
