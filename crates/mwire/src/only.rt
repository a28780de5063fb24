// SPDX-License-Identifier: Apache-2.0
// A stream, run to its end, of which one account is shown its replies.
ghost use Rattle.std.specs.Prelude.{◌≡◌, ◌≢◌, ◌+◌, ◌≤◌, false, map, IfErr, is_ok, Ok, Err};
ghost use Rattle.mworld.specs.View.{settings_of, reply_of};
ghost use Rattle.mworld.specs.Isolated.{told_of};
ghost use Rattle.mwire.specs.Wire.{reply_text};
ghost use Rattle.mwire.specs.Watched.{inner_of, failed_of, calls_of, stalls_of, ReadFailed, WriteFailed};
ghost use Rattle.mwire.specs.Only.{told_text, ServesOnly};
ghost use Rattle.mwire.specs.Progress.{FrontSent};

use crate::events::read_events;
use crate::fault::WireFault;
use crate::serving::{show_reply, write_whole};
use crate::watched::Watched;
use mgrant::AccountId;
use mnodes::NodeStore;
use mworld::{Told, World, isolated_replies};
use std::alloc::Global;
use std::io::{Read, Write};

/// Reads a stream to its end, runs its lines, and writes the replies at the terminals of one account of the world's settings. It
/// returns whether no line of an account that reaches this one was answered ZMEM or ZSTORE. If none was, the replies are those
/// that the account is shown if there is nothing but the accounts that reach it, as `isolated_replies` says; if a fault shut the
/// store on the way, up to the line at which it did.
///
/// The faults:
/// - `Read`: a read failed, or there were 1,000,000,000 reads. No line is run.
/// - `Write`: a write failed, or took nothing. A write that took nothing before this call doesn't count. All lines are run, and
///   a front of the replies' bytes is written.
/// - `Memory`: out of memory for the lines, for what is shown, or for a reply's bytes. Either some first lines are run, and nothing is
///   written; or all lines are run, and a front of the replies' bytes is written.
///
/// The condition: no call of the reader or the writer has failed yet, as `failed` says.
pub fn serve_only<S: NodeStore, R: Read, W: Write>(
    alloc: Global,
    world: &mut World<S>,
    account: AccountId,
    reader: &mut Watched<R>,
    writer: &mut Watched<W>,
) -> Result<bool, WireFault>
    requires reader_works { failed_of reader.old ≡ false }
    requires writer_works { failed_of writer.old ≡ false }
    ensures serves { ServesOnly S.NodeStore world.old account (R.remaining (inner_of reader.old)) (R.remaining (inner_of reader.new))
        (W.contents (inner_of writer.old)) (W.contents (inner_of writer.new)) result world.new }
    ensures settings { settings_of world.new ≡ settings_of world.old }
    ensures most { calls_of reader.new ≤ calls_of reader.old + 1000000000 }

    // A fault of a device is answered only if the device failed in this call.
    ensures read { result ≡ Err WireFault.Read → ReadFailed reader.old reader.new }
    ensures write { result ≡ Err WireFault.Write → WriteFailed writer.old writer.new }
    ensures reader_works { result ≢ Err WireFault.Read → failed_of reader.new ≡ false }
    ensures writer_works { result ≢ Err WireFault.Write → failed_of writer.new ≡ false }
    ensures no_stall { result ≢ Err WireFault.Write → stalls_of writer.new ≡ stalls_of writer.old }
{
    let events = match read_events(alloc, reader) {
        Ok(events) => events,
        Err(fault) => return Err(fault),
    };
    let Ok(isolated) = isolated_replies(alloc, world, &events, account) else {
        return Err(WireFault::Memory);
    };
    match write_replies(alloc, &isolated.replies, writer) {
        Ok(()) => Ok(isolated.whole),
        Err(fault) => Err(fault),
    }
}

// Writes the replies, one after another.
fn write_replies<W: Write>(
    alloc: Global,
    replies: &[Told],
    writer: &mut Watched<W>,
) -> Result<(), WireFault>
    ensures sent { FrontSent (told_text (map told_of replies.now)) (W.contents (inner_of writer.old)) (W.contents (inner_of writer.new)) (is_ok result) }
    ensures fault { IfErr result (λ e. (e ≢ WireFault.Read) × (e ≡ WireFault.Write → WriteFailed writer.old writer.new)) }
    ensures works { result ≢ Err WireFault.Write → failed_of writer.new ≡ failed_of writer.old }
    ensures no_stall { result ≢ Err WireFault.Write → stalls_of writer.new ≡ stalls_of writer.old }
{
    let mut room = Vec::new(alloc);
    for told in replies {
        write_reply(&mut room, told, writer)?;
    }
    Ok(())
}

// Writes a reply. `room` is the buffer for its bytes, and is passed on from reply to reply.
fn write_reply<W: Write>(
    room: &mut Vec<u8>,
    told: &Told,
    writer: &mut Watched<W>,
) -> Result<(), WireFault>
    ensures sent { FrontSent (reply_text told.now.terminal (reply_of told.now.reply)) (W.contents (inner_of writer.old)) (W.contents (inner_of writer.new))
        (is_ok result) }
    ensures fault { IfErr result (λ e. (e ≢ WireFault.Read) × (e ≡ WireFault.Write → WriteFailed writer.old writer.new)) }
    ensures works { result ≢ Err WireFault.Write → failed_of writer.new ≡ failed_of writer.old }
    ensures no_stall { result ≢ Err WireFault.Write → stalls_of writer.new ≡ stalls_of writer.old }
{
    show_reply(room, told.terminal, &told.reply)?;
    write_whole(writer, room)
}
