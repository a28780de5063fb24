// SPDX-License-Identifier: Apache-2.0
// Connections, served one after the other.
ghost use Rattle.std.specs.Prelude.{◌≡◌};
ghost use Rattle.mworld.specs.View.{settings_of, seen_of};
ghost use Rattle.mwire.specs.Connections.{ServesEach};

use crate::fault::{AcceptFault, WireFault};
use crate::listener::Listener;
use crate::serving::serve;
use crate::watched::Watched;
use mnodes::NodeStore;
use mworld::World;
use std::alloc::Global;
use std::io::Write;

/// Accepts `count` connections, one after the other, and answers the lines of each to its end before the next is accepted. Sessions,
/// locks and globals last from one connection to the next.
///
/// A fault of a connection ends that connection alone: `errors` gets the line `mserve: connection K: W`, with K counted from 1 and W the
/// fault of `serve`, and the world is the one after the lines that were run. A fault in writing to `errors` is passed over.
///
/// # Errors
///
/// Only if accepting a connection failed: the connections before it are served.
pub fn serve_each<S: NodeStore, L: Listener, E: Write>(
    alloc: Global,
    world: &mut World<S>,
    listener: &mut L,
    count: u32,
    errors: &mut E,
) -> Result<(), AcceptFault>
    ensures served { ServesEach S.NodeStore (settings_of world.old) count (seen_of S.NodeStore world.old) (seen_of S.NodeStore world.new)
        L.tells (L.waiting listener.old) (L.waiting listener.new) (L.answered listener.old) (L.answered listener.new) result }
    ensures settings { settings_of world.new ≡ settings_of world.old }
{
    for number in 0..count {
        if let Err(fault) = serve_next(alloc, world, listener, number + 1, errors) {
            return Err(fault);
        }
    }
    Ok(())
}

// Accepts the connection of this number, and answers its lines.
fn serve_next<S: NodeStore, L: Listener, E: Write>(
    alloc: Global,
    world: &mut World<S>,
    listener: &mut L,
    number: u32,
    errors: &mut E,
) -> Result<(), AcceptFault>
    ensures served { ServesEach S.NodeStore (settings_of world.old) 1 (seen_of S.NodeStore world.old) (seen_of S.NodeStore world.new)
        L.tells (L.waiting listener.old) (L.waiting listener.new) (L.answered listener.old) (L.answered listener.new) result }
    ensures settings { settings_of world.new ≡ settings_of world.old }
{
    let (reader, writer) = match listener.accept() {
        Ok(connection) => connection,
        Err(fault) => return Err(fault),
    };
    let mut reader = Watched::new(reader);
    let mut writer = Watched::new(writer);
    let outcome = serve(alloc, world, &mut reader, &mut writer);
    report(errors, number, &outcome);
    listener.close(reader.into_inner(), writer.into_inner());
    Ok(())
}

// Reports a connection that ended by a fault.
fn report<E: Write>(errors: &mut E, number: u32, outcome: &Result<(), WireFault>) {
    if let Err(fault) = outcome {
        let _ = writeln!(errors, "mserve: connection {number}: {fault}");
    }
}
