// SPDX-License-Identifier: Apache-2.0
// Connections of a port.
ghost use Rattle.std.specs.Prelude.{◌≡◌, []};
ghost use Rattle.mworld.specs.View.{settings_of, seen_of};
ghost use Rattle.mhost.specs.Connections.{ServesConnections};

use mnodes::NodeStore;
use mwire::{AcceptFault, Listener, serve_each};
use mworld::World;
use std::io::Write;
use std::net::{TcpListener, TcpStream};
use std::time::Duration;

// For how many seconds a peer may take none of its replies.
const PATIENCE: u64 = 60;

// A listener at a port, which is lent. It does not tell who comes: the kit gives its calls no clause.
#[derive(Drop)]
struct LentPort<'a>(&'a TcpListener);

/// The same, which owns its listener.
#[derive(Drop)]
pub struct BoundPort(pub TcpListener);

// The reader and the writer of the next connection.
fn next_connection(listener: &TcpListener) -> Result<(TcpStream, TcpStream), AcceptFault> {
    let Ok((writer, _peer)) = listener.accept() else {
        return Err(AcceptFault);
    };
    // if no bound can be had, the peer may take as long as it likes
    let _ = writer.set_write_timeout(Some(Duration::from_secs(PATIENCE)));
    // each reply goes out at once: of two lines in one packet the second reply waits else until the first one's bytes are acknowledged
    let _ = writer.set_nodelay(true);
    match writer.try_clone() {
        Ok(reader) => Ok((reader, writer)),
        Err(_) => Err(AcceptFault),
    }
}

impl Listener for LentPort<'_> {
    type Reader = TcpStream;

    type Writer = TcpStream;

    ghost tells = { ⊥ };

    ghost waiting = { λ _. [] };

    ghost answered = { λ _. [] };

    ghost occupied = { λ _. Unit };

    fn accept(&mut self) -> Result<(TcpStream, TcpStream), AcceptFault> {
        next_connection(self.0)
    }

    // Both are closed when they are dropped.
    fn close(&mut self, _reader: TcpStream, _writer: TcpStream) {}
}

impl Listener for BoundPort {
    type Reader = TcpStream;

    type Writer = TcpStream;

    ghost tells = { ⊥ };

    ghost waiting = { λ _. [] };

    ghost answered = { λ _. [] };

    ghost occupied = { λ _. Unit };

    fn accept(&mut self) -> Result<(TcpStream, TcpStream), AcceptFault> {
        next_connection(&self.0)
    }

    // Both are closed when they are dropped.
    fn close(&mut self, _reader: TcpStream, _writer: TcpStream) {}
}

/// Accepts `count` connections, one after the other, and answers the lines of each to its end before the next is accepted, as `serve_each`
/// does. Sessions, locks and globals last from one connection to the next.
///
/// A fault of a connection ends that connection alone: `errors` gets the line `mserve: connection K: W`, with K counted from 1 and W the
/// fault of `serve`, and the world is the one after the lines that were run. A fault in writing to `errors` is passed over.
///
/// Accepting and reading wait for a peer; that they return is not claimed. A peer that takes no byte of its replies for a minute has the
/// fault `Write`.
///
/// # Errors
///
/// Only if accepting a connection failed: the connections before it are served.
pub fn serve_connections<H: AllocGlobal, S: NodeStore, E: Write>(
    rt: &H,
    world: &mut World<S>,
    listener: &TcpListener,
    count: u32,
    errors: &mut E,
) -> Result<(), AcceptFault>
    ensures serves { ServesConnections S.NodeStore (settings_of world.old) (seen_of S.NodeStore world.old) (seen_of S.NodeStore world.new) count result }
    ensures settings { settings_of world.new ≡ settings_of world.old }
{
    serve_each(rt.alloc(), world, &mut LentPort(listener), count, errors)
}
