// SPDX-License-Identifier: Apache-2.0
// The documents and the ports of the system. They tell nothing: the kit's calls have no clause on what a file holds, or on who connects.
ghost use Rattle.std.specs.Prelude.{[], None};

use crate::documents::{DocumentFault, Documents};
use crate::host::Host;
use crate::port::BoundPort;
use crate::ports::Ports;
use crate::system_stores::SystemStores;
use sqlite_disk::Start;
use std::alloc::Global;
use std::fs::File;
use std::io;
use std::io::{ErrorKind, Read};
use std::net::{Ipv4Addr, TcpListener};

/// The documents and the ports of the system.
#[derive(Drop)]
pub struct System<'a>(&'a HostRuntime);

/// What the system has around a program. `start` stands for what the two files of its store hold as they are opened.
pub fn host_of<S: Start>(
    rt: &HostRuntime,
    start: S,
) -> Host<System<'_>, SystemStores<'_, S>, System<'_>> {
    Host {
        documents: System(rt),
        stores: SystemStores::new(rt, start),
        ports: System(rt),
    }
}

impl Documents for System<'_> {
    ghost tells = { ⊥ };

    ghost held = { λ _ _. None };

    fn first_bytes(
        &mut self,
        alloc: Global,
        path: &str,
        most: u64,
    ) -> Result<Vec<u8>, DocumentFault> {
        match front_of_file(self.0, alloc, path, most) {
            Ok(bytes) => Ok(bytes),
            Err(error) => {
                if error.kind() == ErrorKind::OutOfMemory {
                    return Err(DocumentFault::Memory);
                }
                Err(DocumentFault::Unread)
            }
        }
    }
}

// The first bytes of a file.
fn front_of_file(rt: &HostRuntime, alloc: Global, path: &str, most: u64) -> io::Result<Vec<u8>> {
    let mut bytes = Vec::new(alloc);
    let file = File::open(rt, path)?;
    file.take(most).read_to_end(&mut bytes)?;
    Ok(bytes)
}

impl Ports for System<'_> {
    type Port = BoundPort;

    ghost tells = { ⊥ };

    ghost waiting = { λ _ _. None };

    ghost answered = { λ _ _. [] };

    ghost lent = { λ _ _. Unit };

    // A port of 127.0.0.1.
    fn listen(&mut self, number: u16) -> Option<BoundPort> {
        match TcpListener::bind(self.0, (Ipv4Addr::LOCALHOST, number)) {
            Ok(listener) => Some(BoundPort(listener)),
            Err(_) => None,
        }
    }

    // The port is free as soon as its listener is dropped.
    fn close(&mut self, _number: u16, _port: BoundPort) {}
}
