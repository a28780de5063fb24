// SPDX-License-Identifier: Apache-2.0
// Connections of a port, served in a world.
ghost use Rattle.std.specs.Prelude.{◌≡◌};
ghost use Rattle.mworld.specs.View.{settings_of};
ghost use Rattle.mhost.specs.Works.{ServesPort};

use crate::fault::RunFault;
use crate::ports::Ports;
use mnodes::NodeStore;
use mwire::serve_each;
use mworld::World;
use std::alloc::Global;
use std::io::Write;

/// Answers the lines of this many connections at a port in a world, as `serve_each` does. `errors` gets a line for each connection that
/// broke.
///
/// # Errors
///
/// `Listen` and `Accept`. After `Listen` the world is as it was; after `Accept` it is the one after the connections before.
pub fn serve_job<S: NodeStore, P: Ports, E: Write>(
    alloc: Global,
    world: &mut World<S>,
    ports: &mut P,
    port: u16,
    connections: u32,
    errors: &mut E,
) -> Result<(), RunFault>
    ensures serves { ServesPort S.NodeStore world.old world.new P.tells (record { waiting = P.waiting ports.old; answered = P.answered ports.old })
        (record { waiting = P.waiting ports.new; answered = P.answered ports.new }) port connections result }
    ensures settings { settings_of world.new ≡ settings_of world.old }
{
    let Some(mut listener) = ports.listen(port) else {
        return Err(RunFault::Listen);
    };
    let served = serve_each(alloc, world, &mut listener, connections, errors);
    ports.close(port, listener);
    match served {
        Ok(()) => Ok(()),
        Err(_) => Err(RunFault::Accept),
    }
}
