// SPDX-License-Identifier: Apache-2.0
// A stream, answered in a world.
ghost use Rattle.std.specs.Prelude.{◌≡◌, false};
ghost use Rattle.mworld.specs.View.{settings_of};
ghost use Rattle.mwire.specs.Watched.{failed_of};
ghost use Rattle.mhost.specs.Works.{Answers};

use crate::fault::RunFault;
use mnodes::NodeStore;
use mwire::{Watched, serve};
use mworld::World;
use std::alloc::Global;
use std::io::{Read, Write};

/// Answers a stream in a world.
///
/// # Errors
///
/// `Wire`, with what `serve` says of it.
///
/// The condition: no call of the input or the output has failed yet.
pub fn run_job<S: NodeStore, I: Read, O: Write>(
    alloc: Global,
    world: &mut World<S>,
    input: &mut Watched<I>,
    output: &mut Watched<O>,
) -> Result<(), RunFault>
    requires input_works { failed_of input.old ≡ false }
    requires output_works { failed_of output.old ≡ false }
    ensures answers { Answers S.NodeStore world.old world.new I.remaining O.contents input.old input.new output.old output.new result }
    ensures settings { settings_of world.new ≡ settings_of world.old }
{
    match serve(alloc, world, input, output) {
        Ok(()) => Ok(()),
        Err(fault) => Err(RunFault::Wire(fault)),
    }
}
