// SPDX-License-Identifier: Apache-2.0
// A stream whose replies one account alone is shown.
ghost use Rattle.std.specs.Prelude.{◌≡◌, false};
ghost use Rattle.mworld.specs.View.{settings_of};
ghost use Rattle.mwire.specs.Watched.{failed_of};
ghost use Rattle.mhost.specs.Works.{AnswersOnly};

use crate::fault::RunFault;
use mgrant::AccountId;
use mnodes::NodeStore;
use mwire::{Watched, serve_only};
use mworld::World;
use std::alloc::Global;
use std::io::{Read, Write};

/// Reads the input to its end, runs its lines in a world, and writes only the replies at the terminals of one account.
///
/// # Errors
///
/// `Wire`, with what `serve_only` says of it.
///
/// The condition: no call of the input or the output has failed yet.
pub fn run_only_job<S: NodeStore, I: Read, O: Write>(
    alloc: Global,
    world: &mut World<S>,
    account: AccountId,
    input: &mut Watched<I>,
    output: &mut Watched<O>,
) -> Result<(), RunFault>
    requires input_works { failed_of input.old ≡ false }
    requires output_works { failed_of output.old ≡ false }
    ensures answers { AnswersOnly S.NodeStore world.old world.new I.remaining O.contents input.old input.new output.old output.new account result }
    ensures settings { settings_of world.new ≡ settings_of world.old }
{
    match serve_only(alloc, world, account, input, output) {
        Ok(_) => Ok(()),
        Err(fault) => Err(RunFault::Wire(fault)),
    }
}
