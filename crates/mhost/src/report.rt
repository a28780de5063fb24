// SPDX-License-Identifier: Apache-2.0
// What is reported of a fault, and the exit status.
ghost use Rattle.std.specs.Prelude.{◌≡◌, ◌∷◌, [], ◌++◌};
ghost use Rattle.mhost.specs.Faults.{status_of, status_of_fault};
ghost use Rattle.mhost.specs.Reports.{fault_text, settings_fault_text, store_fault_text, wire_fault_text, IsReported, Reports};

use crate::fault::RunFault;
use mgrant::SettingsFault;
use mstore::OpenFault;
use mwire::{Watched, WireFault, write_whole};
use std::io::Write;

/// Reports what a job came to, and gives its exit status: nothing if it is done, else the line of the fault. A fault in writing is passed
/// over.
pub fn finish<E: Write>(outcome: &Result<(), RunFault>, errors: &mut Watched<E>) -> u8
    ensures status { result ≡ status_of outcome.now }
    ensures reports { Reports E.contents outcome.now errors.old errors.new }
{
    match outcome {
        Ok(()) => 0,
        Err(fault) => {
            report(fault, errors);
            status_of_fault(fault)
        }
    }
}

// Writes the line of a fault.
fn report<E: Write>(fault: &RunFault, errors: &mut Watched<E>)
    ensures { IsReported E.contents fault.now errors.old errors.new }
{
    let _ = write_whole(errors, fault_line(fault));
}

// The line of a fault.
fn fault_line(fault: &RunFault) -> &'static [u8]
    ensures { result.now ≡ fault_text fault.now ++ 10 ∷ [] }
{
    match fault {
        RunFault::Unread => b"mserve: settings: Read\n",
        RunFault::Settings(fault) => settings_fault_line(*fault),
        RunFault::NoAccount => b"mserve: settings: Only\n",
        RunFault::Store(fault) => store_fault_line(*fault),
        RunFault::Listen => b"mserve: wire: Listen\n",
        RunFault::Accept => b"mserve: wire: Accept\n",
        RunFault::Wire(fault) => wire_fault_line(*fault),
    }
}

fn settings_fault_line(fault: SettingsFault) -> &'static [u8]
    ensures { result.now ≡ settings_fault_text fault ++ 10 ∷ [] }
{
    match fault {
        SettingsFault::Toml => b"mserve: settings: Toml\n",
        SettingsFault::Shape => b"mserve: settings: Shape\n",
        SettingsFault::Name => b"mserve: settings: Name\n",
        SettingsFault::Terminal => b"mserve: settings: Terminal\n",
        SettingsFault::Steps => b"mserve: settings: Steps\n",
        SettingsFault::Grant => b"mserve: settings: Grant\n",
        SettingsFault::Memory => b"mserve: settings: Memory\n",
    }
}

fn store_fault_line(fault: OpenFault) -> &'static [u8]
    ensures { result.now ≡ store_fault_text fault ++ 10 ∷ [] }
{
    match fault {
        OpenFault::BadKey => b"mserve: store: BadKey\n",
        OpenFault::BadVersion => b"mserve: store: BadVersion\n",
        OpenFault::Store => b"mserve: store: Store\n",
        OpenFault::Memory => b"mserve: store: Memory\n",
    }
}

fn wire_fault_line(fault: WireFault) -> &'static [u8]
    ensures { result.now ≡ wire_fault_text fault ++ 10 ∷ [] }
{
    match fault {
        WireFault::Read => b"mserve: wire: Read\n",
        WireFault::Write => b"mserve: wire: Write\n",
        WireFault::Memory => b"mserve: wire: Memory\n",
    }
}

// The exit status for a fault.
fn status_of_fault(fault: &RunFault) -> u8
    ensures { result ≡ status_of_fault fault.now }
{
    match fault {
        RunFault::Unread | RunFault::Settings(_) | RunFault::NoAccount => 3,
        RunFault::Store(_) => 4,
        RunFault::Listen | RunFault::Accept | RunFault::Wire(_) => 5,
    }
}
