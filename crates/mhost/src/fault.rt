// SPDX-License-Identifier: Apache-2.0
// Why the program ends early.
use mgrant::SettingsFault;
use mstore::OpenFault;
use mwire::WireFault;

/// Why a job ended before its input was answered to the end, or before all its connections were served.
#[derive(Clone, Copy, PartialEq, Eq)]
pub enum RunFault {
    /// The file of the settings cannot be read, or has more than 1,000,000 bytes.
    Unread,
    /// There are no settings.
    Settings(SettingsFault),
    /// The settings have no account of the name.
    NoAccount,
    /// There is no store.
    Store(OpenFault),
    /// The port is taken, or may not be listened at.
    Listen,
    /// No further connection could be accepted.
    Accept,
    /// The input was not read or not answered to its end.
    Wire(WireFault),
}
