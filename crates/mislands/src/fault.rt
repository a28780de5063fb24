// SPDX-License-Identifier: Apache-2.0
// Why no islands are printed.
use mgrant::SettingsFault;
use thiserror::Error;

// Why the program ends early.
#[derive(Clone, Copy, Debug, PartialEq, Eq, Error)]
pub(crate) enum ListFault {
    // The input cannot be read, or has more than 1,000,000 bytes.
    #[error("settings: Read")]
    Unread,
    // The input gives no settings.
    #[error("settings: {0}")]
    Settings(SettingsFault),
    // The output was not written to its end.
    #[error("output: Write")]
    Write,
}
