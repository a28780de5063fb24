// SPDX-License-Identifier: Apache-2.0
// What is wrong with a document of settings.
ghost use Rattle.std.specs.Prelude.{◌≡◌};
ghost use Rattle.mgrant.specs.declared.fault.SettingsFault.TheVariants.{Memory};

use std::alloc::{AllocError, AllocFailed};
use thiserror::Error;

/// Why no settings were read: the first of these that has a cause in the document, except that memory may run out at any place.
#[derive(Clone, Copy, Debug, PartialEq, Eq, Error)]
pub enum SettingsFault {
    /// The bytes are not a TOML document.
    #[error("Toml")]
    Toml,
    /// A key is missing, of another type, or not one of the format's; or a list has more than 9,999 entries.
    #[error("Shape")]
    Shape,
    /// An account's name is not 1 to 16 letters or digits, or is given twice.
    #[error("Name")]
    Name,
    /// A terminal is not 1 to 9,999, or is given twice.
    #[error("Terminal")]
    Terminal,
    /// Steps are not 1 to 1,000,000.
    #[error("Steps")]
    Steps,
    /// A grant is from or to an unknown account, from an account to itself, of a global that is not a name, or of an unknown mode.
    #[error("Grant")]
    Grant,
    /// Out of memory.
    #[error("Memory")]
    Memory,
}

impl From<AllocError> for SettingsFault {
    ghost from_gives = { λ _ fault. fault ≡ Memory };

    fn from(_fault: AllocError) -> SettingsFault {
        SettingsFault::Memory
    }
}

impl<T: Drop> From<AllocFailed<T>> for SettingsFault {
    ghost from_gives = { λ _ fault. fault ≡ Memory };

    fn from(_fault: AllocFailed<T>) -> SettingsFault {
        SettingsFault::Memory
    }
}
