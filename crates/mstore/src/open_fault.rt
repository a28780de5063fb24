// SPDX-License-Identifier: Apache-2.0
// Why no table was opened.
ghost use Rattle.std.specs.Prelude.{◌≡◌};
ghost use Rattle.mstore.specs.Faults.{opening_fault};

use mnodes::StoreFault;
use thiserror::Error;

/// Why no table was opened.
#[derive(Clone, Copy, Debug, PartialEq, Eq, Error)]
pub enum OpenFault {
    /// A row is not a node's: its key cannot be read, or its value is no BLOB of at most 4,095 bytes, each ASCII.
    #[error("BadKey")]
    BadKey,
    /// The tables are those of no version that is opened: one of them is missing, their columns do not take a statement, or the row
    /// `version` names neither version, or is missing.
    #[error("BadVersion")]
    BadVersion,
    /// The database refused, or has the two tables made in another way, or a rule of other tables that could refuse a put or a kill;
    /// of a store that is no file, also if it has other tables at all.
    #[error("Store")]
    Store,
    /// Out of memory.
    #[error("Memory")]
    Memory,
}

impl From<StoreFault> for OpenFault {
    ghost from_gives = { λ fault opening. opening ≡ opening_fault fault };

    fn from(fault: StoreFault) -> OpenFault {
        match fault {
            StoreFault::Memory => OpenFault::Memory,
            StoreFault::Store => OpenFault::Store,
        }
    }
}
