// SPDX-License-Identifier: Apache-2.0
// Why a text could not be parsed.
ghost use Rattle.std.specs.Prelude.{◌≡◌};
ghost use Rattle.mscan.specs.declared.fault.ParseFault.TheVariants.{Memory};

use std::alloc::{AllocError, AllocFailed};

/// Why a text was not parsed.
#[derive(Clone, Copy, PartialEq, Eq)]
pub enum ParseFault {
    /// No tree of the grammar has this text.
    Syntax,
    /// There was no memory for the tree.
    Memory,
}

impl<T: Drop> From<AllocFailed<T>> for ParseFault {
    ghost from_gives = { λ _ fault. fault ≡ Memory };

    fn from(_error: AllocFailed<T>) -> ParseFault {
        ParseFault::Memory
    }
}

impl From<AllocError> for ParseFault {
    ghost from_gives = { λ _ fault. fault ≡ Memory };

    fn from(_error: AllocError) -> ParseFault {
        ParseFault::Memory
    }
}
