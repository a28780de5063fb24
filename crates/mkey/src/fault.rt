// SPDX-License-Identifier: Apache-2.0
// Why a key could not be built.

/// Why a key was not built.
#[derive(Clone, Copy, PartialEq, Eq)]
pub enum KeyFault {
    /// There are more than 15 subscripts, or one of them is empty or has more than 255 characters.
    Sub,
    /// There was no memory for the key.
    Memory,
}
