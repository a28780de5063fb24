// SPDX-License-Identifier: Apache-2.0
// What ends the reading of a stream early, and what ends the serving of connections.
use thiserror::Error;

/// Why a stream was not served, or not read, to its end.
#[derive(Clone, Copy, Debug, PartialEq, Eq, Error)]
pub enum WireFault {
    /// A read failed, or there were as many reads as there may be.
    #[error("Read")]
    Read,
    /// A write failed, or took nothing.
    #[error("Write")]
    Write,
    /// Out of memory.
    #[error("Memory")]
    Memory,
}

/// No further connection could be accepted.
#[derive(Clone, Copy, Debug, PartialEq, Eq, Error)]
#[error("Accept")]
pub struct AcceptFault;
