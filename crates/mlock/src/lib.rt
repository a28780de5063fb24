// SPDX-License-Identifier: Apache-2.0
//! The locks of the terminals.
//!
//! What taking and giving back do is defined in `LockConflict` of `mspec`; contracts see `Locks` as its locks.
#![tactic(auto)]

mod below;
mod conflict;
mod holdings;
mod locks;
mod name;
mod tally;

pub use locks::Locks;
pub use name::LockName;
