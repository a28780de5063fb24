// SPDX-License-Identifier: Apache-2.0
//! What a store of nodes is: a finite map from nodes of globals to texts; a store in a vector, and one of which a call fails.
//!
//! What a store holds, and what its calls do to that, are definitions of `mspec`: `Globals`. The language stands on this crate alone; the
//! store that the program runs over is `mstore`'s.
#![tactic(auto)]

pub mod failing;
pub mod plain;
pub mod store;

pub use failing::{Failing, StoreCall};
pub use plain::Plain;
pub use store::{NodeStore, StoreFault};
