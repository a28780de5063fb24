// SPDX-License-Identifier: Apache-2.0
//! What the language asks of globals, over any store of nodes.
//!
//! The definitions are `mspec`'s `Globals`: `status` for $DATA, `order_at` for $ORDER, `following_at` for $QUERY and `lines_of` for routines.
#![tactic(auto)]

mod ask;
mod bounds;
mod copies;
mod lines;
mod routine_cache;
mod seeking;

pub use ask::{neighbour, status};
pub use lines::{routine, shared_routine};
pub use routine_cache::RoutineCache;
pub use seeking::following;
