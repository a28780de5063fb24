// SPDX-License-Identifier: Apache-2.0
//! The steps of an argument, of a command's condition, or of a parameter of FOR, in which functions are called.
//!
//! What they are is defined in `mmeaning`: `Programs`. No list of them is kept: each is found in the tree by its number.
#![tactic(auto)]

mod counts;
mod ending;
mod missing;
mod op;
pub mod step_laws;
mod steps;
mod whole;

pub use counts::{steps_in_choices, steps_in_value};
pub use ending::ending_of;
pub use missing::is_bare;
pub use op::{Ending, Op, Whole};
pub use whole::op_at;
