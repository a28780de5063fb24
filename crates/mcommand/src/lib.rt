// SPDX-License-Identifier: Apache-2.0
//! What the arguments of commands that run no text do: SET, KILL, MERGE, IF, LOCK, WRITE and HANG, postconditionals, the parameters of FOR,
//! and what the actuals of DO hand over; and the steps of an argument with a call of a function in it.
#![tactic(auto)]

mod actuals;
mod condition;
mod for_parameter;
mod formals;
mod hang;
mod items;
mod kill;
mod lock;
mod merge;
mod parts;
mod reference_steps;
mod set;
mod steps;
mod target;
mod target_steps;
mod write;

pub use for_parameter::Course;
pub use formals::{formals_for, formals_lent};
pub use items::{
    Item, take_found, take_handing, take_item, take_names, take_targets, take_value, take_values,
};
pub use parts::Parts;
pub use reference_steps::attach_step;
pub use set::Prepared;
pub use target::Target;
pub use write::LINE_END;
