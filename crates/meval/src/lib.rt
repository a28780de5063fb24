// SPDX-License-Identifier: Apache-2.0
//! The value of an expression, and what commands do with variables.
#![tactic(auto)]

mod counting;
mod cursor;
mod depth;
mod eval;
mod found;
mod global_node;
mod global_reference;
mod globals;
mod kept;
mod lock_names;
mod lookups;
mod merging;
mod naming;
mod open_levels;
mod owner;
mod patterns;
mod place;
mod powers;
mod querying;
mod reading_reference;
mod referring;
mod resolving;
mod session;
mod shortcuts;
mod value_list;
mod variable_name;
mod variables;
mod walk;

pub use cursor::Cursor;
pub use depth::Depth;
pub use eval::Eval;
pub use found::extended_found;
pub use global_node::GlobalNode;
pub use global_reference::GlobalReference;
pub use kept::{Lockable, Readable, Walkable, locks_of};
pub use place::{Pending, Place, Subscripts};
pub use querying::Seekable;
pub use session::Session;
pub use value_list::Values;
pub use variable_name::VariableName;
