// SPDX-License-Identifier: Apache-2.0
//! A line of M, of a terminal or of a routine, and the texts of indirection, each from its text to its tree: a tree exactly if the
//! grammar has one.
#![tactic(auto)]

mod along;
mod command;
mod control;
mod entry;
mod expr;
mod indirect;
mod line;
mod list;
mod lock_arguments;
mod merge_arguments;
mod operand;
mod routine_line;
mod scope;
mod set_arguments;

pub use indirect::{parse_args, parse_name, parse_pattern, parse_ref};
pub use line::parse_line;
pub use mscan::{ParseFault, dots_of, formals_of, has_formal_list, label_of};
pub use routine_line::parse_routine_line;
