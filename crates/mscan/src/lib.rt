// SPDX-License-Identifier: Apache-2.0
//! The parts of a line of M that have no expression in them: runs of characters, names, strings, numbers, operators and patterns, each
//! read from the front of a text; what a line of a routine begins with; and names of nodes, taken apart.
#![tactic(auto)]

mod fault;
mod formal_lists;
mod name_values;
mod numbers;
mod operator;
mod patterns;
mod routine;
mod runs;

pub use fault::ParseFault;
pub use formal_lists::formals;
pub use name_values::{NameValue, name_value};
pub use numbers::number;
pub use operator::{Operator, next_operator, signs};
pub use patterns::pattern;
pub use routine::{dots_of, formals_of, has_formal_list, label, label_of, may_have_formal_list};
pub use runs::{Class, expect, name, name_bytes, past, run, text_after};
