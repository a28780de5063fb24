// SPDX-License-Identifier: Apache-2.0
//! The forms of commands and functions: how many arguments each takes, and which commands take a postconditional.
//!
//! They are the rows of `mgrammar`: `Commands` and `Functions`. The parser asks here, and the trees of `mtree` name the words.
#![tactic(auto)]

mod arity;

pub use arity::{takes, takes_args, takes_condition};
