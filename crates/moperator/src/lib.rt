// SPDX-License-Identifier: Apache-2.0
//! The operators, relations, patterns and functions of the language, of operands and arguments that are values already, and the
//! codes that end a line.
//!
//! The definitions that the contracts cite are in `mmeaning`: `Operators` and `Functions`. `Yields` says that a call gives what the
//! definition gives, whatever the session's state.
#![tactic(auto)]

mod arguments;
mod arithmetic;
mod characters;
mod code;
mod code_from;
mod conversions;
mod function_calls;
mod name_texts;
mod operators;
mod patterns;
mod places;
mod relations;
mod turns;

pub use arguments::{text_at, whole_at};
pub use arithmetic::{Arithmetic, arithmetic_of, calculate};
pub use code::Code;
pub use conversions::{number_of, truth_of, whole_of};
pub use function_calls::call;
pub use name_texts::{found_name, name_text, other_front, own_front};
pub use operators::{base_and_exponent, binary, computed, increased, unaries};
pub use patterns::{matches, pattern_turns};
