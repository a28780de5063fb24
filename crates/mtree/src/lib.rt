// SPDX-License-Identifier: Apache-2.0
//! Lines of M as syntax trees that keep their spelling: the case of letters, abbreviations, spaces and digits as written.
//!
//! What a tree means as plain data, and which text it has, are definitions of `mgrammar`: `Grammar`.
//!
//! The writer (`write`) is for what shows a tree, such as the transcripts: they read each form of the grammar and write it back.
//! The program never writes a tree. Only for the writer does a tree keep its words, its spaces and its comment as they were written.
#![tactic(auto)]

mod brackets;
mod calls;
mod count;
mod expression;
mod function_word;
pub mod intrinsic;
mod letters;
mod literal;
mod patterns;
mod pieces;
mod put_list;
mod reference;
mod since;
pub mod tree;
pub mod words;
pub mod write;

pub use brackets::FunctionWord;
pub use calls::{
    has_call, has_call_actual, has_call_arg, has_call_destination, has_call_exprs,
    has_call_operand, has_call_optional, has_call_parameter, has_call_primary,
};
pub use count::Count;
pub use function_word::{ValueWord, VariableWord};
pub use intrinsic::{Function, SpecialVariable, ValueFunction, VariableFunction};
pub use letters::Letters;
pub use literal::Literal;
pub use pieces::{put_string, put_text};
pub use since::{since_args, since_commands, since_reference, since_routine_line};
pub use tree::{
    Actual, Alternative, Arg, Atom, Binary, Body, Called, Choice, Command, Destination, Entry,
    Expr, Keyword, Line, LockKind, Locked, Operand, Parameter, PartTarget, Primary, Reference,
    Referring, Repeated, RoutineLine, RoutineRef, SharedRoutine, Sign, Spaced, Tail, Target, Truth,
};
pub use words::{function_of, is_part, keyword_of, special_of};
pub use write::{write_line, write_routine_line};
