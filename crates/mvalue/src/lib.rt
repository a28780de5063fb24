// SPDX-License-Identifier: Apache-2.0
//! Values of expressions and of variables: a number or a text. Contracts see a value as its text.
//!
//! A number stays a number until its text is wanted, so that what takes part in a computation is neither printed nor read again. The
//! definitions that the contracts cite are in `mspec`: `NumberText` (the value of a text, and the text of a number) and
//! `Interpretations` (a number as a truth and as a whole number).
#![tactic(auto)]

mod shown;
mod value;

pub use shown::Shown;
pub use value::{Kind, Value};
