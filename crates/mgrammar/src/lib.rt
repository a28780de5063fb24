// SPDX-License-Identifier: Apache-2.0
//! The grammar of M, written apart from the code: trees, the text that each spells, and the reading of a text.
//!
//! It is in `specs/` and computes. The functions here carry the laws about it: a law is the contract of a function with an
//! empty body.
#![tactic(auto)]

pub mod grammar_laws;
