// SPDX-License-Identifier: Apache-2.0
//! The definitions of mserve, written apart from the code: what its numbers and texts mean.
//!
//! They are in `specs/` and compute. The functions here carry the laws about them: a law is the contract of a function with
//! an empty body.
#![tactic(auto)]

pub mod key_laws;
pub mod limits;
pub mod lock_laws;
pub mod number_laws;
pub mod pattern_laws;
pub mod piece_laws;
pub mod scope_laws;
