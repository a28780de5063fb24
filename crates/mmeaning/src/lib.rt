// SPDX-License-Identifier: Apache-2.0
//! The definitional interpreter: what a line of M means, as plans over the plain tree, and what a history of lines is.
#![tactic(auto)]

pub mod call_laws;
pub mod program_laws;
pub mod transition_laws;
