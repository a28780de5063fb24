// SPDX-License-Identifier: Apache-2.0
//! The local variables of a session.
#![tactic(auto)]

mod binding;
mod level;
mod named;
mod places;
mod rest;
mod scope;
mod scopes;
mod subtree;
mod table;
mod variable;

pub use binding::Binding;
pub use mkey::{Data, Direction};
pub use scopes::Locals;
