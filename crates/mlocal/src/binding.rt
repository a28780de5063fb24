// SPDX-License-Identifier: Apache-2.0
//! The formal parameters of a level.

use mnum::Name;
use mvalue::Value;

/// What a formal parameter of a level is.
#[derive(Drop)]
pub enum Binding {
    /// A new variable with this value.
    Valued(Value),
    /// Another name of the caller's variable of this name.
    Linked(Name),
    /// A new variable without a value.
    Unset,
}
