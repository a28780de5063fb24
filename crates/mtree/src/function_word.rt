// SPDX-License-Identifier: Apache-2.0
// The words of functions of values and of functions of a variable, as they are written.
ghost use Rattle.std.specs.Prelude.{◌≡◌, max};
ghost use Rattle.mgrammar.specs.Functions.{since_function, since_values};
ghost use Rattle.mtree.specs.Functions.{IsValueWord, IsVariableWord, value_function_tree, variable_function_tree};

use crate::intrinsic::{ValueFunction, VariableFunction};
use crate::words::{later, since_values};
use mnum::Bytes7;
use std::marker::Model;

/// The word of a function of values as it is written, without its `$`. What it says is looked up once, however often the function is
/// called. Contracts see it as its text.
#[derive(Drop)]
pub struct ValueWord {
    pub(crate) text: Bytes7,
    pub(crate) function: ValueFunction,
    // The first language that has the function.
    pub(crate) since: u32,
}

impl Model for ValueWord {
    ghost use Rattle.std.specs.Prelude.{◌≡◌, List, ℕ};
    ghost use Rattle.mgrammar.specs.Functions.{since_function};
    ghost use Rattle.mtree.specs.Functions.{IsValueWord, value_function_tree};

    ghost Value = { List ℕ };

    ghost view = { λ word. word.text };

    ghost invariant = { λ word. IsValueWord word.text (value_function_tree word.function) × (word.since ≡ since_function word.text) };
}

impl ValueWord {
    /// The text. Takes no memory.
    pub fn as_text(&self) -> &Bytes7
        ensures { result.now ≡ self.now }
    {
        &self.text
    }

    /// The function that has the word. Takes no memory.
    #[inline]
    pub fn function(&self) -> ValueFunction
        ensures { IsValueWord self.now (value_function_tree result) }
    {
        self.function
    }

    // The first language that has the function with this many values. Takes no memory.
    pub(crate) fn since(&self, count: usize) -> u32
        ensures { result ≡ max (since_function self.now) (since_values self.now count) }
    {
        later(self.since, since_values(self.text.as_bytes(), count))
    }
}

/// The word of a function of a variable as it is written, without its `$`. What it says is looked up once, however often the
/// function is called. Contracts see it as its text.
#[derive(Drop)]
pub struct VariableWord {
    pub(crate) text: Bytes7,
    pub(crate) function: VariableFunction,
    // The first language that has the function.
    pub(crate) since: u32,
}

impl Model for VariableWord {
    ghost use Rattle.std.specs.Prelude.{◌≡◌, List, ℕ};
    ghost use Rattle.mgrammar.specs.Functions.{since_function};
    ghost use Rattle.mtree.specs.Functions.{IsVariableWord, variable_function_tree};

    ghost Value = { List ℕ };

    ghost view = { λ word. word.text };

    ghost invariant = { λ word. IsVariableWord word.text (variable_function_tree word.function) × (word.since ≡ since_function word.text) };
}

impl VariableWord {
    /// The text. Takes no memory.
    pub fn as_text(&self) -> &Bytes7
        ensures { result.now ≡ self.now }
    {
        &self.text
    }

    /// The function that has the word. Takes no memory.
    #[inline]
    pub fn function(&self) -> VariableFunction
        ensures { IsVariableWord self.now (variable_function_tree result) }
    {
        self.function
    }

    // The first language that has the function. Takes no memory.
    pub(crate) fn since(&self) -> u32
        ensures { result ≡ since_function self.now }
    {
        self.since
    }
}
