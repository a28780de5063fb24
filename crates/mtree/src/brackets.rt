// SPDX-License-Identifier: Apache-2.0
// What a function's word says of its brackets.
ghost use Rattle.mtree.specs.Brackets.{IsSaid};

use crate::function_word::{ValueWord, VariableWord};
use crate::intrinsic::Function;
use crate::words::function_row;
use mnum::Bytes7;

/// The word of a function, with what its brackets hold.
#[derive(Drop)]
pub enum FunctionWord {
    /// At least `least` values, and at most `most`, if there is a bound.
    OfValues {
        word: ValueWord,
        least: usize,
        most: Option<usize>,
    },
    /// A variable, and after it at most `most` values.
    OfVariable {
        word: VariableWord,
        most: usize,
    },
    /// Choices: `$SELECT`, as it is written, without its `$`.
    OfChoices(Bytes7),
}

impl FunctionWord {
    /// The word that is this text, if a function has it. Takes no memory.
    pub fn new(text: Bytes7) -> Option<FunctionWord>
        ensures { IsSaid text result }
    {
        let (function, since) = function_row(text.as_bytes())?;
        match function {
            Function::OfValues {
                function,
                least,
                most,
            } => Some(FunctionWord::OfValues {
                word: ValueWord {
                    text,
                    function,
                    since,
                },
                least,
                most,
            }),
            Function::OfVariable { function, most } => Some(FunctionWord::OfVariable {
                word: VariableWord {
                    text,
                    function,
                    since,
                },
                most,
            }),
            Function::OfChoices => Some(FunctionWord::OfChoices(text)),
        }
    }
}
