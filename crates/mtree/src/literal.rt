// SPDX-License-Identifier: Apache-2.0
// Numbers as they are written.
ghost use Rattle.std.specs.Prelude.{List, ℕ, ◌≡◌, None, Some, MatchOption, MatchResult};
ghost use Rattle.mspec.specs.Number.{significant_digits};
ghost use Rattle.mspec.specs.NumberText.{numeric_value};
ghost use Rattle.mnum.specs.Num.{units};

use mnum::{Bytes7, Num, Over};
use std::marker::Model;

/// A number as it is written, which is read once, however often its value is asked for. Contracts see it as its text.
#[derive(Drop)]
pub struct Literal {
    text: Bytes7,
    number: Result<Num, Over>,
}

impl Model for Literal {
    ghost Value = { List ℕ };

    ghost view = { λ literal. literal.text };

    ghost invariant = { λ literal. MatchResult literal.number (λ n. numeric_value significant_digits literal.text ≡ Some (units n))
        (λ _. numeric_value significant_digits literal.text ≡ None) };
}

impl Literal {
    /// The number that this text writes. Takes no memory.
    pub fn new(text: Bytes7) -> Literal
        ensures { result ≡ text }
    {
        let number = Num::from_text(text.as_bytes());
        Literal { text, number }
    }

    /// The text. Takes no memory.
    pub fn as_text(&self) -> &Bytes7
        ensures { result.now ≡ self.now }
    {
        &self.text
    }

    /// The number. Takes no memory.
    ///
    /// # Errors
    ///
    /// `Over` exactly if it is 10^18 or more in size.
    #[inline]
    pub fn number(&self) -> Result<Num, Over>
        ensures { MatchResult result (λ n. numeric_value significant_digits self.now ≡ Some (units n)) (λ _. numeric_value significant_digits self.now ≡ None) }
    {
        self.number
    }

    /// The number in place, or None exactly if it is 10^18 or more in size. Takes no memory.
    #[inline]
    pub fn as_number(&self) -> Option<&Num>
        ensures { MatchOption result (numeric_value significant_digits self.now ≡ None) (λ n. numeric_value significant_digits self.now ≡ Some (units n.now)) }
    {
        match &self.number {
            Ok(number) => Some(number),
            Err(_) => None,
        }
    }
}
