// SPDX-License-Identifier: Apache-2.0
// The text of a value, lent if the value has one.
ghost use Rattle.std.specs.Prelude.{◌≡◌};

use mnum::Bytes7;
use std::marker::Model;

/// The text of a value: its own, or one that was printed for it. Contracts see it as the text.
#[derive(Drop)]
pub struct Shown<'a> {
    held: Held<'a>,
}

#[derive(Drop)]
enum Held<'a> {
    Lent(&'a Bytes7),
    Printed(Bytes7),
}

impl<'a> Model for Shown<'a> {
    ghost use Rattle.mspec.specs.Node.{Text};

    ghost Value = { Text };

    ghost use Rattle.mvalue.specs.Texts.{held_text};

    ghost view = { λ shown. held_text shown.held };
}

impl<'a> Shown<'a> {
    /// A text that belongs to another. Takes no memory.
    pub fn lent(text: &'a Bytes7) -> Shown<'a>
        ensures { result ≡ text.now }
    {
        Shown {
            held: Held::Lent(text),
        }
    }

    /// A text of its own. Takes no memory.
    pub fn printed(text: Bytes7) -> Shown<'a>
        ensures { result ≡ text }
    {
        Shown {
            held: Held::Printed(text),
        }
    }

    /// The text itself. Takes no memory.
    pub fn as_text(&self) -> &Bytes7
        ensures { result.now ≡ self.now }
    {
        match &self.held {
            Held::Lent(text) => text,
            Held::Printed(text) => text,
        }
    }
}
