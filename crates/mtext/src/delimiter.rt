// SPDX-License-Identifier: Apache-2.0
// Delimiters, prepared for being searched for.
ghost use Rattle.std.specs.Prelude.{◌≡◌};
ghost use Rattle.memchr.specs.Find.{FindsNeedle};
ghost use Rattle.mtext.specs.Cuts.{delimiter_text};

use memchr::memchr;
use memchr::memmem::Finder;

/// A delimiter of one character, or a longer one. Contracts see it by `delimiter_text`, as its text.
#[derive(Drop)]
pub(crate) enum Delimiter<'d> {
    Character(u8),
    Text(Finder<'d>),
}

impl<'d> Delimiter<'d> {
    pub(crate) fn new(delimiter: &'d [u8]) -> Delimiter<'d>
        ensures { delimiter_text result ≡ delimiter.now }
    {
        match delimiter {
            [character] => Delimiter::Character(*character),
            _ => Delimiter::Text(Finder::new(delimiter)),
        }
    }

    /// The first place of the delimiter in a text.
    pub(crate) fn find(&self, text: &[u8]) -> Option<usize>
        ensures { FindsNeedle text.now (delimiter_text self.now) 0 result }
    {
        match self {
            Delimiter::Character(character) => memchr(*character, text),
            Delimiter::Text(finder) => finder.find(text),
        }
    }
}
