// SPDX-License-Identifier: Apache-2.0
// The letters of classes in a pattern, as they are written.
ghost use Rattle.std.specs.Prelude.{◌≡◌, ℕ, map, IfOk};
ghost use Rattle.mspec.specs.Pattern.{is_in_any};
ghost use Rattle.mgrammar.specs.Matching.{pattern_code};
ghost use Rattle.mtext.specs.ClassSets.{is_in_set};
ghost use Rattle.mtext.specs.PatternPlaces.{code_of, codes_of};

use mnum::Bytes7;
use mtext::{Classes, PatternCode};
use std::alloc::{AllocError, Global};
use std::marker::Model;

/// The letters of the classes that an atom of a pattern repeats, as they are written. The set of their characters is found once,
/// however often a text is matched. Contracts see it as its letters.
#[derive(Drop)]
pub struct Letters {
    text: Bytes7,
    classes: Classes,
}

impl Model for Letters {
    ghost use Rattle.std.specs.Prelude.{List, ℕ, ◌≡◌, map};
    ghost use Rattle.mspec.specs.Pattern.{is_in_any};
    ghost use Rattle.mgrammar.specs.Matching.{pattern_code};
    ghost use Rattle.mtext.specs.ClassSets.{is_in_set};

    ghost Value = { List ℕ };

    ghost view = { λ letters. letters.text };

    ghost invariant = { λ letters. (c : ℕ) → is_in_set letters.classes c ≡ is_in_any (map pattern_code letters.text) c };
}

// The class that a letter names in either case.
fn pattern_code(letter: u8) -> PatternCode
    ensures { code_of result ≡ pattern_code letter }
{
    match letter.to_ascii_uppercase() {
        b'A' => PatternCode::A,
        b'C' => PatternCode::C,
        b'E' => PatternCode::E,
        b'L' => PatternCode::L,
        b'N' => PatternCode::N,
        b'P' => PatternCode::P,
        _ => PatternCode::U,
    }
}

// The characters of the classes that letters name.
#[tactic(auto, using(crate::proofs::LetterClasses::letter_more))]
fn classes(letters: &[u8]) -> Classes
    ensures { (c : ℕ) → is_in_set result c ≡ is_in_any (map pattern_code letters.now) c }
{
    let mut classes = Classes::none();
    for letter in letters {
        classes = classes.with(pattern_code(*letter));
    }
    classes
}

impl Letters {
    /// The letters that this text writes. Takes no memory.
    pub fn new(text: Bytes7) -> Letters
        ensures { result ≡ text }
    {
        let classes = classes(text.as_bytes());
        Letters { text, classes }
    }

    /// The text. Takes no memory.
    pub fn as_text(&self) -> &Bytes7
        ensures { result.now ≡ self.now }
    {
        &self.text
    }

    /// The characters of the classes. Takes no memory.
    #[inline]
    pub fn classes(&self) -> Classes
        ensures { (c : ℕ) → is_in_set result c ≡ is_in_any (map pattern_code self.now) c }
    {
        self.classes
    }

    /// The classes in turn.
    ///
    /// # Errors
    ///
    /// `AllocError` if it runs out of memory.
    pub fn codes(&self, alloc: Global) -> Result<Vec<PatternCode>, AllocError>
        ensures { IfOk result (λ codes. codes_of codes.items ≡ map pattern_code self.now) }
    {
        let letters = self.text.as_bytes();
        let mut codes = Vec::with_capacity(alloc, letters.len())?;
        for letter in letters {
            codes.push(pattern_code(*letter))?;
        }
        Ok(codes)
    }
}
