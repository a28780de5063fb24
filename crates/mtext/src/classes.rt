// SPDX-License-Identifier: Apache-2.0
// Classes of characters, as a set.
ghost use Rattle.std.specs.Prelude.{◌≡◌, ℕ, ◌<◌, true, false, ◌||◌};
ghost use Rattle.mspec.specs.Pattern.{is_in};
ghost use Rattle.mtext.specs.PatternPlaces.{code_of};
ghost use Rattle.mtext.specs.ClassSets.{kind_of, has_kind, is_in_set};

use crate::pattern::PatternCode;

/// The characters of some classes. The seven classes are joined from five kinds that have no character in common, so a set has a
/// bit for each of these, and needs no memory.
#[derive(Clone, Copy, PartialEq, Eq, Drop)]
pub struct Classes {
    kinds: u8,
}

// The bits of the kinds, of which digits have the lowest.
const DIGITS: u8 = 1;

const UPPERS: u8 = 2;

const LOWERS: u8 = 4;

const CONTROLS: u8 = 8;

const OTHERS: u8 = 16;

// The place of the bit of a character's kind.
fn kind(byte: u8) -> u8
    ensures value { result ≡ kind_of byte }
    ensures small { result < 5 }
{
    if byte.is_ascii_digit() {
        return 0;
    }
    if byte.is_ascii_uppercase() {
        return 1;
    }
    if byte.is_ascii_lowercase() {
        return 2;
    }
    if byte.is_ascii_control() { 3 } else { 4 }
}

// The kinds of a class.
fn kinds(code: PatternCode) -> u8
    ensures { (c : ℕ) → has_kind result c ≡ is_in (code_of code) c }
{
    match code {
        PatternCode::A => UPPERS | LOWERS,
        PatternCode::C => CONTROLS,
        PatternCode::E => DIGITS | UPPERS | LOWERS | CONTROLS | OTHERS,
        PatternCode::L => LOWERS,
        PatternCode::N => DIGITS,
        PatternCode::P => OTHERS,
        PatternCode::U => UPPERS,
    }
}

impl Classes {
    /// No character.
    pub fn none() -> Classes
        ensures { (c : ℕ) → is_in_set result c ≡ false }
    {
        Classes { kinds: 0 }
    }

    /// The characters of the set, and those of a class.
    #[tactic(auto, using(crate::proofs::ClassKinds::joined))]
    pub fn with(self, code: PatternCode) -> Classes
        ensures { (c : ℕ) → is_in_set result c ≡ (is_in (code_of code) c || is_in_set self c) }
    {
        Classes {
            kinds: self.kinds | kinds(code),
        }
    }

    /// Whether the byte is a character of the set.
    pub(crate) fn contains(self, byte: u8) -> bool
        ensures { result ≡ is_in_set self byte }
    {
        byte < 128 && self.kinds >> kind(byte) & 1 == 1
    }

    /// Whether the two sets have a character in common.
    #[tactic(auto, using(crate::proofs::ClassKinds::apart))]
    pub(crate) fn meets(self, other: Classes) -> bool
        ensures { result ≡ false → (c : ℕ) → is_in_set other c ≡ true → is_in_set self c ≡ false }
    {
        self.kinds & other.kinds != 0
    }
}
