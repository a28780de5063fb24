// SPDX-License-Identifier: Apache-2.0
// Runs of characters, names and strings.
ghost use Rattle.std.specs.Prelude.{◌≡◌, ◌<◌, All, false, option_map, IfSome};
ghost use Rattle.mspec.specs.Names.{IsName};
ghost use Rattle.mgrammar.specs.Grammar.{is_pattern_letter};
ghost use Rattle.mgrammar.specs.ReadingWords.{run_of, after_run, name_at, text_from, past};
ghost use Rattle.mscan.specs.Classes.{in_class};
ghost use Rattle.mscan.specs.Gives.{Gives};

use crate::fault::ParseFault;
use mnum::{Bytes7, Name};
use mspec::limits::MAX_NAME_REST;
use std::alloc::Global;

/// A kind of characters.
#[derive(Clone, Copy, PartialEq, Eq)]
pub enum Class {
    Digit,
    Letter,
    NameStart,
    NameRest,
    Space,
    /// A format of WRITE: `!` or `#`.
    Format,
    /// A letter of a pattern's classes.
    PatternLetter,
    /// What a number or a count begins with.
    DigitOrPoint,
    /// A character of the canonical text of a number.
    NumberPart,
    Any,
}

fn is_pattern_letter(byte: u8) -> bool
    ensures { result ≡ is_pattern_letter byte }
{
    matches!(
        byte.to_ascii_uppercase(),
        b'A' | b'C' | b'E' | b'L' | b'N' | b'P' | b'U'
    )
}

impl Class {
    /// Whether a character is of the class.
    pub fn has(self, byte: u8) -> bool
        ensures { result ≡ in_class self byte }
    {
        match self {
            Class::Digit => byte.is_ascii_digit(),
            Class::Letter => byte.is_ascii_alphabetic(),
            Class::NameStart => byte.is_ascii_alphabetic() || byte == b'%',
            Class::NameRest => byte.is_ascii_alphabetic() || byte.is_ascii_digit(),
            Class::Space => byte == b' ',
            Class::Format => byte == b'!' || byte == b'#',
            Class::PatternLetter => is_pattern_letter(byte),
            Class::DigitOrPoint => byte.is_ascii_digit() || byte == b'.',
            Class::NumberPart => byte.is_ascii_digit() || byte == b'.' || byte == b'-',
            Class::Any => byte < 128,
        }
    }
}

fn split_run(class: Class, bytes: &[u8]) -> (&[u8], &[u8])
    ensures run { result.0.now ≡ run_of (in_class class) bytes.now }
    ensures rest { result.1.now ≡ after_run (in_class class) bytes.now }
{
    let mut count = 0;
    for byte in bytes {
        if !class.has(*byte) {
            break;
        }
        count += 1;
    }
    bytes.split_at(count)
}

/// The longest run of the class that the text begins with, and what follows it.
pub fn run(class: Class, bytes: &[u8]) -> (&[u8], &[u8])
    ensures run { result.0.now ≡ run_of (in_class class) bytes.now }
    ensures rest { result.1.now ≡ after_run (in_class class) bytes.now }
    ensures seven_bits { All (λ c. c < 128) result.0.now }
{
    split_run(class, bytes)
}

/// What follows this character, if the text begins with it.
pub fn past(byte: u8, bytes: &[u8]) -> Option<&[u8]>
    ensures { option_map (λ x. x.now) result ≡ past byte bytes.now }
{
    let (first, rest) = bytes.split_first()?;
    if *first == byte { Some(rest) } else { None }
}

/// What follows this character, with which the text has to begin: `Syntax` if it does not.
pub fn expect(byte: u8, bytes: &[u8]) -> Result<&[u8], ParseFault>
    ensures { Gives (λ x. x.now) result (past byte bytes.now) }
{
    past(byte, bytes).ok_or(ParseFault::Syntax)
}

/// The bytes of the name that a text begins with, of at most 31 characters, and what follows it. Takes no memory.
#[tactic(auto, unfolding(mgrammar::specs::ReadingWords::name_at))]
pub fn name_bytes(bytes: &[u8]) -> Option<(&[u8], &[u8])>
    ensures name { option_map (λ x. (x.0.now, x.1.now)) result ≡ name_at bytes.now }
    ensures is_name { IfSome result (λ x. IsName x.0.now) }
{
    let (first, more) = bytes.split_first()?;
    if !Class::NameStart.has(*first) {
        return None;
    }
    let (tail, rest) = run(Class::NameRest, more);
    if tail.len() > MAX_NAME_REST {
        return None;
    }
    Some((&bytes[..1 + tail.len()], rest))
}

/// The name that a text begins with, of at most 31 characters, and what follows it. `Syntax` if it begins with none, `Memory` if it
/// runs out of memory.
pub fn name(alloc: Global, bytes: &[u8]) -> Result<(Name, &[u8]), ParseFault>
    ensures { Gives (λ x. (x.0, x.1.now)) result (name_at bytes.now) }
{
    let Some((name, rest)) = name_bytes(bytes) else {
        return Err(ParseFault::Syntax);
    };
    let name = Name::from_slice(alloc, name)?;
    Ok((name, rest))
}

/// The text of a string, after the quote that opens it, and what follows the string. `Syntax` if no quote closes it or a character is
/// not ASCII, `Memory` if it runs out of memory.
#[tactic(auto, using(mgrammar::proofs::ReadingLoops::pushes))]
pub fn text_after(alloc: Global, bytes: &[u8]) -> Result<(Bytes7, &[u8]), ParseFault>
    ensures { Gives (λ x. (x.0, x.1.now)) result (text_from false bytes.now) }
{
    let mut text = Bytes7::empty(alloc);
    let mut quoted = false;
    for (i, byte) in bytes.iter().enumerate() {
        if *byte == b'"' {
            if quoted {
                text.push(b'"')?;
            }
            quoted = !quoted;
        } else if quoted {
            return Ok((text, &bytes[i..]));
        } else if Class::Any.has(*byte) {
            text.push(*byte)?;
        } else {
            return Err(ParseFault::Syntax);
        }
    }
    if quoted {
        Ok((text, &[]))
    } else {
        Err(ParseFault::Syntax)
    }
}
