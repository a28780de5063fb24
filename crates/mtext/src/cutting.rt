// SPDX-License-Identifier: Apache-2.0
// Pieces of texts.
ghost use Rattle.std.specs.Prelude.{◌≡◌, ◌≢◌, ◌+◌, ◌<◌, ◌≤◌, [], length, take, IfOk, IfErr};
ghost use Rattle.mspec.specs.TextFunctions.{piece_of, piece_count};
ghost use Rattle.mspec.specs.Pieces.{join, pieces_of};
ghost use Rattle.mtext.specs.Cuts.{IsBehind, delimiter_text};

use crate::by_character;
use crate::delimiter::Delimiter;
use crate::places::range;
use memchr::memmem::Finder;

/// $LENGTH with a delimiter: how many pieces `text` has by `delimiter`, and 0 if that is empty. Takes no memory.
#[tactic(auto, using(crate::proofs::PieceSteps::empty_is, crate::proofs::PieceSteps::no_pieces))]
pub fn pieces(text: &[u8], delimiter: &[u8]) -> usize
    ensures { result ≡ piece_count text.now delimiter.now }
{
    if delimiter.is_empty() {
        return 0;
    }
    match Delimiter::new(delimiter) {
        Delimiter::Character(character) => by_character::delimiters(character, text) + 1,
        Delimiter::Text(finder) => delimiters(&finder, text) + 1,
    }
}

/// How many delimiters separate the pieces of a text.
#[tactic(auto, using(crate::proofs::PieceSteps::behind_last, crate::proofs::FoundPlaces::in_rest))]
fn delimiters(finder: &Finder, text: &[u8]) -> usize
    requires { finder.now ≢ [] }
    ensures count { length (pieces_of finder.now text.now) ≡ result + 1 }
    ensures few { result ≤ length text.now }
{
    let mut at = 0;
    let mut passed = 0;
    while let Some(before) = finder.find(&text[at..]) {
        at += before + finder.needle().len();
        passed += 1;
    }
    passed
}

/// The place after the first `count` pieces of a text and their delimiters.
///
/// # Errors
///
/// How many delimiters the text lacks.
#[tactic(auto, using(crate::proofs::PieceSteps::behind_last, crate::proofs::FoundPlaces::in_rest))]
fn skip_texts(finder: &Finder, text: &[u8], count: usize) -> Result<usize, usize>
    requires { finder.now ≢ [] }
    ensures behind { IfOk result (λ at. IsBehind finder.now text.now count at) }
    ensures missing { IfErr result (λ n. length (pieces_of finder.now text.now) + n ≡ count + 1) }
    ensures some { IfErr result (λ n. 0 < n) }
{
    let mut at = 0;
    for passed in 0..count {
        match finder.find(&text[at..]) {
            None => return Err(count - passed),
            Some(before) => at += before + finder.needle().len(),
        }
    }
    Ok(at)
}

/// The same for any delimiter.
///
/// # Errors
///
/// How many delimiters the text lacks.
pub(crate) fn skip(delimiter: &Delimiter, text: &[u8], count: usize) -> Result<usize, usize>
    requires { delimiter_text delimiter.now ≢ [] }
    ensures behind { IfOk result (λ at. IsBehind (delimiter_text delimiter.now) text.now count at) }
    ensures missing { IfErr result (λ n. length (pieces_of (delimiter_text delimiter.now) text.now) + n ≡ count + 1) }
    ensures some { IfErr result (λ n. 0 < n) }
{
    match delimiter {
        Delimiter::Character(character) => by_character::skip(*character, text, count),
        Delimiter::Text(finder) => skip_texts(finder, text, count),
    }
}

/// The end of the first `count` pieces of a text and one more, or of the text if it has fewer.
#[tactic(auto, using(crate::proofs::PieceSteps::behind_last, crate::proofs::PieceSteps::end_of_text, crate::proofs::FoundPlaces::in_rest))]
pub(crate) fn end_of(delimiter: &Delimiter, text: &[u8], count: usize) -> usize
    requires { delimiter_text delimiter.now ≢ [] }
    ensures within { result ≤ length text.now }
    ensures end { take result text.now ≡ join (delimiter_text delimiter.now) (take (count + 1) (pieces_of (delimiter_text delimiter.now) text.now)) }
{
    match skip(delimiter, text, count) {
        Err(_) => text.len(),
        Ok(at) => match delimiter.find(&text[at..]) {
            None => text.len(),
            Some(before) => at + before,
        },
    }
}

/// $PIECE: the pieces of `text` by `delimiter` from place `from` up to place `to`, with their delimiters between them. If left
/// out, `from` is 1, and `to` is `from` as it was given; a `from` below 1 then counts as 1. Empty if `to` is below `from`, if
/// there is no such piece, and if `delimiter` is empty.
///
/// A part of `text`; takes no memory.
#[tactic(auto, using(crate::proofs::PieceSteps::empty_is, crate::proofs::PieceSteps::none_by_nothing))]
pub fn piece<'t>(text: &'t [u8], delimiter: &[u8], from: Option<i64>, to: Option<i64>) -> &'t [u8]
    ensures { result.now ≡ piece_of text.now delimiter.now from to }
{
    let (before, count) = range(from, to);
    if delimiter.is_empty() || count == 0 {
        return &text[..0];
    }
    let delimiter = Delimiter::new(delimiter);
    match skip(&delimiter, text, before) {
        Err(_) => &text[..0],
        Ok(start) => {
            let rest = &text[start..];
            &rest[..end_of(&delimiter, rest, count - 1)]
        }
    }
}
