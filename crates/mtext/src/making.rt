// SPDX-License-Identifier: Apache-2.0
// The texts that functions make, each of at most 4,095 characters.
ghost use Rattle.std.specs.Prelude.{◌≡◌, ◌≢◌, ◌+◌, ◌-◌, ◌<◌, ◌≤◌, [], ◌∷◌, ◌++◌, All, length, take, drop, option_map, replicate, true, IfOk, MatchResult};
ghost use Rattle.std.specs.List.{repeat};
ghost use Rattle.std.specs.Option.{option_to_list};
ghost use Rattle.mspec.specs.Pieces.{join, pieces_of};
ghost use Rattle.mspec.specs.TextFunctions.{
  max_text,
  first_place,
  translated_at,
  translate_of,
  justify_of,
  made,
  with_piece,
  set_piece_of,
  has_places,
  set_extract_of,
  set_pieces_of,
  set_range_of,
};
ghost use Rattle.mtext.specs.Made.{translation, without, Answers};

use crate::cutting::{end_of, skip};
use crate::delimiter::Delimiter;
use crate::fault::{TextFault, check_length};
use crate::places::{end_at, range, within};
use memchr::memchr;
use mnum::Bytes7;
use mspec::limits::{MAX_PLACE, MAX_TEXT};
use std::alloc::{AllocError, Global};

/// The character that replaces one in a translation, or none if it is left out.
#[tactic(auto, using(crate::proofs::FoundPlaces::character_place_is, crate::proofs::MadeTexts::got_is))]
fn translated(character: u8, from: &[u8], to: &[u8]) -> Option<u8>
    ensures { option_to_list result ≡ translated_at to.now character (first_place (character ∷ []) from.now) }
{
    match memchr(character, from) {
        None => Some(character),
        Some(place) => to.get(place).copied(),
    }
}

/// How many characters a translation has. It is never longer than what it translates.
fn translated_length(characters: &[u8], from: &[u8], to: &[u8]) -> usize
    ensures { result ≡ length (translation characters.now from.now to.now) }
{
    let mut length = 0;
    for character in characters {
        if translated(*character, from, to).is_some() {
            length += 1;
        }
    }
    length
}

/// The translation of characters, as long as memory suffices.
fn translation(
    alloc: Global,
    characters: &[u8],
    from: &[u8],
    to: &[u8],
) -> Result<Bytes7, AllocError>
    requires characters { All (λ c. c < 128) characters.now }
    requires to { All (λ c. c < 128) to.now }
    ensures { IfOk result (λ text. text ≡ translation characters.now from.now to.now) }
{
    let mut out = Bytes7::empty(alloc);
    for character in characters {
        if let Some(other) = translated(*character, from, to) {
            out.append(&[other])?;
        }
    }
    Ok(out)
}

/// $TRANSLATE: `text` with each character that is in `from` replaced by the one that `to` has at its first place in `from`, or
/// left out if `to` is shorter.
///
/// # Errors
///
/// `TooLong` exactly if the result would have more than 4,095 characters; for any other result `Memory`, if there is none.
#[tactic(auto, using(crate::proofs::MadeTexts::is_made, crate::proofs::MadeTexts::wanting, crate::proofs::MadeTexts::translation_is_short, crate::proofs::MadeTexts::same_translation))]
pub fn translate(
    alloc: Global,
    text: &Bytes7,
    from: &Bytes7,
    to: &Bytes7,
) -> Result<Bytes7, TextFault>
    ensures { Answers (translate_of text.now from.now to.now) result }
{
    let characters = text.as_bytes();
    let known = from.as_bytes();
    let others = to.as_bytes();
    if characters.len() > MAX_TEXT {
        check_length(translated_length(characters, known, others))?;
    }
    Ok(translation(alloc, characters, known, others)?)
}

// A text of this many spaces, as long as memory suffices.
pub(crate) fn spaces(alloc: Global, count: usize) -> Result<Bytes7, AllocError>
    ensures { IfOk result (λ text. text ≡ replicate count 32) }
{
    let mut out = Bytes7::empty(alloc);
    for _ in 0..count {
        out.append(b" ")?;
    }
    Ok(out)
}

/// $JUSTIFY with two arguments: `text` with spaces before it, up to `width` characters.
///
/// # Errors
///
/// `TooLong` exactly if the result would have more than 4,095 characters; for any other result `Memory`, if there is none.
pub fn justify(alloc: Global, text: &Bytes7, width: i64) -> Result<Bytes7, TextFault>
    ensures { Answers (justify_of text.now width) result }
{
    let characters = text.as_bytes();
    let width = end_at(width);
    check_length(width.max(characters.len()))?;
    let mut out = spaces(alloc, width.saturating_sub(characters.len()))?;
    out.append(characters)?;
    Ok(out)
}

/// A text with a part of it replaced.
fn spliced(
    alloc: Global,
    text: &[u8],
    start: usize,
    end: usize,
    value: &[u8],
) -> Result<Bytes7, TextFault>
    requires text { All (λ c. c < 128) text.now }
    requires value { All (λ c. c < 128) value.now }
    requires order { start ≤ end }
    requires inside { end ≤ length text.now }
    ensures { Answers (made (take start text.now ++ (value.now ++ drop end text.now))) result }
{
    check_length(value.len().saturating_add(start + (text.len() - end)))?;
    let mut out = Bytes7::empty(alloc);
    out.append(&text[..start])?;
    out.append(value)?;
    out.append(&text[end..])?;
    Ok(out)
}

/// A text with `count` delimiters at its end and a value after them, as long as memory suffices.
fn extended(
    alloc: Global,
    text: &[u8],
    delimiter: &[u8],
    count: usize,
    value: &[u8],
) -> Result<Bytes7, AllocError>
    requires text { All (λ c. c < 128) text.now }
    requires delimiter { All (λ c. c < 128) delimiter.now }
    requires value { All (λ c. c < 128) value.now }
    ensures { IfOk result (λ made. made ≡ text.now ++ (repeat count delimiter.now ++ value.now)) }
{
    let mut out = Bytes7::from_slice(alloc, text)?;
    for _ in 0..count {
        out.append(delimiter)?;
    }
    out.append(value)?;
    Ok(out)
}

/// A text with `count` delimiters at its end and a value after them.
fn padded(
    alloc: Global,
    text: &[u8],
    delimiter: &[u8],
    count: usize,
    value: &[u8],
) -> Result<Bytes7, TextFault>
    requires text { All (λ c. c < 128) text.now }
    requires delimiter { All (λ c. c < 128) delimiter.now }
    requires value { All (λ c. c < 128) value.now }
    ensures { Answers (made (text.now ++ (repeat count delimiter.now ++ value.now))) result }
{
    let more = count
        .saturating_mul(delimiter.len())
        .saturating_add(value.len());
    check_length(text.len().saturating_add(more))?;
    Ok(extended(alloc, text, delimiter, count, value)?)
}

/// A text with another piece after the first `before`, in place of the next one and `more` after that.
#[tactic(auto, using(crate::proofs::PieceSetting::set_past))]
fn replaced(
    alloc: Global,
    text: &[u8],
    delimiter: &[u8],
    before: usize,
    more: usize,
    value: &[u8],
) -> Result<Bytes7, TextFault>
    requires text { All (λ c. c < 128) text.now }
    requires delimiter { All (λ c. c < 128) delimiter.now }
    requires value { All (λ c. c < 128) value.now }
    requires some { delimiter.now ≢ [] }
    ensures { Answers (made (join delimiter.now (with_piece before value.now (without before more (pieces_of delimiter.now text.now))))) result }
{
    let sought = Delimiter::new(delimiter);
    match skip(&sought, text, before) {
        Err(missing) => padded(alloc, text, delimiter, missing, value),
        Ok(start) => {
            let end = start + end_of(&sought, &text[start..], more);
            spliced(alloc, text, start, end, value)
        }
    }
}

/// SET of a $PIECE: `text` with `value` as its piece by `delimiter` at a place, which is 1 if it is left out. A text of
/// fewer pieces first gets as many delimiters at its end as that takes.
///
/// # Errors
///
/// `Arg` exactly if the place is not from 1 to 500 or `delimiter` is empty; otherwise `TooLong` exactly if the result would
/// have more than 4,095 characters; otherwise `Memory`, if there is none.
pub fn set_piece(
    alloc: Global,
    text: &Bytes7,
    delimiter: &Bytes7,
    place: Option<i64>,
    value: &Bytes7,
) -> Result<Bytes7, TextFault>
    ensures { Answers (set_piece_of text.now delimiter.now place value.now) result }
{
    let place = end_at(place.unwrap_or(1));
    let delimiter = delimiter.as_bytes();
    if place < 1 || place > MAX_PLACE || delimiter.is_empty() {
        return Err(TextFault::Arg);
    }
    replaced(
        alloc,
        text.as_bytes(),
        delimiter,
        place - 1,
        0,
        value.as_bytes(),
    )
}

// SET of an $EXTRACT.
fn set_extract(
    alloc: Global,
    text: &Bytes7,
    from: Option<i64>,
    to: Option<i64>,
    value: &Bytes7,
) -> Result<Bytes7, TextFault>
    requires { has_places from to ≡ true }
    ensures { Answers (set_extract_of text.now from to value.now) result }
{
    let (before, count) = range(from, to);
    let characters = text.as_bytes();
    let length = characters.len();
    if before > length {
        return padded(alloc, characters, b" ", before - length, value.as_bytes());
    }
    let end = within(before + count, characters);
    spliced(alloc, characters, before, end, value.as_bytes())
}

// SET of several pieces.
fn set_pieces(
    alloc: Global,
    text: &Bytes7,
    delimiter: &Bytes7,
    from: Option<i64>,
    to: Option<i64>,
    value: &Bytes7,
) -> Result<Bytes7, TextFault>
    requires { has_places from to ≡ true }
    ensures { Answers (set_pieces_of text.now delimiter.now from to value.now) result }
{
    let (before, count) = range(from, to);
    let delimiter = delimiter.as_bytes();
    if before >= MAX_PLACE || delimiter.is_empty() {
        return Err(TextFault::Arg);
    }
    replaced(
        alloc,
        text.as_bytes(),
        delimiter,
        before,
        count - 1,
        value.as_bytes(),
    )
}

/// SET of several places: `text` with `value` in place of its characters from one place up to another, or of its pieces if there is a
/// delimiter. If left out, `from` is 1, and `to` is `from` as it was given; a `from` below 1 then counts as 1. A text that ends before
/// `from` first gets as many spaces or delimiters at its end as that takes.
///
/// # Errors
///
/// `Arg` exactly if a delimiter is empty or if `from` is above 500 with one; otherwise `TooLong` exactly if the result would have more
/// than 4,095 characters; otherwise `Memory`, if there is none.
pub fn set_range(
    alloc: Global,
    text: &Bytes7,
    delimiter: Option<&Bytes7>,
    from: Option<i64>,
    to: Option<i64>,
    value: &Bytes7,
) -> Result<Bytes7, TextFault>
    requires { has_places from to ≡ true }
    ensures { Answers (set_range_of text.now (option_map (λ d. d.now) delimiter.entry) from to value.now) result }
{
    match delimiter {
        None => set_extract(alloc, text, from, to, value),
        Some(delimiter) => set_pieces(alloc, text, delimiter, from, to, value),
    }
}
