// SPDX-License-Identifier: Apache-2.0
// What takes a part of a text, or asks about it, by its characters.
ghost use Rattle.std.specs.Prelude.{◌≡◌};
ghost use Rattle.mspec.specs.TextFunctions.{extract_of, find_of, contains, follows};

use crate::places::{begin_at, range, within};
use memchr::memmem;
use std::cmp::Ordering;

/// $EXTRACT: the characters of `text` from place `from` up to place `to`. If left out, `from` is 1, and `to` is `from` as it was
/// given; a `from` below 1 then counts as 1. Empty if `to` is below `from`, or there is no such character.
///
/// A part of `text`; takes no memory.
pub fn extract(text: &[u8], from: Option<i64>, to: Option<i64>) -> &[u8]
    ensures { result.now ≡ extract_of text.now from to }
{
    let (before, count) = range(from, to);
    let rest = &text[within(before, text)..];
    &rest[..within(count, rest)]
}

/// $FIND: the place after the first `what` that begins in `text` at place `from` or later, or 0 if there is none. `from` is 1
/// if it is left out or below 1. The empty text is found at `from`, even past the end of `text`. Takes no memory.
pub fn find(text: &[u8], what: &[u8], from: Option<i64>) -> u64
    ensures { result ≡ find_of text.now what.now from }
{
    let start = begin_at(from);
    let rest = &text[within(start - 1, text)..];
    match memmem::find(rest, what) {
        None => 0,
        Some(before) => (start + before + what.len()) as u64,
    }
}

/// The operator `[`: whether `text` contains `what`; each text contains the empty one. Takes no memory.
#[tactic(auto, using(crate::proofs::FoundPlaces::first_place_is))]
pub fn contains(text: &[u8], what: &[u8]) -> bool
    ensures { result ≡ contains text.now what.now }
{
    memmem::find(text, what).is_some()
}

/// The operator `]`: whether `text` comes after `other` in the order of character codes. Takes no memory.
#[tactic(auto, using(crate::proofs::CharacterOrder::follows_is))]
pub fn follows(text: &[u8], other: &[u8]) -> bool
    ensures { result ≡ follows text.now other.now }
{
    text.cmp(other) == Ordering::Greater
}
