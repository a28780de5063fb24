// SPDX-License-Identifier: Apache-2.0
// Places as numbers that a text can be cut at.
ghost use Rattle.std.specs.Prelude.{◌≡◌, ◌+◌, ◌-◌, ◌≤◌, ◌<◌, ◌^◌, pos, length, min, unwrap_or};
ghost use Rattle.mspec.specs.TextFunctions.{from_place, to_place, has_places};

/// A place to begin at, which is the first if it is left out or below 1.
pub(crate) fn begin_at(place: Option<i64>) -> usize
    ensures value { result ≡ from_place (unwrap_or place (pos 1)) }
    ensures low { 1 ≤ result }
    ensures high { result < 2 ^ 63 }
{
    let place = place.unwrap_or(1);
    if place < 1 { 1 } else { place as usize }
}

/// A place to end at: before the first, if the number is below 1.
pub(crate) fn end_at(place: i64) -> usize
    ensures value { result ≡ to_place place }
    ensures high { result < 2 ^ 63 }
{
    if place < 0 { 0 } else { place as usize }
}

/// How many come before a range, and how many the range has if there are enough. If left out, `from` is 1, and `to` is `from`
/// as it was given.
pub(crate) fn range(from: Option<i64>, to: Option<i64>) -> (usize, usize)
    ensures before { result.0 ≡ from_place (unwrap_or from (pos 1)) - 1 }
    ensures count { result.1 ≡ to_place (unwrap_or to (unwrap_or from (pos 1))) + 1 - from_place (unwrap_or from (pos 1)) }
{
    let first = begin_at(from);
    let last = end_at(to.unwrap_or(from.unwrap_or(1)));
    (first - 1, (last + 1).saturating_sub(first))
}

/// Whether there is a place from one up to another. If left out, `from` is 1, and `to` is `from` as it was given; a `from` below 1 then
/// counts as 1. Takes no memory.
pub fn has_places(from: Option<i64>, to: Option<i64>) -> bool
    ensures { result ≡ has_places from to }
{
    let (_, count) = range(from, to);
    count > 0
}

/// The place in a text after `count` of its characters, or its end.
pub(crate) fn within(count: usize, text: &[u8]) -> usize
    ensures { result ≡ min count (length text.now) }
{
    count.min(text.len())
}
