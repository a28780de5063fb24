// SPDX-License-Identifier: Apache-2.0
// Where a text stands among the subscripts.
ghost use Rattle.std.specs.Prelude.{◌≡◌, ◌*◌, ◌^◌, ◌<◌, pos, unsigned_abs, Some, is_some, IfSome};
ghost use Rattle.mspec.specs.Number.{significant_digits};
ghost use Rattle.mspec.specs.NodeOrder.{canonical_value, text_cmp};

use mnum::{Bytes7, Num, is_canonical, short_whole};
use std::cmp::Ordering;

// The units of 1.
const UNIT: i128 = 1_000_000_000_000_000_000;

// The number that the text writes, if it is one to eighteen digits without a leading zero, or `0`: the short way for small
// whole numbers.
#[tactic(auto, using(crate::proofs::ShortTexts::short_values))]
fn short_canonical(text: &[u8]) -> Option<u64>
    ensures value { IfSome result (λ n. canonical_value significant_digits text.now ≡ Some (pos (n * 10 ^ 18))) }
    ensures below { IfSome result (λ n. n < 10 ^ 18) }
{
    if text.is_empty() {
        return None;
    }
    if text[0] == b'0' && text.len() > 1 {
        return None;
    }
    short_whole(text)
}

// The number whose canonical text this is, in units of 10^-18, or None if it is no such text.
pub fn canonical(text: &[u8]) -> Option<i128>
    ensures value { result ≡ canonical_value significant_digits text.now }
    ensures range { IfSome result (λ u. unsigned_abs u < 10 ^ 36) }
{
    if let Some(whole) = short_canonical(text) {
        return Some(whole as i128 * UNIT);
    }
    if !is_canonical(text) {
        return None;
    }
    match Num::from_text(text) {
        Ok(number) => Some(number.to_units()),
        Err(_) => None,
    }
}

/// Whether the text is the canonical text of a number, and takes its place among the subscripts by that number. Takes no memory.
pub fn is_numeric(text: &Bytes7) -> bool
    ensures { result ≡ is_some (canonical_value significant_digits text.now) }
{
    canonical(text.as_bytes()).is_some()
}

/// The order of two texts as subscripts: the empty text, then canonical texts of numbers by value, then all others by character
/// codes. Takes no memory.
pub fn collate(a: &Bytes7, b: &Bytes7) -> Ordering
    ensures { result ≡ text_cmp significant_digits a.now b.now }
{
    let left = a.as_bytes();
    let right = b.as_bytes();
    if left.is_empty() || right.is_empty() {
        return left.len().min(1).cmp(&right.len().min(1));
    }
    match (canonical(left), canonical(right)) {
        (Some(u), Some(v)) => u.cmp(&v),
        (Some(_), None) => Ordering::Less,
        (None, Some(_)) => Ordering::Greater,
        (None, None) => left.cmp(right),
    }
}
