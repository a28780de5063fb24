// SPDX-License-Identifier: Apache-2.0
// Lists with commas between.
ghost use Rattle.std.specs.Prelude.{ℕ, List, length, map};
ghost use Rattle.mgrammar.specs.ReadingWords.{Read, with_front, many, after_comma, list_at};
ghost use Rattle.mscan.specs.Gives.{Gives};

use mscan::{ParseFault, past};
use std::alloc::Global;

// What reads the items of a list with commas between.
pub trait Items: Copy {
    type Item: Drop;

    ghost Tree: { Type 0 };

    ghost tree: { Self.Item → Tree };

    ghost read: { Self → List ℕ → Read Tree };

    fn item(self, alloc: Global, bytes: &[u8]) -> Result<(Self::Item, &[u8]), ParseFault>
        ensures { Gives (λ x. (tree x.0, x.1.now)) result (read self bytes.now) };
}

// The items after those so far, each with a comma before it. Kept out of line, so that a list of one item does not pay for the stack
// frame that the items of this loop move through.
#[inline(never)]
fn more<T: Items>(
    items: T,
    alloc: Global,
    front: Vec<T::Item>,
    bytes: &[u8],
) -> Result<(Vec<T::Item>, &[u8]), ParseFault>
    ensures { Gives (λ x. (map T.tree x.0.items, x.1.now)) result (with_front (map T.tree front.items) (many (after_comma (T.read items))
        (length bytes.now) bytes.now)) }
{
    let mut all = front;
    let mut rest = bytes;
    for _ in 0..bytes.len() {
        let Some(behind) = past(b',', rest) else {
            break;
        };
        let (item, after) = items.item(alloc, behind)?;
        all.push(item)?;
        rest = after;
    }
    Ok((all, rest))
}

// One item or more, with commas between. The functions of expressions have loops of their own in its place: their proof
// is one of all calls between them, which takes no call through a trait.
#[tactic(auto, using(std::proofs::lemmas::Result::err_from_is_err_and, mscan::proofs::Faults::list_fails, crate::proofs::Lists::list_goes_on, crate::proofs::Lists::is_alone))]
pub fn list<T: Items>(
    items: T,
    alloc: Global,
    bytes: &[u8],
) -> Result<(Vec<T::Item>, &[u8]), ParseFault>
    ensures { Gives (λ x. (map T.tree x.0.items, x.1.now)) result (list_at (T.read items) bytes.now) }
{
    let (first, rest) = items.item(alloc, bytes)?;
    // most lists have one item, and items are large
    let mut all = Vec::with_capacity(alloc, 1)?;
    all.push_reserved(first);
    let Some(_) = past(b',', rest) else {
        return Ok((all, rest));
    };
    more(items, alloc, all, rest)
}
