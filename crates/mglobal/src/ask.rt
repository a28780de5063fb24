// SPDX-License-Identifier: Apache-2.0
//! What $DATA and $ORDER ask of a node.
ghost use Rattle.std.specs.Prelude.{◌≡◌, ◌≢◌, IfOk, IfSome, OnOk, Err, IsTrue, is_ok, option_map};
ghost use Rattle.mnodes.specs.Over.{DoubtsOver};
ghost use Rattle.mglobal.specs.Next.{nearest_key};
ghost use Rattle.mglobal.specs.Words.{AreHeld, AreOrderSubscripts, IsAccountName, IsName, IsSub, order_at, status, way};

use crate::bounds::{bounds, key_of};
use mkey::{Data, Direction, NodeKey, front};
use mnodes::{NodeStore, StoreFault};
use mnum::Bytes7;
use mvalue::Value;
use std::alloc::Global;

/// Whether a node has a text, and whether a node below it has one.
///
/// # Errors
///
/// Those of the store: `Memory` if memory runs out, and `Store`, which a steady one that has room never answers.
pub fn status<S: NodeStore>(store: &mut S, alloc: Global, key: &NodeKey) -> Result<Data, StoreFault>
    ensures value { S.doubt store.new ≡ 0 → IfOk result (λ found. found.value ≡ (status (S.content store.old) key.now).0) }
    ensures descendants { S.doubt store.new ≡ 0 → IfOk result (λ found. found.descendants ≡ (status (S.content store.old) key.now).1) }
    ensures same { S.doubt store.new ≡ 0 → S.content store.new ≡ S.content store.old }
    ensures doubt { DoubtsOver S.NodeStore store.old store.new (is_ok result) }
    ensures store { S.steady → IsTrue (S.has_room store.new) → result ≢ Err StoreFault.Store }
{
    let value = store.get(key)?.is_some();
    let (low, high) = key.child_bounds(alloc)?;
    let descendants = store.next(&low, &high)?.is_some();
    Ok(Data { value, descendants })
}

// The first key within bounds, or the last.
pub(crate) fn nearest<S: NodeStore>(
    store: &mut S,
    low: &[u8],
    high: &[u8],
    direction: Direction,
) -> Result<Option<Vec<u8>>, StoreFault>
    ensures found { S.doubt store.new ≡ 0 → IfOk result (λ key. option_map (λ bytes. bytes.items) key ≡ nearest_key (way direction)
        (S.content store.old) low.now high.now) }
    ensures held { S.doubt store.new ≡ 0 → AreHeld (S.content store.old) }
    ensures same { S.doubt store.new ≡ 0 → S.content store.new ≡ S.content store.old }
    ensures doubt { DoubtsOver S.NodeStore store.old store.new (is_ok result) }
    ensures store { S.steady → IsTrue (S.has_room store.new) → result ≢ Err StoreFault.Store }
{
    match direction {
        Direction::Forward => store.next(low, high),
        Direction::Backward => store.prev(low, high),
    }
}

/// The subscript next to the last one, among those in its place at which there is a text or a node below. An empty last subscript
/// begins the walk, at the first or from the last, and a result of none ends it. A subscript that is a number is given as a number.
///
/// # Errors
///
/// Those of the store: `Memory` if memory runs out, and `Store`, which a steady one that has room never answers; also `Store` if the key that
/// was found is not that of a node.
pub fn neighbour<S: NodeStore>(
    store: &mut S,
    alloc: Global,
    account: &[u8],
    name: &Bytes7,
    subs: &[Value],
    direction: Direction,
) -> Result<Option<Value>, StoreFault>
    requires account { IsAccountName account.now }
    requires name { IsName name.now }
    requires subs { AreOrderSubscripts subs.now }
    ensures next { S.doubt store.new ≡ 0 → IfOk result (λ next. next ≡ order_at (S.content store.old) (way direction)
        (record { account = account.now; name = name.now; subscripts = subs.now })) }
    ensures held { S.doubt store.new ≡ 0 → OnOk result (AreHeld (S.content store.old)) }
    ensures sub { IfOk result (λ next. IfSome next IsSub) }
    ensures same { S.doubt store.new ≡ 0 → S.content store.new ≡ S.content store.old }
    ensures doubt { DoubtsOver S.NodeStore store.old store.new (is_ok result) }
    ensures store { S.steady → IsTrue (S.has_room store.new) → result ≢ Err StoreFault.Store }
{
    let above = key_of(alloc, account, name, front(subs))?;
    let (low, high) = bounds(alloc, account, name, subs, direction, &above)?;
    let Some(found) = nearest(store, &low, &high, direction)? else {
        return Ok(None);
    };
    match above.child_in(alloc, &found)? {
        Some(child) => Ok(Some(child)),
        None => Err(StoreFault::Store),
    }
}
