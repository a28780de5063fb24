// SPDX-License-Identifier: Apache-2.0
// What $QUERY asks of a node.
ghost use Rattle.std.specs.Prelude.{◌≡◌, ◌≢◌, [], IfOk, OnOk, Err, IsTrue, is_ok};
ghost use Rattle.mspec.specs.Globals.{following_at};
ghost use Rattle.mspec.specs.Trees.{Forward, Backward, AreQuerySubscripts};
ghost use Rattle.mnodes.specs.Over.{DoubtsOver};
ghost use Rattle.mglobal.specs.Next.{BoundsFollowing};
ghost use Rattle.mglobal.specs.Words.{AreHeld, IsAccountName, IsName, way};

use crate::ask::nearest;
use crate::bounds::key_of;
use mkey::{Direction, NodeKey, Subs, ends_empty, read, without_empty};
use mnodes::{NodeStore, StoreFault};
use mnum::Bytes7;
use mvalue::Value;
use std::alloc::Global;

// The bounds of the keys of a global to which a walk forward from a node comes, where the global's own node is given.
fn bounds_after(
    alloc: Global,
    account: &[u8],
    name: &Bytes7,
    subs: &[Value],
    root: NodeKey,
) -> Result<(Vec<u8>, Vec<u8>), StoreFault>
    requires account { IsAccountName account.now }
    requires name { IsName name.now }
    requires subs { AreQuerySubscripts subs.now }
    requires root { root ≡ record { account = account.now; name = name.now; subscripts = [] } }
    ensures bounds { IfOk result (λ bounds. BoundsFollowing Forward (record { account = account.now; name = name.now; subscripts = subs.now })
        bounds.0.items bounds.1.items) }
    ensures store { result ≢ Err StoreFault.Store }
{
    let present = key_of(alloc, account, name, without_empty(subs))?;
    let low = present.into_behind()?;
    let high = root.into_after_subtree()?;
    Ok((low, high))
}

// The same backward.
fn bounds_before(
    alloc: Global,
    account: &[u8],
    name: &Bytes7,
    subs: &[Value],
    root: NodeKey,
) -> Result<(Vec<u8>, Vec<u8>), StoreFault>
    requires account { IsAccountName account.now }
    requires name { IsName name.now }
    requires subs { AreQuerySubscripts subs.now }
    requires root { root ≡ record { account = account.now; name = name.now; subscripts = [] } }
    ensures bounds { IfOk result (λ bounds. BoundsFollowing Backward (record { account = account.now; name = name.now; subscripts = subs.now })
        bounds.0.items bounds.1.items) }
    ensures store { result ≢ Err StoreFault.Store }
{
    let present = key_of(alloc, account, name, without_empty(subs))?;
    let low = root.into_bytes();
    if ends_empty(subs) {
        let end = present.into_after_subtree()?;
        return Ok((low, end));
    }
    let high = present.into_bytes();
    Ok((low, high))
}

// The same in a direction.
fn bounds_following(
    alloc: Global,
    account: &[u8],
    name: &Bytes7,
    subs: &[Value],
    direction: Direction,
) -> Result<(Vec<u8>, Vec<u8>), StoreFault>
    requires account { IsAccountName account.now }
    requires name { IsName name.now }
    requires subs { AreQuerySubscripts subs.now }
    ensures bounds { IfOk result (λ bounds. BoundsFollowing (way direction)
        (record { account = account.now; name = name.now; subscripts = subs.now }) bounds.0.items bounds.1.items) }
    ensures store { result ≢ Err StoreFault.Store }
{
    let root = key_of(alloc, account, name, &[])?;
    match direction {
        Direction::Forward => bounds_after(alloc, account, name, subs, root),
        Direction::Backward => bounds_before(alloc, account, name, subs, root),
    }
}

/// The subscripts of the first node after this one of its global that has a text, or of the last before it. An empty last subscript is before
/// all that it may stand for, and backward after all at or below the node above it.
///
/// # Errors
///
/// Those of the store: `Memory` if memory runs out, and `Store`, which a steady one that has room never answers; also `Store` if the key that
/// was found is not that of a node.
pub fn following<S: NodeStore>(
    store: &mut S,
    alloc: Global,
    account: &[u8],
    name: &Bytes7,
    subs: &[Value],
    direction: Direction,
) -> Result<Option<Subs>, StoreFault>
    requires account { IsAccountName account.now }
    requires name { IsName name.now }
    requires subs { AreQuerySubscripts subs.now }
    ensures next { S.doubt store.new ≡ 0 → IfOk result (λ found. found ≡ following_at (S.content store.old) (way direction)
        (record { account = account.now; name = name.now; subscripts = subs.now })) }
    ensures held { S.doubt store.new ≡ 0 → OnOk result (AreHeld (S.content store.old)) }
    ensures same { S.doubt store.new ≡ 0 → S.content store.new ≡ S.content store.old }
    ensures doubt { DoubtsOver S.NodeStore store.old store.new (is_ok result) }
    ensures store { S.steady → IsTrue (S.has_room store.new) → result ≢ Err StoreFault.Store }
{
    let (low, high) = bounds_following(alloc, account, name, subs, direction)?;
    let Some(found) = nearest(store, &low, &high, direction)? else {
        return Ok(None);
    };
    let parts = read(alloc, &found)?;
    match parts {
        Some((_, _, next)) => Ok(Some(next)),
        None => Err(StoreFault::Store),
    }
}
