// SPDX-License-Identifier: Apache-2.0
// The bounds of the keys among which the next node of a walk is found.
ghost use Rattle.std.specs.Prelude.{◌≡◌, ◌≢◌, IfOk, Err};
ghost use Rattle.mglobal.specs.Next.{BoundsOnward};
ghost use Rattle.mglobal.specs.Words.{AreOrderSubscripts, AreSubscripts, IsAccountName, IsName, front, last, way};

use mkey::{Direction, KeyFault, NodeKey, last};
use mnodes::StoreFault;
use mnum::Bytes7;
use mvalue::Value;
use std::alloc::Global;

// The key of a node whose subscripts are those of a node.
pub fn key_of(
    alloc: Global,
    account: &[u8],
    name: &Bytes7,
    subs: &[Value],
) -> Result<NodeKey, StoreFault>
    requires account { IsAccountName account.now }
    requires name { IsName name.now }
    requires subs { AreSubscripts subs.now }
    ensures key { IfOk result (λ key. key ≡ record { account = account.now; name = name.now; subscripts = subs.now }) }
    ensures store { result ≢ Err StoreFault.Store }
{
    match NodeKey::build_values(alloc, account, name, subs) {
        Ok(key) => Ok(key),
        Err(KeyFault::Memory) => Err(StoreFault::Memory),
        Err(KeyFault::Sub) => unreachable!(),
    }
}

// The bounds of the keys below the node above, on the side of the last subscript to which the walk goes. Forward, they begin after
// all that is below the present subscript.
pub fn bounds(
    alloc: Global,
    account: &[u8],
    name: &Bytes7,
    subs: &[Value],
    direction: Direction,
    above: &NodeKey,
) -> Result<(Vec<u8>, Vec<u8>), StoreFault>
    requires account { IsAccountName account.now }
    requires name { IsName name.now }
    requires subs { AreOrderSubscripts subs.now }
    requires above { above.now ≡ record { account = account.now; name = name.now; subscripts = front subs.now } }
    ensures bounds { IfOk result (λ bounds. BoundsOnward (way direction) above.now (last subs.now) bounds.0.items bounds.1.items) }
    ensures store { result ≢ Err StoreFault.Store }
{
    if last(subs).is_empty() {
        let (low, high) = above.child_bounds(alloc)?;
        return Ok((low, high));
    }
    let present = key_of(alloc, account, name, subs)?;
    match direction {
        Direction::Forward => {
            let low = present.into_after_subtree()?;
            let high = above.after_subtree(alloc)?;
            Ok((low, high))
        }
        Direction::Backward => {
            let low = above.children_start(alloc)?;
            let high = present.into_bytes();
            Ok((low, high))
        }
    }
}
