// SPDX-License-Identifier: Apache-2.0
// Copies of routines.
ghost use Rattle.std.specs.Prelude.{◌≡◌, ◌≢◌, ◌||◌, not, All, IfOk, IfSome};
ghost use Rattle.mglobal.specs.Copies.{IsCopyIn, AreCopiesIn, IsApart};
ghost use Rattle.mglobal.specs.Lines.{routine_at};
ghost use Rattle.mspec.specs.Globals.{Globals, is_node_within, lines_of};
ghost use Rattle.mspec.specs.KeyBytes.{IsAccountName};
ghost use Rattle.mspec.specs.Names.{IsName};

use crate::bounds::key_of;
use mkey::NodeKey;
use mnodes::StoreFault;
use mnum::Bytes7;
use mvalue::Value;
use std::alloc::Global;
use std::rc::Rc;
use std::slice::from_ref;

// The most copies that are kept: for the most part, more routines than a running one calls in turn.
const MOST_COPIES: usize = 32;

// The lines of an account's routine, with the key of the node above them.
pub(crate) struct RoutineCopy {
    account: Bytes7,
    name: Bytes7,
    key: NodeKey,
    lines: Rc<Vec<Bytes7>>,
}

// Written out, so that dropping it is one call, which is proved once.
impl Drop for RoutineCopy {
    fn drop(self) {
        let RoutineCopy {
            account: _,
            name: _,
            key: _,
            lines: _,
        } = self;
    }
}

// Whether one of two nodes is the other, or is below it.
fn touches(one: &NodeKey, other: &NodeKey) -> bool
    ensures { result ≡ (is_node_within one.now other.now || is_node_within other.now one.now) }
{
    let (one, other) = (one.as_bytes(), other.as_bytes());
    other.starts_with(one) || one.starts_with(other)
}

// Drops the copies that a write to a node, or below it, may change.
pub(crate) fn forget(copies: &mut Vec<RoutineCopy>, written: &NodeKey)
    ensures others { (globals : Globals) → AreCopiesIn globals copies.old.items → AreCopiesIn globals copies.new.items }
    ensures apart { All (IsApart written.now) copies.new.items }
{
    copies.retain(
        |copy: &RoutineCopy| -> bool
            ensures { result ≡ not (is_node_within written.entry.now copy.now.key || is_node_within copy.now.key written.entry.now) }
        { !touches(written, &copy.key) },
    );
}

// The lines of a routine of which there is a copy, as one more reference to them.
pub(crate) fn find(
    copies: &[RoutineCopy],
    account: &Bytes7,
    name: &Bytes7,
) -> Option<Rc<Vec<Bytes7>>>
    ensures { (globals : Globals) → AreCopiesIn globals copies.now → IfSome result (λ lines. lines.value.items ≡ lines_of globals account.now name.now) }
{
    for copy in copies {
        if copy.account == *account && copy.name == *name {
            return copy.lines.clone().ok();
        }
    }
    None
}

// The key of the node above the lines of a routine.
fn key_above(alloc: Global, account: &Bytes7, name: &Bytes7) -> Result<NodeKey, StoreFault>
    requires account { IsAccountName account.now }
    requires name { IsName name.now }
    ensures { IfOk result (λ key. key ≡ routine_at account.now name.now) }
{
    let global = Bytes7::from_slice(alloc, b"ROUTINE")?;
    let routine = Value::of_text(name.copy()?);
    key_of(alloc, account.as_bytes(), &global, from_ref(&routine))
}

// A copy of a routine.
fn copy_of(
    alloc: Global,
    account: &Bytes7,
    name: &Bytes7,
    lines: &Rc<Vec<Bytes7>>,
) -> Result<RoutineCopy, StoreFault>
    requires account { IsAccountName account.now }
    requires name { IsName name.now }
    ensures { IfOk result (λ copy. (globals : Globals) → lines.now.value.items ≡ lines_of globals account.now name.now → IsCopyIn globals copy) }
{
    Ok(RoutineCopy {
        account: account.copy()?,
        name: name.copy()?,
        key: key_above(alloc, account, name)?,
        lines: lines.clone()?,
    })
}

// Keeps a copy of a routine if there is memory for it, in place of the oldest one if there are many.
pub(crate) fn keep(
    alloc: Global,
    copies: &mut Vec<RoutineCopy>,
    account: &Bytes7,
    name: &Bytes7,
    lines: &Rc<Vec<Bytes7>>,
)
    requires account { IsAccountName account.now }
    requires name { IsName name.now }
    ensures { (globals : Globals) → AreCopiesIn globals copies.old.items → lines.now.value.items ≡ lines_of globals account.now name.now
        → AreCopiesIn globals copies.new.items }
{
    let Ok(copy) = copy_of(alloc, account, name, lines) else {
        return;
    };
    if copies.len() >= MOST_COPIES {
        drop(copies.remove(0));
    }
    drop(copies.push(copy));
}
