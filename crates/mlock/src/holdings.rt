// SPDX-License-Identifier: Apache-2.0
// The names that are held, each with its holder, beside what is kept about the names above them.
ghost use Rattle.std.specs.Prelude.{◌≡◌, ◌<◌, ◌≤◌, ℕ, Some, None, OnOk, OnErr, MatchOption, IfSome, slice_get, swap_remove, length};
ghost use Rattle.std.specs.FinMap.{insert, remove};
ghost use Rattle.indexmap.specs.IndexMap.{get, index_map_len, IsUnique};
ghost use Rattle.mspec.specs.LockConflict.{LockName as Name, held as lock, one_more, released};
ghost use Rattle.mlock.specs.Holdings.{locks_of};
ghost use Rattle.mlock.specs.Tallies.{name_eq, Kept, IsRecounted};
ghost use Rattle.mlock.specs.declared.locks.Holding.{Holding as Held};

use crate::below::{add_above, make_room_above, take_off_above};
use crate::locks::Holding;
use crate::name::LockName;
use crate::tally::Tally;
use indexmap::IndexMap;
use std::alloc::AllocError;

// Where the name is, who holds it, and how often.
pub fn find(holdings: &IndexMap<LockName, Holding>, name: &LockName) -> Option<(usize, Holding)>
    ensures { MatchOption result (get name_eq holdings.now name.now ≡ None) (λ found. slice_get holdings.now.entries found.0 ≡ Some (name.now, found.1)) }
{
    let (index, _, holding) = holdings.get_full(name)?;
    Some((index, *holding))
}

// The terminal comes to hold, once, a name that no terminal held.
pub fn hold(
    holdings: &mut IndexMap<LockName, Holding>,
    below: &mut IndexMap<LockName, Tally>,
    terminal: u32,
    name: &LockName,
) -> Result<(), AllocError>
    requires kept { Kept holdings.old below.old }
    requires free { get name_eq holdings.old name.now ≡ None }
    ensures kept { Kept holdings.new below.new }
    ensures held { OnOk result (locks_of holdings.new ≡ one_more (locks_of holdings.old) (lock terminal name.now)) }
    ensures err { OnErr result (locks_of holdings.new ≡ locks_of holdings.old) }
{
    let key = name.copy()?;
    let levels = name.copy()?;
    let walk = name.copy()?;
    // the length is what says that one more name can be counted
    let _len = holdings.len();
    make_room_above(below, levels)?;
    holdings.insert(key, Holding { terminal, count: 1 })?;
    add_above(below, terminal, walk);
    Ok(())
}

// The holder of a name holds it as often as `holding` says.
pub fn set_count(holdings: &mut IndexMap<LockName, Holding>, index: usize, holding: Holding)
    requires within { index < index_map_len holdings.old }
    requires own { IfSome (slice_get holdings.old.entries index) (λ e. e.1.terminal ≡ holding.terminal) }
    ensures kept { IsUnique name_eq holdings.old → IsRecounted holdings.old holdings.new }
    ensures locks { (n : Name) (h : Held) → slice_get holdings.old.entries index ≡ Some (n, h) → IsUnique name_eq holdings.old → locks_of holdings.new ≡ insert
        (locks_of holdings.old) (lock holding.terminal n) holding.count }
{
    holdings[index] = holding;
}

// Nobody holds the name at this place any more; the last name takes its place. Takes no memory.
pub fn let_go(
    holdings: &mut IndexMap<LockName, Holding>,
    below: &mut IndexMap<LockName, Tally>,
    index: usize,
)
    requires kept { Kept holdings.old below.old }
    requires within { index < index_map_len holdings.old }
    ensures kept { Kept holdings.new below.new }
    ensures removed { (n : Name) (h : Held) → slice_get holdings.old.entries index ≡ Some (n, h) → locks_of holdings.new ≡ remove (locks_of holdings.old)
        (lock h.terminal n) }
    ensures entries { (e : Name × Held) → slice_get holdings.old.entries index ≡ Some e → holdings.new.entries ≡ swap_remove holdings.old.entries index e }
{
    if let Some((name, holding)) = holdings.swap_remove_index(index) {
        take_off_above(below, holding.terminal, name);
    }
}

// Who holds the name at this place.
fn holder_at(holdings: &IndexMap<LockName, Holding>, index: usize) -> u32
    requires { index < index_map_len holdings.now }
    ensures { (e : Name × Held) → slice_get holdings.now.entries index ≡ Some e → result ≡ e.1.terminal }
{
    holdings[index].terminal
}

// Releases all that the terminal holds. Takes no memory.
pub fn release(
    holdings: &mut IndexMap<LockName, Holding>,
    below: &mut IndexMap<LockName, Tally>,
    terminal: u32,
)
    requires kept { Kept holdings.old below.old }
    ensures kept { Kept holdings.new below.new }
    ensures released { locks_of holdings.new ≡ released (locks_of holdings.old) terminal }
{
    let mut index = 0;
    while index < holdings.len() {
        if holder_at(holdings, index) == terminal {
            let_go(holdings, below, index);
        } else {
            index += 1;
        }
    }
}
