// SPDX-License-Identifier: Apache-2.0
// Whether a name conflicts with those that are held: what is below it is counted, and each name above it is looked up.
ghost use Rattle.std.specs.Prelude.{◌≡◌, ◌<◌, ℕ, true, false, length, IfOk};
ghost use Rattle.indexmap.specs.IndexMap.{get};
ghost use Rattle.mspec.specs.LockConflict.{held as lock, has_conflict};
ghost use Rattle.mlock.specs.Holdings.{locks_of};
ghost use Rattle.mlock.specs.Above.{name_above, is_other};
ghost use Rattle.mlock.specs.Tallies.{name_eq, Kept};

use crate::below::is_others_below;
use crate::locks::Holding;
use crate::name::LockName;
use crate::tally::Tally;
use indexmap::IndexMap;
use std::alloc::AllocError;

// Whether another terminal holds a name that conflicts with this one. If no name is held, none is looked up.
pub fn conflicts(
    holdings: &IndexMap<LockName, Holding>,
    below: &IndexMap<LockName, Tally>,
    terminal: u32,
    name: &LockName,
) -> Result<bool, AllocError>
    requires { Kept holdings.now below.now }
    ensures { IfOk result (λ conflict. conflict ≡ has_conflict (locks_of holdings.now) (lock terminal name.now)) }
{
    if holdings.is_empty() {
        return Ok(false);
    }
    if is_others_below(below, terminal, name) {
        return Ok(true);
    }
    if is_others(holdings, terminal, name) {
        return Ok(true);
    }
    is_held_above(holdings, terminal, name)
}

// Whether another terminal holds a name above this one.
fn is_held_above(
    holdings: &IndexMap<LockName, Holding>,
    terminal: u32,
    name: &LockName,
) -> Result<bool, AllocError>
    ensures yes { IfOk result (λ b. b ≡ true → (i : ℕ) × (is_other terminal (get name_eq holdings.now (name_above i name.now)) ≡ true)) }
    ensures no { IfOk result (λ b. b ≡ false → (i : ℕ) → i < length name.now.node.subscripts → is_other terminal (get name_eq holdings.now
        (name_above i name.now)) ≡ false) }
{
    let mut below = name.copy()?;
    while let Some(above) = below.into_parent() {
        if is_others(holdings, terminal, &above) {
            return Ok(true);
        }
        below = above;
    }
    Ok(false)
}

// Whether another terminal holds this very name.
fn is_others(holdings: &IndexMap<LockName, Holding>, terminal: u32, name: &LockName) -> bool
    ensures { result ≡ is_other terminal (get name_eq holdings.now name.now) }
{
    match holdings.get(name) {
        Some(holding) => terminal != holding.terminal,
        None => false,
    }
}
