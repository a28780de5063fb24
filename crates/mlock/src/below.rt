// SPDX-License-Identifier: Apache-2.0
// What is kept about the names above those that are held: for each, the tally of what is held below it.
ghost use Rattle.std.specs.Prelude.{◌≡◌, true, not, IfOk, OnOk, if◌then◌else◌};
ghost use Rattle.mspec.specs.LockConflict.{LockName as Name};
ghost use Rattle.mlock.specs.Tallies.{name_eq, is_under, is_only, with_one, tally_at, HasEntry, HasRoom};
ghost use Rattle.mlock.specs.declared.tally.Tally.{Tally as Counts};

use crate::name::LockName;
use crate::tally::Tally;
use indexmap::IndexMap;
use std::alloc::AllocError;

// Whether another terminal holds a name below this one.
pub fn is_others_below(below: &IndexMap<LockName, Tally>, terminal: u32, name: &LockName) -> bool
    ensures { result ≡ not (is_only terminal (tally_at below.now name.now)) }
{
    match below.get(name) {
        Some(tally) => !tally.is_only(terminal),
        None => false,
    }
}

// Makes an entry for each name above this one, with the tally that it has, or that of no name.
pub fn make_room_above(
    below: &mut IndexMap<LockName, Tally>,
    name: LockName,
) -> Result<(), AllocError>
    ensures same { (n : Name) → tally_at below.new n ≡ tally_at below.old n }
    ensures keeps { (n : Name) → HasEntry below.old n → HasEntry below.new n }
    ensures made { OnOk result ((n : Name) → is_under n name ≡ true → HasEntry below.new n) }
{
    let Some(above) = name.into_parent() else {
        return Ok(());
    };
    make_room(below, &above)?;
    make_room_above(below, above)
}

// Makes an entry for the name, with the tally that it has, or that of no name.
fn make_room(below: &mut IndexMap<LockName, Tally>, name: &LockName) -> Result<(), AllocError>
    ensures same { (n : Name) → tally_at below.new n ≡ tally_at below.old n }
    ensures keeps { (n : Name) → HasEntry below.old n → HasEntry below.new n }
    ensures made { OnOk result (HasEntry below.new name.now) }
{
    if !below.contains_key(name) {
        let key = name.copy()?;
        below.insert(key, Tally::none())?;
    }
    Ok(())
}

// Counts a name that the terminal holds at each name above it.
pub fn add_above(below: &mut IndexMap<LockName, Tally>, terminal: u32, name: LockName)
    requires made { (n : Name) → is_under n name ≡ true → HasEntry below.old n }
    requires room { (n : Name) → is_under n name ≡ true → HasRoom (tally_at below.old n) }
    ensures { (n : Name) → tally_at below.new n ≡ (if is_under n name then with_one terminal (tally_at below.old n) else tally_at below.old n) }
{
    let Some(above) = name.into_parent() else {
        return;
    };
    add(below, terminal, &above);
    add_above(below, terminal, above)
}

// Counts a name that the terminal holds at this name.
fn add(below: &mut IndexMap<LockName, Tally>, terminal: u32, name: &LockName)
    requires made { HasEntry below.old name.now }
    requires room { HasRoom (tally_at below.old name.now) }
    ensures keeps { (n : Name) → HasEntry below.old n → HasEntry below.new n }
    ensures counted { (n : Name) → tally_at below.new n ≡ (if name_eq name.now n then with_one terminal (tally_at below.old n) else tally_at below.old n) }
{
    if let Some(tally) = below.get_mut(name) {
        *tally = tally.with_one(terminal);
    }
}

// Removes a name that the terminal held from the tally of each name above it. Takes no memory.
pub fn take_off_above(below: &mut IndexMap<LockName, Tally>, terminal: u32, name: LockName)
    requires { (n : Name) → is_under n name ≡ true → (rest : Counts) × (with_one terminal rest ≡ tally_at below.old n) }
    ensures { (n : Name) → tally_at below.old n ≡ (if is_under n name then with_one terminal (tally_at below.new n) else tally_at below.new n) }
{
    let Some(above) = name.into_parent() else {
        return;
    };
    take_off(below, terminal, &above);
    take_off_above(below, terminal, above)
}

// Removes a name that the terminal held from the tally of this name, and the entry too if that was the last.
fn take_off(below: &mut IndexMap<LockName, Tally>, terminal: u32, name: &LockName)
    requires { (rest : Counts) × (with_one terminal rest ≡ tally_at below.old name.now) }
    ensures { (n : Name) → tally_at below.old n ≡ (if name_eq name.now n then with_one terminal (tally_at below.new n) else tally_at below.new n) }
{
    let Some(tally) = below.get_mut(name) else {
        return;
    };
    let rest = tally.without_one(terminal);
    if rest.is_none() {
        let _ = below.swap_remove(name);
    } else {
        *tally = rest;
    }
}
