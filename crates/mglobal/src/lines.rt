// SPDX-License-Identifier: Apache-2.0
//! The lines of a routine.
ghost use Rattle.std.specs.Prelude.{◌≡◌, ◌≢◌, ◌≤◌, length, true, IfOk, IfSome, OnOk, Err, IsTrue, is_ok, [], ◌∷◌, ◌++◌, codes};
ghost use Rattle.std.specs.Option.{option_to_list};
ghost use Rattle.mnodes.specs.Over.{DoubtsOver};
ghost use Rattle.mglobal.specs.Lines.{line_at, line_in};
ghost use Rattle.mglobal.specs.Words.{AreHeld, Forward, IsAccountName, IsName, IsSub, IsSubscript, is_before, lines_of, order_at};

use crate::ask::neighbour;
use crate::bounds::key_of;
use mkey::{Direction, collate, is_numeric};
use mnodes::{NodeStore, StoreFault};
use mnum::Bytes7;
use mvalue::Value;
use std::alloc::{AllocError, Global};
use std::rc::Rc;

// The subscripts of a line.
fn subs_of(alloc: Global, name: &Bytes7, place: &Bytes7) -> Result<Vec<Value>, AllocError>
    ensures { IfOk result (λ subs. subs.items ≡ name.now ∷ place.now ∷ []) }
{
    let mut subs = Vec::new(alloc);
    subs.push(Value::of_text(name.copy()?))?;
    subs.push(Value::of_text(place.copy()?))?;
    Ok(subs)
}

// The subscript after a place of a routine. A store without doubt names none that is not after it.
fn next_place<S: NodeStore>(
    store: &mut S,
    alloc: Global,
    account: &Bytes7,
    global: &Bytes7,
    name: &Bytes7,
    place: &Bytes7,
) -> Result<Option<Bytes7>, StoreFault>
    requires account { IsAccountName account.now }
    requires global { global.now ≡ codes "ROUTINE" }
    requires name { IsName name.now }
    requires place { length place.now ≤ 255 }
    ensures next { S.doubt store.new ≡ 0 → IfOk result (λ next. next ≡ order_at (S.content store.old) Forward (line_at account.now name.now place.now)) }
    ensures held { S.doubt store.new ≡ 0 → OnOk result (AreHeld (S.content store.old)) }
    ensures sub { IfOk result (λ next. IfSome next IsSub) }
    ensures behind { IfOk result (λ next. IfSome next (λ there. is_before place.now there ≡ true)) }
    ensures same { S.doubt store.new ≡ 0 → S.content store.new ≡ S.content store.old }
    ensures doubt { DoubtsOver S.NodeStore store.old store.new (is_ok result) }
    ensures store { S.steady → IsTrue (S.has_room store.new) → result ≢ Err StoreFault.Store }
{
    let subs = subs_of(alloc, name, place)?;
    match neighbour(
        store,
        alloc,
        account.as_bytes(),
        global,
        &subs,
        Direction::Forward,
    )? {
        None => Ok(None),
        Some(value) => {
            let next = value.into_text(alloc)?;
            if collate(place, &next).is_lt() {
                Ok(Some(next))
            } else {
                Err(StoreFault::Store)
            }
        }
    }
}

// The text of the line at a place, if the place is a number and the line has a text.
fn line_text<S: NodeStore>(
    store: &mut S,
    alloc: Global,
    account: &Bytes7,
    global: &Bytes7,
    name: &Bytes7,
    place: &Bytes7,
) -> Result<Option<Bytes7>, StoreFault>
    requires account { IsAccountName account.now }
    requires global { global.now ≡ codes "ROUTINE" }
    requires name { IsName name.now }
    requires place { IsSubscript place.now }
    ensures text { S.doubt store.new ≡ 0 → IfOk result (λ text. option_to_list text ≡ line_in (S.content store.old) account.now name.now place.now) }
    ensures same { S.doubt store.new ≡ 0 → S.content store.new ≡ S.content store.old }
    ensures doubt { DoubtsOver S.NodeStore store.old store.new (is_ok result) }
    ensures store { S.steady → IsTrue (S.has_room store.new) → result ≢ Err StoreFault.Store }
{
    if !is_numeric(place) {
        return Ok(None);
    }
    let subs = subs_of(alloc, name, place)?;
    let key = key_of(alloc, account.as_bytes(), global, &subs)?;
    store.get(&key)
}

// Adds a line, if there is one.
fn add(lines: &mut Vec<Bytes7>, text: Option<Bytes7>) -> Result<(), AllocError>
    ensures { OnOk result (lines.new.items ≡ lines.old.items ++ option_to_list text) }
{
    if let Some(text) = text {
        lines.push(text)?;
    }
    Ok(())
}

/// The lines of an account's routine: the texts at `^ROUTINE(name, n)` in the order of the numbers `n`. Nodes with more subscripts, and
/// those whose second subscript is not a number, are not lines.
///
/// # Errors
///
/// Those of the store: `Memory` if memory runs out, and `Store`, which a steady one that has room never answers; also `Store` if the place that was
/// found is not after the one before it.
pub fn routine<S: NodeStore>(
    store: &mut S,
    alloc: Global,
    account: &Bytes7,
    name: &Bytes7,
) -> Result<Vec<Bytes7>, StoreFault>
    requires account { IsAccountName account.now }
    requires name { IsName name.now }
    ensures lines { S.doubt store.new ≡ 0 → IfOk result (λ lines. lines.items ≡ lines_of (S.content store.old) account.now name.now) }
    ensures same { S.doubt store.new ≡ 0 → S.content store.new ≡ S.content store.old }
    ensures doubt { DoubtsOver S.NodeStore store.old store.new (is_ok result) }
    ensures store { S.steady → IsTrue (S.has_room store.new) → result ≢ Err StoreFault.Store }
{
    let global = Bytes7::from_slice(alloc, b"ROUTINE")?;
    let mut lines = Vec::new(alloc);
    let mut place = Bytes7::empty(alloc);
    while let Some(next) = next_place(store, alloc, account, &global, name, &place)? {
        let text = line_text(store, alloc, account, &global, name, &next)?;
        add(&mut lines, text)?;
        place = next;
    }
    Ok(lines)
}

/// The lines of an account's routine, as `routine` reads them, or as the store has kept them since they were read. A store that keeps
/// copies is handed one.
///
/// # Errors
///
/// Those of `routine`, and `Memory` if there is no memory for a count of those that hold the lines.
pub fn shared_routine<S: NodeStore>(
    store: &mut S,
    alloc: Global,
    account: &Bytes7,
    name: &Bytes7,
) -> Result<Rc<Vec<Bytes7>>, StoreFault>
    requires account { IsAccountName account.now }
    requires name { IsName name.now }
    ensures lines { S.doubt store.new ≡ 0 → IfOk result (λ lines. lines.value.items ≡ lines_of (S.content store.old) account.now name.now) }
    ensures same { S.doubt store.new ≡ 0 → S.content store.new ≡ S.content store.old }
    ensures doubt { DoubtsOver S.NodeStore store.old store.new (is_ok result) }
    ensures store { S.steady → IsTrue (S.has_room store.new) → result ≢ Err StoreFault.Store }
{
    if let Some(lines) = store.kept_routine(account, name) {
        return Ok(lines);
    }
    let lines = routine(store, alloc, account, name)?;
    let lines = Rc::new(alloc, lines).map_err(AllocError::from)?;
    store.keep_routine(account, name, &lines);
    Ok(lines)
}
