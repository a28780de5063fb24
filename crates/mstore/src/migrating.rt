// SPDX-License-Identifier: Apache-2.0
// How a store of version 1 gets this version: each row goes to the key that its node has now, in one transaction.
ghost use Rattle.std.specs.Prelude.{◌≡◌, [], ◌∷◌, ◌++◌, ◌≤◌, map, drop, false, IfOk, OnOk, OnErr};
ghost use Rattle.mspec.specs.KeyBytes.{key_bytes};
ghost use Rattle.mspec.specs.Node.{Node};
ghost use Rattle.mspec.specs.Number.{significant_digits};
ghost use Rattle.mkey.specs.Key.{IsKeyBy, old_digits};
ghost use Rattle.sqlite.specs.Held.{state};
ghost use Rattle.mstore.specs.Database.{doubt_of, IsStore, IsUntouched, IsMigrated, HasVersion, OnlyGives, ShowsAll, content, old_version, this_version};
ghost use Rattle.mstore.specs.Moving.{IsWorking, RanInside, MovesKey, MovesRow, ShowContent, IsMoving, IsOldStore};

use crate::statements::{KILL, PUT, SET, done, fault_of};
use mkey::NodeKey;
use mnodes::StoreFault;
use sqlite::{Alter, Connection, Row, Transaction, params};
use sqlite_value::value::ValueRef;
use std::alloc::{AllocError, Global};

// The bytes with a 0 after them, which are the next bytes in order.
fn next_after(alloc: Global, key: &[u8]) -> Result<Vec<u8>, AllocError>
    ensures { IfOk result (λ next. next.items ≡ key.now ++ 0 ∷ []) }
{
    let mut next = Vec::with_capacity(alloc, key.len() + 1)?;
    next.extend_from_slice(key)?;
    next.push(0)?;
    Ok(next)
}

// The key that a node has now, from its key by fifteen digits.
fn new_key(alloc: Global, old: &[u8]) -> Result<NodeKey, StoreFault>
    ensures { IfOk result (λ key. IsKeyBy old_digits key old.now) }
{
    let Some((account, name, subs)) = NodeKey::read_v1(alloc, old)? else {
        return Err(StoreFault::Store);
    };
    match NodeKey::build(alloc, &account, &name, subs.as_slice()) {
        Ok(key) => Ok(key),
        Err(_) => Err(StoreFault::Memory),
    }
}

// Changes rows of nodes, by a statement of two parameters.
fn change_inside<S: Alter>(
    tx: &mut Transaction<'_, S>,
    text: &str,
    first: &[u8],
    second: &[u8],
) -> Result<(), StoreFault>
    ensures same_reference { tx.new.conn.ghost_name ≡ tx.old.conn.ghost_name }
    ensures order { doubt_of S.Store tx.old.conn.now ≤ doubt_of S.Store tx.new.conn.now }
    ensures committed { doubt_of S.Store tx.new.conn.now ≡ 0 → IsWorking (state S.Store tx.old.conn.now) → (state S.Store tx.new.conn.now).committed ≡
        (state S.Store tx.old.conn.now).committed }
    ensures ran { doubt_of S.Store tx.new.conn.now ≡ 0 → IsWorking (state S.Store tx.old.conn.now) → OnOk result (RanInside text.now first.now second.now
        (state S.Store tx.old.conn.now) (state S.Store tx.new.conn.now)) }
{
    done(tx.execute(text, params![first, second]))
}

// Gives the database this version.
fn set_version<S: Alter>(tx: &mut Transaction<'_, S>) -> Result<(), StoreFault>
    ensures same_reference { tx.new.conn.ghost_name ≡ tx.old.conn.ghost_name }
    ensures order { doubt_of S.Store tx.old.conn.now ≤ doubt_of S.Store tx.new.conn.now }
    ensures committed { doubt_of S.Store tx.new.conn.now ≡ 0 → IsWorking (state S.Store tx.old.conn.now) → (state S.Store tx.new.conn.now).committed ≡
        (state S.Store tx.old.conn.now).committed }
    ensures working { doubt_of S.Store tx.new.conn.now ≡ 0 → IsWorking (state S.Store tx.old.conn.now) → OnOk result (IsWorking
        (state S.Store tx.new.conn.now)) }
    ensures rows { doubt_of S.Store tx.new.conn.now ≡ 0 → IsWorking (state S.Store tx.old.conn.now) → OnOk result ((state S.Store tx.new.conn.now).now.trees 0 ≡
        (state S.Store tx.old.conn.now).now.trees 0) }
    ensures version { doubt_of S.Store tx.new.conn.now ≡ 0 → IsWorking (state S.Store tx.old.conn.now) → HasVersion
        (state S.Store tx.old.conn.now).now old_version → OnlyGives (state S.Store tx.old.conn.now).now old_version → OnOk result (HasVersion
        (state S.Store tx.new.conn.now).now this_version) }
{
    done(tx.execute(SET, &[]))
}

// Moves a value from a node's key by fifteen digits to the key that the node has now.
fn move_key<S: Alter>(
    alloc: Global,
    tx: &mut Transaction<'_, S>,
    key: &[u8],
    value: &[u8],
) -> Result<(), StoreFault>
    ensures same_reference { tx.new.conn.ghost_name ≡ tx.old.conn.ghost_name }
    ensures order { doubt_of S.Store tx.old.conn.now ≤ doubt_of S.Store tx.new.conn.now }
    ensures committed { doubt_of S.Store tx.new.conn.now ≡ 0 → IsWorking (state S.Store tx.old.conn.now) → (state S.Store tx.new.conn.now).committed ≡
        (state S.Store tx.old.conn.now).committed }
    ensures working { doubt_of S.Store tx.new.conn.now ≡ 0 → IsWorking (state S.Store tx.old.conn.now) → OnOk result (IsWorking
        (state S.Store tx.new.conn.now)) }
    ensures moved { doubt_of S.Store tx.new.conn.now ≡ 0 → IsWorking (state S.Store tx.old.conn.now) → OnOk result ((n : Node) × IsKeyBy old_digits n key.now
        × MovesKey (content (state S.Store tx.old.conn.now)) (content (state S.Store tx.new.conn.now)) key.now (key_bytes significant_digits n) value.now) }
    ensures version { doubt_of S.Store tx.new.conn.now ≡ 0 → IsWorking (state S.Store tx.old.conn.now) → OnOk result
        ((state S.Store tx.new.conn.now).now.trees 2 ≡ (state S.Store tx.old.conn.now).now.trees 2) }
{
    let node = new_key(alloc, key)?;
    let place = node.as_bytes();
    if place == key {
        return Ok(());
    }
    let next = next_after(alloc, key)?;
    change_inside(tx, KILL, key, next.as_slice())?;
    change_inside(tx, PUT, place, value)
}

// Moves what a row shows to the key that its node has now.
fn move_row<S: Alter>(
    alloc: Global,
    tx: &mut Transaction<'_, S>,
    row: &Row,
) -> Result<(), StoreFault>
    ensures same_reference { tx.new.conn.ghost_name ≡ tx.old.conn.ghost_name }
    ensures order { doubt_of S.Store tx.old.conn.now ≤ doubt_of S.Store tx.new.conn.now }
    ensures committed { doubt_of S.Store tx.new.conn.now ≡ 0 → IsWorking (state S.Store tx.old.conn.now) → (state S.Store tx.new.conn.now).committed ≡
        (state S.Store tx.old.conn.now).committed }
    ensures working { doubt_of S.Store tx.new.conn.now ≡ 0 → IsWorking (state S.Store tx.old.conn.now) → OnOk result (IsWorking
        (state S.Store tx.new.conn.now)) }
    ensures moved { doubt_of S.Store tx.new.conn.now ≡ 0 → IsWorking (state S.Store tx.old.conn.now) → OnOk result (MovesRow (drop 1 row.now)
        (state S.Store tx.old.conn.now) (state S.Store tx.new.conn.now)) }
{
    if row.column_count() != 3 {
        return Err(StoreFault::Store);
    }
    match (row.get_ref(1), row.get_ref(2)) {
        (Ok(ValueRef::Blob(key)), Ok(ValueRef::Blob(value))) => move_key(alloc, tx, key, value),
        _ => Err(StoreFault::Store),
    }
}

// Moves what each of the rows shows.
fn move_rows<S: Alter>(
    alloc: Global,
    tx: &mut Transaction<'_, S>,
    rows: &[Row],
) -> Result<(), StoreFault>
    ensures same_reference { tx.new.conn.ghost_name ≡ tx.old.conn.ghost_name }
    ensures order { doubt_of S.Store tx.old.conn.now ≤ doubt_of S.Store tx.new.conn.now }
    ensures committed { doubt_of S.Store tx.new.conn.now ≡ 0 → IsWorking (state S.Store tx.old.conn.now) → (state S.Store tx.new.conn.now).committed ≡
        (state S.Store tx.old.conn.now).committed }
    ensures working { doubt_of S.Store tx.new.conn.now ≡ 0 → IsWorking (state S.Store tx.old.conn.now) → OnOk result (IsWorking
        (state S.Store tx.new.conn.now)) }
    ensures moved { doubt_of S.Store tx.new.conn.now ≡ 0 → IsWorking (state S.Store tx.old.conn.now) → ShowContent (content (state S.Store tx.old.conn.now))
        (map (drop 1) rows.now) → OnOk result (IsMoving (content (state S.Store tx.old.conn.now)) (content (state S.Store tx.new.conn.now)) []) }
    ensures version { doubt_of S.Store tx.new.conn.now ≡ 0 → IsWorking (state S.Store tx.old.conn.now) → OnOk result
        ((state S.Store tx.new.conn.now).now.trees 2 ≡ (state S.Store tx.old.conn.now).now.trees 2) }
{
    for row in rows {
        move_row(alloc, tx, row)?;
    }
    Ok(())
}

/// Moves what each of the rows shows, and gives the store this version; or leaves it as it is. The rows are all that a store of
/// version 1 has.
pub(crate) fn migrate<S: Alter>(
    alloc: Global,
    conn: &mut Connection<S>,
    rows: &[Row],
) -> Result<(), StoreFault>
    requires { conn.old.in_transaction ≡ false }
    ensures order { doubt_of S.Store conn.old ≤ doubt_of S.Store conn.new }
    ensures store { doubt_of S.Store conn.new ≡ 0 → IsOldStore (state S.Store conn.old) → ShowsAll (state S.Store conn.old) rows.now → OnOk result (IsStore
        (state S.Store conn.new)) }
    ensures migrated { doubt_of S.Store conn.new ≡ 0 → IsOldStore (state S.Store conn.old) → ShowsAll (state S.Store conn.old) rows.now → OnOk result
        (IsMigrated (state S.Store conn.old) (state S.Store conn.new)) }
    ensures untouched { doubt_of S.Store conn.new ≡ 0 → IsOldStore (state S.Store conn.old) → OnErr result (IsUntouched (state S.Store conn.old)
        (state S.Store conn.new)) }
{
    let mut tx = conn.transaction();
    move_rows(alloc, &mut tx, rows)?;
    set_version(&mut tx)?;
    match tx.commit() {
        Ok(()) => Ok(()),
        Err(error) => Err(fault_of(&error)),
    }
}
