// SPDX-License-Identifier: Apache-2.0
// The statements, each alone.

ghost use Rattle.std.specs.Prelude.{◌≡◌, ◌≢◌, ◌↔◌, ◌≤◌, ◌⊎◌, ℕ, IfOk, IsTrue, OnOk, OnErr, is_ok, false, Ok, Err, None};
ghost use Rattle.sqlite.specs.Held.{state};
ghost use Rattle.mnodes.specs.Doubt.{shut};
ghost use Rattle.mstore.specs.Database.{DoubtsStore, IsKept, IsStore, doubt_of, holds, node_rows, stored};
ghost use Rattle.mstore.specs.Map.{RemovesWithin, is_down};
ghost use Rattle.mstore.specs.Putting.{FailsIfFull, PutsAs, PutsBy};
ghost use Rattle.mstore.specs.Rows.{IsInForm, ShowsValue, ShowsKey};
ghost use Rattle.mstore.specs.Room.{AreUpTo, IsFaultless};
ghost use Rattle.mstore.specs.Statements.{AddsRow, Gives, IsRefusal, MeetsRow, Step, is_put, sql};
ghost use Rattle.mstore.specs.Stretch.{ShowsFirst};

use mkey::Direction;
use mnodes::StoreFault;
use sqlite::{Alter, Connection, Error, ErrorCode, Row, params};

pub(crate) const GET: &str = "SELECT v FROM node WHERE k = ?1";

// For the rows of a store of version 1 that are moved. A database has to take it, as it has the other statements that are tried.
pub(crate) const PUT: &str =
    "INSERT INTO node (k, v) VALUES (?1, ?2) ON CONFLICT (k) DO UPDATE SET v = excluded.v";

pub(crate) const ADD: &str = "INSERT INTO node (k, v) VALUES (?1, ?2)";

pub(crate) const REPLACE: &str = "UPDATE node SET v = ?2 WHERE k = ?1";

pub(crate) const KILL: &str = "DELETE FROM node WHERE k >= ?1 AND k < ?2";

pub(crate) const NEXT: &str = "SELECT k FROM node WHERE k >= ?1 AND k < ?2 ORDER BY k";

pub(crate) const PREV: &str = "SELECT k FROM node WHERE k >= ?1 AND k < ?2 ORDER BY k DESC";

pub(crate) const AHEAD: &str = "SELECT k, v FROM node WHERE k >= ?1 AND k < ?2 ORDER BY k LIMIT ?3";

// For a store of version 1, whose rows are moved by the two that put and take away.
pub(crate) const SET: &str = "UPDATE meta SET n = 2 WHERE name = 'version'";

// What went wrong. Only running out of memory is distinguished.
pub(crate) fn fault_of(error: &Error) -> StoreFault
    ensures { (result ≡ StoreFault.Memory) ↔ (error.now ≡ Error.SqliteFailure ErrorCode.OutOfMemory) }
{
    match error {
        Error::SqliteFailure(ErrorCode::OutOfMemory) => StoreFault::Memory,
        _ => StoreFault::Store,
    }
}

// The row of an answer, if it has one.
pub(crate) fn found(answer: Result<Row, Error>) -> Result<Option<Row>, StoreFault>
    ensures row { IfOk result (Gives answer) }
    ensures refused { result ≡ Err StoreFault.Store → IsRefusal answer }
    ensures none { answer ≡ Err Error.QueryReturnedNoRows → result ≡ Ok None }
{
    match answer {
        Ok(row) => Ok(Some(row)),
        Err(Error::QueryReturnedNoRows) => Ok(None),
        Err(error) => Err(fault_of(&error)),
    }
}

// Whether a change was made, however many rows it met.
pub(crate) fn done(count: Result<usize, Error>) -> Result<(), StoreFault>
    ensures is_done { is_ok result ≡ is_ok count }
    ensures refused { result ≡ Err StoreFault.Store → IsRefusal count }
{
    match count {
        Ok(_) => Ok(()),
        Err(error) => Err(fault_of(&error)),
    }
}

// The row of the value at a key.
pub(crate) fn find_value<S: Alter>(
    conn: &mut Connection<S>,
    key: &[u8],
) -> Result<Option<Row>, StoreFault>
    ensures limit { conn.new.step_limit ≡ conn.old.step_limit }
    ensures doubt { DoubtsStore S.Store conn.old conn.new (is_ok result) }
    ensures kept { IsKept S.Store conn.old conn.new }
    ensures found { IsStore (state S.Store conn.old) → doubt_of S.Store conn.new ≡ 0 → IfOk result (ShowsValue (holds S.Store conn.old key.now)) }
    ensures store { IsFaultless S.Store → IsStore (state S.Store conn.old) → conn.old.step_limit ≡ None → result ≢ Err StoreFault.Store }
{
    found(conn.query_row(GET, params![key]))
}

// The statement that finds the first key of a range, or the last.
fn step(direction: Direction) -> &'static str
    ensures { result.now ≡ sql (Step (is_down direction)) }
{
    match direction {
        Direction::Forward => NEXT,
        Direction::Backward => PREV,
    }
}

// The row of the first key of a range, or of the last.
pub(crate) fn find_key<S: Alter>(
    conn: &mut Connection<S>,
    direction: Direction,
    low: &[u8],
    high: &[u8],
) -> Result<Option<Row>, StoreFault>
    ensures limit { conn.new.step_limit ≡ conn.old.step_limit }
    ensures doubt { DoubtsStore S.Store conn.old conn.new (is_ok result) }
    ensures answered { doubt_of S.Store conn.new ≡ shut → is_ok result ≡ false }
    ensures kept { IsKept S.Store conn.old conn.new }
    ensures found { IsStore (state S.Store conn.old) → doubt_of S.Store conn.new ≡ 0 → IfOk result (ShowsKey (is_down direction)
        (holds S.Store conn.old) low.now high.now) }
    ensures store { IsFaultless S.Store → IsStore (state S.Store conn.old) → conn.old.step_limit ≡ None → result ≢ Err StoreFault.Store }
{
    found(conn.query_row(step(direction), params![low, high]))
}

// The first rows of a range, up to a limit.
pub(crate) fn find_rows<S: Alter>(
    conn: &mut Connection<S>,
    low: &[u8],
    high: &[u8],
    most: u32,
) -> Result<Vec<Row>, StoreFault>
    ensures limit { conn.new.step_limit ≡ conn.old.step_limit }
    ensures order { doubt_of S.Store conn.old ≤ doubt_of S.Store conn.new }
    ensures answered { doubt_of S.Store conn.new ≡ shut → is_ok result ≡ false }
    ensures kept { IsKept S.Store conn.old conn.new }
    ensures found { IsStore (state S.Store conn.old) → doubt_of S.Store conn.new ≡ 0 → IfOk result (λ rows. ShowsFirst (holds S.Store conn.old) low.now high.now
        most rows.items) }
    ensures store { IsFaultless S.Store → IsStore (state S.Store conn.old) → conn.old.step_limit ≡ None → result ≢ Err StoreFault.Store }
{
    match conn.query_all(AHEAD, params![low, high, most]) {
        Ok(rows) => Ok(rows),
        Err(error) => Err(fault_of(&error)),
    }
}

// Whether a change met a row.
fn met(count: Result<usize, Error>) -> Result<bool, StoreFault>
    ensures { MeetsRow count result }
{
    match count {
        Ok(rows) => Ok(rows > 0),
        Err(error) => Err(fault_of(&error)),
    }
}

// Whether a row was put. One with its key is in the way of another.
fn added(count: Result<usize, Error>) -> Result<bool, StoreFault>
    ensures { AddsRow count result }
{
    match count {
        Ok(_) => Ok(true),
        Err(Error::SqliteFailure(ErrorCode::ConstraintViolation(_))) => Ok(false),
        Err(error) => Err(fault_of(&error)),
    }
}

// Puts a value in the place of the one at a key. Answers whether there was one.
fn replace_value<S: Alter>(
    conn: &mut Connection<S>,
    key: &[u8],
    value: &[u8],
) -> Result<bool, StoreFault>
    requires { IsInForm key.now value.now }
    ensures puts { PutsAs S.Store conn.old conn.new key.now value.now result }
    ensures none { IsStore (state S.Store conn.old) → doubt_of S.Store conn.new ≡ 0 → result ≡ Ok false → holds S.Store conn.old key.now ≡ None }
    ensures full { FailsIfFull S.Store conn.old conn.new result }
{
    // The contract of `schema` says that the database obeys its schema.
    conn.schema();
    met(conn.execute(REPLACE, params![key, value]))
}

// Puts a value at a key that has none. Answers whether it had none.
fn add_value<S: Alter>(
    conn: &mut Connection<S>,
    key: &[u8],
    value: &[u8],
) -> Result<bool, StoreFault>
    requires { IsInForm key.now value.now }
    ensures puts { PutsAs S.Store conn.old conn.new key.now value.now result }
    ensures some { IsFaultless S.Store → IsStore (state S.Store conn.old) → conn.old.step_limit ≡ None → result ≡ Ok false
        → holds S.Store conn.old key.now ≢ None }
    ensures full { FailsIfFull S.Store conn.old conn.new result }
{
    // The contract of `schema` says that the database obeys its schema.
    conn.schema();
    added(conn.execute(ADD, params![key, value]))
}

// Whether a statement was done, but did not serve.
fn is_idle(first: &Result<bool, StoreFault>) -> bool
    ensures { IsTrue result ↔ (first.now ≡ Ok false) }
{
    match first {
        Ok(put) => !*put,
        Err(_) => false,
    }
}

// What is made of the last of the statements that were tried. Answers which of them served.
fn served(last: Result<bool, StoreFault>, adds: bool) -> Result<bool, StoreFault>
    ensures done { is_ok result ≡ is_put last }
    ensures refused { result ≡ Err StoreFault.Store → (last ≡ Err StoreFault.Store) ⊎ (last ≡ Ok false) }
{
    match last {
        Ok(true) => Ok(adds),
        Ok(false) => Err(StoreFault::Store),
        Err(fault) => Err(fault),
    }
}

// Puts a value at a key, which most likely has one. Answers whether it had none.
fn replace_or_add<S: Alter>(
    conn: &mut Connection<S>,
    key: &[u8],
    value: &[u8],
) -> Result<bool, StoreFault>
    requires { IsInForm key.now value.now }
    ensures puts { PutsBy S.Store conn.old conn.new key.now value.now (is_ok result) (is_ok result) }
    ensures full { FailsIfFull S.Store conn.old conn.new result }
{
    let first = replace_value(conn, key, value);
    if is_idle(&first) {
        return served(add_value(conn, key, value), true);
    }
    served(first, false)
}

// Puts a value at a key, which most likely has none. Answers whether it had none.
fn add_or_replace<S: Alter>(
    conn: &mut Connection<S>,
    key: &[u8],
    value: &[u8],
) -> Result<bool, StoreFault>
    requires { IsInForm key.now value.now }
    ensures puts { PutsBy S.Store conn.old conn.new key.now value.now (is_ok result) (is_ok result) }
    ensures full { FailsIfFull S.Store conn.old conn.new result }
{
    let first = add_value(conn, key, value);
    if is_idle(&first) {
        return served(replace_value(conn, key, value), false);
    }
    served(first, true)
}

// Puts a value at a key, first as it was done last. Answers whether the key had none.
fn put_value<S: Alter>(
    conn: &mut Connection<S>,
    adds: bool,
    key: &[u8],
    value: &[u8],
) -> Result<bool, StoreFault>
    requires { IsInForm key.now value.now }
    ensures puts { PutsBy S.Store conn.old conn.new key.now value.now (is_ok result) (is_ok result) }
    ensures full { FailsIfFull S.Store conn.old conn.new result }
{
    if adds {
        return add_or_replace(conn, key, value);
    }
    replace_or_add(conn, key, value)
}

// Keeps which statement served.
fn noted(put: Result<bool, StoreFault>, adds: &mut bool) -> Result<(), StoreFault>
    ensures done { is_ok result ≡ is_ok put }
    ensures refused { result ≡ Err StoreFault.Store → put ≡ Err StoreFault.Store }
{
    match put {
        Ok(added) => {
            *adds = added;
            Ok(())
        }
        Err(fault) => Err(fault),
    }
}

// Puts a value at a key by two statements, of which one writes and the other changes nothing. The one that served last goes first.
pub(crate) fn store_value<S: Alter>(
    conn: &mut Connection<S>,
    adds: &mut bool,
    key: &[u8],
    value: &[u8],
) -> Result<(), StoreFault>
    requires { IsInForm key.now value.now }
    ensures puts { PutsBy S.Store conn.old conn.new key.now value.now (is_ok result) (is_ok result) }
    ensures full { FailsIfFull S.Store conn.old conn.new result }
{
    let put = put_value(conn, *adds, key, value);
    noted(put, adds)
}

// Removes the rows of a range of keys.
pub(crate) fn remove_range<S: Alter>(
    conn: &mut Connection<S>,
    low: &[u8],
    high: &[u8],
) -> Result<(), StoreFault>
    ensures limit { conn.new.step_limit ≡ conn.old.step_limit }
    ensures doubt { DoubtsStore S.Store conn.old conn.new (is_ok result) }
    ensures store { IsStore (state S.Store conn.old) → doubt_of S.Store conn.new ≡ 0 → IsStore (state S.Store conn.new) }
    ensures removed { IsStore (state S.Store conn.old) → doubt_of S.Store conn.new ≡ 0 → OnOk result (RemovesWithin (holds S.Store conn.old)
        (holds S.Store conn.new) low.now high.now) }
    ensures fault { IsStore (state S.Store conn.old) → doubt_of S.Store conn.new ≡ 0 → OnErr result (stored S.Store conn.new ≡ stored S.Store conn.old) }
    ensures numbers { IsStore (state S.Store conn.old) → doubt_of S.Store conn.new ≡ 0 → (n : ℕ) → AreUpTo n (node_rows S.Store conn.old) → AreUpTo n
        (node_rows S.Store conn.new) }
    ensures refused { IsFaultless S.Store → IsStore (state S.Store conn.old) → conn.old.step_limit ≡ None → result ≢ Err StoreFault.Store }
{
    // The contract of `schema` says that the database obeys its schema.
    conn.schema();
    done(conn.execute(KILL, params![low, high]))
}
