// SPDX-License-Identifier: Apache-2.0
// What a table asks of its rows: of those that were read ahead, and else of the connection.
ghost use Rattle.std.specs.Prelude.{◌≡◌, ◌≢◌, ◌≤◌, length, option_map, IfOk, IfSome, List, ◌∷◌, [], ℕ, None, Some, Ok, Err, true, false, is_ok};
ghost use Rattle.sqlite.specs.Order.{column};
ghost use Rattle.sqlite.specs.declared.types.Value.TheVariants.{Blob};
ghost use Rattle.mspec.specs.TextFunctions.{max_text};
ghost use Rattle.mnodes.specs.Doubt.{shut};
ghost use Rattle.sqlite.specs.Held.{state};
ghost use Rattle.mstore.specs.Database.{DoubtsStore, IsKept, IsStore, doubt_of, holds, stored};
ghost use Rattle.mstore.specs.Map.{ShowsBytes, is_down, step_key};
ghost use Rattle.mstore.specs.Room.{IsFaultless};
ghost use Rattle.mstore.specs.Rows.{IsValue};
ghost use Rattle.mstore.specs.Stretch.{Agrees, DoubtsReading, tells};

use crate::statements::{fault_of, find_key, find_rows, find_value};
use crate::stretch::Stretch;
use mkey::Direction;
use mnodes::StoreFault;
use mnum::Bytes7;
use mspec::limits::MAX_TEXT;
use sqlite::{Alter, Connection, Row};
use std::alloc::Global;

// Above the key of any node.
const END: [u8; 1] = [255];

// The text that a row shows.
fn text_in(row: &Row) -> Result<Bytes7, StoreFault>
    ensures text { IfOk result (λ text. column row.now 0 ≡ Blob text) }
    ensures short { IfOk result (λ text. length text ≤ max_text) }
    ensures told { (v : List ℕ) → row.now ≡ Blob v ∷ [] → IsValue v → result ≢ Err StoreFault.Store }
{
    let bytes = bytes_in(row)?;
    if bytes.len() > MAX_TEXT {
        return Err(StoreFault::Store);
    }
    match Bytes7::new(bytes) {
        Ok(text) => Ok(text),
        Err(_) => Err(StoreFault::Store),
    }
}

// The bytes that a row shows.
fn bytes_in(row: &Row) -> Result<Vec<u8>, StoreFault>
    ensures bytes { IfOk result (λ bytes. column row.now 0 ≡ Blob bytes.items) }
    ensures told { (v : List ℕ) → row.now ≡ Blob v ∷ [] → result ≢ Err StoreFault.Store }
{
    match row.get::<Vec<u8>>(0) {
        Ok(bytes) => Ok(bytes),
        Err(error) => Err(fault_of(&error)),
    }
}

// The bytes of the first key of a range, or of the last.
pub(crate) fn key_within<S: Alter>(
    conn: &mut Connection<S>,
    direction: Direction,
    low: &[u8],
    high: &[u8],
) -> Result<Option<Vec<u8>>, StoreFault>
    ensures doubt { DoubtsStore S.Store conn.old conn.new (is_ok result) }
    ensures answered { doubt_of S.Store conn.new ≡ shut → is_ok result ≡ false }
    ensures kept { IsKept S.Store conn.old conn.new }
    ensures limit { conn.new.step_limit ≡ conn.old.step_limit }
    ensures store { IsFaultless S.Store → IsStore (state S.Store conn.old) → conn.old.step_limit ≡ None → result ≢ Err StoreFault.Store }
    ensures found { IsStore (state S.Store conn.old) → doubt_of S.Store conn.new ≡ 0 → IfOk result (λ key. option_map (λ bytes. bytes.items) key ≡ step_key
        (is_down direction) (stored S.Store conn.old) low.now high.now) }
{
    let Some(row) = find_key(conn, direction, low, high)? else {
        return Ok(None);
    };
    let bytes = bytes_in(&row)?;
    Ok(Some(bytes))
}

// The text at a key.
fn value_at<S: Alter>(conn: &mut Connection<S>, key: &[u8]) -> Result<Option<Bytes7>, StoreFault>
    ensures doubt { DoubtsStore S.Store conn.old conn.new (is_ok result) }
    ensures kept { IsKept S.Store conn.old conn.new }
    ensures limit { conn.new.step_limit ≡ conn.old.step_limit }
    ensures store { IsFaultless S.Store → IsStore (state S.Store conn.old) → conn.old.step_limit ≡ None → result ≢ Err StoreFault.Store }
    ensures found { IsStore (state S.Store conn.old) → doubt_of S.Store conn.new ≡ 0 → IfOk result (λ text. text ≡ holds S.Store conn.old key.now) }
{
    let Some(row) = find_value(conn, key)? else {
        return Ok(None);
    };
    let text = text_in(&row)?;
    Ok(Some(text))
}

// Reads the rows from a key on, if memory is there for them. Answers whether the stretch has them.
fn read_on<S: Alter>(
    conn: &mut Connection<S>,
    stretch: &mut Stretch,
    alloc: Global,
    low: &[u8],
    most: u32,
) -> Result<bool, StoreFault>
    ensures order { doubt_of S.Store conn.old ≤ doubt_of S.Store conn.new }
    ensures read { doubt_of S.Store conn.new ≡ shut → result ≢ Ok true }
    ensures kept { IsKept S.Store conn.old conn.new }
    ensures limit { conn.new.step_limit ≡ conn.old.step_limit }
    ensures agrees { IsStore (state S.Store conn.old) → doubt_of S.Store conn.new ≡ 0 → Agrees (holds S.Store conn.old) stretch.new }
    ensures store { IsFaultless S.Store → IsStore (state S.Store conn.old) → conn.old.step_limit ≡ None → result ≢ Err StoreFault.Store }
{
    match find_rows(conn, low, &END, most) {
        Ok(rows) => Ok(stretch.take(alloc, rows, low, &END, most)),
        Err(StoreFault::Memory) => {
            stretch.clear();
            Ok(false)
        }
        Err(StoreFault::Store) => {
            stretch.clear();
            Err(StoreFault::Store)
        }
    }
}

// The first key of a range, if rows that are read now tell it.
fn key_read<S: Alter>(
    conn: &mut Connection<S>,
    stretch: &mut Stretch,
    alloc: Global,
    low: &[u8],
    high: &[u8],
) -> Result<Option<Option<Vec<u8>>>, StoreFault>
    ensures order { doubt_of S.Store conn.old ≤ doubt_of S.Store conn.new }
    ensures read { doubt_of S.Store conn.new ≡ shut → tells result ≡ false }
    ensures kept { IsKept S.Store conn.old conn.new }
    ensures limit { conn.new.step_limit ≡ conn.old.step_limit }
    ensures agrees { IsStore (state S.Store conn.old) → doubt_of S.Store conn.new ≡ 0 → Agrees (holds S.Store conn.old) stretch.old → Agrees
        (holds S.Store conn.old) stretch.new }
    ensures found { IsStore (state S.Store conn.old) → doubt_of S.Store conn.new ≡ 0 → Agrees (holds S.Store conn.old) stretch.old → IfOk result
        (λ told. IfSome told (λ key. ShowsBytes false (holds S.Store conn.old) low.now high.now (option_map (λ bytes. bytes.items) key))) }
    ensures store { IsFaultless S.Store → IsStore (state S.Store conn.old) → conn.old.step_limit ≡ None → result ≢ Err StoreFault.Store }
{
    let most = stretch.count();
    if most < 2 {
        return Ok(None);
    }
    let is_read = read_on(conn, stretch, alloc, low, most)?;
    if !is_read {
        return Ok(None);
    }
    stretch.serve();
    let key = stretch.first(alloc, low, high)?;
    Ok(key)
}

// The first key of a range, if the stretch tells it, or one that is read now because it goes on from there.
fn key_ahead<S: Alter>(
    conn: &mut Connection<S>,
    stretch: &mut Stretch,
    alloc: Global,
    low: &[u8],
    high: &[u8],
) -> Result<Option<Option<Vec<u8>>>, StoreFault>
    ensures order { doubt_of S.Store conn.old ≤ doubt_of S.Store conn.new }
    ensures read { doubt_of S.Store conn.old ≡ 0 → doubt_of S.Store conn.new ≡ shut → tells result ≡ false }
    ensures kept { IsKept S.Store conn.old conn.new }
    ensures limit { conn.new.step_limit ≡ conn.old.step_limit }
    ensures agrees { IsStore (state S.Store conn.old) → doubt_of S.Store conn.new ≡ 0 → Agrees (holds S.Store conn.old) stretch.old → Agrees
        (holds S.Store conn.old) stretch.new }
    ensures found { IsStore (state S.Store conn.old) → doubt_of S.Store conn.new ≡ 0 → Agrees (holds S.Store conn.old) stretch.old → IfOk result
        (λ told. IfSome told (λ key. ShowsBytes false (holds S.Store conn.old) low.now high.now (option_map (λ bytes. bytes.items) key))) }
    ensures store { IsFaultless S.Store → IsStore (state S.Store conn.old) → conn.old.step_limit ≡ None → result ≢ Err StoreFault.Store }
{
    match stretch.first(alloc, low, high)? {
        Some(key) => {
            stretch.serve();
            Ok(Some(key))
        }
        None => key_read(conn, stretch, alloc, low, high),
    }
}

// The first key of a range, of the stretch if it tells it.
pub(crate) fn first_key<S: Alter>(
    conn: &mut Connection<S>,
    stretch: &mut Stretch,
    alloc: Global,
    low: &[u8],
    high: &[u8],
) -> Result<Option<Vec<u8>>, StoreFault>
    ensures doubt { DoubtsReading S.Store conn.old conn.new (is_ok result) }
    ensures kept { IsKept S.Store conn.old conn.new }
    ensures limit { conn.new.step_limit ≡ conn.old.step_limit }
    ensures agrees { IsStore (state S.Store conn.old) → doubt_of S.Store conn.new ≡ 0 → Agrees (holds S.Store conn.old) stretch.old → Agrees
        (holds S.Store conn.old) stretch.new }
    ensures store { IsFaultless S.Store → IsStore (state S.Store conn.old) → conn.old.step_limit ≡ None → result ≢ Err StoreFault.Store }
    ensures found { IsStore (state S.Store conn.old) → doubt_of S.Store conn.new ≡ 0 → Agrees (holds S.Store conn.old) stretch.old → IfOk result
        (λ key. option_map (λ bytes. bytes.items) key ≡ step_key false (stored S.Store conn.old) low.now high.now) }
{
    match key_ahead(conn, stretch, alloc, low, high)? {
        Some(key) => Ok(key),
        None => {
            let key = key_within(conn, Direction::Forward, low, high);
            stretch.settle(key.is_ok());
            key
        }
    }
}

// The last key of a range, of the stretch if it tells it.
pub(crate) fn last_key<S: Alter>(
    conn: &mut Connection<S>,
    stretch: &mut Stretch,
    alloc: Global,
    low: &[u8],
    high: &[u8],
) -> Result<Option<Vec<u8>>, StoreFault>
    ensures doubt { DoubtsReading S.Store conn.old conn.new (is_ok result) }
    ensures kept { IsKept S.Store conn.old conn.new }
    ensures limit { conn.new.step_limit ≡ conn.old.step_limit }
    ensures agrees { IsStore (state S.Store conn.old) → doubt_of S.Store conn.new ≡ 0 → Agrees (holds S.Store conn.old) stretch.old → Agrees
        (holds S.Store conn.old) stretch.new }
    ensures store { IsFaultless S.Store → IsStore (state S.Store conn.old) → conn.old.step_limit ≡ None → result ≢ Err StoreFault.Store }
    ensures found { IsStore (state S.Store conn.old) → doubt_of S.Store conn.new ≡ 0 → Agrees (holds S.Store conn.old) stretch.old → IfOk result
        (λ key. option_map (λ bytes. bytes.items) key ≡ step_key true (stored S.Store conn.old) low.now high.now) }
{
    let told = stretch.last(alloc, low, high)?;
    match told {
        Some(key) => {
            stretch.serve();
            Ok(key)
        }
        None => {
            let key = key_within(conn, Direction::Backward, low, high);
            stretch.settle(key.is_ok());
            key
        }
    }
}

// The text at a key, of the stretch if it tells it.
pub(crate) fn text_at<S: Alter>(
    conn: &mut Connection<S>,
    stretch: &mut Stretch,
    alloc: Global,
    key: &[u8],
) -> Result<Option<Bytes7>, StoreFault>
    ensures doubt { DoubtsReading S.Store conn.old conn.new (is_ok result) }
    ensures kept { IsKept S.Store conn.old conn.new }
    ensures limit { conn.new.step_limit ≡ conn.old.step_limit }
    ensures agrees { IsStore (state S.Store conn.old) → doubt_of S.Store conn.new ≡ 0 → Agrees (holds S.Store conn.old) stretch.old → Agrees
        (holds S.Store conn.old) stretch.new }
    ensures store { IsFaultless S.Store → IsStore (state S.Store conn.old) → conn.old.step_limit ≡ None → Agrees (holds S.Store conn.old) stretch.old
        → result ≢ Err StoreFault.Store }
    ensures found { IsStore (state S.Store conn.old) → doubt_of S.Store conn.new ≡ 0 → Agrees (holds S.Store conn.old) stretch.old → IfOk result
        (λ text. text ≡ holds S.Store conn.old key.now) }
{
    if let Some(text) = stretch.text(alloc, key)? {
        stretch.serve();
        return Ok(text);
    }
    let text = value_at(conn, key);
    stretch.settle(text.is_ok());
    text
}
