// SPDX-License-Identifier: Apache-2.0
// A table over a connection.
ghost use Rattle.std.specs.Prelude.{◌≡◌, ◌≢◌, ◌≤◌, ◌⊎◌, length, option_map, IfOk, IfErr, OnOk, OnErr, List, [], ◌∷◌, ℕ, None, Err, is_ok, IsTrue};
ghost use Rattle.std.specs.FinMap.{get, insert};
ghost use Rattle.sqlite.specs.Order.{column};
ghost use Rattle.sqlite.specs.declared.types.Value.TheVariants.{Blob};
ghost use Rattle.mspec.specs.Globals.{next_key, previous_key, without_subtree};
ghost use Rattle.mspec.specs.TextFunctions.{max_text};
ghost use Rattle.mnodes.specs.Held.{AreHeld};
ghost use Rattle.sqlite.specs.Held.{state};
ghost use Rattle.mstore.specs.Database.{DoubtsStore, IsKept, IsStore, doubt_of, stored};
ghost use Rattle.mstore.specs.Layout.{no_schema, schema};
ghost use Rattle.mstore.specs.Map.{is_down, step_key};
ghost use Rattle.mstore.specs.Room.{counted_on, IsFaultless};
ghost use Rattle.mstore.specs.Rows.{IsValue};

use crate::ahead::{first_key, last_key, text_at};
use crate::create::make_tables;
use crate::layout::is_blank;
use crate::open_fault::OpenFault;
use crate::opening::{open_beside, open_tables};
use crate::statements::{fault_of, remove_range, store_value};
use crate::stretch::Stretch;
use mkey::NodeKey;
use mmemory::Memory;
use mnodes::{NodeStore, StoreFault};
use mnum::Bytes7;
use sqlite::{Alter, Connection};
use sqlite_disk::Disk;
use sqlite_store::FileStore;
use std::alloc::Global;
use std::marker::Model;

// The last number that a row may have.
const LAST_NUMBER: u64 = 9_223_372_036_854_775_807;

/// A store in the table `node` of a database. What is said of its content holds while its doubt is 0.
pub struct Table<S: Alter> {
    conn: Connection<S>,
    // The database has the two tables and no other. What is said of statements is said of such a one.
    alone: bool,
    // How many numbers its rows may have got: none has a greater one, as long as this is below the last number of all. What was opened
    // with rows in it begins there.
    numbers: u64,
    // The last put was of a key that had no value: then the next one most likely is, too.
    adds: bool,
    // Rows that were read ahead.
    stretch: Stretch,
    alloc: Global,
}

// Written out, so that dropping it is one call, which is proved once.
impl<S: Alter + Drop> Drop for Table<S> {
    fn drop(self) {
        let Table {
            conn: _,
            alone: _,
            numbers: _,
            adds: _,
            stretch: _,
            alloc: _,
        } = self;
    }
}

impl<S: Alter> Model for Table<S> {
    ghost use Rattle.std.specs.Prelude.{◌≡◌, IsTrue, None};
    ghost use Rattle.sqlite.specs.Held.{state};
    ghost use Rattle.mstore.specs.Database.{TableOver, table_code, doubt_of, holds, node_rows, IsStore};
    ghost use Rattle.mstore.specs.Room.{AreCounted};
    ghost use Rattle.mstore.specs.Stretch.{Agrees};

    ghost Value = { TableOver S };

    ghost coded = { table_code S.code };

    ghost view = { λ t. record { conn = t.conn; is_alone = t.alone; numbers = t.numbers } };

    ghost invariant = { λ t. (IsTrue t.alone → doubt_of S.Store t.conn ≡ 0 → IsStore (state S.Store t.conn)) × (t.conn.step_limit ≡ None)
        × (IsTrue t.alone → doubt_of S.Store t.conn ≡ 0 → AreCounted t.numbers (node_rows S.Store t.conn))
        × (IsTrue t.alone → doubt_of S.Store t.conn ≡ 0 → Agrees (holds S.Store t.conn) t.stretch) };
}

impl Table<Memory> {
    ghost use Rattle.std.specs.FinMap.{empty};
    ghost use Rattle.sqlite.specs.Held.{state};
    ghost use Rattle.mstore.specs.InMemory.{over_memory};
    ghost use Rattle.mstore.specs.Database.{IsMemory, HasVersion, this_version, stored, table_doubt};

    /// An empty table in memory, for which what is said of a table's content holds.
    ///
    /// # Errors
    ///
    /// `Memory` and `Store`.
    pub fn open_memory(alloc: Global) -> Result<Table<Memory>, OpenFault>
        ensures empty { IfOk result (λ t. stored over_memory t.conn ≡ empty) }
        ensures version { IfOk result (λ t. HasVersion (state over_memory t.conn).now this_version) }
        ensures sure { IfOk result (λ t. table_doubt over_memory t ≡ 0) }
        ensures sound { IfOk result (λ _. IsMemory over_memory) }
        ensures steady { IfOk result (λ _. IsFaultless over_memory) }
        ensures room { IfOk result (λ t. t.numbers ≡ 0) }
        ensures key { result ≢ Err OpenFault.BadKey }
        ensures other_version { result ≢ Err OpenFault.BadVersion }
    {
        let mut conn = match Connection::over(alloc, Memory::new(alloc)) {
            Ok(conn) => conn,
            Err((error, _)) => return Err(OpenFault::from(fault_of(&error))),
        };
        if !is_blank(conn.schema()) {
            return Err(OpenFault::Store);
        }
        make_tables(&mut conn)?;
        conn.set_step_limit(None);
        let stretch = Stretch::new(alloc);
        Ok(Table {
            conn,
            alone: true,
            numbers: 0,
            adds: true,
            stretch,
            alloc,
        })
    }
}

impl<D: Disk> Table<FileStore<D>> {
    ghost use Rattle.sqlite.specs.Files.{file_state, over_files};
    ghost use Rattle.mstore.specs.Beside.{IsBeside};
    ghost use Rattle.mstore.specs.Database.{doubt_of, IsOpenedFrom, table_doubt};

    /// Takes a connection to a file, in which others may have tables of their own: these stay as they are. The two tables are taken
    /// as by `adopt`, also if they were made in another order, and made if neither is there.
    ///
    /// # Errors
    ///
    /// Those of `adopt`, but that other tables are no cause of `Store`. It comes if one of them refers to `node` or `meta`, or if an
    /// index that these were not made with is UNIQUE.
    pub fn adopt_file(
        alloc: Global,
        mut conn: Connection<FileStore<D>>,
    ) -> Result<Table<FileStore<D>>, (OpenFault, Connection<FileStore<D>>)>
        ensures beside { IfOk result (λ _. IsBeside (file_state conn).now.schema) }
        ensures alone { IfOk result (λ t. ((file_state conn).now.schema ≡ no_schema) ⊎ ((file_state conn).now.schema ≡ schema) → IsTrue t.is_alone) }
        ensures order { IfOk result (λ t. doubt_of over_files conn ≤ doubt_of over_files t.conn) }
        ensures back_order { IfErr result (λ e. doubt_of over_files conn ≤ doubt_of over_files e.1) }
        ensures opened { IfOk result (λ t. table_doubt over_files t ≡ 0 → IsOpenedFrom (file_state conn) (file_state t.conn)) }
    {
        match open_beside(alloc, &mut conn) {
            Ok(alone) => {
                conn.set_step_limit(None);
                let stretch = Stretch::new(alloc);
                Ok(Table {
                    conn,
                    alone,
                    numbers: LAST_NUMBER,
                    adds: false,
                    stretch,
                    alloc,
                })
            }
            Err(fault) => Err((fault, conn)),
        }
    }
}

impl<S: Alter> Table<S> {
    ghost use Rattle.sqlite.specs.Held.{state};
    ghost use Rattle.mstore.specs.Database.{doubt_of, table_doubt, IsStore, IsOpenedFrom, IsOtherVersion, IsUntouched, IsBadlyKeyed};

    /// Takes a connection whose database is a table of this version, with exactly its rows, or has no table and gets it. A table of
    /// version 1, whose numbers kept fifteen digits, becomes one of this version in one transaction, with the same text at each
    /// node: a node that now has another key goes to that key.
    ///
    /// # Errors
    ///
    /// Each comes with the connection, whose database is unchanged, including the version: `BadVersion` if just one of `node` and
    /// `meta` is there, if their columns do not take a statement of this crate, or if there is no row `version` or one of another
    /// version than these two; otherwise `BadKey` if a row is not a node's by the digits of the version; `Memory`; and `Store` if the
    /// database refuses, if its rows do not come by rising rowids, if a transaction is open, if there are tables but neither of the
    /// two, or if both take the statements but there are further tables, or they are made in another way.
    pub fn adopt(
        alloc: Global,
        mut conn: Connection<S>,
    ) -> Result<Table<S>, (OpenFault, Connection<S>)>
        ensures order { IfOk result (λ t. doubt_of S.Store conn ≤ doubt_of S.Store t.conn) }
        ensures alone { IfOk result (λ t. IsTrue t.is_alone) }
        ensures back_order { IfErr result (λ e. doubt_of S.Store conn ≤ doubt_of S.Store e.1) }
        ensures store { IfOk result (λ t. doubt_of S.Store t.conn ≡ 0 → IsStore (state S.Store t.conn)) }
        ensures opened { IfOk result (λ t. doubt_of S.Store t.conn ≡ 0 → IsOpenedFrom (state S.Store conn) (state S.Store t.conn)) }
        ensures back { IfErr result (λ e. doubt_of S.Store e.1 ≡ 0 → IsUntouched (state S.Store conn) (state S.Store e.1)) }
        ensures version { IfErr result (λ e. doubt_of S.Store e.1 ≡ 0 → e.0 ≡ OpenFault.BadVersion → IsOtherVersion (state S.Store conn).now) }
        ensures key { IfErr result (λ e. doubt_of S.Store e.1 ≡ 0 → e.0 ≡ OpenFault.BadKey → ((state S.Store conn).now.schema ≡ schema) × IsBadlyKeyed
            (state S.Store conn).now) }
    {
        match open_tables(alloc, &mut conn) {
            Ok(()) => {
                conn.set_step_limit(None);
                let stretch = Stretch::new(alloc);
                Ok(Table {
                    conn,
                    alone: true,
                    numbers: LAST_NUMBER,
                    adds: false,
                    stretch,
                    alloc,
                })
            }
            Err(fault) => Err((fault, conn)),
        }
    }

    /// Whether the database has the two tables and no other.
    pub fn is_alone(&self) -> bool
        ensures { result ≡ self.now.is_alone }
    {
        self.alone
    }

    /// The connection, with the rows as they are. Takes no memory.
    pub fn into_connection(self) -> Connection<S>
        ensures conn { result ≡ self.conn }
        ensures store { table_doubt S.Store self ≡ 0 → IsStore (state S.Store result) }
    {
        let Table {
            conn,
            alone: _,
            numbers: _,
            adds: _,
            stretch: _,
            alloc: _,
        } = self;
        conn
    }
}

// The count of numbers after a row more. It stays at the last number of all.
fn one_more(numbers: u64) -> u64
    ensures { result ≡ counted_on numbers }
{
    if numbers < LAST_NUMBER {
        numbers + 1
    } else {
        numbers
    }
}

impl<S: Alter> NodeStore for Table<S> {
    ghost use Rattle.mstore.specs.Database.{IsMemory, stored, table_doubt};
    ghost use Rattle.mstore.specs.Room.{DoubtsTable, has_room, told_of};

    ghost content = { λ t. stored S.Store t.conn };

    ghost doubt = { table_doubt S.Store };

    ghost sound = { IsMemory S.Store };

    ghost steady = { IsFaultless S.Store };

    ghost has_room = { has_room S.Store };

    fn get(&mut self, key: &NodeKey) -> Result<Option<Bytes7>, StoreFault>
        ensures found { table_doubt S.Store self.new ≡ 0 → IfOk result (λ text. text ≡ get (stored S.Store self.old.conn) key.now) }
        ensures held { table_doubt S.Store self.new ≡ 0 → AreHeld (stored S.Store self.old.conn) }
        ensures same { table_doubt S.Store self.new ≡ 0 → stored S.Store self.new.conn ≡ stored S.Store self.old.conn }
        ensures doubt { DoubtsTable S.Store self.old self.new (is_ok result) }
        ensures store { IsFaultless S.Store → IsTrue (has_room S.Store self.new) → result ≢ Err StoreFault.Store }
        ensures counts { self.new.numbers ≡ self.old.numbers }
    {
        text_at(
            &mut self.conn,
            &mut self.stretch,
            self.alloc,
            key.as_bytes(),
        )
    }

    fn put(&mut self, key: &NodeKey, text: &Bytes7) -> Result<(), StoreFault>
        requires { length text.now ≤ max_text }
        ensures put { table_doubt S.Store self.new ≡ 0 → OnOk result (stored S.Store self.new.conn ≡ insert (stored S.Store self.old.conn) key.now text.now) }
        ensures held { table_doubt S.Store self.new ≡ 0 → OnOk result (AreHeld (stored S.Store self.old.conn)) }
        ensures fault { table_doubt S.Store self.new ≡ 0 → OnErr result (stored S.Store self.new.conn ≡ stored S.Store self.old.conn) }
        ensures doubt { DoubtsTable S.Store self.old self.new (is_ok result) }
        ensures store { IsFaultless S.Store → IsTrue (has_room S.Store self.new) → result ≢ Err StoreFault.Store }
        ensures counts { self.new.numbers ≡ counted_on self.old.numbers }
    {
        self.numbers = one_more(self.numbers);
        let bytes = key.as_bytes();
        self.stretch.leave_out(bytes);
        let put = store_value(&mut self.conn, &mut self.adds, bytes, text.as_bytes());
        self.stretch.settle(put.is_ok());
        put
    }

    fn kill(&mut self, key: &NodeKey) -> Result<(), StoreFault>
        ensures killed { table_doubt S.Store self.new ≡ 0 → OnOk result (stored S.Store self.new.conn ≡ without_subtree
            (stored S.Store self.old.conn) key.now) }
        ensures fault { table_doubt S.Store self.new ≡ 0 → OnErr result (stored S.Store self.new.conn ≡ stored S.Store self.old.conn) }
        ensures doubt { DoubtsTable S.Store self.old self.new (is_ok result) }
        ensures store { IsFaultless S.Store → IsTrue (has_room S.Store self.new) → result ≢ Err StoreFault.Store }
        ensures counts { self.new.numbers ≡ self.old.numbers }
    {
        let end = key.after_subtree(self.alloc)?;
        let low = key.as_bytes();
        let high = end.as_slice();
        self.stretch.leave_out_range(low, high);
        let killed = remove_range(&mut self.conn, low, high);
        self.stretch.settle(killed.is_ok());
        killed
    }

    fn next(&mut self, low: &[u8], high: &[u8]) -> Result<Option<Vec<u8>>, StoreFault>
        ensures found { table_doubt S.Store self.new ≡ 0 → IfOk result (λ key. option_map (λ bytes. bytes.items) key ≡ next_key
            (stored S.Store self.old.conn) low.now high.now) }
        ensures held { table_doubt S.Store self.new ≡ 0 → AreHeld (stored S.Store self.old.conn) }
        ensures same { table_doubt S.Store self.new ≡ 0 → stored S.Store self.new.conn ≡ stored S.Store self.old.conn }
        ensures doubt { DoubtsTable S.Store self.old self.new (is_ok result) }
        ensures store { IsFaultless S.Store → IsTrue (has_room S.Store self.new) → result ≢ Err StoreFault.Store }
        ensures counts { self.new.numbers ≡ self.old.numbers }
    {
        first_key(&mut self.conn, &mut self.stretch, self.alloc, low, high)
    }

    fn prev(&mut self, low: &[u8], high: &[u8]) -> Result<Option<Vec<u8>>, StoreFault>
        ensures found { table_doubt S.Store self.new ≡ 0 → IfOk result (λ key. option_map (λ bytes. bytes.items) key ≡ previous_key
            (stored S.Store self.old.conn) low.now high.now) }
        ensures held { table_doubt S.Store self.new ≡ 0 → AreHeld (stored S.Store self.old.conn) }
        ensures same { table_doubt S.Store self.new ≡ 0 → stored S.Store self.new.conn ≡ stored S.Store self.old.conn }
        ensures doubt { DoubtsTable S.Store self.old self.new (is_ok result) }
        ensures store { IsFaultless S.Store → IsTrue (has_room S.Store self.new) → result ≢ Err StoreFault.Store }
        ensures counts { self.new.numbers ≡ self.old.numbers }
    {
        last_key(&mut self.conn, &mut self.stretch, self.alloc, low, high)
    }

    ghost steady_is_sound = { λ beneath. beneath.memory };

    ghost steady_is_told = { told_of };
}
