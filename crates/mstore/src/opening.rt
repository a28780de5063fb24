// SPDX-License-Identifier: Apache-2.0
// How an existing database is read.
ghost use Rattle.std.specs.Prelude.{◌≡◌, ◌≢◌, ◌↔◌, ◌≤◌, ◌⊎◌, ℤ, List, None, IsTrue, IfOk, OnOk, OnErr, Err, false};
ghost use Rattle.std.specs.List.{AllByRecursion};
ghost use Rattle.sqlite.specs.Held.{state};
ghost use Rattle.sqlite.specs.Listing.{understood};
ghost use Rattle.sqlite_resolve.specs.declared.error.CompileError.{CompileError};
ghost use Rattle.sqlite.specs.declared.types.Value.{Value};
ghost use Rattle.sqlite.specs.declared.types.Value.TheVariants.{Int};
ghost use Rattle.sqlite.specs.Order.{column};
ghost use Rattle.sqlite_rules.specs.Lists.{Has};
ghost use Rattle.sqlite.specs.State.{IsLive};
ghost use Rattle.mspec.specs.Node.{Node};
ghost use Rattle.mkey.specs.Key.{IsKeyBy, old_digits};
ghost use Rattle.mstore.specs.Database.{doubt_of, IsIdle, IsCalm, IsStore, IsUntouched, IsOpenedFrom, IsMigrated, IsBadlyKeyed, Stays, ShowsAll, ShowsNodesBy};
ghost use Rattle.mstore.specs.Database.{ShowsVersion, GivesVersion, OnlyGives, RefusesColumns, IsOtherVersion, old_version, this_version};
ghost use Rattle.mstore.specs.Versions.{digits_of, number_of};
ghost use Rattle.mstore.specs.Moving.{IsOldCalm};
ghost use Rattle.mstore.specs.Layout.{no_schema, schema as schema_of};
ghost use Rattle.mstore.specs.Beside.{IsBeside};
ghost use Rattle.mstore.specs.Statements.{statements, RefusesOne};
ghost use Rattle.mstore.specs.Rows.{IsValue, IsInFormBy, ShowsNodeBy, HasOtherBy, IsAbove, RiseFrom, AreNumbered};

use crate::create::make_tables;
use crate::layout::{has_both, has_neither, has_table, is_blank, is_store, is_unreferred};
use crate::migrating::migrate;
use crate::open_fault::OpenFault;
use crate::statements::{GET, KILL, NEXT, PREV, PUT, fault_of};
use crate::version::Version;
use mkey::{NodeKey, read};
use mnodes::StoreFault;
use mspec::limits::MAX_TEXT;
use sqlite::{Alter, Connection, Error, Row};
use sqlite_value::value::ValueRef;
use std::alloc::{AllocError, Global};

// The version, and every row.
const WHICH: &str = "SELECT rowid, n FROM meta WHERE name = 'version'";

const ALL: &str = "SELECT rowid, k, v FROM node";

// Whether these are the characters of a text of a node.
fn is_value(bytes: &[u8]) -> bool
    ensures { IsTrue result ↔ IsValue bytes.now }
{
    bytes.len() <= MAX_TEXT && bytes.iter().all(|byte| *byte < 128)
}

// Whether this is the key of a node of a store of the version.
fn is_key(alloc: Global, key: &[u8], version: Version) -> Result<bool, AllocError>
    ensures { IfOk result (λ right. IsTrue right ↔ ((n : Node) × IsKeyBy (digits_of version) n key.now)) }
{
    match version {
        Version::First => match NodeKey::read_v1(alloc, key)? {
            Some(_) => Ok(true),
            None => Ok(false),
        },
        Version::Second => match read(alloc, key)? {
            Some(_) => Ok(true),
            None => Ok(false),
        },
    }
}

// Whether this is the key of a node of a store of the version, with a text.
fn is_in_form(alloc: Global, key: &[u8], value: &[u8], version: Version) -> Result<bool, AllocError>
    ensures { IfOk result (λ right. IsTrue right ↔ IsInFormBy (digits_of version) key.now value.now) }
{
    if !is_value(value) {
        return Ok(false);
    }
    is_key(alloc, key, version)
}

// Whether a row shows a key and a value after its rowid, in form.
fn is_node(alloc: Global, row: &Row, version: Version) -> Result<bool, AllocError>
    ensures { IfOk result (λ right. IsTrue right ↔ ShowsNodeBy (digits_of version) row.now) }
{
    if row.column_count() != 3 {
        return Ok(false);
    }
    match (row.get_ref(1), row.get_ref(2)) {
        (Ok(ValueRef::Blob(key)), Ok(ValueRef::Blob(value))) => {
            is_in_form(alloc, key, value, version)
        }
        _ => Ok(false),
    }
}

// Whether each row shows a key and a value, in form.
fn are_nodes(alloc: Global, rows: &[Row], version: Version) -> Result<bool, AllocError>
    ensures all { IfOk result (λ right. IsTrue right → AllByRecursion (ShowsNodeBy (digits_of version)) rows.now) }
    ensures other { IfOk result (λ right. right ≡ false → (row : List Value) × Has rows.now row × (ShowsNodeBy (digits_of version) row → ⊥)) }
{
    for row in rows {
        if !is_node(alloc, row, version)? {
            return Ok(false);
        }
    }
    Ok(true)
}

// Whether a number is above the last, if there is one.
fn is_above(last: Option<i64>, id: i64) -> bool
    ensures { IsTrue result → IsAbove last id }
{
    match last {
        Some(before) => before < id,
        None => true,
    }
}

// Whether each row shows a rowid that is above the one before.
fn rise(rows: &[Row]) -> bool
    ensures { IsTrue result → RiseFrom None rows.now }
{
    let mut last: Option<i64> = None;
    for row in rows {
        let Ok(ValueRef::Int(id)) = row.get_ref(0) else {
            return false;
        };
        if !is_above(last, id) {
            return false;
        }
        last = Some(id);
    }
    true
}

// All rowids, keys and values.
fn read_all<S: Alter>(conn: &mut Connection<S>) -> Result<Vec<Row>, StoreFault>
    ensures order { doubt_of S.Store conn.old ≤ doubt_of S.Store conn.new }
    ensures mode { conn.old.in_transaction ≡ false → conn.new.in_transaction ≡ false }
    ensures stays { doubt_of S.Store conn.new ≡ 0 → IsCalm (state S.Store conn.old) → Stays (state S.Store conn.old) (state S.Store conn.new) }
    ensures all { doubt_of S.Store conn.new ≡ 0 → IsCalm (state S.Store conn.old) → IfOk result (λ rows. ShowsAll (state S.Store conn.old) rows.items) }
{
    match conn.query_all(ALL, &[]) {
        Ok(rows) => Ok(rows),
        Err(error) => Err(fault_of(&error)),
    }
}

// The row that gives the version, if there is one. There are not two, since the name is the key.
fn find_version<S: Alter>(conn: &mut Connection<S>) -> Result<Option<Row>, StoreFault>
    ensures order { doubt_of S.Store conn.old ≤ doubt_of S.Store conn.new }
    ensures mode { conn.old.in_transaction ≡ false → conn.new.in_transaction ≡ false }
    ensures stays { doubt_of S.Store conn.new ≡ 0 → IsCalm (state S.Store conn.old) → Stays (state S.Store conn.old) (state S.Store conn.new) }
    ensures found { doubt_of S.Store conn.new ≡ 0 → IsCalm (state S.Store conn.old) → IfOk result (ShowsVersion (state S.Store conn.old).now) }
{
    let mut rows = match conn.query_all(WHICH, &[]) {
        Ok(rows) => rows,
        Err(error) => return Err(fault_of(&error)),
    };
    if rows.len() > 1 {
        return Err(StoreFault::Store);
    }
    Ok(rows.pop())
}

// Whether the columns take a statement.
fn takes<S: Alter>(conn: &mut Connection<S>, text: &str) -> Result<bool, StoreFault>
    ensures order { doubt_of S.Store conn.old ≤ doubt_of S.Store conn.new }
    ensures stays { doubt_of S.Store conn.new ≡ 0 → IsIdle (state S.Store conn.old) → Stays (state S.Store conn.old) (state S.Store conn.new) }
    ensures other { doubt_of S.Store conn.new ≡ 0 → IfOk result (λ taken. taken ≡ false → (fault : CompileError) × (understood
        (state S.Store conn.old).now.schema text.now ≡ Err fault)) }
{
    match conn.prepare(text) {
        Ok(_) => Ok(true),
        Err(Error::SqlInputError(_)) => Ok(false),
        Err(error) => Err(fault_of(&error)),
    }
}

// A statement of this crate, by its number.
fn statement(number: usize) -> &'static str
    ensures { Has statements result.now }
{
    match number {
        0 => GET,
        1 => PUT,
        2 => KILL,
        3 => NEXT,
        4 => PREV,
        5 => WHICH,
        _ => ALL,
    }
}

// Whether the columns take each of the statements.
fn takes_each<S: Alter>(conn: &mut Connection<S>) -> Result<bool, StoreFault>
    ensures order { doubt_of S.Store conn.old ≤ doubt_of S.Store conn.new }
    ensures stays { doubt_of S.Store conn.new ≡ 0 → IsIdle (state S.Store conn.old) → Stays (state S.Store conn.old) (state S.Store conn.new) }
    ensures other { doubt_of S.Store conn.new ≡ 0 → IsIdle (state S.Store conn.old) → IfOk result (λ taken. taken ≡ false → RefusesOne
        (state S.Store conn.old).now.schema) }
{
    for number in 0..7 {
        if !takes(conn, statement(number))? {
            return Ok(false);
        }
    }
    Ok(true)
}

// Why a database is refused that has tables, but not those that are made here.
fn refusal<S: Alter>(conn: &mut Connection<S>) -> OpenFault
    ensures order { doubt_of S.Store conn.old ≤ doubt_of S.Store conn.new }
    ensures stays { doubt_of S.Store conn.new ≡ 0 → IsIdle (state S.Store conn.old) → Stays (state S.Store conn.old) (state S.Store conn.new) }
    ensures version { doubt_of S.Store conn.new ≡ 0 → IsIdle (state S.Store conn.old) → result ≡ OpenFault.BadVersion → RefusesColumns
        (state S.Store conn.old).now.schema }
    ensures key { result ≢ OpenFault.BadKey }
{
    let schema = conn.schema();
    if !has_table(schema, b"node") && !has_table(schema, b"meta") {
        return OpenFault::Store;
    }
    match takes_each(conn) {
        Ok(true) => OpenFault::Store,
        Ok(false) => OpenFault::BadVersion,
        Err(fault) => OpenFault::from(fault),
    }
}

// The version that a row shows after its rowid.
fn version_in(row: &Row) -> Result<Version, OpenFault>
    ensures found { IfOk result (λ version. column row.now 1 ≡ number_of version) }
    ensures id { OnOk result ((n : ℤ) × (column row.now 0 ≡ Int n)) }
    ensures other { result ≡ Err OpenFault.BadVersion → (column row.now 1 ≢ this_version) × (column row.now 1 ≢ old_version) }
    ensures key { result ≢ Err OpenFault.BadKey }
{
    let Ok(ValueRef::Int(_)) = row.get_ref(0) else {
        return Err(OpenFault::Store);
    };
    match row.get_ref(1) {
        Ok(ValueRef::Int(2)) => Ok(Version::Second),
        Ok(ValueRef::Int(1)) => Ok(Version::First),
        _ => Err(OpenFault::BadVersion),
    }
}

// The version of the tables that are there.
fn read_version<S: Alter>(conn: &mut Connection<S>) -> Result<Version, OpenFault>
    ensures order { doubt_of S.Store conn.old ≤ doubt_of S.Store conn.new }
    ensures mode { conn.old.in_transaction ≡ false → conn.new.in_transaction ≡ false }
    ensures stays { doubt_of S.Store conn.new ≡ 0 → IsCalm (state S.Store conn.old) → Stays (state S.Store conn.old) (state S.Store conn.new) }
    ensures found { doubt_of S.Store conn.new ≡ 0 → IsCalm (state S.Store conn.old) → IfOk result (λ version. GivesVersion (state S.Store conn.old).now
        (number_of version) × OnlyGives (state S.Store conn.old).now (number_of version)) }
    ensures version { doubt_of S.Store conn.new ≡ 0 → IsCalm (state S.Store conn.old) → result ≡ Err OpenFault.BadVersion → IsOtherVersion
        (state S.Store conn.old).now }
    ensures key { result ≢ Err OpenFault.BadKey }
{
    let Some(row) = find_version(conn)? else {
        return Err(OpenFault::BadVersion);
    };
    version_in(&row)
}

// All rows, if each is a node's by the digits of the version.
fn read_nodes<S: Alter>(
    alloc: Global,
    conn: &mut Connection<S>,
    version: Version,
) -> Result<Vec<Row>, OpenFault>
    ensures order { doubt_of S.Store conn.old ≤ doubt_of S.Store conn.new }
    ensures mode { conn.old.in_transaction ≡ false → conn.new.in_transaction ≡ false }
    ensures stays { doubt_of S.Store conn.new ≡ 0 → IsCalm (state S.Store conn.old) → Stays (state S.Store conn.old) (state S.Store conn.new) }
    ensures all { doubt_of S.Store conn.new ≡ 0 → IsCalm (state S.Store conn.old) → IfOk result (λ rows. ShowsAll (state S.Store conn.old) rows.items) }
    ensures numbered { doubt_of S.Store conn.new ≡ 0 → IsCalm (state S.Store conn.old) → OnOk result (AreNumbered ((state S.Store conn.old).now.trees 0)) }
    ensures nodes { doubt_of S.Store conn.new ≡ 0 → IsCalm (state S.Store conn.old) → OnOk result (ShowsNodesBy (digits_of version)
        (state S.Store conn.old).now) }
    ensures key { doubt_of S.Store conn.new ≡ 0 → IsCalm (state S.Store conn.old) → result ≡ Err OpenFault.BadKey → HasOtherBy (digits_of version)
        ((state S.Store conn.old).now.trees 0) }
    ensures version { result ≢ Err OpenFault.BadVersion }
{
    let rows = read_all(conn)?;
    if !rise(rows.as_slice()) {
        return Err(OpenFault::Store);
    }
    match are_nodes(alloc, rows.as_slice(), version) {
        Ok(true) => Ok(rows),
        Ok(false) => Err(OpenFault::BadKey),
        Err(_) => Err(OpenFault::Memory),
    }
}

// Tests a row of a store of this version, which comes after a rowid. Gives its own.
fn test_row(alloc: Global, row: &Row, last: Option<i64>) -> Result<i64, OpenFault>
    ensures number { IfOk result (λ id. (column row.now 0 ≡ Int id) × IsAbove last id) }
    ensures node { OnOk result (ShowsNodeBy (digits_of Version.Second) row.now) }
    ensures key { result ≡ Err OpenFault.BadKey → ShowsNodeBy (digits_of Version.Second) row.now → ⊥ }
    ensures version { result ≢ Err OpenFault.BadVersion }
{
    let Ok(ValueRef::Int(id)) = row.get_ref(0) else {
        return Err(OpenFault::Store);
    };
    if !is_above(last, id) {
        return Err(OpenFault::Store);
    }
    match is_node(alloc, row, Version::Second) {
        Ok(true) => Ok(id),
        Ok(_) => Err(OpenFault::BadKey),
        Err(_) => Err(OpenFault::Memory),
    }
}

// Tests each row of a store of this version, one at a time, and keeps none.
fn test_nodes<S: Alter>(alloc: Global, conn: &mut Connection<S>) -> Result<(), OpenFault>
    ensures order { doubt_of S.Store conn.old ≤ doubt_of S.Store conn.new }
    ensures stays { doubt_of S.Store conn.new ≡ 0 → IsCalm (state S.Store conn.old) → Stays (state S.Store conn.old) (state S.Store conn.new) }
    ensures numbered { doubt_of S.Store conn.new ≡ 0 → IsCalm (state S.Store conn.old) → OnOk result (AreNumbered ((state S.Store conn.old).now.trees 0)) }
    ensures nodes { doubt_of S.Store conn.new ≡ 0 → IsCalm (state S.Store conn.old) → OnOk result (ShowsNodesBy (digits_of Version.Second)
        (state S.Store conn.old).now) }
    ensures key { doubt_of S.Store conn.new ≡ 0 → IsCalm (state S.Store conn.old) → result ≡ Err OpenFault.BadKey → HasOtherBy (digits_of Version.Second)
        ((state S.Store conn.old).now.trees 0) }
    ensures version { result ≢ Err OpenFault.BadVersion }
{
    let mut rows = match conn.query(ALL, &[]) {
        Ok(rows) => rows,
        Err(error) => return Err(OpenFault::from(fault_of(&error))),
    };
    let mut last: Option<i64> = None;
    'rows: for _ in 0..u64::MAX {
        match rows.advance() {
            Ok(()) => (),
            Err(error) => return Err(OpenFault::from(fault_of(&error))),
        }
        let Some(row) = rows.get() else {
            return Ok(());
        };
        last = Some(test_row(alloc, row, last)?);
    }
    Err(OpenFault::Store)
}

// Brings a store of version 1 to this version.
fn migrate_tables<S: Alter>(alloc: Global, conn: &mut Connection<S>) -> Result<(), OpenFault>
    requires { conn.old.in_transaction ≡ false }
    ensures order { doubt_of S.Store conn.old ≤ doubt_of S.Store conn.new }
    ensures store { doubt_of S.Store conn.new ≡ 0 → IsOldCalm (state S.Store conn.old) → OnOk result (IsStore (state S.Store conn.new)) }
    ensures migrated { doubt_of S.Store conn.new ≡ 0 → IsOldCalm (state S.Store conn.old) → OnOk result (IsMigrated (state S.Store conn.old)
        (state S.Store conn.new)) }
    ensures untouched { doubt_of S.Store conn.new ≡ 0 → IsOldCalm (state S.Store conn.old) → OnErr result (IsUntouched (state S.Store conn.old)
        (state S.Store conn.new)) }
    ensures key { doubt_of S.Store conn.new ≡ 0 → IsOldCalm (state S.Store conn.old) → result ≡ Err OpenFault.BadKey → HasOtherBy old_digits
        ((state S.Store conn.old).now.trees 0) }
    ensures version { result ≢ Err OpenFault.BadVersion }
{
    let rows = read_nodes(alloc, conn, Version::First)?;
    match migrate(alloc, conn, rows.as_slice()) {
        Ok(()) => Ok(()),
        Err(fault) => Err(OpenFault::from(fault)),
    }
}

// Tests the tables that are there, and brings them to this version.
fn settle_tables<S: Alter>(alloc: Global, conn: &mut Connection<S>) -> Result<(), OpenFault>
    requires { conn.old.in_transaction ≡ false }
    ensures order { doubt_of S.Store conn.old ≤ doubt_of S.Store conn.new }
    ensures store { doubt_of S.Store conn.new ≡ 0 → IsLive (state S.Store conn.old) → IsCalm (state S.Store conn.old) → OnOk result (IsStore
        (state S.Store conn.new)) }
    ensures opened { doubt_of S.Store conn.new ≡ 0 → IsLive (state S.Store conn.old) → IsCalm (state S.Store conn.old) → OnOk result (IsOpenedFrom
        (state S.Store conn.old) (state S.Store conn.new)) }
    ensures untouched { doubt_of S.Store conn.new ≡ 0 → IsLive (state S.Store conn.old) → IsCalm (state S.Store conn.old) → OnErr result (IsUntouched
        (state S.Store conn.old) (state S.Store conn.new)) }
    ensures version { doubt_of S.Store conn.new ≡ 0 → IsLive (state S.Store conn.old) → IsCalm (state S.Store conn.old) → result ≡ Err OpenFault.BadVersion
        → IsOtherVersion (state S.Store conn.old).now }
    ensures key { doubt_of S.Store conn.new ≡ 0 → IsLive (state S.Store conn.old) → IsCalm (state S.Store conn.old) → result ≡ Err OpenFault.BadKey
        → IsBadlyKeyed (state S.Store conn.old).now }
{
    match read_version(conn)? {
        Version::First => migrate_tables(alloc, conn),
        Version::Second => test_nodes(alloc, conn),
    }
}

// Makes the tables in a database without any, and tests those that are there.
pub fn open_tables<S: Alter>(alloc: Global, conn: &mut Connection<S>) -> Result<(), OpenFault>
    ensures order { doubt_of S.Store conn.old ≤ doubt_of S.Store conn.new }
    ensures store { doubt_of S.Store conn.new ≡ 0 → OnOk result (IsStore (state S.Store conn.new)) }
    ensures opened { doubt_of S.Store conn.new ≡ 0 → OnOk result (IsOpenedFrom (state S.Store conn.old) (state S.Store conn.new)) }
    ensures untouched { doubt_of S.Store conn.new ≡ 0 → OnErr result (IsUntouched (state S.Store conn.old) (state S.Store conn.new)) }
    ensures version { doubt_of S.Store conn.new ≡ 0 → result ≡ Err OpenFault.BadVersion → IsOtherVersion (state S.Store conn.old).now }
    ensures key { doubt_of S.Store conn.new ≡ 0 → result ≡ Err OpenFault.BadKey → ((state S.Store conn.old).now.schema ≡ schema_of) × IsBadlyKeyed
        (state S.Store conn.old).now }
{
    if !conn.is_autocommit() {
        return Err(OpenFault::Store);
    }
    let schema = conn.schema();
    if is_blank(schema) {
        return make_tables(conn);
    }
    if is_store(schema) {
        return settle_tables(alloc, conn);
    }
    Err(refusal(conn))
}

// The same in a database that others use too: their tables stay as they are. Tells whether there are none.
pub fn open_beside<S: Alter>(alloc: Global, conn: &mut Connection<S>) -> Result<bool, OpenFault>
    ensures beside { OnOk result (IsBeside (state S.Store conn.old).now.schema) }
    ensures order { doubt_of S.Store conn.old ≤ doubt_of S.Store conn.new }
    ensures alone { IfOk result (λ alone. ((state S.Store conn.old).now.schema ≡ no_schema) ⊎ ((state S.Store conn.old).now.schema ≡ schema_of)
        → IsTrue alone) }
    ensures store { doubt_of S.Store conn.new ≡ 0 → IfOk result (λ alone. IsTrue alone → IsStore (state S.Store conn.new)) }
    ensures opened { doubt_of S.Store conn.new ≡ 0 → IfOk result (λ alone. IsTrue alone → IsOpenedFrom (state S.Store conn.old) (state S.Store conn.new)) }
{
    if !conn.is_autocommit() {
        return Err(OpenFault::Store);
    }
    let schema = conn.schema();
    if !is_unreferred(schema) {
        return Err(refusal(conn));
    }
    if has_neither(schema) {
        let alone = is_blank(schema);
        make_tables(conn)?;
        return Ok(alone);
    }
    if has_both(schema) {
        let alone = is_store(schema);
        settle_tables(alloc, conn)?;
        return Ok(alone);
    }
    Err(refusal(conn))
}
