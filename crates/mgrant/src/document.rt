// SPDX-License-Identifier: Apache-2.0
// The shape of a document of settings: its entries, as they are written.
ghost use Rattle.std.specs.Prelude.{◌≡◌, IfOk, Option, Some, List, map, option_map, codes};
ghost use Rattle.std.specs.List.{list_any};
ghost use Rattle.mspec.specs.Trees.{text_eq};
ghost use Rattle.toml.specs.Data.{Members, get_member, as_str, as_integer};
ghost use Rattle.toml.specs.View.{view, table_view, array_view};
ghost use Rattle.mgrant.specs.Document.{WrittenAccount, WrittenGrant, has_only, text_at, integer_at, integers_at, language_at, each_read, account_in, grant_in};
ghost use Rattle.mgrant.specs.Document.{written_by, entries_of, entries_in, written, max_entries};
ghost use Rattle.mgrant.specs.Reading.{grant_view, entries_view, keys_view};
ghost use Rattle.mgrant.specs.View.{account_view};

use crate::language::Language;
use mspec::limits::MAX_ENTRIES;
use std::alloc::{AllocError, Global};
use toml::{Table, Value};

// An entry of the list of accounts, as it is written.
#[derive(Drop)]
pub(crate) struct AccountEntry {
    pub name: Vec<u8>,
    pub terminals: Vec<i64>,
    pub steps: i64,
    pub language: Language,
}

// An entry of the list of grants, as it is written.
#[derive(Drop)]
pub(crate) struct GrantEntry {
    pub from: Vec<u8>,
    pub to: Vec<u8>,
    pub global: Vec<u8>,
    pub mode: Vec<u8>,
}

// What a document of the right shape says.
#[derive(Drop)]
pub(crate) struct Entries {
    pub accounts: Vec<AccountEntry>,
    pub grants: Vec<GrantEntry>,
}

// Whether a key is among these.
fn is_among(key: &str, keys: &[&str]) -> bool
    ensures { result ≡ list_any (λ other. text_eq key.now other.now) keys.now }
{
    keys.iter().any(|other| key == *other)
}

// Whether a table has no keys but these.
fn has_only(table: &Table, keys: &[&str]) -> bool
    ensures { result ≡ has_only (keys_view keys.now) (table_view table.now) }
{
    for key in table.keys() {
        if !is_among(key.as_str(), keys) {
            return false;
        }
    }
    true
}

// The value at a key.
#[tactic(auto, using(toml::proofs::Views::table_get))]
fn value_at<'a>(table: &'a Table, key: &str) -> Option<&'a Value>
    ensures { option_map (λ v. view v.now) result ≡ get_member key.now (table_view table.now) }
{
    table.get(key)
}

// The text at a key, if there is one.
fn text_at(alloc: Global, table: &Table, key: &str) -> Result<Option<Vec<u8>>, AllocError>
    ensures { IfOk result (λ o. option_map (λ v. v.items) o ≡ text_at key.now (table_view table.now)) }
{
    let Some(value) = value_at(table, key) else {
        return Ok(None);
    };
    match value.as_str() {
        Some(text) => Ok(Some(Vec::from_slice(alloc, text.as_bytes())?)),
        None => Ok(None),
    }
}

// The whole number at a key, if there is one.
fn integer_at(table: &Table, key: &str) -> Option<i64>
    ensures { result ≡ integer_at key.now (table_view table.now) }
{
    match value_at(table, key) {
        Some(value) => value.as_integer(),
        None => None,
    }
}

// The language at its key, 0 if it is absent.
fn language_at(table: &Table) -> Option<Language>
    ensures { option_map (λ language. language.number) result ≡ language_at (table_view table.now) }
{
    let Some(value) = value_at(table, "language") else {
        return Some(Language { number: 0 });
    };
    match value.as_integer() {
        Some(0) => Some(Language { number: 0 }),
        Some(1) => Some(Language { number: 1 }),
        _ => None,
    }
}

// The whole numbers of a list, if all that is in it are.
#[tactic(auto, using(crate::proofs::EachRead::none_read))]
fn integers(alloc: Global, values: &Vec<Value>) -> Result<Option<Vec<i64>>, AllocError>
    ensures { IfOk result (λ o. option_map (λ v. v.items) o ≡ each_read as_integer (array_view values.now)) }
{
    let mut all = Vec::new(alloc);
    for value in values {
        match value.as_integer() {
            Some(n) => all.push(n)?,
            None => return Ok(None),
        }
    }
    Ok(Some(all))
}

// The list of whole numbers at a key, if there is one.
fn integers_at(alloc: Global, table: &Table, key: &str) -> Result<Option<Vec<i64>>, AllocError>
    ensures { IfOk result (λ o. option_map (λ v. v.items) o ≡ integers_at key.now (table_view table.now)) }
{
    let Some(value) = value_at(table, key) else {
        return Ok(None);
    };
    match value.as_array() {
        Some(values) => integers(alloc, values),
        None => Ok(None),
    }
}

// An entry of a list of the document, and what a table says of it.
trait Entry: Sized {
    ghost Written: { Type 0 };

    ghost seen: { Self → Written };

    ghost written: { Members → Option Written };

    // What a table says of an entry, if it has the keys of one.
    fn read(alloc: Global, table: &Table) -> Result<Option<Self>, AllocError>
        ensures { IfOk result (λ o. option_map seen o ≡ written (table_view table.now)) };
}

impl Entry for AccountEntry {
    ghost Written = { WrittenAccount };

    ghost seen = { account_view };

    ghost written = { account_in };

    fn read(alloc: Global, table: &Table) -> Result<Option<AccountEntry>, AllocError> {
        if !has_only(table, &["name", "terminals", "steps", "language"]) {
            return Ok(None);
        }
        let Some(name) = text_at(alloc, table, "name")? else {
            return Ok(None);
        };
        let Some(terminals) = integers_at(alloc, table, "terminals")? else {
            return Ok(None);
        };
        let Some(steps) = integer_at(table, "steps") else {
            return Ok(None);
        };
        match language_at(table) {
            Some(language) => Ok(Some(AccountEntry {
                name,
                terminals,
                steps,
                language,
            })),
            None => Ok(None),
        }
    }
}

impl Entry for GrantEntry {
    ghost Written = { WrittenGrant };

    ghost seen = { grant_view };

    ghost written = { grant_in };

    fn read(alloc: Global, table: &Table) -> Result<Option<GrantEntry>, AllocError> {
        if !has_only(table, &["from", "to", "global", "mode"]) {
            return Ok(None);
        }
        let Some(from) = text_at(alloc, table, "from")? else {
            return Ok(None);
        };
        let Some(to) = text_at(alloc, table, "to")? else {
            return Ok(None);
        };
        let Some(global) = text_at(alloc, table, "global")? else {
            return Ok(None);
        };
        match text_at(alloc, table, "mode")? {
            Some(mode) => Ok(Some(GrantEntry {
                from,
                to,
                global,
                mode,
            })),
            None => Ok(None),
        }
    }
}

// An entry of a list.
fn read_entry<E: Entry>(alloc: Global, value: &Value) -> Result<Option<E>, AllocError>
    ensures { IfOk result (λ o. option_map E.seen o ≡ written_by E.written (view value.now)) }
{
    match value.as_table() {
        Some(table) => E::read(alloc, table),
        None => Ok(None),
    }
}

// The entries of a list.
#[tactic(auto, using(crate::proofs::EachRead::too_long))]
fn list<E: Entry + Drop>(alloc: Global, values: &Vec<Value>) -> Result<Option<Vec<E>>, AllocError>
    ensures { IfOk result (λ o. option_map (λ v. map E.seen v.items) o ≡ entries_of (written_by E.written) (array_view values.now)) }
{
    if values.len() > MAX_ENTRIES {
        return Ok(None);
    }
    let mut all = Vec::new(alloc);
    for value in values {
        match read_entry(alloc, value)? {
            Some(entry) => all.push(entry)?,
            None => return Ok(None),
        }
    }
    Ok(Some(all))
}

// The entries of a list, which may be absent.
fn list_at<E: Entry + Drop>(
    alloc: Global,
    table: &Table,
    key: &str,
) -> Result<Option<Vec<E>>, AllocError>
    ensures { IfOk result (λ o. option_map (λ v. map E.seen v.items) o ≡ entries_in (written_by E.written) (get_member key.now (table_view table.now))) }
{
    let Some(value) = value_at(table, key) else {
        return Ok(Some(Vec::new(alloc)));
    };
    match value.as_array() {
        Some(values) => list(alloc, values),
        None => Ok(None),
    }
}

// What a document says, if it has the right shape.
pub(crate) fn read_entries(alloc: Global, table: &Table) -> Result<Option<Entries>, AllocError>
    ensures { IfOk result (λ o. option_map entries_view o ≡ written (table_view table.now)) }
{
    if !has_only(table, &["account", "grant"]) {
        return Ok(None);
    }
    let Some(accounts) = list_at::<AccountEntry>(alloc, table, "account")? else {
        return Ok(None);
    };
    match list_at::<GrantEntry>(alloc, table, "grant")? {
        Some(grants) => Ok(Some(Entries { accounts, grants })),
        None => Ok(None),
    }
}
