// SPDX-License-Identifier: Apache-2.0
// The names of the accounts of a document of settings.
ghost use Rattle.std.specs.Prelude.{◌≡◌, IfOk, IfErr, map, option_map, codes};
ghost use Rattle.toml.specs.Data.{get_member};
ghost use Rattle.toml.specs.View.{view, table_view, array_view};
ghost use Rattle.mspec.specs.Access.{Settings};
ghost use Rattle.mgrant.specs.Document.{text_at, each_read};
ghost use Rattle.mgrant.specs.Reading.{IsRead};
ghost use Rattle.mgrant.specs.declared.fault.SettingsFault.TheVariants.{Memory};
ghost use Rattle.mislands.specs.Written.{written_name, written_names, texts_in};
ghost use Rattle.mislands.specs.Listing.{names_of};

use mgrant::SettingsFault;
use std::alloc::{AllocError, Global};
use toml::{Table, Value};

// The value at a key.
#[tactic(auto, using(toml::proofs::Views::table_get))]
fn value_at<'a>(table: &'a Table, key: &str) -> Option<&'a Value>
    ensures { option_map (λ v. view v.now) result ≡ get_member key.now (table_view table.now) }
{
    table.get(key)
}

// The name in a table, if there is one.
fn name_in(alloc: Global, table: &Table) -> Result<Option<Vec<u8>>, AllocError>
    ensures { IfOk result (λ o. option_map (λ v. v.items) o ≡ text_at (codes "name") (table_view table.now)) }
{
    let Some(value) = value_at(table, "name") else {
        return Ok(None);
    };
    match value.as_str() {
        Some(text) => Ok(Some(Vec::from_slice(alloc, text.as_bytes())?)),
        None => Ok(None),
    }
}

// The name of an account.
fn name(alloc: Global, value: &Value) -> Result<Option<Vec<u8>>, AllocError>
    ensures { IfOk result (λ o. option_map (λ v. v.items) o ≡ written_name (view value.now)) }
{
    match value.as_table() {
        Some(table) => name_in(alloc, table),
        None => Ok(None),
    }
}

// The names of the accounts of a list.
fn names(alloc: Global, values: &Vec<Value>) -> Result<Option<Vec<Vec<u8>>>, AllocError>
    ensures { IfOk result (λ o. option_map texts_in o ≡ each_read written_name (array_view values.now)) }
{
    let mut all = Vec::new(alloc);
    for value in values {
        let Some(name) = name(alloc, value)? else {
            return Ok(None);
        };
        all.push(name)?;
    }
    Ok(Some(all))
}

// The names of the accounts of a table.
fn names_in(alloc: Global, table: &Table) -> Result<Option<Vec<Vec<u8>>>, AllocError>
    ensures { IfOk result (λ o. option_map texts_in o ≡ written_names (table_view table.now)) }
{
    let Some(value) = value_at(table, "account") else {
        return Ok(Some(Vec::new(alloc)));
    };
    match value.as_array() {
        Some(values) => names(alloc, values),
        None => Ok(None),
    }
}

// The names of the accounts of the settings that a document gives, in their order.
pub(crate) fn names_of(alloc: Global, document: &[u8]) -> Result<Vec<Vec<u8>>, SettingsFault>
    ensures err { IfErr result (λ e. e ≡ Memory) }
    ensures names { IfOk result (λ names. (settings : Settings) → IsRead document.now settings → texts_in names ≡ names_of settings) }
{
    let Ok(table) = toml::table_from_slice(alloc, document) else {
        return Err(SettingsFault::Memory);
    };
    match names_in(alloc, &table)? {
        Some(names) => Ok(names),
        None => Ok(Vec::new(alloc)),
    }
}
