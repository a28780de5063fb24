// SPDX-License-Identifier: Apache-2.0
// Whether a schema is that of a store, alone or beside other tables.

ghost use Rattle.std.specs.Prelude.{◌≡◌, [], ◌∷◌, true, false, IsTrue, codes, ◌↔◌};
ghost use Rattle.mstore.specs.Layout.{column_of, table_of, index_of, no_schema, schema as schema_of};
ghost use Rattle.mstore.specs.Beside.{has_table, refers, is_referred, is_further, is_restricted, node_at, meta_at, HasNode, HasMeta, HasBoth, HasNeither};
ghost use Rattle.mstore.specs.Beside.{IsUnreferred};

use sqlite_schema::code::Terms;
use sqlite_schema::names::same_name;
use sqlite_schema::schema::{Column, Index, Kind, Schema, Table};
use sqlite_value::keys::{Collation, Order};
use sqlite_value::value::Value;

fn is_null(value: &Value) -> bool
    ensures { IsTrue result ↔ (value.now ≡ Value.Null) }
{
    match value {
        Value::Null => true,
        _ => false,
    }
}

fn is_column(column: &Column, name: &[u8], kind: Kind, not_null: bool) -> bool
    ensures { IsTrue result ↔ (column.now ≡ column_of name.now kind not_null) }
{
    column.name.as_slice() == name
        && column.kind == kind
        && !column.is_strict
        && column.not_null == not_null
        && is_null(&column.default)
        && column.collation == Collation::Binary
}

fn is_first(places: &[usize]) -> bool
    ensures { IsTrue result ↔ (places.now ≡ 1 ∷ []) }
{
    places.len() == 1 && places[0] == 1
}

fn is_empty(terms: &Terms) -> bool
    ensures { IsTrue result ↔ (terms.now ≡ []) }
{
    terms.roots.is_empty()
}

fn is_plain(table: &Table) -> bool
    ensures { IsTrue result ↔ (table.now ≡ table_of table.now.name table.now.tree table.now.columns) }
{
    if table.uniques.len() != 1 || table.orders.len() != 1 {
        return false;
    }
    let keyed = is_first(table.primary.as_slice())
        && is_first(table.uniques.as_slice()[0].as_slice())
        && table.orders.as_slice()[0] == Order::PLAIN
        && table.key.is_none();
    let bare = is_empty(&table.checks)
        && table.references.is_empty()
        && table.computed.is_empty()
        && table.stamps.places.is_empty()
        && is_empty(&table.stamps.terms)
        && table.stamps.formats.is_empty()
        && !table.is_counted;
    keyed && bare
}

fn is_index(index: &Index, name: &[u8], tree: u32, table: u32) -> bool
    ensures { IsTrue result ↔ (index.now ≡ index_of name.now tree table) }
{
    index.name.as_slice() == name
        && index.tree == tree
        && index.table == table
        && is_first(index.columns.as_slice())
        && index.order == Order::PLAIN
        && index.is_unique
}

fn has_columns(
    columns: &[Column],
    first: &[u8],
    one: Kind,
    second: &[u8],
    two: Kind,
    not_null: bool,
) -> bool
    ensures { IsTrue result ↔ (columns.now ≡ column_of first.now one not_null ∷ column_of second.now two not_null ∷ []) }
{
    if columns.len() != 2 {
        return false;
    }
    is_column(&columns[0], first, one, not_null) && is_column(&columns[1], second, two, not_null)
}

fn is_table(table: &Table, name: &[u8], tree: u32) -> bool
    ensures { IsTrue result ↔ (table.now ≡ table_of name.now tree table.now.columns) }
{
    table.name.as_slice() == name && table.tree == tree && is_plain(table)
}

fn is_node(table: &Table, tree: u32) -> bool
    ensures { IsTrue result ↔ (table.now ≡ node_at tree) }
{
    let columns = table.columns.as_slice();
    is_table(table, b"node", tree) && has_columns(columns, b"k", Kind::Any, b"v", Kind::Any, true)
}

fn is_meta(table: &Table, tree: u32) -> bool
    ensures { IsTrue result ↔ (table.now ≡ meta_at tree) }
{
    let columns = table.columns.as_slice();
    is_table(table, b"meta", tree)
        && has_columns(columns, b"name", Kind::Text, b"n", Kind::Integer, false)
}

fn has_tables(tables: &[Table]) -> bool
    ensures { IsTrue result ↔ (tables.now ≡ schema_of.tables) }
{
    if tables.len() != 2 {
        return false;
    }
    is_node(&tables[0], 0) && is_meta(&tables[1], 2)
}

fn has_indexes(indexes: &[Index]) -> bool
    ensures { IsTrue result ↔ (indexes.now ≡ index_of (codes "sqlite_autoindex_node_1") 1 0 ∷ index_of (codes "sqlite_autoindex_meta_1") 3 2 ∷ []) }
{
    if indexes.len() != 2 {
        return false;
    }
    is_index(&indexes[0], b"sqlite_autoindex_node_1", 1, 0)
        && is_index(&indexes[1], b"sqlite_autoindex_meta_1", 3, 2)
}

/// Whether the schema has the two tables, and nothing else.
#[tactic(auto, using(crate::proofs::Layouts::schema_is))]
pub(crate) fn is_store(schema: &Schema) -> bool
    ensures { IsTrue result ↔ (schema.now ≡ schema_of) }
{
    has_tables(schema.tables.as_slice())
        && has_indexes(schema.indexes.as_slice())
        && schema.views.is_empty()
}

// Whether the schema has no table.
pub(crate) fn is_blank(schema: &Schema) -> bool
    ensures { IsTrue result ↔ (schema.now ≡ no_schema) }
{
    schema.tables.is_empty() && schema.indexes.is_empty() && schema.views.is_empty()
}

/// Whether there is a table of a name.
pub(crate) fn has_table(schema: &Schema, name: &[u8]) -> bool
    ensures { result ≡ has_table schema.now name.now }
{
    schema
        .tables
        .as_slice()
        .iter()
        .any(|table| same_name(table.name.as_slice(), name))
}

fn refers(table: &Table, name: &[u8]) -> bool
    ensures { result ≡ refers table.now name.now }
{
    table
        .references
        .as_slice()
        .iter()
        .any(|reference| same_name(reference.parent.as_slice(), name))
}

// Whether a foreign key refers to a table of a name.
fn is_referred(schema: &Schema, name: &[u8]) -> bool
    ensures { result ≡ is_referred schema.now name.now }
{
    schema
        .tables
        .as_slice()
        .iter()
        .any(|table| refers(table, name))
}

fn is_further(index: &Index, tree: u32, own: &[u8]) -> bool
    ensures { result ≡ is_further tree own.now index.now }
{
    index.table == tree && index.is_unique && !same_name(index.name.as_slice(), own)
}

// Whether an index beside the table's own restricts what rows it may have.
fn is_restricted(schema: &Schema, tree: u32, own: &[u8]) -> bool
    ensures { result ≡ is_restricted schema.now tree own.now }
{
    schema
        .indexes
        .as_slice()
        .iter()
        .any(|index| is_further(index, tree, own))
}

fn has_node(schema: &Schema) -> bool
    ensures { IsTrue result → HasNode schema.now }
{
    for table in schema.tables.as_slice() {
        if is_node(table, table.tree)
            && !is_restricted(schema, table.tree, b"sqlite_autoindex_node_1")
        {
            return true;
        }
    }
    false
}

fn has_meta(schema: &Schema) -> bool
    ensures { IsTrue result → HasMeta schema.now }
{
    for table in schema.tables.as_slice() {
        if is_meta(table, table.tree)
            && !is_restricted(schema, table.tree, b"sqlite_autoindex_meta_1")
        {
            return true;
        }
    }
    false
}

/// Whether the schema has the two tables, and no rule of others that a put or a kill could break.
pub(crate) fn has_both(schema: &Schema) -> bool
    ensures { IsTrue result → HasBoth schema.now }
{
    has_node(schema) && has_meta(schema)
}

/// Whether the schema has neither of the two tables.
pub(crate) fn has_neither(schema: &Schema) -> bool
    ensures { IsTrue result ↔ HasNeither schema.now }
{
    !has_table(schema, b"node") && !has_table(schema, b"meta")
}

/// Whether no table refers to one of the two.
pub(crate) fn is_unreferred(schema: &Schema) -> bool
    ensures { IsTrue result ↔ IsUnreferred schema.now }
{
    !is_referred(schema, b"node") && !is_referred(schema, b"meta")
}
