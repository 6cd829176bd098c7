//! Our tables in a schema, and the objects beside them.
ghost use Rattle.std.specs.Prelude.{◌≡◌};
ghost use Rattle.std.specs.List.{list_any};
ghost use Rattle.sqlite.specs.Table.{Table};
ghost use Rattle.device_registry.specs.SchemaChecks.{refers_to, is_referenced, has_foreign_key_to_ours, is_indexed};
ghost use Rattle.device_registry.specs.SchemaChecks.{lacks_needed_sequence_table, migration_adds_no_sequence};
ghost use Rattle.device_registry.specs.SchemaChecks.{has_one_table, tree_of_table};
ghost use Rattle.device_registry.specs.private.TablesStatus.{is_index_or_view, are_creatable, are_unaffected};
ghost use Rattle.device_registry.specs.private.TablesStatus.{tables_in_trees, tables_status};

use crate::table::{META_TABLE_NAME, Version};
use sqlite_schema::names::same_name;
use sqlite_schema::schema::{Schema, Table};

// Whether an index or a view has this name.
fn is_index_or_view(schema: &Schema, name: &[u8]) -> bool
    ensures { result ≡ is_index_or_view schema.now name.now }
{
    schema.index_named(name).is_some() || schema.view_named(name).is_some()
}

fn refers_to(table: &Table, name: &[u8]) -> bool
    ensures { result ≡ refers_to name.now table.now }
{
    table
        .references
        .as_slice()
        .iter()
        .any(|reference| same_name(reference.parent.as_slice(), name))
}

// Whether a foreign key refers to a table of this name.
fn is_referenced(schema: &Schema, name: &[u8]) -> bool
    ensures { result ≡ is_referenced schema.now name.now }
{
    schema
        .tables
        .as_slice()
        .iter()
        .any(|table| refers_to(table, name))
}

// Whether a foreign key refers to a table of ours, of either version.
fn has_foreign_key_to_ours(schema: &Schema) -> bool
    ensures { result ≡ has_foreign_key_to_ours schema.now }
{
    is_referenced(schema, META_TABLE_NAME)
        || is_referenced(schema, Version::First.device_table_name())
        || is_referenced(schema, Version::Second.device_table_name())
}

fn is_indexed(schema: &Schema, tree: u32) -> bool
    ensures { result ≡ is_indexed schema.now tree }
{
    schema
        .indexes
        .as_slice()
        .iter()
        .any(|index| index.table == tree)
}

fn counts_rowids(schema: &Schema) -> bool
    ensures { result ≡ list_any (λ (table : Table). table.is_counted) schema.now.tables }
{
    schema
        .tables
        .as_slice()
        .iter()
        .any(|table| table.is_counted)
}

// Whether a table counts its rowids without SQLite's table of the counts.
fn lacks_needed_sequence_table(schema: &Schema) -> bool
    ensures { result ≡ lacks_needed_sequence_table schema.now }
{
    counts_rowids(schema) && schema.table_named(b"sqlite_sequence").is_none()
}

// Whether a registry of this version allows these tables. In version 1 no table may count its rowids without SQLite's
// table of the counts, because the migration would add that table.
fn migration_adds_no_sequence(schema: &Schema, version: Version) -> bool
    ensures { result ≡ migration_adds_no_sequence version schema.now }
{
    match version {
        Version::First => !lacks_needed_sequence_table(schema),
        Version::Second => true,
    }
}

// Whether the tables can be created in a schema without tables of our names.
fn are_creatable(schema: &Schema) -> bool
    ensures { result ≡ are_creatable schema.now }
{
    !is_index_or_view(schema, META_TABLE_NAME)
        && !is_index_or_view(schema, Version::First.device_table_name())
        && !is_index_or_view(schema, Version::Second.device_table_name())
        && !has_foreign_key_to_ours(schema)
        && !lacks_needed_sequence_table(schema)
}

// Whether exactly one table is in the tree.
fn has_one_table(schema: &Schema, tree: u32) -> bool
    ensures { result ≡ has_one_table schema.now tree }
{
    schema
        .tables
        .as_slice()
        .iter()
        .filter(|table| table.tree == tree)
        .count()
        == 1
}

// Whether other objects do not affect the tables of this version, which are in these trees. There is no table of the
// other version.
fn are_unaffected(schema: &Schema, version: Version, meta: u32, devices: u32) -> bool
    ensures { result ≡ are_unaffected version schema.now meta devices }
{
    !has_foreign_key_to_ours(schema)
        && !is_indexed(schema, meta)
        && !is_indexed(schema, devices)
        && has_one_table(schema, meta)
        && has_one_table(schema, devices)
        && !is_index_or_view(schema, version.other().device_table_name())
        && migration_adds_no_sequence(schema, version)
}

// The tree of the table with this name.
fn tree_of_table(schema: &Schema, name: &[u8]) -> Option<u32>
    ensures { result ≡ tree_of_table schema.now name.now }
{
    let at = schema.table_named(name)?;
    let table = schema.tables.as_slice().get(at)?;
    Some(table.tree)
}

/// What a schema has under the names of our tables.
#[derive(Clone, Copy)]
pub enum TablesStatus {
    /// Nothing, and the tables can be created.
    Absent,
    /// The tables of this version, which other objects do not affect.
    Present(Version),
    /// Something else.
    Unusable,
}

// What the schema has, if the tables of our names are in these trees.
fn tables_in_trees(
    schema: &Schema,
    meta: Option<u32>,
    first: Option<u32>,
    second: Option<u32>,
) -> TablesStatus
    ensures { result ≡ tables_in_trees schema.now meta first second }
{
    match (meta, first, second) {
        (None, None, None) if are_creatable(schema) => TablesStatus::Absent,
        (Some(meta), Some(devices), None)
            if are_unaffected(schema, Version::First, meta, devices) => {
            TablesStatus::Present(Version::First)
        }
        (Some(meta), None, Some(devices))
            if are_unaffected(schema, Version::Second, meta, devices) => {
            TablesStatus::Present(Version::Second)
        }
        _ => TablesStatus::Unusable,
    }
}

/// What the schema has under the names of our tables. Each name is looked up once.
pub fn tables_status(schema: &Schema) -> TablesStatus
    ensures { result ≡ tables_status schema.now }
{
    tables_in_trees(
        schema,
        tree_of_table(schema, META_TABLE_NAME),
        tree_of_table(schema, Version::First.device_table_name()),
        tree_of_table(schema, Version::Second.device_table_name()),
    )
}
