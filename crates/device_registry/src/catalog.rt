//! Recognizing our two tables in the list of a database's objects.
ghost use Rattle.std.specs.Prelude.{◌≡◌};
ghost use Rattle.std.specs.List.{list_any};
ghost use Rattle.sqlite.specs.Order.{column};
ghost use Rattle.device_registry.specs.private.CatalogRows.{is_text, is_catalog_row, list_our_tables};

use crate::table::statements::CREATE_META;
use crate::table::{META_TABLE_NAME, Version};
use sqlite::Row;
use sqlite::types::ValueRef;

fn is_text(row: &Row, at: usize, text: &[u8]) -> bool
    ensures { result ≡ is_text (column row.now at) text.now }
{
    match row.get_ref(at) {
        Ok(ValueRef::Text(found)) => found == text,
        _ => false,
    }
}

fn is_catalog_row(row: &Row, name: &[u8], text: &[u8]) -> bool
    ensures { result ≡ is_catalog_row name.now text.now row.now }
{
    is_text(row, 0, name) && is_text(row, 2, text)
}

// Whether the rows list an object with this name and text.
fn has_catalog_row(rows: &[Row], name: &[u8], text: &[u8]) -> bool
    ensures { result ≡ list_any (is_catalog_row name.now text.now) rows.now }
{
    rows.iter().any(|row| is_catalog_row(row, name, text))
}

/// Whether the rows list the two tables of this version with their texts.
pub fn list_our_tables(rows: &[Row], version: Version) -> bool
    ensures { result ≡ list_our_tables version rows.now }
{
    has_catalog_row(rows, META_TABLE_NAME, CREATE_META.as_bytes())
        && has_catalog_row(
            rows,
            version.device_table_name(),
            version.create_device_sql().as_bytes(),
        )
}
