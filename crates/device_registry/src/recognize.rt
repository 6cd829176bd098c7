//! Recognizing a registry by its texts and rows.
ghost use Rattle.std.specs.Prelude.{◌≡◌, [], false, Ok, IsTrue, IfOk, OnErr};
ghost use Rattle.sqlite.specs.State.{HasCleanDisk, Survives, Shown, IsUnchanged};
ghost use Rattle.sqlite.specs.Given.{IsPlain};
ghost use Rattle.sqlite.specs.Listing.{understood};
ghost use Rattle.sqlite.specs.Effect.{IsDatabase};
ghost use Rattle.device_registry.specs.Stored.{HasTables, HasValidRows, IsRegistry, AreTablesListed};
ghost use Rattle.device_registry.specs.Opening.{IsSettledOpen, KeepsDatabaseIfStillOpen, IsRegistryIn};
ghost use Rattle.device_registry.specs.declared.schema_check.TablesStatus.TheVariants.{Present};
ghost use Rattle.device_registry.specs.private.TablesStatus.{tables_status};
ghost use Rattle.device_registry.specs.Table.{meta_name};

use crate::catalog::list_our_tables;
use crate::sql_connection::SqlConnection;
use crate::table::Version;
use crate::table::row_codec::{are_ascending_devices, shows_version};
use crate::table::statements::{LIST_OBJECTS, READ_VERSION};
use learned_devices::MAX_DEVICES;
use sqlite::{Error, Row};

// The rows that a query without parameters shows.
fn query_rows<C: SqlConnection>(conn: &mut C, sql: &str) -> Result<Vec<Row>, Error>
    requires { HasCleanDisk (C.state conn.old) → IsPlain (understood
        (C.state conn.old).now.schema sql.now) }
    ensures shown { HasCleanDisk (C.state conn.new) → IfOk result (λ rows. Shown sql.now []
        (C.state conn.old) (C.state conn.new) rows.items × IsUnchanged (C.state conn.old)
        (C.state conn.new)) }
    ensures mode { (C.state conn.old).in_transaction ≡ false → (C.state conn.new).in_transaction ≡ false }
    ensures crash { Survives (C.state conn.old) (C.state conn.new) (λ _. ⊥) }
    ensures remains { HasCleanDisk (C.state conn.new) → OnErr result (KeepsDatabaseIfStillOpen (C.state conn.old)
        (C.state conn.new)) }
{
    conn.query_all(sql, &[])
}

// Whether the two tables of this version are listed with our texts.
fn lists_our_tables<C: SqlConnection>(conn: &mut C, version: Version) -> Result<bool, Error>
    requires { HasCleanDisk (C.state conn.old) → IsDatabase (C.state conn.old).now }
    ensures ours { HasCleanDisk (C.state conn.new) → IfOk result (λ yes. IsUnchanged (C.state conn.old)
        (C.state conn.new) × (IsTrue yes → AreTablesListed version (C.state conn.old).now.trees)) }
    ensures other { HasCleanDisk (C.state conn.new) → result ≡ Ok false → ¬ AreTablesListed version
        (C.state conn.old).now.trees }
    ensures mode { (C.state conn.old).in_transaction ≡ false → (C.state conn.new).in_transaction ≡ false }
    ensures crash { Survives (C.state conn.old) (C.state conn.new) (λ _. ⊥) }
    ensures remains { HasCleanDisk (C.state conn.new) → OnErr result (KeepsDatabaseIfStillOpen (C.state conn.old)
        (C.state conn.new)) }
{
    let rows = query_rows(conn, LIST_OBJECTS)?;
    Ok(list_our_tables(&rows, version))
}

// Whether the version row is that of this version, and the other rows are those of devices, not too many.
fn has_valid_rows<C: SqlConnection>(conn: &mut C, version: Version) -> Result<bool, Error>
    requires { HasCleanDisk (C.state conn.old) → HasTables version (C.state conn.old).now.schema }
    ensures whole { HasCleanDisk (C.state conn.new) → IfOk result (λ yes. IsUnchanged (C.state conn.old)
        (C.state conn.new) × (IsTrue yes → (t : HasTables version (C.state conn.old).now.schema) →
        HasValidRows version (C.state conn.old).now.trees t.meta t.devices)) }
    ensures other { HasCleanDisk (C.state conn.new) → result ≡ Ok false → (t : HasTables version
        (C.state conn.old).now.schema) → ¬ HasValidRows version (C.state conn.old).now.trees t.meta t.devices }
    ensures mode { (C.state conn.old).in_transaction ≡ false → (C.state conn.new).in_transaction ≡ false }
    ensures crash { Survives (C.state conn.old) (C.state conn.new) (λ _. ⊥) }
    ensures remains { HasCleanDisk (C.state conn.new) → OnErr result (KeepsDatabaseIfStillOpen (C.state conn.old)
        (C.state conn.new)) }
{
    let versions = query_rows(conn, READ_VERSION)?;
    if !shows_version(&versions, version) {
        return Ok(false);
    }
    let devices = query_rows(conn, version.find_all_sql())?;
    if devices.len() > MAX_DEVICES {
        return Ok(false);
    }
    Ok(are_ascending_devices(&devices))
}

/// Whether the database, which has the tables of this version, is a registry that can be accepted.
pub fn is_registry<C: SqlConnection>(conn: &mut C, version: Version) -> Result<bool, Error>
    requires rest { HasCleanDisk (C.state conn.old) → IsSettledOpen (C.state conn.old) }
    requires tables { HasCleanDisk (C.state conn.old) → tables_status (C.state conn.old).now.schema ≡ Present version }
    ensures ours { HasCleanDisk (C.state conn.new) → IfOk result (λ yes. IsUnchanged (C.state conn.old)
        (C.state conn.new) × (IsTrue yes → IsRegistry version (C.state conn.old).now)) }
    ensures other { HasCleanDisk (C.state conn.new) → result ≡ Ok false → ¬ IsRegistryIn version
        (C.state conn.old).now.trees }
    ensures mode { (C.state conn.old).in_transaction ≡ false → (C.state conn.new).in_transaction ≡ false }
    ensures crash { Survives (C.state conn.old) (C.state conn.new) (λ _. ⊥) }
    ensures remains { HasCleanDisk (C.state conn.new) → OnErr result (KeepsDatabaseIfStillOpen (C.state conn.old)
        (C.state conn.new)) }
{
    if !lists_our_tables(conn, version)? {
        return Ok(false);
    }
    has_valid_rows(conn, version)
}
