//! Creating the two tables.
ghost use Rattle.std.specs.Prelude.{◌≡◌, false, IsTrue, OnOk, OnErr};
ghost use Rattle.std.specs.FinMap.{empty};
ghost use Rattle.sqlite.specs.State.{HasCleanDisk, Survives};
ghost use Rattle.sqlite.specs.Effect.{IsDatabase};
ghost use Rattle.sqlite.specs.Held.{state};
ghost use Rattle.device_registry.specs.Stored.{HoldsVersion2};
ghost use Rattle.device_registry.specs.Ready.{IsReadyWith, KeepsOtherTables};
ghost use Rattle.device_registry.specs.Opening.{KeepsDatabaseIfStillOpen};
ghost use Rattle.device_registry.specs.SchemaChecks.{admits_tables};

use crate::table::Version;
use crate::table::statements::{CREATE_DEVICE, CREATE_META, WRITE_VERSION};
use crate::transaction::run_and_check_catalog;
use sqlite::{Alter, Connection, Error};

/// Creates the two tables and writes the version row, in one transaction. Checks that SQLite lists the tables with our
/// texts.
pub fn create_registry<S: Alter>(conn: &mut Connection<S>) -> Result<(), Error>
    requires idle { conn.old.in_transaction ≡ false }
    requires clear { HasCleanDisk (state S.Store conn.old)
        → IsTrue (admits_tables (state S.Store conn.old).now.schema) ×
        IsDatabase (state S.Store conn.old).now }
    ensures made { HasCleanDisk (state S.Store conn.new) → OnOk result (IsReadyWith (state S.Store conn.new) empty) }
    ensures others { HasCleanDisk (state S.Store conn.new) → OnOk result (KeepsOtherTables (state S.Store conn.old).now
        (state S.Store conn.new).now) }
    ensures crash { Survives (state S.Store conn.old) (state S.Store conn.new) (λ trees. HoldsVersion2 trees empty) }
    ensures remains { HasCleanDisk (state S.Store conn.new) → OnErr result
        (KeepsDatabaseIfStillOpen (state S.Store conn.old)
        (state S.Store conn.new)) }
{
    let mut making = conn.transaction();
    run_and_check_catalog(
        &mut making,
        &[CREATE_META, CREATE_DEVICE, WRITE_VERSION],
        Version::Second,
    )?;
    making.commit()
}
