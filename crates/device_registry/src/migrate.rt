//! Migrating a registry of version 1 to version 2.
ghost use Rattle.std.specs.Prelude.{◌≡◌, false, IsTrue, OnOk, OnErr};
ghost use Rattle.sqlite.specs.State.{HasCleanDisk, Survives};
ghost use Rattle.sqlite.specs.Effect.{IsDatabase};
ghost use Rattle.sqlite.specs.Held.{state};
ghost use Rattle.device_registry.specs.declared.table.Version.TheVariants.{First};
ghost use Rattle.learned_devices.specs.Devices.{Devices};
ghost use Rattle.device_registry.specs.Stored.{IsRegistry, IsRegistryOfVersion, HoldsVersion2};
ghost use Rattle.device_registry.specs.Ready.{IsReadyWith, KeepsOtherTables};
ghost use Rattle.device_registry.specs.Opening.{KeepsDatabaseIfStillOpen};

use crate::table::Version;
use crate::table::statements::{COPY_V1, CREATE_DEVICE, DROP_DEVICE_V1, REWRITE_VERSION};
use crate::transaction::run_and_check_catalog;
use sqlite::{Alter, Connection, Error};

/// Creates the device table of version 2 with the devices of version 1, drops the table of version 1, and writes
/// version 2, in one transaction.
pub fn migrate<S: Alter>(conn: &mut Connection<S>) -> Result<(), Error>
    requires idle { conn.old.in_transaction ≡ false }
    requires first { HasCleanDisk (state S.Store conn.old) → IsRegistry First (state S.Store conn.old).now ×
        IsDatabase (state S.Store conn.old).now }
    ensures made { HasCleanDisk (state S.Store conn.new) → OnOk result ((devices : Devices) →
        IsRegistryOfVersion First (state S.Store conn.old).now devices → IsReadyWith (state S.Store conn.new) devices) }
    ensures others { HasCleanDisk (state S.Store conn.new) → OnOk result (KeepsOtherTables (state S.Store conn.old).now
        (state S.Store conn.new).now) }
    ensures crash { Survives (state S.Store conn.old) (state S.Store conn.new) (λ trees. (devices : Devices) →
        IsRegistryOfVersion First (state S.Store conn.old).now devices → HoldsVersion2 trees devices) }
    ensures remains { HasCleanDisk (state S.Store conn.new) → OnErr result
        (KeepsDatabaseIfStillOpen (state S.Store conn.old)
        (state S.Store conn.new)) }
{
    let mut migrating = conn.transaction();
    run_and_check_catalog(
        &mut migrating,
        &[CREATE_DEVICE, COPY_V1, DROP_DEVICE_V1, REWRITE_VERSION],
        Version::Second,
    )?;
    migrating.commit()
}
