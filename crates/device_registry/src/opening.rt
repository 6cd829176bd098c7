//! Opening a registry.
ghost use Rattle.std.specs.Prelude.{◌≡◌, ◌≤◌, false, IsTrue, IfOk, IfErr, OnOk, OnErr, Err};
ghost use Rattle.sqlite.specs.State.{HasCleanDisk, Survives, IsUnchanged};
ghost use Rattle.sqlite_trees.specs.Tree.{Trees};
ghost use Rattle.learned_devices.specs.Devices.{Devices};
ghost use Rattle.device_registry.specs.Opening.{max_cached, IsSettledOpen, KeepsDatabaseIfStillOpen, IsPrepared};
ghost use Rattle.device_registry.specs.Opening.{KeepsFoundDevices, IsForeignDatabase, IsOpened, FailsAndDrops};
ghost use Rattle.device_registry.specs.Opening.{FailsToOpen};
ghost use Rattle.device_registry.specs.Holding.{RewritesVersion};
ghost use Rattle.device_registry.specs.Stored.{AreVersion2Trees};
ghost use Rattle.device_registry.specs.Ready.{KeepsOtherTables, KeepsRows};

use crate::cache::new_cache;
use crate::cache_limits::DEFAULT_CACHED;
use crate::device_table::DeviceTable;
use crate::fault::OpenFault;
use crate::queries::rewrite_version;
use crate::recognize::is_registry;
use crate::registry::RegistryOver;
use crate::schema_check::{TablesStatus, tables_status};
use crate::sql_connection::SqlConnection;
use crate::table::Version;
use sqlite::Error;
use std::alloc::Global;

// Checks that the connection is open, by compiling a statement, which writes nothing.
fn check_open<C: SqlConnection>(conn: &mut C) -> Result<(), Error>
    requires idle { (C.state conn.old).in_transaction ≡ false }
    ensures idle { OnOk result ((C.state conn.new).in_transaction ≡ false) }
    ensures same { HasCleanDisk (C.state conn.new) → OnOk result (IsUnchanged (C.state conn.old)
        (C.state conn.new) × IsSettledOpen (C.state conn.old)) }
    ensures crash { Survives (C.state conn.old) (C.state conn.new) (λ _. ⊥) }
    ensures kept { HasCleanDisk (C.state conn.new) → OnErr result (IsTrue (C.state conn.new).is_open →
        IsSettledOpen (C.state conn.new) × ((C.state conn.new).now ≡ (C.state conn.old).now)) }
{
    // The proof uses both calls: they imply that the database of an open connection is sound, and is what is committed.
    let _schema = conn.schema();
    let _idle = conn.is_autocommit();
    let _statement = conn.prepare("SELECT 1")?;
    Ok(())
}

// Accepts the registry in the database, migrates it, or creates it.
fn create_or_recognize<C: SqlConnection>(conn: &mut C) -> Result<(), OpenFault>
    requires idle { (C.state conn.old).in_transaction ≡ false }
    requires rest { HasCleanDisk (C.state conn.old) → IsSettledOpen (C.state conn.old) }
    ensures prepared { HasCleanDisk (C.state conn.new) → OnOk result ((devices : Devices) × IsPrepared
        (C.state conn.old) (C.state conn.new) devices) }
    ensures rejected { HasCleanDisk (C.state conn.new) → result ≡ Err OpenFault.NotARegistry → IsForeignDatabase
        (C.state conn.old).now.trees }
    ensures unchanged { HasCleanDisk (C.state conn.new) → result ≡ Err OpenFault.NotARegistry →
        IsUnchanged (C.state conn.old) (C.state conn.new)
        × ((trees : Trees) → (C.state conn.new).may_leave trees → (C.state conn.old).may_leave trees) }
    ensures crash { Survives (C.state conn.old) (C.state conn.new) (KeepsFoundDevices
        (C.state conn.old).now.trees) }
    ensures rows { HasCleanDisk (C.state conn.new) → OnOk result (AreVersion2Trees (C.state conn.old).now.trees →
        KeepsRows (C.state conn.old) (C.state conn.new)) }
    ensures written { HasCleanDisk (C.state conn.new) → OnOk result (AreVersion2Trees (C.state conn.old).now.trees →
        RewritesVersion (C.state conn.old) (C.state conn.new)) }
    ensures others { HasCleanDisk (C.state conn.new) → OnOk result (KeepsOtherTables (C.state conn.old).now
        (C.state conn.new).now) }
    ensures remains { HasCleanDisk (C.state conn.new) → OnErr result (KeepsDatabaseIfStillOpen (C.state conn.old)
        (C.state conn.new)) }
{
    match tables_status(conn.schema()) {
        TablesStatus::Absent => {
            conn.create_tables()?;
            Ok(())
        }
        TablesStatus::Present(version) => {
            if !is_registry(conn, version)? {
                return Err(OpenFault::NotARegistry);
            }
            match version {
                Version::First => {
                    conn.migrate_tables()?;
                    Ok(())
                }
                Version::Second => {
                    rewrite_version(conn)?;
                    Ok(())
                }
            }
        }
        TablesStatus::Unusable => Err(OpenFault::NotARegistry),
    }
}

/// Makes the database a registry of version 2. It accepts one that exists, migrates one of version 1 with the same
/// devices and no labels, and creates the two tables in a database that has none of ours. `open` does the same to the
/// database; here the connection stays with the caller, with no open transaction. A second call leaves every row as it
/// is. `Ok` is returned after a commit: for an accepted registry, the version row is rewritten unchanged.
///
/// `NotARegistry` means that the database is something else, and it is as it was. After `Failed` it holds what it
/// held, perhaps with the two tables, or as version 2.
pub fn prepare<C: SqlConnection>(conn: &mut C) -> Result<(), OpenFault>
    requires idle { (C.state conn.old).in_transaction ≡ false }
    ensures clean { HasCleanDisk (C.state conn.new) → HasCleanDisk (C.state conn.old) }
    ensures opened { HasCleanDisk (C.state conn.new) → OnOk result (IsOpened (C.state conn.old) (C.state conn.new)) }
    ensures rows { HasCleanDisk (C.state conn.new) → OnOk result (AreVersion2Trees
        (C.state conn.old).committed.trees → KeepsRows (C.state conn.old) (C.state conn.new)) }
    ensures others { HasCleanDisk (C.state conn.new) → OnOk result (KeepsOtherTables (C.state conn.old).now
        (C.state conn.new).now) }
    ensures kept { HasCleanDisk (C.state conn.new) → OnErr result (IsTrue (C.state conn.new).is_open →
        IsSettledOpen (C.state conn.new) × ((C.state conn.new).now ≡ (C.state conn.old).now)) }
    ensures failed { IfErr result (FailsToOpen (C.state conn.old) (C.state conn.new)) }
{
    check_open(conn)?;
    create_or_recognize(conn)
}

impl<C: SqlConnection + Drop> RegistryOver<C> {
    /// `open_with` a cache of `DEFAULT_CACHED` senders. A failed open drops the connection that `open_with` returns.
    pub fn open(alloc: Global, conn: C) -> Result<RegistryOver<C>, OpenFault>
        requires idle { (C.state conn).in_transaction ≡ false }
        ensures opened { IfOk result (λ r. HasCleanDisk (C.state r) → IsOpened (C.state conn) (C.state r)) }
        ensures failed { IfErr result (FailsAndDrops C.state conn) }
    {
        match RegistryOver::open_with(alloc, conn, DEFAULT_CACHED) {
            Ok(registry) => Ok(registry),
            Err((fault, _)) => Err(fault),
        }
    }
}

impl<C: SqlConnection> RegistryOver<C> {
    /// Prepares the database, as `prepare` does, and keeps the connection. `cache` is the size of the cache in senders,
    /// 1 to `MAX_CACHED`. A failed open returns the connection: as it was, if there is no memory for the cache, and
    /// otherwise as `prepare` left it.
    pub fn open_with(
        alloc: Global,
        conn: C,
        cache: usize,
    ) -> Result<RegistryOver<C>, (OpenFault, C)>
        requires idle { (C.state conn).in_transaction ≡ false }
        requires cached { (1 ≤ cache) × (cache ≤ max_cached) }
        ensures clean { IfOk result (λ r. HasCleanDisk (C.state r) → HasCleanDisk (C.state conn)) }
        ensures opened { IfOk result (λ r. HasCleanDisk (C.state r) → IsOpened (C.state conn) (C.state r)) }
        ensures failed { IfErr result (λ e. FailsToOpen (C.state conn) (C.state e.1) e.0) }
    {
        let cache = match new_cache(alloc, cache) {
            Ok(cache) => cache,
            Err(error) => return Err((error.into(), conn)),
        };
        let mut conn = conn;
        match prepare(&mut conn) {
            Ok(()) => Ok(RegistryOver {
                table: DeviceTable { alloc, conn },
                cache,
            }),
            Err(fault) => Err((fault, conn)),
        }
    }
}
