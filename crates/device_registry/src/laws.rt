//! Theorems about the definitions, and about every registry. Each function does nothing: its contract is the theorem.
ghost use Rattle.std.specs.Prelude.{◌≡◌, ◌↔◌};
ghost use Rattle.sqlite_trees.specs.View.{IsClean};
ghost use Rattle.sqlite_store.specs.FileStore.{view};
ghost use Rattle.device_registry.specs.declared.cache_limits.TheConstants.{MAX_CACHED};
ghost use Rattle.device_registry.specs.Opening.{max_cached, ClosedFilesAreFound, DevicesAreLimited};
ghost use Rattle.device_registry.specs.Opening.{ClosedRegistryIsFound, FoundDevicesAreUnique};
ghost use Rattle.device_registry.specs.Opening.{RegistriesAreRecognized};
ghost use Rattle.device_registry.specs.Opening.{OnlyNonRegistriesAreRejected, FailedOpensKeepRegistries};
ghost use Rattle.sqlite.specs.Held.{state};
ghost use Rattle.device_registry.specs.Holding.{HasSomeDevicesIfOpen, HeldDevicesMayBeLeft, SomeDevicesAreLeft};
ghost use Rattle.device_registry.specs.Holding.{AreVersion2Registries, HasDevicesIfOpen, MayRecover};
ghost use Rattle.learned_devices.specs.Devices.{Devices};
ghost use Rattle.sqlite.specs.State.{HasCleanDisk};
ghost use Rattle.device_registry.specs.FilesHeld.{CrashedFilesHold, CrashedFilesHoldFound, SomeFilesAreLeft};
ghost use Rattle.device_registry.specs.Ranges.{RegistriesAreInRange};

use crate::device_table::DeviceTable;
use crate::registry::{Registry, RegistryOver};
use crate::sql_connection::SqlConnection;
use learned_devices::DeviceStore;
use sqlite::{Alter, Connection, FileStore};
use sqlite_disk::Disk;

/// The limit of the cache is that of the definitions.
pub fn limits_agree()
    ensures { MAX_CACHED ≡ max_cached }
{}

/// A registry has at most 1,000 devices.
pub fn devices_are_limited()
    ensures { DevicesAreLimited }
{}

/// The next open finds what a crash left of a registry, or of a database that has neither of its tables yet.
pub fn found_devices_are_unique()
    ensures { FoundDevicesAreUnique }
{}

/// The following devices are in range: those that a registry holds while its connection is open, those that a crash may
/// leave, and those that an open or a start finds.
pub fn registries_are_in_range<C: SqlConnection>()
    ensures { RegistriesAreInRange C.state }
{}

/// After a failed `prepare`, which is what an open does, the next open finds what it could have found before, or what
/// was committed then. It finds something if it would have before.
pub fn failed_opens_keep_registries<C: SqlConnection>()
    ensures { FailedOpensKeepRegistries C.state }
{}

/// The next open finds whatever a crash leaves of a registry. No open rejects, as no registry, what can be found: a
/// registry of either version as this program leaves it, or a database in which the tables can be created.
pub fn registries_are_recognized<C: SqlConnection>()
    ensures { RegistriesAreRecognized C.state }
{}

/// Only a database that is no registry is rejected as such. This also holds of an open that drops its connection, if
/// the disk had returned what was written when the connection was dropped.
pub fn only_non_registries_are_rejected<C: SqlConnection>()
    ensures { OnlyNonRegistriesAreRejected C.state }
{}

/// The next open finds what a closed registry returned.
pub fn closed_registry_is_found<C: SqlConnection>()
    ensures { ClosedRegistryIsFound C.state }
{}

/// Whatever a crash leaves in the two files of a registry, they hold devices that this crash could leave. The premise
/// is that the disk has returned what was written, also during the rollback that takes the connection apart here. No
/// other call of `sqlite` shows that the pages are numbered.
pub fn crashed_files_hold_devices<D: Disk + Drop>(
    registry: RegistryOver<Connection<FileStore<D>>>,
) -> FileStore<D>
    ensures { IsClean (view result) → CrashedFilesHold registry }
{
    let RegistryOver { table, cache: _ } = registry;
    let DeviceTable { alloc: _, conn } = table;
    conn.into_store()
}

/// The same for any connection, such as one that a failed start returns, if the next open finds the same devices in
/// whatever a crash leaves. So the next start finds them too.
pub fn crashed_files_hold_found<D: Disk + Drop>(conn: Connection<FileStore<D>>) -> FileStore<D>
    ensures { IsClean (view result) → CrashedFilesHoldFound conn }
{
    conn.into_store()
}

/// After the database has closed the files of a registry, an open of these files finds what the registry held, if there
/// was no crash in between.
pub fn closed_files_are_found<D: Disk>()
    ensures { ClosedFilesAreFound D.Disk }
{}

/// Every registry holds some devices while the disk has returned what was written and the connection is open.
pub fn devices_are_held<C: SqlConnection>(registry: &RegistryOver<C>)
    ensures { HasSomeDevicesIfOpen (C.state registry.now) }
{
    // The proof uses the fields: the table's invariant implies the contract.
    let table = &registry.table;
    let _conn = &table.conn;
}

/// As a device store, a registry is what its connection is: it is honest while the disk has returned what was written,
/// holds what the database holds, may leave what a crash may leave of the database, and makes the commits that the
/// connection counts.
pub fn stores_are_connections<C: SqlConnection>(registry: &RegistryOver<C>)
    ensures honest { (⟦<RegistryOver<C> as DeviceStore>⟧.store_state registry.now).honest
        ↔ HasCleanDisk (C.state registry.now) }
    ensures holds { (devices : Devices) → (⟦<RegistryOver<C> as DeviceStore>⟧.store_state registry.now).holds devices
        ↔ HasDevicesIfOpen (C.state registry.now) devices }
    ensures leaves { (left : Devices) → (⟦<RegistryOver<C> as DeviceStore>⟧.store_state registry.now).may_recover left
        ↔ MayRecover (C.state registry.now) left }
    ensures reopens { (⟦<RegistryOver<C> as DeviceStore>⟧.store_state registry.now).reopenable
        ↔ AreVersion2Registries (C.state registry.now).may_leave }
    ensures commits { (⟦<RegistryOver<C> as DeviceStore>⟧.store_state registry.now).commits ≡ C.commits registry.now }
{}

/// While the disk of a connection of SQLite has returned what was written, crash states exist: a crash leaves the
/// devices of some registry; while the connection is open, those that the registry holds. The contract is in terms of
/// SQLite's own state.
pub fn crash_states_exist<S: Alter>(registry: &Registry<S>)
    ensures some { SomeDevicesAreLeft (state S.Store registry.now) }
    ensures held { HeldDevicesMayBeLeft (state S.Store registry.now) }
{
    // The proof uses the fields: the table's invariant implies the contract.
    let table = &registry.table;
    let _conn = &table.conn;
}

/// The same for two files: a crash leaves some contents in them.
pub fn crashed_files_exist<D: Disk>(registry: &Registry<FileStore<D>>)
    ensures { SomeFilesAreLeft registry.now }
{
    let table = &registry.table;
    let _conn = &table.conn;
}
