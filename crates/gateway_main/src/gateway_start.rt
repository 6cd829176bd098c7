//! Starting a gateway over a database.
ghost use Rattle.std.specs.Prelude.{◌≡◌, ◌≤◌, false, true, length, IfErr, IfOk, IsTrue};
ghost use Rattle.std.specs.FinMap;
ghost use Rattle.sqlite.specs.State.{HasCleanDisk};
ghost use Rattle.sqlite.specs.Files.{file_state};
ghost use Rattle.sqlite.specs.WalFiles.{image_at};
ghost use Rattle.erp1_telegrams.specs.Address;
ghost use Rattle.learned_devices.specs.Devices.{Devices};
ghost use Rattle.device_registry.specs.Opening.{max_cached};
ghost use Rattle.device_registry.specs.Holding.{OpenFinds, registry_state_of, uncounted};
ghost use Rattle.device_registry.specs.FilesHeld.{FilesHold};
ghost use Rattle.gateway_core.specs.Calls.{new_gateway_value};
ghost use Rattle.gateway_loop.specs.Headline.{IsNew};
ghost use Rattle.gateway_loop.specs.Processing.{HasNoReadyPacket};
ghost use Rattle.gateway_main.specs.Restarts.{StartsWith};
ghost use Rattle.gateway_main.specs.Started.{FailsToStart, KeepsCommittedDevices, Starts};

use crate::fault::Fault;
use device_registry::{RegistryOver, SqlConnection};
use gateway_core::GatewayOver;
use sqlite::{Connection, FileFrom, FileStore, Start};
use std::alloc::Global;
use std::rt::HostRuntime;

/// Returns a new gateway for a radio module with this base ID, over the registry in the database: all counters are 0,
/// no packet is ready, and no byte has arrived. Creates the registry's tables if the database has none of them. The
/// registry caches this many looked-up senders, 1 to `MAX_CACHED`; no postcondition says so.
///
/// Fails as opening the registry does, or if out of memory, and then returns the connection. Whether the fault of an
/// open is out of memory or a failed database is tested, not proved.
pub fn start<C: SqlConnection>(
    alloc: Global,
    conn: C,
    base: u32,
    cached_senders: usize,
) -> Result<GatewayOver<RegistryOver<C>>, (Fault, C)>
    requires base { Address.is_base_id base ≡ true }
    requires room { (1 ≤ cached_senders) × (cached_senders ≤ max_cached) }
    requires idle { (C.state conn).in_transaction ≡ false }
    // How the headline begins: with the devices that were committed last, over an open connection.
    ensures begins { IfOk result (λ gateway. HasCleanDisk (C.state gateway.handler.registry) → (found : Devices)
        × OpenFinds (C.state conn).committed.trees found
        × IsNew (registry_state_of C.state C.commits) base found gateway
        × IsTrue (C.state gateway.handler.registry).is_open) }
    ensures clean { IfOk result (λ gateway. HasCleanDisk (C.state gateway.handler.registry) →
        HasCleanDisk (C.state conn)) }
    ensures new { IfOk result (λ gateway. gateway ≡ new_gateway_value base gateway.handler.registry) }
    ensures idle { IfOk result HasNoReadyPacket }
    ensures starts { IfOk result (λ gateway. HasCleanDisk (C.state gateway.handler.registry) →
        Starts C.state C.commits conn base gateway.handler) }
    ensures failed { IfErr result (λ e. FailsToStart (C.state conn) (C.state e.1) e.0) }
    ensures kept { IfErr result (λ e. KeepsCommittedDevices (C.state conn) (C.state e.1)) }
{
    let registry = match RegistryOver::open_with(alloc, conn, cached_senders) {
        Ok(registry) => registry,
        Err((why, conn)) => return Err((why.into(), conn)),
    };
    match GatewayOver::with_base_id(alloc, registry, base) {
        Ok(gateway) => Ok(gateway),
        Err((error, registry)) => Err((error.into(), registry.close())),
    }
}

/// A connection to a database file and its log. `S` is the type that represents their contents.
pub type FileConnection<S> = Connection<FileStore<FileFrom<S>>>;

/// The result of a start on two files: a gateway, or the fault and, if the files were opened, the connection.
pub type StartedOnFiles<S> = Result<
    GatewayOver<RegistryOver<FileConnection<S>>>,
    (Fault, Option<FileConnection<S>>),
>;

/// Opens or creates the database file at this path and its log, and starts a gateway over them, as `start` does. `S`
/// represents what the two files hold and what an interrupted write may leave. The contract holds for every `S`, so it
/// also covers a start on files that a crash left.
///
/// Fails as opening the files or `start` does. Once the files are open, a failed start returns the connection; no
/// postcondition says so.
pub fn start_file<S: Start>(
    rt: &HostRuntime,
    path: &str,
    contents: S,
    base: u32,
    cached_senders: usize,
) -> StartedOnFiles<S>
    requires base { Address.is_base_id base ≡ true }
    requires room { (1 ≤ cached_senders) × (cached_senders ≤ max_cached) }
    // If the files hold a registry, the start finds its devices.
    ensures holds { (devices : Devices) → FilesHold (image_at S.Start) devices
        → StartsWith file_state base devices result }
    // If the database file is new or empty, there are no devices.
    ensures empty { IfOk result (λ gateway. HasCleanDisk (file_state gateway.handler.registry)
        → length (image_at S.Start).db ≡ 0
        → IsNew (registry_state_of file_state uncounted) base FinMap.empty gateway) }
    // Whatever the files hold, the gateway is new over some devices, and the connection is open.
    ensures begins { IfOk result (λ gateway. HasCleanDisk (file_state gateway.handler.registry) → (found : Devices)
        × IsNew (registry_state_of file_state uncounted) base found gateway
        × IsTrue (file_state gateway.handler.registry).is_open) }
    ensures idle { IfOk result HasNoReadyPacket }
{
    let conn = match Connection::open_from(rt, path, false, contents) {
        Ok(conn) => conn,
        Err((error, _)) => return Err((error.into(), None)),
    };
    match start(rt.alloc(), conn, base, cached_senders) {
        Ok(gateway) => Ok(gateway),
        Err((fault, conn)) => Err((fault, Some(conn))),
    }
}
