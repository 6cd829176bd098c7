//! The restart theorem.
ghost use Rattle.std.specs.Prelude.{◌≡◌, ◌≤◌, true};
ghost use Rattle.sqlite.specs.FileStore.{view};
ghost use Rattle.sqlite.specs.Files.{file_state};
ghost use Rattle.sqlite.specs.View.{IsClean};
ghost use Rattle.sqlite.specs.WalFiles.{image_at};
ghost use Rattle.erp1_telegrams.specs.Address;
ghost use Rattle.device_registry.specs.Opening.{max_cached};
ghost use Rattle.gateway_main.specs.Restarts.{RestartsAfterPrefix};

use crate::gateway_start::{FileConnection, StartedOnFiles, start_file};
use device_registry::RegistryOver;
use device_registry::laws::crashed_files_hold_devices;
use gateway_core::GatewayOver;
use sqlite::{Connection, FileStore, Start};
use sqlite_disk::Disk;
use std::rt::HostRuntime;

/// The restart theorem: a start on the two files that a crash of this program left.
///
/// `crashed` is a gateway after `replay` or `live`, and `contents` represents what a crash at that moment left in its
/// files (`image_at`). A start that succeeds finds the devices after a prefix of the inputs that `crashed` handled. The
/// prefix contains every acknowledged input. The gateway is new over these devices, so `as_specified` holds for what it
/// handles next. A start that fails does not report `not a registry`. If it returns the connection, a crash leaves these
/// devices.
///
/// The premise is that both disks have returned what was written: that of `crashed`, also during the rollback that takes
/// its connection apart here, and that of the start. The function is generic in the disk, so a disk that stops at some
/// moment represents a crash within a call (the kit's crash argument).
pub fn start_after_crash<D: Disk + Drop, S: Start>(
    rt: &HostRuntime,
    crashed: GatewayOver<RegistryOver<Connection<FileStore<D>>>>,
    path: &str,
    contents: S,
    base: u32,
    cached_senders: usize,
) -> (FileStore<D>, StartedOnFiles<S>)
    requires base { Address.is_base_id base ≡ true }
    requires room { (1 ≤ cached_senders) × (cached_senders ≤ max_cached) }
    ensures { IsClean (view result.0)
        → RestartsAfterPrefix crashed.handler.registry (image_at S.Start) file_state base result.1 }
{
    let files = crashed_files_hold_devices(crashed.into_store());
    let started = start_file(rt, path, contents, base, cached_senders);
    (files, started)
}
