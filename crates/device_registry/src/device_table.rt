//! The device table in the database, without a cache.
ghost use Rattle.std.specs.Prelude.{◌≡◌, is_some, OnOk, IfOk, IsTrue, Some, None};
ghost use Rattle.std.specs.FinMap.{get};
ghost use Rattle.sqlite.specs.State.{HasCleanDisk, IsUnchanged, Survives};
ghost use Rattle.learned_devices.specs.Devices.{Devices, Operation, Learn, data_after, device_data, learn_update};
ghost use Rattle.learned_devices.specs.StoreCalls.{LooksUp, Updates, Forgets, ListsAll};
ghost use Rattle.device_registry.specs.Holding.{HasDevicesIfOpen, IsReturnedByClose, RewritesVersion, WritesRow};
ghost use Rattle.device_registry.specs.Holding.{registry_state_of};
ghost use Rattle.device_registry.specs.private.TableCalls.{LearnsUnlessFull, OperationMakesDevice};
ghost use Rattle.device_registry.specs.Ready.{IsReady, AreReady};

use crate::queries::{delete_or_rewrite_if_absent, is_full_for, list_devices, look_up, upsert};
use crate::sql_connection::SqlConnection;
use crate::table::row_codec::{decode_all, decode_found};
use learned_devices::Device;
use sqlite::Error;
use std::alloc::Global;
use std::marker::Model;

/// The learned devices, over a connection that nothing else uses. Each result that is not an error also means that the
/// connection is open.
#[derive(Drop)]
pub struct DeviceTable<C: SqlConnection> {
    pub(crate) alloc: Global,
    pub(crate) conn: C,
}

impl<C: SqlConnection> Model for DeviceTable<C> {
    ghost use Rattle.sqlite.specs.State.{HasCleanDisk};
    ghost use Rattle.device_registry.specs.Holding.{AreVersion2Registries};
    ghost use Rattle.device_registry.specs.Ready.{IsReadyIfOpen};

    ghost Value = { C };

    ghost coded = { C.code };

    ghost view = { λ table. table.conn };

    ghost invariant = { λ table. (HasCleanDisk (C.state table.conn) →
        AreVersion2Registries (C.state table.conn).may_leave)
        × IsReadyIfOpen (C.state table.conn) };
}

impl<C: SqlConnection> DeviceTable<C> {
    /// The device of a sender, if it is learned.
    pub fn find(&mut self, id: u32) -> Result<Option<Device>, Error>
        ensures looks_up { LooksUp (registry_state_of C.state C.commits self.old)
            (registry_state_of C.state C.commits self.new) id result }
        ensures same { HasCleanDisk (C.state self.new) → OnOk result (IsUnchanged (C.state self.old)
            (C.state self.new)) }
        ensures survives { Survives (C.state self.old) (C.state self.new) (λ _. ⊥) }
        ensures ready { HasCleanDisk (C.state self.new) → OnOk result (AreReady (C.state self.old)
            (C.state self.new)) }
    {
        let rows = look_up(&mut self.conn, id)?;
        decode_found(&rows)
    }

    /// Upserts a device, unless the registry is full of others, and returns whether it did. The device has the label
    /// that its sender gets: the stored one, or the empty one if the sender is unknown. A look-up has shown that the
    /// connection is open.
    pub fn learn_unless_full(&mut self, device: Device) -> Result<bool, Error>
        requires ready { HasCleanDisk (C.state self.old) → IsReady (C.state self.old) }
        requires learned { HasCleanDisk (C.state self.old) → (devices : Devices)
            → HasDevicesIfOpen (C.state self.old) devices
            → data_after (get devices device.id) (Learn device.eep device.maker) ≡ Some (device_data device) }
        ensures adds { LearnsUnlessFull (registry_state_of C.state C.commits self.old)
            (registry_state_of C.state C.commits self.new) device result }
        ensures written { HasCleanDisk (C.state self.new) → (devices : Devices) →
            HasDevicesIfOpen (C.state self.old) devices → IfOk result (λ room. IsTrue room →
            WritesRow C.state self.new (learn_update device) devices) }
        ensures ready { HasCleanDisk (C.state self.new) → OnOk result (AreReady (C.state self.old)
            (C.state self.new)) }
    {
        if is_full_for(&mut self.conn, device.id)? {
            return Ok(false);
        }
        upsert(&mut self.conn, device)?;
        Ok(true)
    }

    /// Stores the device of a known sender, for whom the registry is never full. Implements any operation that gives
    /// the sender this device. A look-up has shown that the connection is open.
    pub fn put_known(&mut self, device: Device) -> Result<(), Error>
        requires ready { HasCleanDisk (C.state self.old) → IsReady (C.state self.old) }
        requires known { (operation : Operation) × OperationMakesDevice (C.state self.old) device operation }
        ensures updates { (operation : Operation) → OperationMakesDevice (C.state self.old) device operation →
            Updates (registry_state_of C.state C.commits self.old) (registry_state_of C.state C.commits self.new)
            (record { sender = device.id; operation = operation }) result }
        ensures written { (operation : Operation) → OperationMakesDevice (C.state self.old) device operation →
            HasCleanDisk (C.state self.new) → (devices : Devices) → HasDevicesIfOpen (C.state self.old) devices →
            OnOk result (WritesRow C.state self.new (record { sender = device.id; operation = operation }) devices) }
        ensures ready { HasCleanDisk (C.state self.new) → OnOk result (AreReady (C.state self.old)
            (C.state self.new)) }
    {
        upsert(&mut self.conn, device)?;
        Ok(())
    }

    /// Forgets a sender. `is_known` is the result of its look-up, which has also shown that the connection is open.
    /// Commits also if the sender is not known.
    pub fn forget(&mut self, id: u32, is_known: bool) -> Result<(), Error>
        requires ready { HasCleanDisk (C.state self.old) → IsReady (C.state self.old) }
        requires known { HasCleanDisk (C.state self.old) → (devices : Devices) →
            HasDevicesIfOpen (C.state self.old) devices → is_known ≡ is_some (get devices id) }
        ensures forgets { Forgets (registry_state_of C.state C.commits self.old)
            (registry_state_of C.state C.commits self.new) id result }
        ensures written { HasCleanDisk (C.state self.new) → (devices : Devices) →
            HasDevicesIfOpen (C.state self.old) devices → OnOk result (get devices id ≡ None →
            RewritesVersion (C.state self.old) (C.state self.new)) }
        ensures ready { HasCleanDisk (C.state self.new) → OnOk result (AreReady (C.state self.old)
            (C.state self.new)) }
    {
        delete_or_rewrite_if_absent(&mut self.conn, id, is_known)?;
        Ok(())
    }

    /// All devices, by ascending ID.
    pub fn all(&mut self) -> Result<Vec<Device>, Error>
        ensures lists { ListsAll (registry_state_of C.state C.commits self.old)
            (registry_state_of C.state C.commits self.new) result }
        ensures ready { HasCleanDisk (C.state self.new) → OnOk result (AreReady (C.state self.old)
            (C.state self.new)) }
    {
        let rows = list_devices(&mut self.conn)?;
        decode_all(self.alloc, &rows)
    }

    /// Returns the connection, unchanged.
    pub fn close(self) -> C
        ensures same { result ≡ self }
        ensures hands_on { IsReturnedByClose (C.state self) }
    {
        let DeviceTable { alloc: _, conn } = self;
        conn
    }
}
