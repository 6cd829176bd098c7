//! The registry: the device table with a cache.
ghost use Rattle.std.specs.Prelude.{◌≡◌, [], true, false, Some, None, IfOk, IsTrue, OnOk};
ghost use Rattle.std.specs.FinMap.{get};
ghost use Rattle.sqlite.specs.State.{HasCleanDisk, IsUnchanged, Survives};
ghost use Rattle.learned_devices.specs.Labels.{is_label};
ghost use Rattle.learned_devices.specs.Devices.{Devices, Operation, Learn, data_after, device_data};
ghost use Rattle.learned_devices.specs.Devices.{learn_update, relabel_update};
ghost use Rattle.learned_devices.specs.StoreCalls.{LooksUp, Updates, Learns, Forgets, Relabels, ListsAll};
ghost use Rattle.device_registry.specs.Holding.{HasDevicesIfOpen, IsReturnedByClose, RewritesVersion, WritesRow};
ghost use Rattle.device_registry.specs.Holding.{registry_state_of};
ghost use Rattle.device_registry.specs.Ready.{IsReady, AreReady};
ghost use Rattle.device_registry.specs.private.TableCalls.{OperationMakesDevice};

use crate::cache::{Cache, copied, drop_entry, insert_entry, look_up_cached};
use crate::device_table::DeviceTable;
use crate::fault::store_fault_of;
use crate::sql_connection::SqlConnection;
use learned_devices::{Device, DeviceStore, Label, LearnFault, Receipt, StoreFault};
use sqlite::Connection;
use std::marker::Model;

/// The learned devices, over a connection that nothing else uses, and a cache of the senders that were looked up last,
/// known or unknown. A cached sender is answered without a call of the database. A database failure empties the cache,
/// so an entry implies that the connection is open.
#[derive(Drop)]
pub struct RegistryOver<C: SqlConnection> {
    pub(crate) table: DeviceTable<C>,
    pub(crate) cache: Cache,
}

/// A registry over a connection of SQLite.
pub type Registry<S> = RegistryOver<Connection<S>>;

impl<C: SqlConnection> Model for RegistryOver<C> {
    ghost use Rattle.sqlite.specs.State.{HasCleanDisk};
    ghost use Rattle.device_registry.specs.Holding.{AreVersion2Registries};
    ghost use Rattle.device_registry.specs.private.Cached.{CacheAgreesIfClean};

    ghost Value = { C };

    ghost coded = { C.code };

    ghost view = { λ registry. registry.table };

    ghost invariant = { λ registry. (HasCleanDisk (C.state registry.table) →
        AreVersion2Registries (C.state registry.table).may_leave)
        × CacheAgreesIfClean (C.state registry.table) registry.cache.entries };
}

impl<C: SqlConnection> RegistryOver<C> {
    // The device of a sender, if it is learned. `Ok` also means that the connection is open.
    fn known(&mut self, id: u32) -> Result<Option<Device>, StoreFault>
        ensures looks_up { LooksUp (registry_state_of C.state C.commits self.old)
            (registry_state_of C.state C.commits self.new) id result }
        ensures same { HasCleanDisk (C.state self.new) → OnOk result (IsUnchanged (C.state self.old)
            (C.state self.new)) }
        ensures survives { Survives (C.state self.old) (C.state self.new) (λ _. ⊥) }
        ensures ready { HasCleanDisk (C.state self.new) → OnOk result (AreReady (C.state self.old)
            (C.state self.new)) }
    {
        if let Some(known) = look_up_cached(&mut self.cache, id) {
            return Ok(known);
        }
        match self.table.find(id) {
            Ok(known) => {
                let copy = copied(&known);
                insert_entry(&mut self.cache, id, copy);
                Ok(known)
            }
            Err(error) => {
                self.cache.clear();
                Err(store_fault_of(error))
            }
        }
    }

    /// The device of a sender, if it is learned.
    pub fn find(&mut self, id: u32) -> Result<Option<Device>, StoreFault>
        ensures { LooksUp (registry_state_of C.state C.commits self.old)
            (registry_state_of C.state C.commits self.new) id result }
    {
        self.known(id)
    }

    // Learns a device, unless 1,000 others are learned. The caller has looked its sender up: it is unknown, and the
    // device has the empty label.
    fn store_new_unless_full(&mut self, device: Device) -> Result<(), LearnFault>
        requires ready { HasCleanDisk (C.state self.old) → IsReady (C.state self.old) }
        requires learned { HasCleanDisk (C.state self.old) → (devices : Devices)
            → HasDevicesIfOpen (C.state self.old) devices
            → data_after (get devices device.id) (Learn device.eep device.maker) ≡ Some (device_data device) }
        ensures learns { Learns (registry_state_of C.state C.commits self.old)
            (registry_state_of C.state C.commits self.new) device result }
        ensures written { HasCleanDisk (C.state self.new) → (devices : Devices) →
            HasDevicesIfOpen (C.state self.old) devices → OnOk result
            (WritesRow C.state self.new (learn_update device) devices) }
    {
        let id = device.id;
        let copy = device.copied();
        drop_entry(&mut self.cache, id);
        match self.table.learn_unless_full(device) {
            Ok(true) => {
                insert_entry(&mut self.cache, id, Some(copy));
                Ok(())
            }
            Ok(false) => Err(LearnFault::Full),
            Err(error) => {
                self.cache.clear();
                Err(LearnFault::Failed(store_fault_of(error)))
            }
        }
    }

    // Stores the device of a known sender, by any operation that gives the sender this device.
    fn store_known(&mut self, device: Device) -> Result<(), StoreFault>
        requires ready { HasCleanDisk (C.state self.old) → IsReady (C.state self.old) }
        requires known { (operation : Operation) × OperationMakesDevice (C.state self.old) device operation }
        ensures updates { (operation : Operation) → OperationMakesDevice (C.state self.old) device operation →
            Updates (registry_state_of C.state C.commits self.old) (registry_state_of C.state C.commits self.new)
            (record { sender = device.id; operation = operation }) result }
        ensures written { (operation : Operation) → OperationMakesDevice (C.state self.old) device operation →
            HasCleanDisk (C.state self.new) → (devices : Devices) → HasDevicesIfOpen (C.state self.old) devices →
            OnOk result (WritesRow C.state self.new (record { sender = device.id; operation = operation }) devices) }
    {
        let id = device.id;
        let stored = device.copied();
        drop_entry(&mut self.cache, id);
        match self.table.put_known(device) {
            Ok(()) => {
                insert_entry(&mut self.cache, id, Some(stored));
                Ok(())
            }
            Err(error) => {
                self.cache.clear();
                Err(store_fault_of(error))
            }
        }
    }

    // Stores a device. A known sender keeps its label, and its row is written without a count of the others; an unknown
    // one gets the empty label, which the device has here.
    pub(crate) fn store_keeping_label(&mut self, device: Device) -> Result<(), LearnFault>
        requires { device.label ≡ [] }
        ensures learns { Learns (registry_state_of C.state C.commits self.old)
            (registry_state_of C.state C.commits self.new) device result }
        ensures written { HasCleanDisk (C.state self.new) → (devices : Devices) →
            HasDevicesIfOpen (C.state self.old) devices → OnOk result
            (WritesRow C.state self.new (learn_update device) devices) }
    {
        match self.known(device.id)? {
            Some(known) => {
                self.store_known(Device {
                    label: known.label,
                    ..device
                })?;
                Ok(())
            }
            None => self.store_new_unless_full(device),
        }
    }

    /// Learns a device, in place of what was stored for its sender. A known sender keeps its label; an unknown one gets
    /// the empty label, which the device has here. `Full` means that 1,000 others are learned. A device that is already
    /// stored is written again.
    pub fn learn(&mut self, device: Device) -> Result<Receipt<Self>, LearnFault>
        requires { device.label ≡ [] }
        ensures learns { Learns (registry_state_of C.state C.commits self.old)
            (registry_state_of C.state C.commits self.new) device result }
        ensures receipt { IfOk result (λ receipt. (receipt.id ≡ device.id) × IsTrue receipt.is_learned) }
        ensures written { HasCleanDisk (C.state self.new) → (devices : Devices) →
            HasDevicesIfOpen (C.state self.old) devices → OnOk result
            (WritesRow C.state self.new (learn_update device) devices) }
    {
        DeviceStore::learn(self, device)
    }

    // Gives a sender this label if it is learned, and returns whether it is.
    pub(crate) fn relabel_as(&mut self, id: u32, label: Label) -> Result<bool, StoreFault>
        ensures relabels { Relabels (registry_state_of C.state C.commits self.old)
            (registry_state_of C.state C.commits self.new) id label
            result }
        ensures written { HasCleanDisk (C.state self.new) → (devices : Devices) →
            HasDevicesIfOpen (C.state self.old) devices
            → IfOk result (λ known. IsTrue known → WritesRow C.state self.new
            (relabel_update id label) devices) }
    {
        match self.known(id)? {
            Some(known) => {
                self.store_known(Device { id, label, ..known })?;
                Ok(true)
            }
            None => Ok(false),
        }
    }

    /// Gives a sender this label if it is learned, and returns whether it is. A label that it already has is written
    /// again.
    pub fn relabel(&mut self, id: u32, text: &str) -> Result<bool, StoreFault>
        requires { is_label text.now ≡ true }
        ensures relabels { Relabels (registry_state_of C.state C.commits self.old)
            (registry_state_of C.state C.commits self.new) id text.now
            result }
        ensures written { HasCleanDisk (C.state self.new) → (devices : Devices) →
            HasDevicesIfOpen (C.state self.old) devices
            → IfOk result (λ known. IsTrue known → WritesRow C.state self.new
            (relabel_update id text.now) devices) }
    {
        match Label::new(text) {
            Some(label) => self.relabel_as(id, label),
            None => unreachable!(),
        }
    }

    // Deletes the device of a sender. Commits also if the sender is not known.
    pub(crate) fn delete_device(&mut self, id: u32) -> Result<(), StoreFault>
        ensures forgets { Forgets (registry_state_of C.state C.commits self.old)
            (registry_state_of C.state C.commits self.new) id result }
        ensures written { HasCleanDisk (C.state self.new) → (devices : Devices) →
            HasDevicesIfOpen (C.state self.old) devices → OnOk result (get devices id ≡ None →
            RewritesVersion (C.state self.old) (C.state self.new)) }
    {
        let is_known = self.known(id)?.is_some();
        drop_entry(&mut self.cache, id);
        match self.table.forget(id, is_known) {
            Ok(()) => {
                insert_entry(&mut self.cache, id, None);
                Ok(())
            }
            Err(error) => {
                self.cache.clear();
                Err(store_fault_of(error))
            }
        }
    }

    /// Forgets a sender. Commits also if the sender is not known: the version row is then rewritten unchanged.
    pub fn forget(&mut self, id: u32) -> Result<Receipt<Self>, StoreFault>
        ensures forgets { Forgets (registry_state_of C.state C.commits self.old)
            (registry_state_of C.state C.commits self.new) id result }
        ensures receipt { IfOk result (λ receipt. (receipt.id ≡ id) × (receipt.is_learned ≡ false)) }
        ensures written { HasCleanDisk (C.state self.new) → (devices : Devices) →
            HasDevicesIfOpen (C.state self.old) devices → OnOk result (get devices id ≡ None →
            RewritesVersion (C.state self.old) (C.state self.new)) }
    {
        DeviceStore::forget(self, id)
    }

    /// All devices, by ascending ID.
    pub fn all(&mut self) -> Result<Vec<Device>, StoreFault>
        ensures { ListsAll (registry_state_of C.state C.commits self.old)
            (registry_state_of C.state C.commits self.new) result }
    {
        match self.table.all() {
            Ok(all) => Ok(all),
            Err(error) => {
                self.cache.clear();
                Err(store_fault_of(error))
            }
        }
    }

    /// Returns the connection unchanged, with no open transaction; all devices of the registry are committed. Before
    /// opening it again, check `is_autocommit`: nothing is known about a disk that did not return what was written.
    pub fn close(self) -> C
        ensures same { result ≡ self }
        ensures hands_on { IsReturnedByClose (C.state self) }
    {
        let RegistryOver { table, cache: _ } = self;
        table.close()
    }
}
