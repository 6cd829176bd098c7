//! The registry as a device store.
ghost use Rattle.device_registry.specs.Holding.{WritesRowForUpdate, registry_state_of};

use crate::registry::RegistryOver;
use crate::sql_connection::SqlConnection;
use learned_devices::{Device, DeviceStore, Label, LearnFault, StoreFault};

impl<C: SqlConnection> DeviceStore for RegistryOver<C> {
    ghost store_state = { registry_state_of C.state C.commits };

    ghost wrote = { WritesRowForUpdate C.state };

    fn find(&mut self, id: u32) -> Result<Option<Device>, StoreFault> {
        RegistryOver::find(self, id)
    }

    fn put(&mut self, device: Device) -> Result<(), LearnFault> {
        self.store_keeping_label(device)
    }

    fn delete(&mut self, id: u32) -> Result<(), StoreFault> {
        self.delete_device(id)
    }

    fn relabel(&mut self, id: u32, label: Label) -> Result<bool, StoreFault> {
        self.relabel_as(id, label)
    }

    fn all(&mut self) -> Result<Vec<Device>, StoreFault> {
        RegistryOver::all(self)
    }
}
