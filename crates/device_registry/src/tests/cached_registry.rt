//! The tests' interface to a registry over any store.
ghost use Rattle.std.specs.Prelude.{◌≡◌, [], true};
ghost use Rattle.learned_devices.specs.Labels.{is_label};

use crate::cache::copied;
use crate::{Device, LearnFault, Receipt, RegistryOver, SqlConnection, StoreFault};

/// The calls of a registry, and looks into its cache, so that code using them names no types of the store.
pub trait CachedRegistry {
    fn find(&mut self, id: u32) -> Result<Option<Device>, StoreFault>;

    fn learn(&mut self, device: Device) -> Result<Receipt<Self>, LearnFault>
        requires { device.label ≡ [] };

    fn relabel(&mut self, id: u32, text: &str) -> Result<bool, StoreFault>
        requires { is_label text.now ≡ true };

    fn forget(&mut self, id: u32) -> Result<Receipt<Self>, StoreFault>;

    fn all(&mut self) -> Result<Vec<Device>, StoreFault>;

    /// The cache entry of a sender, if there is one. The order of the entries does not change.
    fn cached_entry(&self, id: u32) -> Option<Option<Device>>;

    /// The number of cached senders.
    fn cached_sender_count(&self) -> usize;
}

impl<C: SqlConnection> CachedRegistry for RegistryOver<C> {
    fn find(&mut self, id: u32) -> Result<Option<Device>, StoreFault> {
        RegistryOver::find(self, id)
    }

    fn learn(&mut self, device: Device) -> Result<Receipt<Self>, LearnFault> {
        RegistryOver::learn(self, device)
    }

    fn relabel(&mut self, id: u32, text: &str) -> Result<bool, StoreFault> {
        RegistryOver::relabel(self, id, text)
    }

    fn forget(&mut self, id: u32) -> Result<Receipt<Self>, StoreFault> {
        RegistryOver::forget(self, id)
    }

    fn all(&mut self) -> Result<Vec<Device>, StoreFault> {
        RegistryOver::all(self)
    }

    fn cached_entry(&self, id: u32) -> Option<Option<Device>> {
        self.cache.peek(&id).map(copied)
    }

    fn cached_sender_count(&self) -> usize {
        self.cache.len()
    }
}
