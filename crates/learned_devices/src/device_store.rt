//! A device store, and the receipts for its updates.
ghost use Rattle.std.specs.Prelude.{◌≡◌, [], false, IfOk, IsTrue, OnOk};
ghost use Rattle.learned_devices.specs.Devices.{Devices, DeviceUpdate, forget_update, learn_update, relabel_update};
ghost use Rattle.learned_devices.specs.DeviceStoreState.{DeviceStoreState};
ghost use Rattle.learned_devices.specs.StoreCalls.{LooksUp, Learns, Forgets, Relabels, ListsAll};

use crate::fault::{LearnFault, StoreFault};
use crate::{Device, Label};
use std::marker::PhantomData;

/// Proof that a device store of this type has committed an update. `DeviceStore::learn` and `DeviceStore::forget` make
/// one, after the commit; its fields are private to this module. It cannot be dropped; `spend` consumes it.
pub struct Receipt<S> {
    id: u32,
    is_learned: bool,
    store: PhantomData<S>,
}

impl<S> Receipt<S> {
    /// The sender, and whether it was learned (true) or forgotten.
    pub fn spend(self) -> (u32, bool)
        ensures { (result.0 ≡ self.id) × (result.1 ≡ self.is_learned) }
    {
        let Receipt {
            id,
            is_learned,
            store: _,
        } = self;
        (id, is_learned)
    }
}

/// Stores at most 1,000 devices, each under the ID of its sender.
pub trait DeviceStore {
    /// Its state.
    ghost store_state: { Self → DeviceStoreState };

    /// What the call between these two values wrote for this update of these devices, even if it changed none of them.
    ghost wrote: { Self → Self → DeviceUpdate → Devices → Type 0 };

    /// The device of a sender, if it is learned.
    fn find(&mut self, id: u32) -> Result<Option<Device>, StoreFault>
        ensures { LooksUp (store_state self.old) (store_state self.new) id result };

    /// Stores a device, in place of the known data of its sender. A known sender keeps its label. Returns `Ok` after
    /// the commit.
    fn put(&mut self, device: Device) -> Result<(), LearnFault>
        requires { device.label ≡ [] }
        ensures learns { Learns (store_state self.old) (store_state self.new) device result }
        ensures written { (store_state self.new).honest → (devices : Devices) → (store_state self.old).holds devices →
            OnOk result (wrote self.old self.new (learn_update device) devices) };

    /// Deletes the device of a sender, if there is one. Returns `Ok` after the commit.
    fn delete(&mut self, id: u32) -> Result<(), StoreFault>
        ensures forgets { Forgets (store_state self.old) (store_state self.new) id result }
        ensures written { (store_state self.new).honest → (devices : Devices) → (store_state self.old).holds devices →
            OnOk result (wrote self.old self.new (forget_update id) devices) };

    /// Labels a sender, if it is learned. Returns whether it is learned.
    fn relabel(&mut self, id: u32, label: Label) -> Result<bool, StoreFault>
        ensures relabels { Relabels (store_state self.old) (store_state self.new) id label result }
        ensures written { (store_state self.new).honest → (devices : Devices) → (store_state self.old).holds devices →
            IfOk result (λ known. IsTrue known → wrote self.old self.new (relabel_update id label) devices) };

    /// All devices, by rising ID.
    fn all(&mut self) -> Result<Vec<Device>, StoreFault>
        ensures { ListsAll (store_state self.old) (store_state self.new) result };

    /// Learns a device, like `put`, and returns the receipt for it.
    fn learn(&mut self, device: Device) -> Result<Receipt<Self>, LearnFault>
        requires { device.label ≡ [] }
        ensures learns { Learns (store_state self.old) (store_state self.new) device result }
        ensures receipt { IfOk result (λ receipt. (receipt.id ≡ device.id) × IsTrue receipt.is_learned) }
        ensures written { (store_state self.new).honest → (devices : Devices) → (store_state self.old).holds devices →
            OnOk result (wrote self.old self.new (learn_update device) devices) }
    {
        let id = device.id;
        self.put(device)?;
        Ok(Receipt {
            id,
            is_learned: true,
            store: PhantomData,
        })
    }

    /// Forgets a sender, like `delete`, and returns the receipt for it.
    fn forget(&mut self, id: u32) -> Result<Receipt<Self>, StoreFault>
        ensures forgets { Forgets (store_state self.old) (store_state self.new) id result }
        ensures receipt { IfOk result (λ receipt. (receipt.id ≡ id) × (receipt.is_learned ≡ false)) }
        ensures written { (store_state self.new).honest → (devices : Devices) → (store_state self.old).holds devices →
            OnOk result (wrote self.old self.new (forget_update id) devices) }
    {
        self.delete(id)?;
        Ok(Receipt {
            id,
            is_learned: false,
            store: PhantomData,
        })
    }
}
