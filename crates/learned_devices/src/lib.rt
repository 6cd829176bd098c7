//! Learned devices, and the interface of a device store. A crate that depends only on this one does not load a
//! database.
#![tactic(auto)]

ghost use Rattle.std.specs.Prelude.{◌≡◌};

mod device_store;
mod fault;
mod label;
pub mod laws;
mod limits;
#[cfg(test)]
mod tests;

pub use device_store::{DeviceStore, Receipt};
use erp1_telegrams::Eep;
pub use fault::{LearnFault, StoreFault};
pub use label::{Label, is_label_of_any_length};
pub use limits::{MAX_DEVICES, MAX_LABEL};

/// The stored data of a sender: plain numbers and a label, which need no memory.
#[derive(Clone, Debug, Drop, PartialEq, Eq)]
pub struct Device {
    /// The sender's ID, 0 to FFFFFFFE.
    pub id: u32,
    /// The profile of its telegrams.
    pub eep: Eep,
    /// Its manufacturer ID, 0 to 2047, if known.
    pub maker: Option<u16>,
    /// Its name for people, or the empty text.
    pub label: Label,
}

impl Device {
    /// The same device. Unlike `clone`, it cannot fail.
    pub fn copied(&self) -> Device
        ensures { result ≡ self.now }
    {
        Device {
            id: self.id,
            eep: self.eep,
            maker: self.maker,
            label: self.label.copied(),
        }
    }
}
