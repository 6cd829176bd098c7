//! Plans for a sender.
use crate::outcome::Outcome;
use learned_devices::Device;

/// The plan for the sender of a telegram, before anything is done.
#[derive(Clone, Debug, Drop, PartialEq, Eq)]
pub enum Plan {
    /// Nothing is done or reported.
    Silent,
    /// This device, whose label is empty, is learned, unless the registry is full of other devices.
    Add(Device),
    /// The device with this ID is forgotten, if it is learned.
    Forget(u32),
    /// Nothing is done, and this outcome is reported.
    Refuse(Outcome),
}
