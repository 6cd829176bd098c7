//! The limits of a device store and of a label. Own choice.

/// The maximum number of devices in a device store: `max_devices` of specs/Devices.antt. The text of `LearnFault::Full`
/// names it.
pub const MAX_DEVICES: usize = 1000;

/// The maximum length of a label, in bytes: `max_label` of specs/Labels.antt.
pub const MAX_LABEL: usize = 32;
