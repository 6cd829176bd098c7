//! The limits of orders.

/// The maximum length of a line of the desk, in bytes. Own choice.
pub const MAX_LINE: usize = 200;

// The maximum number of a channel: 30 is all channels of a device (EnOcean Equipment Profiles 2.6, "D2-01", "I/O
// channel").
pub(crate) const MAX_CHANNEL: u32 = 30;

// The maximum offset from the base ID (EnOcean Serial Protocol 3, "CO_WR_IDBASE").
pub(crate) const MAX_OFFSET: u32 = 127;

// The maximum value, in percent (EnOcean Equipment Profiles 2.6, "D2-01", "D2-05-00" and "A5-38-08").
pub(crate) const MAX_PERCENT: u32 = 100;

// The maximum time of a ramp, in seconds (EnOcean Equipment Profiles 2.6, "A5-38-08", command 2).
pub(crate) const MAX_RAMP: u32 = 255;
