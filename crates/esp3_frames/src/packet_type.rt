//! The packet types that the gateway uses (EnOcean Serial Protocol 3, "Packet types").

/// A radio telegram (EnOcean Serial Protocol 3, "Packet type 1: RADIO_ERP1").
pub const RADIO_ERP1: u8 = 1;

/// A response of the radio module (EnOcean Serial Protocol 3, "Packet type 2: RESPONSE").
pub const RESPONSE: u8 = 2;

/// A command to the radio module (EnOcean Serial Protocol 3, "Packet type 5: COMMON_COMMAND").
pub const COMMON_COMMAND: u8 = 5;
