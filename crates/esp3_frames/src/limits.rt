//! The limits of a packet (EnOcean Serial Protocol 3, "Packet structure").

/// The maximum length of a packet's data, in bytes: the length field has two bytes.
pub const MAX_DATA: u16 = 65535;

/// The maximum length of a packet's optional data, in bytes: the length field has one byte.
pub const MAX_OPTIONAL_DATA: u8 = 255;

/// The maximum length of a packet, in bytes: six up to the CRC of the header, the data, the optional data and their
/// CRC.
pub const MAX_PACKET: usize = 6 + MAX_DATA as usize + MAX_OPTIONAL_DATA as usize + 1;
