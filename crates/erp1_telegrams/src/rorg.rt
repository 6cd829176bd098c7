//! The RORGs of the telegrams that the gateway reads (ISO/IEC 14543-3-10, "RORG").

/// Repeated switch communication.
pub const RPS: u8 = 0xF6;

/// One byte of payload (1BS).
pub const ONE_BS: u8 = 0xD5;

/// Four bytes of payload (4BS).
pub const FOUR_BS: u8 = 0xA5;

/// A payload of variable length.
pub const VLD: u8 = 0xD2;

/// Universal teach-in (UTE).
pub const UTE: u8 = 0xD4;
