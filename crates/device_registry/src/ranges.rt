//! The ranges of the numbers in the device table.

// The greatest sender ID: FFFFFFFF is not a sender (EnOcean Serial Protocol 3, "Packet type 1: RADIO_ERP1").
pub(crate) const MAX_SENDER: u32 = 4_294_967_294;

// The greatest number of a profile, which has three bytes (EnOcean Equipment Profiles 2.6, "Structure").
pub(crate) const MAX_PROFILE: u32 = 16_777_215;

// The greatest manufacturer ID, which has 11 bits (EnOcean Equipment Profiles 2.6, "4BS Telegram").
pub(crate) const MAX_MAKER: u32 = 2047;
