//! The offset of the LRN bit, DB0.3, in a payload, counted from the most significant bit of the first byte. It is 0 in
//! a teach-in telegram and 1 in data (EnOcean Equipment Profiles 2.6, "Teach-in process").

/// The offset in the one byte of a 1BS payload.
pub const ONE_BS_OFFSET: usize = 4;

/// The offset in the four bytes of a 4BS payload.
pub const FOUR_BS_OFFSET: usize = 28;
