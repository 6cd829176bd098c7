//! Bit fields in the payload of a telegram, read and written as numbers. A field has a bit offset, counted from the
//! most significant bit of the first byte (EnOcean Equipment Profiles 2.6). Nothing here allocates.
#![tactic(auto)]

mod big_endian;
mod fields;
pub mod laws;

pub use fields::{get, put};
