//! Decoding VLD telegrams by their profiles (EnOcean Equipment Profiles 2.6).
#![tactic(auto)]

mod blinds_control;
mod electronic_switches;
mod profiles;

pub use crate::profiles::{read, read_vld, supports, supports_vld};
