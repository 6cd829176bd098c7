//! Decoding 4BS telegrams by their profiles (EnOcean Equipment Profiles 2.6).
#![tactic(auto)]

mod gas;
mod humidity;
mod light;
mod light_temperature_occupancy;
mod meter;
mod occupancy;
mod occupancy_button;
mod profiles;
mod room_operating_panel;
mod temperature;

pub use crate::profiles::{read, read_4bs_data, supports, supports_4bs};
