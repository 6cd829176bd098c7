//! Decoding RPS and 1BS telegrams by their profiles (EnOcean Equipment Profiles 2.6).
#![tactic(auto)]

mod one_bs;
mod profiles;
mod rps;

pub use crate::one_bs::{read_1bs_data, supports_1bs};
pub use crate::profiles::{read, supports};
pub use crate::rps::{read_rps, supports_rps};
pub use profile_rows::{Reading, Readings, Unreadable, What};
