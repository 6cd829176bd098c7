//! Shared by the crates of profiles: readings, errors, the rows of a profile's table, and the macros that decode rows.
#![tactic(auto)]

mod macros;
mod reading;
pub mod rows;
mod unreadable;

pub use crate::reading::{Reading, Readings, What};
pub use crate::unreadable::Unreadable;
