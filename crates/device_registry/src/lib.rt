//! The learned devices, in a SQLite database. Calls return what the database holds; a cache holds the senders that were
//! looked up last. A call that changes a device returns after the commit; `learn` and `forget` return a receipt.
//!
//! Every statement about what is stored has one premise, which is that of `sqlite`: so far the disk has returned what
//! was written (`HasCleanDisk`).
#![tactic(auto)]

mod cache;
mod cache_limits;
mod catalog;
mod create;
mod device_store;
mod device_table;
mod fault;
pub mod laws;
mod migrate;
mod opening;
mod queries;
mod ranges;
mod recognize;
mod registry;
mod schema_check;
mod sql_connection;
mod table;
#[cfg(test)]
mod tests;
mod transaction;

pub use cache_limits::{DEFAULT_CACHED, MAX_CACHED};
pub use fault::OpenFault;
pub use learned_devices::{
    Device, DeviceStore, Label, LearnFault, MAX_DEVICES, MAX_LABEL, Receipt, StoreFault,
};
pub use opening::prepare;
pub use registry::{Registry, RegistryOver};
pub use sql_connection::SqlConnection;
