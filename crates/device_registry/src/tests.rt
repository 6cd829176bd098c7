//! Tests of the effects of calls on a database, of the cache, and of the states after a failure or a crash.
mod cache;
mod cached_registry;
mod commits;
mod crashes;
mod devices;
mod disks;
mod failure_trials;
mod faults;
mod fixtures;
mod row_checks;
mod test_steps;
