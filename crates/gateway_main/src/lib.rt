//! The program `enogate`: its command line, what it opens and runs, and how it ends.
#![tactic(auto)]

pub mod command_line;
pub mod ending;
pub mod fault;
mod gateway_start;
pub mod laws;
mod program_run;
pub mod registry_gateway;
pub mod restart;
mod serial_reader;

pub use byte_io::{Failed, MAX_READ, OverRead, OverWrite, Sink, Source};
pub use gateway_loop::{RunFault, Summary};
pub use gateway_start::{FileConnection, StartedOnFiles, start, start_file};
pub use program_run::program;
pub use registry_gateway::{live, replay};
