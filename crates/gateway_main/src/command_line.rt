//! The parser of the command line, re-exported.
pub use gateway_cli::{Access, CommandLineFault, FileToOpen, Options, Service, read};
