//! The command line of the program `enogate`, parsed by `clap`, and the service that it asks for.
#![tactic(auto)]

mod commands;
mod limits;
mod option_values;
mod service;

ghost use Rattle.std.specs.Prelude.{◌≡◌, ◌⊎◌, IfOk, IfErr, OnOk, Some, map, option_map, true};
ghost use Rattle.std.specs.String.{string_bytes};
ghost use Rattle.clap.specs.Words.{takes};
ghost use Rattle.erp1_telegrams.specs.Address;
ghost use Rattle.gateway_cli.specs.CommandLine.{AsksFor, IsOutOfMemory, IsAcceptedByClap, RejectsCommandLine};
ghost use Rattle.gateway_cli.specs.CommandLine.{base_of_command_line, db_of_command_line, enogate_app};
ghost use Rattle.gateway_cli.specs.CommandLine.{explain_of_command_line};

use clap::Error;
use commands::command;
use option_values::options_of;
pub use service::{Access, FileToOpen, Service};
use std::alloc::{AllocError, Global};

/// What a command line asks for.
#[derive(Clone, Copy, Debug, PartialEq, Eq)]
pub struct Options<'a> {
    /// The base ID of the radio module.
    pub base: u32,
    /// The path of the database with the learned devices, or `None` to keep them only in memory.
    pub db: Option<&'a str>,
    /// Whether the desk receives a line for each packet: what it was, what was done with it, and why.
    pub explain_packets: bool,
    /// The service of the gateway.
    pub service: Service<'a>,
}

/// Why a command line gives no options.
#[derive(Debug, Drop, thiserror::Error)]
pub enum CommandLineFault {
    /// `clap` rejected it, or was asked for help or for the version, or is out of memory.
    #[error(transparent)]
    ClapError(Error),
    /// The base ID is not eight hexadecimal digits, or not a base ID.
    #[error("not a base ID")]
    BadBase,
}

impl From<Error> for CommandLineFault {
    ghost use Rattle.gateway_cli.specs.declared.CommandLineFault.TheVariants.{ClapError};

    ghost from_gives = { λ error why. why ≡ ClapError error };

    fn from(error: Error) -> CommandLineFault {
        CommandLineFault::ClapError(error)
    }
}

impl From<AllocError> for CommandLineFault {
    ghost use Rattle.gateway_cli.specs.CommandLine.{IsOutOfMemory};

    ghost from_gives = { λ _ why. IsOutOfMemory why };

    fn from(error: AllocError) -> CommandLineFault {
        CommandLineFault::ClapError(Error::from(error))
    }
}

/// Reads a command line, whose first word is the program's name. It is one of
///
/// - `enogate replay --base ID [--db PATH] [--explain]`
/// - `enogate live --base ID --serial PATH --desk PATH --out PATH --turns N [--db PATH] [--explain]`
///
/// ID is a base ID as eight hexadecimal digits, in upper or lower case, and N is 1 to 4294967295. The options may be in
/// any order, and in the spellings that `clap` has for them. Any other line is rejected, and so is one that asks for
/// help or for the version.
pub fn read<'a>(alloc: Global, words: &'a [String]) -> Result<Options<'a>, CommandLineFault>
    ensures taken { OnOk result (IsAcceptedByClap (map string_bytes words.now)) }
    ensures base { IfOk result (λ options. base_of_command_line (map string_bytes words.now) ≡ Some options.base) }
    ensures db { IfOk result (λ options.
        option_map (λ path. path.now) options.db ≡ db_of_command_line (map string_bytes words.now)) }
    ensures explain { IfOk result (λ options. options.explain_packets
        ≡ explain_of_command_line (map string_bytes words.now)) }
    ensures service { IfOk result (λ options. AsksFor (map string_bytes words.now) options.service) }
    ensures is_base_id { IfOk result (λ options. Address.is_base_id options.base ≡ true) }
    ensures rejected { IfErr result (RejectsCommandLine (map string_bytes words.now)) }
    ensures passes { takes enogate_app (map string_bytes words.now) ≡ true →
        IfErr result (λ why. (why ≡ CommandLineFault.BadBase) ⊎ IsOutOfMemory why) }
{
    let matches = command(alloc)?.try_get_matches_from(words)?;
    match options_of(&matches) {
        Some(options) => Ok(options),
        None => Err(CommandLineFault::BadBase),
    }
}
