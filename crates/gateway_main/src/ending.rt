//! How the program ends, and with which status.
ghost use Rattle.std.specs.Prelude.{◌≡◌};
ghost use Rattle.std.specs.IoError.{error_kind};
ghost use Rattle.gateway_main.specs.Endings.{done_or_first_fault_of, ending_if_no_arguments, status_of};

use crate::fault::Fault;
use clap::error::ErrorKind;
use gateway_cli::CommandLineFault;
use gateway_loop::{RunFault, Summary};
use std::alloc::AllocError;
use std::io;

/// Why the program ended without completing what it was asked.
#[derive(Debug, Drop)]
pub enum Ending {
    /// A fault ended it.
    Failed(Fault),
    /// An argument is not text.
    NotText,
    /// The command line is rejected, or asks for help or for the version. If memory ran out, the ending is `Failed`.
    CommandLine(CommandLineFault),
}

impl From<Fault> for Ending {
    ghost use Rattle.gateway_main.specs.declared.ending.Ending.TheVariants.{Failed};

    ghost from_gives = { λ fault ending. ending ≡ Failed fault };

    fn from(fault: Fault) -> Ending {
        Ending::Failed(fault)
    }
}

impl From<CommandLineFault> for Ending {
    ghost use Rattle.gateway_main.specs.Endings.{ending_of_command_line};

    ghost from_gives = { λ why ending. ending ≡ ending_of_command_line why };

    fn from(why: CommandLineFault) -> Ending {
        match why {
            CommandLineFault::ClapError(error) if error.kind() == ErrorKind::OutOfMemory =>
                Ending::Failed(Fault::from(AllocError)),
            other => Ending::CommandLine(other),
        }
    }
}

/// The ending if the program's arguments are not available.
pub fn ending_without_arguments(error: &io::Error) -> Ending
    ensures { result ≡ ending_if_no_arguments (error_kind error.now) }
{
    match error.kind() {
        io::ErrorKind::OutOfMemory => Ending::Failed(Fault::from(AllocError)),
        _ => Ending::NotText,
    }
}

/// Result of the run, or the fault that prevented it.
pub type RunResultIfOpened = Result<Result<Summary, RunFault>, Fault>;

/// The result of the gateway's work and of closing its database: a fault of the work takes precedence.
pub fn done_or_first_fault(
    served: RunResultIfOpened,
    closed: Result<(), sqlite::Error>,
) -> Result<(), Fault>
    ensures { result ≡ done_or_first_fault_of served closed }
{
    served??;
    Ok(closed?)
}

/// The program's exit status.
pub fn status(ended: &Result<(), Ending>) -> u8
    ensures { result ≡ status_of ended.now }
{
    match ended {
        Ok(()) => 0,
        Err(Ending::Failed(_)) => 1,
        Err(Ending::NotText | Ending::CommandLine(CommandLineFault::BadBase)) => 2,
        Err(Ending::CommandLine(CommandLineFault::ClapError(error))) => match error.kind() {
            ErrorKind::DisplayHelp | ErrorKind::DisplayVersion => 0,
            _ => 2,
        },
    }
}
