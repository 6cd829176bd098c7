//! The faults that end the program with status 1.
ghost use Rattle.std.specs.Prelude.{◌≡◌};
ghost use Rattle.gateway_main.specs.Faults.{text_of};

use device_registry::OpenFault;
use gateway_loop::RunFault;
use std::alloc::AllocError;
use thiserror::Error;

/// A fault that ends the program with status 1. Its text is what the program prints.
#[derive(Clone, Copy, Debug, PartialEq, Eq, Error)]
pub enum Fault {
    /// The database is not a registry of this program, or cannot be opened, read, written or closed. Or out of memory,
    /// also for the command line or the gateway.
    #[error("{}", text_of(*.0))]
    Database(OpenFault),
    /// The serial line, the desk's file or the file of the answers cannot be opened.
    #[error("cannot open")]
    CannotOpenFile,
    /// The replay, or the live gateway, ended early.
    #[error(transparent)]
    Run(RunFault),
}

// The text that the program prints for a fault of its database, or if it is out of memory.
fn text_of(why: OpenFault) -> &'static str
    ensures { result.now ≡ text_of why }
{
    match why {
        OpenFault::NotARegistry => "not a registry",
        OpenFault::Failed(fault) if fault.is_memory() => "memory",
        OpenFault::Failed(_) => "store",
    }
}

impl From<AllocError> for Fault {
    ghost use Rattle.gateway_main.specs.Faults.{memory_fault};

    ghost from_gives = { λ _ fault. fault ≡ memory_fault };

    fn from(no_memory: AllocError) -> Fault {
        Fault::Database(OpenFault::from(no_memory))
    }
}

impl From<sqlite::Error> for Fault {
    ghost use Rattle.gateway_main.specs.Faults.{fault_of_store};

    ghost from_gives = { λ error fault. fault ≡ fault_of_store error };

    fn from(error: sqlite::Error) -> Fault {
        Fault::Database(OpenFault::from(error))
    }
}

impl From<OpenFault> for Fault {
    ghost use Rattle.gateway_main.specs.declared.fault.Fault.TheVariants.{Database};

    ghost from_gives = { λ why fault. fault ≡ Database why };

    fn from(why: OpenFault) -> Fault {
        Fault::Database(why)
    }
}

impl From<RunFault> for Fault {
    ghost use Rattle.gateway_main.specs.declared.fault.Fault.TheVariants.{Run};

    ghost from_gives = { λ stopped fault. fault ≡ Run stopped };

    fn from(stopped: RunFault) -> Fault {
        Fault::Run(stopped)
    }
}
