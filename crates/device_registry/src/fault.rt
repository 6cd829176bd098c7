//! Faults of an open, and the faults that SQLite's errors are reported as.
ghost use Rattle.std.specs.Prelude.{◌≡◌};
ghost use Rattle.device_registry.specs.Faults.{fault_of};

use learned_devices::StoreFault;
use sqlite::{Error, ErrorCode};
use std::alloc::AllocError;

// The fault for an error of SQLite.
pub(crate) fn store_fault_of(error: Error) -> StoreFault
    ensures { result ≡ fault_of error }
{
    match error {
        Error::SqliteFailure(ErrorCode::OutOfMemory) => StoreFault::from(AllocError),
        _ => StoreFault::store_failed(),
    }
}

/// Why a database is not prepared, and no registry is opened.
#[derive(Clone, Copy, Debug, PartialEq, Eq, thiserror::Error)]
pub enum OpenFault {
    /// The database holds something else, or under our names something that is no registry of version 1 or 2.
    #[error("the database is no registry of version 1 or 2")]
    NotARegistry,
    /// Out of memory, or the database failed.
    #[error(transparent)]
    Failed(StoreFault),
}

impl From<Error> for OpenFault {
    ghost use Rattle.std.specs.Prelude.{◌≡◌};
    ghost use Rattle.device_registry.specs.Faults.{fault_of};
    ghost use Rattle.device_registry.specs.declared.fault.OpenFault.TheVariants.{Failed};

    ghost from_gives = { λ error why. why ≡ Failed (fault_of error) };

    fn from(error: Error) -> OpenFault {
        OpenFault::Failed(store_fault_of(error))
    }
}

impl From<AllocError> for OpenFault {
    ghost use Rattle.std.specs.Prelude.{◌≡◌};
    ghost use Rattle.learned_devices.specs.Faults.{out_of_memory};
    ghost use Rattle.device_registry.specs.declared.fault.OpenFault.TheVariants.{Failed};

    ghost from_gives = { λ _ why. why ≡ Failed out_of_memory };

    fn from(error: AllocError) -> OpenFault {
        OpenFault::Failed(StoreFault::from(error))
    }
}
