//! Why an input failed.
ghost use Rattle.std.specs.Prelude.{◌≡◌};

use learned_devices::StoreFault;
use std::alloc::AllocError;

/// Whether an input failed at the call that commits its update or in any other way, and for which cause.
#[derive(Clone, Copy)]
pub enum Failure {
    /// Nothing was written.
    BeforeCommit(StoreFault),
    /// The call that commits the update failed. After a crash the update may be there.
    AtCommit(StoreFault),
}

impl From<StoreFault> for Failure {
    ghost use Rattle.std.specs.Prelude.{◌≡◌};
    ghost use Rattle.gateway_core.specs.declared.failure.Failure.TheVariants.{BeforeCommit};

    ghost from_gives = { λ fault failure. failure ≡ BeforeCommit fault };

    fn from(fault: StoreFault) -> Failure {
        Failure::BeforeCommit(fault)
    }
}

impl From<AllocError> for Failure {
    ghost use Rattle.std.specs.Prelude.{◌≡◌};
    ghost use Rattle.learned_devices.specs.Faults.{out_of_memory};
    ghost use Rattle.gateway_core.specs.declared.failure.Failure.TheVariants.{BeforeCommit};

    ghost from_gives = { λ _ failure. failure ≡ BeforeCommit out_of_memory };

    fn from(error: AllocError) -> Failure {
        Failure::BeforeCommit(StoreFault::from(error))
    }
}
