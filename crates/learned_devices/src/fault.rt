//! Why a call of a device store fails.
ghost use Rattle.std.specs.Prelude.{◌≡◌};
ghost use Rattle.learned_devices.specs.Faults.{store_failed};

use std::alloc::AllocError;

/// Why a call of a device store failed: out of memory, or the database did not answer.
#[derive(Clone, Copy, Debug, PartialEq, Eq, thiserror::Error)]
#[error("{}", if *.is_memory {"there is no memory"} else {"the store does not answer"})]
pub struct StoreFault {
    is_memory: bool,
}

impl StoreFault {
    /// The database does not answer. A fault for lack of memory is made only from the allocator's error.
    pub fn store_failed() -> StoreFault
        ensures { result ≡ store_failed }
    {
        StoreFault { is_memory: false }
    }

    /// Whether it is out of memory.
    pub fn is_memory(&self) -> bool
        ensures { result ≡ self.now.is_memory }
    {
        self.is_memory
    }
}

impl From<AllocError> for StoreFault {
    ghost use Rattle.std.specs.Prelude.{◌≡◌};
    ghost use Rattle.learned_devices.specs.Faults.{out_of_memory};

    ghost from_gives = { λ _ fault. fault ≡ out_of_memory };

    fn from(_error: AllocError) -> StoreFault {
        StoreFault { is_memory: true }
    }
}

/// Why a device is not learned.
#[derive(Clone, Copy, Debug, PartialEq, Eq, thiserror::Error)]
pub enum LearnFault {
    /// 1,000 other devices are learned.
    #[error("1,000 other devices are learned")]
    Full,
    /// The device store does not answer, or is out of memory.
    #[error(transparent)]
    Failed(StoreFault),
}

impl From<StoreFault> for LearnFault {
    ghost use Rattle.std.specs.Prelude.{◌≡◌};
    ghost use Rattle.learned_devices.specs.declared.fault.LearnFault.TheVariants.{Failed};

    ghost from_gives = { λ fault why. why ≡ Failed fault };

    fn from(fault: StoreFault) -> LearnFault {
        LearnFault::Failed(fault)
    }
}
