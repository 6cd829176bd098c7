//! Theorems about the definitions. Each function does nothing: its contract is the theorem.
ghost use Rattle.std.specs.Prelude.{◌≡◌};
ghost use Rattle.byte_io.specs.declared.read_limit.TheConstants.{MAX_READ};
ghost use Rattle.byte_io.specs.ReadLimit.{max_read};

/// The limit of the code is that of the definitions.
pub fn limits_agree()
    ensures { MAX_READ ≡ max_read }
{}
