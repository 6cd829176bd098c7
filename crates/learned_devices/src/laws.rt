//! Theorems about the definitions. Each function does nothing: its contract is the theorem.
ghost use Rattle.std.specs.Prelude.{ℕ, ◌≡◌, ◌≤◌, Some};
ghost use Rattle.learned_devices.specs.declared.limits.TheConstants.{MAX_DEVICES, MAX_LABEL};
ghost use Rattle.learned_devices.specs.Devices.{max_devices};
ghost use Rattle.learned_devices.specs.Labels.{max_label};
ghost use Rattle.learned_devices.specs.Ranges.{MakerFitsTwoBytes};

/// The limits of the code are those of the definitions.
pub fn limits_agree()
    ensures devices { MAX_DEVICES ≡ max_devices }
    ensures label { MAX_LABEL ≡ max_label }
{}

/// Each manufacturer ID that a teach-in query can carry is in range: it has 11 bits.
pub fn makers_are_in_range()
    ensures { (maker : ℕ) → maker ≤ 0x7FF → MakerFitsTwoBytes (Some maker) }
{}
