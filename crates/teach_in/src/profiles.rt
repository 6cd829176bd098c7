//! The profiles that can be learned.
ghost use Rattle.std.specs.Prelude.{◌≡◌};
ghost use Rattle.teach_in.specs.Profiles;

use erp1_telegrams::{Eep, rorg};

/// Whether telegrams of this profile can be read: whether one of the three crates of profiles supports it.
pub fn supported(eep: Eep) -> bool
    ensures { result ≡ Profiles.supported eep }
{
    match eep.rorg {
        rorg::RPS => profiles_rps::supports_rps(eep.func, eep.typ),
        rorg::ONE_BS => profiles_rps::supports_1bs(eep.func, eep.typ),
        rorg::FOUR_BS => profiles_4bs::supports_4bs(eep.func, eep.typ),
        rorg::VLD => profiles_vld::supports_vld(eep.func, eep.typ),
        _ => false,
    }
}
