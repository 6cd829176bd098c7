//! The readings of a telegram by the profile of its sender.
ghost use Rattle.std.specs.Prelude.{◌≡◌, true};
ghost use Rattle.gateway_core.specs.Profiles;
ghost use Rattle.profile_rows.specs.ReadResult.{read_result};
ghost use Rattle.profile_rows.specs.Payload.{is_data};

use erp1_telegrams::{Eep, Telegram, rorg};
use profile_rows::{Readings, Unreadable};

/// Sets `readings` to those of a data telegram by this profile, that of its sender, or returns why the profile cannot
/// read it. Each RORG has its own crate of profiles.
pub fn read_data(eep: Eep, telegram: &Telegram, readings: &mut Readings) -> Result<(), Unreadable>
    requires { is_data telegram.now.rorg telegram.now.payload ≡ true }
    ensures { read_result result readings.new.items ≡ Profiles.read_by eep telegram.now }
{
    match eep.rorg {
        rorg::RPS => profiles_rps::read_rps(eep.func, eep.typ, telegram, readings),
        rorg::ONE_BS => profiles_rps::read_1bs_data(eep.func, eep.typ, telegram, readings),
        rorg::FOUR_BS => profiles_4bs::read_4bs_data(eep.func, eep.typ, telegram, readings),
        rorg::VLD => profiles_vld::read_vld(eep.func, eep.typ, telegram, readings),
        _ => Err(Unreadable::NotSupported),
    }
}
