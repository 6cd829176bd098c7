//! The RPS and 1BS profiles, and decoding telegrams by them.

ghost use Rattle.std.specs.Prelude.{◌≡◌, OnErr};
ghost use Rattle.profile_rows.specs.ReadResult.{read_result};
ghost use Rattle.profiles_rps.specs.Profiles.{supported, readings_of};

use crate::one_bs::{read_1bs, supports_1bs};
use crate::rps::{read_rps, supports_rps};
use erp1_telegrams::{Eep, Telegram, rorg};
use profile_rows::{Readings, Unreadable};

/// Whether a profile is supported: whether it is in `all_profiles` of `specs/Profiles.antt`. `read` returns
/// `NotSupported` exactly if it is not.
pub fn supports(eep: Eep) -> bool
    ensures { result ≡ supported eep }
{
    match eep.rorg {
        rorg::RPS => supports_rps(eep.func, eep.typ),
        rorg::ONE_BS => supports_1bs(eep.func, eep.typ),
        _ => false,
    }
}

/// Decodes a telegram by a profile: sets `readings` to its readings, in the order of the profile's rows (EnOcean
/// Equipment Profiles 2.6). On an error `readings` does not change. The first error that applies is returned, in this
/// order: `NotSupported` if the profile is not supported, `WrongKind` if the telegram does not have the RORG of the
/// profile, and `OtherMessage` if the telegram is a 1BS teach-in.
pub fn read(eep: Eep, telegram: &Telegram, readings: &mut Readings) -> Result<(), Unreadable>
    ensures exact { read_result result readings.new.items ≡ readings_of eep telegram.now }
    ensures err { OnErr result (readings.new ≡ readings.old) }
{
    match eep.rorg {
        rorg::RPS => read_rps(eep.func, eep.typ, telegram, readings),
        rorg::ONE_BS => read_1bs(eep.func, eep.typ, telegram, readings),
        _ => Err(Unreadable::NotSupported),
    }
}
