//! The VLD profiles, and decoding telegrams by them.

ghost use Rattle.std.specs.Prelude.{◌≡◌, option_map, IfNone, IfSome, OnErr};
ghost use Rattle.profile_rows.specs.ReadResult.{read_result};
ghost use Rattle.profiles_vld.specs.Profiles.{vld_profile, payload_readings_of, supported, readings_of};

use crate::{blinds_control, electronic_switches};
use erp1_telegrams::{Contents, Eep, Telegram, rorg};
use profile_rows::{Readings, Unreadable};

// Sets `readings` to the readings of a payload by the profile D2-FUNC-TYPE, or returns the first error; `None` if the
// profile is not supported.
fn read_if_supported(
    func: u8,
    typ: u8,
    payload: &[u8],
    readings: &mut Readings,
) -> Option<Result<(), Unreadable>>
    ensures exact { option_map (λ answer. read_result answer readings.new.items) result
        ≡ option_map (λ says. says payload.now) (payload_readings_of (vld_profile func typ)) }
    ensures none { IfNone result (readings.new ≡ readings.old) }
    ensures err { IfSome result (λ answer. OnErr answer (readings.new ≡ readings.old)) }
{
    match (func, typ) {
        (0x01, 0x00..=0x12) => Some(electronic_switches::read_if_supported(payload, readings)),
        (0x05, 0x00) => Some(blinds_control::read_if_supported(payload, readings)),
        _ => None,
    }
}

/// Whether a profile is supported: whether `payload_readings_of` of `specs/Profiles.antt` has it. `read` returns
/// `NotSupported` exactly if it has not.
pub fn supports(eep: Eep) -> bool
    ensures { result ≡ supported eep }
{
    match eep.rorg {
        rorg::VLD => supports_vld(eep.func, eep.typ),
        _ => false,
    }
}

/// The same for the profile D2-FUNC-TYPE. The function decodes an empty payload and drops the result, so the code names
/// each profile only once, in `read_if_supported`.
pub fn supports_vld(func: u8, typ: u8) -> bool
    ensures { result ≡ supported (vld_profile func typ) }
{
    read_if_supported(func, typ, &[], &mut Readings::new()).is_some()
}

/// Decodes a telegram by a profile: sets `readings` to its readings, in the order of the profile's rows (EnOcean
/// Equipment Profiles 2.6). On an error `readings` does not change. The first error that applies is returned, in this
/// order: `NotSupported` if the profile is not supported, and `WrongKind` if the telegram does not have the RORG of the
/// profile. Then, for D2-01, `OtherMessage` if the command is neither 4 nor 7, and `WrongLength` if the payload does
/// not have three bytes (command 4) or six bytes (command 7). For D2-05-00, `WrongLength` if the payload does not have
/// four bytes, and `OtherMessage` if the command is not 4.
pub fn read(eep: Eep, telegram: &Telegram, readings: &mut Readings) -> Result<(), Unreadable>
    ensures exact { read_result result readings.new.items ≡ readings_of eep telegram.now }
    ensures err { OnErr result (readings.new ≡ readings.old) }
{
    match eep.rorg {
        rorg::VLD => read_vld(eep.func, eep.typ, telegram, readings),
        _ => Err(Unreadable::NotSupported),
    }
}

/// The same for the profile D2-FUNC-TYPE.
pub fn read_vld(
    func: u8,
    typ: u8,
    telegram: &Telegram,
    readings: &mut Readings,
) -> Result<(), Unreadable>
    ensures exact { read_result result readings.new.items ≡ readings_of (vld_profile func typ) telegram.now }
    ensures err { OnErr result (readings.new ≡ readings.old) }
{
    match telegram.contents() {
        Contents::Vld(payload) => {
            read_if_supported(func, typ, payload, readings).unwrap_or(Err(Unreadable::NotSupported))
        }
        _ if supports_vld(func, typ) => Err(Unreadable::WrongKind),
        _ => Err(Unreadable::NotSupported),
    }
}
