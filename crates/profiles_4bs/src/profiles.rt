//! The 4BS profiles, and decoding telegrams by them.

ghost use Rattle.std.specs.Prelude.{◌≡◌, true, option_map, Ok, Err, OnErr};
ghost use Rattle.std.specs.Bool.{OnFalse};
ghost use Rattle.profile_rows.specs.ReadResult.{read_result, entries_if};
ghost use Rattle.profile_rows.specs.Payload.{is_data, readings_by};
ghost use Rattle.profile_rows.specs.Rows.{entries_of};
ghost use Rattle.profiles_4bs.specs.Profiles.{four_bs_profile, rows_of, supported, readings_of};

use crate::{
    gas, humidity, light, light_temperature_occupancy, meter, occupancy, room_operating_panel,
    temperature,
};
use bit_fields::get;
use erp1_telegrams::{Contents, Eep, Telegram, lrn_bit, rorg};
use profile_rows::{Readings, Unreadable};

// Sets `readings` to what the rows of the profile A5-FUNC-TYPE read in a payload, and returns whether it has rows.
// Each function called here has the profiles of one FUNC.
#[tactic(auto, unfolding(crate::specs::Profiles::rows_of))]
fn read_if_supported(func: u8, typ: u8, bytes: &[u8; 4], readings: &mut Readings) -> bool
    ensures exact { entries_if result readings.new.items
        ≡ option_map (entries_of bytes.now) (rows_of (four_bs_profile func typ)) }
    ensures none { OnFalse result (readings.new ≡ readings.old) }
{
    match func {
        0x02 => temperature::read_if_supported(typ, bytes, readings),
        0x04 => humidity::read_if_supported(typ, bytes, readings),
        0x06 => light::read_if_supported(typ, bytes, readings),
        0x07 => occupancy::read_if_supported(typ, bytes, readings),
        0x08 => light_temperature_occupancy::read_if_supported(typ, bytes, readings),
        0x09 => gas::read_if_supported(typ, bytes, readings),
        0x10 => room_operating_panel::read_if_supported(typ, bytes, readings),
        0x12 => meter::read_if_supported(typ, bytes, readings),
        _ => false,
    }
}

/// Whether a profile is supported: whether it is in `all_profiles` of `specs/Profiles.antt`. `read` returns
/// `NotSupported` exactly if it is not.
pub fn supports(eep: Eep) -> bool
    ensures { result ≡ supported eep }
{
    match eep.rorg {
        rorg::FOUR_BS => supports_4bs(eep.func, eep.typ),
        _ => false,
    }
}

/// The same for the profile A5-FUNC-TYPE. The function decodes zeros and drops the readings, so the code names each
/// profile only once, in the functions `read_if_supported`.
pub fn supports_4bs(func: u8, typ: u8) -> bool
    ensures { result ≡ supported (four_bs_profile func typ) }
{
    read_if_supported(func, typ, &[0; 4], &mut Readings::new())
}

// Decodes the payload of a data telegram by the profile A5-FUNC-TYPE.
fn read_bytes(func: u8, typ: u8, bytes: &[u8; 4], readings: &mut Readings) -> Result<(), Unreadable>
    ensures exact { read_result result readings.new.items
        ≡ readings_by entries_of (rows_of (four_bs_profile func typ)) (Ok bytes.now) }
    ensures err { OnErr result (readings.new ≡ readings.old) }
{
    if read_if_supported(func, typ, bytes, readings) {
        Ok(())
    } else {
        Err(Unreadable::NotSupported)
    }
}

// The error for a telegram that the profile A5-FUNC-TYPE cannot read for this reason.
fn reason_if_supported(func: u8, typ: u8, reason: Unreadable) -> Unreadable
    ensures { Err result ≡ readings_by entries_of (rows_of (four_bs_profile func typ)) (Err reason) }
{
    if supports_4bs(func, typ) {
        reason
    } else {
        Unreadable::NotSupported
    }
}

/// Decodes a telegram by a profile: sets `readings` to its readings, in the order of the profile's rows (EnOcean
/// Equipment Profiles 2.6). On an error `readings` does not change. The first error that applies is returned, in this
/// order: `NotSupported` if the profile is not supported, `WrongKind` if the telegram does not have the RORG of the
/// profile, and `OtherMessage` if the telegram is a 4BS teach-in.
pub fn read(eep: Eep, telegram: &Telegram, readings: &mut Readings) -> Result<(), Unreadable>
    ensures exact { read_result result readings.new.items ≡ readings_of eep telegram.now }
    ensures err { OnErr result (readings.new ≡ readings.old) }
{
    match eep.rorg {
        rorg::FOUR_BS => read_4bs(eep.func, eep.typ, telegram, readings),
        _ => Err(Unreadable::NotSupported),
    }
}

// The same for the profile A5-FUNC-TYPE.
fn read_4bs(
    func: u8,
    typ: u8,
    telegram: &Telegram,
    readings: &mut Readings,
) -> Result<(), Unreadable>
    ensures exact { read_result result readings.new.items ≡ readings_of (four_bs_profile func typ) telegram.now }
    ensures err { OnErr result (readings.new ≡ readings.old) }
{
    match telegram.contents() {
        Contents::FourBs(bytes) => match get::<4, { lrn_bit::FOUR_BS_OFFSET }, 1>(bytes) {
            1 => read_bytes(func, typ, bytes, readings),
            _ => Err(reason_if_supported(func, typ, Unreadable::OtherMessage)),
        },
        _ => Err(reason_if_supported(func, typ, Unreadable::WrongKind)),
    }
}

/// Decodes a telegram that is known to be data, whose LRN bit is not read again, by the profile A5-FUNC-TYPE, as `read`
/// does.
pub fn read_4bs_data(
    func: u8,
    typ: u8,
    telegram: &Telegram,
    readings: &mut Readings,
) -> Result<(), Unreadable>
    requires { is_data telegram.now.rorg telegram.now.payload ≡ true }
    ensures exact { read_result result readings.new.items ≡ readings_of (four_bs_profile func typ) telegram.now }
    ensures err { OnErr result (readings.new ≡ readings.old) }
{
    match telegram.contents() {
        Contents::FourBs(bytes) => read_bytes(func, typ, bytes, readings),
        _ => Err(reason_if_supported(func, typ, Unreadable::WrongKind)),
    }
}
