//! Meters.

ghost use Rattle.std.specs.Prelude.{◌≡◌, option_map};
ghost use Rattle.std.specs.Bool.{OnFalse};
ghost use Rattle.profile_rows.specs.ReadResult.{entries_if};
ghost use Rattle.profile_rows.specs.Profile.{rows_in};
ghost use Rattle.profile_rows.specs.Rows.{entries_of};
ghost use Rattle.profiles_4bs.specs.Meter.{meter_profiles};

use bit_fields::get;
use profile_rows::{Readings, read_profiles};

// Sets `readings` to what the rows of a profile A5-12 read in a payload, and returns whether the profile has rows.
pub(crate) fn read_if_supported(typ: u8, bytes: &[u8; 4], readings: &mut Readings) -> bool
    ensures exact { entries_if result readings.new.items ≡ option_map (entries_of bytes.now)
        (rows_in meter_profiles (record { rorg = 0xA5; func = 0x12; typ = typ })) }
    ensures none { OnFalse result (readings.new ≡ readings.old) }
{
    read_profiles! { readings, typ, bytes, 4;
        0x01 => {
            "MR" (0, 24) [(29, 1) = 0] over_power(get::<4, 30, 2>(bytes), "kWh");
            "MR" (0, 24) [(29, 1) = 1] over_power(get::<4, 30, 2>(bytes), "W");
            "TI" (24, 4) [] number();
        }
        0x02 | 0x03 => {
            "MR" (0, 24) [(29, 1) = 0] over_power(get::<4, 30, 2>(bytes), "m3");
            "MR" (0, 24) [(29, 1) = 1] over_power(get::<4, 30, 2>(bytes), "l/s");
            "TI" (24, 4) [] number();
        }
    }
}
