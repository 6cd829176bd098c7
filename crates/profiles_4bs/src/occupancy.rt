//! Occupancy sensors.

ghost use Rattle.std.specs.Prelude.{◌≡◌, option_map};
ghost use Rattle.std.specs.Bool.{OnFalse};
ghost use Rattle.profile_rows.specs.ReadResult.{entries_if};
ghost use Rattle.profile_rows.specs.Profile.{rows_in};
ghost use Rattle.profile_rows.specs.Rows.{entries_of};
ghost use Rattle.profiles_4bs.specs.Occupancy.{occupancy_profiles};

use profile_rows::{Readings, read_profiles};

// Sets `readings` to what the rows of a profile A5-07 read in a payload, and returns whether the profile has rows.
pub(crate) fn read_if_supported(typ: u8, bytes: &[u8; 4], readings: &mut Readings) -> bool
    ensures exact { entries_if result readings.new.items ≡ option_map (entries_of bytes.now)
        (rows_in occupancy_profiles (record { rorg = 0xA5; func = 0x07; typ = typ })) }
    ensures none { OnFalse result (readings.new ≡ readings.old) }
{
    read_profiles! { readings, typ, bytes, 4;
        0x01 => {
            "SVC" (0, 8) [(31, 1) = 1] range(0, 250, 0, 50, "V");
            "PIRS" (16, 8) [] threshold(128, "off", "on");
        }
    }
}
