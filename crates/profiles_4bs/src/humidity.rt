//! Temperature and humidity sensors.

ghost use Rattle.std.specs.Prelude.{◌≡◌, option_map};
ghost use Rattle.std.specs.Bool.{OnFalse};
ghost use Rattle.profile_rows.specs.ReadResult.{entries_if};
ghost use Rattle.profile_rows.specs.Profile.{rows_in};
ghost use Rattle.profile_rows.specs.Rows.{entries_of};
ghost use Rattle.profiles_4bs.specs.Humidity.{humidity_profiles};

use profile_rows::{Readings, read_profiles};

// Sets `readings` to what the rows of a profile A5-04 read in a payload, and returns whether the profile has rows.
pub(crate) fn read_if_supported(typ: u8, bytes: &[u8; 4], readings: &mut Readings) -> bool
    ensures exact { entries_if result readings.new.items ≡ option_map (entries_of bytes.now)
        (rows_in humidity_profiles (record { rorg = 0xA5; func = 0x04; typ = typ })) }
    ensures none { OnFalse result (readings.new ≡ readings.old) }
{
    read_profiles! { readings, typ, bytes, 4;
        0x01 => {
            "HUM" (8, 8) [] range(0, 250, 0, 1000, "%");
            "TMP" (16, 8) [(30, 1) = 1] range(0, 250, 0, 400, "C");
        }
        0x02 => {
            "HUM" (8, 8) [] range(0, 250, 0, 1000, "%");
            "TMP" (16, 8) [(30, 1) = 1] range(0, 250, -200, 600, "C");
        }
    }
}
