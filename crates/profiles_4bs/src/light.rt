//! Light sensors.

ghost use Rattle.std.specs.Prelude.{◌≡◌, option_map};
ghost use Rattle.std.specs.Bool.{OnFalse};
ghost use Rattle.profile_rows.specs.ReadResult.{entries_if};
ghost use Rattle.profile_rows.specs.Profile.{rows_in};
ghost use Rattle.profile_rows.specs.Rows.{entries_of};
ghost use Rattle.profiles_4bs.specs.Light.{light_profiles};

use profile_rows::{Readings, read_profiles};

// Sets `readings` to what the rows of a profile A5-06 read in a payload, and returns whether the profile has rows.
pub(crate) fn read_if_supported(typ: u8, bytes: &[u8; 4], readings: &mut Readings) -> bool
    ensures exact { entries_if result readings.new.items ≡ option_map (entries_of bytes.now)
        (rows_in light_profiles (record { rorg = 0xA5; func = 0x06; typ = typ })) }
    ensures none { OnFalse result (readings.new ≡ readings.old) }
{
    read_profiles! { readings, typ, bytes, 4;
        0x01 => {
            "SVC" (0, 8) [] range(0, 255, 0, 51, "V");
            "ILL2" (8, 8) [(31, 1) = 1] range(0, 255, 3000, 300000, "lx");
            "ILL1" (16, 8) [(31, 1) = 0] range(0, 255, 6000, 600000, "lx");
        }
        0x02 => {
            "SVC" (0, 8) [] range(0, 255, 0, 51, "V");
            "ILL2" (8, 8) [(31, 1) = 1] range(0, 255, 0, 5100, "lx");
            "ILL1" (16, 8) [(31, 1) = 0] range(0, 255, 0, 10200, "lx");
        }
    }
}
