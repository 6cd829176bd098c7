//! Light, temperature and occupancy sensors.

ghost use Rattle.std.specs.Prelude.{◌≡◌, option_map};
ghost use Rattle.std.specs.Bool.{OnFalse};
ghost use Rattle.profile_rows.specs.ReadResult.{entries_if};
ghost use Rattle.profile_rows.specs.Profile.{rows_in};
ghost use Rattle.profile_rows.specs.Rows.{entries_of};
ghost use Rattle.profiles_4bs.specs.LightTemperatureOccupancy.{light_temperature_occupancy_profiles};

use crate::occupancy_button::PRESSED_OR_RELEASED;
use profile_rows::{Readings, read_profiles};

// The words of the motion sensor.
const ON_OR_OFF: [(u32, &str); 2] = [(0, "on"), (1, "off")];

// Sets `readings` to what the rows of a profile A5-08 read in a payload, and returns whether the profile has rows.
pub(crate) fn read_if_supported(typ: u8, bytes: &[u8; 4], readings: &mut Readings) -> bool
    ensures exact { entries_if result readings.new.items ≡ option_map (entries_of bytes.now)
        (rows_in light_temperature_occupancy_profiles (record { rorg = 0xA5; func = 0x08; typ = typ })) }
    ensures none { OnFalse result (readings.new ≡ readings.old) }
{
    read_profiles! { readings, typ, bytes, 4;
        0x01 => {
            "SVC" (0, 8) [] range(0, 255, 0, 51, "V");
            "ILL" (8, 8) [] range(0, 255, 0, 5100, "lx");
            "TMP" (16, 8) [] range(0, 255, 0, 510, "C");
            "PIRS" (30, 1) [] words(&ON_OR_OFF);
            "OCC" (31, 1) [] words(&PRESSED_OR_RELEASED);
        }
        0x02 => {
            "SVC" (0, 8) [] range(0, 255, 0, 51, "V");
            "ILL" (8, 8) [] range(0, 255, 0, 10200, "lx");
            "TMP" (16, 8) [] range(0, 255, 0, 510, "C");
            "PIRS" (30, 1) [] words(&ON_OR_OFF);
            "OCC" (31, 1) [] words(&PRESSED_OR_RELEASED);
        }
        0x03 => {
            "SVC" (0, 8) [] range(0, 255, 0, 51, "V");
            "ILL" (8, 8) [] range(0, 255, 0, 15300, "lx");
            "TMP" (16, 8) [] range(0, 255, -300, 500, "C");
            "PIRS" (30, 1) [] words(&ON_OR_OFF);
            "OCC" (31, 1) [] words(&PRESSED_OR_RELEASED);
        }
    }
}
