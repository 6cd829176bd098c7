//! Room operating panels.

ghost use Rattle.std.specs.Prelude.{◌≡◌, option_map};
ghost use Rattle.std.specs.Bool.{OnFalse};
ghost use Rattle.profile_rows.specs.ReadResult.{entries_if};
ghost use Rattle.profile_rows.specs.Profile.{rows_in};
ghost use Rattle.profile_rows.specs.Rows.{entries_of};
ghost use Rattle.profiles_4bs.specs.RoomOperatingPanel.{room_operating_panel_profiles};

use crate::occupancy_button::PRESSED_OR_RELEASED;
use profile_rows::{Readings, read_profiles};

// Sets `readings` to what the rows of a profile A5-10 read in a payload, and returns whether the profile has rows.
pub(crate) fn read_if_supported(typ: u8, bytes: &[u8; 4], readings: &mut Readings) -> bool
    ensures exact { entries_if result readings.new.items ≡ option_map (entries_of bytes.now)
        (rows_in room_operating_panel_profiles (record { rorg = 0xA5; func = 0x10; typ = typ })) }
    ensures none { OnFalse result (readings.new ≡ readings.old) }
{
    read_profiles! { readings, typ, bytes, 4;
        0x03 => {
            "SP" (8, 8) [] number();
            "TMP" (16, 8) [] range(255, 0, 0, 400, "C");
        }
        0x05 => {
            "SP" (8, 8) [] number();
            "TMP" (16, 8) [] range(255, 0, 0, 400, "C");
            "OCC" (31, 1) [] words(&PRESSED_OR_RELEASED);
        }
    }
}
