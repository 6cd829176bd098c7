//! Temperature sensors.

ghost use Rattle.std.specs.Prelude.{◌≡◌, option_map};
ghost use Rattle.std.specs.Bool.{OnFalse};
ghost use Rattle.profile_rows.specs.ReadResult.{entries_if};
ghost use Rattle.profile_rows.specs.Profile.{rows_in};
ghost use Rattle.profile_rows.specs.Rows.{entries_of};
ghost use Rattle.profiles_4bs.specs.Temperature.{temperature_profiles};

use profile_rows::{Readings, read_profiles};

// Sets `readings` to what the rows of a profile A5-02 read in a payload, and returns whether the profile has rows.
pub(crate) fn read_if_supported(typ: u8, bytes: &[u8; 4], readings: &mut Readings) -> bool
    ensures exact { entries_if result readings.new.items ≡ option_map (entries_of bytes.now)
        (rows_in temperature_profiles (record { rorg = 0xA5; func = 0x02; typ = typ })) }
    ensures none { OnFalse result (readings.new ≡ readings.old) }
{
    read_profiles! { readings, typ, bytes, 4;
        0x01 => { "TMP" (16, 8) [] range(255, 0, -400, 0, "C"); }
        0x02 => { "TMP" (16, 8) [] range(255, 0, -300, 100, "C"); }
        0x03 => { "TMP" (16, 8) [] range(255, 0, -200, 200, "C"); }
        0x04 => { "TMP" (16, 8) [] range(255, 0, -100, 300, "C"); }
        0x05 => { "TMP" (16, 8) [] range(255, 0, 0, 400, "C"); }
        0x06 => { "TMP" (16, 8) [] range(255, 0, 100, 500, "C"); }
        0x07 => { "TMP" (16, 8) [] range(255, 0, 200, 600, "C"); }
        0x08 => { "TMP" (16, 8) [] range(255, 0, 300, 700, "C"); }
        0x09 => { "TMP" (16, 8) [] range(255, 0, 400, 800, "C"); }
        0x0A => { "TMP" (16, 8) [] range(255, 0, 500, 900, "C"); }
        0x0B => { "TMP" (16, 8) [] range(255, 0, 600, 1000, "C"); }
        0x10 => { "TMP" (16, 8) [] range(255, 0, -600, 200, "C"); }
        0x11 => { "TMP" (16, 8) [] range(255, 0, -500, 300, "C"); }
        0x12 => { "TMP" (16, 8) [] range(255, 0, -400, 400, "C"); }
        0x13 => { "TMP" (16, 8) [] range(255, 0, -300, 500, "C"); }
        0x14 => { "TMP" (16, 8) [] range(255, 0, -200, 600, "C"); }
        0x15 => { "TMP" (16, 8) [] range(255, 0, -100, 700, "C"); }
        0x16 => { "TMP" (16, 8) [] range(255, 0, 0, 800, "C"); }
        0x17 => { "TMP" (16, 8) [] range(255, 0, 100, 900, "C"); }
        0x18 => { "TMP" (16, 8) [] range(255, 0, 200, 1000, "C"); }
        0x19 => { "TMP" (16, 8) [] range(255, 0, 300, 1100, "C"); }
        0x1A => { "TMP" (16, 8) [] range(255, 0, 400, 1200, "C"); }
        0x1B => { "TMP" (16, 8) [] range(255, 0, 500, 1300, "C"); }
        0x20 => { "TMP" (14, 10) [] range(1023, 0, -100, 412, "C"); }
        0x30 => { "TMP" (14, 10) [] range(1023, 0, -400, 623, "C"); }
    }
}
