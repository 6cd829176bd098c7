//! Blinds control for position and angle: the profile D2-05-00.

ghost use Rattle.std.specs.Prelude.{◌≡◌, OnErr};
ghost use Rattle.profile_rows.specs.ReadResult.{read_result};
ghost use Rattle.profiles_vld.specs.Profiles.{blinds_control_readings};

use bit_fields::get;
use profile_rows::{Readings, Unreadable, read_rows};

// Sets `readings` to the readings of a payload, or returns the first error: `WrongLength` if it does not have four
// bytes, and `OtherMessage` if its command is not 4.
pub(crate) fn read_if_supported(payload: &[u8], readings: &mut Readings) -> Result<(), Unreadable>
    ensures exact { read_result result readings.new.items ≡ blinds_control_readings payload.now }
    ensures err { OnErr result (readings.new ≡ readings.old) }
{
    let Ok(bytes) = <&[u8; 4]>::try_from(payload) else {
        return Err(Unreadable::WrongLength);
    };
    if get::<4, 28, 4>(bytes) != 4 {
        return Err(Unreadable::OtherMessage);
    }
    read_rows! { readings, bytes, 4;
        "POS" (1, 7) [] percent_or_word_127("unknown");
        "ANG" (9, 7) [] percent_or_word_127("unknown");
        "LOCK" (21, 3) [] number();
        "CHN" (24, 4) [] number();
    }
    Ok(())
}
