//! Electronic switches and dimmers with local control: the profiles of D2-01.

ghost use Rattle.std.specs.Prelude.{◌≡◌, OnErr};
ghost use Rattle.bit_fields.specs.Bits.{field};
ghost use Rattle.profile_rows.specs.ReadResult.{read_result};
ghost use Rattle.profiles_vld.specs.ElectronicSwitches.{status_response, measurement_response};
ghost use Rattle.profiles_vld.specs.Payload.{entries_if_length};
ghost use Rattle.profiles_vld.specs.Profiles.{electronic_switch_readings};

use bit_fields::get;
use profile_rows::{Readings, Unreadable, read_rows};

// Sets `readings` to the readings of a payload, or returns the first error: `OtherMessage` if its command is neither 4
// nor 7, and `WrongLength` if it does not have the length of its command's message.
pub(crate) fn read_if_supported(payload: &[u8], readings: &mut Readings) -> Result<(), Unreadable>
    ensures exact { read_result result readings.new.items ≡ electronic_switch_readings payload.now }
    ensures err { OnErr result (readings.new ≡ readings.old) }
{
    match command(payload) {
        4 => status_response(payload, readings),
        7 => measurement_response(payload, readings),
        _ => Err(Unreadable::OtherMessage),
    }
}

// The command of a message, or 0 if the payload is empty.
fn command(payload: &[u8]) -> u32
    ensures { result ≡ field payload.now 4 4 }
{
    match payload.first() {
        Some(first) => get::<1, 4, 4>(&[*first]),
        None => 0,
    }
}

// Sets `readings` to those of a status, which is the command 4. `WrongLength` if the payload does not have three
// bytes.
fn status_response(payload: &[u8], readings: &mut Readings) -> Result<(), Unreadable>
    ensures exact { read_result result readings.new.items ≡ entries_if_length 3 payload.now status_response }
    ensures err { OnErr result (readings.new ≡ readings.old) }
{
    let Ok(bytes) = <&[u8; 3]>::try_from(payload) else {
        return Err(Unreadable::WrongLength);
    };
    read_rows! { readings, bytes, 3;
        "PF" (0, 1) [] number();
        "PFD" (1, 1) [] number();
        "OC" (8, 1) [] number();
        "EL" (9, 2) [] words(&[(0, "ok"), (1, "warning"), (2, "failure"), (3, "not_supported")]);
        "IO" (11, 5) [] number();
        "LC" (16, 1) [] number();
        "OV" (17, 7) [] percent_or_word_127("not_applicable");
    }
    Ok(())
}

// Sets `readings` to those of a measurement, which is the command 7. `WrongLength` if the payload does not have six
// bytes.
fn measurement_response(payload: &[u8], readings: &mut Readings) -> Result<(), Unreadable>
    ensures exact { read_result result readings.new.items ≡ entries_if_length 6 payload.now measurement_response }
    ensures err { OnErr result (readings.new ≡ readings.old) }
{
    let Ok(bytes) = <&[u8; 6]>::try_from(payload) else {
        return Err(Unreadable::WrongLength);
    };
    read_rows! { readings, bytes, 6;
        "IO" (11, 5) [] number();
        "UN" (8, 3) [(8, 3) > 4] reserved();
        "MV" (16, 32) [(8, 3) = 0] over(1, "Ws");
        "MV" (16, 32) [(8, 3) = 1] over(1, "Wh");
        "MV" (16, 32) [(8, 3) = 2] over(1, "kWh");
        "MV" (16, 32) [(8, 3) = 3] over(1, "W");
        "MV" (16, 32) [(8, 3) = 4] over(1, "kW");
        "MV" (16, 32) [(8, 3) > 4] number();
    }
    Ok(())
}
