//! The RPS profiles, F6.

ghost use Rattle.std.specs.Prelude.{◌≡◌, ℕ, option_map, Ok, Err, OnErr};
ghost use Rattle.std.specs.Bool.{OnFalse};
ghost use Rattle.profile_rows.specs.ReadResult.{read_result, entries_if};
ghost use Rattle.profile_rows.specs.Payload.{readings_by};
ghost use Rattle.profile_rows.specs.Rows.{rows_entries};
ghost use Rattle.profiles_rps.specs.Profiles.{rps_profile, rows_of, supported, readings_of};

use bit_fields::get;
use erp1_telegrams::{Contents, Telegram};
use profile_rows::{Readings, Unreadable, read_profiles};

const RELEASED_OR_PRESSED: [(u32, &str); 2] = [(0, "released"), (1, "pressed")];

const ROCKERS_AB: [(u32, &str); 4] = [(0, "AI"), (1, "A0"), (2, "BI"), (3, "B0")];

const ROCKERS_ABCD: [(u32, &str); 8] = [
    (0, "AI"),
    (1, "A0"),
    (2, "BI"),
    (3, "B0"),
    (4, "CI"),
    (5, "C0"),
    (6, "DI"),
    (7, "D0"),
];

// Sets `readings` to what the rows of the profile F6-FUNC-TYPE read in a payload, and returns whether it has rows.
#[tactic(auto, unfolding(crate::specs::Profiles::rows_of))]
fn read_if_supported(
    func: u8,
    typ: u8,
    status: u8,
    bytes: &[u8; 1],
    readings: &mut Readings,
) -> bool
    ensures exact { entries_if result readings.new.items
        ≡ option_map (rows_entries status bytes.now) (rows_of (rps_profile func typ)) }
    ensures none { OnFalse result (readings.new ≡ readings.old) }
{
    let nu = get::<1, 3, 1>(&[status]);
    read_profiles! { readings, (func, typ), bytes, 1;
        (0x01, 0x01) => {
            "PB" (3, 1) [] words(&RELEASED_OR_PRESSED);
        }
        (0x02, 0x01 | 0x02) => {
            "R1" (0, 3) [nu = 1] words(&ROCKERS_AB);
            "buttons" (0, 3) [nu = 0] words(&[(0, "none"), (3, "three_or_four")]);
            "EB" (3, 1) [] words(&RELEASED_OR_PRESSED);
            "R2" (4, 3) [nu = 1 and (7, 1) = 1] words(&ROCKERS_AB);
        }
        (0x03, 0x01 | 0x02) => {
            "R1" (0, 3) [nu = 1] words(&ROCKERS_ABCD);
            "buttons" (0, 3) [nu = 0] number();
            "EB" (3, 1) [] words(&RELEASED_OR_PRESSED);
            "R2" (4, 3) [nu = 1 and (7, 1) = 1] words(&ROCKERS_ABCD);
        }
    }
}

/// Whether the profile F6-FUNC-TYPE is supported. The function decodes the byte 0 and drops the readings, so the code
/// names each profile only once, in `read_if_supported`.
pub fn supports_rps(func: u8, typ: u8) -> bool
    ensures { result ≡ supported (rps_profile func typ) }
{
    read_if_supported(func, typ, 0, &[0], &mut Readings::new())
}

// The error for a telegram that the profile F6-FUNC-TYPE cannot read for this reason.
fn reason_if_supported(func: u8, typ: u8, reason: Unreadable) -> Unreadable
    ensures { (status : ℕ) → Err result ≡ readings_by (rows_entries status) (rows_of (rps_profile func typ))
        (Err reason) }
{
    if supports_rps(func, typ) {
        reason
    } else {
        Unreadable::NotSupported
    }
}

// Decodes the payload of an RPS telegram by the profile F6-FUNC-TYPE.
fn read_byte(
    func: u8,
    typ: u8,
    status: u8,
    bytes: &[u8; 1],
    readings: &mut Readings,
) -> Result<(), Unreadable>
    ensures exact { read_result result readings.new.items
        ≡ readings_by (rows_entries status) (rows_of (rps_profile func typ)) (Ok bytes.now) }
    ensures err { OnErr result (readings.new ≡ readings.old) }
{
    if read_if_supported(func, typ, status, bytes, readings) {
        Ok(())
    } else {
        Err(Unreadable::NotSupported)
    }
}

/// Decodes a telegram by the profile F6-FUNC-TYPE, as `read` does.
pub fn read_rps(
    func: u8,
    typ: u8,
    telegram: &Telegram,
    readings: &mut Readings,
) -> Result<(), Unreadable>
    ensures exact { read_result result readings.new.items ≡ readings_of (rps_profile func typ) telegram.now }
    ensures err { OnErr result (readings.new ≡ readings.old) }
{
    match telegram.contents() {
        Contents::Rps(bytes) => read_byte(func, typ, telegram.status(), bytes, readings),
        _ => Err(reason_if_supported(func, typ, Unreadable::WrongKind)),
    }
}
