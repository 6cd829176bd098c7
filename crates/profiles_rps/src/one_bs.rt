//! The 1BS profiles, D5.

ghost use Rattle.std.specs.Prelude.{◌≡◌, ℕ, true, option_map, Ok, Err, OnErr};
ghost use Rattle.std.specs.Bool.{OnFalse};
ghost use Rattle.bit_fields.specs.Bits.{field};
ghost use Rattle.profile_rows.specs.ReadResult.{read_result, entries_if};
ghost use Rattle.profile_rows.specs.Payload.{is_data, readings_by};
ghost use Rattle.profile_rows.specs.Rows.{rows_entries};
ghost use Rattle.profiles_rps.specs.Profiles.{one_bs_profile, rows_of, supported, readings_of};

use bit_fields::get;
use erp1_telegrams::{Contents, Telegram, lrn_bit};
use profile_rows::{Readings, Unreadable, read_profiles};

// Sets `readings` to what the rows of the profile D5-FUNC-TYPE read in a payload, and returns whether it has rows. The
// payload is data: its LRN bit, the condition of the rows, is 1 and is not read here.
#[tactic(auto, unfolding(crate::specs::Profiles::rows_of))]
fn read_if_supported(func: u8, typ: u8, bytes: &[u8; 1], readings: &mut Readings) -> bool
    requires { field bytes.now 4 1 ≡ 1 }
    ensures exact { (status : ℕ) → entries_if result readings.new.items
        ≡ option_map (rows_entries status bytes.now) (rows_of (one_bs_profile func typ)) }
    ensures none { OnFalse result (readings.new ≡ readings.old) }
{
    read_profiles! { readings, (func, typ), bytes, 1;
        (0x00, 0x01) => {
            "CO" (7, 1) [] words(&[(0, "open"), (1, "closed")]);
        }
    }
}

/// Whether the profile D5-FUNC-TYPE is supported. The function decodes a byte that is data and drops the readings, so
/// the code names each profile only once, in `read_if_supported`.
pub fn supports_1bs(func: u8, typ: u8) -> bool
    ensures { result ≡ supported (one_bs_profile func typ) }
{
    read_if_supported(func, typ, &[0x08], &mut Readings::new())
}

// The error for a telegram that the profile D5-FUNC-TYPE cannot read for this reason.
fn reason_if_supported(func: u8, typ: u8, reason: Unreadable) -> Unreadable
    ensures { (status : ℕ) → Err result
        ≡ readings_by (rows_entries status) (rows_of (one_bs_profile func typ)) (Err reason) }
{
    if supports_1bs(func, typ) {
        reason
    } else {
        Unreadable::NotSupported
    }
}

// Decodes the payload of a data telegram by the profile D5-FUNC-TYPE.
fn read_byte(func: u8, typ: u8, bytes: &[u8; 1], readings: &mut Readings) -> Result<(), Unreadable>
    requires { field bytes.now 4 1 ≡ 1 }
    ensures exact { (status : ℕ) → read_result result readings.new.items
        ≡ readings_by (rows_entries status) (rows_of (one_bs_profile func typ)) (Ok bytes.now) }
    ensures err { OnErr result (readings.new ≡ readings.old) }
{
    if read_if_supported(func, typ, bytes, readings) {
        Ok(())
    } else {
        Err(Unreadable::NotSupported)
    }
}

// Decodes a telegram by the profile D5-FUNC-TYPE, as `read` does.
pub(crate) fn read_1bs(
    func: u8,
    typ: u8,
    telegram: &Telegram,
    readings: &mut Readings,
) -> Result<(), Unreadable>
    ensures exact { read_result result readings.new.items ≡ readings_of (one_bs_profile func typ) telegram.now }
    ensures err { OnErr result (readings.new ≡ readings.old) }
{
    match telegram.contents() {
        Contents::OneBs(bytes) => match get::<1, { lrn_bit::ONE_BS_OFFSET }, 1>(bytes) {
            1 => read_byte(func, typ, bytes, readings),
            _ => Err(reason_if_supported(func, typ, Unreadable::OtherMessage)),
        },
        _ => Err(reason_if_supported(func, typ, Unreadable::WrongKind)),
    }
}

/// Decodes a telegram by the profile D5-FUNC-TYPE, as `read` does. The telegram is known to be data, so its LRN bit is
/// not read again.
pub fn read_1bs_data(
    func: u8,
    typ: u8,
    telegram: &Telegram,
    readings: &mut Readings,
) -> Result<(), Unreadable>
    requires { is_data telegram.now.rorg telegram.now.payload ≡ true }
    ensures exact { read_result result readings.new.items ≡ readings_of (one_bs_profile func typ) telegram.now }
    ensures err { OnErr result (readings.new ≡ readings.old) }
{
    match telegram.contents() {
        Contents::OneBs(bytes) => read_byte(func, typ, bytes, readings),
        _ => Err(reason_if_supported(func, typ, Unreadable::WrongKind)),
    }
}
