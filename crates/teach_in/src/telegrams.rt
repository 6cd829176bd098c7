//! The role of a telegram in teach-in.
ghost use Rattle.std.specs.Prelude.{◌≡◌};
ghost use Rattle.teach_in.specs.Telegrams.{four_byte_role, one_byte_role, teach_in_of, ute_role};

use crate::four_byte::FourByteQuery;
use crate::ute::UteQuery;
use bit_fields::get;
use erp1_telegrams::{Contents, Telegram, lrn_bit};

/// The role of a telegram in teach-in.
///
/// EnOcean Equipment Profiles 2.6, "Teach-in process".
#[derive(Clone, Copy, Debug, PartialEq, Eq)]
pub enum Teach {
    /// Data.
    Plain,
    /// A 1BS teach-in telegram, which contains nothing else.
    Contact,
    /// A 4BS teach-in telegram without a profile (variation 1).
    Bare,
    /// A 4BS teach-in telegram with its profile and maker.
    FourByte(FourByteQuery),
    /// A UTE query.
    Ute(UteQuery),
    /// A reply to a teach-in telegram.
    Answer,
}

// The role of a 1BS telegram with this byte.
fn one_byte_role(bytes: &[u8; 1]) -> Teach
    ensures { result ≡ one_byte_role bytes.now }
{
    match get::<1, { lrn_bit::ONE_BS_OFFSET }, 1>(bytes) {
        0 => Teach::Contact,
        _ => Teach::Plain,
    }
}

// The role of a 4BS telegram of this sender with these bytes.
fn four_byte_role(id: u32, bytes: &[u8; 4]) -> Teach
    ensures { result ≡ four_byte_role id bytes.now }
{
    match (
        get::<4, { lrn_bit::FOUR_BS_OFFSET }, 1>(bytes),
        get::<4, 24, 1>(bytes),
        get::<4, 27, 1>(bytes),
    ) {
        (1, _, _) => Teach::Plain,
        (_, 0, _) => Teach::Bare,
        (_, _, 0) => Teach::FourByte(FourByteQuery::new(id, bytes)),
        _ => Teach::Answer,
    }
}

// The role of a UTE telegram of this sender with these bytes.
fn ute_role(id: u32, bytes: &[u8; 7]) -> Teach
    ensures { result ≡ ute_role id bytes.now }
{
    match get::<7, 4, 4>(bytes) {
        0 => Teach::Ute(UteQuery::new(id, bytes)),
        _ => Teach::Answer,
    }
}

/// The role of a telegram in teach-in.
pub fn classify(telegram: &Telegram) -> Teach
    ensures { result ≡ teach_in_of telegram.now }
{
    match telegram.contents() {
        Contents::OneBs(bytes) => one_byte_role(bytes),
        Contents::FourBs(bytes) => four_byte_role(telegram.sender(), bytes),
        Contents::Ute(bytes) => ute_role(telegram.sender(), bytes),
        Contents::Rps(_) | Contents::Vld(_) => Teach::Plain,
    }
}
