//! The contents of telegrams.
ghost use Rattle.std.specs.Prelude.{◌≡◌, ◌≢◌, ◌↔◌, length, true, false, IfOk, Err, MatchResult};
ghost use Rattle.erp1_telegrams.specs.Contents.{rorg_in, payload_in, FitsRorg};
ghost use Rattle.erp1_telegrams.specs.Telegram.{payload_length_fits, is_decoded_rorg};

use crate::rorg;
use crate::telegram::TelegramFault;
use arrayvec::ArrayVec;

/// The RORG of a telegram and its payload (ISO/IEC 14543-3-10, "RORG"): a variant for each RORG, with the bytes of the
/// payload. In contracts, `rorg_in` and `payload_in` of `specs/Contents.antt` are the two.
#[derive(Clone, Debug, Drop)]
pub enum Contents {
    /// Repeated switch communication, F6.
    Rps([u8; 1]),
    /// One byte, D5.
    OneBs([u8; 1]),
    /// Four bytes, A5.
    FourBs([u8; 4]),
    /// A payload of variable length, D2: 1 to 14 bytes.
    Vld(ArrayVec<u8, 14>),
    /// Universal teach-in, D4.
    Ute([u8; 7]),
}

// The payload, of `N` bytes, or `BadLength`.
fn fixed_length_payload<const N: usize>(payload: &[u8]) -> Result<[u8; N], TelegramFault>
    ensures { MatchResult result (λ bytes. (bytes ≡ payload.now) × (length payload.now ≡ N))
        (λ fault. (fault ≡ TelegramFault.BadLength) × (length payload.now ≢ N)) }
{
    match <[u8; N]>::try_from(payload) {
        Ok(bytes) => Ok(bytes),
        Err(_) => Err(TelegramFault::BadLength),
    }
}

// The payload of VLD, or `BadLength`.
fn vld_payload(payload: &[u8]) -> Result<ArrayVec<u8, 14>, TelegramFault>
    ensures { MatchResult result
        (λ bytes. (bytes.items ≡ payload.now) × (payload_length_fits 0xD2 (length payload.now) ≡ true))
        (λ fault. (fault ≡ TelegramFault.BadLength) × (payload_length_fits 0xD2 (length payload.now) ≡ false)) }
{
    match ArrayVec::try_from(payload) {
        Ok(bytes) if !payload.is_empty() => Ok(bytes),
        _ => Err(TelegramFault::BadLength),
    }
}

impl Contents {
    // The contents with this RORG and this payload. `OtherKind` if the RORG is not one of the five, and otherwise
    // `BadLength` if the payload does not have a length of the RORG.
    pub(crate) fn new(rorg: u8, payload: &[u8]) -> Result<Contents, TelegramFault>
        ensures ok { IfOk result (λ contents. (rorg_in contents ≡ rorg) × (payload_in contents ≡ payload.now)) }
        ensures fits { IfOk result (λ contents. FitsRorg contents) }
        ensures other_kind { (result ≡ Err TelegramFault.OtherKind) ↔ (is_decoded_rorg rorg ≡ false) }
        ensures bad_length { (result ≡ Err TelegramFault.BadLength)
            ↔ ((is_decoded_rorg rorg ≡ true) × (payload_length_fits rorg (length payload.now) ≡ false)) }
        ensures no_other { result ≢ Err TelegramFault.NotRadio }
    {
        match rorg {
            rorg::RPS => Ok(Contents::Rps(fixed_length_payload(payload)?)),
            rorg::ONE_BS => Ok(Contents::OneBs(fixed_length_payload(payload)?)),
            rorg::FOUR_BS => Ok(Contents::FourBs(fixed_length_payload(payload)?)),
            rorg::VLD => Ok(Contents::Vld(vld_payload(payload)?)),
            rorg::UTE => Ok(Contents::Ute(fixed_length_payload(payload)?)),
            _ => Err(TelegramFault::OtherKind),
        }
    }

    // The RORG.
    pub(crate) fn rorg(&self) -> u8
        ensures { result ≡ rorg_in self.now }
    {
        match self {
            Contents::Rps(_) => rorg::RPS,
            Contents::OneBs(_) => rorg::ONE_BS,
            Contents::FourBs(_) => rorg::FOUR_BS,
            Contents::Vld(_) => rorg::VLD,
            Contents::Ute(_) => rorg::UTE,
        }
    }

    // The payload.
    pub(crate) fn payload(&self) -> &[u8]
        ensures { result.now ≡ payload_in self.now }
    {
        match self {
            Contents::Rps(bytes) | Contents::OneBs(bytes) => bytes,
            Contents::FourBs(bytes) => bytes,
            Contents::Vld(bytes) => bytes,
            Contents::Ute(bytes) => bytes,
        }
    }
}
