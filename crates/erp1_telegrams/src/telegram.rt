//! Telegrams, received or to be sent.
ghost use Rattle.std.specs.Prelude.{◌≡◌, ◌≢◌, ◌↔◌, length, true, false, IsTrue, IfOk, Err};
ghost use Rattle.erp1_telegrams.specs.Telegram.{payload_length_fits, is_decoded_rorg};
ghost use Rattle.erp1_telegrams.specs.Contents.{rorg_in, payload_in, FitsRorg};

use crate::contents::Contents;
use crate::rorg;
use std::marker::Model;
use thiserror::Error;

/// The destination of a broadcast (EnOcean Serial Protocol 3, "Packet type 1: RADIO_ERP1").
pub const BROADCAST: u32 = 0xFFFF_FFFF;

/// Why there is no telegram.
#[derive(Clone, Copy, Debug, PartialEq, Eq, Error)]
pub enum TelegramFault {
    /// The packet is not of the type RADIO_ERP1.
    #[error("no radio packet")]
    NotRadio,
    /// The RORG is not RPS, 1BS, 4BS, VLD or UTE.
    #[error("a telegram of another kind")]
    OtherKind,
    /// The payload does not have a length of the telegram's RORG, or the data ends before the sender ID or the status.
    #[error("a telegram of a wrong length")]
    BadLength,
}

/// A telegram (ISO/IEC 14543-3-10) with one of the five RORGs, and a payload with a length of that RORG. In contracts
/// it is the record `Telegram` of `specs/Telegram.antt`.
#[derive(Clone, Debug, Drop)]
pub struct Telegram {
    contents: Contents,
    sender: u32,
    status: u8,
    dest: u32,
    dbm: Option<u8>,
}

impl Model for Telegram {
    ghost use Rattle.erp1_telegrams.specs.Telegram.{Telegram as Said};
    ghost use Rattle.erp1_telegrams.specs.Contents.{rorg_in, payload_in, FitsRorg};

    ghost Value = { Said };

    ghost view = { λ t. record {
      rorg = rorg_in t.contents;
      payload = payload_in t.contents;
      sender = t.sender;
      status = t.status;
      dest = t.dest;
      dbm = t.dbm;
    } };

    ghost invariant = { λ t. FitsRorg t.contents };
}

impl Telegram {
    /// A telegram with these parts, to be sent. The IDs have 32 bits, and dBm is given without its minus sign.
    /// `OtherKind` if the RORG is not one of the five, and otherwise `BadLength` if the payload does not have a length
    /// of the RORG.
    pub fn new(
        rorg: u8,
        payload: &[u8],
        sender: u32,
        status: u8,
        dest: u32,
        dbm: Option<u8>,
    ) -> Result<Telegram, TelegramFault>
        ensures ok { IfOk result (λ t. t ≡ record {
          rorg = rorg;
          payload = payload.now;
          sender = sender;
          status = status;
          dest = dest;
          dbm = dbm;
        }) }
        ensures other_kind { (result ≡ Err TelegramFault.OtherKind) ↔ (is_decoded_rorg rorg ≡ false) }
        ensures bad_length { (result ≡ Err TelegramFault.BadLength)
            ↔ ((is_decoded_rorg rorg ≡ true) × (payload_length_fits rorg (length payload.now) ≡ false)) }
        ensures no_other { result ≢ Err TelegramFault.NotRadio }
    {
        let contents = Contents::new(rorg, payload)?;
        Ok(Telegram::with_contents(contents, sender, status, dest, dbm))
    }

    /// A telegram with these contents and these parts, to be sent: as `new` makes it, but without an error. A payload
    /// of VLD has at least one byte (ISO/IEC 14543-3-10, "RORG").
    pub fn with_contents(
        contents: Contents,
        sender: u32,
        status: u8,
        dest: u32,
        dbm: Option<u8>,
    ) -> Telegram
        requires { FitsRorg contents }
        ensures { result ≡ record {
          rorg = rorg_in contents;
          payload = payload_in contents;
          sender = sender;
          status = status;
          dest = dest;
          dbm = dbm;
        } }
    {
        Telegram {
            contents,
            sender,
            status,
            dest,
            dbm,
        }
    }

    /// The RORG and the payload in one value, so that one `match` decides on both (ISO/IEC 14543-3-10, "RORG").
    pub fn contents(&self) -> &Contents
        ensures rorg { rorg_in result.now ≡ self.now.rorg }
        ensures payload { payload_in result.now ≡ self.now.payload }
        ensures fits { FitsRorg result.now }
    {
        &self.contents
    }

    /// The RORG: F6 is RPS, D5 1BS, A5 4BS, D2 VLD and D4 UTE (ISO/IEC 14543-3-10, "RORG").
    pub fn rorg(&self) -> u8
        ensures { result ≡ self.now.rorg }
    {
        self.contents.rorg()
    }

    /// The payload: 1 byte for RPS and 1BS, 4 bytes for 4BS, 1 to 14 bytes for VLD, and 7 bytes for UTE.
    pub fn payload(&self) -> &[u8]
        ensures value { result.now ≡ self.now.payload }
        ensures length_fits { IsTrue (payload_length_fits self.now.rorg (length self.now.payload)) }
    {
        self.contents.payload()
    }

    /// The ID of the device that sent it.
    pub fn sender(&self) -> u32
        ensures { result ≡ self.now.sender }
    {
        self.sender
    }

    /// The status byte: the repeater count in its low four bits, and for RPS the bits T21 and NU (ISO/IEC 14543-3-10,
    /// "Status").
    pub fn status(&self) -> u8
        ensures { result ≡ self.now.status }
    {
        self.status
    }

    /// The ID of the device that it is addressed to, or `BROADCAST`.
    pub fn dest(&self) -> u32
        ensures { result ≡ self.now.dest }
    {
        self.dest
    }

    /// The signal strength in dBm without the minus sign: 45 is -45 dBm. `None` if the packet did not contain it.
    pub fn dbm(&self) -> Option<u8>
        ensures { result ≡ self.now.dbm }
    {
        self.dbm
    }
}

// Whether telegrams with this RORG are read.
pub(crate) fn is_decoded_rorg(rorg: u8) -> bool
    ensures { result ≡ is_decoded_rorg rorg }
{
    matches!(
        rorg,
        rorg::RPS | rorg::ONE_BS | rorg::FOUR_BS | rorg::VLD | rorg::UTE
    )
}
