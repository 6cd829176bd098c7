//! 4BS teach-in with a profile, and the replies to it.
ghost use Rattle.std.specs.Prelude.{◌≡◌, true, Some, IsSome};
ghost use Rattle.erp1_telegrams.specs.Address.{is_base_id};
ghost use Rattle.teach_in.specs.FourByte.{four_byte_reply_code, four_byte_reply, query_of};

use crate::outcome::Outcome;
use crate::reply::addressed_reply;
use crate::verdict::Verdict;
use bit_fields::get;
use erp1_telegrams::{Contents, Eep, Telegram, is_base_id, rorg};

/// A 4BS teach-in telegram with its sender's profile and maker.
///
/// EnOcean Equipment Profiles 2.6, "4BS Telegram", variations 2 and 3.
#[derive(Clone, Copy, Debug, PartialEq, Eq)]
pub struct FourByteQuery {
    pub(crate) id: u32,
    pub(crate) eep: Eep,
    pub(crate) maker: u16,
    pub(crate) payload: [u8; 4],
}

impl FourByteQuery {
    // The query of this sender with these bytes.
    pub(crate) fn new(id: u32, bytes: &[u8; 4]) -> FourByteQuery
        ensures { result ≡ query_of id bytes.now }
    {
        let func = get::<4, 0, 6>(bytes) as u8;
        let typ = get::<4, 6, 7>(bytes) as u8;
        FourByteQuery {
            id,
            eep: Eep::new(rorg::FOUR_BS, func, typ),
            maker: get::<4, 13, 11>(bytes) as u16,
            payload: *bytes,
        }
    }

    /// The sender.
    pub fn id(&self) -> u32
        ensures { result ≡ self.now.id }
    {
        self.id
    }

    /// Its profile, of the RORG A5.
    pub fn eep(&self) -> Eep
        ensures { result ≡ self.now.eep }
    {
        self.eep
    }

    /// Its manufacturer ID, 0 to 2047.
    pub fn maker(&self) -> u16
        ensures { result ≡ self.now.maker }
    {
        self.maker
    }
}

// DB0 of a reply with this outcome.
fn four_byte_reply_code(outcome: Outcome) -> u8
    requires { IsSome (four_byte_reply_code outcome) }
    ensures { Some result ≡ four_byte_reply_code outcome }
{
    match outcome {
        Outcome::Accepted => 0xF0,
        Outcome::Unsupported => 0x90,
        Outcome::Full => 0xD0,
        _ => unreachable!(),
    }
}

/// The reply to a query, given the verdict on its sender: addressed to that sender, from the base ID, with the query's
/// bytes except for DB0. `base` is a base ID, and the outcome is `Accepted`, `Unsupported` or `Full`.
///
/// EnOcean Equipment Profiles 2.6, "4BS Telegram", variation 3.
pub fn four_byte_reply(query: &FourByteQuery, verdict: &Verdict, base: u32) -> Telegram
    requires id { verdict.now.id ≡ query.now.id }
    requires outcome { IsSome (four_byte_reply_code verdict.now.outcome) }
    requires base { is_base_id base ≡ true }
    ensures { Some result ≡ four_byte_reply query.now verdict.now.outcome base }
{
    prove!(verdict.id() == query.id() && is_base_id(base));
    let [db3, db2, db1, _] = query.payload;
    let payload = [db3, db2, db1, four_byte_reply_code(verdict.outcome())];
    addressed_reply(Contents::FourBs(payload), query.id(), base)
}
