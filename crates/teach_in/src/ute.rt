//! UTE (universal teach-in): queries that teach devices in and out, and the replies to them.
ghost use Rattle.std.specs.Prelude.{◌≡◌, true, ◌==◌, ◌<◌, Some, IsSome};
ghost use Rattle.erp1_telegrams.specs.Address.{is_base_id};
ghost use Rattle.teach_in.specs.Ute.{query_of, reply_first_byte, request_in, ute_reply_code, ute_reply, wants_reply};

use crate::outcome::Outcome;
use crate::reply::addressed_reply;
use crate::verdict::Verdict;
use bit_fields::get;
use erp1_telegrams::{Contents, Eep, Telegram, is_base_id};

/// A UTE query, with its sender's profile and maker, and its request.
///
/// EnOcean Equipment Profiles 2.6, "Universal Uni- and Bidirectional Teach-in".
#[derive(Clone, Copy, Debug, PartialEq, Eq)]
pub struct UteQuery {
    pub(crate) id: u32,
    pub(crate) eep: Eep,
    pub(crate) maker: u16,
    pub(crate) payload: [u8; 7],
}

// The request to forget the sender.
pub(crate) const DELETION_REQUEST: u32 = 1;

// The request that is not in use.
pub(crate) const UNUSED_REQUEST: u32 = 3;

impl UteQuery {
    // The query of this sender with these bytes.
    pub(crate) fn new(id: u32, bytes: &[u8; 7]) -> UteQuery
        ensures { result ≡ query_of id bytes.now }
    {
        let rorg = get::<7, 48, 8>(bytes) as u8;
        let func = get::<7, 40, 8>(bytes) as u8;
        let typ = get::<7, 32, 8>(bytes) as u8;
        let high = get::<7, 29, 3>(bytes);
        let low = get::<7, 16, 8>(bytes);
        UteQuery {
            id,
            eep: Eep::new(rorg, func, typ),
            maker: (256 * high + low) as u16,
            payload: *bytes,
        }
    }

    /// The sender.
    pub fn id(&self) -> u32
        ensures { result ≡ self.now.id }
    {
        self.id
    }

    /// Its profile.
    pub fn eep(&self) -> Eep
        ensures { result ≡ self.now.eep }
    {
        self.eep
    }

    /// Its manufacturer ID, 0 to 2047.
    pub fn maker(&self) -> u16
        ensures { result ≡ self.now.maker }
    {
        self.maker
    }

    /// Whether it waits for a reply.
    pub fn wants_reply(&self) -> bool
        ensures { result ≡ wants_reply self.now }
    {
        get::<7, 1, 1>(&self.payload) == 0
    }

    // Its request: `DELETION_REQUEST`, `UNUSED_REQUEST`, or any other, which asks to learn the sender.
    pub(crate) fn request(&self) -> u32
        ensures { result ≡ request_in self.now }
    {
        get::<7, 2, 2>(&self.payload)
    }
}

// DB6.5 and DB6.4 of a reply with this outcome.
fn ute_reply_code(outcome: Outcome) -> u32
    requires { IsSome (ute_reply_code outcome) }
    ensures code { Some result ≡ ute_reply_code outcome }
    ensures fits { result < 4 }
{
    match outcome {
        Outcome::Accepted => 1,
        Outcome::Deleted => 2,
        Outcome::Unsupported => 3,
        Outcome::Full | Outcome::General => 0,
        Outcome::NoProfile => unreachable!(),
    }
}

// DB6 of a reply with this code.
fn reply_first_byte(query: &UteQuery, code: u32) -> u8
    requires { code < 4 }
    ensures { result ≡ reply_first_byte query.now code }
{
    (128 * get::<7, 0, 1>(&query.payload) + 16 * code + 1) as u8
}

/// The reply to a query, given the verdict on its sender: addressed to that sender, from the base ID, with the query's
/// bytes except for DB6. `base` is a base ID, and the outcome is any except `NoProfile`. `wants_reply` returns whether
/// the query waits for a reply.
///
/// EnOcean Equipment Profiles 2.6, "Universal Uni- and Bidirectional Teach-in".
pub fn ute_reply(query: &UteQuery, verdict: &Verdict, base: u32) -> Telegram
    requires id { verdict.now.id ≡ query.now.id }
    requires outcome { IsSome (ute_reply_code verdict.now.outcome) }
    requires base { is_base_id base ≡ true }
    ensures { Some result ≡ ute_reply query.now verdict.now.outcome base }
{
    prove!(verdict.id() == query.id() && is_base_id(base));
    let [_, db5, db4, db3, db2, db1, db0] = query.payload;
    let db6 = reply_first_byte(query, ute_reply_code(verdict.outcome()));
    let payload = [db6, db5, db4, db3, db2, db1, db0];
    addressed_reply(Contents::Ute(payload), query.id(), base)
}
