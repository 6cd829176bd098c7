//! The learn modes of the gateway.
use erp1_telegrams::Eep;

/// The learn mode: the telegrams from which the gateway learns. A gateway begins closed, and the desk opens and closes
/// it. Own choice.
#[derive(Clone, Copy, Debug, PartialEq, Eq)]
pub enum Mode {
    /// None.
    Closed,
    /// Teach-in telegrams: 1BS, and those with a supported profile. A telegram that asks for its deletion forgets the
    /// sender. UTE queries are answered if they wait for a reply.
    Learn,
    /// The same, and 4BS queries are answered too.
    LearnAnswer,
    /// The next sender is learned with this profile, by a teach-in telegram of its kind, or by data of RPS or VLD.
    LearnAs(Eep),
}
