//! The verdict on a sender.
ghost use Rattle.std.specs.Prelude.{◌≡◌, ◌≢◌, MatchBool};

use crate::outcome::Outcome;
use learned_devices::Receipt;

/// The outcome for a sender. That it was learned or forgotten requires the receipt of the update, so the update is
/// committed.
#[derive(Drop)]
pub struct Verdict {
    id: u32,
    outcome: Outcome,
}

impl Verdict {
    /// The verdict on an update that is committed.
    pub fn committed<S>(receipt: Receipt<S>) -> Verdict
        ensures id { result.id ≡ receipt.id }
        ensures outcome { MatchBool receipt.is_learned (result.outcome ≡ Outcome.Accepted)
            (result.outcome ≡ Outcome.Deleted) }
    {
        let (id, is_learned) = receipt.spend();
        let outcome = if is_learned {
            Outcome::Accepted
        } else {
            Outcome::Deleted
        };
        Verdict { id, outcome }
    }

    /// The verdict if nothing changes: the outcome is neither `Accepted` nor `Deleted`.
    pub fn refused(id: u32, outcome: Outcome) -> Verdict
        requires accepted { outcome ≢ Outcome.Accepted }
        requires deleted { outcome ≢ Outcome.Deleted }
        ensures id { result.id ≡ id }
        ensures outcome { result.outcome ≡ outcome }
    {
        prove!(outcome != Outcome::Accepted && outcome != Outcome::Deleted);
        Verdict { id, outcome }
    }

    /// The sender.
    pub fn id(&self) -> u32
        ensures { result ≡ self.now.id }
    {
        self.id
    }

    /// The outcome.
    pub fn outcome(&self) -> Outcome
        ensures { result ≡ self.now.outcome }
    {
        self.outcome
    }
}
