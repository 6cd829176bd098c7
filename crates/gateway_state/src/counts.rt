//! The counters of the gateway.
ghost use Rattle.std.specs.Prelude.{◌≡◌};
ghost use Rattle.gateway_state.specs.Counts.{increment, zero_counts};

/// The counter that an input increments.
#[derive(Clone, Copy, Debug, PartialEq, Eq)]
pub enum Counter {
    /// A packet without a line for the desk.
    Ignored,
    /// A telegram that was read.
    Reading,
    /// An input that failed: out of memory, or an error of the device store.
    Failed,
    /// A response of the radio module.
    Response,
    /// A telegram for which the desk receives a teach line.
    TeachLine,
}

/// How many inputs were counted under each name since the gateway was made. A counter that has reached
/// 18446744073709551615 does not change.
#[derive(Clone, Copy, Debug, PartialEq, Eq)]
pub struct Counts {
    /// Packets without a line for the desk.
    pub ignored: u64,
    /// Packets for which the desk received a reading line.
    pub readings: u64,
    /// Packets and orders that failed: out of memory, or an error of the device store.
    pub refused: u64,
    /// Packets for which the desk received a response line.
    pub responses: u64,
    /// Packets for which the desk received a teach line.
    pub teach: u64,
}

impl Counts {
    /// All counters are 0.
    pub fn zero() -> Counts
        ensures { result ≡ zero_counts }
    {
        Counts {
            ignored: 0,
            readings: 0,
            refused: 0,
            responses: 0,
            teach: 0,
        }
    }

    /// Increments one counter.
    pub fn increment(&mut self, count: Counter)
        ensures { self.new ≡ increment self.old count }
    {
        match count {
            Counter::Ignored => self.ignored = self.ignored.saturating_add(1),
            Counter::Reading => self.readings = self.readings.saturating_add(1),
            Counter::Failed => self.refused = self.refused.saturating_add(1),
            Counter::Response => self.responses = self.responses.saturating_add(1),
            Counter::TeachLine => self.teach = self.teach.saturating_add(1),
        }
    }
}
