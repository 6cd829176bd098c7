//! Sinks: outputs for bytes.
ghost use Rattle.std.specs.Prelude.{◌≡◌, ◌≤◌, ◌<◌, ℕ, List, [], ◌∷◌, ◌++◌, Option, IfOk, length};
ghost use Rattle.std.specs.Io.KnownBytes.{WriteAppends};
ghost use Rattle.byte_io.specs.Transfers.{Transfer, transfer_of};

use crate::failed::Failed;
use crate::history::History;
use std::io::Write;

/// An output for bytes.
pub trait Sink {
    /// The writes so far, in order, also those that failed.
    ghost writes: { Self → List Transfer };

    /// All bytes that it holds, if they are known.
    ghost held: { Self → Option (List ℕ) };

    /// Writes some prefix of the text, perhaps an empty one, and returns its length. The text is not empty. After
    /// `Failed` it has accepted nothing.
    fn write(&mut self, text: &[u8]) -> Result<usize, Failed>
        requires { 0 < length text.now }
        ensures within { IfOk result (λ n. n ≤ length text.now) }
        ensures bytes { WriteAppends (held self.old) (held self.new) result text.now }
        ensures listed { writes self.new ≡ writes self.old ++ transfer_of result text.now ∷ [] };
}

/// A sink over a writer of `std`.
#[derive(Drop)]
pub struct OverWrite<W> {
    writer: W,
    history: History,
}

impl<W: Write> OverWrite<W> {
    /// A sink that has made no write to this writer yet.
    pub fn new(writer: W) -> OverWrite<W>
        ensures bytes { ⟦<OverWrite<W> as Sink>⟧.held result ≡ W.contents writer }
        ensures fresh { ⟦<OverWrite<W> as Sink>⟧.writes result ≡ [] }
    {
        OverWrite {
            writer,
            history: History::new(),
        }
    }
}

impl<W: Write> Sink for OverWrite<W> {
    ghost writes = { λ sink. sink.history.transfers };

    ghost held = { λ sink. W.contents sink.writer };

    fn write(&mut self, text: &[u8]) -> Result<usize, Failed> {
        let answer = self.writer.write(text).map_err(|_| Failed);
        self.history = self.history.with_transfer(&answer, text);
        answer
    }
}
