//! Sources of bytes.
ghost use Rattle.std.specs.Prelude.{◌≡◌, ◌≤◌, ◌<◌, ℕ, List, [], ◌∷◌, ◌++◌, Option, IfOk, length};
ghost use Rattle.std.specs.Io.KnownBytes.{ReadConsumes};
ghost use Rattle.byte_io.specs.ReadLimit.{max_read};
ghost use Rattle.byte_io.specs.Transfers.{Transfer, transfer_of};

use crate::failed::Failed;
use crate::history::History;
use std::io::Read;

/// A source of bytes.
pub trait Source {
    /// The reads so far, in order, also those that failed.
    ghost reads: { Self → List Transfer };

    /// The bytes that later reads will return, if they are known.
    ghost left: { Self → Option (List ℕ) };

    /// Reads some bytes into the front of the buffer, which is 1 to `MAX_READ` bytes long, and returns their number. 0
    /// means that none is left, or, for a terminal, which may receive more later, that none came in time. After
    /// `Failed` nothing is lost: no byte was read from the source.
    fn read(&mut self, buffer: &mut [u8]) -> Result<usize, Failed>
        requires { (0 < length buffer.old) × (length buffer.old ≤ max_read) }
        ensures within { IfOk result (λ n. n ≤ length buffer.new) }
        ensures bytes { ReadConsumes (left self.old) (left self.new) result buffer.new }
        ensures listed { reads self.new ≡ reads self.old ++ transfer_of result buffer.new ∷ [] };
}

/// A source over a reader of `std`.
#[derive(Drop)]
pub struct OverRead<R> {
    reader: R,
    history: History,
}

impl<R: Read> OverRead<R> {
    /// A source that has made no read of this reader yet.
    pub fn new(reader: R) -> OverRead<R>
        ensures bytes { ⟦<OverRead<R> as Source>⟧.left result ≡ R.remaining reader }
        ensures fresh { ⟦<OverRead<R> as Source>⟧.reads result ≡ [] }
    {
        OverRead {
            reader,
            history: History::new(),
        }
    }
}

impl<R: Read> Source for OverRead<R> {
    ghost reads = { λ source. source.history.transfers };

    ghost left = { λ source. R.remaining source.reader };

    fn read(&mut self, buffer: &mut [u8]) -> Result<usize, Failed> {
        let answer = self.reader.read(buffer).map_err(|_| Failed);
        self.history = self.history.with_transfer(&answer, buffer);
        answer
    }
}
