//! Reads or writes that only contracts see. They take no memory, and the functions do nothing at run time.
ghost use Rattle.std.specs.Prelude.{◌≡◌, List, [], ◌∷◌, ◌++◌};
ghost use Rattle.std.specs.Borrow.{ftrue};
ghost use Rattle.byte_io.specs.Transfers.{Transfer, transfer_of};

use crate::failed::Failed;
use std::marker::Model;

// The reads of a source, or the writes of a sink, in order.
#[derive(Drop)]
pub(crate) struct History {
    pub(crate) ghost transfers: { List Transfer },
}

impl Model for History {
    ghost also_owns = { λ _. ftrue };
}

impl History {
    pub(crate) fn new() -> History
        ensures { result.transfers ≡ [] }
    {
        History {}
    }

    // The history with one more read or write: its result, and its buffer or its text.
    pub(crate) fn with_transfer(&self, _answer: &Result<usize, Failed>, _bytes: &[u8]) -> History
        ensures { result.transfers ≡ self.now.transfers ++ transfer_of _answer.now _bytes.now ∷ [] }
    {
        History {}
    }
}
