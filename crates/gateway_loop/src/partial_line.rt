//! A partial line.
ghost use Rattle.std.specs.Prelude.{◌≡◌, [], ◌++◌, take};
ghost use Rattle.gateway_loop.specs.private.Lines.{max_partial_line};

use crate::line_limits::MAX_PARTIAL_LINE;
use arrayvec::ArrayVec;
use std::marker::Model;

/// A partial line, truncated to `MAX_PARTIAL_LINE` bytes.
#[derive(Drop)]
pub struct PartialLine {
    bytes: ArrayVec<u8, MAX_PARTIAL_LINE>,
}

impl Model for PartialLine {
    ghost use Rattle.std.specs.Prelude.{◌≤◌, List, ℕ, length};
    ghost use Rattle.gateway_loop.specs.private.Lines.{max_partial_line};

    ghost Value = { List ℕ };

    ghost view = { λ line. line.bytes.items };

    ghost invariant = { λ line. length line.bytes.items ≤ max_partial_line };
}

impl PartialLine {
    pub fn new() -> PartialLine
        ensures { result ≡ [] }
    {
        PartialLine {
            bytes: ArrayVec::new(),
        }
    }

    /// Appends the next bytes, and drops those that do not fit.
    pub fn extend(&mut self, bytes: &[u8])
        ensures { self.new ≡ take max_partial_line (self.old ++ bytes.now) }
    {
        let room = MAX_PARTIAL_LINE - self.bytes.len();
        let _fits = self
            .bytes
            .try_extend_from_slice(&bytes[..room.min(bytes.len())]);
    }

    pub fn clear(&mut self)
        ensures { self.new ≡ [] }
    {
        self.bytes.clear();
    }

    pub fn as_slice(&self) -> &[u8]
        ensures { result.now ≡ self.now }
    {
        self.bytes.as_slice()
    }
}
