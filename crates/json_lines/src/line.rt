//! A line of text.

ghost use Rattle.std.specs.Prelude.{◌≡◌, ◌++◌, [], IfOk, OnOk};
ghost use Rattle.json_lines.specs.private.LineData.{IsLineOf};

use serde::Serialize;
use std::alloc::{AllocError, Global};
use std::marker::Model;

/// One or more lines for the desk: the bytes of one JSON object each, and a line feed after it.
#[derive(Drop)]
pub struct Line {
    bytes: Vec<u8>,
}

impl Model for Line {
    ghost use Rattle.std.specs.Prelude.{List, ℕ};

    ghost Value = { List ℕ };

    ghost view = { λ line. line.bytes.items };
}

impl Line {
    // No line yet.
    pub(crate) fn empty(alloc: Global) -> Line
        ensures { result ≡ [] }
    {
        Line {
            bytes: Vec::new(alloc),
        }
    }

    pub(crate) fn new(bytes: Vec<u8>) -> Line
        ensures { result ≡ bytes.items }
    {
        Line { bytes }
    }

    pub(crate) fn append(&mut self, other: &Line) -> Result<(), AllocError>
        ensures { OnOk result (self.new ≡ self.old ++ other.now) }
    {
        self.bytes.extend_from_slice(other.bytes.as_slice())?;
        Ok(())
    }

    /// The bytes, with a line feed at the end of each line.
    pub fn as_bytes(&self) -> &[u8]
        ensures { result.now ≡ self.now }
    {
        self.bytes.as_slice()
    }
}

// The line of a value that serializes itself. serde_json has other errors than out of memory, and no postcondition
// excludes them here, so any error is returned as out of memory.
pub(crate) fn line_of<T: Serialize>(alloc: Global, object: &T) -> Result<Line, AllocError>
    ensures { IfOk result (IsLineOf (T.writes object.now)) }
{
    match serde_json::to_vec(alloc, object) {
        Ok(mut bytes) => {
            bytes.push(b'\n')?;
            Ok(Line::new(bytes))
        }
        Err(_) => Err(AllocError),
    }
}
