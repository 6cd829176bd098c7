//! The answer of the gateway to an input.
ghost use Rattle.std.specs.Prelude.{◌≡◌};
ghost use Rattle.gateway_core.specs.Desks.{desk_bytes};

use arrayvec::ArrayVec;
use json_lines::Line;

/// The text for the desk.
#[derive(Drop)]
pub enum DeskText {
    /// Nothing.
    Nothing,
    /// A text that never changes.
    Fixed(&'static [u8]),
    /// A line that was built for this input.
    Owned(Line),
}

/// The answer to an input.
#[derive(Drop)]
pub struct Reply {
    /// The bytes to send by radio, as a serial packet.
    pub radio: Option<ArrayVec<u8, 64>>,
    /// The text for the desk.
    pub desk: DeskText,
}

impl DeskText {
    /// The bytes of the text for the desk: no line, one, or several.
    pub fn as_bytes(&self) -> &[u8]
        ensures { result.now ≡ desk_bytes self.now }
    {
        match self {
            DeskText::Nothing => &[],
            DeskText::Fixed(text) => text,
            DeskText::Owned(line) => line.as_bytes(),
        }
    }
}
