//! The front of a window: a part of a packet, a whole one, or bytes to skip.
ghost use Rattle.std.specs.Prelude.{◌≡◌, ◌+◌, ◌≤◌, length, MatchOption};
ghost use Rattle.std.specs.Bool.{OnTrue, OnFalse};
ghost use Rattle.esp3_frames.specs.PacketsAndRest.{front_of, packets_and_rest};
ghost use Rattle.esp3_frames.specs.PacketsAndRest;
ghost use Rattle.esp3_frames.specs.PacketsAndRest.Front.{Never, Whole};
ghost use Rattle.esp3_resync.specs.private.WindowFronts.{HasHeader, IsWindowFront, packet_at};

use crate::window::Window;
use esp3_frames::{Header, SYNC_BYTE, announces_data, read_header};

/// The front of a window at which a packet may begin.
#[derive(Clone, Copy)]
pub enum WindowFront {
    /// No byte is held.
    Empty,
    /// One to five bytes of a packet. They are all that is held.
    PartialHeader,
    /// A part of the packet with this header. It is all that is held.
    PartialPacket(Header),
    /// The whole packet with this header.
    WholePacket(Header),
}

/// The length of the data and optional data that a header announces.
pub fn announced_data_len(header: Header) -> usize
    ensures { result ≡ header.data_len + header.opt_len }
{
    header.data_len as usize + header.opt_len as usize
}

// Whether the CRC of the packet with this header is right. The window holds all bytes of the packet.
fn has_right_crc(window: &Window, header: Header) -> bool
    requires has { HasHeader window.now header }
    requires whole { header.data_len + header.opt_len + 7 ≤ length window.now }
    ensures right { OnTrue result (front_of window.now ≡ Whole (packet_at header window.now)) }
    ensures wrong { OnFalse result (front_of window.now ≡ Never) }
{
    let len = announced_data_len(header);
    window.byte_or(len + 6, 0) == window.crc_of(6, len)
}

// Whether a packet may begin with these at most five bytes. Missing bytes are assumed to be valid.
fn may_begin(window: &Window) -> bool
    ensures { result ≡ PacketsAndRest.may_begin window.now }
{
    window.byte_or(0, SYNC_BYTE) == SYNC_BYTE
        && announces_data(
            window.byte_or(1, 0),
            window.byte_or(2, 0),
            window.byte_or(3, 1),
        )
}

// The front of a window. `None` if no packet begins there, whatever follows.
fn front(window: &Window) -> Option<WindowFront>
    ensures { MatchOption result (front_of window.now ≡ Never) (λ front. IsWindowFront front window.now) }
{
    let Some(first_six) = window.first_six() else {
        return if window.is_empty() {
            Some(WindowFront::Empty)
        } else if may_begin(window) {
            Some(WindowFront::PartialHeader)
        } else {
            None
        };
    };
    let Ok(header) = read_header(&first_six) else {
        return None;
    };
    if window.len() < announced_data_len(header) + 7 {
        Some(WindowFront::PartialPacket(header))
    } else if has_right_crc(window, header) {
        Some(WindowFront::WholePacket(header))
    } else {
        None
    }
}

/// Skips bytes until a packet may begin at the front, and returns the front.
pub fn resync(window: &mut Window) -> WindowFront
    ensures packets { packets_and_rest window.new ≡ packets_and_rest window.old }
    ensures front { IsWindowFront result window.new }
{
    loop {
        match front(window) {
            Some(front) => return front,
            None => window.skip_to_next_sync(),
        }
    }
}

/// Does what `resync` does, for a window that begins with this header and holds all bytes of its packet. The header is
/// not read again.
pub fn resync_whole(window: &mut Window, header: Header) -> WindowFront
    requires has { HasHeader window.old header }
    requires whole { header.data_len + header.opt_len + 7 ≤ length window.old }
    ensures packets { packets_and_rest window.new ≡ packets_and_rest window.old }
    ensures front { IsWindowFront result window.new }
{
    if has_right_crc(window, header) {
        return WindowFront::WholePacket(header);
    }
    window.skip_to_next_sync();
    resync(window)
}
