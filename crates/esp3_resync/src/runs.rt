//! The number of bytes that can be processed at once: no byte but the last of them may make a packet ready.
ghost use Rattle.std.specs.Prelude.{◌≡◌, ◌≢◌, ℕ, ◌<◌, ◌≤◌, ◌++◌, length, take, slice_index};

use crate::window::Window;
use esp3_frames::SYNC_BYTE;
use memchr::memchr;

/// Appends bytes until there are six, which may be a header, and returns their number.
pub fn push_header_bytes(window: &mut Window, bytes: &[u8]) -> usize
    requires { length window.old < 6 }
    ensures within { result ≤ length bytes.now }
    ensures some { 0 < length bytes.now → 0 < result }
    ensures taken { window.new ≡ window.old ++ take result bytes.now }
    ensures few { length window.new ≤ 6 }
{
    let count = (6 - window.len()).min(bytes.len());
    window.extend(&bytes[..count]);
    count
}

/// The number of bytes before the first sync byte: all, if there is none.
pub fn len_before_sync(bytes: &[u8]) -> usize
    ensures within { result ≤ length bytes.now }
    ensures none { (i : ℕ) → i < result → slice_index bytes.now i ≢ 0x55 }
{
    memchr(SYNC_BYTE, bytes).unwrap_or(bytes.len())
}
