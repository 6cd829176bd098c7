//! The bytes that a framer holds, in a ring, with a running CRC for each.
ghost use Rattle.std.specs.Prelude.{◌≡◌, ℕ, ◌+◌, ◌<◌, ◌≤◌, List, [], ◌++◌, length, take, drop};
ghost use Rattle.std.specs.Prelude.{slice_index, slice_index_or, vec_capacity, ◌==◌, IfOk, MatchOption};
ghost use Rattle.esp3_frames.specs.Check.{check};
ghost use Rattle.esp3_frames.specs.Packet.{max_packet};
ghost use Rattle.esp3_resync.specs.private.RunningCrcs.{HasRunningCrcs, crc_capacity};
ghost use Rattle.esp3_resync.specs.private.WindowFronts.{ReachesSync};

use circular_buffer::HeapCircularBuffer;
use esp3_frames::{MAX_PACKET, SYNC_BYTE, check8_between, check8_next};
use memchr::memchr;
use std::alloc::{AllocError, Global};
use std::marker::Model;

// The minimum number of bytes between two moves of the CRCs.
const MIN_BYTES_BETWEEN_CRC_MOVES: usize = 8192;

// The number of bytes whose CRCs can be stored. There is one more slot, for the CRC of all bytes.
const CRC_CAPACITY: usize = MAX_PACKET + MIN_BYTES_BETWEEN_CRC_MOVES;

// Continues a running CRC over some bytes: `crcs` has at `at` the CRC of all bytes before them, and gets the CRC of
// all bytes up to each of them.
fn record_crcs(crcs: &mut [u8], at: usize, bytes: &[u8])
    requires { at + length bytes.now < length crcs.old }
    ensures len { length crcs.new ≡ length crcs.old }
    ensures crcs_are_running { (gone w : List ℕ) (start : ℕ) → at ≡ start + length w
        → HasRunningCrcs gone w start crcs.old →
        HasRunningCrcs gone (w ++ bytes.now) start crcs.new }
{
    let mut all = crcs[at];
    for i in 0..bytes.len() {
        all = check8_next(all, bytes[i]);
        crcs[at + i + 1] = all;
    }
}

// Moves the CRCs of `len` held bytes from `start` on to the front, if those of `count` more bytes do not fit. Returns
// their new start.
fn make_room(crcs: &mut Vec<u8>, start: usize, len: usize, count: usize) -> usize
    requires within { start + len < length crcs.old.items }
    requires few { len + count ≤ max_packet }
    requires most { start + len ≤ crc_capacity }
    ensures room { result + len + count ≤ crc_capacity }
    ensures slots { result + len < length crcs.new.items }
    ensures same { (i : ℕ) → i ≤ len →
        slice_index crcs.new.items (result + i) ≡ slice_index crcs.old.items (start + i) }
    ensures capacity { vec_capacity crcs.old ≤ vec_capacity crcs.new }
{
    if start + len + count <= CRC_CAPACITY {
        return start;
    }
    crcs.copy_within(start.., 0);
    0
}

// Extends `crcs` to at least `count` entries, within its capacity. Memory is therefore not written to before as many
// bytes have come.
fn make_crc_slots(crcs: &mut Vec<u8>, count: usize)
    requires { count ≤ vec_capacity crcs.old }
    ensures enough { count ≤ length crcs.new.items }
    ensures same { (i : ℕ) → i < length crcs.old.items →
        slice_index crcs.new.items i ≡ slice_index crcs.old.items i }
    ensures more { length crcs.old.items ≤ length crcs.new.items }
    ensures capacity { vec_capacity crcs.old ≤ vec_capacity crcs.new }
{
    if crcs.len() < count {
        let _has_room = crcs.resize(count, 0);
    }
}

// The number of bytes before the first sync byte of two slices, one after the other: all, if there is none.
fn len_before_sync_in_two(front: &[u8], back: &[u8]) -> usize
    requires { length front.now + length back.now ≤ max_packet }
    ensures within { result ≤ length front.now + length back.now }
    ensures stops { ReachesSync (front.now ++ back.now) (drop result (front.now ++ back.now)) }
{
    match memchr(SYNC_BYTE, front) {
        Some(place) => place,
        None => front.len() + memchr(SYNC_BYTE, back).unwrap_or(back.len()),
    }
}

/// The held bytes, at most as many as the longest packet has. They are appended at the end and dropped at the front.
///
/// For each byte, the CRC of all bytes before it is stored. The CRC of any part therefore takes the same few steps,
/// whatever its length, and a rejected packet is only searched for the next sync byte.
#[derive(Drop)]
pub struct Window {
    bytes: HeapCircularBuffer<u8>,
    // `crcs[start + i]` is the CRC of all bytes before the held byte at index `i`; after the last one, that of all.
    crcs: Vec<u8>,
    start: usize,
}

impl Model for Window {
    ghost use Rattle.std.specs.Prelude.{ℕ, List};
    ghost use Rattle.esp3_resync.specs.private.RunningCrcs.{HasHeldBytesAndCrcs};

    ghost Value = { List ℕ };

    ghost view = { λ w. w.bytes.items };

    ghost invariant = { λ w. HasHeldBytesAndCrcs w.bytes w.crcs w.start };
}

impl Window {
    /// An empty window. Allocates all the memory that it will ever use; fails if there is none.
    pub fn new(alloc: Global) -> Result<Window, AllocError>
        ensures { IfOk result (λ w. w ≡ []) }
    {
        let bytes = HeapCircularBuffer::with_capacity(alloc, MAX_PACKET)?;
        let mut crcs = Vec::with_capacity(alloc, CRC_CAPACITY + 1)?;
        crcs.push(0)?;
        Ok(Window {
            bytes,
            crcs,
            start: 0,
        })
    }

    /// The number of held bytes.
    pub fn len(&self) -> usize
        ensures len { result ≡ length self.now }
        ensures within { result ≤ max_packet }
    {
        self.bytes.len()
    }

    /// Whether no byte is held.
    pub fn is_empty(&self) -> bool
        ensures { result ≡ (length self.now == 0) }
    {
        self.bytes.is_empty()
    }

    /// The byte at index `i` from the front, or `other` if there is none.
    pub fn byte_or(&self, i: usize, other: u8) -> u8
        ensures { result ≡ slice_index_or self.now i other }
    {
        self.bytes.get(i).copied().unwrap_or(other)
    }

    /// The first six bytes, if there are as many.
    pub fn first_six(&self) -> Option<[u8; 6]>
        ensures { MatchOption result (length self.now < 6) (λ six. (6 ≤ length self.now) × (six ≡ take 6 self.now)) }
    {
        let (front, _) = self.bytes.as_slices();
        if let Some(six) = front.first_chunk::<6>() {
            return Some(*six);
        }
        if self.bytes.len() < 6 {
            return None;
        }
        Some([
            self.byte_or(0, 0),
            self.byte_or(1, 0),
            self.byte_or(2, 0),
            self.byte_or(3, 0),
            self.byte_or(4, 0),
            self.byte_or(5, 0),
        ])
    }

    /// The CRC of the `len` bytes from index `from` on.
    pub fn crc_of(&self, from: usize, len: usize) -> u8
        requires { from + len ≤ length self.now }
        ensures { result ≡ check (take len (drop from self.now)) }
    {
        let place = self.start + from;
        check8_between(self.crcs[place], self.crcs[place + len], len)
    }

    /// Appends some bytes.
    pub fn extend(&mut self, bytes: &[u8])
        requires { length self.old + length bytes.now ≤ max_packet }
        ensures { self.new ≡ self.old ++ bytes.now }
    {
        let held = self.bytes.len();
        self.start = make_room(&mut self.crcs, self.start, held, bytes.len());
        let end = self.start + held;
        make_crc_slots(&mut self.crcs, end + bytes.len() + 1);
        record_crcs(&mut self.crcs, end, bytes);
        let _all = self.bytes.fill_from_slice(bytes);
    }

    /// Drops `count` bytes at the front.
    pub fn skip(&mut self, count: usize)
        requires { count ≤ length self.old }
        ensures { self.new ≡ drop count self.old }
    {
        let left = self.bytes.len() - count;
        self.bytes.truncate_front(left);
        self.start += count;
    }

    /// Drops the first byte, and all after it up to the next sync byte.
    pub fn skip_to_next_sync(&mut self)
        requires { 1 ≤ length self.old }
        ensures { ReachesSync (drop 1 self.old) self.new }
    {
        self.skip(1);
        let (front, back) = self.bytes.as_slices();
        let count = len_before_sync_in_two(front, back);
        self.skip(count);
    }

    /// Moves `count` bytes from the front into `to`, replacing its contents.
    pub fn move_into(&mut self, count: usize, to: &mut Vec<u8>)
        requires { (count ≤ length self.old) × (count ≤ vec_capacity to.old) }
        ensures rest { self.new ≡ drop count self.old }
        ensures items { to.new.items ≡ take count self.old }
        ensures capacity { vec_capacity to.old ≤ vec_capacity to.new }
    {
        let (front, back) = self.bytes.as_slices();
        let from_front = front.len().min(count);
        to.clear();
        let _has_room = to.extend_from_slice(&front[..from_front]);
        let _has_room_too = to.extend_from_slice(&back[..count - from_front]);
        self.skip(count);
    }
}
