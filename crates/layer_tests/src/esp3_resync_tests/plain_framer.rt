//! A framer that stores nothing except its bytes, and reads them again from the front after each one. The tests compare
//! with it. It uses the CRC and the header of `esp3_frames`, which have tests of their own.
use esp3_frames::{check8, read_header};
use std::alloc::{AllocError, Global};

// What some bytes begin with: no packet whatever follows, a part of one, or a whole one of this length.
#[derive(Clone, Copy)]
enum StreamFront {
    Never,
    Partial,
    Whole(usize),
}

fn byte_or(bytes: &[u8], index: usize, default: u8) -> u8 {
    bytes.get(index).copied().unwrap_or(default)
}

// Whether a packet may begin with these bytes, at most five. Missing bytes are assumed to be valid.
fn may_begin_packet(bytes: &[u8]) -> bool {
    byte_or(bytes, 0, 0x55) == 0x55
        && [
            byte_or(bytes, 1, 0),
            byte_or(bytes, 2, 0),
            byte_or(bytes, 3, 1),
        ] != [0; 3]
}

fn front_of_stream(bytes: &[u8]) -> StreamFront {
    let Some((first_bytes, bytes_after)) = bytes.split_first_chunk::<6>() else {
        return if may_begin_packet(bytes) {
            StreamFront::Partial
        } else {
            StreamFront::Never
        };
    };
    let Ok(header) = read_header(first_bytes) else {
        return StreamFront::Never;
    };
    let len = header.data_len as usize + header.opt_len as usize;
    if bytes_after.len() <= len {
        return StreamFront::Partial;
    }
    if bytes_after[len] == check8(&bytes_after[..len]) {
        StreamFront::Whole(len + 7)
    } else {
        StreamFront::Never
    }
}

// How many bytes to skip until a packet may begin.
fn bytes_to_skip(bytes: &[u8]) -> usize {
    for start in 0..bytes.len() {
        match front_of_stream(&bytes[start..]) {
            StreamFront::Never => {}
            _ => return start,
        }
    }
    bytes.len()
}

fn drop_front_bytes(bytes: &mut Vec<u8>, count: usize) {
    let count = count.min(bytes.len());
    if count > 0 {
        drop(bytes.drain(..count));
    }
}

#[derive(Drop)]
pub struct PlainFramer {
    bytes: Vec<u8>,
}

impl PlainFramer {
    pub(crate) fn new(alloc: Global) -> PlainFramer {
        PlainFramer {
            bytes: Vec::new(alloc),
        }
    }

    fn resynchronize(&mut self) {
        let skipped_count = bytes_to_skip(&self.bytes);
        drop_front_bytes(&mut self.bytes, skipped_count);
    }

    pub(crate) fn is_ready(&self) -> bool {
        match front_of_stream(&self.bytes) {
            StreamFront::Whole(_) => true,
            _ => false,
        }
    }

    pub(crate) fn push(&mut self, byte: u8) -> Result<(), AllocError> {
        self.bytes.push(byte)?;
        self.resynchronize();
        Ok(())
    }

    // Moves the whole packet into `out`, and returns whether there was one.
    pub(crate) fn take(&mut self, packet: &mut Vec<u8>) -> Result<bool, AllocError> {
        let StreamFront::Whole(packet_len) = front_of_stream(&self.bytes) else {
            return Ok(false);
        };
        packet.clear();
        packet.extend_from_slice(&self.bytes[..packet_len.min(self.bytes.len())])?;
        drop_front_bytes(&mut self.bytes, packet_len);
        self.resynchronize();
        Ok(true)
    }
}
