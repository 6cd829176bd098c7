//! Generated streams, each split in three ways: the output does not depend on the chunk boundaries.
use crate::gateways::replay_by_new_gateway;
use crate::report::Report;
use anyhow::Result;
use gateway_main::{OverRead, OverWrite};
use std::alloc::Global;

/// A contact telegram of the device that each script learns first.
pub const CONTACT_PACKET: [u8; 21] = [
    0x55, 0x00, 0x07, 0x07, 0x01, 0x7A, 0xD5, 0x09, 0x01, 0x80, 0x0A, 0xBC, 0x00, 0x01, 0xFF, 0xFF,
    0xFF, 0xFF, 0x2D, 0x00, 0x1F,
];

// A response with four bytes after its return code.
const RESPONSE_PACKET: [u8; 12] = [
    0x55, 0x00, 0x05, 0x00, 0x02, 0xCE, 0x00, 0xFF, 0x80, 0x00, 0x00, 0xDA,
];

// A header with a correct CRC that announces 63 bytes.
const FALSE_HEADER: [u8; 6] = [0x55, 0x00, 0x3F, 0x00, 0x01, 0xA1];

const LEARN_CONTACT: &[u8] = b"add 01800ABC D5-00-01\n";

// More reads than any script needs.
const MAX_READS: u64 = 1000;

const STREAM_COUNT: u32 = 1000;

// Pseudo-random numbers: a linear congruential generator.
#[derive(Drop)]
struct RandomNumbers {
    state: u32,
}

impl RandomNumbers {
    fn next(&mut self) -> usize {
        self.state = self
            .state
            .wrapping_mul(1_664_525)
            .wrapping_add(1_013_904_223);
        (self.state >> 16) as usize
    }
}

// Eight parts, each a packet, a false header, a prefix of a packet, or noise.
fn random_stream(alloc: Global, random_numbers: &mut RandomNumbers) -> Result<Vec<u8>> {
    let mut bytes = Vec::new(alloc);
    for _ in 0..8 {
        match random_numbers.next() % 6 {
            0 | 1 => bytes.extend_from_slice(&CONTACT_PACKET)?,
            2 => bytes.extend_from_slice(&RESPONSE_PACKET)?,
            3 => bytes.extend_from_slice(&CONTACT_PACKET[..random_numbers.next() % 21])?,
            4 => bytes.extend_from_slice(&FALSE_HEADER)?,
            _ => {
                for _ in 0..random_numbers.next() % 9 {
                    bytes.push((random_numbers.next() % 256) as u8)?;
                }
            }
        }
    }
    Ok(bytes)
}

// Appends a chunk of serial bytes to a script.
pub(crate) fn add_chunk(script: &mut Vec<u8>, chunk: &[u8]) -> Result<()> {
    const DIGITS: &[u8; 16] = b"0123456789ABCDEF";
    script.extend_from_slice(b"S ")?;
    for byte in chunk {
        script.push(DIGITS[usize::from(byte >> 4)])?;
        script.push(DIGITS[usize::from(byte & 15)])?;
    }
    script.push(b'\n')?;
    Ok(())
}

// The script of a stream: one device is learned, then the chunks follow, and then the counters are reported. If
// `longest` is 0, the lengths are random.
fn script_of_stream(
    alloc: Global,
    bytes: &[u8],
    max_len: usize,
    random_numbers: &mut RandomNumbers,
) -> Result<Vec<u8>> {
    let mut script = Vec::new(alloc);
    script.extend_from_slice(LEARN_CONTACT)?;
    let mut remaining = bytes;
    for _ in 0..bytes.len() {
        let len = if max_len == 0 {
            random_numbers.next() % 40
        } else {
            max_len
        };
        let (chunk, remaining_after) = remaining.split_at(len.min(remaining.len()));
        add_chunk(&mut script, chunk)?;
        remaining = remaining_after;
    }
    add_chunk(&mut script, remaining)?;
    script.extend_from_slice(b"status\n")?;
    Ok(script)
}

// The output for a stream that is split in this way, or nothing if the replay ends with an error.
fn output_for_stream(
    alloc: Global,
    bytes: &[u8],
    max_len: usize,
    random_numbers: &mut RandomNumbers,
) -> Result<Vec<u8>> {
    let script = script_of_stream(alloc, bytes, max_len, random_numbers)?;
    let mut output = Vec::new(alloc);
    let mut reader = OverRead::new(script.as_slice());
    let mut writer = OverWrite::new(&mut output);
    let result = replay_by_new_gateway(alloc, &mut reader, &mut writer, false, MAX_READS)?;
    if result.is_err() {
        output.clear();
    }
    Ok(output)
}

// The output for the next stream, unsplit. `None`: other chunk boundaries change it.
fn output_for_all_chunkings(
    alloc: Global,
    random_numbers: &mut RandomNumbers,
) -> Result<Option<Vec<u8>>> {
    let bytes = random_stream(alloc, random_numbers)?;
    let output_of_long = output_for_stream(alloc, bytes.as_slice(), 99, random_numbers)?;
    let output_of_bytes = output_for_stream(alloc, bytes.as_slice(), 1, random_numbers)?;
    let output_of_short = output_for_stream(alloc, bytes.as_slice(), 0, random_numbers)?;
    let is_same = output_of_bytes.as_slice() == output_of_long.as_slice()
        && output_of_short.as_slice() == output_of_long.as_slice();
    Ok(is_same.then_some(output_of_long))
}

// In more than a hundred streams, a packet is read.
pub(crate) fn run_cases(rt: &HostRuntime, report: &mut Report) -> Result<()> {
    let mut random_numbers = RandomNumbers { state: 2026 };
    let mut same_count = 0u32;
    let mut status_count = 0u32;
    for _ in 0..STREAM_COUNT {
        if let Some(text) = output_for_all_chunkings(rt.alloc(), &mut random_numbers)? {
            same_count = same_count.saturating_add(1);
            if text.len() > 300 {
                status_count = status_count.saturating_add(1);
            }
        }
    }
    report.add_case(
        rt,
        "a thousand streams, each cut in three ways",
        same_count == STREAM_COUNT && status_count > 100,
    )
}
