//! Readers and writers that fail, or take less than they are given.
use std::io;
use std::io::{Read, Write};

fn injected_error() -> io::Error {
    io::Error::from(io::ErrorKind::Other)
}

/// A reader that returns one part at each read, then nothing. Fails if the buffer does not have exactly 256 bytes, or
/// at the read with this number, the first being 1.
#[derive(Drop)]
pub struct PartReader<'a> {
    parts: &'a [&'a [u8]],
    read_count: usize,
    fails_at: usize,
}

impl<'a> PartReader<'a> {
    pub(crate) fn new(parts: &'a [&'a [u8]], fails_at: usize) -> PartReader<'a> {
        PartReader {
            parts,
            read_count: 0,
            fails_at,
        }
    }
}

impl<'a> Read for PartReader<'a> {
    fn read(&mut self, buffer: &mut [u8]) -> io::Result<usize> {
        self.read_count = self.read_count.saturating_add(1);
        if self.read_count == self.fails_at || buffer.len() != 256 {
            return Err(injected_error());
        }
        let Some(part) = self.parts.first() else {
            return Ok(0);
        };
        let mut part = *part;
        self.parts = &self.parts[1..];
        part.read(buffer)
    }
}

/// A writer that takes at most this many bytes at a call, and fails only at the call with this number, the first being
/// 1: so a second try is detected.
#[derive(Drop)]
pub struct LimitedWriter<'a> {
    output: &'a mut Vec<u8>,
    max_len: usize,
    write_count: usize,
    fails_at: usize,
}

impl<'a> LimitedWriter<'a> {
    pub(crate) fn new(
        output: &'a mut Vec<u8>,
        max_len: usize,
        fails_at: usize,
    ) -> LimitedWriter<'a> {
        LimitedWriter {
            output,
            max_len,
            write_count: 0,
            fails_at,
        }
    }
}

impl<'a> Write for LimitedWriter<'a> {
    fn write(&mut self, text: &[u8]) -> io::Result<usize> {
        self.write_count = self.write_count.saturating_add(1);
        if self.write_count == self.fails_at {
            return Err(injected_error());
        }
        self.output.write(&text[..text.len().min(self.max_len)])
    }

    fn flush(&mut self) -> io::Result<()> {
        Ok(())
    }
}

/// A writer that takes nothing.
#[derive(Drop)]
pub struct ZeroLengthWriter;

impl Write for ZeroLengthWriter {
    fn write(&mut self, _text: &[u8]) -> io::Result<usize> {
        Ok(0)
    }

    fn flush(&mut self) -> io::Result<()> {
        Ok(())
    }
}
