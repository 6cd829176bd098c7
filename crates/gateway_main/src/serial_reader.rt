//! The reader of the serial line.
use std::fs::File;
use std::io;
use std::io::{IsTerminal, Read, Seek};
use std::time::{Clock, Duration};

// For how many milliseconds after a read of the line the next ones may be left out.
const SKIP_MILLIS: u64 = 100;

// Reads the serial line. A read of a terminal would wait for bytes, so it is left out, and returns 0 bytes at once,
// while the desk's file has unread bytes: for at most `SKIP_MILLIS` milliseconds after the last read, and only if the
// desk was read since the one that was left out before.
#[derive(Drop)]
pub(crate) struct SerialReader<'a, T> {
    clock: &'a T,
    line: &'a File,
    desk: &'a File,
    // When the last read ended; `None` before the first one, or if the clock failed.
    ended: Option<Duration>,
    // Where the desk stood when a read was left out last.
    desk_position: Option<u64>,
}

impl<'a, T: Clock> SerialReader<'a, T> {
    // A reader whose first read is not left out.
    pub(crate) fn new(clock: &'a T, line: &'a File, desk: &'a File) -> SerialReader<'a, T> {
        SerialReader {
            clock,
            line,
            desk,
            ended: None,
            desk_position: None,
        }
    }

    // Whether this read is left out. It is not if the time or the desk's position is unknown.
    fn skips_read(&mut self) -> bool {
        let Some(position) = position_before_unread(self.desk) else {
            return false;
        };
        if self.desk_position == Some(position) || !self.line.is_terminal() {
            return false;
        }
        let (Ok(now), Some(ended)) = (self.clock.monotonic(), self.ended) else {
            return false;
        };
        self.desk_position = Some(position);
        now.saturating_sub(ended) < Duration::from_millis(SKIP_MILLIS)
    }
}

impl<T: Clock> Read for SerialReader<'_, T> {
    fn read(&mut self, buf: &mut [u8]) -> io::Result<usize> {
        if self.skips_read() {
            return Ok(0);
        }
        let mut line = self.line;
        let length = line.read(buf)?;
        self.ended = self.clock.monotonic().ok();
        Ok(length)
    }
}

// The position at which the next read of a plain file begins, if the file has bytes there.
fn position_before_unread(mut file: &File) -> Option<u64> {
    let metadata = file.metadata().ok()?;
    if !metadata.is_file() {
        return None;
    }
    let position = file.stream_position().ok()?;
    (position < metadata.len()).then_some(position)
}
