//! The calls that `OverRead` and `OverWrite` make of a reader and of a writer of std: one for each of their own, even
//! if it fails.
ghost use Rattle.std.specs.Prelude.{◌≡◌, IfOk};

use byte_io::{OverRead, OverWrite, Sink, Source};
use std::io;
use std::io::{Read, Write};

// A reader and a writer that counts its calls, fails only at the first one, and otherwise takes or returns everything
// that is asked for.
#[derive(Drop)]
struct FailsOnce {
    call_count: usize,
}

impl FailsOnce {
    fn count_call_and_answer(&mut self, length: usize) -> io::Result<usize>
        ensures { IfOk result (λ n. n ≡ length) }
    {
        self.call_count = self.call_count.saturating_add(1);
        if self.call_count == 1 {
            return Err(io::Error::from(io::ErrorKind::Interrupted));
        }
        Ok(length)
    }
}

impl Read for FailsOnce {
    fn read(&mut self, buffer: &mut [u8]) -> io::Result<usize> {
        self.count_call_and_answer(buffer.len())
    }
}

impl Write for FailsOnce {
    fn write(&mut self, text: &[u8]) -> io::Result<usize> {
        self.count_call_and_answer(text.len())
    }

    fn flush(&mut self) -> io::Result<()> {
        Ok(())
    }
}

#[test]
fn one_call_for_each_read(rt: HostRuntime) {
    let mut reader = FailsOnce { call_count: 0 };
    let mut source = OverRead::new(&mut reader);
    let mut buffer = [0u8; 256];
    assert!(rt; source.read(&mut buffer).is_err());
    assert_eq!(rt; source.read(&mut buffer).ok(), Some(256));
    drop(source);
    assert_eq!(rt; reader.call_count, 2);
}

#[test]
fn one_call_for_each_write(rt: HostRuntime) {
    let mut writer = FailsOnce { call_count: 0 };
    let mut sink = OverWrite::new(&mut writer);
    assert!(rt; sink.write(b"a line of text\n").is_err());
    assert_eq!(rt; sink.write(b"a line of text\n").ok(), Some(15));
    drop(sink);
    assert_eq!(rt; writer.call_count, 2);
}
