//! The loop over the lines of a script or of the desk, as their bytes arrive.
ghost use Rattle.std.specs.Prelude.{◌≡◌, [], ◌++◌, ℕ, List, OnOk, OnErr};
ghost use Rattle.std.specs.Str.Lines.{strip_carriage_return};
ghost use Rattle.gateway_loop.specs.private.DriverSteps.{TakesOrBreaks, TakesOrStops};
ghost use Rattle.gateway_loop.specs.private.LineSplitting.{BreaksInBytes, TakesEndedLines};
ghost use Rattle.gateway_loop.specs.private.Lines.{KeepsTruncatedLine, event_of_line_from};
ghost use Rattle.gateway_loop.specs.Processing.{HasNoReadyPacket};
ghost use Rattle.gateway_loop.specs.Script.{script};

use crate::driver::Driver;
use crate::partial_line::PartialLine;
use crate::reply_sink::ReplySink;
use byte_io::Failed;
use gateway_core::DeviceStore;
use memchr::memchr;

/// The kind of lines.
#[derive(Clone, Copy)]
pub enum LineSource {
    /// Lines of a script: serial chunks and orders.
    ScriptLines,
    /// Lines of the desk: orders.
    DeskLines,
}

/// A `Driver`, and the partial line so far.
#[derive(Drop)]
pub struct LineSplitter<'g, O, S: DeviceStore> {
    pub driver: Driver<'g, O, S>,
    pub partial: PartialLine,
}

// In the postconditions below `tail` is everything read so far of the partial line.
impl<O: ReplySink, S: DeviceStore> LineSplitter<'_, O, S> {
    /// Takes the next bytes, and so each line that ends in them.
    pub fn process_bytes(&mut self, lines: LineSource, bytes: &[u8]) -> Result<(), Failed>
        requires { HasNoReadyPacket self.old.driver.gateway.now }
        ensures gateway { self.new.driver.gateway.ghost_name ≡ self.old.driver.gateway.ghost_name }
        ensures loans { O.loans self.new.driver.reply_sink ≡ O.loans self.old.driver.reply_sink }
        ensures idle { OnOk result (HasNoReadyPacket self.new.driver.gateway.now) }
        ensures taken { OnOk result ((tail : List ℕ) → KeepsTruncatedLine tail self.old.partial →
            TakesEndedLines S.store_state O.output lines self.old self.new (tail ++ bytes.now)) }
        ensures stopped { OnErr result ((tail : List ℕ) → KeepsTruncatedLine tail self.old.partial →
            BreaksInBytes S.store_state O.output lines self.old self.new (tail ++ bytes.now)) }
    {
        // The proof needs that the count is a `u64`.
        let _start = self.driver.items;
        let mut rest = bytes;
        while let Some(end) = memchr(b'\n', rest) {
            self.process_ended_line(lines, &rest[..end])?;
            rest = &rest[end + 1..];
        }
        self.partial.extend(rest);
        Ok(())
    }

    // Takes the line that LF ends after these bytes.
    fn process_ended_line(&mut self, lines: LineSource, bytes: &[u8]) -> Result<(), Failed>
        requires { HasNoReadyPacket self.old.driver.gateway.now }
        ensures gateway { self.new.driver.gateway.ghost_name ≡ self.old.driver.gateway.ghost_name }
        ensures loans { O.loans self.new.driver.reply_sink ≡ O.loans self.old.driver.reply_sink }
        ensures idle { OnOk result (HasNoReadyPacket self.new.driver.gateway.now) }
        ensures emptied { OnOk result (self.new.partial ≡ []) }
        ensures taken { (tail : List ℕ) → KeepsTruncatedLine tail self.old.partial →
            TakesOrBreaks S.store_state O.output result self.old.driver self.new.driver
            (event_of_line_from lines (strip_carriage_return (tail ++ bytes.now))) }
    {
        if self.partial.as_slice().is_empty() {
            return process_line(&mut self.driver, lines, strip_carriage_return(bytes));
        }
        self.partial.extend(bytes);
        process_line(
            &mut self.driver,
            lines,
            strip_carriage_return(self.partial.as_slice()),
        )?;
        self.partial.clear();
        Ok(())
    }

    /// Takes the line that the end of a script ends, if there is one.
    pub fn process_last_script_line(&mut self) -> Result<(), Failed>
        requires { HasNoReadyPacket self.old.driver.gateway.now }
        ensures gateway { self.new.driver.gateway.ghost_name ≡ self.old.driver.gateway.ghost_name }
        ensures loans { O.loans self.new.driver.reply_sink ≡ O.loans self.old.driver.reply_sink }
        ensures taken { (tail : List ℕ) → KeepsTruncatedLine tail self.old.partial →
            TakesOrStops S.store_state O.output result self.old.driver self.new.driver (script tail) }
    {
        // The proof needs that the count is a `u64`.
        let _start = self.driver.items;
        let line = self.partial.as_slice();
        if line.is_empty() {
            return Ok(());
        }
        self.driver.process_script_line(line)
    }
}

// A line without the CR at its end, if there is one.
fn strip_carriage_return(line: &[u8]) -> &[u8]
    ensures { result.now ≡ strip_carriage_return line.now }
{
    match line.last() {
        Some(b'\r') => &line[..line.len() - 1],
        _ => line,
    }
}

// Takes a line without its end.
fn process_line<O: ReplySink, S: DeviceStore>(
    driver: &mut Driver<'_, O, S>,
    lines: LineSource,
    line: &[u8],
) -> Result<(), Failed>
    requires { HasNoReadyPacket driver.old.gateway.now }
    ensures gateway { driver.new.gateway.ghost_name ≡ driver.old.gateway.ghost_name }
    ensures loans { O.loans driver.new.reply_sink ≡ O.loans driver.old.reply_sink }
    ensures taken { TakesOrBreaks S.store_state O.output result driver.old driver.new
        (event_of_line_from lines line.now) }
{
    match lines {
        LineSource::ScriptLines => driver.process_script_line(line),
        LineSource::DeskLines => driver.process_order(line),
    }
}
