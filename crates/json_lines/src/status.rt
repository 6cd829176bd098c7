//! The line of the counters and the mode.

ghost use Rattle.std.specs.Prelude.{◌≡◌, IfOk, OnOk};
ghost use Rattle.serde_json.specs.Data.{string};
ghost use Rattle.serde_json.specs.Events.{SendsValue};
ghost use Rattle.json_lines.specs.Lines.{StatusLine, mode_word, text};
ghost use Rattle.json_lines.specs.private.LineData.{object_of, status_members};

use crate::digits::{ascii_str, learn_as_text};
use crate::line::{Line, line_of};
use gateway_state::Counts;
use serde::{Described, Serialize, Serializer};
use std::alloc::{AllocError, Global};
use teach_in::Mode;

// The word of a mode.
fn put_mode<S: Serializer>(mode: Mode, out: &mut S) -> Result<(), S::Error>
    ensures { OnOk result (SendsValue (string (mode_word mode)) (S.written out.old) (S.written out.new)) }
{
    match mode {
        Mode::Closed => out.str("closed"),
        Mode::Learn => out.str("on"),
        Mode::LearnAnswer => out.str("answer"),
        Mode::LearnAs(eep) => out.str(ascii_str(&learn_as_text(eep))),
    }
}

// The members of the line.
#[derive(Drop)]
struct StatusObject<'a> {
    counts: &'a Counts,
    mode: Mode,
}

impl Described for StatusObject<'_> {
    ghost writes = { λ line. SendsValue (object_of (status_members line.counts.now line.mode)) };
}

impl Serialize for StatusObject<'_> {
    fn serialize<S: Serializer>(&self, out: &mut S) -> Result<(), S::Error> {
        out.begin_map(Some(7))?;
        out.key("ignored")?;
        out.u64(self.counts.ignored)?;
        out.key("mode")?;
        put_mode(self.mode, out)?;
        out.key("readings")?;
        out.u64(self.counts.readings)?;
        out.key("refused")?;
        out.u64(self.counts.refused)?;
        out.key("responses")?;
        out.u64(self.counts.responses)?;
        out.key("teach")?;
        out.u64(self.counts.teach)?;
        out.key("type")?;
        out.str("status")?;
        out.end_map()
    }
}

/// The line of the counters and the learn mode: `closed`, `on`, `answer`, or `as ` and the profile.
///
/// `{"ignored":0,"mode":"closed","readings":1,"refused":0,"responses":0,"teach":0,"type":"status"}`
///
/// Any error is returned as out of memory.
pub fn status_line(alloc: Global, counts: &Counts, mode: Mode) -> Result<Line, AllocError>
    ensures { IfOk result (λ line. line ≡ text (StatusLine counts.now mode)) }
{
    line_of(alloc, &StatusObject { counts, mode })
}
