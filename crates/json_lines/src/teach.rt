//! The teach line: the outcome for a sender.

ghost use Rattle.std.specs.Prelude.{◌≡◌, IfOk, OnOk};
ghost use Rattle.serde_json.specs.Events.{SendsValue};
ghost use Rattle.json_lines.specs.Lines.{Teach, outcome_word, text};
ghost use Rattle.json_lines.specs.private.LineData.{object_of, value_or_null, profile_data, teach_members};

use crate::line::{Line, line_of};
use crate::parts::{put_id, put_maker, put_profile};
use erp1_telegrams::Eep;
use serde::{Described, Serialize, Serializer};
use std::alloc::{AllocError, Global};
use teach_in::{Outcome, Verdict};

// The word of an outcome.
pub(crate) fn outcome_word(outcome: Outcome) -> &'static str
    ensures { result.now ≡ outcome_word outcome }
{
    match outcome {
        Outcome::Accepted => "accepted",
        Outcome::Deleted => "deleted",
        Outcome::Unsupported => "unsupported",
        Outcome::Full => "full",
        Outcome::General => "general",
        Outcome::NoProfile => "no_profile",
    }
}

// A profile, or null.
fn put_profile_or_null<S: Serializer>(eep: Option<Eep>, out: &mut S) -> Result<(), S::Error>
    ensures { OnOk result (SendsValue (value_or_null profile_data eep) (S.written out.old) (S.written out.new)) }
{
    match eep {
        Some(eep) => put_profile(eep, out),
        None => out.unit(),
    }
}

// The members of the line.
#[derive(Drop)]
struct TeachObject {
    eep: Option<Eep>,
    id: u32,
    maker: Option<u16>,
    outcome: Outcome,
}

impl Described for TeachObject {
    ghost writes = { λ line. SendsValue (object_of (teach_members
        (record { eep = line.eep; id = line.id; maker = line.maker; outcome = line.outcome }))) };
}

impl Serialize for TeachObject {
    fn serialize<S: Serializer>(&self, out: &mut S) -> Result<(), S::Error> {
        out.begin_map(Some(5))?;
        out.key("eep")?;
        put_profile_or_null(self.eep, out)?;
        out.key("id")?;
        put_id(self.id, out)?;
        out.key("maker")?;
        put_maker(self.maker, out)?;
        out.key("result")?;
        out.str(outcome_word(self.outcome))?;
        out.key("type")?;
        out.str("teach")?;
        out.end_map()
    }
}

/// A teach line that is built before its verdict and returned only for it.
#[derive(Drop)]
pub struct Draft {
    id: u32,
    outcome: Outcome,
    line: Line,
}

impl Draft {
    /// The line, given the verdict that it reports. Needs no memory.
    pub fn tell(self, verdict: &Verdict) -> Line
        requires id { verdict.now.id ≡ self.id }
        requires outcome { verdict.now.outcome ≡ self.outcome }
        ensures { result ≡ self.line }
    {
        prove!(verdict.id() == self.id && verdict.outcome() == self.outcome);
        self.line
    }
}

/// The draft of the line with the outcome for a sender: its profile, ID and manufacturer ID, `null` if not known, and
/// the outcome.
///
/// `{"eep":"D5-00-01","id":"01800ABC","maker":null,"result":"accepted","type":"teach"}`
///
/// Any error is returned as out of memory.
pub fn teach_line(
    alloc: Global,
    id: u32,
    eep: Option<Eep>,
    maker: Option<u16>,
    outcome: Outcome,
) -> Result<Draft, AllocError>
    ensures id { IfOk result (λ draft. draft.id ≡ id) }
    ensures outcome { IfOk result (λ draft. draft.outcome ≡ outcome) }
    ensures line { IfOk result (λ draft. draft.line ≡ text (Teach
        (record { eep = eep; id = id; maker = maker; outcome = outcome }))) }
{
    let object = TeachObject {
        eep,
        id,
        maker,
        outcome,
    };
    let line = line_of(alloc, &object)?;
    Ok(Draft { id, outcome, line })
}
