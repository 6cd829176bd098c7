//! The line of a response.

ghost use Rattle.std.specs.Prelude.{◌≡◌, IfOk, OnOk, slice_get};
ghost use Rattle.serde_json.specs.Data.{string};
ghost use Rattle.serde_json.specs.Events.{SendsValue};
ghost use Rattle.json_lines.specs.Lines.{ResponseLine, return_code_names, text};
ghost use Rattle.json_lines.specs.private.LineData.{object_of, value_or_null, response_members};

use crate::line::{Line, line_of};
use serde::{Described, Serialize, Serializer};
use std::alloc::{AllocError, Global};

// The name of a return code, or null.
fn put_code_name<S: Serializer>(code: u8, out: &mut S) -> Result<(), S::Error>
    ensures { OnOk result (SendsValue (value_or_null string (slice_get return_code_names code))
        (S.written out.old) (S.written out.new)) }
{
    match code {
        0 => out.str("OK"),
        1 => out.str("ERROR"),
        2 => out.str("NOT_SUPPORTED"),
        3 => out.str("WRONG_PARAM"),
        4 => out.str("OPERATION_DENIED"),
        _ => out.unit(),
    }
}

// The members of the line: the code, and the digits of the bytes after it.
#[derive(Drop)]
struct ResponseObject<'a> {
    code: u8,
    digits: &'a str,
}

impl Described for ResponseObject<'_> {
    ghost writes = { λ line. SendsValue (object_of (response_members line.code line.digits.now)) };
}

impl Serialize for ResponseObject<'_> {
    fn serialize<S: Serializer>(&self, out: &mut S) -> Result<(), S::Error> {
        out.begin_map(Some(4))?;
        out.key("code")?;
        out.u64(u64::from(self.code))?;
        out.key("data")?;
        out.str(self.digits)?;
        out.key("name")?;
        put_code_name(self.code, out)?;
        out.key("type")?;
        out.str("response")?;
        out.end_map()
    }
}

/// The line of a response of the radio module: the return code, the bytes after it as hexadecimal digits, and the
/// code's name, `null` if it has none.
///
/// `{"code":0,"data":"FF800000","name":"OK","type":"response"}`
///
/// Any error is returned as out of memory.
pub fn response_line(alloc: Global, code: u8, rest: &[u8]) -> Result<Line, AllocError>
    ensures { IfOk result (λ line. line ≡ text (ResponseLine (record { code = code; bytes = rest.now }))) }
{
    let digits = hex::encode_upper(alloc, rest)?;
    let object = ResponseObject {
        code,
        digits: digits.as_str(),
    };
    line_of(alloc, &object)
}
