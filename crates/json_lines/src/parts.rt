//! Parts that several lines share: IDs, profiles and makers, each sent to a serializer.

ghost use Rattle.std.specs.Prelude.{OnOk};
ghost use Rattle.serde_json.specs.Events.{SendsValue};
ghost use Rattle.json_lines.specs.private.LineData.{id_data, number_data, value_or_null, profile_data};

use crate::digits::{ascii_str, eep_digits, id_digits};
use erp1_telegrams::Eep;
use serde::Serializer;

pub(crate) fn put_id<S: Serializer>(id: u32, out: &mut S) -> Result<(), S::Error>
    ensures { OnOk result (SendsValue (id_data id) (S.written out.old) (S.written out.new)) }
{
    out.str(ascii_str(&id_digits(id)))
}

pub(crate) fn put_profile<S: Serializer>(eep: Eep, out: &mut S) -> Result<(), S::Error>
    ensures { OnOk result (SendsValue (profile_data eep) (S.written out.old) (S.written out.new)) }
{
    out.str(ascii_str(&eep_digits(eep)))
}

// A manufacturer ID, or null.
pub(crate) fn put_maker<S: Serializer>(maker: Option<u16>, out: &mut S) -> Result<(), S::Error>
    ensures { OnOk result (SendsValue (value_or_null number_data maker) (S.written out.old) (S.written out.new)) }
{
    match maker {
        Some(maker) => out.u64(u64::from(maker)),
        None => out.unit(),
    }
}
