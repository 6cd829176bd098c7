//! The error lines: literals, so that none of them needs memory.

ghost use Rattle.std.specs.Prelude.{◌≡◌};
ghost use Rattle.json_lines.specs.Lines.{Error, text};

use desk_orders::OrderFault;
use gateway_state::ErrorReason;

/// The line of the error, such as `{"error":"syntax","type":"error"}` and a line feed. Needs no memory.
pub fn error_line(reason: ErrorReason) -> &'static [u8]
    ensures { result.now ≡ text (Error reason) }
{
    match reason {
        ErrorReason::Order(OrderFault::Syntax) => b"{\"error\":\"syntax\",\"type\":\"error\"}\n",
        ErrorReason::Order(OrderFault::Range) => b"{\"error\":\"range\",\"type\":\"error\"}\n",
        ErrorReason::Order(OrderFault::UnknownDevice) => {
            b"{\"error\":\"unknown_device\",\"type\":\"error\"}\n"
        }
        ErrorReason::Order(OrderFault::WrongProfile) => {
            b"{\"error\":\"wrong_profile\",\"type\":\"error\"}\n"
        }
        ErrorReason::TooLong => b"{\"error\":\"too_long\",\"type\":\"error\"}\n",
        ErrorReason::Full => b"{\"error\":\"full\",\"type\":\"error\"}\n",
        ErrorReason::UnsupportedProfile => {
            b"{\"error\":\"unsupported_profile\",\"type\":\"error\"}\n"
        }
        ErrorReason::Failed(fault) if fault.is_memory() => {
            b"{\"error\":\"memory\",\"type\":\"error\"}\n"
        }
        ErrorReason::Failed(_) => b"{\"error\":\"store\",\"type\":\"error\"}\n",
    }
}
