//! The line that acknowledges an order.

ghost use Rattle.std.specs.Prelude.{◌≡◌};
ghost use Rattle.json_lines.specs.Lines.{Done, text};

/// The line that acknowledges an order: `{"type":"ok"}` and a line feed. Needs no memory.
pub fn done_line() -> &'static [u8]
    ensures { result.now ≡ text Done }
{
    b"{\"type\":\"ok\"}\n"
}
