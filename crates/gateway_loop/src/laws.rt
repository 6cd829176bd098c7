//! Theorems about the definitions. Each function does nothing: its contract is the theorem.
ghost use Rattle.gateway_loop.specs.Explained.{ExplanationsOnlyAddLines};
ghost use Rattle.gateway_loop.specs.Turns.{InputsDoNotDependOnReadSizes};

/// A replay that explains packets writes what one that does not writes for the same answers, plus the lines that
/// explain them, each directly before its packet's text for the desk. The same holds for the desk of a live gateway;
/// its serial line gets the same bytes in both cases.
pub fn explanations_only_add_lines()
    ensures { ExplanationsOnlyAddLines }
{}

/// The inputs of a live gateway do not depend on how the bytes before an order are split into reads. A turn whose reads
/// returned 0 bytes, as while the serial line is silent and the desk gives no order, brings no input.
pub fn inputs_do_not_depend_on_read_sizes()
    ensures { InputsDoNotDependOnReadSizes }
{}
