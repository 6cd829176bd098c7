//! The occupancy button, which profiles of several FUNCs have.

// The words of the occupancy button.
pub(crate) const PRESSED_OR_RELEASED: [(u32, &str); 2] = [(0, "pressed"), (1, "released")];
