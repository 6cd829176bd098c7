//! Exact values of fields, as fractions in lowest terms: of a raw number on a linear scale between two bounds, which
//! the columns "Valid Range" and "Scale" of the EnOcean Equipment Profiles 2.6 give, or of a raw number and a divisor.
//! Nothing here rounds or allocates.
#![tactic(auto)]

mod divisor;
mod fraction;
pub mod laws;
mod linear_scale;

pub use fraction::{Fraction, over};
pub use linear_scale::scale;
