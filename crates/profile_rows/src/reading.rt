//! The readings of a telegram.

use arrayvec::ArrayVec;
use exact_values::Fraction;

/// The meaning of a reading. In contracts it is `meaning_of` it, of `specs/Reading.antt`.
#[derive(Clone, Copy, Debug, PartialEq, Eq)]
pub enum What {
    /// An exact value, with its unit.
    Value(Fraction, &'static str),
    /// A word.
    Word(&'static str),
    /// A number without a unit.
    Raw(u32),
    /// A number for which the profile defines neither a value nor a word.
    OutOfRange(u32),
}

/// A reading under one name of a profile. In contracts it is `entry_of` it, of `specs/Reading.antt`. The default has no
/// name and is the number 0.
#[derive(Clone, Copy, Debug, PartialEq, Eq)]
pub struct Reading {
    /// The short name of the field in the profile.
    pub name: &'static str,
    /// The meaning of the field.
    pub what: What,
}

impl Default for Reading {
    ghost use Rattle.std.specs.Prelude.{◌≡◌, []};
    ghost use Rattle.profile_rows.specs.Reading.{entry_of, raw};

    ghost is_default = { λ r. entry_of r ≡ record { name = []; meaning = raw 0 } };

    fn default() -> Self {
        Reading {
            name: "",
            what: What::Raw(0),
        }
    }
}

/// The readings of one telegram, in the order of the profile's rows.
pub type Readings = ArrayVec<Reading, 8>;
