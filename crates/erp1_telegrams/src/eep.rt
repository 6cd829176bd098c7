//! Equipment profiles.
ghost use Rattle.std.specs.Prelude.{◌≡◌};

/// An equipment profile (EnOcean Equipment Profiles, "Structure"): the RORG of its telegrams, its FUNC and its TYPE.
#[derive(Clone, Copy, Debug, PartialEq, Eq)]
pub struct Eep {
    /// The RORG of its telegrams.
    pub rorg: u8,
    /// The FUNC, 0 to 3F.
    pub func: u8,
    /// The TYPE within the FUNC, 0 to 7F.
    pub typ: u8,
}

impl Eep {
    /// The profile with this RORG, FUNC and TYPE. In a constant, write a struct literal: a constant of Rattle calls no
    /// function.
    pub const fn new(rorg: u8, func: u8, typ: u8) -> Eep
        ensures { result ≡ record {
          rorg = rorg;
          func = func;
          typ = typ;
        } }
    {
        Eep { rorg, func, typ }
    }
}
