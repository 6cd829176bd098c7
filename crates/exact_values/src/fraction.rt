//! Exact fractions, and quotients as fractions.
ghost use Rattle.std.specs.Prelude.{◌≡◌, ◌<◌, ◌≤◌, pos, ◌*ℤ◌};
ghost use Rattle.exact_values.specs.Ratio.{IsLowest, lowest};
ghost use Rattle.exact_values.specs.Fraction.{ratio};

use crate::divisor::greatest_common_divisor;

/// An exact fraction. The functions of this crate return it in lowest terms: 1024/51, -40/1. In contracts it is
/// `ratio f`, the record `Ratio` of `specs/Ratio.antt`. The default is 0/1.
#[derive(Clone, Copy, Debug, PartialEq, Eq)]
pub struct Fraction {
    num: i64,
    den: u32,
}

impl Default for Fraction {
    ghost use Rattle.std.specs.Prelude.{◌≡◌, pos};
    ghost use Rattle.exact_values.specs.Fraction.{ratio};

    ghost is_default = { λ f. ratio f ≡ record { num = pos 0; den = 1 } };

    fn default() -> Self {
        Fraction { num: 0, den: 1 }
    }
}

impl Fraction {
    /// The numerator, with the sign: -40 of -40/1.
    pub fn num(&self) -> i64
        ensures { result ≡ (ratio self.now).num }
    {
        self.num
    }

    /// The denominator, above 0 in the results of this crate: 51 of 1024/51.
    pub fn den(&self) -> i64
        ensures { result ≡ pos (ratio self.now).den }
    {
        i64::from(self.den)
    }
}

/// `raw / divisor` in lowest terms, for a divisor of 1 to 1000.
///
/// `over(16777215, 1000)` is 3355443/200.
pub fn over(raw: u32, divisor: u32) -> Fraction
    requires { (1 ≤ divisor) × (divisor ≤ 1000) }
    ensures exact { ratio result ≡ lowest (pos raw) divisor }
    ensures value { pos divisor *ℤ (ratio result).num ≡ pos (ratio result).den *ℤ pos raw }
    ensures in_lowest_terms { IsLowest (ratio result) }
{
    reduced(i64::from(raw), divisor)
}

// `top / bottom` in lowest terms.
pub(crate) fn reduced(top: i64, bottom: u32) -> Fraction
    requires { 0 < bottom }
    ensures exact { ratio result ≡ lowest top bottom }
    ensures value { pos bottom *ℤ (ratio result).num ≡ pos (ratio result).den *ℤ top }
    ensures in_lowest_terms { IsLowest (ratio result) }
{
    let divisor = greatest_common_divisor(top.unsigned_abs(), u64::from(bottom));
    Fraction {
        num: top / divisor as i64,
        den: (u64::from(bottom) / divisor) as u32,
    }
}
