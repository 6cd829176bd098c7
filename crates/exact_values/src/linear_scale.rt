//! Linear scales between two bounds.
ghost use Rattle.std.specs.Prelude.{◌≡◌, ◌≢◌, ◌^◌, ◌≤◌, ◌↔◌, ℤ, pos, negsuc, ◌≤ℤ◌, ◌*ℤ◌, IsSome, IfSome, option_map};
ghost use Rattle.exact_values.specs.Ratio.{IsLowest};
ghost use Rattle.exact_values.specs.Fraction.{ratio};
ghost use Rattle.exact_values.specs.Scale.{IsBetween, StandsFor, interpolated, scaled};

use crate::fraction::{Fraction, reduced};

/// The value of `raw` on the linear scale on which `raw_lo` means `tenths_lo` tenths of a unit and `raw_hi` means
/// `tenths_hi` (EnOcean Equipment Profiles 2.6, "Valid Range" and "Scale"): the exact fraction of the unit, in lowest
/// terms. `None` if `raw` is outside the two raw bounds, which themselves are in range.
///
/// The raw bounds differ, are in either order, and are at most 65535; the tenths are from minus one million to one
/// million.
///
/// `scale(127, 255, 0, 0, 400)` is 1024/51: 0 degrees at 255, 40 degrees at 0, and about 20.08 degrees at 127.
#[tactic(auto, unfolding(crate::specs::Scale::scaled))]
pub fn scale(raw: u32, raw_lo: u32, raw_hi: u32, tenths_lo: i32, tenths_hi: i32) -> Option<Fraction>
    requires differ { raw_lo ≢ raw_hi }
    requires low { raw_lo ≤ 65535 }
    requires high { raw_hi ≤ 65535 }
    requires tenths_low { (negsuc 999999 ≤ℤ tenths_lo) × (tenths_lo ≤ℤ pos 1000000) }
    requires tenths_high { (negsuc 999999 ≤ℤ tenths_hi) × (tenths_hi ≤ℤ pos 1000000) }
    ensures exact { option_map ratio result ≡ scaled raw raw_lo raw_hi tenths_lo tenths_hi }
    ensures within { IsSome result ↔ IsBetween raw raw_lo raw_hi }
    ensures value { IfSome result (λ f. StandsFor raw raw_lo raw_hi tenths_lo tenths_hi (ratio f)) }
    ensures in_lowest_terms { IfSome result (λ f. IsLowest (ratio f)) }
{
    if raw_lo.min(raw_hi) <= raw && raw <= raw_lo.max(raw_hi) {
        Some(interpolate(raw, raw_lo, raw_hi, tenths_lo, tenths_hi))
    } else {
        None
    }
}

// The value of `raw`, which is between the raw bounds.
fn interpolate(raw: u32, raw_lo: u32, raw_hi: u32, tenths_lo: i32, tenths_hi: i32) -> Fraction
    requires differ { raw_lo ≢ raw_hi }
    requires low { raw_lo ≤ 65535 }
    requires high { raw_hi ≤ 65535 }
    requires between { IsBetween raw raw_lo raw_hi }
    requires tenths_low { (negsuc 999999 ≤ℤ tenths_lo) × (tenths_lo ≤ℤ pos 1000000) }
    requires tenths_high { (negsuc 999999 ≤ℤ tenths_hi) × (tenths_hi ≤ℤ pos 1000000) }
    ensures exact { ratio result ≡ interpolated raw raw_lo raw_hi tenths_lo tenths_hi }
    ensures value { StandsFor raw raw_lo raw_hi tenths_lo tenths_hi (ratio result) }
    ensures in_lowest_terms { IsLowest (ratio result) }
{
    let width = raw_lo.abs_diff(raw_hi);
    let above = raw.abs_diff(raw_lo);
    let rise = i64::from(tenths_hi) - i64::from(tenths_lo);
    let base = times(i64::from(tenths_lo), width);
    let more = times(rise, above);
    reduced(base + more, 10 * width)
}

// A product of tenths and a distance of raw numbers; its contract implies that two such products can be added.
fn times(tenths: i64, distance: u32) -> i64
    requires low { negsuc 1999999 ≤ℤ tenths }
    requires high { tenths ≤ℤ pos 2000000 }
    requires near { distance ≤ 65535 }
    ensures value { result ≡ tenths *ℤ pos distance }
    ensures above { negsuc (2 ^ 40) ≤ℤ result }
    ensures below { result ≤ℤ pos (2 ^ 40) }
{
    tenths * i64::from(distance)
}
