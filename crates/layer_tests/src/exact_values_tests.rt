//! Known values: inside the bounds, at them and one past them, with the bounds in either order.
use exact_values::{Fraction, over, scale};

// The numerator and the denominator.
fn numerator_and_denominator(fraction: Fraction) -> (i64, i64) {
    (fraction.num(), fraction.den())
}

// A number, the numbers `first` and `last`, the tenths that they mean, and the number's value as a numerator
// and a denominator.
type ScaleCase = (u32, u32, u32, i32, i32, Option<(i64, i64)>);

// Numbers between the bounds, at the bounds and past them, and the widest bounds.
const SCALE_CASES: [ScaleCase; 13] = [
    (127, 255, 0, 0, 400, Some((1024, 51))),
    (0, 1023, 0, -100, 412, Some((206, 5))),
    (10, 10, 20, -5, 5, Some((-1, 2))),
    (20, 10, 20, -5, 5, Some((1, 2))),
    (20, 20, 10, -5, 5, Some((-1, 2))),
    (10, 20, 10, -5, 5, Some((1, 2))),
    (9, 10, 20, -5, 5, None),
    (21, 10, 20, -5, 5, None),
    (9, 20, 10, -5, 5, None),
    (21, 20, 10, -5, 5, None),
    (
        65_535,
        65_535,
        0,
        -1_000_000,
        1_000_000,
        Some((-100_000, 1)),
    ),
    (
        1,
        65_535,
        0,
        -1_000_000,
        1_000_000,
        Some((1_310_660_000, 13_107)),
    ),
    (65_536, 0, 65_535, 0, 1, None),
];

#[test]
fn scaled_numbers(rt: HostRuntime) {
    for (raw, first_raw, last_raw, low_tenths, high_tenths, expected_fraction) in SCALE_CASES {
        assert!(rt; first_raw <= 65_535 && last_raw <= 65_535 && first_raw != last_raw);
        assert!(rt; -1_000_000 <= low_tenths && low_tenths <= 1_000_000);
        assert!(rt; -1_000_000 <= high_tenths && high_tenths <= 1_000_000);
        let scaled = scale(raw, first_raw, last_raw, low_tenths, high_tenths).map(
            numerator_and_denominator,
        );
        assert_eq!(rt;
            scaled,
            expected_fraction,
            "{raw} from {first_raw} to {last_raw}"
        );
    }
}

#[test]
fn quotients(rt: HostRuntime) {
    for (quotient, expected_fraction) in [
        (over(16_777_215, 1000), (3_355_443, 200)),
        (over(0, 1000), (0, 1)),
        (over(7, 1), (7, 1)),
    ] {
        assert_eq!(rt;
            numerator_and_denominator(quotient),
            expected_fraction,
            "{expected_fraction:?}"
        );
    }
    assert_eq!(rt; Fraction::default(), over(0, 1));
}
