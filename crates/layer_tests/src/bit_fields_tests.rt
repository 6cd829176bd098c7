//! Fields with known values: in the middle of bytes, across them, at both ends, and of maximum length.
use bit_fields::{get, put};

#[test]
fn fields_read(rt: HostRuntime) {
    for (case_number, (field_bits, expected_bits)) in [
        (get::<4, 13, 11>(&[0x08, 0x28, 0x46, 0x80]), 70),
        (get::<4, 28, 1>(&[0x00, 0x00, 0x00, 0x08]), 1),
        (get::<2, 15, 1>(&[0xFF, 0xFE]), 0),
        (get::<2, 15, 1>(&[0x00, 0x01]), 1),
        (get::<1, 0, 1>(&[0x80]), 1),
        (get::<4, 0, 32>(&[0x12, 0x34, 0x56, 0x78]), 0x1234_5678),
        (
            get::<5, 4, 32>(&[0xF1, 0x23, 0x45, 0x67, 0x8F]),
            0x1234_5678,
        ),
    ]
    .into_iter()
    .enumerate()
    {
        assert_eq!(rt; field_bits, expected_bits, "row {case_number}");
    }
}

#[test]
fn fields_written(rt: HostRuntime) {
    let mut byte = [0x91];
    put::<1, 4, 3>(&mut byte, 5);
    let mut whole_bytes = [0; 4];
    put::<4, 0, 32>(&mut whole_bytes, 4_294_967_295);
    let mut across_bytes = [0xFF; 4];
    put::<4, 6, 10>(&mut across_bytes, 0);
    let mut last_bits = [0x00, 0x00];
    put::<2, 15, 1>(&mut last_bits, 1);
    let mut five_bytes = [0xFF; 5];
    put::<5, 4, 32>(&mut five_bytes, 0x1234_5678);
    let cases: [(&[u8], &[u8]); 5] = [
        (&byte, &[0x9B]),
        (&whole_bytes, &[0xFF; 4]),
        (&across_bytes, &[0xFC, 0x00, 0xFF, 0xFF]),
        (&last_bits, &[0x00, 0x01]),
        (&five_bytes, &[0xF1, 0x23, 0x45, 0x67, 0x8F]),
    ];
    for (case_number, (bytes, expected_bytes)) in cases.into_iter().enumerate() {
        assert_eq!(rt; bytes, expected_bytes, "row {case_number}");
    }
}
