//! Big-endian numbers of a few bytes.
ghost use Rattle.std.specs.Prelude.{◌≡◌, ◌*◌, ◌^◌, ◌<◌, ◌≤◌, length};
ghost use Rattle.bit_fields.specs.Bits.{bits, number};

// The number in the bytes, the most significant byte first.
pub(crate) fn read(bytes: &[u8]) -> u64
    requires { length bytes.now ≤ 5 }
    ensures { result ≡ number (bits bytes.now) }
{
    let mut wide = 0u64;
    for byte in bytes {
        wide = wide << 8 | u64::from(*byte);
    }
    wide
}

// Writes the number `wide` into the bytes, the most significant byte first.
pub(crate) fn write(bytes: &mut [u8], wide: u64)
    requires few { length bytes.old ≤ 5 }
    requires fits { wide < 2 ^ (8 * length bytes.old) }
    ensures value { number (bits bytes.new) ≡ wide }
    ensures len { length bytes.new ≡ length bytes.old }
{
    let count = bytes.len();
    for i in 0..count {
        bytes[i] = (wide >> (8 * (count - 1 - i)) & 0xFF) as u8;
    }
}
