//! Getting and setting one field.
ghost use Rattle.std.specs.Prelude.{◌≡◌, ◌+◌, ◌*◌, ◌^◌, ◌<◌, ◌≤◌, length};
ghost use Rattle.bit_fields.specs.Bits.{field, WithField};

use crate::big_endian;

/// The field of `L` bits at the bit offset `O` of `N` bytes, its most significant bit first. It has 1 to 32 bits and
/// ends within the bytes; it may begin and end anywhere in a byte. The result is below 2 to the power of `L`.
///
/// `get::<1, 4, 3>(&[0x9B])` is 5, since 9B is 1001 1011 and the bits from offset 4 are 101
/// (EnOcean Equipment Profiles 2.6, on bit offsets).
pub fn get<const N: usize, const O: usize, const L: usize>(bytes: &[u8; N]) -> u32
    requires within { O + L ≤ 8 * N }
    requires some { 1 ≤ L }
    requires width { L ≤ 32 }
    ensures value { result ≡ field bytes.now O L }
    ensures fits { result < 2 ^ L }
{
    field_at(&bytes[..], O, L)
}

/// Writes `value` into the field of `L` bits at the bit offset `O` of `N` bytes, its most significant bit first, and
/// leaves every other bit as it is. The field has 1 to 32 bits and ends within the bytes, and `value` is below 2 to the
/// power of `L`.
///
/// `put::<1, 4, 3>` of 5 turns the byte 91, which is 1001 0001, into 9B, which is 1001 1011
/// (EnOcean Equipment Profiles 2.6, on bit offsets).
pub fn put<const N: usize, const O: usize, const L: usize>(bytes: &mut [u8; N], value: u32)
    requires within { O + L ≤ 8 * N }
    requires some { 1 ≤ L }
    requires width { L ≤ 32 }
    requires fits { value < 2 ^ L }
    ensures { WithField bytes.old O L value bytes.new }
{
    set_field_at(&mut bytes[..], O, L, value);
}

// The bytes that contain a field: from `first` to before `end`. Their last `below` bits are after the field.
struct ByteSpan {
    first: usize,
    end: usize,
    below: usize,
}

// The bytes that contain the field of `len` bits at `offset`.
fn byte_span_of(offset: usize, len: usize) -> ByteSpan
    requires { len ≤ 32 }
    ensures begins { (8 * result.first ≤ offset) × (offset < 8 * result.first + 8) }
    ensures ends { (8 * result.end ≡ offset + len + result.below) × (result.below < 8) }
{
    let first = offset / 8;
    let count = (offset % 8 + len + 7) / 8;
    ByteSpan {
        first,
        end: first + count,
        below: 8 * count - (offset % 8 + len),
    }
}

// `get` for an offset and a length that are known only at run time.
fn field_at(bytes: &[u8], offset: usize, len: usize) -> u32
    requires within { offset + len ≤ 8 * length bytes.now }
    requires width { len ≤ 32 }
    ensures value { result ≡ field bytes.now offset len }
    ensures fits { result < 2 ^ len }
{
    let ByteSpan { first, end, below } = byte_span_of(offset, len);
    let wide = big_endian::read(&bytes[first..end]);
    (wide >> below & ((1u64 << len) - 1)) as u32
}

// `put` for an offset and a length that are known only at run time.
fn set_field_at(bytes: &mut [u8], offset: usize, len: usize, value: u32)
    requires within { offset + len ≤ 8 * length bytes.old }
    requires width { len ≤ 32 }
    requires fits { value < 2 ^ len }
    ensures { WithField bytes.old offset len value bytes.new }
{
    let ByteSpan { first, end, below } = byte_span_of(offset, len);
    let part = &mut bytes[first..end];
    let wide = big_endian::read(part);
    let high = wide >> (below + len) << (below + len);
    let low = wide & ((1u64 << below) - 1);
    big_endian::write(part, high | (u64::from(value) << below | low));
}
