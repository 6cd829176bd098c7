//! The digits of IDs and profiles, in arrays, which need no memory.

ghost use Rattle.std.specs.Prelude.{◌≡◌, IsAscii};
ghost use Rattle.json_lines.specs.Lines.{learn_as_text, byte_text, eep_text, id_text};

use erp1_telegrams::Eep;

// The two hexadecimal digits of each byte, in upper case.
static HEX_PAIRS: [u8; 512] = *b"\
    000102030405060708090A0B0C0D0E0F101112131415161718191A1B1C1D1E1F\
    202122232425262728292A2B2C2D2E2F303132333435363738393A3B3C3D3E3F\
    404142434445464748494A4B4C4D4E4F505152535455565758595A5B5C5D5E5F\
    606162636465666768696A6B6C6D6E6F707172737475767778797A7B7C7D7E7F\
    808182838485868788898A8B8C8D8E8F909192939495969798999A9B9C9D9E9F\
    A0A1A2A3A4A5A6A7A8A9AAABACADAEAFB0B1B2B3B4B5B6B7B8B9BABBBCBDBEBF\
    C0C1C2C3C4C5C6C7C8C9CACBCCCDCECFD0D1D2D3D4D5D6D7D8D9DADBDCDDDEDF\
    E0E1E2E3E4E5E6E7E8E9EAEBECEDEEEFF0F1F2F3F4F5F6F7F8F9FAFBFCFDFEFF";

pub(crate) fn byte_digits(byte: u8) -> [u8; 2]
    ensures text { result ≡ byte_text byte }
    ensures ascii { IsAscii result }
{
    let at = 2 * usize::from(byte);
    [HEX_PAIRS[at], HEX_PAIRS[at + 1]]
}

pub(crate) fn id_digits(id: u32) -> [u8; 8]
    ensures text { result ≡ id_text id }
    ensures ascii { IsAscii result }
{
    let [first, second, third, fourth] = id.to_be_bytes();
    let first = byte_digits(first);
    let second = byte_digits(second);
    let third = byte_digits(third);
    let fourth = byte_digits(fourth);
    [
        first[0], first[1], second[0], second[1], third[0], third[1], fourth[0], fourth[1],
    ]
}

// The digits of a profile, with `-` between its numbers.
pub(crate) fn eep_digits(eep: Eep) -> [u8; 8]
    ensures text { result ≡ eep_text eep }
    ensures ascii { IsAscii result }
{
    let rorg = byte_digits(eep.rorg);
    let func = byte_digits(eep.func);
    let typ = byte_digits(eep.typ);
    [
        rorg[0], rorg[1], b'-', func[0], func[1], b'-', typ[0], typ[1],
    ]
}

// The digits of a profile, after `as `.
pub(crate) fn learn_as_text(eep: Eep) -> [u8; 11]
    ensures text { result ≡ learn_as_text eep }
    ensures ascii { IsAscii result }
{
    let [a, b, c, d, e, f, g, h] = eep_digits(eep);
    [b'a', b's', b' ', a, b, c, d, e, f, g, h]
}

pub(crate) fn ascii_str(digits: &[u8]) -> &str
    requires { IsAscii digits.now }
    ensures { result.now ≡ digits.now }
{
    match str::from_utf8(digits) {
        Ok(text) => text,
        Err(_) => unreachable!(),
    }
}
