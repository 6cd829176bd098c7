//! The words of a line, and the values that they spell.
ghost use Rattle.std.specs.Prelude.{◌≡◌, ◌==◌, [], ◌∷◌, MatchOption, option_map, position};
ghost use Rattle.std.specs.Char.{is_ascii_digit};
ghost use Rattle.std.specs.List.{list_all};
ghost use Rattle.desk_orders.specs.Words.{has_no_leading_zero, byte_in, eep_in, id_in, is_short_decimal, number_in};
ghost use Rattle.desk_orders.specs.Words.{label_if_well_formed, quantity_in, state_in, label_in, remaining_words};

use crate::orders::Quantity;
use erp1_telegrams::Eep;
use hex::FromHex;
use learned_devices::is_label_of_any_length;

// The index of the first space.
fn find_space(line: &[u8]) -> Option<usize>
    ensures { result ≡ position (λ b. b == 32) line.now }
{
    line.iter().position(|b| *b == b' ')
}

// Splits off the next word of a line, whose rest is `left`. `left` becomes the rest after the word's space, or `None`
// at the end. Returns `None` after the last word.
pub(crate) fn next_word<'a>(left: &mut Option<&'a [u8]>) -> Option<&'a [u8]>
    ensures { MatchOption result (remaining_words left.old ≡ [])
        (λ word. remaining_words left.old ≡ word.now ∷ remaining_words left.new) }
{
    let line = (*left)?;
    match find_space(line) {
        Some(at) => {
            *left = Some(&line[at + 1..]);
            Some(&line[..at])
        }
        None => {
            *left = None;
            Some(line)
        }
    }
}

fn byte_of_hex(digits: &[u8]) -> Option<u8>
    ensures { result ≡ byte_in digits.now }
{
    let [byte] = <[u8; 1] as FromHex>::from_hex(digits).ok()?;
    Some(byte)
}

/// Reads an ID, of a device or of a radio module: eight hexadecimal digits, in upper or lower case, the high byte
/// first, from `00000000` to `FFFFFFFF`. Returns `None` for any other text.
pub fn id_of(digits: &[u8]) -> Option<u32>
    ensures { result ≡ id_in digits.now }
{
    let bytes = <[u8; 4] as FromHex>::from_hex(digits).ok()?;
    Some(u32::from_be_bytes(bytes))
}

// Reads the name of a profile: three pairs of hexadecimal digits, in upper or lower case, with `-` between them.
pub(crate) fn eep_of(text: &[u8]) -> Option<Eep>
    ensures { result ≡ eep_in text.now }
{
    let [a, b, b'-', c, d, b'-', e, f] = text else {
        return None;
    };
    let rorg = byte_of_hex(&[*a, *b])?;
    let func = byte_of_hex(&[*c, *d])?;
    let typ = byte_of_hex(&[*e, *f])?;
    Some(Eep::new(rorg, func, typ))
}

// Whether a text has no zero before another digit, like a number.
fn has_no_leading_zero(text: &[u8]) -> bool
    ensures { result ≡ has_no_leading_zero text.now }
{
    match text {
        [] => false,
        [_] => true,
        [first, ..] => *first != b'0',
    }
}

fn are_digits(text: &[u8]) -> bool
    ensures { result ≡ list_all is_ascii_digit text.now }
{
    text.iter().all(u8::is_ascii_digit)
}

// Whether a text is `0`, or up to five decimal digits that do not begin with 0.
fn is_short_decimal(text: &[u8]) -> bool
    ensures { result ≡ is_short_decimal text.now }
{
    has_no_leading_zero(text) && text.len() <= 5 && are_digits(text)
}

// Reads a number: `0`, or up to five decimal digits that do not begin with 0.
pub(crate) fn number_of(text: &[u8]) -> Option<u32>
    ensures { result ≡ number_in text.now }
{
    if !is_short_decimal(text) {
        return None;
    }
    str::from_utf8(text).ok()?.parse().ok()
}

// Reads `on` as true and `off` as false.
pub(crate) fn state_of(text: &[u8]) -> Option<bool>
    ensures { result ≡ state_in text.now }
{
    if text == b"on".as_slice() {
        Some(true)
    } else if text == b"off".as_slice() {
        Some(false)
    } else {
        None
    }
}

pub(crate) fn quantity_of(text: &[u8]) -> Option<Quantity>
    ensures { result ≡ quantity_in text.now }
{
    if text == b"energy".as_slice() {
        Some(Quantity::Energy)
    } else if text == b"power".as_slice() {
        Some(Quantity::Power)
    } else {
        None
    }
}

// Reads the text of a label, of any length but 0.
fn label_if_well_formed(text: &[u8]) -> Option<&str>
    ensures { option_map (λ text. text.now) result ≡ label_if_well_formed text.now }
{
    if text.is_empty() || !is_label_of_any_length(text) {
        return None;
    }
    str::from_utf8(text).ok()
}

// Reads the rest of a line as the text of a label, of any length and with its spaces. The text is empty if there is no
// rest, and there is none if nothing follows a last space.
pub(crate) fn parse_label_rest(left: Option<&[u8]>) -> Option<&str>
    ensures { option_map (λ label. label.now) result ≡ label_in (remaining_words left.entry) }
{
    match left {
        Some(text) => label_if_well_formed(text),
        None => Some(""),
    }
}
