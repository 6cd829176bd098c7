//! The readings of the rows of a profile's table: a function for each kind of row. The crates of profiles use them,
//! mostly through the macro `read_rows!`.

ghost use Rattle.std.specs.Prelude.{◌≡◌, ◌≢◌, ◌^◌, ◌≤◌, ℤ, pos, negsuc, ◌≤ℤ◌, map};
ghost use Rattle.profile_rows.specs.Reading.{meaning_of, raw as itself, out_of_range};
ghost use Rattle.profile_rows.specs.Rows.{scaled_or_out_of_range, word_for, word_at_threshold, percentage_or_word_127};
ghost use Rattle.profile_rows.specs.Rows.{quotient};

use crate::What;
use exact_values::scale;

/// A value in `unit`: `raw_lo` means `tenths_lo` tenths and `raw_hi` means `tenths_hi`, linear between them. The raw
/// bounds may be in either order. A number outside them is out of range.
pub fn range(
    raw: u32,
    raw_lo: u32,
    raw_hi: u32,
    tenths_lo: i32,
    tenths_hi: i32,
    unit: &'static str,
) -> What
    requires differ { raw_lo ≢ raw_hi }
    requires low { raw_lo ≤ 65535 }
    requires high { raw_hi ≤ 65535 }
    requires tenths_low { (negsuc 999999 ≤ℤ tenths_lo) × (tenths_lo ≤ℤ pos 1000000) }
    requires tenths_high { (negsuc 999999 ≤ℤ tenths_hi) × (tenths_hi ≤ℤ pos 1000000) }
    ensures { meaning_of result ≡ scaled_or_out_of_range raw_lo raw_hi tenths_lo tenths_hi unit.now raw }
{
    match scale(raw, raw_lo, raw_hi, tenths_lo, tenths_hi) {
        Some(value) => What::Value(value, unit),
        None => What::OutOfRange(raw),
    }
}

/// The first word that is listed with the number. A number without a word is out of range.
pub fn words(raw: u32, list: &[(u32, &'static str)]) -> What
    ensures { meaning_of result ≡ word_for (map (λ entry. (entry.0, entry.1.now)) list.now) raw }
{
    for (number, word) in list {
        if *number == raw {
            return What::Word(word);
        }
    }
    reserved(raw)
}

/// The word `below` for numbers below the bound, and the word `from` from the bound on.
pub fn threshold(raw: u32, bound: u32, below: &'static str, from: &'static str) -> What
    ensures { meaning_of result ≡ word_at_threshold bound below.now from.now raw }
{
    What::Word(if raw < bound { below } else { from })
}

/// 0 to 100 percent, and a word for 127. Every other number is out of range.
pub fn percent_or_word_127(raw: u32, word: &'static str) -> What
    ensures { meaning_of result ≡ percentage_or_word_127 word.now raw }
{
    if raw == 127 {
        What::Word(word)
    } else {
        range(raw, 0, 100, 0, 1000, "%")
    }
}

/// A value in `unit`: the number divided by a divisor.
pub fn over(raw: u32, divisor: u32, unit: &'static str) -> What
    requires { (1 ≤ divisor) × (divisor ≤ 1000) }
    ensures { meaning_of result ≡ quotient divisor unit.now raw }
{
    What::Value(exact_values::over(raw, divisor), unit)
}

/// A value in `unit`: the number divided by ten to a power, at most the third.
pub fn over_power(raw: u32, exponent: u32, unit: &'static str) -> What
    requires { exponent ≤ 3 }
    ensures { meaning_of result ≡ quotient (10 ^ exponent) unit.now raw }
{
    let divisor = match exponent {
        0 => 1,
        1 => 10,
        2 => 100,
        _ => 1000,
    };
    over(raw, divisor, unit)
}

/// The number itself.
pub fn number(raw: u32) -> What
    ensures { meaning_of result ≡ itself raw }
{
    What::Raw(raw)
}

/// Out of range, whatever the number is.
pub fn reserved(raw: u32) -> What
    ensures { meaning_of result ≡ out_of_range raw }
{
    What::OutOfRange(raw)
}
