//! The macros that decode the rows of a profile. A row of a table is written as
//! `"NAME" (offset, length) [condition] kind(arguments);`, in which the kinds are the functions of the module `rows`.

/// Sets `readings: &mut Readings` to what rows read in the bytes of a payload, in the order of the rows. There are at
/// most eight rows. A condition is empty, a field as in `(7, 1) = 1` or `(8, 3) > 4`, a variable of the caller as in
/// `nu = 1`, or such a variable and a field as in `nu = 1 and (7, 1) = 1`. Example, for `bytes: &[u8; 4]`:
///
/// ```text
/// read_rows! { readings, bytes, 4;
///     "HUM" (8, 8) [] range(0, 250, 0, 1000, "%");
///     "TMP" (16, 8) [(30, 1) = 1] range(0, 250, 0, 400, "C");
/// }
/// ```
#[macro_export]
macro_rules! read_rows {
    (
        $readings:ident, $bytes:ident, $n:literal;
        $($name:literal ($o:literal, $l:literal) $when:tt $kind:ident($($arg:expr),*);)*
    ) => {
        $readings.clear();
        $($crate::read_rows!(@row $readings, $bytes, $n, $when, $crate::Reading {
            name: $name,
            what: $crate::rows::$kind(bit_fields::get::<$n, $o, $l>($bytes), $($arg),*),
        });)*
    };
    (@row $readings:ident, $bytes:ident, $n:literal, [], $reading:expr) => { $readings.push($reading) };
    (@row $readings:ident, $bytes:ident, $n:literal, $when:tt, $reading:expr) => {
        if $crate::read_rows!(@when $bytes, $n, $when) {
            $readings.push($reading);
        }
    };
    (@when $bytes:ident, $n:literal, [($o:literal, $l:literal) = $v:literal]) => {
        bit_fields::get::<$n, $o, $l>($bytes) == $v
    };
    (@when $bytes:ident, $n:literal, [($o:literal, $l:literal) > $v:literal]) => {
        bit_fields::get::<$n, $o, $l>($bytes) > $v
    };
    (@when $bytes:ident, $n:literal, [$bit:ident = $v:literal]) => { $bit == $v };
    (@when $bytes:ident, $n:literal, [$bit:ident = $v:literal and $place:tt = $w:literal]) => {
        ($bit == $v) & $crate::read_rows!(@when $bytes, $n, [$place = $w])
    };
}

/// Sets `readings: &mut Readings` to what the rows of the profile's arm read, and returns whether there is such an arm.
/// If not, `readings` does not change. An arm is written as `pattern => { rows }`. The pattern is that of the second
/// argument, in the crates of profiles `(FUNC, TYPE)` or, if FUNC is known, the type alone. Example, for
/// `bytes: &[u8; 1]`:
///
/// ```text
/// read_profiles! { readings, (func, typ), bytes, 1;
///     (0x00, 0x01) => { "CO" (7, 1) [] words(&[(0, "open"), (1, "closed")]); }
/// }
/// ```
#[macro_export]
macro_rules! read_profiles {
    (
        $readings:ident, $profile:expr, $bytes:ident, $n:literal;
        $($pattern:pat => { $($row:tt)* })*
    ) => {
        match $profile {
            $($pattern => {
                $crate::read_rows! { $readings, $bytes, $n; $($row)* }
                true
            })*
            _ => false,
        }
    };
}
