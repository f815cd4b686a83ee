// The text of a number.
ghost use Rattle.std.specs.Prelude.{◌≡◌, ◌+◌, ◌-◌, ◌<◌, ◌≤◌, ◌^◌, ◌++◌, ◌==◌, ◌&&◌, ◌||◌, length, min, nat_lt, ℤ, pos, ◌+ℤ◌, ◌-ℤ◌, unsigned_abs, MatchOption, IfSome, Result, if◌then◌else◌};
ghost use Rattle.dk_num.specs.Decimal.{digit_count, zero_count, is_in_range};
ghost use Rattle.dk_num.specs.Numbers.{AreDigits, read_of, number_of, with_sign, numeral_value};
ghost use Rattle.dk_num.specs.Reading.{spelling, IsSignificand, significant_count};

use crate::Dec;
use crate::mantissa::{Significand, bounded, digits_behind};
use crate::scan::{Pieces, cut};

/// Why a text gives no decimal.
#[derive(Clone, Copy, Debug, PartialEq, Eq)]
pub enum NumFault {
    /// The text has no bytes.
    Empty,
    /// The text is not a number's. Its first `at` bytes are the front of some number's text, and no more are.
    Shape { at: usize },
    /// More than 34 digits stand before the exponent, those apart that are zeros at the front and at the end.
    TooLong,
    /// The number isn't zero, and the power of ten of its first digit is below -9999 or above 9999.
    OutOfRange,
}

impl Dec {
    ghost use Rattle.std.specs.Prelude.{◌≡◌};
    ghost use Rattle.dk_num.specs.Numbers.{read_of};

    /// Reads a number's text: an optional sign, `+` or `-`; digits, at least one, with at most one
    /// point before, among or behind them; and optionally an exponent, which is `e` or `E`, an optional
    /// sign and at least one digit. The text may be of any length, and no memory is taken.
    ///
    /// The answer is `Empty` exactly where the text has no bytes. Else it is `Shape` exactly where the
    /// text is not a number's, and `at` is the length of its longest front that some number's text
    /// begins with. Else it is `TooLong` exactly where more than 34 digits are left when the zeros at
    /// the front and at the end are taken off the digits before the exponent, read without the point.
    /// Else it is `OutOfRange` exactly where the number isn't zero and its first digit's power of ten is
    /// not in -9999 to 9999. Else it is the decimal with the number's value: zero whatever the exponent
    /// of a zero is.
    pub fn read(text: &[u8]) -> Result<Dec, NumFault>
        ensures gives_reading { result ≡ read_of text.now }
    {
        if text.is_empty() {
            return Err(NumFault::Empty);
        }
        let pieces = cut(text);
        if is_complete(&pieces) {
            number_of(&pieces)
        } else {
            Err(NumFault::Shape {
                at: text.len() - pieces.rest.len(),
            })
        }
    }
}

/// Whether the pieces are a number's, with nothing behind them.
fn is_complete(pieces: &Pieces) -> bool
    requires { length pieces.now.whole.now + length pieces.now.fraction.now < 2 ^ 64 }
    ensures { result ≡ ((length pieces.now.rest.now == 0) && nat_lt 0 (length pieces.now.whole.now + length pieces.now.fraction.now)
        && ((length pieces.now.mark.now == 0) || nat_lt 0 (length pieces.now.exponent.now))) }
{
    pieces.rest.len() == 0
        && pieces.whole.len() + pieces.fraction.len() > 0
        && (pieces.mark.len() == 0 || pieces.exponent.len() > 0)
}

/// The digits before the exponent, where at most 34 are left.
fn significand(whole: &[u8], fraction: &[u8]) -> Option<Significand>
    requires whole { AreDigits whole.now }
    requires fraction { AreDigits fraction.now }
    requires room { length whole.now + length fraction.now < 2 ^ 64 }
    ensures is { MatchOption result
        (34 < significant_count (numeral_value (whole.now ++ fraction.now)))
        (λ r. IsSignificand (numeral_value (whole.now ++ fraction.now)) r) }
    ensures zeros { IfSome result (λ r. r.zeros ≤ length whole.now + length fraction.now) }
{
    let zero = Significand {
        core: 0,
        count: 0,
        zeros: 0,
    };
    match digits_behind(zero, whole) {
        Some(number) => digits_behind(number, fraction),
        None => None,
    }
}

/// The number of this magnitude behind this sign.
fn signed(sign: &[u8], magnitude: u128) -> i128
    requires { magnitude < 2 ^ 127 }
    ensures { result ≡ with_sign sign.now magnitude }
{
    if sign.starts_with(b"-") {
        -(magnitude as i128)
    } else {
        magnitude as i128
    }
}

/// The power of ten of the last digit before the exponent, or one as far out of range.
fn last_place(sign: &[u8], digits: &[u8], fraction: usize) -> i128
    requires { AreDigits digits.now }
    ensures value { result ≡ with_sign sign.now (min (10 ^ 20) (numeral_value digits.now)) -ℤ pos fraction }
    ensures near { unsigned_abs result < 2 ^ 70 }
{
    signed(sign, bounded(digits)) - fraction as i128
}

/// Whether the first of so many digits has a power of ten in range.
fn leads(place: i128, digits: u128) -> bool
    requires near { unsigned_abs place < 2 ^ 70 }
    requires few { digits < 2 ^ 65 }
    ensures { result ≡ is_in_range ((place +ℤ pos digits) -ℤ pos 1) }
{
    let leading = place + digits as i128 - 1;
    -9999 <= leading && leading <= 9999
}

/// The power of ten of the last digit before so many zeros.
fn exponent_above(place: i128, zeros: usize) -> i32
    requires near { unsigned_abs place < 2 ^ 70 }
    requires small { unsigned_abs (place +ℤ pos zeros) ≤ 20000 }
    ensures { result ≡ place +ℤ pos zeros }
{
    (place + zeros as i128) as i32
}

/// How many digits there are, the zeros at the end with them.
fn all_digits(count: u32, zeros: usize) -> u128
    ensures { result ≡ count + zeros }
{
    count as u128 + zeros as u128
}

/// The decimal of so many digits, with so many zeros behind them, whose last has this power of ten.
fn placed(mantissa: i128, count: u32, zeros: usize, place: i128) -> Result<Dec, NumFault>
    requires some { 0 < unsigned_abs mantissa }
    requires count { digit_count (unsigned_abs mantissa) ≡ count }
    requires ends { zero_count (unsigned_abs mantissa) ≡ 0 }
    requires few { count ≤ 34 }
    requires near { unsigned_abs place < 2 ^ 70 }
    ensures { result ≡ (if is_in_range ((place +ℤ pos (count + zeros)) -ℤ pos 1)
        then Ok (record { mantissa = mantissa; exponent = place +ℤ pos zeros })
        else Err NumFault.OutOfRange) }
{
    if leads(place, all_digits(count, zeros)) {
        Ok(Dec::canonical(mantissa, exponent_above(place, zeros)))
    } else {
        Err(NumFault::OutOfRange)
    }
}

/// The decimal of a number's text.
fn number_of(pieces: &Pieces) -> Result<Dec, NumFault>
    requires whole { AreDigits pieces.now.whole.now }
    requires fraction { AreDigits pieces.now.fraction.now }
    requires exponent { AreDigits pieces.now.exponent.now }
    requires room { length pieces.now.whole.now + length pieces.now.fraction.now < 2 ^ 64 }
    ensures { result ≡ number_of (spelling pieces.now) }
{
    let number = match significand(pieces.whole, pieces.fraction) {
        Some(number) => number,
        None => return Err(NumFault::TooLong),
    };
    if number.core == 0 {
        return Ok(Dec::canonical(0, 0));
    }
    let place = last_place(pieces.exponent_sign, pieces.exponent, pieces.fraction.len());
    placed(
        signed(pieces.sign, number.core),
        number.count,
        number.zeros,
        place,
    )
}

#[cfg(test)]
mod tests {
    use super::*;

    /// Whether the text is read as the decimal with this plain text.
    fn gives(text: &str, want: &str) -> bool {
        let mut out = [0u8; 64];
        match Dec::read(text.as_bytes()) {
            Ok(d) => {
                let length = d.table_text(&mut out);
                &out[..length] == want.as_bytes()
            }
            Err(_) => false,
        }
    }

    fn fails(text: &str, want: NumFault) -> bool {
        match Dec::read(text.as_bytes()) {
            Ok(_) => false,
            Err(fault) => fault == want,
        }
    }

    #[test]
    fn reads_numbers(rt: HostRuntime) {
        for (text, want) in [
            ("0.10", "0.1"),
            ("-0", "0"),
            ("0e99999", "0"),
            ("1200", "1200"),
            ("1e-7", "1e-07"),
            ("1e34", "1e+34"),
            (".5", "0.5"),
            ("5.", "5"),
            ("+7", "7"),
            ("007", "7"),
            ("00.00", "0"),
            ("-50e-2", "-0.5"),
            ("-1.5E-3", "-0.0015"),
            ("+.5e1", "5"),
            ("1E+2", "100"),
            ("123.456e2", "12345.6"),
            ("0.000001", "0.000001"),
            ("0.0000001", "1e-07"),
            ("1e33", "1000000000000000000000000000000000"),
            ("3000000000000000000000000000000000000e-40", "0.0003"),
        ] {
            assert!(rt; gives(text, want), "at {text}");
        }
    }

    #[test]
    fn reads_numbers_at_the_limits(rt: HostRuntime) {
        for (text, want) in [
            (
                "1234567890123456789012345678901234",
                "1234567890123456789012345678901234",
            ),
            (
                "9999999999999999999999999999999999e0",
                "9999999999999999999999999999999999",
            ),
            (
                "0001234567890123456.7890123456789012340000",
                "1234567890123456.789012345678901234",
            ),
            ("100000000000000000000000000000000000", "1e+35"),
            ("1e9999", "1e+9999"),
            ("1e-9999", "1e-9999"),
            ("9.999e9999", "9.999e+9999"),
            ("0.0001e10003", "1e+9999"),
            ("-0.0001e-9995", "-1e-9999"),
            ("10000e-10003", "1e-9999"),
            ("5e+000000000000000000000000000007", "50000000"),
            ("5e-000000000000000000000000000007", "5e-07"),
            ("0e123456789012345678901234567890", "0"),
            ("-0.000e-123456789012345678901234567890", "0"),
        ] {
            assert!(rt; gives(text, want), "at {text}");
        }
    }

    #[test]
    fn says_where_a_text_is_no_number(rt: HostRuntime) {
        for (text, at) in [
            (".", 1usize),
            ("1e", 2),
            ("1x", 1),
            ("abc", 0),
            ("+", 1),
            ("-", 1),
            ("+.", 2),
            ("-.x", 2),
            ("--1", 1),
            ("+-1", 1),
            (" 1", 0),
            ("1 ", 1),
            ("1,5", 1),
            ("1.2.3", 3),
            ("e5", 0),
            (".e5", 1),
            ("1.e", 3),
            ("1e+", 3),
            ("1e-x", 3),
            ("1e5e", 3),
            ("1e5.", 3),
            ("1e5+", 3),
            ("0x10", 1),
            ("1_000", 1),
            ("inf", 0),
            ("NaN", 0),
        ] {
            assert!(rt; fails(text, NumFault::Shape { at }), "at {text}");
        }
        assert!(rt; fails("", NumFault::Empty));
    }

    #[test]
    fn refuses_numbers_past_the_limits(rt: HostRuntime) {
        for (text, want) in [
            ("11111111111111111111111111111111111", NumFault::TooLong),
            ("1234567890123456789012345678901234.5", NumFault::TooLong),
            (
                "0.0000011111111111111111111111111111111111",
                NumFault::TooLong,
            ),
            ("-10000000000000000000000000000000001", NumFault::TooLong),
            (
                "100000000000000000000000000000000001e99999",
                NumFault::TooLong,
            ),
            ("1e10000", NumFault::OutOfRange),
            ("1e-10000", NumFault::OutOfRange),
            ("-1e10000", NumFault::OutOfRange),
            ("0.1e-9999", NumFault::OutOfRange),
            ("10e9999", NumFault::OutOfRange),
            ("0.0001e10004", NumFault::OutOfRange),
            ("1e-18446744073709551616", NumFault::OutOfRange),
            ("1e99999999999999999999", NumFault::OutOfRange),
            ("1e123456789012345678901234567890", NumFault::OutOfRange),
            ("1e-123456789012345678901234567890", NumFault::OutOfRange),
        ] {
            assert!(rt; fails(text, want), "at {text}");
        }
    }
}
