// The texts of a decimal.
ghost use Rattle.std.specs.Prelude.{◌≡◌, ◌+◌, ◌-◌, ◌≤◌, ◌<◌, ◌^◌, ◌++◌, [], ◌∷◌, take, drop, replicate, length, codes, ℤ, pos, neg_ℤ, ◌+ℤ◌, ◌-ℤ◌, ◌≤ℤ◌, unsigned_abs, decimal, int_le, nat_lt, ◌&&◌, if◌then◌else◌};
ghost use Rattle.dk_num.specs.Decimal.{IsCanonical, digit_count};
ghost use Rattle.dk_num.specs.Texts.{table_text, sci_text, sign_text, with_point, plain_digits, exponent_text, pointed, pointed_fully, filled, body_text, places_text, joined};

use crate::Dec;
use crate::line::Line;

impl Dec {
    /// Writes the text of tables and summaries at the front, and answers its length in bytes, at most 42. It is plain
    /// where the power of ten of the first digit is in -6 to 33, and else has an exponent.
    pub fn table_text(&self, out: &mut [u8; 64]) -> usize
        ensures writes_text { take result out.new ≡ table_text self.now }
        ensures is_short { result ≤ 42 }
    {
        let (mantissa, exponent) = self.pair();
        text_of(mantissa, exponent).write(out)
    }

    /// Writes the text of a parameters file at the front, and answers its length in bytes, at most 42: a point behind
    /// the first digit, at least 15 digits behind the point and an exponent of at least two digits. Zero is
    /// 0.000000000000000e+00.
    pub fn sci_text(&self, out: &mut [u8; 64]) -> usize
        ensures writes_text { take result out.new ≡ sci_text self.now }
        ensures is_short { result ≤ 42 }
    {
        let (mantissa, exponent) = self.pair();
        sci_of(mantissa, exponent).write(out)
    }
}

#[tactic(auto, unfolding(crate::specs::Texts::table_text))]
fn text_of(mantissa: i128, exponent: i32) -> Line
    requires { IsCanonical (record { mantissa = mantissa; exponent = exponent }) }
    ensures text { result ≡ table_text (record { mantissa = mantissa; exponent = exponent }) }
    ensures short { length result ≤ 42 }
{
    let mut line = Line::new();
    let magnitude = mantissa.unsigned_abs();
    if magnitude == 0 {
        line.put(b"0");
        return line;
    }
    let mut buffer = [0; 40];
    let digits = digits_of(&mut buffer, magnitude);
    put_sign(&mut line, mantissa);
    put_body(&mut line, digits, exponent);
    line
}

fn put_sign(line: &mut Line, mantissa: i128)
    requires { line.old ≡ [] }
    ensures text { line.new ≡ sign_text mantissa }
    ensures short { length line.new ≤ 1 }
{
    if mantissa < 0 {
        line.put(b"-");
    }
}

/// The digits, plainly or with an exponent.
fn put_body(line: &mut Line, digits: &[u8], exponent: i32)
    requires sign { length line.old ≤ 1 }
    requires some { 0 < length digits.now }
    requires few { length digits.now ≤ 34 }
    requires lowest { neg_ℤ (pos 9999) ≤ℤ ((exponent +ℤ pos (length digits.now)) -ℤ pos 1) }
    requires highest { ((exponent +ℤ pos (length digits.now)) -ℤ pos 1) ≤ℤ pos 9999 }
    ensures text { line.new ≡ line.old ++ body_text digits.now exponent ((exponent +ℤ pos (length digits.now)) -ℤ pos 1) }
    ensures short { length line.new ≤ 42 }
{
    let leading = leading_of(exponent, digits.len());
    if is_plain(leading) {
        put_plain(line, digits, exponent);
    } else {
        put_pointed(line, digits);
        put_exponent(line, leading);
    }
}

fn put_plain(line: &mut Line, digits: &[u8], exponent: i32)
    requires sign { length line.old ≤ 1 }
    requires few { length digits.now ≤ 34 }
    requires low { neg_ℤ (pos 39) ≤ℤ exponent }
    requires high { (exponent +ℤ pos (length digits.now)) ≤ℤ pos 34 }
    ensures text { line.new ≡ line.old ++ plain_digits digits.now exponent }
    ensures short { length line.new ≤ 42 }
{
    if exponent < 0 {
        put_point(line, digits, exponent.unsigned_abs() as usize);
    } else {
        line.put(digits);
        line.put_zeros(exponent as usize);
    }
}

fn put_point(line: &mut Line, digits: &[u8], places: usize)
    requires sign { length line.old ≤ 1 }
    requires few { length digits.now ≤ 34 }
    requires near { places ≤ 39 }
    ensures text { line.new ≡ line.old ++ with_point digits.now places }
    ensures short { length line.new ≤ 42 }
{
    if places < digits.len() {
        let whole = digits.len() - places;
        line.put(&digits[..whole]);
        line.put(b".");
        line.put(&digits[whole..]);
    } else {
        line.put(b"0.");
        line.put_zeros(places - digits.len());
        line.put(digits);
    }
}

fn put_pointed(line: &mut Line, digits: &[u8])
    requires sign { length line.old ≤ 1 }
    requires some { 0 < length digits.now }
    requires few { length digits.now ≤ 34 }
    ensures text { line.new ≡ line.old ++ pointed digits.now }
    ensures short { length line.new ≤ 36 }
{
    line.put(&digits[..1]);
    if digits.len() > 1 {
        line.put(b".");
        line.put(&digits[1..]);
    }
}

fn put_exponent(line: &mut Line, exponent: i32)
    requires room { length line.old ≤ 36 }
    requires near { unsigned_abs exponent ≤ 9999 }
    ensures text { line.new ≡ line.old ++ exponent_text exponent }
    ensures short { length line.new ≤ 42 }
{
    if exponent < 0 {
        put_places(line, b"e-", exponent.unsigned_abs());
    } else {
        put_places(line, b"e+", exponent.unsigned_abs());
    }
}

fn put_places(line: &mut Line, mark: &[u8], places: u32)
    requires room { length line.old ≤ 36 }
    requires mark { length mark.now ≡ 2 }
    requires near { places ≤ 9999 }
    ensures text { line.new ≡ line.old ++ places_text mark.now places }
    ensures short { length line.new ≤ 42 }
{
    line.put(mark);
    put_number(line, places);
}

/// A number in at least two digits.
#[tactic(auto, using(crate::proofs::Lengths::one_digit, crate::proofs::Lengths::four_digits))]
fn put_number(line: &mut Line, number: u32)
    requires room { length line.old ≤ 38 }
    requires near { number ≤ 9999 }
    ensures text { line.new ≡ line.old ++ joined ((if nat_lt number 10 then codes "0" else []) ∷ decimal number ∷ []) }
    ensures short { length line.new ≤ 42 }
{
    let mut buffer = itoa::Buffer::new();
    let digits = buffer.format(number).as_bytes();
    if number < 10 {
        line.put(b"0");
        line.put(digits);
    } else {
        line.put(digits);
    }
}

fn leading_of(exponent: i32, count: usize) -> i32
    requires few { count ≤ 34 }
    requires lowest { neg_ℤ (pos 9999) ≤ℤ ((exponent +ℤ pos count) -ℤ pos 1) }
    requires highest { ((exponent +ℤ pos count) -ℤ pos 1) ≤ℤ pos 9999 }
    ensures { result ≡ (exponent +ℤ pos count) -ℤ pos 1 }
{
    exponent + count as i32 - 1
}

/// Whether a number that leads with this power is written plainly.
fn is_plain(leading: i32) -> bool
    ensures { result ≡ (int_le (neg_ℤ (pos 6)) leading && int_le leading (pos 33)) }
{
    -6 <= leading && leading <= 33
}

#[tactic(auto, unfolding(crate::specs::Texts::sci_text))]
fn sci_of(mantissa: i128, exponent: i32) -> Line
    requires { IsCanonical (record { mantissa = mantissa; exponent = exponent }) }
    ensures text { result ≡ sci_text (record { mantissa = mantissa; exponent = exponent }) }
    ensures short { length result ≤ 42 }
{
    let mut line = Line::new();
    let magnitude = mantissa.unsigned_abs();
    if magnitude == 0 {
        put_sci(&mut line, b"0", 0);
        return line;
    }
    let mut buffer = [0; 40];
    let digits = digits_of(&mut buffer, magnitude);
    put_sign(&mut line, mantissa);
    put_sci(&mut line, digits, leading_of(exponent, digits.len()));
    line
}

/// The digits with an exponent.
fn put_sci(line: &mut Line, digits: &[u8], leading: i32)
    requires sign { length line.old ≤ 1 }
    requires some { 0 < length digits.now }
    requires few { length digits.now ≤ 34 }
    requires near { unsigned_abs leading ≤ 9999 }
    ensures text { line.new ≡ line.old ++ (pointed_fully digits.now ++ exponent_text leading) }
    ensures short { length line.new ≤ 42 }
{
    put_pointed_fully(line, digits);
    put_exponent(line, leading);
}

fn put_pointed_fully(line: &mut Line, digits: &[u8])
    requires sign { length line.old ≤ 1 }
    requires some { 0 < length digits.now }
    requires few { length digits.now ≤ 34 }
    ensures text { line.new ≡ line.old ++ pointed_fully digits.now }
    ensures short { length line.new ≤ 36 }
{
    line.put(&digits[..1]);
    line.put(b".");
    put_filled(line, &digits[1..]);
}

/// The fewest digits behind the point.
const FEWEST_DIGITS: usize = 15;

/// The digits, with zeros behind them where they are too few.
fn put_filled(line: &mut Line, digits: &[u8])
    requires room { length line.old ≤ 3 }
    requires few { length digits.now ≤ 33 }
    ensures text { line.new ≡ line.old ++ filled digits.now }
    ensures short { length line.new ≤ 36 }
{
    line.put(digits);
    line.put_zeros(FEWEST_DIGITS.saturating_sub(digits.len()));
}

/// Ten to the power of 16.
const HALF: u64 = 10_000_000_000_000_000;

/// Writes the digits so that they end with the buffer, and answers where they start.
fn write_digits(n: u128, buffer: &mut [u8; 40]) -> usize
    requires small { n < 10 ^ 34 }
    ensures start { result ≤ 40 }
    ensures text { drop result buffer.new ≡ decimal n }
{
    if n <= u64::MAX as u128 {
        return itoa::write_digits(n as u64, buffer, 40);
    }
    let low = (n % HALF as u128) as u64;
    let high = (n / HALF as u128) as u64;
    // A 1 stands before the low half, so that its zeros are written; the high half ends over it.
    itoa::write_digits(HALF + low, buffer, 40);
    itoa::write_digits(high, buffer, 24)
}

/// The digits of a magnitude.
fn digits_of(buffer: &mut [u8; 40], magnitude: u128) -> &[u8]
    requires some { 0 < magnitude }
    requires small { magnitude < 10 ^ 34 }
    ensures text { result.now ≡ decimal magnitude }
    ensures count { length result.now ≡ digit_count magnitude }
    ensures some { 0 < length result.now }
    ensures few { length result.now ≤ 34 }
{
    let start = write_digits(magnitude, buffer);
    &buffer[start..]
}

#[cfg(test)]
mod tests {
    use super::*;
    use crate::dec::tests::{Pair, at};

    // Decimals, and their texts.
    const TEXTS: [(Pair, &str); 28] = [
        ((0, 0), "0"),
        ((-7, 0), "-7"),
        ((25, -1), "2.5"),
        ((1, -6), "0.000001"),
        ((-1, -7), "-1e-07"),
        ((12345, -10), "0.0000012345"),
        ((12345, -11), "1.2345e-07"),
        ((1, 33), "1000000000000000000000000000000000"),
        ((1, 34), "1e+34"),
        ((-1, 34), "-1e+34"),
        (
            (9999999999999999999999999999999999, 0),
            "9999999999999999999999999999999999",
        ),
        (
            (-9999999999999999999999999999999999, -39),
            "-0.000009999999999999999999999999999999999",
        ),
        (
            (9999999999999999999999999999999999, -40),
            "9.999999999999999999999999999999999e-07",
        ),
        (
            (-9999999999999999999999999999999999, -41),
            "-9.999999999999999999999999999999999e-08",
        ),
        (
            (1234567890123456789012345678901234, -33),
            "1.234567890123456789012345678901234",
        ),
        ((18446744073709551615, 0), "18446744073709551615"),
        ((18446744073709551616, 0), "18446744073709551616"),
        ((18446744073709551616, -20), "0.18446744073709551616"),
        ((100000000000000001, 0), "100000000000000001"),
        ((1000000000000000000001, 5), "100000000000000000000100000"),
        (
            (1000000000000000100000000000000001, -16),
            "100000000000000010.0000000000000001",
        ),
        ((30000000000000000004, -10), "3000000000.0000000004"),
        ((7, 9999), "7e+9999"),
        ((-7, -9999), "-7e-9999"),
        ((12, 9998), "1.2e+9999"),
        (
            (9999999999999999999999999999999999, -10032),
            "9.999999999999999999999999999999999e-9999",
        ),
        ((5, 9), "5000000000"),
        ((5, -10), "5e-10"),
    ];

    // Decimals, and their texts in a parameters file.
    const SCI_TEXTS: [(Pair, &str); 16] = [
        ((0, 0), "0.000000000000000e+00"),
        ((1, 0), "1.000000000000000e+00"),
        ((12, 2), "1.200000000000000e+03"),
        ((5, -1), "5.000000000000000e-01"),
        ((65, -1), "6.500000000000000e+00"),
        ((-125, -1), "-1.250000000000000e+01"),
        ((1, 99), "1.000000000000000e+99"),
        ((-1, 100), "-1.000000000000000e+100"),
        ((123456789012345, 0), "1.234567890123450e+14"),
        ((1234567890123456, -16), "1.234567890123456e-01"),
        ((12345678901234567, -20), "1.2345678901234567e-04"),
        ((100000000000000001, 0), "1.00000000000000001e+17"),
        ((7, 9999), "7.000000000000000e+9999"),
        ((-7, -9999), "-7.000000000000000e-9999"),
        (
            (9999999999999999999999999999999999, 9966),
            "9.999999999999999999999999999999999e+9999",
        ),
        (
            (-9999999999999999999999999999999999, -10032),
            "-9.999999999999999999999999999999999e-9999",
        ),
    ];

    #[test]
    fn writes_texts(rt: HostRuntime) {
        for (pair, want) in TEXTS {
            let mut out = [0; 64];
            let length = at(pair).table_text(&mut out);
            assert_eq!(rt; &out[..length], want.as_bytes(), "{pair:?}");
        }
    }

    #[test]
    fn writes_sci_texts(rt: HostRuntime) {
        for (pair, want) in SCI_TEXTS {
            let mut out = [0; 64];
            let length = at(pair).sci_text(&mut out);
            assert_eq!(rt; &out[..length], want.as_bytes(), "{pair:?}");
        }
    }
}
