// A decimal and its arithmetic.
ghost use Rattle.std.specs.Prelude.{◌≡◌, ◌↔◌, IsTrue, ◌+◌, ◌*◌, ◌%◌, ◌^◌, ◌<◌, ◌≤◌, ◌+ℤ◌, ◌-ℤ◌, ◌*ℤ◌, ℤ, pos, neg_ℤ, unsigned_abs, Some, None, IfSome, IfNone, is_some, if◌then◌else◌, ◌≤ℤ◌};
ghost use Rattle.std.specs.Int.{int_min};
ghost use Rattle.dk_num.specs.Decimal.{Decimal, IsCanonical, decimal_of, digit_count, zero_count, is_in_range};
ghost use Rattle.dk_num.specs.Arithmetic.{sum_of, difference, product, negated, small_product, sum_at};

use std::marker::Model;

const LIMIT: u128 = 10_000_000_000_000_000_000_000_000_000_000_000;

/// A decimal: a whole number below 10^34 in absolute value, times a power of ten. It is zero, or the power of ten of
/// its first digit is in -9999 to 9999. Each value has one pair.
#[derive(Clone, Copy, Debug)]
pub struct Dec {
    mantissa: i128,
    exponent: i32,
}

impl Model for Dec {
    ghost use Rattle.dk_num.specs.Decimal.{Decimal, IsCanonical};

    ghost Value = { Decimal };

    ghost view = { λ d. record { mantissa = d.mantissa; exponent = d.exponent } };

    ghost invariant = { λ d. IsCanonical (record { mantissa = d.mantissa; exponent = d.exponent }) };

    ghost inverse = { λ d. record { mantissa = d.mantissa; exponent = d.exponent } };
}

/// The powers of ten that a mantissa can hold.
const POWERS: [u128; 35] = [
    1,
    10,
    100,
    1000,
    10000,
    100000,
    1000000,
    10000000,
    100000000,
    1000000000,
    10000000000,
    100000000000,
    1000000000000,
    10000000000000,
    100000000000000,
    1000000000000000,
    10000000000000000,
    100000000000000000,
    1000000000000000000,
    10000000000000000000,
    100000000000000000000,
    1000000000000000000000,
    10000000000000000000000,
    100000000000000000000000,
    1000000000000000000000000,
    10000000000000000000000000,
    100000000000000000000000000,
    1000000000000000000000000000,
    10000000000000000000000000000,
    100000000000000000000000000000,
    1000000000000000000000000000000,
    10000000000000000000000000000000,
    100000000000000000000000000000000,
    1000000000000000000000000000000000,
    10000000000000000000000000000000000,
];

/// How many decimal digits a number has: none for 0.
pub(crate) fn digits(n: u128) -> u32
    ensures count { result ≡ digit_count n }
    ensures few { result ≤ 39 }
{
    if n == 0 { 0 } else { n.ilog10() + 1 }
}

/// A number without its zeros at the end, and how many they were.
#[derive(Drop)]
struct Stripping {
    rest: u128,
    zeros: u32,
}

/// Strips a number of 64 bits.
fn strip_short(n: u64) -> Stripping
    requires { 0 < n }
    ensures zeros { result.zeros ≡ zero_count n }
    ensures whole { n ≡ result.rest * 10 ^ zero_count n }
    ensures few { result.zeros < 39 }
{
    let mut rest = n;
    let mut zeros = 0u32;
    while rest % 10 == 0 {
        rest /= 10;
        zeros += 1;
    }
    Stripping {
        rest: rest as u128,
        zeros,
    }
}

/// Whether the last digit is 0; an odd number is told at once.
fn ends_with_zero(n: u128) -> bool
    ensures { IsTrue result ↔ (n % 10 ≡ 0) }
{
    n % 2 == 0 && n % 10 == 0
}

/// Strips a number, by numbers of 64 bits as soon as it is one.
fn strip(n: u128) -> Stripping
    requires { 0 < n }
    ensures zeros { result.zeros ≡ zero_count n }
    ensures whole { n ≡ result.rest * 10 ^ zero_count n }
    ensures few { result.zeros < 39 }
{
    let mut rest = n;
    let mut zeros = 0u32;
    while rest > u64::MAX as u128 {
        if !ends_with_zero(rest) {
            return Stripping { rest, zeros };
        }
        rest /= 10;
        zeros += 1;
    }
    let short = strip_short(rest as u64);
    Stripping {
        rest: short.rest,
        zeros: zeros + short.zeros,
    }
}

/// Whether the leading exponent of a number of this magnitude is in range.
fn leads_in_range(magnitude: u128, exponent: i32) -> bool
    requires { unsigned_abs exponent ≤ 100000 }
    ensures { result ≡ is_in_range ((exponent +ℤ pos (digit_count magnitude)) -ℤ pos 1) }
{
    let leading = exponent + digits(magnitude) as i32 - 1;
    -9999 <= leading && leading <= 9999
}

/// Whether a pair with a mantissa of this magnitude stands for a decimal.
fn is_canonical(magnitude: u128, exponent: i32) -> bool
    ensures { IsTrue result ↔ IsCanonical (record { mantissa = pos magnitude; exponent = exponent }) }
{
    if magnitude == 0 {
        return exponent == 0;
    }
    if magnitude >= LIMIT {
        return false;
    }
    if ends_with_zero(magnitude) {
        return false;
    }
    if exponent.unsigned_abs() > 20000 {
        return false;
    }
    leads_in_range(magnitude, exponent)
}

/// The number of this magnitude and sign.
fn signed(magnitude: u128, negative: bool) -> i128
    requires { magnitude < 10 ^ 34 }
    ensures { result ≡ (if negative then neg_ℤ (pos magnitude) else pos magnitude) }
{
    if negative {
        -(magnitude as i128)
    } else {
        magnitude as i128
    }
}

impl Dec {
    ghost use Rattle.std.specs.Prelude.{◌≡◌, ◌↔◌, IsTrue, ◌<◌, ◌≤◌, ◌^◌, ◌*ℤ◌, ◌+ℤ◌, ◌≤ℤ◌, ℤ, pos, neg_ℤ, unsigned_abs, Some, None, IfSome, is_some};
    ghost use Rattle.dk_num.specs.Decimal.{decimal_of, zero_decimal, IsCanonical};
    ghost use Rattle.dk_num.specs.Arithmetic.{product, sum_of, difference, negated};

    /// Its pair: a whole number, and the power of ten that it is multiplied by.
    pub fn pair(&self) -> (i128, i32)
        ensures gives_mantissa { result.0 ≡ self.now.mantissa }
        ensures gives_exponent { result.1 ≡ self.now.exponent }
        ensures is_canonical { IsCanonical self.now }
    {
        (self.mantissa, self.exponent)
    }

    /// The decimal with this pair, where it is one: the mantissa is below 10^34 in absolute value and 10 doesn't divide
    /// it, and the power of ten of its first digit is in -9999 to 9999, or both numbers are 0. None exactly where the
    /// pair isn't one that `pair` can give.
    pub fn of_pair(mantissa: i128, exponent: i32) -> Option<Dec>
        ensures is_the_pair { IfSome result (λ d. d ≡ record { mantissa = mantissa; exponent = exponent }) }
        ensures tells_canonical { IsTrue (is_some result) ↔ IsCanonical (record { mantissa = mantissa; exponent = exponent }) }
    {
        if is_canonical(mantissa.unsigned_abs(), exponent) {
            Some(Dec { mantissa, exponent })
        } else {
            None
        }
    }

    /// Whether it is zero.
    pub fn is_zero(&self) -> bool
        ensures tells_zero { IsTrue result ↔ (self.now.mantissa ≡ pos 0) }
        ensures is_canonical { IsCanonical self.now }
    {
        self.mantissa == 0
    }

    /// The mantissa, and how far the exponent lies above the least one.
    pub(crate) fn lifted_pair(&self) -> (i128, u32)
        ensures mantissa { result.0 ≡ self.now.mantissa }
        ensures exponent { result.1 ≡ unsigned_abs (self.now.exponent +ℤ pos 10032) }
        ensures small { unsigned_abs result.0 < 10 ^ 34 }
    {
        (self.mantissa, lifted(self.exponent))
    }

    pub(crate) fn one() -> Dec
        ensures { result ≡ record { mantissa = pos 1; exponent = pos 0 } }
    {
        Dec {
            mantissa: 1,
            exponent: 0,
        }
    }

    pub(crate) fn hundred() -> Dec
        ensures { result ≡ record { mantissa = pos 1; exponent = pos 2 } }
    {
        Dec {
            mantissa: 1,
            exponent: 2,
        }
    }

    /// The decimal with the value mantissa * 10^exponent.
    pub(crate) fn of(mantissa: i128, exponent: i32) -> Option<Dec>
        requires { unsigned_abs exponent ≤ 100000 }
        ensures { result ≡ decimal_of (record { mantissa = mantissa; exponent = exponent }) }
    {
        let magnitude = mantissa.unsigned_abs();
        if magnitude == 0 {
            return Some(Dec {
                mantissa: 0,
                exponent: 0,
            });
        }
        if magnitude >= LIMIT {
            return None;
        }
        if !leads_in_range(magnitude, exponent) {
            return None;
        }
        let stripped = strip(magnitude);
        Some(Dec {
            mantissa: signed(stripped.rest, mantissa < 0),
            exponent: exponent + stripped.zeros as i32,
        })
    }

    /// The decimal that is this pair.
    pub(crate) fn canonical(mantissa: i128, exponent: i32) -> Dec
        requires { IsCanonical (record { mantissa = mantissa; exponent = exponent }) }
        ensures { result ≡ record { mantissa = mantissa; exponent = exponent } }
    {
        Dec { mantissa, exponent }
    }

    /// The decimal with the value of a whole number of at most 34 digits.
    pub fn whole(n: i128) -> Dec
        requires is_small { unsigned_abs n < 10 ^ 34 }
        ensures is_the_number { decimal_of (record { mantissa = n; exponent = pos 0 }) ≡ Some result }
    {
        match Dec::of(n, 0) {
            Some(d) => d,
            None => unreachable!(),
        }
    }

    /// The sum: the other number where one of the two is zero. Else both are written with the lower of their exponents,
    /// and there is no sum exactly where one of the two mantissas so written, or the sum of the two, isn't below 10^34
    /// in absolute value, or where that sum isn't zero and its first digit's power of ten isn't in -9999 to 9999.
    pub fn add(self, other: Dec) -> Option<Dec>
        ensures gives_sum { result ≡ sum_of self other }
    {
        if self.mantissa == 0 {
            return Some(other);
        }
        if other.mantissa == 0 {
            return Some(self);
        }
        sum(self.mantissa, self.exponent, other.mantissa, other.exponent)
    }

    /// The number with the other sign.
    fn negate(self) -> Dec
        ensures { result ≡ negated self }
    {
        Dec {
            mantissa: -self.mantissa,
            exponent: self.exponent,
        }
    }

    /// The difference: the sum with `other` under the other sign, and none exactly where that sum has none.
    pub fn sub(self, other: Dec) -> Option<Dec>
        ensures gives_difference { result ≡ difference self other }
    {
        self.add(other.negate())
    }

    /// The product: zero where a factor is zero. Else there is no product exactly where that of the two mantissas,
    /// multiplied before zeros at its end are taken off, isn't below 10^34 in absolute value, or where its first
    /// digit's power of ten isn't in -9999 to 9999.
    pub fn mul(self, other: Dec) -> Option<Dec>
        ensures gives_product { result ≡ product self other }
    {
        match mantissa_product(self.mantissa, other.mantissa) {
            None => None,
            Some(mantissa) => Dec::of(mantissa, self.exponent + other.exponent),
        }
    }
}

/// The product of two mantissas, where it isn't far too wide for one.
fn mantissa_product(a: i128, b: i128) -> Option<i128>
    requires first { unsigned_abs a < 10 ^ 34 }
    requires second { unsigned_abs b < 10 ^ 34 }
    ensures wide { IfNone result (10 ^ 34 ≤ unsigned_abs (a *ℤ b)) }
    ensures value { IfSome result (λ z. z ≡ a *ℤ b) }
{
    if a.unsigned_abs().leading_zeros() + b.unsigned_abs().leading_zeros() < 129 {
        return None;
    }
    Some(a * b)
}

/// Ten to a power.
pub(crate) fn power_of_ten(places: u32) -> u128
    requires { places ≤ 34 }
    ensures value { result ≡ 10 ^ places }
    ensures small { result ≤ 10 ^ 34 }
{
    POWERS[places as usize]
}

/// The mantissa with so many zeros more, where that is small.
fn shifted(mantissa: i128, places: u32) -> Option<i128>
    requires some { 0 < unsigned_abs mantissa }
    requires small { unsigned_abs mantissa < 10 ^ 34 }
    ensures value { result ≡ small_product mantissa places }
    ensures small { IfSome result (λ z. unsigned_abs z < 10 ^ 34) }
{
    if places == 0 {
        return Some(mantissa);
    }
    if places > 34 {
        return None;
    }
    if mantissa.unsigned_abs() >= power_of_ten(34 - places) {
        return None;
    }
    Some(mantissa * power_of_ten(places) as i128)
}

/// How far one exponent is above another.
fn places_between(from: i32, to: i32) -> u32
    requires order { to ≤ℤ from }
    requires near_from { unsigned_abs from ≤ 20000 }
    requires near_to { unsigned_abs to ≤ 20000 }
    ensures { result ≡ unsigned_abs (from -ℤ to) }
{
    (from - to) as u32
}

/// The sum of two decimals that aren't zero.
fn sum(a: i128, p: i32, b: i128, q: i32) -> Option<Dec>
    requires first { 0 < unsigned_abs a }
    requires second { 0 < unsigned_abs b }
    requires small_first { unsigned_abs a < 10 ^ 34 }
    requires small_second { unsigned_abs b < 10 ^ 34 }
    requires near_first { unsigned_abs p ≤ 20000 }
    requires near_second { unsigned_abs q ≤ 20000 }
    ensures { result ≡ sum_at (int_min p q) (record { mantissa = a; exponent = p }) (record { mantissa = b; exponent = q }) }
{
    let exponent = p.min(q);
    match shifted(a, places_between(p, exponent)) {
        None => None,
        Some(first) => match shifted(b, places_between(q, exponent)) {
            None => None,
            Some(second) => Dec::of(first + second, exponent),
        },
    }
}

/// How far an exponent lies above the least one.
fn lifted(exponent: i32) -> u32
    requires { unsigned_abs exponent ≤ 10032 }
    ensures { result ≡ unsigned_abs (exponent +ℤ pos 10032) }
{
    (exponent + 10032) as u32
}

#[cfg(test)]
pub(crate) mod tests {
    use super::*;

    pub(crate) type Pair = (i128, i32);

    /// The decimal of a pair, or zero where it has none.
    pub(crate) fn at(pair: Pair) -> Dec {
        if pair.1 < -20000 || pair.1 > 20000 {
            return Dec::whole(0);
        }
        Dec::of(pair.0, pair.1).unwrap_or(Dec::whole(0))
    }

    // Two decimals, and the pair of their sum where there is one.
    const SUMS: [(Pair, Pair, Option<Pair>); 31] = [
        ((1, 0), (-1, 0), Some((0, 0))),
        ((5, 3), (-5, 3), Some((0, 0))),
        ((0, 0), (-7, -2), Some((-7, -2))),
        ((7, -2), (0, 0), Some((7, -2))),
        ((1, -1), (2, -1), Some((3, -1))),
        ((15, -1), (225, -2), Some((375, -2))),
        (
            (1, 33),
            (9, 0),
            Some((1000000000000000000000000000000009, 0)),
        ),
        ((1, 34), (1, 0), None),
        ((9999999999999999999999999999999999, 0), (1, 0), None),
        (
            (9999999999999999999999999999999999, 0),
            (-1, 0),
            Some((9999999999999999999999999999999998, 0)),
        ),
        ((-9999999999999999999999999999999999, 0), (-1, 0), None),
        (
            (9999999999999999999999999999999999, -5),
            (-9999999999999999999999999999999999, -5),
            Some((0, 0)),
        ),
        (
            (1, 0),
            (1, -33),
            Some((1000000000000000000000000000000001, -33)),
        ),
        ((1, 0), (1, -34), None),
        (
            (5, -1),
            (5, -34),
            Some((5000000000000000000000000000000005, -34)),
        ),
        ((99, -1), (1, -34), None),
        (
            (-1, 0),
            (1, -33),
            Some((-999999999999999999999999999999999, -33)),
        ),
        ((9, 9999), (1, 9999), None),
        ((9, 9999), (9, 9998), Some((99, 9998))),
        ((1, 9999), (1, -9999), None),
        ((1, -9999), (1, -9999), Some((2, -9999))),
        ((1, -9999), (-1, -9999), Some((0, 0))),
        (
            (1000000000000000000000000000000001, -10032),
            (-1, -9999),
            None,
        ),
        (
            (9999999999999999999999999999999999, -10032),
            (1, -9999),
            None,
        ),
        (
            (9999999999999999999999999999999999, -10032),
            (-9999999999999999999999999999999998, -10032),
            None,
        ),
        ((5, -1), (5, -1), Some((1, 0))),
        ((123, 40), (-1, 41), Some((113, 40))),
        (
            (9223372036854775807, 0),
            (1, 0),
            Some((9223372036854775808, 0)),
        ),
        (
            (18446744073709551615, 0),
            (1, 0),
            Some((18446744073709551616, 0)),
        ),
        (
            (1234567890123456789012345678901234, -17),
            (-1234567890123456789012345678901234, -17),
            Some((0, 0)),
        ),
        (
            (1234567890123456789012345678901234, -20),
            (1, 13),
            Some((2234567890123456789012345678901234, -20)),
        ),
    ];

    // Two decimals, and the pair of their product where there is one.
    const PRODUCTS: [(Pair, Pair, Option<Pair>); 30] = [
        (
            (0, 0),
            (1234567890123456789012345678901234, 5),
            Some((0, 0)),
        ),
        (
            (1234567890123456789012345678901234, 5),
            (0, 0),
            Some((0, 0)),
        ),
        ((-3, 0), (-4, 0), Some((12, 0))),
        ((-3, 0), (4, 0), Some((-12, 0))),
        ((3, 0), (-4, 2), Some((-12, 2))),
        ((25, -1), (4, 0), Some((1, 1))),
        ((17179869184, 0), (582076609134674072265625, 0), None),
        (
            (8589934592, 0),
            (582076609134674072265625, 0),
            Some((5, 33)),
        ),
        (
            (17179869184, 0),
            (-116415321826934814453125, 0),
            Some((-2, 33)),
        ),
        (
            (99999999999999999, 0),
            (99999999999999999, 0),
            Some((9999999999999999800000000000000001, 0)),
        ),
        (
            (100000000000000001, 0),
            (99999999999999999, 0),
            Some((9999999999999999999999999999999999, 0)),
        ),
        ((100000000000000001, 0), (100000000000000001, 0), None),
        (
            (1234567890123456789012345678901234, -33),
            (1, 0),
            Some((1234567890123456789012345678901234, -33)),
        ),
        (
            (1234567890123456789012345678901234, -33),
            (-1, 0),
            Some((-1234567890123456789012345678901234, -33)),
        ),
        (
            (1234567890123456789012345678901234, -33),
            (8, 0),
            Some((9876543120987654312098765431209872, -33)),
        ),
        ((1234567890123456789012345678901234, -33), (9, 0), None),
        (
            (9999999999999999999999999999999999, 0),
            (9999999999999999999999999999999999, 0),
            None,
        ),
        (
            (-9999999999999999999999999999999999, -33),
            (9999999999999999999999999999999999, -33),
            None,
        ),
        (
            (4294967295, 0),
            (4294967297, 0),
            Some((18446744073709551615, 0)),
        ),
        (
            (9223372036854775807, 0),
            (-1099511627776, 0),
            Some((-10141204801825835210874114015232, 0)),
        ),
        ((18446744073709551615, 0), (18446744073709551615, 0), None),
        ((1, 5000), (1, 4999), Some((1, 9999))),
        ((1, 5000), (1, 5000), None),
        ((2, 5000), (5, 4999), None),
        ((1, -5000), (1, -4999), Some((1, -9999))),
        ((1, -5000), (1, -5000), None),
        ((3, -5000), (4, -5000), Some((12, -10000))),
        ((5, -5000), (2, -5000), Some((1, -9999))),
        (
            (123456789, -9),
            (987654321, -9),
            Some((121932631112635269, -18)),
        ),
        ((5, -9999), (2, 0), Some((1, -9998))),
    ];

    // Pairs that are no decimals.
    const NO_DECIMALS: [Pair; 14] = [
        (0, 1),
        (0, -1),
        (10, 0),
        (-1200, -2),
        (1, 10000),
        (-1, -10000),
        (12, 9999),
        (12, -10001),
        (1, 2147483647),
        (3, -2147483648),
        (10000000000000000000000000000000000, 0),
        (-10000000000000000000000000000000001, -34),
        (170141183460469231731687303715884105727, 0),
        (-170141183460469231731687303715884105728, 0),
    ];

    #[test]
    fn adds_and_subtracts(rt: HostRuntime) {
        for (mantissa, exponent) in NO_DECIMALS {
            let made = Dec::of_pair(mantissa, exponent).map(|d| d.pair());
            assert_eq!(rt; made, None, "{mantissa}, {exponent}");
        }
        for (a, b, want) in SUMS {
            let made = Dec::of_pair(a.0, a.1).map(|d| d.pair());
            assert_eq!(rt; made, Some(a), "{a:?}");
            let negative = at(b).negate();
            assert_eq!(rt; at(a).add(at(b)).map(|d| d.pair()), want, "{a:?} + {b:?}");
            assert_eq!(rt; at(b).add(at(a)).map(|d| d.pair()), want, "{b:?} + {a:?}");
            assert_eq!(rt;
                at(a).sub(negative).map(|d| d.pair()),
                want,
                "{a:?} - -{b:?}"
            );
        }
    }

    #[test]
    fn multiplies(rt: HostRuntime) {
        for (a, b, want) in PRODUCTS {
            assert_eq!(rt; at(a).mul(at(b)).map(|d| d.pair()), want, "{a:?} * {b:?}");
            assert_eq!(rt; at(b).mul(at(a)).map(|d| d.pair()), want, "{b:?} * {a:?}");
        }
    }
}
