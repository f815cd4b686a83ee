// Whole numbers of a unit.
ghost use Rattle.std.specs.Prelude.{◌≡◌, ◌+◌, ◌-◌, ◌*◌, ◌^◌, ◌<◌, ◌≤◌, ◌≤ℤ◌, ◌+ℤ◌, ◌-ℤ◌, ◌*ℤ◌, pos, neg_ℤ, unsigned_abs, Some, None, MatchResult, IfOk, IfSome, if◌then◌else◌};
ghost use Rattle.dk_num.specs.Decimal.{Decimal, IsCanonical, decimal_of, digit_count, leading, is_zero};
ghost use Rattle.dk_num.specs.Units.{is_moderate, AreModerate, unit_exponent, greatest_leading, IsUnitExponent, AreWithin, IsWithin, units_of, greater_of, IsModerateExponent, in_units};

use crate::Dec;
use crate::dec::{digits, power_of_ten};

/// A study's unit: a power of ten.
#[derive(Clone, Copy, Debug, PartialEq, Eq)]
pub struct Unit {
    /// The power.
    pub exponent: i32,
}

/// A decimal isn't a whole multiple of the unit.
#[derive(Clone, Copy, Debug, PartialEq, Eq)]
pub struct OffGrid;

impl Dec {
    /// Whether it is zero or its leading exponent is in -400..400, as the numbers of a study have to be.
    pub fn is_moderate(&self) -> bool
        ensures tells_moderate { result ≡ is_moderate self.now }
    {
        match self.leading() {
            None => true,
            Some(leading) => -400 <= leading && leading <= 400,
        }
    }

    /// The power of ten of the first digit: none at zero.
    fn leading(&self) -> Option<i32>
        ensures { result ≡ (if is_zero self.now then None else Some (leading self.now)) }
    {
        let (mantissa, exponent) = self.pair();
        if mantissa == 0 {
            return None;
        }
        Some(exponent + digits(mantissa.unsigned_abs()) as i32 - 1)
    }
}

/// The greater of two leading exponents, where there are any.
fn greater(a: Option<i32>, b: Option<i32>) -> Option<i32>
    ensures { result ≡ greater_of a b }
{
    match (a, b) {
        (None, _) => b,
        (_, None) => a,
        (Some(l), Some(k)) => Some(if k < l { l } else { k }),
    }
}

/// The greatest leading exponent of those numbers that aren't zero.
fn greatest_leading(numbers: &[Dec]) -> Option<i32>
    requires { AreModerate numbers.now }
    ensures value { result ≡ greatest_leading numbers.now }
    ensures moderate { IfSome result IsModerateExponent }
{
    let mut greatest = None;
    for number in numbers {
        greatest = greater(greatest, number.leading());
    }
    greatest
}

/// The unit of some numbers: 28 below the greatest leading exponent of those that aren't zero, -28 where all are.
pub fn unit_of(numbers: &[Dec]) -> Unit
    requires are_moderate { AreModerate numbers.now }
    ensures gives_exponent { result.exponent ≡ unit_exponent numbers.now }
    ensures is_unit_exponent { IsUnitExponent result.exponent }
    ensures holds_all { AreWithin result.exponent numbers.now }
{
    let leading = greatest_leading(numbers).unwrap_or(0);
    Unit {
        exponent: leading - 28,
    }
}

/// How far the exponent of a number lies above the unit's.
fn places_above(exponent: i32, unit: i32) -> u32
    requires order { unit ≤ℤ exponent }
    requires near { exponent ≤ℤ (unit +ℤ pos 28) }
    ensures { result ≡ unsigned_abs (exponent -ℤ unit) }
{
    (i64::from(exponent) - i64::from(unit)) as u32
}

/// A mantissa with so many zeros more.
fn lengthened(mantissa: i128, places: u32) -> i128
    requires { digit_count (unsigned_abs mantissa) + places ≤ 29 }
    ensures value { result ≡ mantissa *ℤ pos (10 ^ places) }
    ensures few { unsigned_abs result < 10 ^ 29 }
{
    mantissa * power_of_ten(places) as i128
}

/// How many units a decimal is, in at most 29 digits. `OffGrid` exactly where it isn't a whole number of them.
pub fn to_units(d: Dec, unit: Unit) -> Result<i128, OffGrid>
    requires is_within { IsWithin unit.exponent d }
    ensures counts_units { MatchResult result (λ k. units_of unit.exponent d ≡ Some k) (λ _. units_of unit.exponent d ≡ None) }
    ensures has_few_digits { IfOk result (λ k. unsigned_abs k < 10 ^ 29) }
{
    let (mantissa, exponent) = d.pair();
    if mantissa == 0 {
        return Ok(0);
    }
    if exponent < unit.exponent {
        return Err(OffGrid);
    }
    Ok(lengthened(mantissa, places_above(exponent, unit.exponent)))
}

/// The decimal with the value of so many units.
pub fn from_units(k: i128, unit: Unit) -> Dec
    requires is_small { unsigned_abs k < 10 ^ 34 }
    requires is_unit_exponent { IsUnitExponent unit.exponent }
    ensures gives_units { result ≡ in_units unit.exponent k }
{
    match Dec::of(k, unit.exponent) {
        Some(d) => d,
        None => unreachable!(),
    }
}

#[cfg(test)]
mod tests {
    use super::*;
    use crate::rosenbrock;

    /// So many units of a power of ten.
    fn decimal(k: i128, exponent: i32) -> Dec
        requires small { unsigned_abs k < 10 ^ 34 }
        requires exponent { IsUnitExponent exponent }
    {
        from_units(k, Unit { exponent })
    }

    /// The unit of four numbers, and how many units each of them is.
    fn in_their_unit(a: Dec, b: Dec, c: Dec, d: Dec) -> Option<(Unit, [Result<i128, OffGrid>; 4])> {
        if !(a.is_moderate() && b.is_moderate() && c.is_moderate() && d.is_moderate()) {
            return None;
        }
        let unit = unit_of(&[a, b, c, d]);
        let units = [
            to_units(a, unit),
            to_units(b, unit),
            to_units(c, unit),
            to_units(d, unit),
        ];
        Some((unit, units))
    }

    /// The decimal again, by way of the units that it is.
    fn there_and_back(d: Dec) -> Option<Dec> {
        if !d.is_moderate() {
            return None;
        }
        let unit = unit_of(&[d]);
        match to_units(d, unit) {
            Ok(k) => Some(from_units(k, unit)),
            Err(OffGrid) => None,
        }
    }

    fn same_text(a: Dec, b: Dec) -> bool {
        let mut first = [0; 64];
        let mut second = [0; 64];
        let n = a.table_text(&mut first);
        let m = b.table_text(&mut second);
        first[..n] == second[..m]
    }

    #[test]
    fn counts_units(rt: HostRuntime) {
        let half = decimal(5, -1);
        let zero = decimal(0, 7);
        let fine = Ok(50_000_000_000_000_000_000_000_000_000);
        let counted = [fine, fine, Ok(0), Ok(0)];
        assert_eq!(rt;
            in_their_unit(half, half, zero, zero),
            Some((Unit { exponent: -29 }, counted))
        );
        let (large, tiny) = (decimal(1, 20), decimal(1, -20));
        let counted = [
            Ok(10_000_000_000_000_000_000_000_000_000),
            Err(OffGrid),
            Ok(0),
            Ok(0),
        ];
        assert_eq!(rt;
            in_their_unit(large, tiny, zero, zero),
            Some((Unit { exponent: -8 }, counted))
        );
        assert!(rt; same_text(zero, Dec::whole(0)));
        for d in [zero, half, tiny, Dec::whole(-1200)] {
            let again = there_and_back(d).expect(&rt, "a moderate number is units of itself");
            assert!(rt; same_text(again, d));
        }
    }

    #[test]
    fn evaluates_rosenbrock(rt: HostRuntime) {
        let half = decimal(5, -1);
        let zero = Dec::whole(0);
        let one = Dec::whole(1);
        assert!(rt; rosenbrock(half, half) == Some(decimal(65, -1)));
        assert!(rt; rosenbrock(zero, zero) == Some(one));
        assert!(rt; rosenbrock(one, one) == Some(zero));
        let third = decimal(3333333333333333333333333333, -28);
        assert!(rt; rosenbrock(third, third).is_none());
    }
}
