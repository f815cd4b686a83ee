// The order of decimals, by value.
ghost use Rattle.std.specs.Prelude.{◌≡◌, ◌+◌, ◌*◌, ◌^◌, ◌<◌, ◌≤◌, ◌↔◌, IsTrue, ◌+ℤ◌, ◌*ℤ◌, ℤ, pos, unsigned_abs};
ghost use Rattle.std.specs.Ordering.{nat_cmp, int_cmp, eq_by_cmp, as_partial_cmp};
ghost use Rattle.std.specs.Cmp.{partial_order_from_own_ties};
ghost use Rattle.std.specs.Cmp.Rules.{comparing};
ghost use Rattle.std.proofs.Common.{rules};
ghost use Rattle.dk_num.specs.Arithmetic.{decimal_cmp};

use crate::Dec;
use crate::dec::power_of_ten;
use std::cmp::Ordering;

impl Eq for Dec {
    ghost laws = { Prim.search (comparing, rules) };
}

impl PartialEq for Dec {
    ghost eq = { eq_by_cmp decimal_cmp };

    ghost laws = { Prim.search (comparing, rules) };

    fn eq(&self, other: &Dec) -> bool
        ensures compares_values { result ≡ eq_by_cmp decimal_cmp self.now other.now }
        ensures compares_pairs { IsTrue result ↔ (self.now ≡ other.now) }
    {
        let (a, p) = self.pair();
        let (b, q) = other.pair();
        a == b && p == q
    }
}

impl PartialOrd for Dec {
    ghost partial_cmp = { as_partial_cmp decimal_cmp };

    ghost laws = { partial_order_from_own_ties (Prim.search (comparing, rules)) (Prim.search (comparing, rules)) };

    fn partial_cmp(&self, other: &Dec) -> Option<Ordering> {
        Some(self.cmp(other))
    }
}

impl Ord for Dec {
    ghost cmp = { decimal_cmp };

    ghost total = { Prim.search (comparing, rules) };

    ghost matches_partial_cmp = { Prim.search (comparing, rules) };

    ghost matches_eq = { Prim.search (comparing, rules) };

    fn cmp(&self, other: &Dec) -> Ordering {
        let (a, p) = self.lifted_pair();
        let (b, q) = other.lifted_pair();
        compare(a, p, b, q)
    }
}

/// One number times a power of ten against another number.
fn compare_scaled(m: u128, d: u32, n: u128) -> Ordering
    requires { n < 10 ^ 34 }
    ensures { result ≡ nat_cmp (m * 10 ^ d) n }
{
    if m == 0 {
        return 0u128.cmp(&n);
    }
    if d > 34 {
        return Ordering::Greater;
    }
    if m >= power_of_ten(34 - d) {
        return Ordering::Greater;
    }
    (m * power_of_ten(d)).cmp(&n)
}

fn compare_magnitudes(m: u128, s: u32, n: u128, t: u32) -> Ordering
    requires first { m < 10 ^ 34 }
    requires second { n < 10 ^ 34 }
    ensures { result ≡ nat_cmp (m * 10 ^ s) (n * 10 ^ t) }
{
    if t <= s {
        compare_scaled(m, s - t, n)
    } else {
        compare_scaled(n, t - s, m).reverse()
    }
}

/// Two mantissas, each times a power of ten.
fn compare(a: i128, s: u32, b: i128, t: u32) -> Ordering
    requires first { unsigned_abs a < 10 ^ 34 }
    requires second { unsigned_abs b < 10 ^ 34 }
    ensures { result ≡ int_cmp (a *ℤ pos (10 ^ s)) (b *ℤ pos (10 ^ t)) }
{
    let m = a.unsigned_abs();
    let n = b.unsigned_abs();
    match (a < 0, b < 0) {
        (true, true) => compare_magnitudes(n, t, m, s),
        (true, false) => Ordering::Less,
        (false, true) => Ordering::Greater,
        (false, false) => compare_magnitudes(m, s, n, t),
    }
}

#[cfg(test)]
mod tests {
    use super::*;
    use crate::dec::tests::{Pair, at};
    use std::collections::BTreeMap;
    use std::test::Fail;

    // Two decimals, and their order.
    const ORDERS: [(Pair, Pair, Ordering); 22] = [
        ((-1, 0), (1, -9999), Ordering::Less),
        ((-1, 9999), (-1, 0), Ordering::Less),
        ((-1, -9999), (0, 0), Ordering::Less),
        ((0, 0), (1, -9999), Ordering::Less),
        ((0, 0), (0, 0), Ordering::Equal),
        (
            (1, 34),
            (9999999999999999999999999999999999, 0),
            Ordering::Greater,
        ),
        (
            (1, 33),
            (9999999999999999999999999999999999, 0),
            Ordering::Less,
        ),
        ((9, 9998), (1, 9999), Ordering::Less),
        ((-9, 9998), (-1, 9999), Ordering::Greater),
        (
            (1, 0),
            (1000000000000000000000000000000001, -33),
            Ordering::Less,
        ),
        (
            (-1, 0),
            (-1000000000000000000000000000000001, -33),
            Ordering::Greater,
        ),
        (
            (1234567890123456789012345678901234, -33),
            (12, -1),
            Ordering::Greater,
        ),
        (
            (1234567890123456789012345678901234, -33),
            (13, -1),
            Ordering::Less,
        ),
        ((25, -1), (5, 0), Ordering::Less),
        ((5, 0), (25, -1), Ordering::Greater),
        ((7, 3), (7, 3), Ordering::Equal),
        ((-7, 3), (-7, 3), Ordering::Equal),
        ((7, -3), (-7, -3), Ordering::Greater),
        ((1, 9999), (1, -9999), Ordering::Greater),
        ((3, 34), (3, 0), Ordering::Greater),
        (
            (3, 35),
            (9999999999999999999999999999999999, 0),
            Ordering::Greater,
        ),
        (
            (9999999999999999999999999999999999, -10032),
            (1, -9998),
            Ordering::Less,
        ),
    ];

    #[test]
    fn orders_by_value(rt: HostRuntime) {
        for (a, b, want) in ORDERS {
            assert_eq!(rt; at(a).cmp(&at(b)), want, "{a:?} against {b:?}");
            assert_eq!(rt; at(b).cmp(&at(a)), want.reverse(), "{b:?} against {a:?}");
            assert_eq!(rt; at(a) == at(b), want.is_eq(), "{a:?} == {b:?}");
        }
    }

    #[test]
    fn sorts_and_is_a_key(rt: HostRuntime) -> Result<(), Fail> {
        let ascending = [
            at((-1, 1)),
            at((-95, -1)),
            at((0, 0)),
            at((1, -9999)),
            at((25, -1)),
            at((3, 34)),
        ];
        let mut sorted = Vec::new(rt.alloc());
        let mut places = BTreeMap::new(rt.alloc());
        for (place, decimal) in ascending.iter().enumerate().rev() {
            sorted.push(*decimal)?;
            places.insert(*decimal, place)?;
        }
        sorted.sort()?;
        assert_eq!(rt; sorted.as_slice(), ascending.as_slice());
        for (place, decimal) in ascending.iter().enumerate() {
            assert_eq!(rt; places.get(decimal), Some(&place));
        }
        Ok(())
    }
}
