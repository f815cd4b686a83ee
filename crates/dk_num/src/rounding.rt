// Quotients that are rounded to whole numbers.
ghost use Rattle.std.specs.Prelude.{◌≡◌, ◌+◌, ◌*◌, ◌/◌, ◌^◌, ◌<◌, ◌≤◌, ◌≤ℤ◌, ◌<ℤ◌, pos, unsigned_abs};
ghost use Rattle.dk_num.specs.Rounding.{rounded_quotient, IsNearest};

/// The whole number nearest to `n` divided by `d`; in the middle between two it is the one away from zero.
pub fn divide_round(n: i128, d: i128) -> i128
    requires has_positive_divisor { pos 0 <ℤ d }
    requires has_small_divisor { d ≤ℤ pos 100000 }
    requires has_small_dividend { unsigned_abs n < 10 ^ 37 }
    ensures gives_quotient { result ≡ rounded_quotient n (unsigned_abs d) }
    ensures is_nearest { IsNearest n (unsigned_abs d) result }
{
    let magnitude = rounded(n.unsigned_abs(), d.unsigned_abs());
    if n < 0 { -magnitude } else { magnitude }
}

/// The magnitude of a quotient.
fn rounded(n: u128, d: u128) -> i128
    requires positive { 0 < d }
    requires divisor { d ≤ 100000 }
    requires dividend { n < 10 ^ 37 }
    ensures { result ≡ pos ((2 * n + d) / (2 * d)) }
{
    ((2 * n + d) / (2 * d)) as i128
}

#[cfg(test)]
mod tests {
    use super::*;

    // Dividends, divisors and the rounded quotients.
    const QUOTIENTS: [(i128, i128, i128); 14] = [
        (0, 1, 0),
        (1, 2, 1),
        (-1, 2, -1),
        (3, 2, 2),
        (-3, 2, -2),
        (5, 2, 3),
        (1, 3, 0),
        (2, 3, 1),
        (-2, 3, -1),
        (49_999, 100_000, 0),
        (50_000, 100_000, 1),
        (-50_000, 100_000, -1),
        (
            9_999_999_999_999_999_999_999_999_999_999_999_999,
            1,
            9_999_999_999_999_999_999_999_999_999_999_999_999,
        ),
        (
            -9_999_999_999_999_999_999_999_999_999_999_999_999,
            2,
            -5_000_000_000_000_000_000_000_000_000_000_000_000,
        ),
    ];

    #[test]
    fn rounds_to_the_nearest_and_ties_away_from_zero(rt: HostRuntime) {
        for (n, d, want) in QUOTIENTS {
            assert_eq!(rt; divide_round(n, d), want, "{n}/{d}");
        }
    }
}
