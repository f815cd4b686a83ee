// The digits of a number's text as a whole number, however many they are.
ghost use Rattle.std.specs.Prelude.{◌≡◌, ℕ, ◌+◌, ◌-◌, ◌*◌, ◌<◌, ◌≤◌, ◌^◌, length, min, MatchOption, IfSome};
ghost use Rattle.dk_num.specs.Numbers.{AreDigits, numeral_value};
ghost use Rattle.dk_num.specs.Reading.{IsSignificand, significant_count, after_digits, value_of};

use crate::dec::power_of_ten;

/// How many digits a decimal may have.
const MOST_DIGITS: u32 = 34;

/// An exponent that no text is long enough to bring back into range.
const FAR: u128 = 100_000_000_000_000_000_000;

/// A whole number: its digits up to the last that isn't zero, how many they are, and the zeros behind.
#[derive(Clone, Copy)]
pub(crate) struct Significand {
    pub(crate) core: u128,
    pub(crate) count: u32,
    pub(crate) zeros: usize,
}

/// The number with a zero behind it.
fn zero_behind(number: Significand) -> Significand
    requires is { IsSignificand (value_of number) number }
    requires room { number.zeros < 2 ^ 64 - 1 }
    ensures is { IsSignificand (value_of number * 10 + 0) result }
    ensures zeros { result.zeros ≤ number.zeros + 1 }
{
    if number.core == 0 {
        return number;
    }
    Significand {
        core: number.core,
        count: number.count,
        zeros: number.zeros + 1,
    }
}

/// The number with a digit behind it that isn't zero, where at most 34 digits are left.
fn digit_behind(number: Significand, digit: u8) -> Option<Significand>
    requires is { IsSignificand (value_of number) number }
    requires low { 0 < digit }
    requires high { digit < 10 }
    ensures is { MatchOption result
        (34 < significant_count (value_of number * 10 + digit))
        (λ r. IsSignificand (value_of number * 10 + digit) r) }
    ensures zeros { IfSome result (λ r. r.zeros ≡ 0) }
{
    if number.zeros >= 34 {
        return None;
    }
    let places = number.zeros as u32 + 1;
    let count = number.count + places;
    if count > MOST_DIGITS {
        return None;
    }
    Some(Significand {
        core: number.core * power_of_ten(places) + digit as u128,
        count,
        zeros: 0,
    })
}

/// The number with a digit behind it, where at most 34 digits are left.
fn behind(number: Significand, digit: u8) -> Option<Significand>
    requires is { IsSignificand (value_of number) number }
    requires high { digit < 10 }
    requires room { number.zeros < 2 ^ 64 - 1 }
    ensures is { MatchOption result
        (34 < significant_count (value_of number * 10 + digit))
        (λ r. IsSignificand (value_of number * 10 + digit) r) }
    ensures zeros { IfSome result (λ r. r.zeros ≤ number.zeros + 1) }
{
    if digit == 0 {
        Some(zero_behind(number))
    } else {
        digit_behind(number, digit)
    }
}

/// The number with these digits behind it, where at most 34 digits are left.
pub(crate) fn digits_behind(number: Significand, digits: &[u8]) -> Option<Significand>
    requires is { IsSignificand (value_of number) number }
    requires digits { AreDigits digits.now }
    requires room { number.zeros + length digits.now < 2 ^ 64 }
    ensures is { MatchOption result
        (34 < significant_count (after_digits (value_of number) digits.now))
        (λ r. IsSignificand (after_digits (value_of number) digits.now) r) }
    ensures zeros { IfSome result (λ r. r.zeros ≤ number.zeros + length digits.now) }
{
    let mut all = number;
    for digit in digits {
        match behind(all, *digit - b'0') {
            Some(more) => all = more,
            None => return None,
        }
    }
    Some(all)
}

/// The number with a digit behind it, or a bound that it reaches.
fn bounded_behind(number: u128, digit: u8) -> u128
    requires small { number ≤ 10 ^ 20 }
    requires digit { digit < 10 }
    ensures { result ≡ min (10 ^ 20) (number * 10 + digit) }
{
    let more = number * 10 + digit as u128;
    if more < FAR { more } else { FAR }
}

/// The number of these digits, or a bound that it reaches.
pub(crate) fn bounded(digits: &[u8]) -> u128
    requires { AreDigits digits.now }
    ensures { result ≡ min (10 ^ 20) (numeral_value digits.now) }
{
    let mut number = 0u128;
    for digit in digits {
        number = bounded_behind(number, *digit - b'0');
    }
    number
}
