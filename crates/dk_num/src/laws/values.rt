//! Laws of decimals as values.
ghost use Rattle.std.specs.Prelude.{◌≡◌, ◌≢◌, ◌↔◌, ℕ, ◌+◌, ◌-◌, ◌*◌, ◌/◌, ◌%◌, ◌^◌, ◌<◌, ◌≤◌, ◌+ℤ◌, pos, unsigned_abs, Some, None};
ghost use Rattle.std.specs.declared.cmp.Ordering.TheVariants.{Equal};
ghost use Rattle.dk_num.specs.Decimal.{Decimal, IsCanonical, decimal_of, digit_count, zero_count, leading};
ghost use Rattle.dk_num.specs.Arithmetic.{whole_value, decimal_cmp};
ghost use Rattle.dk_num.specs.Laws.{HasNoDecimal};

/// One pair stands for each value.
pub fn one_pair_for_each_value()
    ensures holds_by_value { (x y : Decimal) → IsCanonical x → IsCanonical y → whole_value x ≡ whole_value y → x ≡ y }
    ensures holds_by_order { (x y : Decimal) → IsCanonical x → IsCanonical y → decimal_cmp x y ≡ Equal → x ≡ y }
{}

/// The decimal of a pair is the pair that stands for its value, and a pair that stands for a value is its own.
pub fn decimal_of_is_the_value()
    ensures is_canonical { (d c : Decimal) → decimal_of d ≡ Some c → IsCanonical c }
    ensures keeps_value { (d c : Decimal) → decimal_of d ≡ Some c → whole_value c ≡ whole_value d }
    ensures keeps_canonical { (c : Decimal) → IsCanonical c → decimal_of c ≡ Some c }
{}

/// A pair has no decimal exactly where its mantissa isn't below 10^34 in absolute value, or it isn't zero and the power
/// of ten of its first digit isn't in -9999 to 9999.
pub fn no_decimal_out_of_range()
    ensures says_where { (d : Decimal) → decimal_of d ≡ None ↔ HasNoDecimal d }
{}

/// The leading exponent of a decimal that isn't zero is that of its value: in absolute value it isn't below that power
/// of ten, and is below the next.
pub fn leading_is_the_first_power()
    ensures starts_there { (d : Decimal) → IsCanonical d → d.mantissa ≢ pos 0 →
        10 ^ unsigned_abs (leading d +ℤ pos 10032) ≤ unsigned_abs (whole_value d) }
    ensures stays_below_the_next { (d : Decimal) → IsCanonical d → d.mantissa ≢ pos 0 →
        unsigned_abs (whole_value d) < 10 ^ unsigned_abs (leading d +ℤ pos 10033) }
{}

/// A number of k digits lies from 10^(k - 1) to below 10^k.
pub fn digits_measure_a_number()
    ensures counts_digits { (n k : ℕ) → 0 < n → digit_count n ≡ k ↔ ((10 ^ (k - 1) ≤ n) × (n < 10 ^ k)) }
{}

/// A number is its power of ten times a number that 10 doesn't divide.
pub fn zeros_are_divided_off()
    ensures keeps_value { (n : ℕ) → 0 < n → n ≡ n / 10 ^ zero_count n * 10 ^ zero_count n }
    ensures leaves_no_zero { (n : ℕ) → 0 < n → n / 10 ^ zero_count n % 10 ≢ 0 }
{}
