//! Laws of sums, differences and products.
ghost use Rattle.std.specs.Prelude.{◌≡◌, ◌↔◌, ◌^◌, ◌+ℤ◌, ◌-ℤ◌, ◌*ℤ◌, pos, neg_ℤ, Some, None};
ghost use Rattle.dk_num.specs.Decimal.{Decimal, IsCanonical, zero_decimal};
ghost use Rattle.dk_num.specs.Arithmetic.{whole_value, product, sum_of, difference};
ghost use Rattle.dk_num.specs.Laws.{HasNoSum, HasNoProduct};

/// A sum has the sum of the values.
pub fn sums_are_sums()
    ensures is_canonical { (x y z : Decimal) → IsCanonical x → IsCanonical y → sum_of x y ≡ Some z → IsCanonical z }
    ensures adds_values { (x y z : Decimal) → IsCanonical x → IsCanonical y → sum_of x y ≡ Some z →
        whole_value z ≡ whole_value x +ℤ whole_value y }
{}

/// Two decimals have no sum exactly where neither is zero and, both written with the lesser of their exponents, one of
/// the two mantissas or the sum of the two isn't below 10^34 in absolute value, or that sum isn't zero and the power of
/// ten of its first digit isn't in -9999 to 9999. Where one is zero the sum is the other.
pub fn no_sum_only_where_too_wide_or_out_of_range()
    ensures says_where { (x y : Decimal) → sum_of x y ≡ None ↔ HasNoSum x y }
    ensures gives_the_second { (x y : Decimal) → x.mantissa ≡ pos 0 → sum_of x y ≡ Some y }
    ensures gives_the_first { (x y : Decimal) → IsCanonical x → IsCanonical y → y.mantissa ≡ pos 0 → sum_of x y ≡ Some x }
{}

/// A difference has the difference of the values.
pub fn differences_are_differences()
    ensures is_canonical { (x y z : Decimal) → IsCanonical x → IsCanonical y → difference x y ≡ Some z → IsCanonical z }
    ensures subtracts_values { (x y z : Decimal) → IsCanonical x → IsCanonical y → difference x y ≡ Some z →
        whole_value z ≡ whole_value x -ℤ whole_value y }
{}

/// Two decimals have no difference exactly where the first and the second under the other sign have no sum.
pub fn no_difference_only_where_no_sum()
    ensures says_where { (x y : Decimal) →
        difference x y ≡ None ↔ HasNoSum x (record { mantissa = neg_ℤ y.mantissa; exponent = y.exponent }) }
{}

/// A product has the product of the values, in units of 10^-10032.
pub fn products_are_products()
    ensures is_canonical { (x y z : Decimal) → product x y ≡ Some z → IsCanonical z }
    ensures multiplies_values { (x y z : Decimal) → IsCanonical x → IsCanonical y → product x y ≡ Some z →
        whole_value z *ℤ pos (10 ^ 10032) ≡ whole_value x *ℤ whole_value y }
{}

/// Two decimals have no product exactly where neither is zero and the product of their mantissas, before zeros at its
/// end are taken off, isn't below 10^34 in absolute value, or the power of ten of its first digit isn't in -9999 to
/// 9999. Where a factor is zero the product is zero.
pub fn no_product_only_where_too_wide_or_out_of_range()
    ensures says_where { (x y : Decimal) → product x y ≡ None ↔ HasNoProduct x y }
    ensures gives_zero_first { (x y : Decimal) → x.mantissa ≡ pos 0 → product x y ≡ Some zero_decimal }
    ensures gives_zero_second { (x y : Decimal) → y.mantissa ≡ pos 0 → product x y ≡ Some zero_decimal }
{}
