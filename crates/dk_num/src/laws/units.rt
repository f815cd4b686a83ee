// Laws of whole numbers of a unit.
ghost use Rattle.std.specs.Prelude.{◌≡◌, ◌≢◌, ◌^◌, ◌<◌, List, All, Contains, ℤ, pos, neg_ℤ, ◌+ℤ◌, ◌≤ℤ◌, unsigned_abs, Some};
ghost use Rattle.dk_num.specs.Decimal.{Decimal, IsCanonical, decimal_of};
ghost use Rattle.dk_num.specs.Arithmetic.{whole_value};
ghost use Rattle.dk_num.specs.Units.{IsUnits, units_of, unit_exponent, IsUnitExponent, in_units};
ghost use Rattle.dk_num.specs.Laws.{IsGreatestLeading};

/// Where some number of a list isn't zero, the greatest leading exponent of those that aren't is the unit's exponent
/// plus 28. Where all are zero the unit's exponent is -28.
pub fn units_lie_28_below_the_greatest()
    ensures meets_the_greatest { (ds : List Decimal) (d : Decimal) → Contains ds d → d.mantissa ≢ pos 0 →
        IsGreatestLeading ds (unit_exponent ds +ℤ pos 28) }
    ensures is_minus_28_for_zeros { (ds : List Decimal) → All (λ d. d.mantissa ≡ pos 0) ds → unit_exponent ds ≡ neg_ℤ (pos 28) }
{}

/// `in_units` is the decimal with the value of so many units.
pub fn so_many_units_have_a_decimal()
    ensures is_the_decimal { (e k : ℤ) → IsUnitExponent e → unsigned_abs k < 10 ^ 34 →
        decimal_of (record { mantissa = k; exponent = e }) ≡ Some (in_units e k) }
    ensures is_canonical { (e k : ℤ) → IsUnitExponent e → unsigned_abs k < 10 ^ 34 → IsCanonical (in_units e k) }
    ensures keeps_value { (e k : ℤ) → IsUnitExponent e → unsigned_abs k < 10 ^ 34 →
        whole_value (in_units e k) ≡ whole_value (record { mantissa = k; exponent = e }) }
{}

/// `units_of` says how many units a decimal is, exactly where it is a whole number of them.
pub fn units_are_multiples()
    ensures counts { (e : ℤ) (d : Decimal) (k : ℤ) → neg_ℤ (pos 10032) ≤ℤ e → IsCanonical d → units_of e d ≡ Some k → IsUnits e d k }
    ensures counts_all { (e : ℤ) (d : Decimal) (k : ℤ) → neg_ℤ (pos 10032) ≤ℤ e → IsCanonical d → IsUnits e d k → units_of e d ≡ Some k }
{}
