// The points of a vector study.
ghost use Rattle.std.specs.Prelude.{◌≡◌, ◌<◌, ◌≤◌, ◌^◌, length, map, pos, ◌+ℤ◌, ◌*ℤ◌, unsigned_abs};
ghost use Rattle.std.specs.List.{All};
ghost use Rattle.dk_num.specs.Units.{in_units, IsUnitExponent};
ghost use Rattle.dk_types.specs.Points.{after_steps, towards, on_the_way};
ghost use Rattle.dk_types.specs.Sound.{IsNumber};

use crate::written::put_units;
use dk_num::{Dec, Unit, divide_round, from_units};

/// Writes the point so many steps from the first.
pub fn put_after_steps(i: u32, from: &[i128], step: &[i128], unit: Unit, out: &mut [Dec])
    requires number { i ≤ 10000 }
    requires unit { IsUnitExponent unit.exponent }
    requires from { All (IsNumber unit.exponent) from.now }
    requires step { All (IsNumber unit.exponent) step.now }
    requires along { length step.now ≡ length from.now }
    requires room { length out.old ≡ length from.now }
    ensures { out.new ≡ map (in_units unit.exponent) (after_steps i from.now step.now) }
{
    for place in 0..from.len() {
        out[place] = from_units(stepped(from[place], step[place], i128::from(i)), unit);
    }
}

/// A number of units, so many steps on, or back where their number is below zero.
pub fn stepped(from: i128, step: i128, count: i128) -> i128
    requires from { unsigned_abs from < 10 ^ 29 }
    requires step { unsigned_abs step < 10 ^ 29 }
    requires count { unsigned_abs count ≤ 10000 }
    ensures value { result ≡ from +ℤ (count *ℤ step) }
    ensures small { unsigned_abs result < 10 ^ 34 }
{
    from + count * step
}

/// Writes the point after so many of a number of steps to the last point.
pub fn put_towards(i: u32, steps: u32, from: &[i128], to: &[i128], unit: Unit, out: &mut [Dec])
    requires number { i ≤ steps }
    requires steps { steps ≤ 10000 }
    requires unit { IsUnitExponent unit.exponent }
    requires from { All (IsNumber unit.exponent) from.now }
    requires to { All (IsNumber unit.exponent) to.now }
    requires along { length to.now ≡ length from.now }
    requires room { length out.old ≡ length from.now }
    ensures { out.new ≡ map (in_units unit.exponent) (towards i steps from.now to.now) }
{
    if steps == 0 {
        return put_units(from, unit, out);
    }
    for place in 0..from.len() {
        out[place] = from_units(part_way(i, steps, from[place], to[place]), unit);
    }
}

/// Part `i` of the way between two numbers of units, which is cut in so many parts.
pub fn part_way(i: u32, parts: u32, from: i128, to: i128) -> i128
    requires part { i ≤ parts }
    requires some { 0 < parts }
    requires parts { parts ≤ 10000 }
    requires from { unsigned_abs from < 10 ^ 29 }
    requires to { unsigned_abs to < 10 ^ 29 }
    ensures value { result ≡ on_the_way i parts from to }
    ensures small { unsigned_abs result < 10 ^ 34 }
{
    from + divide_round(i128::from(i) * (to - from), i128::from(parts))
}
