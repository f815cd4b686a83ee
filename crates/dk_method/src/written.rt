// Decimals of whole numbers of a unit, written at their places.
ghost use Rattle.std.specs.Prelude.{◌≡◌, ◌+◌, ◌*◌, ◌≤◌, ◌<◌, ◌^◌, unsigned_abs, length, map, take, drop};
ghost use Rattle.std.specs.List.{All};
ghost use Rattle.dk_num.specs.Units.{in_units, IsUnitExponent};
ghost use Rattle.dk_types.specs.Sound.{IsNumber};

use dk_num::{Dec, Unit, from_units};

/// Writes the decimals of numbers of units.
pub fn put_units(numbers: &[i128], unit: Unit, out: &mut [Dec])
    requires unit { IsUnitExponent unit.exponent }
    requires numbers { All (IsNumber unit.exponent) numbers.now }
    requires room { length out.old ≡ length numbers.now }
    ensures { out.new ≡ map (in_units unit.exponent) numbers.now }
{
    for place in 0..numbers.len() {
        out[place] = from_units(numbers[place], unit);
    }
}

/// Writes the point of this number, counted from 0, of a list of numbers.
pub fn put_listed(i: u32, numbers: &[i128], unit: Unit, out: &mut [Dec])
    requires unit { IsUnitExponent unit.exponent }
    requires numbers { All (IsNumber unit.exponent) numbers.now }
    requires within { i * length out.old + length out.old ≤ length numbers.now }
    ensures { out.new ≡ map (in_units unit.exponent) (take (length out.old) (drop (i * length out.old) numbers.now)) }
{
    let from = i as usize * out.len();
    put_units(&numbers[from..from + out.len()], unit, out);
}
