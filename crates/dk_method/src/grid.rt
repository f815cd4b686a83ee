// The points of a multidimensional study.
ghost use Rattle.std.specs.Prelude.{◌≡◌, ◌<◌, [], length, map, unwrap_or, IsSome};
ghost use Rattle.std.specs.List.{All};
ghost use Rattle.dk_num.specs.Units.{in_units, IsUnitExponent};
ghost use Rattle.dk_types.specs.Points.{in_grid};
ghost use Rattle.dk_types.specs.Sound.{IsNumber, IsBetween, IsBound};

use crate::vector::part_way;
use dk_num::{Dec, Unit, from_units};
use dk_types::Variables;

/// Writes the point of this number of the grid between the variables' bounds.
pub fn put_bounded(i: u32, partitions: &[u32], variables: &Variables, unit: Unit, out: &mut [Dec])
    requires unit { IsUnitExponent unit.exponent }
    requires partitions { All (IsBetween 1 10000) partitions.now }
    requires lower { IsSome variables.now.lower }
    requires upper { IsSome variables.now.upper }
    requires lower_is { IsBound unit.exponent (length partitions.now) variables.now.lower }
    requires upper_is { IsBound unit.exponent (length partitions.now) variables.now.upper }
    requires room { length out.old ≡ length partitions.now }
    ensures { out.new ≡ map (in_units unit.exponent) (in_grid i partitions.now (unwrap_or variables.now.lower []) (unwrap_or variables.now.upper [])) }
{
    match (&variables.lower, &variables.upper) {
        (Some(lower), Some(upper)) => {
            put_in_grid(i, partitions, lower.items(), upper.items(), unit, out)
        }
        _ => unreachable!(),
    }
}

/// Writes the point of this number of a grid, the first variable varying fastest.
pub fn put_in_grid(
    i: u32,
    partitions: &[u32],
    lower: &[i128],
    upper: &[i128],
    unit: Unit,
    out: &mut [Dec],
)
    requires unit { IsUnitExponent unit.exponent }
    requires partitions { All (IsBetween 1 10000) partitions.now }
    requires lower { All (IsNumber unit.exponent) lower.now }
    requires upper { All (IsNumber unit.exponent) upper.now }
    requires lower_long { length lower.now ≡ length partitions.now }
    requires upper_long { length upper.now ≡ length partitions.now }
    requires room { length out.old ≡ length partitions.now }
    ensures { out.new ≡ map (in_units unit.exponent) (in_grid i partitions.now lower.now upper.now) }
{
    let mut left = i;
    for place in 0..partitions.len() {
        let parts = partitions[place];
        out[place] = from_units(
            part_way(left % (parts + 1), parts, lower[place], upper[place]),
            unit,
        );
        left /= parts + 1;
    }
}
