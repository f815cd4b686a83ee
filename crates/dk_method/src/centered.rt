// The points of a centered study.
ghost use Rattle.std.specs.Prelude.{◌≡◌, ◌+◌, ◌*◌, ◌<◌, ◌≤◌, ◌^◌, length, map, sum, get_or, pos, ◌+ℤ◌, ◌*ℤ◌, unsigned_abs};
ghost use Rattle.std.specs.List.{All};
ghost use Rattle.dk_num.specs.Units.{in_units, IsUnitExponent};
ghost use Rattle.dk_types.specs.Points.{around, offset as offset_of};
ghost use Rattle.dk_types.specs.Sound.{IsNumber, IsBetween};
ghost use Rattle.dk_method.specs.Moves.{IsMove};

use crate::vector::stepped;
use crate::written::put_units;
use dk_num::{Dec, Unit, from_units};

/// Writes the point of this number around a centre: the centre itself at 0.
pub fn put_around(
    i: u32,
    centre: &[i128],
    step: &[i128],
    counts: &[u32],
    unit: Unit,
    out: &mut [Dec],
)
    requires within { i < 1 + 2 * sum counts.now }
    requires unit { IsUnitExponent unit.exponent }
    requires centre { All (IsNumber unit.exponent) centre.now }
    requires step { All (IsNumber unit.exponent) step.now }
    requires counts { All (IsBetween 0 10000) counts.now }
    requires along { length step.now ≡ length centre.now }
    requires counted { length counts.now ≡ length centre.now }
    requires room { length out.old ≡ length centre.now }
    ensures { out.new ≡ map (in_units unit.exponent) (around i centre.now step.now counts.now) }
{
    put_units(centre, unit, out);
    if i > 0 {
        let moved = move_of(counts, i - 1);
        let place = moved.variable;
        out[place] = from_units(stepped(centre[place], step[place], moved.offset), unit);
    }
}

/// Which variable is moved, and by how many steps.
#[derive(Drop)]
struct Move {
    variable: usize,
    offset: i128,
}

/// The move of this number, counted from 0.
fn move_of(counts: &[u32], k: u32) -> Move
    requires counts { All (IsBetween 0 10000) counts.now }
    requires within { k < 2 * sum counts.now }
    ensures { IsMove counts.now k result }
{
    let mut left = k;
    for (variable, count) in counts.iter().enumerate() {
        if left < 2 * *count {
            let offset = offset(*count, left);
            return Move { variable, offset };
        }
        left -= 2 * *count;
    }
    unreachable!()
}

/// How far a variable is moved that goes so many steps to either side.
fn offset(count: u32, k: u32) -> i128
    requires count { count ≤ 10000 }
    requires within { k < 2 * count }
    ensures value { result ≡ offset_of count k }
    ensures few { unsigned_abs result ≤ 10000 }
{
    if k < count {
        i128::from(k) - i128::from(count)
    } else {
        i128::from(k) - i128::from(count) + 1
    }
}
