// The polls of an iteration.
ghost use Rattle.std.specs.Prelude.{◌≡◌, ◌+◌, ◌*◌, ◌<◌, ◌≤◌, [], ◌∷◌, ◌++◌, length, map};
ghost use Rattle.dk_num.specs.Units.{in_units, IsUnitExponent};
ghost use Rattle.dk_types.specs.Search.{poll_at, polls as polls_defined};
ghost use Rattle.dk_compass.specs.States.{IsSearchState};

use crate::State;
use crate::directions::{moved, stays_inside};
use dk_num::{Unit, from_units};
use dk_pool::Pool;
use dk_types::Variables;

/// Puts the polls of the next iteration into the pool, behind its other rows, and tells how many they are. They lie a
/// step from the iterate: on along the first variable, back along it, on along the second, and so on (Kolda, Lewis and
/// Torczon, section 3). Those that leave a bound (`lower_bounds`, `upper_bounds`) aren't made.
pub fn polls(state: &State, variables: &Variables, unit: Unit, out: &mut Pool) -> u32
    requires is_search_state { IsSearchState variables.now state.now }
    requires is_unit_exponent { IsUnitExponent unit.exponent }
    requires has_width { out.old.width ≡ length variables.now.labels }
    requires has_room { 2 * length state.now.x ≤ out.old.spare }
    ensures adds_polls { out.new.rows ≡ out.old.rows ++ map (map (in_units unit.exponent)) (polls_defined variables.now state.now.x state.now.delta) }
    ensures counts_polls { result ≡ length (polls_defined variables.now state.now.x state.now.delta) }
    ensures keeps_width { out.new.width ≡ out.old.width }
    ensures takes_room { out.new.spare + result ≡ out.old.spare }
{
    let before = out.count();
    for direction in 0..2 * state.x.items().len() as u32 {
        if stays_inside(state, variables, direction) {
            put_poll(state, variables, direction, unit, out);
        }
    }
    (out.count() - before) as u32
}

/// Puts the poll in this direction.
fn put_poll(state: &State, variables: &Variables, direction: u32, unit: Unit, out: &mut Pool)
    requires state { IsSearchState variables.now state.now }
    requires direction { direction < 2 * length state.now.x }
    requires unit { IsUnitExponent unit.exponent }
    requires width { out.old.width ≡ length variables.now.labels }
    requires room { 1 ≤ out.old.spare }
    ensures row { out.new.rows ≡ out.old.rows ++ map (in_units unit.exponent) (poll_at state.now.x state.now.delta direction) ∷ [] }
    ensures width { out.new.width ≡ out.old.width }
    ensures room { out.new.spare + 1 ≡ out.old.spare }
{
    let number = moved(state, variables, direction);
    let row = out.put_units(state.x.items(), unit);
    out.set(row, (direction / 2) as usize, from_units(number, unit));
}
