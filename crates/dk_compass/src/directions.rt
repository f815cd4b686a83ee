// The directions of an iteration.
ghost use Rattle.std.specs.Prelude.{◌≡◌, ◌+◌, ◌*◌, ◌/◌, ◌%◌, ◌==◌, ◌^◌, ◌<◌, length, get_or, pos, neg_ℤ, ◌+ℤ◌, if◌then◌else◌};
ghost use Rattle.dk_types.specs.Search.{poll_at, keeps_bounds as keeps_bounds_defined, directions};
ghost use Rattle.dk_compass.specs.States.{IsSearchState, IsSmall};

use crate::State;
use crate::bounds::keeps_bounds;
use dk_types::Variables;

/// The number of the variable that moves in this direction, in the poll there.
pub fn moved(state: &State, variables: &Variables, direction: u32) -> i128
    requires state { IsSearchState variables.now state.now }
    requires direction { direction < 2 * length state.now.x }
    ensures value { result ≡ get_or state.now.x (direction / 2) (pos 0) +ℤ (if direction % 2 == 0 then state.now.delta else neg_ℤ state.now.delta) }
    ensures small { IsSmall result }
{
    let number = state.x.items()[(direction / 2) as usize];
    if direction % 2 == 0 {
        number + state.delta
    } else {
        number - state.delta
    }
}

/// Whether the poll in this direction keeps the bounds.
pub fn stays_inside(state: &State, variables: &Variables, direction: u32) -> bool
    requires state { IsSearchState variables.now state.now }
    requires direction { direction < 2 * length state.now.x }
    ensures { result ≡ keeps_bounds_defined variables.now (poll_at state.now.x state.now.delta direction) }
{
    let number = moved(state, variables, direction);
    keeps_bounds(variables, state.x.items(), (direction / 2) as usize, number)
}

/// The direction of the poll at this place.
pub fn direction_at(state: &State, variables: &Variables, place: usize) -> u32
    requires state { IsSearchState variables.now state.now }
    requires few { length state.now.x < 2 ^ 31 }
    requires place { place < length (directions variables.now state.now.x state.now.delta) }
    ensures value { result ≡ get_or (directions variables.now state.now.x state.now.delta) place 0 }
    ensures within { result < 2 * length state.now.x }
{
    let mut left = place;
    for direction in 0..2 * state.x.items().len() as u32 {
        if stays_inside(state, variables, direction) {
            if left == 0 {
                return direction;
            }
            left -= 1;
        }
    }
    unreachable!()
}
