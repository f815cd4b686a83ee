// A step of the search.
ghost use Rattle.std.specs.Prelude.{◌≡◌, ◌+◌, ◌^◌, ◌<◌, length, Some, IsSome, option_map};
ghost use Rattle.dk_types.specs.Search.{polls, iterated};
ghost use Rattle.dk_compass.specs.States.{IsSearchState, iterate_of, step_of, single};

use crate::choice::better;
use crate::directions::{direction_at, moved};
use crate::{State, Step};
use dk_num::Dec;
use dk_types::Variables;

/// Ends an iteration by the values of its polls, of which there is one for each, in order. Where the first least poll is
/// below the iterate, it is the next iterate, and the step keeps its length; else, also where there are no polls, the
/// iterate stays and the step is halved, rounded down to whole units (Kolda, Lewis and Torczon, section 3).
pub fn step(state: &mut State, variables: &Variables, values: &[Dec]) -> Step
    requires is_search_state { IsSearchState variables.now state.old }
    requires has_value { IsSome state.old.value }
    requires has_all_values { length values.now ≡ length (polls variables.now state.old.x state.old.delta) }
    requires has_iterations { state.old.iteration + 1 < 2 ^ 32 }
    requires has_few_variables { length variables.now.labels < 2 ^ 31 }
    ensures counts_iteration { state.new.iteration ≡ state.old.iteration + 1 }
    ensures gives_iterate { iterate_of state.new ≡ option_map (λ at. iterated at (polls variables.now state.old.x state.old.delta) (single values.now)) (iterate_of state.old) }
    ensures tells_step { Some result ≡ option_map (λ at. step_of variables.now at (single values.now)) (iterate_of state.old) }
    ensures keeps_variables { length state.new.x ≡ length variables.now.labels }
{
    state.iteration += 1;
    let Some(place) = better(values, state.value) else {
        state.delta /= 2;
        return Step::Contracted;
    };
    let direction = direction_at(state, variables, place);
    let number = moved(state, variables, direction);
    state.x.set((direction / 2) as usize, number);
    state.value = Some(values[place]);
    Step::Moved { direction }
}
