// Where a search stands, and whether it ends there.
ghost use Rattle.std.specs.Prelude.{◌≡◌, ◌<◌, int_lt, nat_le, nat_lt, if◌then◌else◌, Some, None};
ghost use Rattle.dk_types.specs.declared.study.Why.TheVariants.{Threshold, Iterations, Evaluations};

use dk_num::Dec;
use dk_types::{Units, Why};

/// Where a search stands: its best point so far, the iterate, and the value of the objective function there, which is
/// none as long as it isn't known; the length of a step, which is `initial_delta` at first; and how many iterations are
/// done. Point and length are whole numbers of the study's unit.
#[derive(Debug, Drop)]
pub struct State {
    pub x: Units,
    pub value: Option<Dec>,
    pub delta: i128,
    pub iteration: u32,
}

/// What an iteration did: it moved to the poll in this direction, or it contracted, that is halved its step. Directions
/// are numbered from 0: on along the first variable, back along it, on along the second, and so on. Those that lead out
/// of the bounds have numbers too.
#[derive(Clone, Copy, Debug, PartialEq, Eq)]
pub enum Step {
    Moved { direction: u32 },
    Contracted,
}

/// Why a search ends before its next iteration, if it does: the step is shorter than `threshold_delta`; so many
/// iterations as `max_iterations` are done; or there is room for fewer evaluations than the iteration has polls, by
/// `max_function_evaluations`. The first of these counts.
pub fn ended(state: &State, threshold: i128, iterations: u32, room: u32, polls: u32) -> Option<Why>
    ensures tells_end { result ≡ (if int_lt state.now.delta threshold then Some Threshold else if nat_le iterations state.now.iteration then Some Iterations else if nat_lt room polls then Some Evaluations else None) }
{
    if state.delta < threshold {
        return Some(Why::Threshold);
    }
    if state.iteration >= iterations {
        return Some(Why::Iterations);
    }
    if polls > room {
        return Some(Why::Evaluations);
    }
    None
}
