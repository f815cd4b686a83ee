// The room in which a station makes an attempt.
ghost use Rattle.std.specs.Prelude.{◌≡◌, ◌+◌, ◌≤◌, length, string_capacity, IfOk};
ghost use Rattle.dk_params.specs.Params.{task_of};
ghost use Rattle.dk_types.specs.Sound.{IsSound};
ghost use Rattle.dk_fork.specs.Rooms.{IsRoomFor};

use dk_num::Dec;
use dk_params::params_bound;
use dk_types::Study;
use std::alloc::{AllocError, Global};

/// The most bytes that a results file may have.
pub const MOST_BYTES: usize = 65_536;

/// How many bytes a period and a row take at most behind a name.
const TAG: usize = 11;

/// Room for the names of a row's two files, for its parameters, for what a child leaves, and for the values of its
/// responses.
#[derive(Drop)]
pub(crate) struct Room {
    pub parameters: String,
    pub results: String,
    pub text: Vec<u8>,
    pub left: Vec<u8>,
    pub values: Vec<Dec>,
}

impl Room {
    /// Room for the attempts of a study. It is all the memory that they take.
    pub(crate) fn of(alloc: Global, study: &Study) -> Result<Room, AllocError>
        requires { IsSound study.now }
        ensures { IfOk result (IsRoomFor (task_of study.now)) }
    {
        Ok(Room {
            parameters: room_for_name(alloc, study.interface.parameters.as_str())?,
            results: room_for_name(alloc, study.interface.results.as_str())?,
            text: vec![in alloc; 0; params_bound(study)]?,
            left: room_for_results(alloc)?,
            values: vec![in alloc; Dec::whole(0); study.responses.labels.items().len()]?,
        })
    }
}

/// Room for a name with a row behind it.
fn room_for_name(alloc: Global, name: &str) -> Result<String, AllocError>
    ensures { IfOk result (λ room. length name.now + 11 ≤ string_capacity room) }
{
    String::with_capacity(alloc, name.len() + TAG)
}

/// Room for what a child leaves.
fn room_for_results(alloc: Global) -> Result<Vec<u8>, AllocError>
    ensures { IfOk result (λ left. length left.items ≡ 65536) }
{
    vec![in alloc; 0; MOST_BYTES]
}
