// One attempt, in room that was taken before.
ghost use Rattle.std.specs.Prelude.{◌≡◌, ◌≢◌, ◌≤◌, ◌<◌, ℕ, List, Option, length, take, string_bytes, IfOk, IfSome, IsOkAnd};
ghost use Rattle.dk_outside.specs.Benches.{IsAtMost, IsFetched};
ghost use Rattle.dk_outside.specs.Causes.{HasCause};
ghost use Rattle.dk_types.specs.Solo.{rosenbrock_child};
ghost use Rattle.dk_types.specs.declared.study.Driver.TheVariants.{Direct, Fork};
ghost use Rattle.dk_params.specs.Params.{params_of};
ghost use Rattle.dk_fork.specs.Allowed.{reads};
ghost use Rattle.dk_fork.specs.Names.{file_name};
ghost use Rattle.dk_fork.specs.Attempts.{IsRead, AttemptsOn, GoTogether, IsSoundTask};
ghost use Rattle.dk_fork.specs.Rooms.{IsRoomFor};

use crate::names::{is_tagged, write_name};
use crate::room::Room;
use crate::serve::{BenchStep, serve};
use crate::station::Job;
use dk_num::{Dec, rosenbrock};
use dk_outside::{Bench, Call, Fetched, Words};
use dk_params::Task;
use dk_results::{Reading, read_results};
use dk_types::Driver;

/// An attempt, by a child or by the program's own function.
pub(crate) fn attempt_with<B: Bench>(
    bench: &mut B,
    task: &Task,
    job: &Job,
    point: &[Dec],
    room: &mut Room,
) -> Result<Reading, BenchStep>
    requires sound { IsSoundTask task.now }
    requires room { IsRoomFor task.now room.old }
    requires point { length point.now ≡ length task.now.variables }
    requires together { GoTogether (B.together bench.old) task.now }
    ensures child { (words : List (List ℕ)) → task.now.interface.driver ≡ Fork words → IfSome (B.held bench.old) (λ old.
        AttemptsOn B.leaves task.now job.now.row point.now job.now.attempt result room.new.values.items old (B.held bench.new)) }
    ensures direct { task.now.interface.driver ≡ Direct → IsOkAnd result (λ reading. (bench.new ≡ bench.old) × IsRead (rosenbrock_child point.now job.now.attempt) reading room.new.values.items) }
    ensures room { IsRoomFor task.now room.new }
    ensures after { B.after bench.old bench.new }
    ensures cause { HasCause (B.faults bench.old) (B.faults bench.new) result }
{
    match &task.interface.driver {
        Driver::Direct => Ok(compute(point, &mut room.values)),
        Driver::Fork { words } => attempt_by(bench, task, words, job, point, room),
    }
}

/// An attempt by a child.
fn attempt_by<B: Bench>(
    bench: &mut B,
    task: &Task,
    words: &Words,
    job: &Job,
    point: &[Dec],
    room: &mut Room,
) -> Result<Reading, BenchStep>
    requires driver { task.now.interface.driver ≡ Fork words.now }
    requires sound { IsSoundTask task.now }
    requires room { IsRoomFor task.now room.old }
    requires point { length point.now ≡ length task.now.variables }
    requires together { GoTogether (B.together bench.old) task.now }
    ensures attempts { IfSome (B.held bench.old) (λ old.
        AttemptsOn B.leaves task.now job.now.row point.now job.now.attempt result room.new.values.items old (B.held bench.new)) }
    ensures room { IsRoomFor task.now room.new }
    ensures after { B.after bench.old bench.new }
    ensures cause { HasCause (B.faults bench.old) (B.faults bench.new) result }
{
    let length = write_texts(task, job, point, room);
    let call = Call {
        driver: words,
        parameters: room.parameters.as_str(),
        results: room.results.as_str(),
        attempt: job.attempt,
    };
    let fetched = serve(
        bench,
        &call,
        &room.text[..length],
        task.interface.save,
        &mut room.left,
    )?;
    Ok(read_left(fetched, &room.left, &mut room.values))
}

/// Writes the names of a row's two files and the text of its parameters, and answers that one's length.
fn write_texts(task: &Task, job: &Job, point: &[Dec], room: &mut Room) -> usize
    requires sound { IsSoundTask task.now }
    requires room { IsRoomFor task.now room.old }
    requires point { length point.now ≡ length task.now.variables }
    ensures parameters { string_bytes room.new.parameters ≡ file_name task.now.interface task.now.interface.parameters job.now.row }
    ensures results { string_bytes room.new.results ≡ file_name task.now.interface task.now.interface.results job.now.row }
    ensures text { take result room.new.text.items ≡ params_of task.now job.now.row point.now }
    ensures within { result ≤ length room.new.text.items }
    ensures room { IsRoomFor task.now room.new }
{
    let interface = &task.interface;
    let tagged = is_tagged(interface);
    let parameters = interface.parameters.as_str();
    write_name(parameters, tagged, job.row, &mut room.parameters);
    let results = interface.results.as_str();
    write_name(results, tagged, job.row, &mut room.results);
    task.params_text(job.row, point, &mut room.text)
}

/// What the file that was fetched says.
fn read_left(fetched: Fetched, left: &[u8], values: &mut [Dec]) -> Reading
    requires room { length left.now ≡ 65536 }
    requires fetched { IsAtMost fetched (length left.now) }
    ensures says { (file : Option (List ℕ)) → IsFetched file fetched left.now → IsRead (reads file (length values.old)) result values.new }
    ensures width { length values.new ≡ length values.old }
{
    match fetched {
        Fetched::Bytes(count) => read_results(&left[..count], values),
        Fetched::Absent | Fetched::TooLong => Reading::Failed,
    }
}

/// The value of the program's own function.
pub(crate) fn compute(point: &[Dec], values: &mut [Dec]) -> Reading
    requires { length values.old ≡ 1 }
    ensures says { (attempt : ℕ) → IsRead (rosenbrock_child point.now attempt) result values.new }
    ensures width { length values.new ≡ length values.old }
{
    let [x1, x2] = point else {
        return Reading::Failed;
    };
    match rosenbrock(*x1, *x2) {
        Some(value) => {
            values.copy_from_slice(&[value]);
            Reading::Values
        }
        None => Reading::Failed,
    }
}
