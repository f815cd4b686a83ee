// One attempt at an evaluation.
ghost use Rattle.std.specs.Prelude.{◌≡◌, ℕ, List, length, IfOk, IfErr, IfSome, IsOkAnd};
ghost use Rattle.dk_outside.specs.Causes.{HasCause};
ghost use Rattle.dk_types.specs.Solo.{rosenbrock_child};
ghost use Rattle.dk_types.specs.Sound.{IsSound};
ghost use Rattle.dk_types.specs.declared.study.Driver.TheVariants.{Direct, Fork};
ghost use Rattle.dk_params.specs.Params.{task_of};
ghost use Rattle.dk_fork.specs.Attempts.{IsRead, Attempts, GoTogether};

use crate::attempt::attempt_with;
use crate::room::Room;
use crate::serve::BenchStep;
use dk_num::Dec;
use dk_outside::Bench;
use dk_params::Task;
use dk_results::Reading;
use dk_types::Study;
use std::alloc::{AllocError, Global};
use std::marker::Model;

/// An attempt of an evaluation: the number of its row and its own, both counted from 1.
#[derive(Clone, Copy, Debug, PartialEq, Eq)]
pub struct Job {
    pub row: u32,
    pub attempt: u32,
}

/// A call of a bench failed: which bench's, and which of an attempt's calls.
#[derive(Clone, Copy, Debug, PartialEq, Eq)]
pub struct BenchFault {
    pub slot: u32,
    pub step: BenchStep,
}

/// What makes attempts: a bench with its number, what a study's files depend on, and room for the texts of one attempt.
#[derive(Drop)]
pub struct Station<B: Bench> {
    bench: B,
    slot: u32,
    task: Task,
    room: Room,
}

impl<B: Bench> Model for Station<B> {
    ghost use Rattle.dk_fork.specs.Attempts.{StationState, GoTogether, IsSoundTask};
    ghost use Rattle.dk_fork.specs.Rooms.{IsRoomFor};

    ghost Value = { StationState B };

    ghost view = { λ s. record { bench = s.bench; slot = s.slot; task = s.task; values = s.room.values.items } };

    ghost invariant = { λ s. IsSoundTask s.task × IsRoomFor s.task s.room × GoTogether (B.together s.bench) s.task };
}

impl<B: Bench> Station<B> {
    /// A station over a bench, for the attempts of a study. It takes all memory that these need. Where there is none the
    /// bench comes back.
    pub fn station(
        alloc: Global,
        bench: B,
        slot: u32,
        study: &Study,
    ) -> Result<Station<B>, (AllocError, B)>
        requires sound { IsSound study.now }
        requires together { GoTogether (B.together bench) (task_of study.now) }
        ensures bench { IfOk result (λ station. station.bench ≡ bench) }
        ensures slot { IfOk result (λ station. station.slot ≡ slot) }
        ensures task { IfOk result (λ station. station.task ≡ task_of study.now) }
        ensures given_back { IfErr result (λ refused. refused.1 ≡ bench) }
    {
        match Parts::of(alloc, study) {
            Ok(Parts { task, room }) => Ok(Station {
                bench,
                slot,
                task,
                room,
            }),
            Err(refused) => Err((refused, bench)),
        }
    }

    /// The values of the last attempt, after `Reading::Values`.
    pub fn values(&self) -> &[Dec]
        ensures { result.now ≡ self.now.values }
    {
        &self.room.values
    }

    /// The bench.
    pub fn give_back(self) -> B
        ensures { result ≡ self.bench }
    {
        self.bench
    }

    /// Makes an attempt of a row's point, and reads what it gave.
    ///
    /// With a driver (`fork`) the results file is cleared, the parameters file laid, the child run, and what it left fetched;
    /// then both files are cleared where the study doesn't save them (`file_save`). The attempt failed where nothing is left,
    /// more than 65,536 bytes, or no results for just as many values as the study has responses. A fault names the call
    /// that failed. With `direct` the program's own function is computed and the bench isn't called.
    pub fn attempt(&mut self, job: &Job, point: &[Dec]) -> Result<Reading, BenchFault>
        requires point { length point.now ≡ length self.old.task.variables }
        ensures child { (words : List (List ℕ)) → self.old.task.interface.driver ≡ Fork words → IfSome (B.held self.old.bench) (λ old.
            Attempts B.leaves self.old.task job.now.row point.now job.now.attempt result self.new.values old (B.held self.new.bench)) }
        ensures direct { self.old.task.interface.driver ≡ Direct → IsOkAnd result (λ reading. (self.new.bench ≡ self.old.bench) × IsRead (rosenbrock_child point.now job.now.attempt) reading self.new.values) }
        ensures width { length self.new.values ≡ length self.new.task.responses }
        ensures task { self.new.task ≡ self.old.task }
        ensures slot { self.new.slot ≡ self.old.slot }
        ensures fault { IfErr result (λ fault. fault.slot ≡ self.old.slot) }
        ensures after { B.after self.old.bench self.new.bench }
        ensures cause { HasCause (B.faults self.old.bench) (B.faults self.new.bench) result }
    {
        match attempt_with(&mut self.bench, &self.task, job, point, &mut self.room) {
            Ok(reading) => Ok(reading),
            Err(step) => Err(BenchFault {
                slot: self.slot,
                step,
            }),
        }
    }
}

/// What a station has beside its bench.
#[derive(Drop)]
struct Parts {
    task: Task,
    room: Room,
}

impl Parts {
    ghost use Rattle.dk_fork.specs.Rooms.{IsRoomFor};

    fn of(alloc: Global, study: &Study) -> Result<Parts, AllocError>
        requires { IsSound study.now }
        ensures task { IfOk result (λ parts. parts.task ≡ task_of study.now) }
        ensures room { IfOk result (λ parts. IsRoomFor (task_of study.now) parts.room) }
    {
        Ok(Parts {
            task: Task::of(alloc, study)?,
            room: Room::of(alloc, study)?,
        })
    }
}
