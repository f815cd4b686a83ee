// What the files of a study's evaluations depend on.
ghost use Rattle.std.specs.Prelude.{◌≡◌, ◌≤◌, length, take, IfOk};
ghost use Rattle.dk_params.specs.Bounds.{bound_of, CoversEach};
ghost use Rattle.dk_params.specs.Params.{task_of, params_of};
ghost use Rattle.dk_types.specs.Labels.{AreLabels};

use crate::file::{most_bytes, write_file};
use dk_num::Dec;
use dk_types::{Interface, Labels, Study};
use std::alloc::{AllocError, Global};

/// The labels and the interface of a study: all that the files of its evaluations depend on. It is small, where a study
/// may have millions of numbers.
#[derive(Drop)]
pub struct Task {
    pub variables: Labels,
    pub responses: Labels,
    pub interface: Interface,
}

impl Task {
    /// That of a study.
    pub fn of(alloc: Global, study: &Study) -> Result<Task, AllocError>
        ensures { IfOk result (λ task. task ≡ task_of study.now) }
    {
        Ok(Task {
            variables: study.variables.labels.copy(alloc)?,
            responses: study.responses.labels.copy(alloc)?,
            interface: study.interface.copy(alloc)?,
        })
    }

    /// How many bytes its parameters files take at most, whatever the evaluation and the point; at most 97,600.
    pub fn params_bound(&self) -> usize
        requires variables { AreLabels self.now.variables }
        requires responses { AreLabels self.now.responses }
        ensures value { result ≡ bound_of self.now }
        ensures covers { CoversEach self.now result }
        ensures small { result ≤ 97600 }
    {
        most_bytes(self.variables.items().len(), self.responses.items().len())
    }

    /// Writes the parameters file of an evaluation, numbered from 1, at a point at the front of `out`, in the interface's
    /// form, and answers its length in bytes. What stands behind it is left open. It takes no memory.
    pub fn params_text(&self, evaluation: u32, point: &[Dec], out: &mut [u8]) -> usize
        requires variables { AreLabels self.now.variables }
        requires responses { AreLabels self.now.responses }
        requires width { length point.now ≡ length self.now.variables }
        requires room { bound_of self.now ≤ length out.old }
        ensures text { take result out.new ≡ params_of self.now evaluation point.now }
        ensures within { result ≤ bound_of self.now }
    {
        write_file(
            self.interface.form,
            self.variables.items(),
            self.responses.items(),
            evaluation,
            point,
            out,
        )
    }
}
