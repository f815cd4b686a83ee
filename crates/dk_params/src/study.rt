// Parameters files of a study.
ghost use Rattle.std.specs.Prelude.{◌≡◌, ◌≤◌, length, take};
ghost use Rattle.dk_params.specs.Bounds.{bound, CoversEach};
ghost use Rattle.dk_params.specs.Params.{task_of, params};
ghost use Rattle.dk_types.specs.Labels.{AreLabels};

use crate::file::{most_bytes, write_file};
use dk_num::Dec;
use dk_types::Study;

/// How many bytes the study's parameters files take at most, whatever the evaluation and the point; at most 97,600. The
/// labels are as those of each accepted study.
pub fn params_bound(study: &Study) -> usize
    requires variables { AreLabels study.now.variables.labels }
    requires responses { AreLabels study.now.responses.labels }
    ensures value { result ≡ bound study.now }
    ensures covers { CoversEach (task_of study.now) result }
    ensures small { result ≤ 97600 }
{
    most_bytes(
        study.variables.labels.items().len(),
        study.responses.labels.items().len(),
    )
}

/// Writes the parameters file of an evaluation, numbered from 1, at a point at the front of `out`, in the form that the
/// study's interface asks for, and answers its length in bytes. What stands behind it is left open. It takes no memory.
pub fn params_text(study: &Study, evaluation: u32, point: &[Dec], out: &mut [u8]) -> usize
    requires variables { AreLabels study.now.variables.labels }
    requires responses { AreLabels study.now.responses.labels }
    requires width { length point.now ≡ length study.now.variables.labels }
    requires room { bound study.now ≤ length out.old }
    ensures text { take result out.new ≡ params study.now evaluation point.now }
    ensures within { result ≤ bound study.now }
{
    write_file(
        study.interface.form,
        study.variables.labels.items(),
        study.responses.labels.items(),
        evaluation,
        point,
        out,
    )
}
