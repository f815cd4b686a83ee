// What plans the points of a study.
ghost use Rattle.std.specs.Prelude.{◌≡◌, ℕ, ◌+◌, ◌-◌, List, length, slice_get, Some};
ghost use Rattle.dk_num.specs.Decimal.{Decimal};
ghost use Rattle.dk_types.specs.Sound.{IsSound};
ghost use Rattle.dk_types.specs.Widths.{HaveWidths};
ghost use Rattle.dk_types.specs.Planned.{rest, plan, AnswersLast, IsInBatch};
ghost use Rattle.dk_types.specs.declared.study.Study.{Study};
ghost use Rattle.dk_types.specs.declared.rows.Row.{Row};

use crate::{Rows, Why};
use dk_num::Dec;

/// What is to be done next: to evaluate the points of the rows from `first` on, which are `count` and at least one, or
/// to end the study.
#[derive(Clone, Copy, Debug, PartialEq, Eq)]
pub enum Plan {
    Batch { first: u32, count: u32 },
    Finished(Why),
}

/// What plans the points of a study: it hands out one batch of points after another, each once the rows of those
/// before have their values. A batch counts as handed out from the call of `next` on that answers it.
pub trait Planner {
    /// The study, which no call changes.
    ghost study: { Self → Study };

    /// Whether these may be the rows that the last call of `next` was given; none before the first call.
    ghost was_given: { Self → List Row → Type 0 };

    /// How many rows these were.
    ghost before: { Self → ℕ };

    /// The points of the last batch, in order; none before the first batch, and none once the study is finished.
    ghost batch: { Self → List (List Decimal) };

    /// The next batch, or the end. The rows are those of all batches handed out so far, in order, and begin with those
    /// that the call before was given, values included. Each has a decimal for each variable and a value for each
    /// response.
    fn next<R: Rows>(&mut self, rows: &R) -> Plan
        requires sound { IsSound (study self.old) }
        requires widths { HaveWidths (study self.old) (R.rows rows.now) }
        requires answered { AnswersLast (was_given self.old) (batch self.old) (R.rows rows.now) }
        ensures study { study self.new ≡ study self.old }
        ensures given { was_given self.new (R.rows rows.now) }
        ensures before { before self.new ≡ length (R.rows rows.now) }
        ensures batch { batch self.new ≡ rest (study self.old) (R.rows rows.now) }
        ensures plan { result ≡ plan (study self.old) (R.rows rows.now) };

    /// Writes the point of a row of the last batch: a decimal for each variable.
    fn point(&self, row: u32, out: &mut [Dec])
        requires sound { IsSound (study self.now) }
        requires row { IsInBatch (before self.now) (batch self.now) row }
        requires room { length out.old ≡ length (study self.now).variables.labels }
        ensures { slice_get (batch self.now) (row - (before self.now + 1)) ≡ Some out.new };
}
