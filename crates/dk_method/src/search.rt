// A compass search from batch to batch.
ghost use Rattle.std.specs.Prelude.{◌≡◌, ◌+◌, ◌^◌, ◌<◌, ◌≤◌, List, [], length, take, drop, IfOk, IsSome};
ghost use Rattle.std.specs.List.{All};
ghost use Rattle.dk_types.specs.declared.study.Method.TheVariants.{Compass};
ghost use Rattle.dk_types.specs.declared.rows.Row.{Row};
ghost use Rattle.dk_types.specs.Planned.{AnswersBatch, values_in};
ghost use Rattle.dk_types.specs.Sound.{IsSound};
ghost use Rattle.dk_types.specs.Widths.{HaveWidths};
ghost use Rattle.dk_compass.specs.States.{single};
ghost use Rattle.dk_method.specs.Searching.{IsSearching, HasLed, IsBegun, Plans};

use dk_compass::{State, ended, polls, step};
use dk_num::Dec;
use dk_pool::Pool;
use dk_types::{Plan, Rows, Study};
use std::alloc::{AllocError, Global};

/// The numbers that a study gives to its search: the first length of a step and the least (`initial_delta`,
/// `threshold_delta`, in units), and the most iterations and evaluations (`max_iterations`, `max_function_evaluations`).
#[derive(Clone, Copy)]
pub struct Terms {
    pub delta: i128,
    pub threshold: i128,
    pub iterations: u32,
    pub evaluations: u32,
}

/// A search between two batches: where it stands, the points that it handed out last, and room for their values.
#[derive(Drop)]
pub struct Search {
    pub terms: Terms,
    pub state: State,
    pub polls: Pool,
    pub values: Vec<Dec>,
}

impl Search {
    /// A search that begins, with room for the polls of an iteration. Only want of memory is an error.
    pub fn begin(alloc: Global, study: &Study, terms: Terms) -> Result<Search, AllocError>
        requires sound { IsSound study.now }
        requires terms { study.now.method ≡ Compass terms.delta terms.threshold terms.iterations terms.evaluations }
        ensures { IfOk result (λ search. IsBegun study.now terms search) }
    {
        let variables = study.variables.labels.items().len();
        Ok(Search {
            terms,
            state: State {
                x: study.variables.initial.copy(alloc)?,
                value: None,
                delta: terms.delta,
                iteration: 0,
            },
            polls: Pool::reserve(alloc, 2 * variables, variables)?,
            values: vec![in alloc; Dec::whole(0); 2 * variables]?,
        })
    }

    /// The next batch, or the end, behind these rows: those of before, which are so many, and one for each point that was
    /// handed out.
    pub fn next<R: Rows>(&mut self, study: &Study, before: u32, rows: &R) -> Plan
        requires sound { IsSound study.now }
        requires searching { IsSearching study.now before self.old }
        requires widths { HaveWidths study.now (R.rows rows.now) }
        requires answered { (given : List Row) × (length given ≡ before) × HasLed study.now self.old given × AnswersBatch given self.old.polls.rows (R.rows rows.now) }
        ensures searching { IsSearching study.now (length (R.rows rows.now)) self.new }
        ensures plans { Plans study.now (R.rows rows.now) self.new result }
    {
        self.take_values(study, before, rows);
        self.plan(study, rows.count())
    }

    /// Ends the iteration whose polls were handed out, by the values of their rows.
    fn take_values<R: Rows>(&mut self, study: &Study, before: u32, rows: &R)
        requires sound { IsSound study.now }
        requires searching { IsSearching study.now before self.old }
        requires widths { HaveWidths study.now (R.rows rows.now) }
        requires answered { (given : List Row) × (length given ≡ before) × HasLed study.now self.old given × AnswersBatch given self.old.polls.rows (R.rows rows.now) }
        ensures searching { IsSearching study.now (length (R.rows rows.now)) self.new }
        ensures none { self.new.polls.rows ≡ [] }
        ensures led { HasLed study.now self.new (R.rows rows.now) }
    {
        let count = self.polls.count();
        if count == 0 {
            return;
        }
        self.polls.truncate(0);
        if self.state.value.is_none() {
            self.state.value = Some(rows.values(1)[0]);
            return;
        }
        read_values(rows, before, count, &mut self.values);
        step(&mut self.state, &study.variables, &self.values[..count]);
    }

    /// The batch behind so many rows, or the end.
    fn plan(&mut self, study: &Study, count: u32) -> Plan
        requires sound { IsSound study.now }
        requires searching { IsSearching study.now count self.old }
        requires none { self.old.polls.rows ≡ [] }
        ensures searching { IsSearching study.now count self.new }
        ensures plans { (rows : List Row) → length rows ≡ count → HasLed study.now self.old rows → Plans study.now rows self.new result }
    {
        if self.state.value.is_none() {
            self.polls
                .put_units(study.variables.initial.items(), study.unit);
            return Plan::Batch { first: 1, count: 1 };
        }
        self.plan_polls(study, count)
    }

    /// The polls of the next iteration that has some, or the end. An iteration that has none contracts.
    fn plan_polls(&mut self, study: &Study, count: u32) -> Plan
        requires sound { IsSound study.now }
        requires searching { IsSearching study.now count self.old }
        requires none { self.old.polls.rows ≡ [] }
        requires has_value { IsSome self.old.state.value }
        ensures searching { IsSearching study.now count self.new }
        ensures plans { (rows : List Row) → length rows ≡ count → HasLed study.now self.old rows → Plans study.now rows self.new result }
    {
        loop {
            let made = polls(&self.state, &study.variables, study.unit, &mut self.polls);
            let room = self.terms.evaluations - count;
            let threshold = self.terms.threshold;
            if let Some(why) = ended(&self.state, threshold, self.terms.iterations, room, made) {
                self.polls.truncate(0);
                return Plan::Finished(why);
            }
            if made > 0 {
                return Plan::Batch {
                    first: count + 1,
                    count: made,
                };
            }
            step(&mut self.state, &study.variables, &[]);
        }
    }
}

/// Writes the values of so many rows behind those of before, each of which has one, to the first places.
fn read_values<R: Rows>(rows: &R, before: u32, count: usize, out: &mut [Dec])
    requires few { length (R.rows rows.now) < 2 ^ 32 }
    requires within { before + count ≤ length (R.rows rows.now) }
    requires room { count ≤ length out.old }
    requires one_each { All (λ row. length row.values ≡ 1) (R.rows rows.now) }
    ensures long { length out.new ≡ length out.old }
    ensures read { single (take count out.new) ≡ take count (drop before (values_in (R.rows rows.now))) }
{
    for place in 0..count {
        out[place] = rows.values(before + 1 + place as u32)[0];
    }
}
