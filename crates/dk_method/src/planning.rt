// The plan of a study.
ghost use Rattle.std.specs.Prelude.{◌≡◌, ◌<◌, IfOk, IsTrue, length};
ghost use Rattle.dk_types.specs.Sound.{IsSound};
ghost use Rattle.dk_types.specs.Points.{has_points, point, size};
ghost use Rattle.dk_method.specs.Plans.{IsNew, BeginsBy};

use crate::centered::put_around;
use crate::grid::put_bounded;
use crate::search::{Search, Terms};
use crate::vector::{put_after_steps, put_towards};
use crate::written::put_listed;
use dk_num::Dec;
use dk_pool::RowId;
use dk_types::{Method, Plan, Planner, Rows, Study, Way, Why};
use std::alloc::{AllocError, Global};
use std::marker::Model;

/// A planner of a study of any method: `vector_parameter_study`, `list_parameter_study`, `centered_parameter_study`,
/// `multidim_parameter_study` or `compass_search`. It keeps the study and how many rows it was given. The points of the
/// first four are computed when they are asked for; those of a compass search are chosen by the values of the rows, one
/// iteration after another, and kept until the next batch.
#[derive(Drop)]
pub struct Planning {
    study: Study,
    /// How many rows the last call of `next` was given.
    before: u32,
    /// How many points the batch behind them has, where the points are known from the beginning.
    count: u32,
    /// A compass search's search.
    search: Option<Search>,
}

impl Model for Planning {
    ghost use Rattle.dk_method.specs.Plans.{PlanningState, IsPlanningState};

    ghost Value = { PlanningState };

    ghost view = { λ p. record { study = p.study; before = p.before; count = p.count; search = p.search } };

    ghost invariant = { λ p. IsPlanningState (record { study = p.study; before = p.before; count = p.count; search = p.search }) };
}

/// A plan of a study, of which no batch is handed out yet. Only want of memory is an error, and no later call takes memory.
pub fn plan_of(alloc: Global, study: &Study) -> Result<Planning, AllocError>
    requires sound { IsSound study.now }
    ensures plans_study { IfOk result (λ planning. IsNew study.now planning) }
{
    Ok(Planning {
        study: study.copy(alloc)?,
        before: 0,
        count: 0,
        search: search_of(alloc, study)?,
    })
}

/// The search of a compass search, which begins.
fn search_of(alloc: Global, study: &Study) -> Result<Option<Search>, AllocError>
    requires sound { IsSound study.now }
    ensures { IfOk result (λ search. BeginsBy study.now search study.now.method) }
{
    match &study.method {
        Method::Compass {
            delta,
            threshold,
            iterations,
            evaluations,
        } => {
            let terms = Terms {
                delta: *delta,
                threshold: *threshold,
                iterations: *iterations,
                evaluations: *evaluations,
            };
            Ok(Some(Search::begin(alloc, study, terms)?))
        }
        _ => Ok(None),
    }
}

impl Planner for Planning {
    ghost use Rattle.dk_method.specs.Plans.{batch_of, WasGiven};

    ghost study = { λ p. p.study };

    ghost was_given = { λ p rows. WasGiven p rows };

    ghost before = { λ p. p.before };

    ghost batch = { λ p. batch_of p };

    fn next<R: Rows>(&mut self, rows: &R) -> Plan {
        let before = self.before;
        self.before = rows.count();
        if let Some(search) = &mut self.search {
            return search.next(&self.study, before, rows);
        }
        if self.before < self.study.limit {
            self.count = self.study.limit - self.before;
            Plan::Batch {
                first: self.before + 1,
                count: self.count,
            }
        } else {
            self.count = 0;
            Plan::Finished(Why::Complete)
        }
    }

    fn point(&self, row: u32, out: &mut [Dec]) {
        match &self.search {
            Some(search) => {
                let index = row - self.before - 1;
                out.copy_from_slice(search.polls.row(RowId { index }));
            }
            None => put_point(&self.study, row - 1, out),
        }
    }
}

/// Writes the point of this number, counted from 0.
fn put_point(study: &Study, i: u32, out: &mut [Dec])
    requires sound { IsSound study.now }
    requires points { IsTrue (has_points study.now.method) }
    requires within { i < size study.now }
    requires room { length out.old ≡ length study.now.variables.labels }
    ensures { out.new ≡ point study.now i }
{
    let initial = study.variables.initial.items();
    match &study.method {
        Method::Vector {
            steps: _,
            way: Way::Step(step),
        } => put_after_steps(i, initial, step.items(), study.unit, out),
        Method::Vector {
            steps,
            way: Way::Final(last),
        } => put_towards(i, *steps, initial, last.items(), study.unit, out),
        Method::List { points } => put_listed(i, points.items(), study.unit, out),
        Method::Centered { step, counts } => {
            put_around(i, initial, step.items(), counts.items(), study.unit, out)
        }
        Method::Multidim { partitions } => {
            put_bounded(i, partitions.items(), &study.variables, study.unit, out)
        }
        Method::Compass { .. } => unreachable!(),
    }
}
