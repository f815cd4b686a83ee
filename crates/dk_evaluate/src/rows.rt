// The rows of an evaluation, in memory.
ghost use Rattle.std.specs.Prelude.{◌≡◌, ◌+◌, ◌-◌, ◌*◌, ◌<◌, ◌≤◌, ◌^◌, ◌++◌, [], ◌∷◌, length, IfOk, position, Some};
ghost use Rattle.dk_types.specs.Best.{same_point};

use dk_num::Dec;
use dk_pool::{Pool, RowId};
use dk_types::Rows;
use std::alloc::{AllocError, Global};
use std::marker::Model;

/// Rows in order, with room for a fixed number of them. Only `reserve` takes memory.
#[derive(Drop)]
pub struct RowPool {
    points: Pool,
    values: Pool,
    firsts: Vec<u32>,
}

impl Model for RowPool {
    ghost use Rattle.dk_evaluate.specs.Pools.{RowsState, rows_in, AreInPools};

    ghost Value = { RowsState };

    ghost view = { λ r. rows_in r.points r.values };

    ghost invariant = { λ r. AreInPools r.points r.values r.firsts.items };
}

impl RowPool {
    /// No rows, with room for so many, of points of so many variables and values of so many responses.
    pub fn reserve(
        alloc: Global,
        rows: usize,
        variables: usize,
        responses: usize,
    ) -> Result<RowPool, AllocError>
        requires rows { rows < 2 ^ 32 }
        requires points { rows * variables ≤ 2 ^ 25 }
        requires values { rows * responses ≤ 2 ^ 25 }
        ensures { IfOk result (λ r. r ≡ record { rows = []; variables = variables; responses = responses; spare = rows }) }
    {
        Ok(RowPool {
            points: Pool::reserve(alloc, rows, variables)?,
            values: Pool::reserve(alloc, rows, responses)?,
            firsts: vec![in alloc; 0; rows]?,
        })
    }

    /// Adds a row behind the others. The number of the first row with its point is handed in.
    pub fn push(&mut self, point: &[Dec], values: &[Dec], first: u32)
        requires spare { 1 ≤ self.old.spare }
        requires variables { length point.now ≡ self.old.variables }
        requires responses { length values.now ≡ self.old.responses }
        requires from { 1 ≤ first }
        requires first { position (λ row. same_point row.point point.now) (self.old.rows ++ record { point = point.now; values = values.now } ∷ []) ≡ Some (first - 1) }
        ensures rows { self.new.rows ≡ self.old.rows ++ record { point = point.now; values = values.now } ∷ [] }
        ensures variables { self.new.variables ≡ self.old.variables }
        ensures responses { self.new.responses ≡ self.old.responses }
        ensures spare { self.new.spare + 1 ≡ self.old.spare }
    {
        let row = self.points.put_row(point);
        self.values.put_row(values);
        self.firsts[row.index as usize] = first;
    }
}

impl Rows for RowPool {
    ghost rows = { λ r. r.rows };

    fn count(&self) -> u32 {
        self.points.count() as u32
    }

    fn point(&self, row: u32) -> &[Dec] {
        self.points.row(RowId { index: row - 1 })
    }

    fn values(&self, row: u32) -> &[Dec] {
        self.values.row(RowId { index: row - 1 })
    }

    fn first(&self, row: u32) -> u32 {
        self.firsts[row as usize - 1]
    }
}
