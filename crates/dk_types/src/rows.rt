// The rows that an evaluation gives.
ghost use Rattle.std.specs.Prelude.{◌≡◌, ℕ, ◌-◌, ◌≤◌, List, length, option_map, slice_get, Some};
ghost use Rattle.dk_types.specs.Best.{first_with_point};
ghost use Rattle.dk_types.specs.declared.rows.Row.{Row};

use crate::Decs;
use dk_num::Dec;

/// A point and the values that its evaluation gave: one decimal a variable, one a response.
#[derive(Debug, Drop)]
pub struct Row {
    pub point: Decs,
    pub values: Decs,
}

/// The rows of a study so far. They are numbered from 1.
pub trait Rows {
    /// The rows, in order.
    ghost rows: { Self → List Row };

    /// How many rows there are.
    fn count(&self) -> u32
        ensures { result ≡ length (rows self.now) };

    /// The point of the row of this number.
    fn point(&self, row: u32) -> &[Dec]
        requires from { 1 ≤ row }
        requires to { row ≤ length (rows self.now) }
        ensures { option_map (λ r. r.point) (slice_get (rows self.now) (row - 1)) ≡ Some result.now };

    /// The values of the row of this number.
    fn values(&self, row: u32) -> &[Dec]
        requires from { 1 ≤ row }
        requires to { row ≤ length (rows self.now) }
        ensures { option_map (λ r. r.values) (slice_get (rows self.now) (row - 1)) ≡ Some result.now };

    /// The number of the first row with the same point.
    fn first(&self, row: u32) -> u32
        requires from { 1 ≤ row }
        requires to { row ≤ length (rows self.now) }
        ensures from { 1 ≤ result }
        ensures first { first_with_point (rows self.now) row ≡ Some (result - 1) };
}
