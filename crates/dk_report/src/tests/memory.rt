// Rows in memory, which contracts see.
ghost use Rattle.std.specs.Prelude.{◌≡◌, ◌<◌, ◌^◌, position, vec_len};
ghost use Rattle.dk_types.specs.Best.{same_point};

use dk_num::Dec;
use dk_types::{Row, Rows};
use std::marker::Model;

/// Rows in order, fewer than 2^32.
#[derive(Drop)]
pub struct Listed {
    rows: Vec<Row>,
}

impl Model for Listed {
    ghost use Rattle.std.specs.Prelude.{◌<◌, ◌^◌, List, length};
    ghost use Rattle.dk_types.specs.declared.rows.Row.{Row};

    ghost Value = { List Row };

    ghost view = { λ r. r.rows.items };

    ghost invariant = { λ r. length r.rows.items < 2 ^ 32 };
}

impl Listed {
    pub fn of(rows: Vec<Row>) -> Listed
        requires { vec_len rows < 2 ^ 32 }
        ensures { result ≡ rows.items }
    {
        Listed { rows }
    }
}

impl Rows for Listed {
    ghost rows = { λ r. r };

    fn count(&self) -> u32 {
        self.rows.len() as u32
    }

    fn point(&self, row: u32) -> &[Dec] {
        self.rows[row as usize - 1].point.items()
    }

    fn values(&self, row: u32) -> &[Dec] {
        self.rows[row as usize - 1].values.items()
    }

    fn first(&self, row: u32) -> u32 {
        match place_of(&self.rows, self.point(row)) {
            Some(place) => place as u32 + 1,
            None => row,
        }
    }
}

/// Where the first row with this point stands.
fn place_of(rows: &[Row], point: &[Dec]) -> Option<usize>
    ensures { result ≡ position (λ row. same_point row.point point.now) rows.now }
{
    rows.iter()
        .position(|row| is_same_point(row.point.items(), point))
}

fn is_same_point(point: &[Dec], other: &[Dec]) -> bool
    ensures { result ≡ same_point point.now other.now }
{
    point == other
}
