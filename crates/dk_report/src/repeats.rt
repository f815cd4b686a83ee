// The rows whose point stands in an earlier one.
ghost use Rattle.std.specs.Prelude.{◌≡◌, ◌≤◌, length};
ghost use Rattle.dk_types.specs.Best.{duplicates};

use dk_types::Rows;

/// How many rows have the point of an earlier one.
pub fn repeat_count<R: Rows>(rows: &R) -> u32
    ensures value { result ≡ duplicates (R.rows rows.now) }
    ensures few { result ≤ length (R.rows rows.now) }
{
    let mut count = 0;
    for place in 0..rows.count() {
        let row = place + 1;
        if rows.first(row) != row {
            count += 1;
        }
    }
    count
}
