// The best row of a study.
ghost use Rattle.std.specs.Prelude.{◌≡◌, ◌-◌, ◌<◌, ◌≤◌, length, position, option_map, None, Some, IfSome};
ghost use Rattle.std.specs.List.{All};
ghost use Rattle.dk_types.specs.Best.{best as best_place, is_below as is_below_defined, is_least};
ghost use Rattle.dk_types.specs.Widths.{HaveWidths};
ghost use Rattle.dk_report.specs.Objectives.{HasOneObjective};

use dk_num::Dec;
use dk_types::{Rows, Study};

/// The number, from 1, of the first row with the least value; none exactly where the study hasn't just one objective
/// function, or there are no rows.
pub fn best<R: Rows>(study: &Study, rows: &R) -> Option<u32>
    requires widths { HaveWidths study.now (R.rows rows.now) }
    ensures value { option_map (λ row. row - 1) result ≡ best_place study.now (R.rows rows.now) }
    ensures none { result ≡ None → HasOneObjective study.now → length (R.rows rows.now) ≡ 0 }
    ensures within { IfSome result (λ row. (1 ≤ row) × (row ≤ length (R.rows rows.now))) }
{
    if !study.responses.objectives || study.responses.labels.items().len() != 1 {
        return None;
    }
    if rows.count() == 0 {
        return None;
    }
    Some(least_row(rows))
}

/// The number of the first row with the least value.
fn least_row<R: Rows>(rows: &R) -> u32
    requires some { 0 < length (R.rows rows.now) }
    requires values { All (λ row. 0 < length row.values) (R.rows rows.now) }
    ensures value { position (is_least (R.rows rows.now)) (R.rows rows.now) ≡ Some (result - 1) }
    ensures from { 1 ≤ result }
    ensures to { result ≤ length (R.rows rows.now) }
{
    let mut least = 0;
    for place in 0..rows.count() {
        if is_below(rows.values(place + 1), rows.values(least + 1)) {
            least = place;
        }
    }
    least + 1
}

/// Whether the first value is below the first one of the others.
fn is_below(values: &[Dec], others: &[Dec]) -> bool
    ensures { result ≡ is_below_defined values.now others.now }
{
    match (values, others) {
        ([value, ..], [other, ..]) => value < other,
        _ => false,
    }
}
