// The bounds of a search.
ghost use Rattle.std.specs.Prelude.{◌≡◌, ◌<◌, length, set, get_or, zip, pos, int_le};
ghost use Rattle.std.specs.List.{list_all};
ghost use Rattle.dk_types.specs.Search.{keeps_lower as keeps_lower_defined, keeps_upper as keeps_upper_defined, keeps_bounds as keeps_bounds_defined};
ghost use Rattle.dk_compass.specs.States.{HasOneEach};

use dk_types::{Units, Variables};

/// Whether a point keeps the bounds that are given. It is the iterate with this number at this place.
pub fn keeps_bounds(variables: &Variables, x: &[i128], place: usize, number: i128) -> bool
    requires within { place < length x.now }
    requires lower { HasOneEach (length x.now) variables.now.lower }
    requires upper { HasOneEach (length x.now) variables.now.upper }
    ensures { result ≡ keeps_bounds_defined variables.now (set x.now place number) }
{
    keeps_lower(&variables.lower, x, place, number)
        && keeps_upper(&variables.upper, x, place, number)
}

fn keeps_lower(lower: &Option<Units>, x: &[i128], place: usize, number: i128) -> bool
    requires within { place < length x.now }
    requires long { HasOneEach (length x.now) lower.now }
    ensures { result ≡ keeps_lower_defined lower.now (set x.now place number) }
{
    match lower {
        Some(lower) => is_above(lower.items(), x, place, number),
        None => true,
    }
}

fn keeps_upper(upper: &Option<Units>, x: &[i128], place: usize, number: i128) -> bool
    requires within { place < length x.now }
    requires long { HasOneEach (length x.now) upper.now }
    ensures { result ≡ keeps_upper_defined upper.now (set x.now place number) }
{
    match upper {
        Some(upper) => is_under(upper.items(), x, place, number),
        None => true,
    }
}

/// Whether each number of the point is at least its lower bound.
fn is_above(lower: &[i128], x: &[i128], place: usize, number: i128) -> bool
    requires within { place < length x.now }
    requires long { length lower.now ≡ length x.now }
    ensures { result ≡ list_all (λ c. int_le c.0 c.1) (zip lower.now (set x.now place number)) }
{
    for variable in 0..x.len() {
        if lower[variable] > number_at(x, place, number, variable) {
            return false;
        }
    }
    true
}

/// Whether each number of the point is at most its upper bound.
fn is_under(upper: &[i128], x: &[i128], place: usize, number: i128) -> bool
    requires within { place < length x.now }
    requires long { length upper.now ≡ length x.now }
    ensures { result ≡ list_all (λ c. int_le c.0 c.1) (zip (set x.now place number) upper.now) }
{
    for variable in 0..x.len() {
        if number_at(x, place, number, variable) > upper[variable] {
            return false;
        }
    }
    true
}

/// The number of a variable in the point.
fn number_at(x: &[i128], place: usize, number: i128, variable: usize) -> i128
    requires within { variable < length x.now }
    ensures { result ≡ get_or (set x.now place number) variable (pos 0) }
{
    if variable == place {
        number
    } else {
        x[variable]
    }
}
