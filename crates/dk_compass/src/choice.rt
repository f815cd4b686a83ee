// Which poll an iteration moves to.
ghost use Rattle.std.specs.Prelude.{◌≡◌, ◌<◌, ◌∷◌, [], length, option_and_then, IfSome};
ghost use Rattle.dk_types.specs.Best.{is_below};
ghost use Rattle.dk_types.specs.Search.{first_least};
ghost use Rattle.dk_compass.specs.States.{single, better as better_place};

use dk_num::Dec;

/// The place of the first least of the polls, by their values, where it is below the iterate.
pub fn better(values: &[Dec], iterate: Option<Dec>) -> Option<usize>
    ensures value { result ≡ option_and_then (λ v. better_place (single values.now) (v ∷ [])) iterate }
    ensures within { IfSome result (λ place. place < length values.now) }
{
    let iterate = iterate?;
    let place = least(values)?;
    if values[place] < iterate {
        Some(place)
    } else {
        None
    }
}

/// The place of the first least value.
fn least(values: &[Dec]) -> Option<usize>
    ensures value { result ≡ first_least (single values.now) }
    ensures within { IfSome result (λ place. place < length values.now) }
{
    if values.is_empty() {
        return None;
    }
    let mut least = 0;
    for place in 0..values.len() {
        if is_less(values[place], values[least]) {
            least = place;
        }
    }
    Some(least)
}

fn is_less(value: Dec, other: Dec) -> bool
    ensures { result ≡ is_below (value ∷ []) (other ∷ []) }
{
    value < other
}
