//! Laws of the points. Each is the contract of a function that does nothing.
ghost use Rattle.dk_method.specs.Laws.{EachChoiceOnce, EachMoveOnce, EachQuantityIsSmall};
ghost use Rattle.dk_method.specs.Searches.{EachSearchStepsOn, EachSearchEndsAtItsBest};
ghost use Rattle.dk_method.specs.Extents.{EachPointIsWhole, EachPointHasItsValues, EachVectorGoesOn, EachListIsItsNumbers, EachGridSpansItsBounds, EachCenteredBeginsAtItsCentre};

/// In a compass search (`compass_search`) the first row's point is the initial one, and that of each other row lies a step
/// away from an earlier row's, in one direction, and keeps the bounds that are given (`lower_bounds`, `upper_bounds`). The
/// step is `initial_delta` halved so and so often: from row to row it never grows.
pub fn each_search_steps_on()
    ensures holds { EachSearchStepsOn }
{}

/// Where a compass search ends well, it ends at its best row, and where it ends since its step came below the threshold
/// (`threshold_delta`), that row is stationary: each point one last step away from it, in whatever direction keeps the bounds,
/// was evaluated, and none is below it (Kolda, Lewis and Torczon, section 3). Half that step is below the threshold.
pub fn each_search_ends_at_its_best()
    ensures holds { EachSearchEndsAtItsBest }
{}

/// In each study that is accepted, each number of each point has at most 34 digits in units, so that an i128 holds it.
pub fn each_quantity_is_small()
    ensures holds { EachQuantityIsSmall }
{}

/// A multidimensional study (`multidim_parameter_study`) makes each combination of one choice for each variable, from 0
/// up to its `partitions`, at just one of its points, the first variable varying fastest; and each of its points is
/// such a combination.
pub fn each_choice_once()
    ensures holds { EachChoiceOnce }
{}

/// A centered study (`centered_parameter_study`) moves each variable alone, by each number of steps back and on up to
/// its `steps_per_variable`, at just one of its points; and each of its points but the centre is such a move of one
/// variable. The variables come in order, each from its most steps back up to its most steps on.
pub fn each_move_once()
    ensures holds { EachMoveOnce }
{}

/// Each point of a study has one number for each variable.
pub fn each_point_is_whole()
    ensures holds { EachPointIsWhole }
{}

/// The decimals of each point have the values of its numbers of units.
pub fn each_point_has_its_values()
    ensures holds { EachPointHasItsValues }
{}

/// A vector study (`vector_parameter_study`) has one point more than steps and begins at the initial point. By a
/// `step_vector` each point is one step further than the point before it. Up to a `final_point`, where there is a step,
/// each number of each point is the whole number nearest to its part of the way, and the last point is the final one.
pub fn each_vector_goes_on()
    ensures holds { EachVectorGoesOn }
{}

/// The points of a list study (`list_parameter_study`), one behind the other, are its `list_of_points`.
pub fn each_list_is_its_numbers()
    ensures holds { EachListIsItsNumbers }
{}

/// A multidimensional study (`multidim_parameter_study`) begins at the `lower_bounds` and ends at the `upper_bounds`,
/// and each number of each point is one of the p + 1 values of its variable, whose range is cut in p `partitions`.
pub fn each_grid_spans_its_bounds()
    ensures holds { EachGridSpansItsBounds }
{}

/// A centered study (`centered_parameter_study`) begins at the initial point, and each other point is the initial one
/// with one variable moved by a number of its steps.
pub fn each_centered_begins_at_its_centre()
    ensures holds { EachCenteredBeginsAtItsCentre }
{}
