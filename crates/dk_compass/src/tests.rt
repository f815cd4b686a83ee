//! Iterations worked out by hand: two variables, whose numbers are tenths. Each begins at 1 and 2 with the value 10 and
//! a step of 0.5.
ghost use Rattle.std.specs.Prelude.{◌≡◌, length, IfOk, IsSome};
ghost use Rattle.dk_compass.specs.States.{HasOneEach, IsSearchState};

use crate::{State, Step, ended, polls, step};
use dk_num::{Dec, Unit};
use dk_pool::{Pool, RowId};
use dk_types::{Labels, Text, Units, Variables, Why};
use std::alloc::{AllocError, Global};
use std::test::Fail;

const TENTHS: Unit = Unit { exponent: -1 };

/// A bound for each of the two variables.
type Bound = Option<[i128; 2]>;

#[derive(Drop)]
struct Search {
    variables: Variables,
    state: State,
}

/// What an iteration made of a search: its polls, one a line, what it did, and where the search stands.
#[derive(Drop)]
struct Told {
    polls: String,
    step: Step,
    state: State,
}

fn bound_of(alloc: Global, bound: Bound) -> Result<Option<Units>, AllocError>
    ensures { IfOk result (HasOneEach 2) }
{
    match bound {
        Some(numbers) => Ok(Some(Units::of(alloc, &numbers)?)),
        None => Ok(None),
    }
}

fn variables(alloc: Global, lower: Bound, upper: Bound) -> Result<Variables, AllocError>
    ensures labels { IfOk result (λ v. length v.labels ≡ 2) }
    ensures lower { IfOk result (λ v. HasOneEach 2 v.lower) }
    ensures upper { IfOk result (λ v. HasOneEach 2 v.upper) }
{
    let labels = [Text::of(alloc, "x1")?, Text::of(alloc, "x2")?];
    Ok(Variables {
        labels: Labels::of(alloc, &labels)?,
        initial: Units::of(alloc, &[10, 20])?,
        lower: bound_of(alloc, lower)?,
        upper: bound_of(alloc, upper)?,
    })
}

fn begun(alloc: Global, lower: Bound, upper: Bound) -> Result<Search, AllocError>
    ensures state { IfOk result (λ s. IsSearchState s.variables s.state) }
    ensures labels { IfOk result (λ s. length s.variables.labels ≡ 2) }
    ensures known { IfOk result (λ s. IsSome s.state.value) }
    ensures first { IfOk result (λ s. s.state.iteration ≡ 0) }
{
    Ok(Search {
        variables: variables(alloc, lower, upper)?,
        state: State {
            x: Units::of(alloc, &[10, 20])?,
            value: Some(Dec::whole(10)),
            delta: 5,
            iteration: 0,
        },
    })
}

/// Adds a point: each number behind a blank, and a line feed.
fn put_line(point: &[Dec], lines: &mut String) -> Result<(), AllocError> {
    for number in point {
        let mut text = [0u8; 64];
        let length = number.table_text(&mut text);
        lines.push(' ')?;
        for byte in &text[..length] {
            lines.push(char::from(*byte))?;
        }
    }
    lines.push('\n')
}

/// An iteration between these bounds, whose polls have these values; none where it hasn't as many polls.
fn iteration(
    alloc: Global,
    lower: Bound,
    upper: Bound,
    values: &[Dec],
) -> Result<Option<Told>, Fail> {
    let mut search = begun(alloc, lower, upper)?;
    let mut pool = Pool::reserve(alloc, 4, 2)?;
    let count = polls(&search.state, &search.variables, TENTHS, &mut pool);
    if count as usize != values.len() {
        return Ok(None);
    }
    let mut lines = String::new(alloc);
    for index in 0..count {
        put_line(pool.row(RowId { index }), &mut lines)?;
    }
    let step = step(&mut search.state, &search.variables, values);
    Ok(Some(Told {
        polls: lines,
        step,
        state: search.state,
    }))
}

/// On along the first variable lies behind its bound, so no poll is made there, and the others keep the numbers of their
/// directions. The second of the three polls is the least one, and the search moves to it.
#[test]
fn moves_to_the_least_poll_within_the_bounds(rt: HostRuntime) -> Result<(), Fail> {
    let values = [Dec::whole(9), Dec::whole(7), Dec::whole(8)];
    let told = iteration(rt.alloc(), None, Some([14, 25]), &values)?.expect(
        &rt,
        "three of four polls keep the bounds",
    );
    assert_eq!(rt; told.polls.as_str(), " 0.5 2\n 1 2.5\n 1 1.5\n");
    assert_eq!(rt; told.step, Step::Moved { direction: 2 });
    assert_eq!(rt; told.state.x.items(), [10, 25].as_slice());
    assert_eq!(rt; told.state.value, Some(Dec::whole(7)));
    assert_eq!(rt; (told.state.delta, told.state.iteration), (5, 1));
    Ok(())
}

/// A poll that is only as good as the iterate is no reason to move; half of five units is two.
#[test]
fn contracts_on_a_tie_with_the_iterate(rt: HostRuntime) -> Result<(), Fail> {
    let values = [
        Dec::whole(12),
        Dec::whole(10),
        Dec::whole(11),
        Dec::whole(10),
    ];
    let told = iteration(rt.alloc(), None, None, &values)?.expect(
        &rt,
        "without bounds there are four polls",
    );
    assert_eq!(rt; told.polls.as_str(), " 1.5 2\n 0.5 2\n 1 2.5\n 1 1.5\n");
    assert_eq!(rt; told.step, Step::Contracted);
    assert_eq!(rt; told.state.x.items(), [10, 20].as_slice());
    assert_eq!(rt; told.state.value, Some(Dec::whole(10)));
    assert_eq!(rt; (told.state.delta, told.state.iteration), (2, 1));
    Ok(())
}

/// Of polls that are equally good the first one is taken, also where an earlier one is below the iterate.
#[test]
fn takes_the_first_of_equal_polls(rt: HostRuntime) -> Result<(), Fail> {
    let values = [Dec::whole(9), Dec::whole(7), Dec::whole(7), Dec::whole(8)];
    let told = iteration(rt.alloc(), Some([5, 15]), None, &values)?.expect(
        &rt,
        "each poll keeps the lower bounds",
    );
    assert_eq!(rt; told.step, Step::Moved { direction: 1 });
    assert_eq!(rt; told.state.x.items(), [5, 20].as_slice());
    Ok(())
}

/// Between bounds that leave no poll the search contracts.
#[test]
fn contracts_without_polls(rt: HostRuntime) -> Result<(), Fail> {
    let told = iteration(rt.alloc(), Some([6, 16]), Some([14, 24]), &[])?.expect(
        &rt,
        "no poll keeps the bounds",
    );
    assert_eq!(rt; told.polls.as_str(), "");
    assert_eq!(rt; told.step, Step::Contracted);
    assert_eq!(rt; (told.state.delta, told.state.iteration), (2, 1));
    Ok(())
}

/// The threshold counts before the iterations, and these before the evaluations; each of the three may just be reached.
#[test]
fn ends_for_the_first_reason(rt: HostRuntime) -> Result<(), Fail> {
    let search = begun(rt.alloc(), None, None)?;
    let cases = [
        (6, 0, 3, Some(Why::Threshold)),
        (5, 0, 3, Some(Why::Iterations)),
        (5, 1, 3, Some(Why::Evaluations)),
        (5, 1, 4, None),
    ];
    for (threshold, iterations, room, wanted) in cases {
        assert_eq!(rt;
            ended(&search.state, threshold, iterations, room, 4),
            wanted
        );
    }
    Ok(())
}
