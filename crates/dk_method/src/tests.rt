//! The points of each method, worked out by hand: two variables, whose numbers are tenths.
ghost use Rattle.std.specs.Prelude.{IsTrue, IfSome};
ghost use Rattle.std.specs.List.{All};
ghost use Rattle.dk_types.specs.Sound.{IsNumber, IsBetween};

use crate::centered::put_around;
use crate::grid::put_in_grid;
use crate::vector::{put_after_steps, put_towards};
use crate::written::put_listed;
use dk_num::{Dec, Unit, from_units};
use std::alloc::{AllocError, Global};
use std::test::Fail;

const TENTHS: Unit = Unit { exponent: -1 };

/// A point of two numbers.
type Pair = (i64, i64);

/// Whether so many tenths may be a number of a study.
fn is_number(tenths: i64) -> bool
    ensures { IsTrue result → IsNumber TENTHS.exponent tenths }
{
    from_units(i128::from(tenths), TENTHS).is_moderate()
}

/// Two such numbers.
fn numbers(pair: Pair) -> Option<[i128; 2]>
    ensures { IfSome result (λ numbers. All (IsNumber TENTHS.exponent) numbers) }
{
    if is_number(pair.0) && is_number(pair.1) {
        return Some([i128::from(pair.0), i128::from(pair.1)]);
    }
    None
}

/// Whether these may be counts of a study, of at least this number.
fn are_counts(counts: &[u32], least: u32) -> bool
    ensures { IsTrue result → All (IsBetween least 10000) counts.now }
{
    for count in counts {
        if *count < least || *count > 10_000 {
            return false;
        }
    }
    true
}

/// Adds a point: each number behind a blank, and a line feed.
fn put_line(point: &[Dec], lines: &mut String) -> Result<(), AllocError> {
    for number in point {
        let mut text = [0u8; 64];
        let length = number.table_text(&mut text);
        lines.push(' ')?;
        for byte in &text[..length] {
            lines.push(char::from(*byte))?;
        }
    }
    lines.push('\n')
}

fn by_steps(alloc: Global, from: Pair, step: Pair, steps: u32) -> Result<String, Fail> {
    let mut lines = String::new(alloc);
    if let (Some(from), Some(step)) = (numbers(from), numbers(step)) {
        for i in 0..steps.min(10_000) + 1 {
            let mut point = [Dec::whole(0); 2];
            put_after_steps(i, &from, &step, TENTHS, &mut point);
            put_line(&point, &mut lines)?;
        }
    }
    Ok(lines)
}

fn up_to(alloc: Global, from: Pair, last: Pair, steps: u32) -> Result<String, Fail> {
    let mut lines = String::new(alloc);
    let steps = steps.min(10_000);
    if let (Some(from), Some(last)) = (numbers(from), numbers(last)) {
        for i in 0..steps + 1 {
            let mut point = [Dec::whole(0); 2];
            put_towards(i, steps, &from, &last, TENTHS, &mut point);
            put_line(&point, &mut lines)?;
        }
    }
    Ok(lines)
}

fn listed(alloc: Global, first: Pair, second: Pair) -> Result<String, Fail> {
    let mut lines = String::new(alloc);
    if is_number(first.0) && is_number(first.1) && is_number(second.0) && is_number(second.1) {
        let numbers = [
            i128::from(first.0),
            i128::from(first.1),
            i128::from(second.0),
            i128::from(second.1),
        ];
        for i in 0..2 {
            let mut point = [Dec::whole(0); 2];
            put_listed(i, &numbers, TENTHS, &mut point);
            put_line(&point, &mut lines)?;
        }
    }
    Ok(lines)
}

fn around(alloc: Global, centre: Pair, step: Pair, counts: [u32; 2]) -> Result<String, Fail> {
    let mut lines = String::new(alloc);
    if let (Some(centre), Some(step)) = (numbers(centre), numbers(step)) {
        let [first, second] = counts;
        if first > 10_000 || second > 10_000 {
            return Ok(lines);
        }
        for i in 0..1 + 2 * (first + second) {
            let mut point = [Dec::whole(0); 2];
            put_around(i, &centre, &step, &[first, second], TENTHS, &mut point);
            put_line(&point, &mut lines)?;
        }
    }
    Ok(lines)
}

fn grid(alloc: Global, partitions: [u32; 2], lower: Pair, upper: Pair) -> Result<String, Fail> {
    let mut lines = String::new(alloc);
    if let (Some(lower), Some(upper)) = (numbers(lower), numbers(upper)) {
        if are_counts(&partitions, 1) {
            for i in 0..6 {
                let mut point = [Dec::whole(0); 2];
                put_in_grid(i, &partitions, &lower, &upper, TENTHS, &mut point);
                put_line(&point, &mut lines)?;
            }
        }
    }
    Ok(lines)
}

/// Points go on by the step, also backwards; without steps there is the first one alone.
#[test]
fn vectors_go_on_by_their_step(rt: HostRuntime) -> Result<(), Fail> {
    let alloc = rt.alloc();
    let cases = [
        ((0, 0), (5, 5), 2, " 0 0\n 0.5 0.5\n 1 1\n"),
        ((10, -3), (-5, 2), 2, " 1 -0.3\n 0.5 -0.1\n 0 0.1\n"),
        ((7, 8), (1, 1), 0, " 0.7 0.8\n"),
    ];
    for (from, step, steps, wanted) in cases {
        assert_eq!(rt; by_steps(alloc, from, step, steps)?.as_str(), wanted);
    }
    Ok(())
}

/// Each number goes up to its last one by itself, rounded to tenths, ties away from the first; without steps there is
/// the first point alone.
#[test]
fn vectors_go_up_to_their_last_point(rt: HostRuntime) -> Result<(), Fail> {
    let alloc = rt.alloc();
    let cases = [
        (
            (0, 0),
            (10, -10),
            4,
            " 0 0\n 0.3 -0.3\n 0.5 -0.5\n 0.8 -0.8\n 1 -1\n",
        ),
        ((2, 0), (2, 1), 2, " 0.2 0\n 0.2 0.1\n 0.2 0.1\n"),
        ((7, 8), (1, 1), 0, " 0.7 0.8\n"),
    ];
    for (from, last, steps, wanted) in cases {
        assert_eq!(rt; up_to(alloc, from, last, steps)?.as_str(), wanted);
    }
    Ok(())
}

/// A list's points are cut from its numbers.
#[test]
fn lists_are_cut_into_points(rt: HostRuntime) -> Result<(), Fail> {
    let lines = listed(rt.alloc(), (1, 0), (-30, 45))?;
    assert_eq!(rt; lines.as_str(), " 0.1 0\n -3 4.5\n");
    Ok(())
}

/// The centre comes first; then each variable alone, from its steps back to its steps on.
#[test]
fn centered_points_move_one_variable(rt: HostRuntime) -> Result<(), Fail> {
    let alloc = rt.alloc();
    let cases = [
        ([2, 1], " 1 2\n 0 2\n 0.5 2\n 1.5 2\n 2 2\n 1 3\n 1 1\n"),
        ([0, 1], " 1 2\n 1 3\n 1 1\n"),
        ([1, 0], " 1 2\n 0.5 2\n 1.5 2\n"),
    ];
    for (counts, wanted) in cases {
        let lines = around(alloc, (10, 20), (5, -10), counts)?;
        assert_eq!(rt; lines.as_str(), wanted);
    }
    Ok(())
}

/// The first variable varies fastest, and both bounds are reached; a cut is rounded to tenths, ties away from the lower
/// bound, so that values may come twice.
#[test]
fn grids_vary_the_first_variable_fastest(rt: HostRuntime) -> Result<(), Fail> {
    let alloc = rt.alloc();
    let cases = [
        (
            [2, 1],
            (-10, 20),
            (0, 30),
            " -1 2\n -0.5 2\n 0 2\n -1 3\n -0.5 3\n 0 3\n",
        ),
        (
            [2, 1],
            (-1, 0),
            (0, 1),
            " -0.1 0\n 0 0\n 0 0\n -0.1 0.1\n 0 0.1\n 0 0.1\n",
        ),
        (
            [1, 2],
            (0, 0),
            (3, 3),
            " 0 0\n 0.3 0\n 0 0.2\n 0.3 0.2\n 0 0.3\n 0.3 0.3\n",
        ),
    ];
    for (partitions, lower, upper, wanted) in cases {
        let lines = grid(alloc, partitions, lower, upper)?;
        assert_eq!(rt; lines.as_str(), wanted);
    }
    Ok(())
}
